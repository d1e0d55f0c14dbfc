//! A first look at a name.
ghost use Rattle.std.specs.Prelude.{◌≡◌};
ghost use Rattle.tough_names.specs.Begins.{is_special, begin_alike};

fn is_special(byte: u8) -> bool
    ensures { result ≡ is_special byte }
{
    matches!(byte, b'*' | b'?' | b'[' | b'\\')
}

/// Whether the name begins with the bytes before the pattern's first special one, as far as it goes. A name that doesn't
/// fits no such pattern.
pub(crate) fn begin_alike(pattern: &[u8], name: &[u8]) -> bool
    ensures { result ≡ begin_alike pattern.now name.now }
{
    for (i, byte) in pattern.iter().enumerate() {
        if is_special(*byte) {
            return true;
        }
        match name.get(i) {
            None => return true,
            Some(other) => {
                if *byte != *other {
                    return false;
                }
            }
        }
    }
    true
}
