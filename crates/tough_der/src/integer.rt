//! Integers that are not negative (X.690, 8.3).

ghost use Rattle.std.specs.Prelude.{◌≡◌};
ghost use Rattle.tough_der.specs.Reading.{bytes_view, is_shortest, without_zero, magnitude, widen, wide};

// Whether the contents are those of no negative number, in the shortest form.
#[tactic(auto, unfolding(crate::specs::Reading::is_shortest))]
fn is_shortest(bytes: &[u8]) -> bool
    ensures { result ≡ is_shortest bytes.now }
{
    match bytes {
        [] => false,
        [first] => *first < 128,
        [first, second, ..] => *first < 128 && !(*first == 0 && *second < 128),
    }
}

// Without the zero in front.
fn without_zero(bytes: &[u8]) -> &[u8]
    ensures { result.now ≡ without_zero bytes.now }
{
    match bytes {
        [0, rest @ ..] => rest,
        _ => bytes,
    }
}

/// The bytes of the number with these contents, the highest first, of which the first is not zero.
#[tactic(auto, unfolding(crate::specs::Reading::magnitude))]
pub fn magnitude(bytes: &[u8]) -> Option<&[u8]>
    ensures { bytes_view result ≡ magnitude bytes.now }
{
    if !is_shortest(bytes) {
        return None;
    }
    Some(without_zero(bytes))
}

// The same number in 32 bytes.
#[tactic(auto, unfolding(crate::specs::Reading::widen))]
fn widen_32(bytes: &[u8]) -> Option<[u8; 32]>
    ensures { result ≡ widen 32 bytes.now }
{
    if bytes.len() > 32 {
        return None;
    }
    let mut wide = [0; 32];
    let (_, tail) = wide.split_at_mut(32 - bytes.len());
    tail.copy_from_slice(bytes);
    Some(wide)
}

// In 8 bytes.
#[tactic(auto, unfolding(crate::specs::Reading::widen))]
fn widen_8(bytes: &[u8]) -> Option<[u8; 8]>
    ensures { result ≡ widen 8 bytes.now }
{
    if bytes.len() > 8 {
        return None;
    }
    let mut wide = [0; 8];
    let (_, tail) = wide.split_at_mut(8 - bytes.len());
    tail.copy_from_slice(bytes);
    Some(wide)
}

/// The number with these contents, in 32 bytes.
pub fn wide_32(bytes: &[u8]) -> Option<[u8; 32]>
    ensures { result ≡ wide 32 bytes.now }
{
    widen_32(magnitude(bytes)?)
}

/// The number with these contents, in 8 bytes.
pub fn wide_8(bytes: &[u8]) -> Option<[u8; 8]>
    ensures { result ≡ wide 8 bytes.now }
{
    widen_8(magnitude(bytes)?)
}
