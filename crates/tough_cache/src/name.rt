//! Names of files with a version.

ghost use Rattle.std.specs.Prelude.{◌≡◌, ◌≤◌, length, drop};
ghost use Rattle.tough_cache.specs.Versioned.{is_versioned, name_in, names_version};

/// Where the name begins, behind the last slash.
pub(crate) fn name_place(path: &[u8]) -> usize
    ensures name { drop result path.now ≡ name_in path.now }
    ensures inside { result ≤ length path.now }
{
    let mut place = 0;
    for at in 0..path.len() {
        if path[at] == b'/' {
            place = at + 1;
        }
    }
    place
}

/// Whether the name is a number, a dot and the rest.
pub(crate) fn is_versioned(name: &[u8]) -> bool
    ensures { result ≡ is_versioned name.now }
{
    let mut begun = false;
    for at in 0..name.len() {
        let byte = name[at];
        if byte == b'.' {
            return begun;
        }
        if !byte.is_ascii_digit() {
            return false;
        }
        begun = true;
    }
    false
}

/// Whether the path's last part is such a name, and ends in `.json`.
pub(crate) fn names_version(path: &[u8]) -> bool
    ensures { result ≡ names_version path.now }
{
    let place = name_place(path);
    is_versioned(&path[place..]) && path.ends_with(b".json")
}
