//! Elements: a tag, a length and contents (X.690, 8.1).

ghost use Rattle.std.specs.Prelude.{◌≡◌};
ghost use Rattle.tough_der.specs.Reading.{read_view, bytes_view, pair_view, in_one, in_two, in_three, in_four, length_by, length_at, split, element, whole, after, of_length};

// A length of 128 or more, in one octet.
fn in_one(bytes: &[u8]) -> Option<(usize, &[u8])>
    ensures { read_view result ≡ in_one bytes.now }
{
    match bytes {
        [a, rest @ ..] if *a >= 128 => Some((*a as usize, rest)),
        _ => None,
    }
}

// A length in two octets, the first of which is not zero.
fn in_two(bytes: &[u8]) -> Option<(usize, &[u8])>
    ensures { read_view result ≡ in_two bytes.now }
{
    match bytes {
        [a, b, rest @ ..] if *a != 0 => Some((256 * *a as usize + *b as usize, rest)),
        _ => None,
    }
}

// In three.
fn in_three(bytes: &[u8]) -> Option<(usize, &[u8])>
    ensures { read_view result ≡ in_three bytes.now }
{
    match bytes {
        [a, b, c, rest @ ..] if *a != 0 => Some((
            256 * (256 * *a as usize + *b as usize) + *c as usize,
            rest,
        )),
        _ => None,
    }
}

// In four.
fn in_four(bytes: &[u8]) -> Option<(usize, &[u8])>
    ensures { read_view result ≡ in_four bytes.now }
{
    match bytes {
        [a, b, c, d, rest @ ..] if *a != 0 => Some((
            256 * (256 * (256 * *a as usize + *b as usize) + *c as usize) + *d as usize,
            rest,
        )),
        _ => None,
    }
}

// A length, by what its first octet says, in the shortest form.
#[tactic(auto, unfolding(crate::specs::Reading::length_by))]
fn length_by(first: u8, bytes: &[u8]) -> Option<(usize, &[u8])>
    ensures { read_view result ≡ length_by first bytes.now }
{
    if first < 128 {
        return Some((first as usize, bytes));
    }
    match first {
        0x81 => in_one(bytes),
        0x82 => in_two(bytes),
        0x83 => in_three(bytes),
        0x84 => in_four(bytes),
        _ => None,
    }
}

// A length.
fn length_at(bytes: &[u8]) -> Option<(usize, &[u8])>
    ensures { read_view result ≡ length_at bytes.now }
{
    match bytes {
        [first, rest @ ..] => length_by(*first, rest),
        [] => None,
    }
}

/// So many bytes, and what follows them.
pub fn split(len: usize, bytes: &[u8]) -> Option<(&[u8], &[u8])>
    ensures { pair_view result ≡ split len bytes.now }
{
    if bytes.len() < len {
        return None;
    }
    Some(bytes.split_at(len))
}

/// The contents of the element of this tag in front, and what follows it.
#[tactic(auto, unfolding(crate::specs::Reading::element))]
pub fn element(tag: u8, bytes: &[u8]) -> Option<(&[u8], &[u8])>
    ensures { pair_view result ≡ element tag bytes.now }
{
    match bytes {
        [first, rest @ ..] if *first == tag => {
            let (len, rest) = length_at(rest)?;
            split(len, rest)
        }
        _ => None,
    }
}

/// The contents of the element of this tag, which nothing follows.
#[tactic(auto, unfolding(crate::specs::Reading::whole))]
pub fn whole(tag: u8, bytes: &[u8]) -> Option<&[u8]>
    ensures { bytes_view result ≡ whole tag bytes.now }
{
    let (contents, rest) = element(tag, bytes)?;
    if rest.len() != 0 {
        return None;
    }
    Some(contents)
}

/// What follows these bytes.
#[tactic(auto, unfolding(crate::specs::Reading::after))]
pub fn after<'a>(front: &[u8], bytes: &'a [u8]) -> Option<&'a [u8]>
    ensures { bytes_view result ≡ after front.now bytes.now }
{
    bytes.strip_prefix(front)
}

/// The bytes, where they are so many.
pub fn of_length(len: usize, bytes: &[u8]) -> Option<&[u8]>
    ensures { bytes_view result ≡ of_length len bytes.now }
{
    if bytes.len() != len {
        return None;
    }
    Some(bytes)
}
