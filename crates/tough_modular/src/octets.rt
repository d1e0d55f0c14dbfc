//! Numbers in words from bytes and back, the highest byte first.

ghost use Rattle.std.specs.Prelude.{◌≡◌, ◌+◌, ◌*◌, ◌/◌, ◌%◌, ◌^◌, ◌<◌, ◌≤◌, length};
ghost use Rattle.tough_modular.specs.Number.{number};
ghost use Rattle.tough_modular.specs.Octets.{octets_number, number_octets};
ghost use Rattle.tough_modular.specs.Places.{low_byte};

// The byte at this place from the end, and 0 before the first.
#[tactic(auto, unfolding(crate::specs::Places::low_byte))]
fn byte_from_end(bytes: &[u8], place: usize) -> u8
    ensures { result ≡ low_byte bytes.now place }
{
    if place < bytes.len() {
        bytes[bytes.len() - 1 - place]
    } else {
        0
    }
}

// The eight bytes from this place on, the lowest first.
fn word_from_end(bytes: &[u8], place: usize) -> u64
    requires { place < 2 ^ 32 }
    ensures { result ≡ low_byte bytes.now place + 256 * (low_byte bytes.now (place + 1)
        + 256 * (low_byte bytes.now (place + 2) + 256 * (low_byte bytes.now (place + 3)
        + 256 * (low_byte bytes.now (place + 4) + 256 * (low_byte bytes.now (place + 5)
        + 256 * (low_byte bytes.now (place + 6) + 256 * low_byte bytes.now (place + 7))))))) }
{
    let b0 = byte_from_end(bytes, place);
    let b1 = byte_from_end(bytes, place + 1);
    let b2 = byte_from_end(bytes, place + 2);
    let b3 = byte_from_end(bytes, place + 3);
    let b4 = byte_from_end(bytes, place + 4);
    let b5 = byte_from_end(bytes, place + 5);
    let b6 = byte_from_end(bytes, place + 6);
    let b7 = byte_from_end(bytes, place + 7);
    u64::from_le_bytes([b0, b1, b2, b3, b4, b5, b6, b7])
}

/// Sets the number of the bytes.
pub fn set_number(words: &mut [u64], bytes: &[u8])
    requires room { length bytes.now ≤ 8 * length words.old }
    requires most { length words.old ≤ 128 }
    ensures { number words.new ≡ octets_number bytes.now }
{
    for i in 0..words.len() {
        words[i] = word_from_end(bytes, 8 * i);
    }
}

/// The byte that counts 256 to this power.
pub fn byte_of(words: &[u64], place: usize) -> u8
    ensures { result ≡ number words.now / 256 ^ place % 256 }
{
    if place / 8 < words.len() {
        words[place / 8].to_le_bytes()[place % 8]
    } else {
        0
    }
}

/// Sets the lowest bytes of the number.
pub fn set_bytes(bytes: &mut [u8], words: &[u64])
    ensures { bytes.new ≡ number_octets (number words.now) (length bytes.old) }
{
    let len = bytes.len();
    for i in 0..len {
        bytes[i] = byte_of(words, len - 1 - i);
    }
}
