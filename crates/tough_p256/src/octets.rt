//! Numbers of 32 bytes.

ghost use Rattle.std.specs.Prelude.{◌≡◌, length};
ghost use Rattle.tough_modular.specs.Number.{number};
ghost use Rattle.tough_modular.specs.Octets.{octets_number, number_octets};

use byteorder::{BigEndian, ByteOrder};
use tough_modular::set_bytes;

/// The words of the number of 32 bytes, the highest first.
pub fn words_of(bytes: &[u8]) -> [u64; 4]
    requires { length bytes.now ≡ 32 }
    ensures { number result ≡ octets_number bytes.now }
{
    [
        BigEndian::read_u64(&bytes[24..32]),
        BigEndian::read_u64(&bytes[16..24]),
        BigEndian::read_u64(&bytes[8..16]),
        BigEndian::read_u64(&bytes[..8]),
    ]
}

/// The 32 bytes of the number, the highest first.
pub fn octets_of(words: &[u64; 4]) -> [u8; 32]
    ensures { result ≡ number_octets (number words.now) 32 }
{
    let mut bytes = [0; 32];
    set_bytes(&mut bytes, words);
    bytes
}
