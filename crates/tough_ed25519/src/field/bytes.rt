//! Numbers of 256 bits from bytes and back.

ghost use Rattle.std.specs.Prelude.{◌≡◌, length};
ghost use Rattle.tough_ed25519.specs.Bytes.{bytes_number, number_bytes};
ghost use Rattle.tough_ed25519.specs.Words.{words_number};

use crate::field::words::Words;
use byteorder::{ByteOrder, LittleEndian};

impl Words {
    /// The number of 32 bytes, the lowest first.
    pub fn from_bytes(bytes: &[u8]) -> Words
        requires { length bytes.now ≡ 32 }
        ensures { words_number result ≡ bytes_number bytes.now }
    {
        Words {
            first: LittleEndian::read_u64(&bytes[..8]),
            second: LittleEndian::read_u64(&bytes[8..16]),
            third: LittleEndian::read_u64(&bytes[16..24]),
            fourth: LittleEndian::read_u64(&bytes[24..32]),
        }
    }

    /// Its 32 bytes, the lowest first.
    pub fn to_bytes(self) -> [u8; 32]
        ensures { result ≡ number_bytes 32 (words_number self) }
    {
        let first = self.first.to_le_bytes();
        let second = self.second.to_le_bytes();
        let third = self.third.to_le_bytes();
        let fourth = self.fourth.to_le_bytes();
        [
            first[0], first[1], first[2], first[3], first[4], first[5], first[6], first[7],
            second[0], second[1], second[2], second[3], second[4], second[5], second[6], second[7],
            third[0], third[1], third[2], third[3], third[4], third[5], third[6], third[7],
            fourth[0], fourth[1], fourth[2], fourth[3], fourth[4], fourth[5], fourth[6], fourth[7],
        ]
    }
}
