//! The file of a signed document.

ghost use Rattle.std.specs.Prelude.{◌≡◌, length};
ghost use Rattle.sha2.specs.Sha256 as digests;
ghost use Rattle.sha2.specs.Sha512 as longer;

use sha2::{Digest, Sha256, Sha512};

/// The bytes of a document's file, their digests and their length.
#[derive(Drop)]
pub struct RoleFile {
    bytes: Vec<u8>,
    sha256: [u8; 32],
    sha512: [u8; 64],
    size: u64,
    ghost digest: { sha256 ≡ digests.sha256 bytes.items },
    ghost second: { sha512 ≡ longer.sha512 bytes.items },
    ghost sized: { size ≡ length bytes.items },
}

impl RoleFile {
    ghost use Rattle.tough_sign.specs.Files.{bytes_of};

    /// The file of these bytes.
    pub fn new(bytes: Vec<u8>) -> RoleFile
        ensures { bytes_of result ≡ bytes.items }
    {
        let sha256 = Sha256::digest(bytes.as_slice());
        let sha512 = Sha512::digest(bytes.as_slice());
        let size = bytes.len() as u64;
        RoleFile {
            bytes,
            sha256,
            sha512,
            size,
        }
    }

    /// The bytes.
    pub fn bytes(&self) -> &Vec<u8>
        ensures { result.now.items ≡ bytes_of self.now }
    {
        &self.bytes
    }

    /// Their SHA-256.
    pub fn sha256(&self) -> &[u8]
        ensures { result.now ≡ digests.sha256 (bytes_of self.now) }
    {
        &self.sha256
    }

    /// Their SHA-512.
    pub fn sha512(&self) -> &[u8]
        ensures { result.now ≡ longer.sha512 (bytes_of self.now) }
    {
        &self.sha512
    }

    /// How many there are.
    pub fn length(&self) -> u64
        ensures { result ≡ length (bytes_of self.now) }
    {
        self.size
    }
}
