//! One of the interleaved loads.

use tough::schema::{self, DemoVerify, Root, Signed, Timestamp};
use tough::{Error, ExpirationEnforcement, MemoryStore, UpdateError, Vault};

/// A load that has verified its root.
#[derive(Clone, Copy, Drop)]
pub struct Load<'a> {
    root: &'a Root,
}

impl<'a> Load<'a> {
    /// Verifies the root under itself.
    pub fn begin(rt: &HostRuntime, root: &'a Signed<Root>) -> Result<Load<'a>, Error> {
        match root.signed.verify_role(rt.alloc(), root, &DemoVerify) {
            Ok(()) => Ok(Load { root: &root.signed }),
            Err(schema::Error::Memory) => Err(Error::Memory),
            Err(source) => Err(Error::VerifyTrustedMetadata { source }),
        }
    }

    /// Puts a timestamp on the vault: its version, or why it was refused.
    pub fn take(
        &self,
        vault: &mut Vault<MemoryStore>,
        timestamp: &Signed<Timestamp>,
    ) -> Result<u64, Error> {
        let start = jiff::Timestamp::UNIX_EPOCH;
        let safe = ExpirationEnforcement::Safe;
        match vault.advance_timestamp(self.root, timestamp, start, safe, &DemoVerify) {
            Ok(_) => Ok(timestamp.signed.version.get()),
            Err(error) => Err(Error::from(UpdateError::from(error))),
        }
    }
}

/// Prints what became of a load.
pub fn tell(rt: &HostRuntime, name: &str, taken: Result<u64, Error>) -> anyhow::Result<()> {
    match taken {
        Ok(version) => println!(rt; "load {name}: timestamp {version}")?,
        Err(
            Error::OlderMetadata {
                role,
                current_version,
                new_version,
            },
        ) => println!(rt;
            "load {name}: OlderMetadata {} current {current_version} new {new_version}",
            role.name()
        )?,
        Err(error) => return Err(error.into()),
    }
    Ok(())
}
