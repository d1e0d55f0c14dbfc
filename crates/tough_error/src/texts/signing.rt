//! Why nothing was signed.
ghost use Rattle.std.specs.Prelude.{◌≡◌};
ghost use Rattle.tough_error.specs.Kinds.{kind_of};

use crate::error::Error;
use crate::kind::ErrorKind;
use std::fmt::{self, Formatter, Write};

pub(crate) fn tell<W: Write>(error: &Error, f: &mut Formatter<W>) -> fmt::Result
    requires { kind_of error.now ≡ ErrorKind.Signing }
{
    match error {
        Error::SerializeRole { role, source } => write!(
            f,
            "Failed to serialize role '{role}' for signing: {source}"
        ),
        Error::SerializeSignedRole { role, source } => write!(
            f,
            "Failed to serialize signed role '{role}': {source}"
        ),
        Error::JsonSerialization { source } => write!(f, "Failed to serialize to JSON: {source}"),
        Error::Sign => f.write_str("Failed to sign message"),
        Error::SignMessage { source } => write!(f, "Failed to sign message: {source}"),
        Error::KeysNotFoundInRoot => f.write_str(
            "Unable to match any of the provided keys with root.json",
        ),
        Error::NoRoleKeysinRoot { role } => write!(
            f,
            "Key for role '{role}' doesn't exist in root.json"
        ),
        Error::SigningKeysNotFound { role } => write!(
            f,
            "Unable to find signing keys for role '{role}'"
        ),
        Error::KeyNotFound { role, .. } => write!(f, "The key for {role} was not included"),
        Error::NoKeys { role } => write!(f, "No keys were found for role '{role}'"),
        Error::NoKeyHolder => f.write_str("A key holder must be set"),
        Error::DuplicateKeyid { keyid } => write!(f, "Duplicate keyid {keyid} in signatures"),
        Error::KeyPairFromKeySource { source } => write!(f, "Unable to parse keypair: {source}"),
        Error::KeyRejected { source } => write!(f, "Private key rejected: {source}"),
        Error::KeyUnrecognized => f.write_str("Unrecognized private key format"),
        _ => unreachable!(),
    }
}
