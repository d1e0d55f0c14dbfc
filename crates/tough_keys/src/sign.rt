ghost use Rattle.std.specs.Prelude.{◌≡◌, IfOk, IfErr, ℕ, List};
ghost use Rattle.tough_keys.specs.Failing.{IsReasoned};
ghost use Rattle.tough_keys.specs.Key.{KeyDoc, key_doc};

use crate::key::Key;
use std::alloc::{AllocError, AllocFailed, Global};

/// Why nothing was signed.
#[derive(Debug, Drop, thiserror::Error)]
pub enum SignError {
    /// The signer failed, for the reason that it gives.
    #[error("Failed to sign: {0}")]
    Failed(String),
    /// A request for memory was refused.
    #[error("out of memory")]
    Memory,
}

impl From<AllocError> for SignError {
    ghost use Rattle.tough_keys.specs.declared.sign.SignError.TheVariants.{Memory};

    ghost from_gives = { λ _ e. e ≡ Memory };

    fn from(_: AllocError) -> SignError {
        SignError::Memory
    }
}

impl<X: Drop> From<AllocFailed<X>> for SignError {
    ghost use Rattle.tough_keys.specs.declared.sign.SignError.TheVariants.{Memory};

    ghost from_gives = { λ _ e. e ≡ Memory };

    fn from(_: AllocFailed<X>) -> SignError {
        SignError::Memory
    }
}

/// What signs messages by a key. `signs x m s` says that `s` may be its signature of `m`, and `fails x t` that it may fail for the reason `t`,
/// which is any reason where an impl doesn't say. A boxed signer (`Box<dyn Sign>`) signs too.
pub trait Sign: Drop {
    ghost key: { Self → KeyDoc };

    ghost signs: { Self → List ℕ → List ℕ → Type 0 };

    ghost fails: { Self → List ℕ → Type 0 } = { λ _ _. Unit {0} };

    /// The public key that the signatures verify by.
    fn tuf_key(&self, alloc: Global) -> Result<Key, SignError>
        ensures key { IfOk result (λ k. key_doc k ≡ key self.now) }
        ensures failure { IfErr result (IsReasoned (fails self.now)) };

    /// A signature of the message.
    fn sign(&self, alloc: Global, msg: &[u8]) -> Result<Vec<u8>, SignError>
        ensures signature { IfOk result (λ s. signs self.now msg.now s.items) }
        ensures failure { IfErr result (IsReasoned (fails self.now)) };
}

impl<T: Sign> Sign for &T {
    ghost key = { λ s. T.key s.now };

    ghost signs = { λ s. T.signs s.now };

    ghost fails = { λ s. T.fails s.now };

    fn tuf_key(&self, alloc: Global) -> Result<Key, SignError> {
        T::tuf_key(*self, alloc)
    }

    fn sign(&self, alloc: Global, msg: &[u8]) -> Result<Vec<u8>, SignError> {
        T::sign(*self, alloc, msg)
    }
}

impl Sign for Box<dyn Sign> {
    ghost key = { λ b. (Sign-box b).key b.value };

    ghost signs = { λ b. (Sign-box b).signs b.value };

    ghost fails = { λ b. (Sign-box b).fails b.value };

    fn tuf_key(&self, alloc: Global) -> Result<Key, SignError> {
        (**self).tuf_key(alloc)
    }

    fn sign(&self, alloc: Global, msg: &[u8]) -> Result<Vec<u8>, SignError> {
        (**self).sign(alloc, msg)
    }
}
