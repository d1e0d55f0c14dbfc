//! Why a call failed.

pub use tough_error::{Error, ErrorKind};

/// What a call answers that may be refused.
pub use tough_client::Result;
