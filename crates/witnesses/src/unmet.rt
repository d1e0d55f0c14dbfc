use std::alloc::{AllocError, AllocFailed};

/// Why an example isn't there.
#[derive(Clone, Copy, Debug, PartialEq, Eq, Drop)]
pub enum Unmet {
    /// What was handed in isn't what is asked for.
    Input,
    /// A request for memory was refused.
    Memory,
}

impl From<AllocError> for Unmet {
    fn from(_: AllocError) -> Unmet {
        Unmet::Memory
    }
}

impl<T: Drop> From<AllocFailed<T>> for Unmet {
    fn from(_: AllocFailed<T>) -> Unmet {
        Unmet::Memory
    }
}
