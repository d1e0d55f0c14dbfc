//! How far an update goes.

/// Which documents an update loads.
#[derive(Clone, Copy, Debug, PartialEq, Eq, Drop)]
pub enum Extent {
    /// All: those of the delegated roles too.
    Whole,
    /// The top-level ones: root, timestamp, snapshot and targets. No delegated role is asked for, so that none has a document: a search
    /// then finds what the targets list themselves, and no more. Such a repository is for clients: a cache of it has no delegated role, and an
    /// editor of it would sign a snapshot without them.
    TopLevel,
}
