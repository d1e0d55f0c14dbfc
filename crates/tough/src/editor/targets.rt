//! The editor of a targets document.

pub use tough_edit::TargetEdits;
pub use tough_editor::{AddRole, TargetsEditor};
