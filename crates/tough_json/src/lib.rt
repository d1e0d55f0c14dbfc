//! Members of JSON objects, taken out and put in, objects written member by member, and the text of an instant: what documents are read and
//! written by. Canonical JSON is re-exported.
#![tactic(auto)]

pub mod borrowed;
pub mod error;
pub mod list;
pub mod member;
pub mod moment;
mod number;
pub mod pieces;
pub mod table;
pub mod text;
pub mod write;

pub use error::{ReadError, WriteError};
pub use moment::{MomentError, moment_text};
pub use pieces::{Form, ObjectText, PieceError};
pub use tough_cjson::{CjsonError, canonical, holds_float};
