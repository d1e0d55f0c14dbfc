ghost use Rattle.std.specs.Prelude.{◌≡◌, IfOk, string_bytes};
ghost use Rattle.tough_json.specs.Results.{IsRefusal};
ghost use Rattle.tough_json.specs.Told.{separator, under, place_text, TellsUnder};

use std::alloc::{AllocError, AllocFailed, Global};

/// Why a document was not read.
#[derive(Debug, Drop, thiserror::Error)]
pub enum ReadError {
    /// The bytes are no JSON text: the place of the byte from which on they are none, or 0 where a number is out of range.
    #[error("the bytes are no JSON from byte {0} on")]
    Json(usize),
    /// The JSON is no document of the kind: the member that was wrong, by its path from the top (`signed.roles.root.keyids[0]`), and what it
    /// isn't (`(no text)`).
    #[error("not of the document's form: {0}")]
    Shape(String),
    /// A request for memory was refused.
    #[error("out of memory")]
    Memory,
}

impl From<AllocError> for ReadError {
    ghost use Rattle.std.specs.Prelude.{◌≡◌};
    ghost use Rattle.tough_json.specs.declared.error.ReadError.TheVariants.{Memory};

    ghost from_gives = { λ _ e. e ≡ Memory };

    fn from(_: AllocError) -> ReadError {
        ReadError::Memory
    }
}

impl<T: Drop> From<AllocFailed<T>> for ReadError {
    ghost use Rattle.std.specs.Prelude.{◌≡◌};
    ghost use Rattle.tough_json.specs.declared.error.ReadError.TheVariants.{Memory};

    ghost from_gives = { λ _ e. e ≡ Memory };

    fn from(_: AllocFailed<T>) -> ReadError {
        ReadError::Memory
    }
}

/// Why a document has no JSON: it holds a float, two names of one object with one NFC, or an instant outside the years 0000 to 9999, or
/// an extra has the name of a member.
#[derive(Debug, Drop, thiserror::Error)]
pub enum WriteError {
    /// There is no JSON that is read as the document.
    #[error("the document has no JSON")]
    Unwritable,
    /// A request for memory was refused.
    #[error("out of memory")]
    Memory,
}

impl From<AllocError> for WriteError {
    ghost use Rattle.std.specs.Prelude.{◌≡◌};
    ghost use Rattle.tough_json.specs.declared.error.WriteError.TheVariants.{Memory};

    ghost from_gives = { λ _ e. e ≡ Memory };

    fn from(_: AllocError) -> WriteError {
        WriteError::Memory
    }
}

impl<T: Drop> From<AllocFailed<T>> for WriteError {
    ghost use Rattle.std.specs.Prelude.{◌≡◌};
    ghost use Rattle.tough_json.specs.declared.error.WriteError.TheVariants.{Memory};

    ghost from_gives = { λ _ e. e ≡ Memory };

    fn from(_: AllocFailed<T>) -> WriteError {
        WriteError::Memory
    }
}

/// A refusal that tells this text. Of a value that is refused by itself it tells `(no text)` or the like; `within` puts names before that.
pub fn shape(alloc: Global, told: &str) -> ReadError
    ensures { IsRefusal result }
{
    match String::from_str(alloc, told) {
        Ok(text) => ReadError::Shape(text),
        Err(_) => ReadError::Memory,
    }
}

// What stands between a member's name and what is told of it.
fn separator(told: &str) -> &'static str
    ensures { result.now ≡ separator told.now }
{
    match told.as_bytes().first() {
        None | Some(b'[') => "",
        Some(b'(') => " ",
        Some(_) => ".",
    }
}

// What is told of a member, under its name.
fn under(alloc: Global, name: &str, told: &str) -> Result<String, AllocError>
    ensures { IfOk result (λ t. string_bytes t ≡ under name.now told.now) }
{
    let mut text = String::from_str(alloc, name)?;
    text.push_str(separator(told))?;
    text.push_str(told)?;
    Ok(text)
}

// What is told of an item, under its place.
fn under_place(alloc: Global, place: usize, told: &str) -> Result<String, AllocError>
    ensures { IfOk result (λ t. string_bytes t ≡ under (place_text place) told.now) }
{
    let mut name = String::from_str(alloc, "[")?;
    name.push_str(place.to_string(alloc)?.as_str())?;
    name.push_str("]")?;
    under(alloc, name.as_str(), told)
}

/// What refused a member's value refuses the object: it is told under the member's name. It takes memory only for a `Shape`.
pub fn within(alloc: Global, name: &str, error: ReadError) -> ReadError
    ensures { TellsUnder name.now error result }
{
    match error {
        ReadError::Shape(told) => match under(alloc, name, told.as_str()) {
            Ok(text) => ReadError::Shape(text),
            Err(_) => ReadError::Memory,
        },
        other => other,
    }
}

/// What refused an item refuses the list: it is told under the item's place. It takes memory only for a `Shape`.
pub fn at(alloc: Global, place: usize, error: ReadError) -> ReadError
    ensures { TellsUnder (place_text place) error result }
{
    match error {
        ReadError::Shape(told) => match under_place(alloc, place, told.as_str()) {
            Ok(text) => ReadError::Shape(text),
            Err(_) => ReadError::Memory,
        },
        other => other,
    }
}

/// A refusal of an object without the member.
pub fn missing(alloc: Global, name: &str) -> ReadError
    ensures { IsRefusal result }
{
    member_shape(alloc, name, "(missing)")
}

/// A refusal of a member by itself: `wrong` is `(no text)` or the like.
pub fn member_shape(alloc: Global, name: &str, wrong: &str) -> ReadError
    ensures { IsRefusal result }
{
    match under(alloc, name, wrong) {
        Ok(text) => ReadError::Shape(text),
        Err(_) => ReadError::Memory,
    }
}
