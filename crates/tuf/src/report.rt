//! What a verb tells: lines of words, or an object of JSON a line.

use crate::fault::Fault;
use serde_json::Value;
use std::alloc::{AllocError, Global};

/// How a verb tells what it found.
#[derive(Clone, Copy, Drop, PartialEq, Eq)]
pub(crate) enum Form {
    /// In words.
    Words,
    /// In JSON, an object a line.
    Json,
}

/// An object of JSON that is being written.
#[derive(Drop)]
pub(crate) struct Object {
    alloc: Global,
    text: String,
}

impl Object {
    /// An object without members.
    pub(crate) fn new(alloc: Global) -> Object {
        Object {
            alloc,
            text: String::new(alloc),
        }
    }

    // Adds a member whose value has this text.
    fn member(&mut self, name: &str, value: &str) -> Result<(), AllocError> {
        self.text
            .push_str(if self.text.is_empty() { "{\"" } else { ", \"" })?;
        self.text.push_str(name)?;
        self.text.push_str("\": ")?;
        self.text.push_str(value)
    }

    /// Adds a text.
    pub(crate) fn text(&mut self, name: &str, value: &str) -> Result<(), AllocError> {
        let quoted = Value::try_from_str(self.alloc, value)?.to_string(self.alloc)?;
        self.member(name, quoted.as_str())
    }

    /// Adds a number.
    pub(crate) fn number(&mut self, name: &str, value: u64) -> Result<(), Fault> {
        let digits = format!(in self.alloc; "{value}")?;
        Ok(self.member(name, digits.as_str())?)
    }

    /// Adds true or false.
    pub(crate) fn flag(&mut self, name: &str, value: bool) -> Result<(), AllocError> {
        self.member(name, if value { "true" } else { "false" })
    }
}

/// What a verb tells.
#[derive(Drop)]
pub(crate) struct Report {
    form: Form,
    text: String,
}

impl Report {
    /// A report without lines.
    pub(crate) fn new(alloc: Global, form: Form) -> Report {
        Report {
            form,
            text: String::new(alloc),
        }
    }

    /// Adds these words, which end their lines, or this object.
    pub(crate) fn add(&mut self, words: &str, object: &Object) -> Result<(), AllocError> {
        if self.form == Form::Words {
            return self.text.push_str(words);
        }
        self.text.push_str(object.text.as_str())?;
        self.text.push_str("}\n")
    }

    /// The lines.
    pub(crate) fn into_text(self) -> String {
        let Report { form: _, text } = self;
        text
    }
}
