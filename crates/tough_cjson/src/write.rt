//! A value's text, level by level.

ghost use Rattle.std.specs.Prelude.{◌≡◌, List, ◌++◌, ◌∷◌, [], map, string_bytes, OnOk, IfOk, IfErr, IsTrue};
ghost use Rattle.serde_json.specs.Data as Data;
ghost use Rattle.serde_json.specs.View.{view, number_view, items_view, members_view};
ghost use Rattle.tough_cjson.specs.Ascii.{HaveAsciiNames};
ghost use Rattle.tough_cjson.specs.ByName.{AreByName};
ghost use Rattle.tough_cjson.specs.Canon.{Appends, AppendsItems, AppendsMembers, Holds, AreItemsRefused, AreMembersRefused, nfc_text, quoted};

use crate::error::CjsonError;
use crate::text::{append_comma, append_quoted};
use itoa::Buffer;
use serde_json::{Map, Number, Value};
use std::alloc::{AllocError, Global};
use std::collections::BTreeMap;
use unicode_normalization::to_nfc;

/// Appends the value's text.
#[cycle(write)]
pub(crate) fn write(alloc: Global, out: &mut Vec<u8>, value: &Value) -> Result<(), CjsonError>
    ensures ok { OnOk result (Appends (view value.now) out.old.items out.new.items) }
    ensures err { IfErr result (λ e. Holds (view value.now) e) }
{
    match value {
        Value::Null => Ok(out.extend_from_slice(b"null")?),
        Value::Bool(true) => Ok(out.extend_from_slice(b"true")?),
        Value::Bool(false) => Ok(out.extend_from_slice(b"false")?),
        Value::Number(number) => write_number(out, number),
        Value::String(text) => Ok(write_text(alloc, out, text.as_str())?),
        Value::Array(items) => write_items(alloc, out, items),
        Value::Object(members) => write_members(alloc, out, members),
    }
}

#[cycle(write)]
fn write_items(alloc: Global, out: &mut Vec<u8>, items: &Vec<Value>) -> Result<(), CjsonError>
    ensures ok { OnOk result
        (AppendsItems (items_view items.now.items) out.old.items out.new.items) }
    ensures err { IfErr result (λ e. AreItemsRefused (items_view items.now.items) e) }
{
    out.extend_from_slice(b"[")?;
    let mut is_first = true;
    for item in items {
        append_comma(out, is_first)?;
        write(alloc, out, item)?;
        is_first = false;
    }
    out.extend_from_slice(b"]")?;
    Ok(())
}

#[cycle(write)]
fn write_members(
    alloc: Global,
    out: &mut Vec<u8>,
    members: &Map<String, Value>,
) -> Result<(), CjsonError>
    ensures ok { OnOk result
        (AppendsMembers (members_view members.now.entries) out.old.items out.new.items) }
    ensures err { IfErr result (λ e. AreMembersRefused (members_view members.now.entries) e) }
{
    if have_ascii_names(members) {
        write_in_place(alloc, out, members)
    } else {
        let sorted = by_normal_name(alloc, members)?;
        write_sorted(alloc, out, members, &sorted)
    }
}

/// Whether each name is ASCII, so that it is its own NFC.
fn have_ascii_names(members: &Map<String, Value>) -> bool
    ensures { IsTrue result → HaveAsciiNames (members_view members.now.entries) }
{
    for (name, _) in members.iter() {
        if !name.is_ascii() {
            return false;
        }
    }
    true
}

/// Appends members of ASCII names, which stand in order already, in braces.
#[cycle(write)]
fn write_in_place(
    alloc: Global,
    out: &mut Vec<u8>,
    members: &Map<String, Value>,
) -> Result<(), CjsonError>
    requires { HaveAsciiNames (members_view members.now.entries) }
    ensures ok { OnOk result
        (AppendsMembers (members_view members.now.entries) out.old.items out.new.items) }
    ensures err { IfErr result (λ e. AreMembersRefused (members_view members.now.entries) e) }
{
    out.extend_from_slice(b"{")?;
    let mut is_first = true;
    for (name, member) in members.iter() {
        append_comma(out, is_first)?;
        append_quoted(out, name.as_bytes())?;
        out.extend_from_slice(b":")?;
        write(alloc, out, member)?;
        is_first = false;
    }
    out.extend_from_slice(b"}")?;
    Ok(())
}

/// The members under their names' NFC.
fn by_normal_name<'a>(
    alloc: Global,
    members: &'a Map<String, Value>,
) -> Result<BTreeMap<String, &'a Value>, CjsonError>
    ensures ok { IfOk result (λ m. AreByName members.now.entries m.entries) }
    ensures err { IfErr result (λ e. AreMembersRefused (members_view members.now.entries) e) }
{
    let mut sorted = BTreeMap::new(alloc);
    for (key, member) in members.iter() {
        let name = to_nfc(alloc, key.as_str())?;
        if sorted.insert(name, member)?.is_some() {
            return Err(CjsonError::SameName);
        }
    }
    Ok(sorted)
}

/// Appends the members, which stand in order, in braces.
#[cycle(write)]
fn write_sorted(
    alloc: Global,
    out: &mut Vec<u8>,
    members: &Map<String, Value>,
    sorted: &BTreeMap<String, &Value>,
) -> Result<(), CjsonError>
    requires { AreByName members.now.entries sorted.now.entries }
    ensures ok { OnOk result
        (AppendsMembers (members_view members.now.entries) out.old.items out.new.items) }
    ensures err { IfErr result (λ e. AreMembersRefused (members_view members.now.entries) e) }
{
    out.extend_from_slice(b"{")?;
    let mut is_first = true;
    for (name, member) in sorted.iter() {
        append_comma(out, is_first)?;
        append_quoted(out, name.as_bytes())?;
        out.extend_from_slice(b":")?;
        write(alloc, out, *member)?;
        is_first = false;
    }
    out.extend_from_slice(b"}")?;
    Ok(())
}

fn write_text(alloc: Global, out: &mut Vec<u8>, text: &str) -> Result<(), AllocError>
    ensures { OnOk result (out.new.items ≡ out.old.items ++ quoted (nfc_text text.now)) }
{
    if text.is_ascii() {
        return append_quoted(out, text.as_bytes());
    }
    let normal = to_nfc(alloc, text)?;
    append_quoted(out, normal.as_bytes())
}

fn write_number(out: &mut Vec<u8>, number: &Number) -> Result<(), CjsonError>
    ensures ok { OnOk result
        (Appends (Data.number (number_view number.now)) out.old.items out.new.items) }
    ensures err { IfErr result (λ e. Holds (Data.number (number_view number.now)) e) }
{
    match number.as_i128() {
        Some(whole) => {
            out.extend_from_slice(Buffer::new().format(whole).as_bytes())?;
            Ok(())
        }
        None => Err(CjsonError::Float),
    }
}
