//! Target names and what they resolve to.
ghost use Rattle.std.specs.Prelude.{◌≡◌, ◌≢◌, Ok, Err, IfOk, IfErr, IsTrue, string_bytes, bytes_eq, ◌&&◌, codes, ◌++◌, [], map};
ghost use Rattle.std.specs.List.{join_with_byte};
ghost use Rattle.tough_names.specs.Clean.{kept_of, resolve, IsSafe, ResolvesOnce};
ghost use Rattle.std.proofs.Common.{rules};
ghost use Rattle.std.specs.Cmp.Rules.{comparing, hashing};
ghost use Rattle.std.specs.Prelude.{refl};
ghost use Rattle.std.specs.Hash as fed;
ghost use Rattle.std.specs.Ordering.{as_partial_cmp};
ghost use Rattle.std.specs.Cmp.{partial_order_from_own_ties, both_tied};
ghost use Rattle.std.specs.Cmp.Lexicographic.{texts_ties};
ghost use Rattle.tough_names.specs.Named.{by_raw_then_resolved};
ghost use Rattle.tough_names.specs.Clean as spec;
ghost use Rattle.tough_names.specs.Named as named;

use std::alloc::{AllocError, Global};
use std::cmp::Ordering;
use std::hash::{Hash, Hasher};
use std::marker::Model;
use thiserror::Error;

/// Why a text is no target name.
#[derive(Debug, Drop, PartialEq, Eq, Error)]
pub enum NameError {
    /// The text is `..`.
    #[error("The target name '..' is unsafe. Interpreting it as a path could escape from the intended directory")]
    UnsafeTargetNameDotDot,
    /// The text is empty, or resolves to nothing.
    #[error("The target name is unsafe. Interpreting it as a path would lead to an empty filename")]
    UnsafeTargetNameEmpty,
    /// The text resolves to `/`.
    #[error("The target name is unsafe. Interpreting it as a path would lead to a filename of '/'")]
    UnsafeTargetNameSlash,
    #[error("out of memory")]
    Memory,
}

impl From<AllocError> for NameError {
    ghost use Rattle.tough_names.specs.declared.name.NameError.TheVariants.{Memory};

    ghost from_gives = { λ _ e. e ≡ Memory };

    fn from(_: AllocError) -> NameError {
        NameError::Memory
    }
}

/// A target's name (TUF specification 1.0, section 4.5, TARGETPATH), with the text that it resolves to. Names
/// are equal, ordered and hashed by the raw text and then the resolved one.
#[derive(Debug, Drop)]
pub struct TargetName {
    raw: String,

    // What the name resolves to. The empty text stands for the raw one.
    other: String,
}

impl Model for TargetName {
    ghost use Rattle.std.specs.Prelude.{◌≡◌, Ok, string_bytes};
    ghost use Rattle.tough_names.specs.Named.{Named, clean, unless_empty};

    ghost Value = { Named };

    ghost view = { λ n. record {
      raw = string_bytes n.raw;
      resolved = unless_empty (string_bytes n.raw) (string_bytes n.other);
    } };

    ghost invariant = { λ n. clean (string_bytes n.raw)
        ≡ Ok (unless_empty (string_bytes n.raw) (string_bytes n.other)) };
}

impl TargetName {
    ghost use Rattle.tough_names.specs.Named.{clean};

    /// The name that a text is. `..` is refused first, then the empty text, then a text that resolves to
    /// nothing or to `/`.
    pub fn new(alloc: Global, raw: String) -> Result<TargetName, NameError>
        ensures raw { IfOk result (λ name. name.raw ≡ string_bytes raw) }
        ensures resolved { IfOk result (λ name. clean (string_bytes raw) ≡ Ok name.resolved) }
        ensures err { IfErr result (λ e. e ≢ NameError.Memory → clean (string_bytes raw) ≡ Err e) }
    {
        if raw.as_str() == ".." {
            return Err(NameError::UnsafeTargetNameDotDot);
        }
        if raw.is_empty() {
            return Err(NameError::UnsafeTargetNameEmpty);
        }
        if raw.as_str() != "/" && is_resolved(raw.as_str()) {
            return Ok(TargetName {
                raw,
                other: String::new(alloc),
            });
        }
        let resolved = resolved_text(alloc, raw.as_str())?;
        if resolved.is_empty() {
            return Err(NameError::UnsafeTargetNameEmpty);
        }
        if resolved.as_str() == "/" {
            return Err(NameError::UnsafeTargetNameSlash);
        }
        Ok(TargetName {
            raw,
            other: resolved,
        })
    }

    /// The name that a text is, or the first refusal, as `new` has it.
    pub fn from_str(alloc: Global, text: &str) -> Result<TargetName, NameError>
        ensures raw { IfOk result (λ name. name.raw ≡ text.now) }
        ensures resolved { IfOk result (λ name. clean text.now ≡ Ok name.resolved) }
        ensures err { IfErr result (λ e. e ≢ NameError.Memory → clean text.now ≡ Err e) }
    {
        TargetName::new(alloc, String::from_str(alloc, text)?)
    }

    /// The text as it was given.
    pub fn raw(&self) -> &str
        ensures text { result.now ≡ self.now.raw }
        ensures clean { clean result.now ≡ Ok self.now.resolved }
    {
        self.raw.as_str()
    }

    /// The text that the name resolves to.
    pub fn resolved(&self) -> &str
        ensures text { result.now ≡ self.now.resolved }

        // After its mark no component is empty, `.` or `..`, and resolving again changes nothing.
        ensures parts { IsSafe result.now }
        ensures again { resolve result.now ≡ result.now }
    {
        unless_empty(self.raw.as_str(), self.other.as_str())
    }
}

impl TryFrom<String> for TargetName {
    ghost use Rattle.tough_names.specs.Named.{GivesName};

    type Error = NameError;

    ghost try_from_gives = { λ raw r. GivesName (string_bytes raw) r };

    fn try_from(raw: String) -> Result<TargetName, NameError> {
        let alloc = *raw.allocator();
        TargetName::new(alloc, raw)
    }
}

impl Clone for TargetName {
    ghost is_clone = { λ x y. y ≡ x };

    fn clone(&self) -> Result<TargetName, AllocError> {
        Ok(TargetName {
            raw: self.raw.clone()?,
            other: self.other.clone()?,
        })
    }
}

impl PartialEq for TargetName {
    ghost eq = { λ a b. bytes_eq a.raw b.raw && bytes_eq a.resolved b.resolved };

    ghost laws = { Prim.search (comparing, rules) };

    fn eq(&self, other: &TargetName) -> bool {
        self.raw == other.raw
    }
}

impl Eq for TargetName {
    ghost laws = { Prim.search (comparing, rules) };
}

impl PartialOrd for TargetName {
    ghost partial_cmp = { as_partial_cmp by_raw_then_resolved };

    ghost laws = { partial_order_from_own_ties (Prim.search (comparing, rules))
        (Prim.search (comparing, rules)) };

    fn partial_cmp(&self, other: &TargetName) -> Option<Ordering> {
        Some(self.cmp(other))
    }
}

impl Ord for TargetName {
    ghost cmp = { by_raw_then_resolved };

    ghost total = { Prim.search (comparing, rules) };

    ghost matches_partial_cmp = { λ a b. refl };

    ghost matches_eq = { λ a b. both_tied _ _ _ _ (texts_ties a.raw b.raw)
        (texts_ties a.resolved b.resolved) };

    fn cmp(&self, other: &TargetName) -> Ordering {
        self.raw.as_str().cmp(other.raw.as_str())
    }
}

impl Hash for TargetName {
    ghost hash_input = { λ n. fed.str n.raw ++ fed.str n.resolved };

    ghost respects_eq = { Prim.search (hashing, rules) };

    fn hash<H: Hasher>(&self, state: &mut H) {
        self.raw.as_str().hash(state);
        self.resolved().hash(state);
    }
}

// The other text, or the first where that is empty.
fn unless_empty<'a>(text: &'a str, other: &'a str) -> &'a str
    ensures { result.now ≡ named.unless_empty text.now other.now }
{
    if other.is_empty() { text } else { other }
}

/// Whether a component says nothing.
fn is_idle(component: &str) -> bool
    ensures { result ≡ spec.is_idle component.now }
{
    component.is_empty() || component == "."
}

/// Whether a component takes away the one before it.
fn is_parent(component: &str) -> bool
    ensures { result ≡ spec.is_parent component.now }
{
    component == ".."
}

/// The components that are left once `.` and `..` are taken out.
fn kept_components(alloc: Global, text: &str) -> Result<Vec<&str>, AllocError>
    ensures { IfOk result (λ kept. map (λ c. c.now) kept.items ≡ kept_of text.now) }
{
    let mut kept = Vec::new(alloc);
    for component in text.split('/') {
        if is_parent(component) {
            let _ = kept.pop();
        } else if !is_idle(component) {
            kept.push(component)?;
        }
    }
    Ok(kept)
}

// Whether the text has no component that is taken out, and no slash before the first.
fn is_resolved(text: &str) -> bool
    ensures { IsTrue result → resolve text.now ≡ text.now }
{
    if text.starts_with('/') {
        return false;
    }
    for component in text.split('/') {
        if is_parent(component) || is_idle(component) {
            return false;
        }
    }
    true
}

/// The text that a name resolves to.
fn resolved_text(alloc: Global, text: &str) -> Result<String, AllocError>
    ensures { IfOk result (λ resolved. string_bytes resolved ≡ resolve text.now) }
{
    let kept = kept_components(alloc, text)?;
    let path = kept.as_slice().join(alloc, "/")?;
    if text.starts_with('/') {
        format!(in alloc; "/{path}")
    } else {
        Ok(path)
    }
}

/// Resolving twice is resolving once, for any text.
pub fn resolves_once()
    ensures { ResolvesOnce }
{}
