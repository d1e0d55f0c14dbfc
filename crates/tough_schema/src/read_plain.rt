//! Targets that state a length and digests alone, read from borrowed JSON of which no value is made.

ghost use Rattle.std.specs.Prelude.{◌≡◌, Some, codes, IfOk, IfSome};
ghost use Rattle.json.specs.Value.{value_view, members_view as json_members};
ghost use Rattle.serde_json.specs.Data.{Data, object, Members, no_members, member, put};
ghost use Rattle.serde_json.specs.Read.{of_json, of_members};
ghost use Rattle.tough_json.specs.Reading.{whole, hexadecimal};
ghost use Rattle.tough_roles.specs.Timestamp.{hashes_doc, hashes_at};
ghost use Rattle.tough_schema.specs.Target.{target_doc, target_at};

use crate::target::Target;
use serde_json::Map;
use std::alloc::{AllocError, Global};
use tough_decoded::{DecodeError, Decoded, Hex};
use tough_json::borrowed::{Borrowed, value_in};
use tough_roles::Hashes;

// The whole number that the part is.
fn plain_length(alloc: Global, part: &Borrowed<'_>) -> Option<u64>
    ensures { IfSome result (λ n. (d : Data) → of_json (value_view part.now) ≡ Some d
        → whole d ≡ Some n) }
{
    let Borrowed::Number(_) = part else {
        return None;
    };
    match value_in(alloc, part) {
        Ok(value) => value.as_u64(),
        Err(_) => None,
    }
}

// The digest whose digits the part is.
fn plain_digest(alloc: Global, part: &Borrowed<'_>) -> Result<Option<Decoded<Hex>>, AllocError>
    ensures { IfOk result (λ o. IfSome o (λ s. (d : Data) → of_json (value_view part.now) ≡ Some d
        → hexadecimal d ≡ Some s)) }
{
    let Borrowed::String(digits) = part else {
        return Ok(None);
    };
    match Decoded::from_str(alloc, digits) {
        Ok(digest) => Ok(Some(digest)),
        Err(DecodeError::Memory) => Err(AllocError),
        Err(_) => Ok(None),
    }
}

// The only member, if it has the name.
fn single<'a, 'b>(members: &'b [(&'a str, Borrowed<'a>)], name: &str) -> Option<&'b Borrowed<'a>>
    ensures { IfSome result (λ p. (ms : Members)
        → of_members (json_members members.now) no_members ≡ Some ms
        → (d : Data) × (of_json (value_view p.now) ≡ Some d)
        × (ms ≡ member name.now d no_members)) }
{
    let [only] = members else {
        return None;
    };
    if only.0 == name { Some(&only.1) } else { None }
}

// The only two members, if they have these names in this order.
fn pair<'a, 'b>(
    members: &'b [(&'a str, Borrowed<'a>)],
    name: &str,
    next: &str,
) -> Option<(&'b Borrowed<'a>, &'b Borrowed<'a>)>
    ensures { IfSome result (λ p. (ms : Members)
        → of_members (json_members members.now) no_members ≡ Some ms
        → (d : Data) × (e : Data) × (of_json (value_view p.0.now) ≡ Some d)
        × (of_json (value_view p.1.now) ≡ Some e)
        × (ms ≡ put next.now e (put name.now d no_members))) }
{
    let [first, second] = members else {
        return None;
    };
    if first.0 == name && second.0 == next {
        Some((&first.1, &second.1))
    } else {
        None
    }
}

// The hashes that are the SHA-256 alone.
fn one_digest(alloc: Global, sha256: &Borrowed<'_>) -> Result<Option<Hashes>, AllocError>
    ensures { IfOk result (λ o. IfSome o (λ h. (d : Data)
        → of_json (value_view sha256.now) ≡ Some d
        → hashes_at (object (member (codes "sha256") d no_members)) ≡ Some (hashes_doc h))) }
{
    match plain_digest(alloc, sha256)? {
        Some(sha256) => Ok(Some(Hashes {
            sha256,
            sha512: None,
            _extra: Map::new(alloc),
        })),
        None => Ok(None),
    }
}

// The hashes that are both digests.
fn both_digests(
    alloc: Global,
    sha256: &Borrowed<'_>,
    sha512: &Borrowed<'_>,
) -> Result<Option<Hashes>, AllocError>
    ensures { IfOk result (λ o. IfSome o (λ h. (d e : Data)
        → of_json (value_view sha256.now) ≡ Some d → of_json (value_view sha512.now) ≡ Some e
        → hashes_at (object
        (member (codes "sha256") d (member (codes "sha512") e no_members)))
        ≡ Some (hashes_doc h))) }
{
    let Some(sha256) = plain_digest(alloc, sha256)? else {
        return Ok(None);
    };
    match plain_digest(alloc, sha512)? {
        Some(sha512) => Ok(Some(Hashes {
            sha256,
            sha512: Some(sha512),
            _extra: Map::new(alloc),
        })),
        None => Ok(None),
    }
}

// The hashes that the part is.
fn plain_hashes(alloc: Global, part: &Borrowed<'_>) -> Result<Option<Hashes>, AllocError>
    ensures { IfOk result (λ o. IfSome o (λ h. (d : Data) → of_json (value_view part.now) ≡ Some d
        → hashes_at d ≡ Some (hashes_doc h))) }
{
    let Borrowed::Object(members) = part else {
        return Ok(None);
    };
    if let Some(sha256) = single(members, "sha256") {
        return one_digest(alloc, sha256);
    }
    match pair(members, "sha256", "sha512") {
        Some((sha256, sha512)) => both_digests(alloc, sha256, sha512),
        None => Ok(None),
    }
}

// The target that is the length and the hashes alone.
fn stated(
    alloc: Global,
    length: &Borrowed<'_>,
    hashes: &Borrowed<'_>,
) -> Result<Option<Target>, AllocError>
    ensures { IfOk result (λ o. IfSome o (λ t. (d e : Data)
        → of_json (value_view length.now) ≡ Some d → of_json (value_view hashes.now) ≡ Some e
        → target_at (object
        (member (codes "hashes") e (member (codes "length") d no_members)))
        ≡ Some (target_doc t))) }
{
    let Some(length) = plain_length(alloc, length) else {
        return Ok(None);
    };
    match plain_hashes(alloc, hashes)? {
        Some(hashes) => Ok(Some(Target {
            length,
            hashes,
            custom: Map::new(alloc),
            _extra: Map::new(alloc),
        })),
        None => Ok(None),
    }
}

/// The target that the part is, where it has a length and digests and nothing else; `None` says nothing.
pub(crate) fn plain_target(alloc: Global, part: &Borrowed<'_>) -> Result<Option<Target>, AllocError>
    ensures { IfOk result (λ o. IfSome o (λ t. (d : Data) → of_json (value_view part.now) ≡ Some d
        → target_at d ≡ Some (target_doc t))) }
{
    let Borrowed::Object(members) = part else {
        return Ok(None);
    };
    if let Some((hashes, length)) = pair(members, "hashes", "length") {
        return stated(alloc, length, hashes);
    }
    match pair(members, "length", "hashes") {
        Some((length, hashes)) => stated(alloc, length, hashes),
        None => Ok(None),
    }
}
