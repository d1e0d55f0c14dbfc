//! Whether keys were rotated (TUF specification 5.3.11).

ghost use Rattle.std.specs.Prelude.{◌≡◌, option_map, option_copied, drop};
ghost use Rattle.std.specs.BTreeMap.{is_at};
ghost use Rattle.std.specs.Map.{lookup};
ghost use Rattle.tough_keys.specs.Key.{key_doc};
ghost use Rattle.tough_roles.specs.Roles.{role_cmp};
ghost use Rattle.tough_roles.specs.Root.{root_doc};
ghost use Rattle.tough_roles.specs.Keyring.{keys_along};
ghost use Rattle.tough_checks.specs.Rotation.{key_in, same_keys, ids_of, is_rotated_role, is_rotated, rotates};
ghost use Rattle.tough_checks.specs.StoredDocuments.{root_where};

use tough_decoded::{Decoded, Hex};
use tough_keys::Key;
use tough_roles::{RoleType, Root, Signed};

// The key of the identifier at that place.
fn key_at<'a>(root: &'a Root, ids: &[Decoded<Hex>], place: usize) -> Option<&'a Key>
    ensures { option_map key_doc (option_copied result)
        ≡ key_in (root_doc root.now).keys (drop place ids.now) }
{
    match ids.get(place) {
        Some(id) => root.keys.get(id),
        None => None,
    }
}

// Whether the keys of these identifiers, up to the first that has none, are the same.
fn are_same_keys(old: &Root, old_ids: &[Decoded<Hex>], new: &Root, new_ids: &[Decoded<Hex>]) -> bool
    ensures { result ≡ same_keys (keys_along (root_doc old.now).keys old_ids.now)
        (keys_along (root_doc new.now).keys new_ids.now) }
{
    for place in 0..old_ids.len() {
        match (key_at(old, old_ids, place), key_at(new, new_ids, place)) {
            (None, None) => return true,
            (Some(old), Some(new)) => {
                if old != new {
                    return false;
                }
            }
            _ => return false,
        }
    }
    key_at(new, new_ids, old_ids.len()).is_none()
}

// The identifiers that a role lists.
fn ids_of(root: &Root, role: RoleType) -> &[Decoded<Hex>]
    ensures { result.now ≡ ids_of (lookup (is_at (role_cmp role)) (root_doc root.now).roles) }
{
    match root.roles.get(&role) {
        Some(keys) => &keys.keyids,
        None => &[],
    }
}

fn is_rotated_role(old: &Root, new: &Root, role: RoleType) -> bool
    ensures { result ≡ is_rotated_role (root_doc old.now) (root_doc new.now) role }
{
    !are_same_keys(old, ids_of(old, role), new, ids_of(new, role))
}

/// Whether the list of keys of timestamp or snapshot differs.
pub fn is_rotated(old: &Root, new: &Root) -> bool
    ensures { result ≡ is_rotated (root_doc old.now) (root_doc new.now) }
{
    is_rotated_role(old, new, RoleType::Timestamp) || is_rotated_role(old, new, RoleType::Snapshot)
}

/// Whether the stored root, where there is one, has another list of keys of timestamp or snapshot.
pub fn rotates(old: &Option<Signed<Root>>, new: &Root) -> bool
    ensures { result ≡ rotates (root_where old.now) (root_doc new.now) }
{
    match old {
        Some(old) => is_rotated(&old.signed, new),
        None => false,
    }
}
