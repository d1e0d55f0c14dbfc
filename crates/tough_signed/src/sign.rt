//! Roles are signed.

ghost use Rattle.std.specs.Prelude.{◌≡◌, ◌≤◌, Some, false, length, IfOk, IfErr};
ghost use Rattle.tough_roles.specs.Root.{role_keys_doc};
ghost use Rattle.tough_roles.specs.RoleId.{role_id_doc};
ghost use Rattle.tough_roles.specs.Signature.{signatures_doc};
ghost use Rattle.tough_sign.specs.Making.{AreMade, chosen};
ghost use Rattle.tough_sign.specs.Signers.{signers_of, AreKeyed, SomeFails};
ghost use Rattle.tough_signed.specs.Holders.{holder_doc, known_of, keys_for, are_strangers};
ghost use Rattle.tough_signed.specs.Refusals.{IsFailure, IsUnasked, IsUnsigned, IsBelow, is_lenient};
ghost use Rattle.tough_signed.specs.Signing.{IsSignedFor};

use crate::error::EditError;
use crate::holder::{are_strangers, is_of_root, keys_for, known_of};
use std::alloc::Global;
use tough_json::WriteError;
use tough_keys::Sign;
use tough_roles::{Role, RoleId, RoleKeys, RoleType, Signature, Signed};
use tough_schema::KeyHolder;
use tough_sign::{KeyedSigner, ask_keys, sign_under};

/// The signers with their keys, each of which is asked for once, in order; `SignMessage` where a signer doesn't tell its key.
pub fn ask<'a, S: Sign>(
    alloc: Global,
    signers: &'a [S],
) -> Result<Vec<KeyedSigner<'a, S>>, EditError>
    ensures signers { IfOk result (λ v. signers_of v.items ≡ signers.now) }
    ensures keys { IfOk result (λ v. AreKeyed S.key v.items) }
    ensures failure { IfErr result (IsFailure (SomeFails S.fails signers.now)) }
{
    match ask_keys(alloc, signers) {
        Ok(keyed) => Ok(keyed),
        Err(error) => Err(EditError::from(error)),
    }
}

// The signatures of those signers whose keys the holder has and lists.
fn signatures_by<S: Sign>(
    alloc: Global,
    holder: &KeyHolder,
    keys: &RoleKeys,
    signers: &[KeyedSigner<'_, S>],
    text: &[u8],
) -> Result<Vec<Signature>, EditError>
    requires { AreKeyed S.key signers.now }
    ensures made { IfOk result (λ v. AreMade S.signs text.now (chosen S.key
        (known_of (holder_doc holder.now)) (role_keys_doc keys.now).keyids
        (signers_of signers.now)) (signatures_doc v.items)) }
    ensures failure { IfErr result (IsFailure (SomeFails S.fails (signers_of signers.now))) }
{
    match sign_under(alloc, known_of(holder), &keys.keyids, signers, text) {
        Ok(signatures) => Ok(signatures),
        Err(error) => Err(EditError::from(error)),
    }
}

// Whether a document of this kind may lack signatures, as a root that the next one signs too.
fn is_lenient(role: RoleType) -> bool
    ensures { result ≡ is_lenient role }
{
    match role {
        RoleType::Root => true,
        _ => false,
    }
}

// The same, where they are as many as the keys ask for, or the document may lack some.
fn enough_by<S: Sign>(
    alloc: Global,
    role: RoleType,
    holder: &KeyHolder,
    keys: &RoleKeys,
    signers: &[KeyedSigner<'_, S>],
    text: &[u8],
) -> Result<Vec<Signature>, EditError>
    requires { AreKeyed S.key signers.now }
    ensures made { IfOk result (λ v. AreMade S.signs text.now (chosen S.key
        (known_of (holder_doc holder.now)) (role_keys_doc keys.now).keyids
        (signers_of signers.now)) (signatures_doc v.items)) }
    ensures enough { IfOk result (λ v. is_lenient role ≡ false
        → (role_keys_doc keys.now).threshold ≤ length (signatures_doc v.items)) }
    ensures refused { IfErr result (IsBelow S.fails (signers_of signers.now) role
        (length (chosen S.key (known_of (holder_doc holder.now)) (role_keys_doc keys.now).keyids
        (signers_of signers.now))) (role_keys_doc keys.now).threshold) }
{
    let signatures = signatures_by(alloc, holder, keys, signers, text)?;
    if is_lenient(role) {
        return Ok(signatures);
    }
    if (signatures.len() as u64) < keys.threshold.get() {
        return Err(EditError::SigningKeysNotFound { role });
    }
    Ok(signatures)
}

// The keys that the holder asks of the role, where one of these signers is known.
fn asked<S: Sign>(
    alloc: Global,
    holder: &KeyHolder,
    id: &RoleId,
    role: RoleType,
    signers: &[KeyedSigner<'_, S>],
) -> Result<RoleKeys, EditError>
    requires { AreKeyed S.key signers.now }
    ensures keys { IfOk result (λ k. keys_for (holder_doc holder.now) (role_id_doc id.now)
        ≡ Some (role_keys_doc k)) }
    ensures known { IfOk result (λ k. are_strangers S.key (holder_doc holder.now)
        (signers_of signers.now) ≡ false) }
    ensures refused { IfErr result (IsUnasked S.key (holder_doc holder.now)
        (signers_of signers.now) (role_id_doc id.now) role) }
{
    if are_strangers(holder, signers) {
        return Err(EditError::KeysNotFoundInRoot);
    }
    match keys_for(alloc, holder, id)? {
        Some(keys) => Ok(keys),
        None => {
            if is_of_root(holder, id) {
                Err(EditError::NoRoleKeysinRoot { role })
            } else {
                Err(EditError::SigningKeysNotFound { role })
            }
        }
    }
}

/// The role with the signatures of those signers whose keys the holder has and lists for it, in the order of their identifiers: each under the
/// first identifier of its key, and of two signers of one key the later one's (TUF specification 1.0, section 4.2). The refusals, in this order:
/// `SignMessage` where a signer doesn't tell its key; `KeysNotFoundInRoot` where the holder is a root and has no signer's key; `NoRoleKeysinRoot`
/// where the root hasn't the role, or `SigningKeysNotFound` where the delegations haven't it, or the holder is of the other kind; `SerializeRole`
/// where the role has no canonical form; `SignMessage` where a signer fails; and, but for a root, `SigningKeysNotFound` below the threshold.
pub fn sign_for<T: Role + Drop, S: Sign>(
    alloc: Global,
    role: T,
    holder: &KeyHolder,
    signers: &[S],
) -> Result<Signed<T>, EditError>
    ensures role { IfOk result (λ s. s.signed ≡ role) }
    ensures signed { IfOk result (IsSignedFor T.json T.TYPE S.key S.signs (holder_doc holder.now)
        (T.id role) signers.now) }
    ensures refused { IfErr result (IsUnsigned T.json S.key S.fails (holder_doc holder.now)
        signers.now (T.id role) T.TYPE role) }
{
    let keyed = ask(alloc, signers)?;
    let id = role.role_id()?;
    let keys = match asked(alloc, holder, &id, T::TYPE, &keyed) {
        Ok(keys) => keys,
        Err(error) => return Err(error),
    };
    let text = match role.canonical_form(alloc) {
        Ok(text) => text,
        Err(WriteError::Unwritable) => return Err(EditError::SerializeRole { role: T::TYPE }),
        Err(WriteError::Memory) => return Err(EditError::Memory),
    };
    match enough_by(alloc, T::TYPE, holder, &keys, &keyed, &text) {
        Ok(signatures) => Ok(Signed {
            signed: role,
            signatures,
        }),
        Err(error) => Err(error),
    }
}
