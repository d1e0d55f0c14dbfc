//! What signing promises of verifying.

ghost use Rattle.std.specs.Prelude.{◌≡◌, ℕ, List, false};
ghost use Rattle.std.specs.Map.{keys_of};
ghost use Rattle.std.specs.List.Sorted.{IsStrictlySortedBy};
ghost use Rattle.tough_keys.specs.Same.{Verifies};
ghost use Rattle.tough_roles.specs.Chain.{ReachesUnder};
ghost use Rattle.tough_roles.specs.RoleId.{standard, delegated};
ghost use Rattle.tough_roles.specs.Root.{RootDoc, by_bytes};
ghost use Rattle.tough_roles.specs.Signature.{signed_doc};
ghost use Rattle.tough_roles.specs.declared.role_type.RoleType.{RoleType as Kind};
ghost use Rattle.tough_roles.specs.declared.signed.Signed.{Signed};
ghost use Rattle.tough_schema.specs.Delegations.{DelegationsDoc};
ghost use Rattle.tough_schema.specs.Verify.{ReachesDelegated};
ghost use Rattle.tough_sign.specs.Making.{SignWell};
ghost use Rattle.tough_signed.specs.Holders.{by_root, by_delegations};
ghost use Rattle.tough_signed.specs.Refusals.{is_lenient};
ghost use Rattle.tough_signed.specs.Signing.{IsSignedFor};

use tough_keys::Sign;
use tough_roles::Role;

/// A role that was signed for who holds its keys reaches its threshold, under a root and under delegations, where what the signers make verifies by
/// their keys. Of a root it isn't said.
pub fn signed_reaches<T: Role, S: Sign>()
    ensures root { (v : Verifies) (r : RootDoc) (type : Kind) (signers : List S) (s : Signed T)
        → is_lenient T.TYPE ≡ false
        → IsStrictlySortedBy by_bytes (keys_of r.keys) → SignWell v S.key S.signs signers
        → IsSignedFor T.json T.TYPE S.key S.signs (by_root r) (standard type) signers s
        → ReachesUnder v r type T.json (signed_doc (λ x. x) s) }
    ensures delegated { (v : Verifies) (g : DelegationsDoc) (name : List ℕ) (signers : List S)
        (s : Signed T) → is_lenient T.TYPE ≡ false
        → IsStrictlySortedBy by_bytes (keys_of g.keys) → SignWell v S.key S.signs signers
        → IsSignedFor T.json T.TYPE S.key S.signs (by_delegations g) (delegated name) signers s
        → ReachesDelegated v g name T.json (signed_doc (λ x. x) s) }
{
    tough_sign::laws::signatures_reach::<S>();
}
