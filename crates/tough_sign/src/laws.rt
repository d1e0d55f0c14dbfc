//! What signing promises of verifying.

ghost use Rattle.std.specs.Prelude.{ℕ, ◌≤◌, List, length};
ghost use Rattle.std.specs.Map.{keys_of};
ghost use Rattle.std.specs.List.Sorted.{IsStrictlySortedBy};
ghost use Rattle.tough_keys.specs.Same.{Verifies};
ghost use Rattle.tough_roles.specs.Signature.{SignatureDoc};
ghost use Rattle.tough_roles.specs.Root.{RoleKeysDoc, by_bytes};
ghost use Rattle.tough_roles.specs.Policy.{policy_of};
ghost use Rattle.tough_roles.specs.Reaches.{Reaches};
ghost use Rattle.tough_sign.specs.Making.{AreMade, Known, chosen, SignWell};

use tough_keys::Sign;

/// Signatures that are made reach the threshold, where as many sign as it asks for, and what they make verifies by their keys.
pub fn signatures_reach<S: Sign>()
    ensures { (v : Verifies) (known : Known) (role : RoleKeysDoc) (signers : List S)
        (text : List ℕ) (ss : List SignatureDoc) → IsStrictlySortedBy by_bytes (keys_of known)
        → SignWell v S.key S.signs signers
        → AreMade S.signs text (chosen S.key known role.keyids signers) ss
        → role.threshold ≤ length (chosen S.key known role.keyids signers)
        → Reaches v (policy_of known role) text ss }
{}
