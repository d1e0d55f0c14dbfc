//! What signing and tallying promise together.

ghost use Rattle.std.specs.Prelude.{◌≡◌, ◌+◌, ◌↔◌, ℕ, List, [], ◌∷◌, Option, Some, true, false, filter, length, not};
ghost use Rattle.tough_keys.specs.Same.{Verifies};
ghost use Rattle.tough_roles.specs.Chain.{text_by, IsNext};
ghost use Rattle.tough_roles.specs.Root.{RootDoc, RoleKeysDoc, root_doc, root_json};
ghost use Rattle.tough_roles.specs.Signature.{SignatureDoc, signed_doc};
ghost use Rattle.tough_roles.specs.Verdict.{some_twice};
ghost use Rattle.tough_roles.specs.declared.role_type.RoleType.TheVariants as types;
ghost use Rattle.tough_roles.specs.declared.root.Root.{Root};
ghost use Rattle.tough_roles.specs.declared.signed.Signed.{Signed};
ghost use Rattle.tough_sign.specs.Making.{SignWell};
ghost use Rattle.tough_ceremony.specs.Listing.{role_in};
ghost use Rattle.tough_ceremony.specs.Signing.{lists_in, AreSignedBy, Agrees};
ghost use Rattle.tough_ceremony.specs.Tallying.{signed_of, waiting_of, is_reached, IsTally, IsAccepted};
ghost use Rattle.tough_ceremony.specs.declared.tally.Tally.{Tally};

use tough_keys::Sign;

/// Where a holder signs whose signatures verify, the holder's identifiers wait no longer in the tally, and all others wait as before; so many more are counted
/// as waited; and where no identifier stood twice among the signatures, none does. The root that counts must have the holder's key under each identifier
/// under which the holder signs and that it lists: so it is where it is one of the roots that the holder signs for, since identifiers are digests of keys.
pub fn signing_counts<S: Sign>()
    ensures waiting { (v : Verifies) (signer : S) (r by : RootDoc) (old : Option RootDoc)
        (asked : RoleKeysDoc) (text : List ℕ) (before after : List SignatureDoc)
        → SignWell v S.key S.signs (signer ∷ [])
        → AreSignedBy S.key S.signs signer r old before after → text_by root_json r ≡ Some text
        → role_in types.Root by ≡ Some asked → Agrees (S.key signer) by r old
        → waiting_of v by.keys text after asked.keyids
        ≡ filter (λ id. not (lists_in (S.key signer) r old id))
        (waiting_of v by.keys text before asked.keyids) }
    ensures count { (v : Verifies) (signer : S) (r by : RootDoc) (old : Option RootDoc)
        (asked : RoleKeysDoc) (text : List ℕ) (before after : List SignatureDoc)
        → SignWell v S.key S.signs (signer ∷ [])
        → AreSignedBy S.key S.signs signer r old before after → text_by root_json r ≡ Some text
        → role_in types.Root by ≡ Some asked → Agrees (S.key signer) by r old
        → length (signed_of v by.keys text after asked.keyids)
        ≡ length (signed_of v by.keys text before asked.keyids)
        + length (filter (lists_in (S.key signer) r old)
        (waiting_of v by.keys text before asked.keyids)) }
    ensures once { (signer : S) (r : RootDoc) (old : Option RootDoc)
        (before after : List SignatureDoc)
        → AreSignedBy S.key S.signs signer r old before after
        → some_twice before ≡ false → some_twice after ≡ false }
{}

/// Of roots that are read, the next one of a client (TUF specification 1.0, section 5.3) is the one whose version is one more, and whose signatures are accepted under the root
/// before it and under itself, which its tallies under these two tell.
pub fn complete_is_next()
    ensures accepted { (v : Verifies) (old next : Signed Root)
        → IsNext v (signed_doc root_doc old) (signed_doc root_doc next)
        ↔ (IsAccepted v old.signed next × IsAccepted v next.signed next
        × ((root_doc next.signed).head.version ≡ (root_doc old.signed).head.version + 1)) }
    ensures tallied { (v : Verifies) (old next : Signed Root) (before itself : Tally)
        → IsTally v (root_doc old.signed) (signed_doc root_doc next) before
        → IsTally v (root_doc next.signed) (signed_doc root_doc next) itself
        → IsNext v (signed_doc root_doc old) (signed_doc root_doc next)
        ↔ ((is_reached before ≡ true) × (is_reached itself ≡ true)
        × ((root_doc next.signed).head.version ≡ (root_doc old.signed).head.version + 1)) }
{}
