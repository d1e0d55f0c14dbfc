//! Theorems about the definitions.

ghost use Rattle.std.specs.Prelude.{◌≡◌, ◌↔◌, ◌≤◌, ℕ, Bool, List, length, None, Some, true, chars, option_and_then};
ghost use Rattle.jiff_core.specs.Timestamp.{IsTimestampNanos};
ghost use Rattle.serde_json.specs.Data as Data;
ghost use Rattle.tough_json.specs.Pieces.{text_in};
ghost use Rattle.tough_json.specs.Results.{json_of};
ghost use Rattle.tough_json.specs.declared.pieces.Form.TheVariants as forms;
ghost use Rattle.tough_names.specs.Named.{Named};
ghost use Rattle.tough_names.specs.Spelling.{Matches};
ghost use Rattle.tough_roles.specs.Readable.{IsReadable};
ghost use Rattle.tough_roles.specs.Signature.{SignedDoc, signed_at, signed_json};
ghost use Rattle.tough_schema.specs.Entries.{entries, first_missing, IsValid};
ghost use Rattle.tough_schema.specs.Found.{tested, FindsByNumber};
ghost use Rattle.tough_schema.specs.Marks.{ReachesExactly};
ghost use Rattle.tough_schema.specs.Matching.{pattern_matches};
ghost use Rattle.tough_schema.specs.Targets.{TargetsDoc, KeysAreOwn, AreSorted, targets_at, targets_json};
ghost use Rattle.tough_schema.specs.Whole.{TreeDoc, TellsItsTop};

/// A pattern matches exactly where its grammar says that it does.
pub fn patterns_match_exactly()
    ensures { (resolved p : List ℕ)
        → (pattern_matches resolved p ≡ true) ↔ Matches (chars p) (chars resolved) }
{}

/// The text of signed targets is read back as these targets, if each key stands under its own identifier.
pub fn targets_reads_back()
    ensures { (s : SignedDoc TargetsDoc) (d : Data.Data) (text : List ℕ)
        → IsTimestampNanos s.role.head.expires → KeysAreOwn s.role.delegations → AreSorted s.role
        → signed_json targets_json s ≡ Some d → IsReadable d → text_in forms.Compact d ≡ Some text
        → option_and_then (signed_at targets_at) (json_of text) ≡ Some s }
{}

/// A document without the documents below it is the top of its tree.
pub fn trees_tell_their_top()
    ensures { TellsItsTop }
{}

/// A tree is valid if the search finds each listed name.
pub fn valid_where_none_is_missing()
    ensures { (t : TreeDoc) → IsValid t ↔ (first_missing t ≡ None) }
{}

/// A search for a name reaches the roles whose path set matches, that stand below reached roles alone, and whose name
/// no role has that was reached before.
pub fn searches_reach_exactly()
    ensures { (name : Named) (t : TreeDoc) → ReachesExactly name t }
{}

/// A search compares at most as many path sets as the tree has delegated roles.
pub fn searches_test_few()
    ensures { (permissive : Bool) (name : Named) (t : TreeDoc)
        → length (tested permissive name t) ≤ length (entries t) }
{}

/// A search finds what the document of the number lists that a search by number ends with.
pub fn searches_find_by_number()
    ensures { (permissive : Bool) (name : Named) (t : TreeDoc) → FindsByNumber permissive name t }
{}
