//! What the definitions promise of every value.

ghost use Rattle.std.specs.Prelude.{◌≡◌, ◌↔◌, ◌∷◌, [], ℕ, List, Some, false, true};
ghost use Rattle.serde_json.specs.Data as Data;
ghost use Rattle.serde_json.specs.Data.{object, member, no_members};
ghost use Rattle.serde_json.specs.Written.{has_float};
ghost use Rattle.tough_cjson.specs.Canon.{Canon, shares_name};
ghost use Rattle.tough_cjson.specs.CanonicalText.{canonical_of};
ghost use Rattle.tough_cjson.specs.Small.{IsSmall};
ghost use Rattle.tough_cjson.specs.Same.{Same};

/// Two values have the same text exactly if they are the same up to NFC.
pub fn same_text()
    ensures { (v w : Data.Data) (s t : List ℕ) → Canon v s → Canon w t → (s ≡ t) ↔ Same v w }
{}

/// A value has one text at most.
pub fn one_text()
    ensures { (v : Data.Data) (s t : List ℕ) → Canon v s → Canon v t → s ≡ t }
{}

/// The text is computed: `canonical_of` gives it, exactly where there is one.
pub fn computed_text()
    ensures { (v : Data.Data) (t : List ℕ) → (canonical_of v ≡ Some t) ↔ Canon v t }
{}

/// What has a text holds no float, and no object in it has two names with one NFC.
pub fn accepted()
    ensures { (v : Data.Data) (t : List ℕ) → Canon v t
        → (has_float v ≡ false) × (shares_name v ≡ false) }
{}

/// What holds no float, and no name twice, has a text. A value of a program that holds none is small (`canonical small`).
pub fn has_text()
    ensures { (v : Data.Data) → IsSmall v → has_float v ≡ false → shares_name v ≡ false
        → (t : List ℕ) × Canon v t }
{}

/// The text of e and U+0301, in quotes: by the definition, with no code.
pub fn e_acute()
    ensures { Canon (Data.string (101 ∷ 0xCC ∷ 0x81 ∷ [])) (34 ∷ 0xC3 ∷ 0xA9 ∷ 34 ∷ []) }
{}

/// An object with the names e and U+0301, and U+00E9, has one name twice.
pub fn e_acute_twice()
    ensures { (v w : Data.Data) → shares_name (object (member (101 ∷ 0xCC ∷ 0x81 ∷ []) v
        (member (0xC3 ∷ 0xA9 ∷ []) w no_members))) ≡ true }
{}
