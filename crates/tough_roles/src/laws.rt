//! What the definitions promise of every value.

ghost use Rattle.std.specs.Prelude.{◌≡◌, ◌↔◌, ℕ, List, Option, Some, None, Ok, option_and_then};
ghost use Rattle.tough_keys.specs.Same.{Verifies};
ghost use Rattle.jiff_core.specs.Timestamp.{IsTimestampNanos};
ghost use Rattle.serde_json.specs.Data as Data;
ghost use Rattle.tough_roles.specs.Chain.{text_by};
ghost use Rattle.tough_json.specs.Results.{json_of};
ghost use Rattle.tough_json.specs.Pieces.{text_in};
ghost use Rattle.tough_json.specs.declared.pieces.Form.TheVariants as forms;
ghost use Rattle.tough_roles.specs.declared.signed.Signed.{Signed};
ghost use Rattle.tough_roles.specs.declared.root.Root.{Root};
ghost use Rattle.tough_roles.specs.declared.snapshot.Snapshot.{Snapshot};
ghost use Rattle.tough_roles.specs.declared.timestamp.Timestamp.{Timestamp};
ghost use Rattle.tough_roles.specs.Document.{IsSigned, IsNotSigned, document_json};
ghost use Rattle.tough_roles.specs.Readable.{IsReadable};
ghost use Rattle.tough_roles.specs.Root.{RootDoc, AreOwn, AreOrdered, root_at, root_json, root_doc};
ghost use Rattle.tough_roles.specs.Snapshot.{SnapshotDoc, snapshot_at, snapshot_json, snapshot_doc};
ghost use Rattle.tough_roles.specs.Timestamp.{TimestampDoc, timestamp_at, timestamp_json, timestamp_doc};
ghost use Rattle.tough_roles.specs.Signature.{SignatureDoc, SignedDoc, AreSpelled, signed_at, signed_json, signed_doc};
ghost use Rattle.tough_roles.specs.Policy.{Policy};
ghost use Rattle.tough_roles.specs.Verdict.{Refused, verdict};
ghost use Rattle.tough_roles.specs.declared.role_type.RoleType.{RoleType};
ghost use Rattle.tough_roles.specs.Reaches.{Reaches};

/// A role is verified exactly where a set of identifiers as large as the threshold has signed, none of which stands twice.
pub fn verified_exactly()
    ensures { (v : Verifies) (absent : Refused) (type : RoleType) (p : Policy) (text : List ℕ)
        (ss : List SignatureDoc)
        → (verdict v absent type (Some p) (Some text) ss ≡ Ok tt) ↔ Reaches v p text ss }
{}

/// What reading says of a signed root is an equation on its plain form.
pub fn signed_root()
    ensures read { (d : Data.Data) (s : Signed Root)
        → IsSigned (λ e x. root_at e ≡ Some (root_doc x)) d s
        → signed_at root_at d ≡ Some (signed_doc root_doc s) }
    ensures refused { (d : Data.Data) → IsNotSigned (λ e. root_at e ≡ None) d
        → signed_at root_at d ≡ None }
    ensures written { (s : Signed Root)
        → document_json (λ x. root_json (root_doc x)) s
        ≡ signed_json root_json (signed_doc root_doc s) }
{}

/// The same of a signed timestamp.
pub fn signed_timestamp()
    ensures read { (d : Data.Data) (s : Signed Timestamp)
        → IsSigned (λ e x. timestamp_at e ≡ Some (timestamp_doc x)) d s
        → signed_at timestamp_at d ≡ Some (signed_doc timestamp_doc s) }
    ensures refused { (d : Data.Data) → IsNotSigned (λ e. timestamp_at e ≡ None) d
        → signed_at timestamp_at d ≡ None }
    ensures written { (s : Signed Timestamp)
        → document_json (λ x. timestamp_json (timestamp_doc x)) s
        ≡ signed_json timestamp_json (signed_doc timestamp_doc s) }
{}

/// The same of a signed snapshot.
pub fn signed_snapshot()
    ensures read { (d : Data.Data) (s : Signed Snapshot)
        → IsSigned (λ e x. snapshot_at e ≡ Some (snapshot_doc x)) d s
        → signed_at snapshot_at d ≡ Some (signed_doc snapshot_doc s) }
    ensures refused { (d : Data.Data) → IsNotSigned (λ e. snapshot_at e ≡ None) d
        → signed_at snapshot_at d ≡ None }
    ensures written { (s : Signed Snapshot)
        → document_json (λ x. snapshot_json (snapshot_doc x)) s
        ≡ signed_json snapshot_json (signed_doc snapshot_doc s) }
{}

/// A role whose signatures verify holds no float, so its document has a compact text.
pub fn verified_is_written()
    ensures root { (v : Verifies) (absent : Refused) (type : RoleType) (p : Option Policy)
        (s : SignedDoc RootDoc)
        → verdict v absent type p (text_by root_json s.role) s.signatures ≡ Ok tt
        → AreSpelled s.signatures
        → (text : List ℕ)
        × (option_and_then (text_in forms.Compact) (signed_json root_json s) ≡ Some text) }
    ensures timestamp { (v : Verifies) (absent : Refused) (type : RoleType) (p : Option Policy)
        (s : SignedDoc TimestampDoc)
        → verdict v absent type p (text_by timestamp_json s.role) s.signatures ≡ Ok tt
        → AreSpelled s.signatures
        → (text : List ℕ)
        × (option_and_then (text_in forms.Compact) (signed_json timestamp_json s) ≡ Some text) }
    ensures snapshot { (v : Verifies) (absent : Refused) (type : RoleType) (p : Option Policy)
        (s : SignedDoc SnapshotDoc)
        → verdict v absent type p (text_by snapshot_json s.role) s.signatures ≡ Ok tt
        → AreSpelled s.signatures
        → (text : List ℕ)
        × (option_and_then (text_in forms.Compact) (signed_json snapshot_json s) ≡ Some text) }
{}

/// The compact text of a JSON value is read as the value.
pub fn text_reads_back()
    ensures { (d : Data.Data) (text : List ℕ) → IsReadable d → text_in forms.Compact d ≡ Some text
        → json_of text ≡ Some d }
{}

/// The text of a signed root, whose keys stand under their own identifiers, is read as it.
pub fn root_reads_back()
    ensures { (s : SignedDoc RootDoc) (d : Data.Data) (text : List ℕ)
        → IsTimestampNanos s.role.head.expires → AreOwn s.role.keys → AreOrdered s.role
        → signed_json root_json s ≡ Some d → IsReadable d → text_in forms.Compact d ≡ Some text
        → option_and_then (signed_at root_at) (json_of text) ≡ Some s }
{}

/// The text of a signed timestamp is read as it.
pub fn timestamp_reads_back()
    ensures { (s : SignedDoc TimestampDoc) (d : Data.Data) (text : List ℕ)
        → IsTimestampNanos s.role.head.expires
        → signed_json timestamp_json s ≡ Some d → IsReadable d → text_in forms.Compact d ≡ Some text
        → option_and_then (signed_at timestamp_at) (json_of text) ≡ Some s }
{}

/// The text of a signed snapshot is read as it.
pub fn snapshot_reads_back()
    ensures { (s : SignedDoc SnapshotDoc) (d : Data.Data) (text : List ℕ)
        → IsTimestampNanos s.role.head.expires
        → signed_json snapshot_json s ≡ Some d → IsReadable d → text_in forms.Compact d ≡ Some text
        → option_and_then (signed_at snapshot_at) (json_of text) ≡ Some s }
{}
