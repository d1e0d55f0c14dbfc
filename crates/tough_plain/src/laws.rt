//! From the types to the plain forms.

ghost use Rattle.std.specs.Prelude.{◌≡◌, ◌≢◌, ℕ, List, Some, None, option_and_then, if◌then◌else◌};
ghost use Rattle.tough_keys.specs.Same.{Verifies};
ghost use Rattle.serde_json.specs.Data.{Data};
ghost use Rattle.serde_json.specs.Written.{has_float};
ghost use Rattle.tough_roles.specs.Document.{document_json};
ghost use Rattle.tough_roles.specs.Chain.{ReachesUnder};
ghost use Rattle.tough_roles.specs.Readable.{IsTextOf};
ghost use Rattle.tough_roles.specs.Root.{RootDoc, root_at, root_doc, root_json};
ghost use Rattle.tough_roles.specs.Timestamp.{timestamp_at, timestamp_doc, timestamp_json};
ghost use Rattle.tough_roles.specs.Snapshot.{snapshot_at, snapshot_doc, snapshot_json};
ghost use Rattle.tough_roles.specs.Signature.{signed_doc};
ghost use Rattle.tough_roles.specs.declared.role_type.RoleType.{RoleType as Kind};
ghost use Rattle.tough_schema.specs.Targets.{targets_at, targets_doc, targets_json};
ghost use Rattle.tough_schema.specs.Delegations.{DelegationsDoc};
ghost use Rattle.tough_schema.specs.Verify.{ReachesDelegated};
ghost use Rattle.tough_checks.specs.Documents.{root_in, timestamp_in, snapshot_in, root_text, timestamp_text, snapshot_text};
ghost use Rattle.tough_trust.specs.Listed.{targets_in, targets_text};

use tough_roles::{Root, Signed, Snapshot, Timestamp};
use tough_schema::Targets;

/// Bytes that are the text of a signed document are read as its plain form.
pub fn written_is_read()
    ensures root { (s : Signed Root) (bytes : List ℕ)
        → IsTextOf (λ d x. root_at d ≡ Some (root_doc x)) s bytes
        → root_in bytes ≡ Some (signed_doc root_doc s) }
    ensures timestamp { (s : Signed Timestamp) (bytes : List ℕ)
        → IsTextOf (λ d x. timestamp_at d ≡ Some (timestamp_doc x)) s bytes
        → timestamp_in bytes ≡ Some (signed_doc timestamp_doc s) }
    ensures snapshot { (s : Signed Snapshot) (bytes : List ℕ)
        → IsTextOf (λ d x. snapshot_at d ≡ Some (snapshot_doc x)) s bytes
        → snapshot_in bytes ≡ Some (signed_doc snapshot_doc s) }
    ensures targets { (s : Signed Targets) (bytes : List ℕ)
        → IsTextOf (λ d x. targets_at d ≡ Some (targets_doc x)) s bytes
        → targets_in bytes ≡ Some (signed_doc targets_doc s) }
{}

/// A signed document that reaches under a root has a plain form that does.
pub fn signed_is_plain()
    ensures root { (v : Verifies) (r : RootDoc) (type : Kind) (s : Signed Root)
        → ReachesUnder v r type (λ x. root_json (root_doc x)) (signed_doc (λ x. x) s)
        → ReachesUnder v r type root_json (signed_doc root_doc s) }
    ensures timestamp { (v : Verifies) (r : RootDoc) (type : Kind) (s : Signed Timestamp)
        → ReachesUnder v r type (λ x. timestamp_json (timestamp_doc x)) (signed_doc (λ x. x) s)
        → ReachesUnder v r type timestamp_json (signed_doc timestamp_doc s) }
    ensures snapshot { (v : Verifies) (r : RootDoc) (type : Kind) (s : Signed Snapshot)
        → ReachesUnder v r type (λ x. snapshot_json (snapshot_doc x)) (signed_doc (λ x. x) s)
        → ReachesUnder v r type snapshot_json (signed_doc snapshot_doc s) }
    ensures targets { (v : Verifies) (r : RootDoc) (type : Kind) (s : Signed Targets)
        → ReachesUnder v r type (λ x. targets_json (targets_doc x)) (signed_doc (λ x. x) s)
        → ReachesUnder v r type targets_json (signed_doc targets_doc s) }
    ensures delegated { (v : Verifies) (g : DelegationsDoc) (name : List ℕ) (s : Signed Targets)
        → ReachesDelegated v g name (λ x. targets_json (targets_doc x)) (signed_doc (λ x. x) s)
        → ReachesDelegated v g name targets_json (signed_doc targets_doc s) }
{}

/// A signed document that has a text without floats, in whatever form, can be stored.
pub fn text_is_stored()
    ensures root { (form : Data → List ℕ) (s : Signed Root) (text : List ℕ)
        → option_and_then (λ d. if has_float d then None else Some (form d))
        (document_json (λ x. root_json (root_doc x)) s) ≡ Some text
        → root_text (signed_doc root_doc s) ≢ None }
    ensures timestamp { (form : Data → List ℕ) (s : Signed Timestamp) (text : List ℕ)
        → option_and_then (λ d. if has_float d then None else Some (form d))
        (document_json (λ x. timestamp_json (timestamp_doc x)) s) ≡ Some text
        → timestamp_text (signed_doc timestamp_doc s) ≢ None }
    ensures snapshot { (form : Data → List ℕ) (s : Signed Snapshot) (text : List ℕ)
        → option_and_then (λ d. if has_float d then None else Some (form d))
        (document_json (λ x. snapshot_json (snapshot_doc x)) s) ≡ Some text
        → snapshot_text (signed_doc snapshot_doc s) ≢ None }
    ensures targets { (form : Data → List ℕ) (s : Signed Targets) (text : List ℕ)
        → option_and_then (λ d. if has_float d then None else Some (form d))
        (document_json (λ x. targets_json (targets_doc x)) s) ≡ Some text
        → targets_text (signed_doc targets_doc s) ≢ None }
{}
