//! What the definitions promise of every document.

ghost use Rattle.std.specs.Prelude.{◌≡◌, ◌≢◌, None, Ok};
ghost use Rattle.tough_keys.specs.Same.{Verifies};
ghost use Rattle.tough_roles.specs.Root.{RootDoc};
ghost use Rattle.tough_roles.specs.Signature.{SignedDoc, AreSpelled};
ghost use Rattle.tough_roles.specs.Snapshot.{SnapshotDoc};
ghost use Rattle.tough_roles.specs.Timestamp.{TimestampDoc};
ghost use Rattle.tough_checks.specs.Documents.{timestamp_text, timestamp_verdict, snapshot_text, snapshot_verdict};

/// A timestamp or a snapshot that a root verifies has a text in the store.
pub fn verified_is_stored()
    ensures timestamp { (v : Verifies) (root : RootDoc) (d : SignedDoc TimestampDoc)
        → timestamp_verdict v root d ≡ Ok tt → AreSpelled d.signatures → timestamp_text d ≢ None }
    ensures snapshot { (v : Verifies) (root : RootDoc) (d : SignedDoc SnapshotDoc)
        → snapshot_verdict v root d ≡ Ok tt → AreSpelled d.signatures → snapshot_text d ≢ None }
{}
