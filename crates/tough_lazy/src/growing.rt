//! Laws of documents that are added one by one.

ghost use Rattle.std.specs.Prelude.{◌≡◌, ◌≤ℤ◌, Bool, false, true, Some};
ghost use Rattle.tough_keys.specs.Same.{Verifies};
ghost use Rattle.tough_names.specs.Named.{Named};
ghost use Rattle.tough_net.specs.declared.limits.Limits.{Limits};
ghost use Rattle.tough_roles.specs.Signature.{SignedDoc, signed_doc};
ghost use Rattle.tough_roles.specs.declared.signed.Signed.{Signed};
ghost use Rattle.tough_schema.specs.Search.{search};
ghost use Rattle.tough_schema.specs.Whole.{TreeDoc, tree_doc};
ghost use Rattle.tough_schema.specs.declared.targets.Targets.{Targets};
ghost use Rattle.tough_trust.specs.delegations.Bare.{bare, top_page};
ghost use Rattle.tough_update.specs.Loadable.{Files, Loadable};
ghost use Rattle.tough_update.specs.Stages.{LoadedDoc, SettingDoc};
ghost use Rattle.tough_update.specs.Trusted.{IsVouched};
ghost use Rattle.tough_update.specs.growth.Under.{Below};
ghost use Rattle.tough_lazy.specs.Course.{needed};
ghost use Rattle.tough_lazy.specs.Documents.{AddedDoc, IsDocument, IsSettled, file_for, sought_in, with_document};
ghost use Rattle.tough_lazy.specs.Extending.{Extends, KeepsItsKeys};

/// A document that is added leaves what is known as it is, and what the targets say for themselves.
pub fn known_stays()
    ensures known { (l : LoadedDoc) (a : AddedDoc) → (with_document a l).known ≡ l.known }
    ensures top { (l : LoadedDoc) (a : AddedDoc)
        → top_page (with_document a l).targets ≡ top_page l.targets }
{}

/// The targets alone, without the document of any role, are extended by each tree of theirs that has roles only where it has their keys, as a
/// tree of a program does, and as one does that can be loaded.
pub fn begins_below()
    ensures below { (w : SignedDoc TreeDoc) → KeepsItsKeys w.role
        → Extends (bare (top_page w)).role w.role }
    ensures seen { (s : Signed Targets)
        → Extends (bare (top_page (signed_doc tree_doc s))).role (tree_doc s.signed) }
    ensures loadable { (verifies : Verifies) (files : Files) (s : SettingDoc) (w : LoadedDoc)
        → Loadable verifies files s w → Extends (bare (top_page w.targets)).role w.targets.role }
{}

/// A search that needs no more documents finds what it finds in each tree that has these documents and more.
pub fn finds_as_the_whole()
    ensures { (name : Named) (l w : LoadedDoc) → Extends l.targets.role w.targets.role
        → IsSettled name l → search false name l.targets.role ≡ search false name w.targets.role }
{}

/// Where delegations vouch for each document that stands under them, they still do so with the document that a search needed.
pub fn stays_vouched()
    ensures { (verifies : Verifies) (limits : Limits) (enforced : Bool) (name : Named)
        (l : LoadedDoc) (a : AddedDoc)
        → Below (IsVouched verifies l.known.snapshot.role.meta) l.targets.role
        → sought_in name l ≡ needed a.need → IsDocument verifies limits enforced l a
        → Below (IsVouched verifies l.known.snapshot.role.meta) (with_document a l).targets.role }
{}

/// Where expiry counts, and no document of a role expired before the update began, none has with the document that a search needed.
pub fn stays_in_time()
    ensures { (verifies : Verifies) (limits : Limits) (enforced : Bool) (name : Named)
        (l : LoadedDoc) (a : AddedDoc) → enforced ≡ true
        → Below (λ g role page. l.known.start ≤ℤ page.role.head.expires) l.targets.role
        → sought_in name l ≡ needed a.need → IsDocument verifies limits enforced l a
        → Below (λ g role page. l.known.start ≤ℤ page.role.head.expires)
        (with_document a l).targets.role }
{}

/// Documents that are fetched one by one from files that a whole load could be made of make no more than that load: where the tree so far has
/// documents of its tree at their places, it has so with the document that a search needed.
pub fn grows_below()
    ensures { (verifies : Verifies) (files : Files) (s : SettingDoc) (name : Named)
        (w l : LoadedDoc) (a : AddedDoc) → Loadable verifies files s w → l.known ≡ w.known
        → Extends l.targets.role w.targets.role → sought_in name l ≡ needed a.need
        → IsDocument verifies s.limits s.enforced l a
        → files (file_for s.limits l a.need a.entry).name ≡ Some a.bytes
        → Extends (with_document a l).targets.role w.targets.role }
{}
