//! Laws over whole trees.

ghost use Rattle.std.specs.Prelude.{◌≡◌, List};
ghost use Rattle.tough_roles.specs.Signature.{SignedDoc};
ghost use Rattle.tough_schema.specs.Whole.{HeldDoc, TreeDoc};
ghost use Rattle.tough_update.specs.delegations.Growing.{Metas, grown, begun};
ghost use Rattle.tough_schema.specs.Fresh.{carriers_below, IsFresh, IsFreshDelegated};
ghost use Rattle.tough_update.specs.growth.Once.{IsBare, AreBare, Distinct, runs};

/// No name carries a document twice, whatever documents are taken.
pub fn grows_once()
    ensures { (metas : Metas) (top : HeldDoc) (documents : List HeldDoc) (t : SignedDoc TreeDoc)
        → IsBare top → AreBare documents → runs metas (begun metas top) documents ≡ grown t
        → Distinct (carriers_below t.role) }
{}

ghost use Rattle.std.specs.Prelude.{ℕ, Bool, IsTrue, Option};
ghost use Rattle.tough_schema.specs.Delegations.{DelegationsDoc};
ghost use Rattle.tough_schema.specs.Targets.{TargetsDoc};
ghost use Rattle.tough_update.specs.growth.Under.{AllTaken, Below, page_of};
ghost use Rattle.tough_trust.specs.delegations.Bare.{top_page};

/// What is asked of each document that is taken, of the delegations that ask for it, the name of the role and the document without those
/// of its roles, holds throughout the tree: of the delegations of each document, and each of its roles that has one. The tree says for itself
/// what the first document did.
pub fn grows_under()
    ensures under { (fits : Option DelegationsDoc → List ℕ → SignedDoc TargetsDoc → Bool)
        (metas : Metas) (top : HeldDoc) (documents : List HeldDoc) (t : SignedDoc TreeDoc)
        → IsBare top
        → AllTaken (λ g name page. IsTrue (fits g name page)) metas (begun metas top) documents
        → runs metas (begun metas top) documents ≡ grown t
        → Below (λ g name page. IsTrue (fits g name page)) t.role }
    ensures top { (fits : Option DelegationsDoc → List ℕ → SignedDoc TargetsDoc → Bool)
        (metas : Metas) (top : HeldDoc) (documents : List HeldDoc) (t : SignedDoc TreeDoc)
        → IsBare top
        → AllTaken (λ g name page. IsTrue (fits g name page)) metas (begun metas top) documents
        → runs metas (begun metas top) documents ≡ grown t → top_page t ≡ page_of top }
{}

ghost use Rattle.tough_update.specs.growth.Listed.{WantsListed};

/// A document that is wanted is one that the snapshot lists so, for a role of the document whose list is being fetched.
pub fn wanted_is_listed()
    ensures { (metas : Metas) (top : HeldDoc) (documents : List HeldDoc)
        → WantsListed metas (runs metas (begun metas top) documents) }
{}

ghost use Rattle.tough_update.specs.growth.Indexed.{WantsIndexed};

/// As long as the tree grows, its index tells where the documents stand: a name has a number exactly where the document of that number has
/// its place under a role of the name.
pub fn grows_indexed()
    ensures { (metas : Metas) (top : HeldDoc) (documents : List HeldDoc)
        → WantsIndexed (runs metas (begun metas top) documents) }
{}

ghost use Rattle.tough_roles.specs.declared.signed.Signed.{Signed};
ghost use Rattle.tough_schema.specs.Whole.{held_doc};
ghost use Rattle.tough_schema.specs.declared.targets.DelegatedTargets.{DelegatedTargets};
ghost use Rattle.tough_schema.specs.declared.targets.Targets.{Targets};
ghost use Rattle.tough_update.specs.delegations.View.{top_held};

/// What reading ensures of targets, and of the document of a delegated role, is what these laws ask of them.
pub fn read_is_bare()
    ensures top { (s : Signed Targets) → IsFresh s.signed → IsBare (top_held s) }
    ensures document { (s : Signed DelegatedTargets) → IsFreshDelegated s.signed
        → IsBare (held_doc s) }
{}

/// How many laws this file states.
pub const LAWS: usize = 4;
