//! Laws of searches in trees of which documents may be missing.

ghost use Rattle.std.specs.Prelude.{◌≡◌, ℕ, List, Bool, false, IsTrue, Option, Some, None};
ghost use Rattle.tough_names.specs.Named.{Named};
ghost use Rattle.tough_roles.specs.Signature.{SignedDoc};
ghost use Rattle.tough_schema.specs.Delegations.{DelegationsDoc};
ghost use Rattle.tough_schema.specs.Putting.{along, role_along, IsOpenIn};
ghost use Rattle.tough_schema.specs.Search.{search};
ghost use Rattle.tough_schema.specs.Target.{TargetDoc};
ghost use Rattle.tough_schema.specs.Targets.{TargetsDoc};
ghost use Rattle.tough_schema.specs.Tree.{Entry};
ghost use Rattle.tough_schema.specs.Whole.{HeldDoc, TreeDoc};
ghost use Rattle.tough_update.specs.growth.Once.{IsBare};
ghost use Rattle.tough_update.specs.growth.Under.{Below, page_of};
ghost use Rattle.tough_lazy.specs.Course.{Need, sought, listed_so, needed, unlisted};
ghost use Rattle.tough_lazy.specs.Extending.{Extends, ExtendsHeld};

/// A search that needs no document finds what the standard's search finds in the tree as it is.
pub fn settled_finds()
    ensures found { (name : Named) (t : TreeDoc) (x : TargetDoc) → sought name t ≡ listed_so x
        → search false name t ≡ Some x }
    ensures missing { (name : Named) (t : TreeDoc) → sought name t ≡ unlisted
        → search false name t ≡ None }
{}

/// Where a search needs a document, there is a way to a role of the tree, and that role has none.
pub fn needs_a_role()
    ensures way { (name : Named) (t : TreeDoc) (n : Need) → sought name t ≡ needed n
        → IsOpenIn n.way t }
    ensures bare { (name : Named) (t : TreeDoc) (n : Need) → sought name t ≡ needed n
        → role_along n.way t ≡ Some (n.entry, None) }
{}

/// What a search comes to without a missing document stays, whatever documents are added to the tree.
pub fn settled_stays()
    ensures found { (name : Named) (t u : TreeDoc) (x : TargetDoc) → Extends t u
        → sought name t ≡ listed_so x → sought name u ≡ listed_so x }
    ensures missing { (name : Named) (t u : TreeDoc) → Extends t u
        → sought name t ≡ unlisted → sought name u ≡ unlisted }
{}

/// Each tree extends itself. What extends a tree extends each tree that this one extends.
pub fn extends_on()
    ensures itself { (t : TreeDoc) → Extends t t }
    ensures further { (t u v : TreeDoc) → Extends t u → Extends u v → Extends t v }
{}

/// A tree with the document that a search needed extends the tree without it. Where a tree extends that one, and has the document in the same
/// place, perhaps with more documents below it, it still extends the tree with the document.
pub fn extends_by()
    ensures more { (name : Named) (t : TreeDoc) (n : Need) (h : HeldDoc)
        → sought name t ≡ needed n → Extends t (along n.way h t) }
    ensures still { (way : List ℕ) (e : Entry) (h d : HeldDoc) (t u : TreeDoc) → Extends t u
        → role_along way u ≡ Some (e, Some d) → ExtendsHeld h d → Extends (along way h t) u }
{}

/// A test that each document and each of its roles that has one pass still holds with the document that a search needs, where it holds
/// between the delegations that the role stands in and that document.
pub fn below_stays()
    ensures { (fits : Option DelegationsDoc → List ℕ → SignedDoc TargetsDoc → Bool) (name : Named)
        (t : TreeDoc) (n : Need) (h : HeldDoc) → sought name t ≡ needed n
        → Below (λ g role page. IsTrue (fits g role page)) t
        → IsTrue (fits n.delegations n.entry.name (page_of h)) → IsBare h
        → Below (λ g role page. IsTrue (fits g role page)) (along n.way h t) }
{}
