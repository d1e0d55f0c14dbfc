//! Signed targets, and the documents of delegated roles.

ghost use Rattle.std.specs.Prelude.{◌≡◌, string_bytes};
ghost use Rattle.tough_roles.specs.Signature.{signatures_doc};
ghost use Rattle.tough_schema.specs.Whole.{tree_doc, held_doc};

use crate::targets::{DelegatedTargets, Targets};
use tough_roles::Signed;

impl Targets {
    /// Makes these signed targets the document of the delegated role with this name.
    pub fn named(signed: Signed<Targets>, name: String) -> Signed<DelegatedTargets>
        ensures { held_doc result
            ≡ record {
              name = string_bytes name;
              signatures = signatures_doc
                  signed.signatures.items;
              below = tree_doc signed.signed;
            } }
    {
        let Signed { signed, signatures } = signed;
        Signed {
            signed: DelegatedTargets {
                name,
                targets: signed,
            },
            signatures,
        }
    }
}

impl DelegatedTargets {
    /// Takes a role's document apart: its name, and its signed targets.
    pub fn unnamed(document: Signed<DelegatedTargets>) -> (String, Signed<Targets>)
        ensures { held_doc document
            ≡ record {
              name = string_bytes result.0;
              signatures = signatures_doc
                  result.1.signatures.items;
              below = tree_doc result.1.signed;
            } }
    {
        let Signed { signed, signatures } = document;
        let DelegatedTargets { name, targets } = signed;
        let signed = Signed {
            signed: targets,
            signatures,
        };
        (name, signed)
    }
}
