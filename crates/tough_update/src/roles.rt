//! The documents of delegated roles (TUF specification 5.6.7).

ghost use Rattle.std.specs.Prelude.{◌≡◌, ◌++◌, ◌∷◌, [], OnOk, string_bytes};
ghost use Rattle.tough_roles.specs.Signature.{signed_doc};
ghost use Rattle.tough_checks.specs.Checks.{enforces};
ghost use Rattle.tough_checks.specs.DocumentName.{name_of};
ghost use Rattle.tough_schema.specs.Whole.{tree_doc};
ghost use Rattle.tough_update.specs.delegations.Growing.{wants, go_on, wanted_name};
ghost use Rattle.tough_update.specs.delegations.View.{work_doc};
ghost use Rattle.tough_trust.specs.Failure.{Gives};
ghost use Rattle.tough_update.specs.Delegated.{role_holder, metas_in, with_received, finished, grown_on, roles_begun, targets_stored, role_given, role_stored, new_role};
ghost use Rattle.tough_trust.specs.Listed.{judged};
ghost use Rattle.tough_update.specs.View.{known_doc, roles_doc, received_docs, stage_doc, setting_doc};

use crate::delegations::{Growth, Progress};
use crate::extent::Extent;
use crate::stage::{Known, Loaded, Pending, Received, Roles, Stage, Wanted};
use crate::turns::Setting;
use std::alloc::{AllocError, Global};
use tough_roles::{Signed, Verify, Written};
use tough_schema::Targets;
use tough_trust::{Limits, UpdateError, check_tree, holder_of, read_targets, role_request};
use tough_vault::{Checker, DocumentName};

// The tree is complete: each name that it lists must be found.
fn finish(
    alloc: Global,
    known: Known,
    targets: Signed<Targets>,
    received: Vec<Received>,
) -> Result<Stage, UpdateError>
    ensures { Gives stage_doc
        (finished (known_doc known) (received_docs received.items)
        (signed_doc tree_doc targets)) result }
{
    let loaded = Loaded {
        known,
        targets,
        received,
    };
    match check_tree(alloc, &loaded.targets.signed) {
        Ok(()) => Ok(Stage::Done(Ok(loaded))),
        Err(error) => {
            drop(loaded);
            Err(error)
        }
    }
}

// Another document is to be fetched, as the snapshot's entry says, or the tree is complete.
fn grow_on(
    alloc: Global,
    limits: &Limits,
    known: Known,
    growth: Growth,
    received: Vec<Received>,
) -> Result<Stage, UpdateError>
    ensures { Gives stage_doc
        (grown_on limits.now (known_doc known) (received_docs received.items)
        (go_on (metas_in (known_doc known)) (work_doc growth))) result }
{
    let consistent = known.root.signed.consistent_snapshot;
    match growth.go_on(alloc, &known.snapshot.signed)? {
        Progress::Wants(growth, meta) => {
            let request = role_request(alloc, limits, consistent, growth.wanted_name(), meta)?;
            let listed = meta.version.get();
            let roles = Roles { growth, received };
            Ok(Stage::Fetch(Wanted::Role(known, roles, listed), request))
        }
        Progress::Grown(targets) => finish(alloc, known, targets, received),
    }
}

// The documents of the roles are fetched.
fn begin_roles(
    alloc: Global,
    limits: &Limits,
    known: Known,
    targets: Signed<Targets>,
) -> Result<Stage, UpdateError>
    ensures { Gives stage_doc
        (roles_begun limits.now (known_doc known) (signed_doc tree_doc targets)) result }
{
    let growth = Growth::new(alloc, targets)?;
    grow_on(alloc, limits, known, growth, Vec::new(alloc))
}

/// The targets were stored: the documents of their roles are fetched, where those are loaded.
pub(crate) fn end_targets(
    setting: &Setting<'_>,
    known: Known,
    targets: Signed<Targets>,
) -> Result<Stage, UpdateError>
    ensures { Gives stage_doc
        (targets_stored (setting_doc setting.now) (known_doc known)
        (signed_doc tree_doc targets)) result }
{
    match setting.extent {
        Extent::Whole => begin_roles(setting.alloc, &setting.limits, known, targets),
        Extent::TopLevel => finish(setting.alloc, known, targets, Vec::new(setting.alloc)),
    }
}

/// A role gets its document.
pub(crate) fn give_role(
    alloc: Global,
    limits: &Limits,
    known: Known,
    roles: Roles,
    targets: Signed<Targets>,
) -> Result<Stage, UpdateError>
    ensures { Gives stage_doc
        (role_given limits.now (known_doc known) (roles_doc roles)
        (signed_doc tree_doc targets)) result }
{
    let Roles {
        mut growth,
        received,
    } = roles;
    let name = String::from_str(alloc, growth.wanted_name())?;
    growth.take(Targets::named(targets, name))?;
    grow_on(alloc, limits, known, growth, received)
}

// The document is stored by the name of its file, unless that is reserved.
fn store_role(
    setting: &Setting<'_>,
    known: Known,
    roles: Roles,
    file: String,
    targets: Written<Targets>,
) -> Result<Stage, UpdateError>
    ensures { Gives stage_doc
        (role_stored (setting_doc setting.now).limits (known_doc known) (roles_doc roles)
        (string_bytes file) (signed_doc tree_doc targets)) result }
{
    match DocumentName::delegated(file) {
        Some(name) => Ok(Stage::Step(Pending::PutDelegated(known, roles, name, targets))),
        None => {
            let document = targets.into_document();
            give_role(setting.alloc, &setting.limits, known, roles, document)
        }
    }
}

// The bytes are kept, under the role's name.
fn keep_bytes(alloc: Global, roles: &mut Roles, bytes: Vec<u8>) -> Result<(), AllocError>
    ensures { OnOk result (roles_doc roles.new ≡ with_received (roles_doc roles.old) bytes.items) }
{
    let role = String::from_str(alloc, roles.growth.wanted_name())?;
    roles.received.push(Received { role, bytes })?;
    Ok(())
}

/// The bytes of a role's document.
pub(crate) fn take_role<V: Verify>(
    setting: &Setting<'_>,
    known: Known,
    roles: Roles,
    listed: u64,
    file: String,
    bytes: Vec<u8>,
    verifier: &V,
) -> Result<Stage, UpdateError>
    ensures { Gives stage_doc
        (new_role (V.verifies verifier.now) (setting_doc setting.now) (known_doc known)
        (roles_doc roles) listed (string_bytes file) bytes.items) result }
{
    let holder = holder_of(&known.root.signed, Some(roles.growth.holder()));
    let checker = Checker {
        alloc: setting.alloc,
        verifier,
        start: known.start,
        enforcement: setting.enforcement,
    };
    let targets = match read_targets(&checker, &holder, listed, bytes.as_slice()) {
        Ok(targets) => targets,
        Err(error) => return Err(error),
    };
    let mut roles = roles;
    keep_bytes(setting.alloc, &mut roles, bytes)?;
    store_role(setting, known, roles, file, targets)
}
