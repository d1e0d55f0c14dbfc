//! The document of a role: verified, stored, and put where the search needs it.

ghost use Rattle.std.specs.Prelude.{◌≡◌, ◌⊎◌, IfOk, IfErr, OnOk, MatchOption, option_map, string_bytes};
ghost use Rattle.tough_names.specs.Named.{Named};
ghost use Rattle.tough_roles.specs.Signature.{signed_doc};
ghost use Rattle.tough_roles.specs.Timestamp.{metafile_doc};
ghost use Rattle.tough_schema.specs.Whole.{tree_doc};
ghost use Rattle.tough_trust.specs.Failure.{Gives};
ghost use Rattle.tough_trust.specs.Listed.{by_delegations, judged};
ghost use Rattle.tough_trust.specs.View.{role_holder_doc, step_doc};
ghost use Rattle.tough_update.specs.delegations.Growing.{listed_as};
ghost use Rattle.tough_update.specs.delegations.View.{metas_of};
ghost use Rattle.tough_client.specs.Repositories.{IsServedAs, IsKept, alloc_of, documents_of, limits_of, enforced_of, keeping_of, clock_of};
ghost use Rattle.tough_lazy.specs.Course.{Need, needed};
ghost use Rattle.tough_lazy.specs.Adding.{Adds, AddsNone, Stores};
ghost use Rattle.tough_lazy.specs.Documents.{IsSettled, sought_in};
ghost use Rattle.tough_lazy.specs.Finding.{IsListing, IsFound};
ghost use Rattle.tough_lazy.specs.Telling.{Fails, SaysUnlisted, IsUnlisted, IsWrong, IsVerified};
ghost use Rattle.tough_lazy.specs.Walking.{need_of};
ghost use Rattle.tough_lazy.specs.declared.error.FetchRolesError.TheVariants.{Memory};

use crate::error::FetchRolesError;
use crate::walk::{Look, Wanted, look_for};
use std::alloc::{AllocError, Global};
use tough_client::Repository;
use tough_load::{Clock, Keeper};
use tough_names::TargetName;
use tough_net::Transport;
use tough_roles::{Metafile, Snapshot, Verify, Written};
use tough_schema::Targets;
use tough_trust::{Act, Holder, Request, RoleHolder, read_targets, role_request};
use tough_update::UpdateError;
use tough_vault::{Checker, DocumentName, StepError};

/// A role's document, as the snapshot lists it.
#[derive(Drop)]
pub(crate) struct Listing {
    /// The role's name.
    pub(crate) role: String,
    /// The version.
    pub(crate) version: u64,
    /// The file.
    pub(crate) request: Request,
}

/// A role's document that was verified.
#[derive(Drop)]
struct Verified {
    /// The way to its place.
    way: Vec<usize>,
    /// The role's name.
    role: String,
    /// The file's name.
    file: String,
    /// The document.
    document: Written<Targets>,
}

// What the snapshot lists for the role of this name.
fn entry_of<'a>(
    alloc: Global,
    snapshot: &'a Snapshot,
    role: &str,
) -> Result<Option<&'a Metafile>, AllocError>
    ensures { IfOk result (λ o. option_map (λ m. metafile_doc m.now) o
        ≡ listed_as (metas_of snapshot.now) role.now) }
{
    let file = format!(in alloc; "{role}.json")?;
    Ok(snapshot.metafile(file.as_str()))
}

// The snapshot lists no document of the role.
fn unlisted(alloc: Global, role: String) -> FetchRolesError
    ensures { SaysUnlisted (string_bytes role) result }
{
    match format!(in alloc; "{role}.json") {
        Ok(file) => FetchRolesError::Unlisted { role, file },
        Err(_) => FetchRolesError::Memory,
    }
}

/// What the snapshot lists for the role that is wanted.
pub(crate) fn listing_of<T, K: Keeper, C>(
    repository: &Repository<T, K, C>,
    wanted: &Wanted<'_>,
) -> Result<Listing, FetchRolesError>
    ensures listed { IfOk result (IsListing (limits_of repository.now)
        (documents_of repository.now) (need_of wanted.now)) }
    ensures refused { IfErr result
        (IsUnlisted (documents_of repository.now) (need_of wanted.now)) }
{
    let alloc = repository.alloc();
    let role = wanted.role.name.clone()?;
    let Some(entry) = entry_of(alloc, &repository.snapshot().signed, role.as_str())? else {
        return Err(unlisted(alloc, role));
    };
    let limits = repository.limits();
    let consistent = repository.root().signed.consistent_snapshot;
    let request = role_request(alloc, &limits, consistent, role.as_str(), entry)?;
    Ok(Listing {
        role,
        version: entry.version.get(),
        request,
    })
}

// Who vouches for the document of the role that is wanted.
fn holder_of<'a>(wanted: &Wanted<'a>) -> RoleHolder<'a>
    ensures { role_holder_doc result
        ≡ by_delegations (need_of wanted.now).delegations (need_of wanted.now).entry.name }
{
    let name = wanted.role.name.as_str();
    RoleHolder {
        name,
        delegations: wanted.delegations,
        role: match wanted.delegations {
            Some(delegations) => delegations.first_role(name),
            None => None,
        },
    }
}

// The document of the role that is wanted, where the delegations that it stands in vouch for the bytes.
fn judge<T, K: Keeper, C, V: Verify>(
    repository: &Repository<T, K, C>,
    verifier: &V,
    wanted: &Wanted<'_>,
    listed: u64,
    bytes: &[u8],
) -> Result<Written<Targets>, UpdateError>
    ensures { Gives (signed_doc tree_doc) (judged (V.verifies verifier.now)
        (enforced_of repository.now) (documents_of repository.now).known.start
        (by_delegations (need_of wanted.now).delegations (need_of wanted.now).entry.name) listed
        bytes.now) result }
{
    let holder = Holder::Role(holder_of(wanted));
    let checker = Checker {
        alloc: repository.alloc(),
        verifier,
        start: repository.documents().start(),
        enforcement: repository.expiration_enforcement(),
    };
    read_targets(&checker, &holder, listed, bytes)
}

// The document of the role that is wanted, which the bytes must be.
fn verify<T, K: Keeper, C, V: Verify>(
    repository: &Repository<T, K, C>,
    verifier: &V,
    wanted: Wanted<'_>,
    bytes: &[u8],
) -> Result<Verified, FetchRolesError>
    ensures verified { IfOk result (λ v. (v.way.items ≡ (need_of wanted.entry).way)
        × IsVerified (V.verifies verifier.now) (limits_of repository.now)
        (enforced_of repository.now) (documents_of repository.now) (need_of wanted.entry) bytes.now
        (string_bytes v.role) (string_bytes v.file) (signed_doc tree_doc v.document)) }
    ensures refused { IfErr result (IsWrong (V.verifies verifier.now) (limits_of repository.now)
        (enforced_of repository.now) (documents_of repository.now) (need_of wanted.entry) bytes.now) }
{
    let listing = listing_of(repository, &wanted)?;
    let fits = listing.request.fits(bytes);
    let Listing {
        role,
        version,
        request,
    } = listing;
    let file = request.name;
    if !fits {
        return Err(FetchRolesError::Unfit { role, file });
    }
    match judge(repository, verifier, &wanted, version, bytes) {
        Ok(document) => Ok(Verified {
            way: wanted.way,
            role,
            file,
            document,
        }),
        Err(source) => Err(FetchRolesError::Role { role, file, source }),
    }
}

// The document that the search needs next, which the bytes must be; none where it needs none.
fn verify_next<T, K: Keeper, C, V: Verify>(
    repository: &Repository<T, K, C>,
    verifier: &V,
    name: &TargetName,
    bytes: &[u8],
) -> Result<Option<Verified>, FetchRolesError>
    ensures verified { IfOk result (λ o. MatchOption o
        (IsSettled name.now (documents_of repository.now))
        (IsFound (V.verifies verifier.now) name.now repository.now bytes.now)) }
    ensures refused { IfErr result (λ e. (e ≡ Memory)
        ⊎ ((n : Need) × (sought_in name.now (documents_of repository.now) ≡ needed n)
        × IsWrong (V.verifies verifier.now) (limits_of repository.now) (enforced_of repository.now)
        (documents_of repository.now) n bytes.now e)) }
{
    match look_for(repository.alloc(), &repository.targets().signed, name)? {
        Look::Wanted(wanted) => match verify(repository, verifier, wanted, bytes) {
            Ok(verified) => Ok(Some(verified)),
            Err(error) => Err(error),
        },
        Look::Found(_) | Look::Missing => Ok(None),
    }
}

// Has the keeper store the document under the name of its file, unless that is one of the vault's own.
fn store<T, K: Keeper, C, V: Verify>(
    repository: &mut Repository<T, K, C>,
    verifier: &V,
    file: String,
    document: &Written<Targets>,
) -> Result<(), StepError>
    ensures stored { Stores K.keeps (V.verifies verifier.now) (string_bytes file)
        (signed_doc tree_doc document.now) (keeping_of repository.old) (step_doc result)
        (keeping_of repository.new) }
    ensures others { IsKept repository.old repository.new }
    ensures clock { clock_of repository.new ≡ clock_of repository.old }
    ensures alloc { alloc_of repository.new ≡ alloc_of repository.old }
{
    match DocumentName::delegated(file) {
        Some(name) => repository.keep(
            verifier,
            &Act::PutDelegated {
                name: &name,
                targets: document,
            },
        ),
        None => Ok(()),
    }
}

// Stores a document that was verified, and puts it into its place.
fn accept<T, K: Keeper, C, V: Verify>(
    repository: &mut Repository<T, K, C>,
    verifier: &V,
    verified: Verified,
    bytes: Vec<u8>,
) -> Result<(), FetchRolesError>
    ensures added { (name : Named)
        → IsFound (V.verifies verifier.now) name repository.old bytes.items verified
        → OnOk result (Adds K.keeps (V.verifies verifier.now) name bytes.items repository.old
        repository.new) }
    ensures refused { (name : Named)
        → IsFound (V.verifies verifier.now) name repository.old bytes.items verified
        → IfErr result (Fails K.keeps (V.verifies verifier.now) name bytes.items repository.old
        repository.new) }
    ensures clock { clock_of repository.new ≡ clock_of repository.old }
    ensures others { IsServedAs repository.old repository.new }
{
    let Verified {
        way,
        role,
        file,
        document,
    } = verified;
    let stored = file.clone()?;
    if let Err(error) = store(repository, verifier, stored, &document) {
        let source = UpdateError::from(error);
        return Err(FetchRolesError::Role { role, file, source });
    }
    let document = Targets::named(document.into_document(), role);
    repository.put_role(way.as_slice(), document, bytes)?;
    Ok(())
}

/// Takes the bytes of the document that a search for the name needs next: they must fit the snapshot's entry (`Unfit`), and pass the checks of a
/// delegated role's document, as of the beginning of the load (`Role`, with what refuses; TUF specification 5.6.7). The keeper stores it, unless its
/// file has one of the vault's own names (`Role`, with what the store told), and it gets its place in the repository's tree. Where the snapshot
/// doesn't list it, the answer is `Unlisted`. Where the search needs no document, nothing is done. After an error no document has come to the tree.
pub fn take_role<T, K: Keeper, C, V: Verify>(
    repository: &mut Repository<T, K, C>,
    verifier: &V,
    name: &TargetName,
    bytes: Vec<u8>,
) -> Result<(), FetchRolesError>
    ensures added { OnOk result (Adds K.keeps (V.verifies verifier.now) name.now bytes.items
        repository.old repository.new
        ⊎ AddsNone name.now repository.old repository.new) }
    ensures refused { IfErr result (Fails K.keeps (V.verifies verifier.now) name.now bytes.items
        repository.old repository.new) }
    ensures clock { clock_of repository.new ≡ clock_of repository.old }
    ensures others { IsServedAs repository.old repository.new }
{
    match verify_next(repository, verifier, name, bytes.as_slice())? {
        Some(verified) => accept(repository, verifier, verified, bytes),
        None => Ok(()),
    }
}
