//! The roles that a search comes to, fetched one after another.

ghost use Rattle.std.specs.Prelude.{◌≡◌, ◌<◌, None, Some, Err, IfOk, IfErr, IfSome, IsSomeAnd, MatchOption, OnOk, string_bytes};
ghost use Rattle.futures.specs.Poll.{IfReady, OnPending};
ghost use Rattle.futures.specs.Task.{Covers, Keeps};
ghost use Rattle.tough_net.specs.Collecting.{collected};
ghost use Rattle.tough_load.specs.Running.{CanPoll};
ghost use Rattle.tough_client.specs.Repositories.{documents_of, limits_of};
ghost use Rattle.tough_lazy.specs.Course.{Need, needed};
ghost use Rattle.tough_lazy.specs.Documents.{IsSettled, sought_in};
ghost use Rattle.tough_lazy.specs.Telling.{IsUnfetched, TellsFault};
ghost use Rattle.tough_lazy.specs.Walking.{need_of};
ghost use Rattle.tough_lazy.specs.Fetching.{Asks, IsAskedFor, IsUnasked, IsCut, Begins, Takes, Remains, GoesOn, Ends, Settles, repository_in, verifier_in, name_in, most_in, left_in, fetch_in};

use crate::error::FetchRolesError;
use crate::role::{Listing, listing_of, take_role};
use crate::walk::{Look, Wanted, look_for};
use futures::task::{Context, Poll};
use futures::{Future, ready};
use tough_client::Repository;
use tough_load::{Clock, Keeper, fetch_file};
use tough_names::TargetName;
use tough_net::{Collect, Digests, Transport, TransportError};
use tough_roles::Verify;
use tough_trust::{Fault, Request};

/// How many documents a search fetches at most, where nobody says otherwise.
pub const MAX_DELEGATIONS: u64 = 32;

// Why the file of a role couldn't be fetched.
fn unfetched(role: String, file: String, fault: Fault) -> FetchRolesError
    ensures { TellsFault (string_bytes role) (string_bytes file) fault result }
{
    match file.clone() {
        Ok(path) => FetchRolesError::Role {
            role,
            file,
            source: fault.into_error(path),
        },
        Err(_) => FetchRolesError::Memory,
    }
}

// Starts to fetch the document of the role that is wanted. Its digests are checked once it is there.
fn start<T: Transport, K: Keeper, C>(
    repository: &Repository<T, K, C>,
    wanted: &Wanted<'_>,
) -> Result<Collect<T::Stream>, FetchRolesError>
    ensures started { IfOk result (IsAskedFor T.serves T.Stream.yields repository.now
        (need_of wanted.now)) }
    ensures can_poll { IfOk result (λ f. CanPoll T.Stream.can_poll (Some f)) }
    ensures refused { IfErr result (IsUnfetched (limits_of repository.now)
        (documents_of repository.now) (need_of wanted.now)) }
{
    let Listing {
        role,
        version: _,
        request,
    } = listing_of(repository, wanted)?;
    let request = Request {
        digests: Digests::none(),
        ..request
    };
    let base = repository.metadata_base_url();
    match fetch_file(repository.alloc(), repository.transport(), base, &request) {
        Ok(fetch) => Ok(fetch),
        Err(fault) => Err(unfetched(role, request.name, fault)),
    }
}

// Starts to fetch the document that the search needs, where one may still be fetched. None where it needs none.
fn begin<T: Transport, K: Keeper, C>(
    repository: &Repository<T, K, C>,
    name: &TargetName,
    most: u64,
    left: u64,
) -> Result<Option<Collect<T::Stream>>, FetchRolesError>
    ensures begun { IfOk result (λ o. MatchOption o
        (IsSettled name.now (documents_of repository.now))
        (Asks T.serves T.Stream.yields name.now repository.now)) }
    ensures left { IfOk result (λ o. IfSome o (λ f. 0 < left)) }
    ensures can_poll { IfOk result (CanPoll T.Stream.can_poll) }
    ensures refused { IfErr result (IsUnasked name.now most left repository.now) }
{
    match look_for(repository.alloc(), &repository.targets().signed, name)? {
        Look::Wanted(wanted) => {
            if left == 0 {
                return Err(FetchRolesError::TooMany { most });
            }
            match start(repository, &wanted) {
                Ok(fetch) => Ok(Some(fetch)),
                Err(error) => Err(error),
            }
        }
        Look::Found(_) | Look::Missing => Ok(None),
    }
}

// Why the document that the search needs wasn't fetched to its end. Where it needs none, that is nothing.
fn cut_off<T, K: Keeper, C>(
    repository: &Repository<T, K, C>,
    name: &TargetName,
    source: TransportError,
) -> Result<(), FetchRolesError>
    ensures settled { OnOk result (IsSettled name.now (documents_of repository.now)) }
    ensures refused { IfErr result (IsCut name.now repository.now) }
{
    let Look::Wanted(wanted) = look_for(repository.alloc(), &repository.targets().signed, name)?
    else {
        return Ok(());
    };
    let Listing {
        role,
        version: _,
        request,
    } = listing_of(repository, &wanted)?;
    Err(unfetched(role, request.name, Fault::Transport(source)))
}

/// The future of `fetch_roles`.
#[derive(Drop)]
pub struct FetchRoles<'a, T: Transport, K: Keeper, C, V> {
    repository: &'a mut Repository<T, K, C>,
    verifier: &'a V,
    name: &'a TargetName,
    most: u64,
    left: u64,
    fetch: Option<Collect<T::Stream>>,
}

/// Fetches the documents of the delegated roles that a search for the name comes to and that aren't there yet (TUF specification 5.6.7), at most
/// so many. Each is verified as its delegations ask, as of the beginning of the load, stored by the repository's keeper unless its file has one of
/// the vault's own names, and put into the repository's tree, where later searches find it. Then the repository's own search for the name is that
/// of the standard: `read_target` and `save_target` read what it finds. That is told of each poll, and of the answer only that such documents are.
///
/// The errors: `Unlisted` where the snapshot lists no document of a role, `Unfit` where its file has another digest than is listed, `Role` with
/// what the transport, a check or the store told, `TooMany` where more documents are needed, `Memory`.
pub fn fetch_roles<'a, T: Transport, K: Keeper, C, V: Verify>(
    repository: &'a mut Repository<T, K, C>,
    verifier: &'a V,
    name: &'a TargetName,
    most: u64,
) -> FetchRoles<'a, T, K, C, V>
    ensures lent { (repository_in result).ghost_name ≡ repository.entry.ghost_name }
    ensures begins { (repository_in result).now ≡ repository.old }
    ensures verifier { verifier_in result ≡ verifier.now }
    ensures named { name_in result ≡ name.now }
    ensures most { most_in result ≡ most }
    ensures left { left_in result ≡ most }
    ensures idle { fetch_in result ≡ None }
{
    FetchRoles {
        repository,
        verifier,
        name,
        most,
        left: most,
        fetch: None,
    }
}

impl<T: Transport, K: Keeper, C: Drop, V: Verify> FetchRoles<'_, T, K, C, V> {
    // Starts to fetch the next document, or ends.
    fn advance(&mut self) -> Option<Result<(), FetchRolesError>>
        requires idle { fetch_in self.old ≡ None }
        ensures done { IfSome result (Ends K.keeps V.verifies self.old self.new) }
        ensures goes { result ≡ None
            → Begins T.serves T.Stream.yields self.old self.new }
        ensures again { CanPoll T.Stream.can_poll (fetch_in self.new) }
        ensures remains { Remains self.old self.new }
    {
        match begin(self.repository, self.name, self.most, self.left) {
            Ok(Some(fetch)) => {
                self.fetch = Some(fetch);
                self.left -= 1;
                None
            }
            Ok(None) => Some(Ok(())),
            Err(error) => Some(Err(error)),
        }
    }

    // Takes what a fetch ended with.
    fn take(&mut self, outcome: Result<Vec<u8>, TransportError>) -> Result<(), FetchRolesError>
        ensures taken { OnOk result (Takes K.keeps V.verifies self.old self.new) }
        ensures refused { IfErr result (λ e. Ends K.keeps V.verifies self.old self.new (Err e)) }
        ensures idle { fetch_in self.new ≡ None }
        ensures remains { Remains self.old self.new }
    {
        self.fetch = None;
        match outcome {
            Ok(bytes) => take_role(self.repository, self.verifier, self.name, bytes),
            Err(source) => cut_off(self.repository, self.name, source),
        }
    }
}

impl<T: Transport, K: Keeper, C: Drop, V: Verify> Future for FetchRoles<'_, T, K, C, V> {
    type Output = Result<(), FetchRolesError>;

    ghost can_poll = { λ m. CanPoll T.Stream.can_poll (fetch_in m) };

    ghost needs = { λ m s. IsSomeAnd (fetch_in m) (λ f. T.Stream.needs (collected f) s) };

    ghost gives = { Settles V.verifies };

    fn poll(&mut self, cx: &mut Context<'_>) -> Poll<Self::Output>
        requires { CanPoll T.Stream.can_poll (fetch_in self.old) }
        ensures value { IfReady result (Settles V.verifies self.old) }
        ensures same { OnPending result ((r : _)
            → Settles V.verifies self.new r → Settles V.verifies self.old r) }
        ensures goes { OnPending result (GoesOn K.keeps V.verifies T.serves T.Stream.yields
            self.old self.new) }
        ensures done { IfReady result (Ends K.keeps V.verifies self.old self.new) }
        ensures remains { Remains self.old self.new }
        ensures again { OnPending result (CanPoll T.Stream.can_poll (fetch_in self.new)) }
        ensures registered { OnPending result
            (Covers cx.new (λ s. IsSomeAnd (fetch_in self.new)
            (λ f. T.Stream.needs (collected f) s))) }
        ensures kept { Keeps cx.old cx.new }
    {
        let Some(fetch) = &mut self.fetch else {
            return match self.advance() {
                Some(outcome) => Poll::Ready(outcome),
                None => cx.yield_now(),
            };
        };
        let outcome = ready!(fetch.poll(cx));
        match self.take(outcome) {
            Ok(()) => cx.yield_now(),
            Err(error) => Poll::Ready(Err(error)),
        }
    }
}
