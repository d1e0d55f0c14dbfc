//! The future that drives the machine.

ghost use Rattle.std.specs.Prelude.{◌≡◌, ◌≤◌, None, IfSome, IsSome, IsNone, IsSomeAnd, IfOk, IfErr, length};
ghost use Rattle.futures.specs.Task.{Covers, Keeps};
ghost use Rattle.futures.specs.Poll.{IfReady, OnPending};
ghost use Rattle.tough_net.specs.Collecting.{collected, bounds_of, held_by};
ghost use Rattle.tough_update.specs.Answered as got;
ghost use Rattle.tough_update.specs.View.{outcome_doc, answer_doc};
ghost use Rattle.tough_trust.specs.View.{request_doc};
ghost use Rattle.tough_load.specs.Fetching.{Fetches, IsStarted, answer_of};
ghost use Rattle.tough_load.specs.Running.{CanPoll};

use futures::task::{Context, Poll};
use futures::{Future, ready};
use std::alloc::{AllocError, Global};
use tough_net::{Collect, JoinError, Transport, TransportError, fetch_whole, join};
use tough_roles::Verify;
use tough_trust::{Keeper, take_step};
use tough_update::{Answer, Ask, Core, Fault, Limits, Loaded, Request, UpdateError};
use tough_vault::{Clock, ExpirationEnforcement};
use url::Url;

// The answers that one poll hands to the machine, before it lets other tasks run. Of these one is that of a fetch, of which a poll takes
// at most 64 pieces: so a poll of a load takes no more.
const BUDGET: u32 = 64;

/// A load that runs: the future of what an update comes to (TUF specification 5). It does what its machine asks for, and nothing else.
#[derive(Drop)]
pub struct Load<T: Transport, K: Keeper, C, V> {
    pub(crate) alloc: Global,
    pub(crate) transport: T,
    pub(crate) base: Url,
    pub(crate) targets_base: Url,
    pub(crate) limits: Limits,
    pub(crate) enforcement: ExpirationEnforcement,
    pub(crate) keeper: K,
    pub(crate) clock: C,
    pub(crate) verifier: V,
    pub(crate) core: Core,
    pub(crate) fetch: Option<Collect<T::Stream>>,
    pub(crate) receipts: Vec<K::Receipt>,
}

/// What a load was given, but for its verifier, with what its steps were told.
#[derive(Drop)]
pub struct LoadParts<T, K: Keeper, C> {
    /// The allocator.
    pub alloc: Global,
    /// What fetched the files.
    pub transport: T,
    /// What kept what was accepted.
    pub keeper: K,
    /// What told the time.
    pub clock: C,
    /// The URL that the names of metadata files are joined to.
    pub metadata_base_url: Url,
    /// The URL that the names of targets' files are joined to.
    pub targets_base_url: Url,
    /// What an update takes at most.
    pub limits: Limits,
    /// Whether what has expired is refused.
    pub enforcement: ExpirationEnforcement,
    /// What the steps that it took were told, in their order.
    pub receipts: Vec<K::Receipt>,
}

// What a fetch that has ended answers.
fn answer_of(outcome: Result<Vec<u8>, TransportError>) -> Answer
    ensures { answer_doc result ≡ answer_of outcome }
{
    match outcome {
        Ok(bytes) => Answer::Bytes(bytes),
        Err(error) => Answer::Cut(Fault::Transport(error)),
    }
}

/// Starts to fetch a metadata file, whose name is joined to the base URL: no longer than asked, and with each digest that is asked for. `JoinUrl`
/// where the name can't be joined, `Transport` where the transport refuses.
pub fn fetch_file<T: Transport>(
    alloc: Global,
    transport: &T,
    base: &Url,
    request: &Request,
) -> Result<Collect<T::Stream>, Fault>
    ensures started { IfOk result
        (IsStarted T.serves T.Stream.yields transport.now base.now (request_doc request.now)) }
    ensures can_poll { IfOk result
        (λ f. T.Stream.can_poll (collected f) × (length (held_by f) ≤ (bounds_of f).max)) }
    ensures refused { IfErr result
        (λ e. Fetches T.refuses T.serves transport.now base.now
        (request_doc request.now) (got.NotStarted e)) }
{
    let url = match join(base, request.name.as_str()) {
        Ok(url) => url,
        Err(JoinError::Parse(error)) => return Err(Fault::JoinUrl(error)),
        Err(JoinError::Memory) => {
            return Err(Fault::Transport(TransportError::from(AllocError)));
        }
    };
    let digests = match request.digests.clone() {
        Ok(digests) => digests,
        Err(error) => return Err(Fault::Transport(TransportError::from(error))),
    };
    match fetch_whole(
        alloc,
        transport,
        &url,
        request.max_size,
        request.specifier,
        digests,
    ) {
        Ok(fetch) => Ok(fetch),
        Err(error) => Err(Fault::Transport(error)),
    }
}

impl<T: Transport, K: Keeper, C: Clock + Drop, V: Verify + Drop> Load<T, K, C, V> {
    ghost use Rattle.tough_load.specs.Words.{core_of};
    ghost use Rattle.tough_load.specs.Parts.{IsTakenApart};
    ghost use Rattle.tough_load.specs.Advancing.{Advances, Finishes};

    /// The machine, which stands also after the load is ready.
    pub fn core(&self) -> &Core
        ensures { result.now ≡ core_of self.now }
    {
        &self.core
    }

    /// Takes the load apart: what it was given, as its steps left it.
    pub fn into_parts(self) -> LoadParts<T, K, C>
        ensures { IsTakenApart self result }
    {
        LoadParts {
            alloc: self.alloc,
            transport: self.transport,
            keeper: self.keeper,
            clock: self.clock,
            metadata_base_url: self.base,
            targets_base_url: self.targets_base,
            limits: self.limits,
            enforcement: self.enforcement,
            receipts: self.receipts,
        }
    }

    // Waits for the fetch that runs, and hands what it gives to the machine.
    fn collect(&mut self, cx: &mut Context<'_>) -> Poll<()>
        requires running { CanPoll T.Stream.can_poll self.old.fetch }
        requires fetching { IsSome self.old.fetch }
        ensures goes { Advances T.refuses T.serves K.keeps K.reads C.may_give T.Stream.yields
            V.verifies self.old self.new }
        ensures again { CanPoll T.Stream.can_poll self.new.fetch }
        ensures registered { OnPending result
            (Covers cx.new (λ s. IsSomeAnd self.new.fetch (λ f. T.Stream.needs (collected f) s))) }
        ensures kept { Keeps cx.old cx.new }
    {
        let Some(fetch) = &mut self.fetch else {
            unreachable!()
        };
        match fetch.poll(cx) {
            Poll::Pending => Poll::Pending,
            Poll::Ready(outcome) => {
                self.fetch = None;
                self.core
                    .answer(self.alloc, &self.verifier, answer_of(outcome));
                Poll::Ready(())
            }
        }
    }

    // Does what the machine asks for, and gives the outcome where nothing is left.
    fn advance(&mut self) -> Option<Result<Loaded, UpdateError>>
        requires idle { self.old.fetch ≡ None }
        ensures done { IfSome result
            (λ r. Finishes T.refuses T.serves K.keeps K.reads C.may_give T.Stream.yields V.verifies
            self.old (outcome_doc r) self.new) }
        ensures goes { IsNone result
            → Advances T.refuses T.serves K.keeps K.reads C.may_give T.Stream.yields V.verifies
            self.old self.new }
        ensures again { CanPoll T.Stream.can_poll self.new.fetch }
    {
        let answer = match self.core.ask() {
            Ask::Ready => return self.core.take_outcome(),
            Ask::Moment => Answer::Moment(self.clock.now()),
            Ask::Stored(first) => Answer::Stored(self.keeper.read_root(first, &self.verifier)),
            Ask::Fetch(request) => {
                match fetch_file(self.alloc, &self.transport, &self.base, request) {
                    Ok(fetch) => {
                        self.fetch = Some(fetch);
                        return None;
                    }
                    Err(fault) => Answer::NotStarted(fault),
                }
            }
            Ask::Step(act) => Answer::Step(take_step(
                self.alloc,
                &mut self.keeper,
                &self.verifier,
                &mut self.receipts,
                &act,
            )),
        };
        self.core.answer(self.alloc, &self.verifier, answer);
        None
    }
}

impl<T: Transport, K: Keeper, C: Clock + Drop, V: Verify + Drop> Future for Load<T, K, C, V> {
    ghost use Rattle.tough_load.specs.Words.{fetch_of};
    ghost use Rattle.tough_load.specs.Advancing.{MayGive, Advances, Finishes};

    type Output = Result<Loaded, UpdateError>;

    ghost can_poll = { λ m. CanPoll T.Stream.can_poll (fetch_of m) };

    ghost needs = { λ m s. IsSomeAnd (fetch_of m) (λ f. T.Stream.needs (collected f) s) };

    ghost gives = { λ m r. MayGive T.refuses T.serves K.keeps K.reads C.may_give T.Stream.yields
        V.verifies m (outcome_doc r) };

    fn poll(&mut self, cx: &mut Context<'_>) -> Poll<Self::Output>
        requires { CanPoll T.Stream.can_poll (fetch_of self.old) }
        ensures value { IfReady result
            (λ r. MayGive T.refuses T.serves K.keeps K.reads C.may_give T.Stream.yields V.verifies
            self.old (outcome_doc r)) }
        ensures same { OnPending result ((r : _)
            → MayGive T.refuses T.serves K.keeps K.reads C.may_give T.Stream.yields V.verifies
            self.new
            (outcome_doc r) → MayGive T.refuses T.serves K.keeps K.reads C.may_give T.Stream.yields
            V.verifies self.old (outcome_doc r)) }
        ensures done { IfReady result
            (λ r. Finishes T.refuses T.serves K.keeps K.reads C.may_give T.Stream.yields V.verifies
            self.old (outcome_doc r) self.new) }
        ensures goes { OnPending result
            (Advances T.refuses T.serves K.keeps K.reads C.may_give T.Stream.yields V.verifies
            self.old self.new) }
        ensures again { OnPending result (CanPoll T.Stream.can_poll (fetch_of self.new)) }
        ensures registered { OnPending result
            (Covers cx.new (λ s. IsSomeAnd (fetch_of self.new)
            (λ f. T.Stream.needs (collected f) s))) }
        ensures kept { Keeps cx.old cx.new }
    {
        let mut collected = false;
        for _ in 0..BUDGET {
            if self.fetch.is_some() {
                if collected {
                    return cx.yield_now();
                }
                ready!(self.collect(cx));
                collected = true;
            } else if let Some(outcome) = self.advance() {
                return Poll::Ready(outcome);
            }
        }
        cx.yield_now()
    }
}
