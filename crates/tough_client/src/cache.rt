//! Repositories are cached: their targets, and their metadata as it is served.

ghost use Rattle.std.specs.Prelude.{◌≡◌, List, None, Some, map, IfOk, IfErr, IfSome, IsSomeAnd, option_map, string_bytes};
ghost use Rattle.futures.specs.Poll.{IfReady, OnPending};
ghost use Rattle.futures.specs.Task.{Covers, Keeps};
ghost use Rattle.tough_files.specs.Calls.{Told};
ghost use Rattle.tough_trust.specs.View.{request_doc};
ghost use Rattle.tough_trust.specs.Steps.{Keeping};
ghost use Rattle.tough_client.specs.Caching.{Ends, Follows, IsPollable, Needs, prefix_of, IsBegun, IsUnstarted, BeginsFile, BeginsTarget, BeginsText, Begins, GoesOnCaching, Continues, AreMade, BeginsMetadata, PlansAll, BeginsAll, BeginsWanted, GoesOnWanted};
ghost use Rattle.tough_client.specs.Futures.{cached_from, cached_in, folders_in, wanted_of, wanted_in, chain_in, caching_in};
ghost use Rattle.tough_client.specs.Plans.{left_in};
ghost use Rattle.tough_client.specs.Repositories.{IsKept, documents_of, keeping_of};

use crate::failure::fault;
use crate::metadata::{file_again, make_folder, path_in, write_fetched, write_role};
use crate::plan::{Plan, Served, Turn};
use crate::repository::Repository;
use crate::save::{Prefix, go_on};
use bytes::Bytes;
use futures::task::{Context, Poll};
use futures::{Future, Stream};
use std::alloc::AllocError;
use std::convert::AsStr;
use tough_error::Error;
use tough_files::Files;
use tough_load::{Clock, Keeper, Request};
use tough_names::TargetName;
use tough_net::{Collect, JoinError, Transport, TransportError, fetch_whole, join};
use tough_save::{Saving, TargetStream};

// What is being cached: a target, or a file that is to stand at the path.
#[derive(Drop)]
enum Work<S> {
    Target(TargetName, Saving<TargetStream<S>>),
    File(String, Collect<S>),
}

// A cache that has begun: what is being cached, and what is yet to be.
#[derive(Drop)]
struct Caching<S> {
    work: Option<Work<S>>,
    plan: Plan,
}

// The folders of a cache.
#[derive(Clone, Copy, Drop)]
struct Folders<'a> {
    metadata: &'a str,
    targets: &'a str,
}

// What is cached: the metadata alone, or targets before it, each of the subset or else each listed one.
#[derive(Drop)]
enum Wanted<'a, N> {
    Metadata,
    Targets(Option<&'a [N]>),
}

// What is under way goes on; it is put by where it waits.
fn go_on_with<S: Stream<Item = Result<Bytes, TransportError>>, F: Files>(
    work: Work<S>,
    waiting: &mut Option<Work<S>>,
    files: &mut F,
    cx: &mut Context<'_>,
) -> Poll<Result<(), Error>>
    requires { IsPollable S.can_poll work }
    ensures done { IfReady result
        (Ends F.tells S.yields work (F.calls files.old) (F.calls files.new)) }
    ensures waits { OnPending result
        (IsSomeAnd waiting.new (Follows F.tells S.yields work
        (F.calls files.old) (F.calls files.new))) }
    ensures again { OnPending result (IsSomeAnd waiting.new (IsPollable S.can_poll)) }
    ensures registered { OnPending result
        (Covers cx.new (λ n. IsSomeAnd waiting.new (λ w. Needs S.needs w n))) }
    ensures empty { IfReady result (λ r. waiting.new ≡ waiting.old) }
    ensures kept { Keeps cx.old cx.new }
{
    match work {
        Work::Target(name, saving) => {
            let mut left = None;
            match go_on(saving, &mut left, files, &name, cx) {
                Poll::Ready(outcome) => Poll::Ready(outcome),
                Poll::Pending => {
                    if let Some(saving) = left {
                        *waiting = Some(Work::Target(name, saving));
                    }
                    Poll::Pending
                }
            }
        }
        Work::File(path, fetch) => {
            let mut fetch = fetch;
            match fetch.poll(cx) {
                Poll::Pending => {
                    *waiting = Some(Work::File(path, fetch));
                    Poll::Pending
                }
                Poll::Ready(fetched) => Poll::Ready(write_fetched(files, path, fetched)),
            }
        }
    }
}

impl<T: Transport, K: Keeper, C: Clock + Drop> Repository<T, K, C> {
    // Starts to fetch a file of metadata, for its path in the folder.
    fn begin_fetch(&self, request: Request, folder: &str) -> Result<Work<T::Stream>, Error>
        ensures begun { IfOk result
            (IsBegun T.serves T.Stream.yields self.now folder.now (request_doc request)) }
        ensures refused { IfErr result (IsUnstarted T.refuses self.now (request_doc request)) }
        ensures can_poll { IfOk result (IsPollable T.Stream.can_poll) }
    {
        let url = match join(&self.metadata_base_url, request.name.as_str()) {
            Ok(url) => url,
            Err(JoinError::Parse(source)) => {
                return Err(Error::JoinUrl {
                    path: request.name,
                    source,
                });
            }
            Err(JoinError::Memory) => return Err(Error::Memory),
        };
        let Ok(path) = path_in(self.alloc, folder, request.name.as_str()) else {
            return Err(Error::Memory);
        };
        match fetch_whole(
            self.alloc,
            &self.transport,
            &url,
            request.max_size,
            request.specifier,
            request.digests,
        ) {
            Ok(fetch) => Ok(Work::File(path, fetch)),
            Err(error) => Err(fault(error)),
        }
    }

    // Starts to fetch a file of metadata, if it is known how it is asked for.
    fn begin_file(&self, served: Served, folder: &str) -> Result<Option<Work<T::Stream>>, Error>
        ensures begins { BeginsFile T.refuses T.serves T.Stream.yields self.now
            folder.now served result }
        ensures can_poll { IfOk result (λ o. IfSome o (IsPollable T.Stream.can_poll)) }
    {
        match file_again(self.alloc, &self.loaded, &self.limits, served) {
            Ok(request) => match self.begin_fetch(request, folder) {
                Ok(work) => Ok(Some(work)),
                Err(error) => Err(error),
            },
            Err(error) => Err(error),
        }
    }

    // The prefix of targets that are cached.
    fn prefix(&self) -> Prefix
        ensures { result ≡ prefix_of (documents_of self.now) }
    {
        if self.loaded.root().signed.consistent_snapshot {
            Prefix::Digest
        } else {
            Prefix::None
        }
    }

    // Starts to save a target.
    fn begin_target<F: Files>(
        &mut self,
        files: &mut F,
        name: TargetName,
        folder: &str,
    ) -> Result<Option<Work<T::Stream>>, Error>
        ensures begins { BeginsTarget T.refuses T.serves T.Stream.yields T.Stream.can_poll K.keeps
            C.may_give F.tells self.old folder.now name (F.calls files.old) (F.calls files.new)
            (keeping_of self.new) result }
        ensures can_poll { IfOk result (λ o. IfSome o (IsPollable T.Stream.can_poll)) }
        ensures kept { IsKept self.old self.new }
    {
        let prefix = self.prefix();
        match self.start_saving(files, &name, folder, prefix) {
            Ok(saving) => Ok(Some(Work::Target(name, saving))),
            Err(error) => Err(error),
        }
    }

    // The same of a text, if it is a name.
    fn begin_named<F: Files>(
        &mut self,
        files: &mut F,
        text: &str,
        folder: &str,
    ) -> Result<Option<Work<T::Stream>>, Error>
        ensures begins { BeginsText T.refuses T.serves T.Stream.yields T.Stream.can_poll K.keeps
            C.may_give F.tells self.old folder.now text.now (F.calls files.old) (F.calls files.new)
            (keeping_of self.new) result }
        ensures can_poll { IfOk result (λ o. IfSome o (IsPollable T.Stream.can_poll)) }
        ensures kept { IsKept self.old self.new }
    {
        match TargetName::from_str(self.alloc, text) {
            Ok(name) => self.begin_target(files, name, folder),
            Err(error) => Err(Error::from(error)),
        }
    }

    // Starts a turn: gives what it is to wait for, or none where it is done at once.
    fn begin_turn<F: Files>(
        &mut self,
        files: &mut F,
        turn: Turn,
        folders: Folders<'_>,
    ) -> Result<Option<Work<T::Stream>>, Error>
        ensures begins { Begins T.refuses T.serves T.Stream.yields T.Stream.can_poll K.keeps
            C.may_give F.tells self.old folders.entry turn (F.calls files.old) (F.calls files.new)
            (keeping_of self.new) result }
        ensures can_poll { IfOk result (λ o. IfSome o (IsPollable T.Stream.can_poll)) }
        ensures kept { IsKept self.old self.new }
    {
        match turn {
            Turn::Named(text) => self.begin_named(files, text.as_str(), folders.targets),
            Turn::Target(name) => self.begin_target(files, name, folders.targets),
            Turn::File(served) => self.begin_file(served, folders.metadata),
            Turn::Role(place) => {
                match write_role(self.alloc, files, &self.loaded, place, folders.metadata) {
                    Ok(()) => Ok(None),
                    Err(error) => Err(error),
                }
            }
        }
    }

    // A cache goes on: what is under way is polled, or else the next turn starts. Either ends the poll, so that a poll takes pieces from one
    // stream only.
    fn go_on_caching<F: Files>(
        &mut self,
        caching: &mut Caching<T::Stream>,
        files: &mut F,
        folders: Folders<'_>,
        cx: &mut Context<'_>,
    ) -> Poll<Result<(), Error>>
        requires { IfSome caching.old.work (IsPollable T.Stream.can_poll) }
        ensures done { IfReady result
            (GoesOnCaching T.refuses T.serves T.Stream.yields T.Stream.can_poll K.keeps C.may_give
            F.tells caching.old.work (left_in caching.old.plan) self.old folders.entry (F.calls
            files.old) (F.calls files.new) (keeping_of self.new)) }
        ensures continues { OnPending result
            (Continues T.refuses T.serves T.Stream.yields T.Stream.can_poll K.keeps C.may_give
            F.tells caching.old self.old folders.entry (F.calls files.old)
            (F.calls files.new) self.new caching.new) }
        ensures again { OnPending result (IfSome caching.new.work (IsPollable T.Stream.can_poll)) }
        ensures registered { OnPending result
            (Covers cx.new (λ n. IsSomeAnd caching.new.work (λ w. Needs T.Stream.needs w n))) }
        ensures kept { Keeps cx.old cx.new }
        ensures stays { IsKept self.old self.new }
    {
        if let Some(work) = caching.work.take() {
            return match go_on_with(work, &mut caching.work, files, cx) {
                Poll::Pending => Poll::Pending,
                Poll::Ready(Ok(())) => cx.yield_now(),
                Poll::Ready(Err(error)) => Poll::Ready(Err(error)),
            };
        }
        match caching.plan.next() {
            None => Poll::Ready(Ok(())),
            Some(turn) => match self.begin_turn(files, turn, folders) {
                Ok(work) => {
                    caching.work = work;
                    cx.yield_now()
                }
                Err(error) => Poll::Ready(Err(error)),
            },
        }
    }

    // Makes the folder of the metadata, and plans what is cached.
    fn begin_metadata<F: Files>(
        &self,
        files: &mut F,
        folders: Folders<'_>,
        root_chain: bool,
    ) -> Result<Caching<T::Stream>, Error>
        ensures begins { BeginsMetadata F.tells (documents_of self.now) folders.entry.metadata.now
            root_chain (F.calls files.old) (F.calls files.new) result }
    {
        if let Err(error) = make_folder(self.alloc, files, folders.metadata) {
            return Err(error);
        }
        let mut plan = Plan::new(self.alloc, &self.loaded, root_chain);
        match plan.add_metadata(self.alloc, &self.loaded) {
            Ok(()) => Ok(Caching { work: None, plan }),
            Err(_) => Err(Error::Memory),
        }
    }

    // Makes both folders.
    fn make_folders<F: Files>(&self, files: &mut F, folders: Folders<'_>) -> Result<(), Error>
        ensures { AreMade F.tells folders.entry (F.calls files.old) (F.calls files.new) result }
    {
        match make_folder(self.alloc, files, folders.metadata) {
            Ok(()) => make_folder(self.alloc, files, folders.targets),
            Err(error) => Err(error),
        }
    }

    // Plans what is cached of a whole repository.
    fn plan_all<S: AsStr>(&self, subset: Option<&[S]>, root_chain: bool) -> Result<Plan, AllocError>
        ensures { IfOk result (λ plan. PlansAll (documents_of self.now)
            (option_map (λ names. map S.text names.now) subset.entry) root_chain (left_in plan)) }
    {
        let mut plan = Plan::new(self.alloc, &self.loaded, root_chain);
        plan.add_targets(self.alloc, &self.loaded.targets().signed, subset)?;
        plan.add_metadata(self.alloc, &self.loaded)?;
        Ok(plan)
    }

    // Makes both folders, and plans what is cached.
    fn begin_all<F: Files, S: AsStr>(
        &self,
        files: &mut F,
        folders: Folders<'_>,
        subset: Option<&[S]>,
        root_chain: bool,
    ) -> Result<Caching<T::Stream>, Error>
        ensures begins { BeginsAll F.tells (documents_of self.now) folders.entry
            (option_map (λ names. map S.text names.now) subset.entry) root_chain (F.calls files.old)
            (F.calls files.new) result }
    {
        if let Err(error) = self.make_folders(files, folders) {
            return Err(error);
        }
        match self.plan_all(subset, root_chain) {
            Ok(plan) => Ok(Caching { work: None, plan }),
            Err(_) => Err(Error::Memory),
        }
    }

    // Makes the folders, and plans what is cached.
    fn begin<F: Files, N: AsStr>(
        &self,
        files: &mut F,
        folders: Folders<'_>,
        wanted: &Wanted<'_, N>,
        root_chain: bool,
    ) -> Result<Caching<T::Stream>, Error>
        ensures begins { BeginsWanted F.tells (documents_of self.now) folders.entry
            (wanted_of N.text wanted.now) root_chain (F.calls files.old) (F.calls files.new) result }
    {
        match wanted {
            Wanted::Metadata => self.begin_metadata(files, folders, root_chain),
            Wanted::Targets(subset) => self.begin_all(files, folders, *subset, root_chain),
        }
    }

    /// The future that saves targets in a folder, and then the metadata in another, as `cache_metadata` does: each target of the subset
    /// where one is given, else each that the documents list, in the order of their names. Under consistent snapshots the digest of a target
    /// stands before its name.
    ///
    /// The refusals: `CacheDirectoryCreate` for the folder of the metadata, then for that of the targets; those of a text of the subset that
    /// is no name, and those of `save_target`, as they come; then those of `cache_metadata`.
    pub fn cache<'a, F: Files, S: AsStr>(
        &'a mut self,
        files: &'a mut F,
        metadata_outdir: &'a str,
        targets_outdir: &'a str,
        targets_subset: Option<&'a [S]>,
        cache_root_chain: bool,
    ) -> Cache<'a, T, K, C, F, S>
        ensures lent { (cached_from result).ghost_name ≡ self.entry.ghost_name }
        ensures files_lent { (cached_in result).ghost_name ≡ files.entry.ghost_name }
        ensures begins { ((cached_from result).now ≡ self.old)
            × ((cached_in result).now ≡ files.old) }
        ensures metadata { (folders_in result).metadata.now ≡ metadata_outdir.now }
        ensures targets { (folders_in result).targets.now ≡ targets_outdir.now }
        ensures subset { wanted_in S.text result
            ≡ Some (option_map (λ names. map S.text names.now) targets_subset.entry) }
        ensures chain { chain_in result ≡ cache_root_chain }
        ensures unbegun { caching_in result ≡ None }
    {
        Cache {
            repository: self,
            files,
            folders: Folders {
                metadata: metadata_outdir,
                targets: targets_outdir,
            },
            wanted: Wanted::Targets(targets_subset),
            root_chain: cache_root_chain,
            caching: None,
        }
    }

    /// The future that writes the metadata in a folder, which is made where it is missing: the snapshot, the targets and the timestamp, which
    /// are fetched again and written as they are served, without any check but the bounds of their lengths; the documents of delegated roles
    /// as they were received, in the order of `role_names`; and, where the root chain is asked for, the roots from the current version down
    /// to the first, fetched again too.
    ///
    /// The refusals: `CacheDirectoryCreate`; for each file `JoinUrl`, `Transport` and `CacheFileWrite`, as they come; `MetaMissing` where the
    /// timestamp doesn't list the snapshot.
    pub fn cache_metadata<'a, F: Files>(
        &'a mut self,
        files: &'a mut F,
        metadata_outdir: &'a str,
        cache_root_chain: bool,
    ) -> CacheMetadata<'a, T, K, C, F>
        ensures lent { (cached_from result).ghost_name ≡ self.entry.ghost_name }
        ensures files_lent { (cached_in result).ghost_name ≡ files.entry.ghost_name }
        ensures begins { ((cached_from result).now ≡ self.old)
            × ((cached_in result).now ≡ files.old) }
        ensures folder { (folders_in result).metadata.now ≡ metadata_outdir.now }
        ensures no_targets { wanted_in string_bytes result ≡ None }
        ensures chain { chain_in result ≡ cache_root_chain }
        ensures unbegun { caching_in result ≡ None }
    {
        Cache {
            repository: self,
            files,
            folders: Folders {
                metadata: metadata_outdir,
                targets: metadata_outdir,
            },
            wanted: Wanted::Metadata,
            root_chain: cache_root_chain,
            caching: None,
        }
    }
}

/// The future of `Repository::cache`.
#[derive(Drop)]
pub struct Cache<'a, T: Transport, K: Keeper, C, F, N> {
    repository: &'a mut Repository<T, K, C>,
    files: &'a mut F,
    folders: Folders<'a>,
    wanted: Wanted<'a, N>,
    root_chain: bool,
    caching: Option<Caching<T::Stream>>,
}

/// The future of `Repository::cache_metadata`.
pub type CacheMetadata<'a, T, K, C, F> = Cache<'a, T, K, C, F, String>;

impl<T: Transport, K: Keeper, C: Clock + Drop, F: Files, N: AsStr> Future
    for Cache<'_, T, K, C, F, N> {
    type Output = Result<(), Error>;

    ghost can_poll = { λ m. IfSome m.caching (λ c. IfSome c.work (IsPollable T.Stream.can_poll)) };

    ghost needs = { λ m n. IsSomeAnd m.caching
        (λ c. IsSomeAnd c.work (λ w. Needs T.Stream.needs w n)) };

    // Some calls and some keeper's steps lead to what it may give.
    ghost gives = { λ m r. (calls : List Told) × (next : Keeping K K.Receipt)
        × GoesOnWanted T.refuses T.serves T.Stream.yields T.Stream.can_poll K.keeps C.may_give
        F.tells (caching_in m) (cached_from m).now (folders_in m) (wanted_in N.text m) (chain_in m)
        (F.calls (cached_in m).now) calls next r };

    fn poll(&mut self, cx: &mut Context<'_>) -> Poll<Result<(), Error>>
        requires { IfSome (caching_in self.old)
            (λ c. IfSome c.work (IsPollable T.Stream.can_poll)) }
        ensures value { IfReady result
            (λ r. (calls : List Told) × (next : Keeping K K.Receipt)
            × GoesOnWanted T.refuses T.serves T.Stream.yields T.Stream.can_poll K.keeps C.may_give
            F.tells (caching_in self.old) (cached_from self.old).now (folders_in self.old)
            (wanted_in N.text self.old) (chain_in self.old) (F.calls (cached_in self.old).now)
            calls next r) }
        ensures caches { IfReady result
            (GoesOnWanted T.refuses T.serves T.Stream.yields T.Stream.can_poll K.keeps C.may_give
            F.tells (caching_in self.old) (cached_from self.old).now (folders_in self.old)
            (wanted_in N.text self.old) (chain_in self.old) (F.calls (cached_in self.old).now)
            (F.calls (cached_in self.new).now) (keeping_of (cached_from self.new).now)) }
        ensures again { OnPending result (IfSome (caching_in self.new)
            (λ c. IfSome c.work (IsPollable T.Stream.can_poll))) }
        ensures same { OnPending result ((r : _)
            → ((calls : List Told) × (next : Keeping K K.Receipt)
            × GoesOnWanted T.refuses T.serves T.Stream.yields T.Stream.can_poll K.keeps C.may_give
            F.tells (caching_in self.new) (cached_from self.new).now (folders_in self.new)
            (wanted_in N.text self.new) (chain_in self.new) (F.calls (cached_in self.new).now)
            calls next r)
            → ((calls : List Told) × (next : Keeping K K.Receipt)
            × GoesOnWanted T.refuses T.serves T.Stream.yields T.Stream.can_poll K.keeps C.may_give
            F.tells (caching_in self.old) (cached_from self.old).now (folders_in self.old)
            (wanted_in N.text self.old) (chain_in self.old) (F.calls (cached_in self.old).now)
            calls next r)) }
        ensures follows { OnPending result
            ((r : _) (calls : List Told) (next : Keeping K K.Receipt)
            → GoesOnWanted T.refuses T.serves T.Stream.yields T.Stream.can_poll K.keeps C.may_give
            F.tells (caching_in self.new) (cached_from self.new).now (folders_in self.new)
            (wanted_in N.text self.new) (chain_in self.new) (F.calls (cached_in self.new).now)
            calls next r
            → GoesOnWanted T.refuses T.serves T.Stream.yields T.Stream.can_poll K.keeps C.may_give
            F.tells (caching_in self.old) (cached_from self.old).now (folders_in self.old)
            (wanted_in N.text self.old) (chain_in self.old) (F.calls (cached_in self.old).now)
            calls next r) }
        ensures registered { OnPending result (Covers cx.new (λ n. IsSomeAnd (caching_in self.new)
            (λ c. IsSomeAnd c.work (λ w. Needs T.Stream.needs w n)))) }
        ensures kept { Keeps cx.old cx.new }
        ensures lent { (cached_from self.new).ghost_name ≡ (cached_from self.old).ghost_name }
        ensures files_lent { (cached_in self.new).ghost_name ≡ (cached_in self.old).ghost_name }
        ensures stays { IsKept (cached_from self.old).now (cached_from self.new).now }
    {
        match &mut self.caching {
            Some(caching) => self
                .repository
                .go_on_caching(caching, self.files, self.folders, cx),
            None => match self
                .repository
                .begin(self.files, self.folders, &self.wanted, self.root_chain)
            {
                Ok(caching) => {
                    self.caching = Some(caching);
                    cx.yield_now()
                }
                Err(error) => Poll::Ready(Err(error)),
            },
        }
    }
}
