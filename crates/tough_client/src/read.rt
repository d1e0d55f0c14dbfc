//! Targets are read.

ghost use Rattle.std.specs.Prelude.{◌≡◌, ◌⊎◌, ⊤, IfOk, IfErr, OnOk, option_map};
ghost use Rattle.futures.specs.Poll.{IfReady, OnPending};
ghost use Rattle.futures.specs.Task.{Covers, Keeps};
ghost use Rattle.tough_schema.specs.Target.{target_doc};
ghost use Rattle.tough_client.specs.Futures.{repository_in, name_in};
ghost use Rattle.tough_trust.specs.Steps.{Keeping};
ghost use Rattle.tough_client.specs.Timely.{expiry_doc};
ghost use Rattle.tough_client.specs.Reading.{InTime, NotInTime, IsStreamOf, IsUnfetched, Reads, target_at};
ghost use Rattle.tough_client.specs.Reading as spec;
ghost use Rattle.tough_client.specs.Repositories.{IsKept, documents_of, transport_of, keeping_of, clock_of, targets_base_of, enforced_of};

use crate::failure::unfetched;
use crate::listed::listed_target;
use crate::repository::Repository;
use crate::timely::{Expiry, earliest, note_timely};
use futures::Future;
use futures::task::{Context, Poll};
use std::alloc::AllocError;
use tough_error::Error;
use tough_load::{Clock, ExpirationEnforcement, Keeper};
use tough_names::TargetName;
use tough_net::Transport;
use tough_save::{TargetStream, fetch_target, file_name};
use tough_schema::Target;
use tough_trust::digests_in;
use tough_update::UpdateError;

impl<T: Transport, K: Keeper, C: Clock + Drop> Repository<T, K, C> {
    // The role whose document expires first, and when.
    fn earliest(&self) -> Expiry
        ensures { expiry_doc result ≡ spec.earliest (documents_of self.now) }
    {
        earliest(
            self.loaded.root().signed.expires,
            self.loaded.timestamp().signed.expires,
            self.loaded.snapshot().signed.expires,
            self.loaded.targets().signed.expires,
        )
    }

    // Has the keeper note the time, which must be before any of the documents expires, where that counts.
    fn be_in_time(&mut self) -> Result<(), Error>
        ensures timely { OnOk result
            (InTime K.keeps C.may_give (clock_of self.old) (enforced_of self.old)
            (documents_of self.old)
            (keeping_of self.old) (keeping_of self.new)) }
        ensures late { IfErr result
            (λ e. NotInTime K.keeps C.may_give (clock_of self.old) (enforced_of self.old)
            (documents_of self.old)
            (keeping_of self.old) e (keeping_of self.new)) }
        ensures kept { IsKept self.old self.new }
    {
        match self.enforcement {
            ExpirationEnforcement::Unsafe => Ok(()),
            ExpirationEnforcement::Safe => {
                let now = self.clock.now();
                let first = self.earliest();
                match note_timely(self.alloc, &mut self.keeper, &mut self.receipts, now, first) {
                    Ok(()) => Ok(()),
                    Err(error) => Err(Error::from(UpdateError::from(error))),
                }
            }
        }
    }

    // What is listed under the name.
    pub(crate) fn find(&self, name: &TargetName) -> Result<Option<&Target>, AllocError>
        ensures { IfOk result
            (λ o. option_map (λ t. target_doc t.now) o
            ≡ target_at (documents_of self.now) name.now) }
    {
        listed_target(self.alloc, &self.loaded.targets().signed, name)
    }

    // Starts to fetch a target that is listed under the name.
    fn fetch(&self, name: &TargetName, target: &Target) -> Result<TargetStream<T::Stream>, Error>
        ensures begun { IfOk result
            (IsStreamOf T.refuses T.serves T.Stream.yields T.Stream.can_poll (documents_of self.now)
            (transport_of self.now) (targets_base_of self.now) name.now (target_doc target.now)) }
        ensures refused { IfErr result
            (λ e. (e ≡ Error.Memory)
            ⊎ IsUnfetched T.refuses T.serves T.Stream.yields T.Stream.can_poll
            (documents_of self.now) (transport_of self.now) (targets_base_of self.now) name.now
            (target_doc target.now) e) }
    {
        let digest = target.hashes.sha256.as_slice();
        let prefixed = self.loaded.root().signed.consistent_snapshot;
        let file = match file_name(self.alloc, name.resolved(), digest, prefixed) {
            Ok(file) => file,
            Err(_) => return Err(Error::Memory),
        };
        let Ok(digests) = digests_in(self.alloc, &target.hashes) else {
            return Err(Error::Memory);
        };
        let base = &self.targets_base_url;
        match fetch_target(
            self.alloc,
            &self.transport,
            base,
            file.as_str(),
            target.length,
            digests,
        ) {
            Ok(stream) => Ok(stream),
            Err(error) => Err(unfetched(file, error)),
        }
    }

    // What `read_target` answers.
    pub(crate) fn open_target(
        &mut self,
        name: &TargetName,
    ) -> Result<Option<TargetStream<T::Stream>>, Error>
        ensures reads { Reads T.refuses T.serves T.Stream.yields T.Stream.can_poll K.keeps
            C.may_give self.old name.now result (keeping_of self.new) }
        ensures kept { IsKept self.old self.new }
    {
        if let Err(error) = self.be_in_time() {
            return Err(error);
        }
        match self.find(name)? {
            None => Ok(None),
            Some(target) => match self.fetch(name, target) {
                Ok(stream) => Ok(Some(stream)),
                Err(error) => Err(error),
            },
        }
    }

    /// The future of a stream of the target of this name (TUF specification 5.7), or of none where no document that the search reaches lists
    /// it. The stream gives no more bytes than are listed, and ends without an error only where they have each digest that is listed.
    ///
    /// Where expiry counts, the keeper first notes the time that the clock shows, which must be before the earliest expiry of root, timestamp, snapshot and
    /// targets (`ExpiredMetadata`, with the first of these roles that has it). `JoinUrl` is where the name of the file can't be joined to the
    /// URL of the targets, `InvalidTargetName` where it leads out of it, `Transport` where it can't be fetched.
    pub fn read_target<'a>(&'a mut self, name: &'a TargetName) -> ReadTarget<'a, T, K, C>
        ensures lent { (repository_in result).ghost_name ≡ self.entry.ghost_name }
        ensures begins { (repository_in result).now ≡ self.old }
        ensures named { name_in result ≡ name.now }
    {
        ReadTarget {
            repository: self,
            name,
        }
    }
}

/// The future of `Repository::read_target`. It is ready at its first poll.
#[derive(Drop)]
pub struct ReadTarget<'a, T, K: Keeper, C> {
    repository: &'a mut Repository<T, K, C>,
    name: &'a TargetName,
}

impl<T: Transport, K: Keeper, C: Clock + Drop> Future for ReadTarget<'_, T, K, C> {
    type Output = Result<Option<TargetStream<T::Stream>>, Error>;

    ghost gives = { λ m r. (next : Keeping K K.Receipt)
        × Reads T.refuses T.serves T.Stream.yields T.Stream.can_poll K.keeps C.may_give
        m.repository.now m.name.now r next };

    fn poll(&mut self, _cx: &mut Context<'_>) -> Poll<Self::Output>
        ensures value { IfReady result
            (λ r. (next : Keeping K K.Receipt)
            × Reads T.refuses T.serves T.Stream.yields T.Stream.can_poll K.keeps C.may_give
            (repository_in self.old).now (name_in self.old) r next) }
        ensures reads { IfReady result
            (λ r. Reads T.refuses T.serves T.Stream.yields T.Stream.can_poll K.keeps C.may_give
            (repository_in self.old).now (name_in self.old) r
            (keeping_of (repository_in self.new).now)) }
        ensures again { OnPending result ⊤ }
        ensures same { OnPending result ((x : _)
            → ((next : Keeping K K.Receipt)
            × Reads T.refuses T.serves T.Stream.yields T.Stream.can_poll K.keeps C.may_give
            (repository_in self.new).now (name_in self.new) x next)
            → ((next : Keeping K K.Receipt)
            × Reads T.refuses T.serves T.Stream.yields T.Stream.can_poll K.keeps C.may_give
            (repository_in self.old).now (name_in self.old) x next)) }
        ensures registered { OnPending result (Covers _cx.new (λ _. ⊥)) }
        ensures kept { Keeps _cx.old _cx.new }
        ensures lent { (repository_in self.new).ghost_name ≡ (repository_in self.old).ghost_name }
        ensures stays { IsKept (repository_in self.old).now (repository_in self.new).now }
        ensures ready { (r : _) × (result ≡ Poll.Ready r) }
    {
        Poll::Ready(self.repository.open_target(self.name))
    }
}
