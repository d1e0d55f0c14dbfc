//! Targets are saved.

ghost use Rattle.std.specs.Prelude.{◌≡◌, ◌⊎◌, List, None, true, IfOk, IfErr, IfSome, IsSomeAnd, string_bytes};
ghost use Rattle.futures.specs.Poll.{IfReady, OnPending};
ghost use Rattle.futures.specs.Task.{Covers, Keeps};
ghost use Rattle.tough_net.specs.Checking.{checked};
ghost use Rattle.tough_net.specs.Limiting.{limited};
ghost use Rattle.tough_save.specs.Savings.{Saves, Tells, stream_of, temp_of, target_of};
ghost use Rattle.tough_trust.specs.Steps.{Keeping};
ghost use Rattle.tough_client.specs.Repositories.{IsKept, documents_of, keeping_of};
ghost use Rattle.tough_files.specs.Calls.{Told};
ghost use Rattle.tough_client.specs.Futures.{saved_from, files_in, saved_name_in, outdir_in, prefix_in, saving_in};
ghost use Rattle.tough_client.specs.Saving.{TellsUnlisted, TellsMissing, IsUnlisted, IsSavedAs, Places, Opened, Readies, Starts, CanGoOn, ComesOut, Continues, Finishes, GoesOnSaving};

use crate::failure::unsaved;
use crate::repository::Repository;
use bytes::Bytes;
use futures::task::{Context, Poll};
use futures::{Future, Stream};
use tough_error::Error;
use tough_files::Files;
use tough_load::{Clock, Keeper};
use tough_names::TargetName;
use tough_net::{Transport, TransportError};
use tough_roles as schema;
use tough_save::{Place, SaveError, Saving, TargetStream, file_name, make_temp, open_folder};

/// Whether the digest of a target stands before its name where it is saved.
#[derive(Clone, Copy, Debug, PartialEq, Eq, Drop)]
pub enum Prefix {
    /// The name alone.
    None,
    /// The digest, in lower-case hexadecimal digits, and a dot before the whole name.
    Digest,
}

impl<T: Transport, K: Keeper, C: Clock + Drop> Repository<T, K, C> {
    // That the name isn't listed, where it is to be saved under its digest.
    fn unlisted(name: &TargetName) -> Error
        ensures { TellsUnlisted name.now result }
    {
        let Ok(target_name) = name.clone() else {
            return Error::Memory;
        };
        match name.clone() {
            Ok(name) => Error::CacheTargetMissing {
                target_name,
                source: schema::Error::TargetNotFound { name },
            },
            Err(_) => Error::Memory,
        }
    }

    // The name of the file that the target is saved as.
    fn saved_name(&self, name: &TargetName, prefix: Prefix) -> Result<String, Error>
        ensures named { IfOk result
            (λ file. IsSavedAs (documents_of self.now) name.now prefix (string_bytes file)) }
        ensures unlisted { IfErr result
            (λ e. (e ≡ Error.Memory) ⊎ IsUnlisted (documents_of self.now) name.now prefix e) }
    {
        match prefix {
            Prefix::None => Ok(String::from_str(self.alloc, name.resolved())?),
            Prefix::Digest => match self.find(name)? {
                Some(target) => {
                    let digest = target.hashes.sha256.as_slice();
                    Ok(file_name(self.alloc, name.resolved(), digest, true)?)
                }
                None => Err(Repository::<T, K, C>::unlisted(name)),
            },
        }
    }

    // The place in the folder where the target is to be saved.
    fn place(&self, folder: &str, name: &TargetName, prefix: Prefix) -> Result<Place, Error>
        ensures { Places (documents_of self.now) folder.now name.now prefix result }
    {
        match self.saved_name(name, prefix) {
            Ok(file) => match Place::new(self.alloc, folder, file.as_str()) {
                Ok(place) => Ok(place),
                Err(error) => Err(unsaved(name, error)),
            },
            Err(error) => Err(error),
        }
    }

    // The stream of a target that is listed.
    fn open_listed(&mut self, name: &TargetName) -> Result<TargetStream<T::Stream>, Error>
        ensures opened { Opened T.refuses T.serves T.Stream.yields T.Stream.can_poll K.keeps
            C.may_give self.old name.now result (keeping_of self.new) }
        ensures kept { IsKept self.old self.new }
    {
        match self.open_target(name) {
            Ok(Some(stream)) => Ok(stream),
            Ok(None) => match name.clone() {
                Ok(name) => Err(Error::SaveTargetNotFound { name }),
                Err(_) => Err(Error::Memory),
            },
            Err(error) => Err(error),
        }
    }

    // The stream of the target, and the temporary file for it.
    fn begin_saving<F: Files>(
        &mut self,
        files: &mut F,
        name: &TargetName,
        folder: &str,
        place: Place,
    ) -> Result<Saving<TargetStream<T::Stream>>, Error>
        ensures readies { Readies T.refuses T.serves T.Stream.yields T.Stream.can_poll K.keeps
            C.may_give F.tells self.old name.now folder.now place (F.calls files.old) (F.calls
            files.new) (keeping_of self.new) result }
        ensures kept { IsKept self.old self.new }
    {
        let stream = match self.open_listed(name) {
            Ok(stream) => stream,
            Err(error) => return Err(error),
        };
        match make_temp(self.alloc, files, folder, &place) {
            Ok(temp) => Ok(Saving::new(self.alloc, stream, temp, place.into_path())),
            Err(error) => Err(unsaved(name, error)),
        }
    }

    // All that comes before the first piece.
    pub(crate) fn start_saving<F: Files>(
        &mut self,
        files: &mut F,
        name: &TargetName,
        outdir: &str,
        prefix: Prefix,
    ) -> Result<Saving<TargetStream<T::Stream>>, Error>
        ensures starts { Starts T.refuses T.serves T.Stream.yields T.Stream.can_poll K.keeps
            C.may_give F.tells self.old name.now outdir.now prefix (F.calls files.old) (F.calls
            files.new) (keeping_of self.new) result }
        ensures kept { IsKept self.old self.new }
    {
        let folder = match open_folder(self.alloc, files, outdir) {
            Ok(folder) => folder,
            Err(error) => return Err(unsaved(name, error)),
        };
        match self.place(folder.as_str(), name, prefix) {
            Ok(place) => self.begin_saving(files, name, folder.as_str(), place),
            Err(error) => Err(error),
        }
    }

    /// The future that saves the target of this name in a folder (TUF specification 5.7), as the file of its name below it, or of its digest
    /// and its name. The file has that name only once all of it is there, with each digest that is listed; until then it is a temporary file
    /// beside it, which is removed after an error. A future that is dropped before its end may leave it.
    ///
    /// The refusals, in this order: `SaveTargetOutdirCanonicalize`, `SaveTargetOutdir`; under `Prefix::Digest` `CacheTargetMissing`;
    /// `SaveTargetNoParent`, `SaveTargetUnsafePath`; those of `read_target`; `SaveTargetNotFound`; `DirCreate`, `AbsolutePath`,
    /// `SaveTargetUnsafePath`, `NamedTempFileCreate`; then `FileWrite` and `Transport` as they come; `NamedTempFilePersist`.
    pub fn save_target<'a, F: Files>(
        &'a mut self,
        files: &'a mut F,
        name: &'a TargetName,
        outdir: &'a str,
        prefix: Prefix,
    ) -> SaveTarget<'a, T, K, C, F>
        ensures lent { (saved_from result).ghost_name ≡ self.entry.ghost_name }
        ensures files_lent { (files_in result).ghost_name ≡ files.entry.ghost_name }
        ensures begins { ((saved_from result).now ≡ self.old)
            × ((files_in result).now ≡ files.old) }
        ensures named { (saved_name_in result ≡ name.now) × (prefix_in result ≡ prefix) }
        ensures folder { (outdir_in result ≡ outdir.now) × (saving_in result ≡ None) }
    {
        SaveTarget {
            repository: self,
            files,
            name,
            outdir,
            prefix,
            saving: None,
        }
    }
}

/// The future of `Repository::save_target`.
#[derive(Drop)]
pub struct SaveTarget<'a, T: Transport, K: Keeper, C, F> {
    repository: &'a mut Repository<T, K, C>,
    files: &'a mut F,
    name: &'a TargetName,
    outdir: &'a str,
    prefix: Prefix,
    saving: Option<Saving<TargetStream<T::Stream>>>,
}

// Polls a saving of whatever stream, and hands its error on: a type parameter stands for it, so that no signature names the `'static` of a
// specifier beside the lifetimes of the stream.
fn poll_saving<S, F, E>(
    saving: &mut Saving<S>,
    files: &mut F,
    cx: &mut Context<'_>,
) -> Poll<Result<(), E>>
where
    S: Stream<Item = Result<Bytes, TransportError>>,
    F: Files,
    E: From<SaveError>,
    requires { S.can_poll (stream_of saving.old) }
    ensures done { IfReady result
        (ComesOut E.from_gives F.tells (S.yields (stream_of saving.old)) (temp_of saving.old)
        (target_of saving.old) (F.calls files.old) (F.calls files.new)) }
    ensures follows { F.tells ≡ true → OnPending result ((r : _) (calls : _)
        → Saves (S.yields (stream_of saving.new)) (temp_of saving.old) (target_of saving.old) r
        (F.calls files.new) calls
        → Saves (S.yields (stream_of saving.old)) (temp_of saving.old) (target_of saving.old) r
        (F.calls files.old) calls) }
    ensures same { OnPending result
        ((r : _) → Tells (S.yields (stream_of saving.new)) r
        → Tells (S.yields (stream_of saving.old)) r) }
    ensures paths { (temp_of saving.new ≡ temp_of saving.old)
        × (target_of saving.new ≡ target_of saving.old) }
    ensures again { OnPending result (S.can_poll (stream_of saving.new)) }
    ensures registered { OnPending result (Covers cx.new (S.needs (stream_of saving.new))) }
    ensures kept { Keeps cx.old cx.new }
{
    match saving.poll_into(files, cx) {
        Poll::Pending => Poll::Pending,
        Poll::Ready(Ok(())) => Poll::Ready(Ok(())),
        Poll::Ready(Err(error)) => Poll::Ready(Err(E::from(error))),
    }
}

// An error of a saving, as it came.
#[derive(Drop)]
struct Unsaved {
    error: SaveError,
}

impl From<SaveError> for Unsaved {
    ghost from_gives = { λ error unsaved. unsaved.error ≡ error };

    fn from(error: SaveError) -> Unsaved {
        Unsaved { error }
    }
}

// The saving goes on, and is put by where it waits.
pub(crate) fn go_on<S: Stream<Item = Result<Bytes, TransportError>>, F: Files>(
    saving: Saving<TargetStream<S>>,
    waiting: &mut Option<Saving<TargetStream<S>>>,
    files: &mut F,
    name: &TargetName,
    cx: &mut Context<'_>,
) -> Poll<Result<(), Error>>
    requires { CanGoOn S.can_poll saving }
    ensures done { IfReady result
        (Finishes S.yields F.tells name.now saving (F.calls files.old) (F.calls files.new)) }
    ensures waits { OnPending result
        (IsSomeAnd waiting.new (Continues S.yields F.tells name.now saving
        (F.calls files.old) (F.calls files.new))) }
    ensures again { OnPending result (IsSomeAnd waiting.new (CanGoOn S.can_poll)) }
    ensures registered { OnPending result
        (Covers cx.new (λ n. IsSomeAnd waiting.new
        (λ s. S.needs (limited (checked (stream_of s))) n))) }
    ensures kept { Keeps cx.old cx.new }
{
    let mut saving = saving;
    let polled: Poll<Result<(), Unsaved>> = poll_saving(&mut saving, files, cx);
    match polled {
        Poll::Pending => {
            *waiting = Some(saving);
            Poll::Pending
        }
        Poll::Ready(Ok(())) => Poll::Ready(Ok(())),
        Poll::Ready(Err(Unsaved { error })) => Poll::Ready(Err(unsaved(name, error))),
    }
}

impl<T: Transport, K: Keeper, C: Clock + Drop, F: Files> Future for SaveTarget<'_, T, K, C, F> {
    type Output = Result<(), Error>;

    ghost can_poll = { λ m. IfSome m.saving (CanGoOn T.Stream.can_poll) };

    ghost needs = { λ m n. IsSomeAnd m.saving
        (λ s. T.Stream.needs (limited (checked (stream_of s))) n) };

    // Some calls and some keeper's steps lead to what it may give.
    ghost gives = { λ m r. (calls : List Told) × (next : Keeping K K.Receipt)
        × GoesOnSaving T.refuses T.serves T.Stream.yields T.Stream.can_poll K.keeps C.may_give
        F.tells m.saving m.repository.now m.name.now m.outdir.now m.prefix (F.calls m.files.now)
        calls next r };

    fn poll(&mut self, cx: &mut Context<'_>) -> Poll<Result<(), Error>>
        requires { IfSome self.old.saving (CanGoOn T.Stream.can_poll) }
        ensures value { IfReady result
            (λ r. (calls : List Told) × (next : Keeping K K.Receipt)
            × GoesOnSaving T.refuses T.serves T.Stream.yields T.Stream.can_poll K.keeps C.may_give
            F.tells self.old.saving self.old.repository.now self.old.name.now self.old.outdir.now
            self.old.prefix (F.calls self.old.files.now) calls next r) }
        ensures saves { IfReady result
            (GoesOnSaving T.refuses T.serves T.Stream.yields T.Stream.can_poll K.keeps C.may_give
            F.tells self.old.saving self.old.repository.now self.old.name.now self.old.outdir.now
            self.old.prefix (F.calls self.old.files.now) (F.calls self.new.files.now)
            (keeping_of self.new.repository.now)) }
        ensures again { OnPending result (IfSome self.new.saving (CanGoOn T.Stream.can_poll)) }
        ensures same { OnPending result ((r : _)
            → ((calls : List Told) × (next : Keeping K K.Receipt)
            × GoesOnSaving T.refuses T.serves T.Stream.yields T.Stream.can_poll K.keeps C.may_give
            F.tells self.new.saving self.new.repository.now self.new.name.now self.new.outdir.now
            self.new.prefix (F.calls self.new.files.now) calls next r)
            → ((calls : List Told) × (next : Keeping K K.Receipt)
            × GoesOnSaving T.refuses T.serves T.Stream.yields T.Stream.can_poll K.keeps C.may_give
            F.tells self.old.saving self.old.repository.now self.old.name.now self.old.outdir.now
            self.old.prefix (F.calls self.old.files.now) calls next r)) }
        ensures follows { OnPending result
            ((r : _) (calls : List Told) (next : Keeping K K.Receipt)
            → GoesOnSaving T.refuses T.serves T.Stream.yields T.Stream.can_poll K.keeps C.may_give
            F.tells self.new.saving self.new.repository.now self.new.name.now self.new.outdir.now
            self.new.prefix (F.calls self.new.files.now) calls next r
            → GoesOnSaving T.refuses T.serves T.Stream.yields T.Stream.can_poll K.keeps C.may_give
            F.tells self.old.saving self.old.repository.now self.old.name.now self.old.outdir.now
            self.old.prefix (F.calls self.old.files.now) calls next r) }
        ensures registered { OnPending result
            (Covers cx.new (λ n. IsSomeAnd self.new.saving
            (λ s. T.Stream.needs (limited (checked (stream_of s))) n))) }
        ensures kept { Keeps cx.old cx.new }
        ensures lent { (saved_from self.new).ghost_name ≡ (saved_from self.old).ghost_name }
        ensures files_lent { (files_in self.new).ghost_name ≡ (files_in self.old).ghost_name }
        ensures stays { IsKept (saved_from self.old).now (saved_from self.new).now }
    {
        match self.saving.take() {
            Some(saving) => go_on(saving, &mut self.saving, self.files, self.name, cx),
            None => match self
                .repository
                .start_saving(self.files, self.name, self.outdir, self.prefix)
            {
                Ok(saving) => go_on(saving, &mut self.saving, self.files, self.name, cx),
                Err(error) => Poll::Ready(Err(error)),
            },
        }
    }
}
