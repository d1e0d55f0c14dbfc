//! A role is added to the open editor.

ghost use Rattle.std.specs.Prelude.{◌≡◌, None, true, is_some, IfOk, IfErr, IfSome, IsSomeAnd, OnOk, OnErr, option_map};
ghost use Rattle.std.specs.Int.NonZero.{non_zero_u64_get};
ghost use Rattle.futures.specs.Poll.{IfReady, OnPending};
ghost use Rattle.futures.specs.Task.{Covers, Keeps};
ghost use Rattle.tough_net.specs.Collecting.{collected};
ghost use Rattle.tough_roles.specs.Root.{keys_doc};
ghost use Rattle.tough_schema.specs.Paths.{paths_doc};
ghost use Rattle.tough_editor.specs.Adding.{role_doc};
ghost use Rattle.tough_editor.specs.Editors.{IsEdited};
ghost use Rattle.tough_editor.specs.Fetched.{CanPoll};
ghost use Rattle.tough_release.specs.Edits.{ReleaseDoc};
ghost use Rattle.tough_publish.specs.Editors.{editor_doc};
ghost use Rattle.tough_publish.specs.Fetching.{Begins};
ghost use Rattle.tough_publish.specs.Adding.{Adds, Delegates, EndsBy, IsUndelegated, IsUnbegun, editor_in, url_in, role_in, fetch_in};

use crate::fetch::read_document;
use crate::repository::RepositoryEditor;
use futures::Future;
use futures::task::{Context, Poll};
use std::collections::BTreeMap;
use std::num::NonZeroU64;
use tough_decoded::{Decoded, Hex};
use tough_edit::keyids_of;
use tough_editor::{NewRole, signing_keys};
use tough_error::Error;
use tough_keys::Key;
use tough_net::{Collect, Transport, TransportError};
use tough_roles::Signed;
use tough_schema::{PathSet, Targets};
use tough_signed::EditError;

impl<T: Transport> RepositoryEditor<T> {
    // Begins to fetch the file of a role that the open editor is to delegate to.
    fn begin_adding(&self, url: &str, name: &str) -> Result<Collect<T::Stream>, Error>
        ensures begun { IfOk result (Begins T.refuses T.serves T.Stream.yields
            (editor_doc self.now) url.now name.now) }
        ensures opened { IfOk result (λ f. is_some (editor_doc self.now).edits.editor ≡ true) }
        ensures can_poll { IfOk result (CanPoll T.Stream.can_poll) }
        ensures refused { IfErr result (IsUnbegun T.refuses T.serves T.Stream.yields
            (editor_doc self.now) url.now name.now) }
    {
        if let Err(error) = self.check_fetcher() {
            return Err(error);
        }
        if self.edits.editor().is_none() {
            return Err(Error::NoTargets);
        }
        match self.begin_fetch(url, name) {
            Ok(fetch) => Ok(fetch),
            Err(error) => Err(error),
        }
    }

    // Delegates to a role by its document as it stands.
    fn delegate(&mut self, role: &NewRole<'_>, signed: Signed<Targets>) -> Result<(), Error>
        ensures delegated { OnOk result (Delegates (role_doc role.now) signed
            (editor_doc self.old).edits (editor_doc self.new).edits) }
        ensures refused { IfErr result
            (IsUndelegated (role_doc role.now) signed (editor_doc self.old).edits) }
        ensures unchanged { OnErr result (editor_doc self.new ≡ editor_doc self.old) }
        ensures rest { IsEdited (editor_doc self.old) (editor_doc self.new) }
    {
        let Some(keys) = signing_keys(&role.keys, &signed.signed)? else {
            return Err(Error::NoDelegations);
        };
        let keyids = keyids_of(self.alloc, &keys)?;
        let paths = role.paths.clone()?;
        let name = String::from_str(self.alloc, role.name)?;
        let document = Targets::named(signed, name);
        match self.edits.delegate_document(
            document,
            paths,
            role.terminating,
            keys,
            keyids,
            role.threshold,
        ) {
            Ok(()) => Ok(()),
            Err(EditError::NoTargets) => Err(Error::NoTargets),
            Err(EditError::NoDelegations) => Err(Error::NoDelegations),
            // (out of memory: it refuses nothing else)
            Err(_) => Err(Error::Memory),
        }
    }

    // Delegates to a role by what its fetch gave.
    fn finish_adding(
        &mut self,
        role: &NewRole<'_>,
        outcome: Result<Vec<u8>, TransportError>,
    ) -> Result<(), Error>
        ensures ended { EndsBy (role_doc role.now) outcome (editor_doc self.old).edits
            (editor_doc self.new).edits result }
        ensures rest { IsEdited (editor_doc self.old) (editor_doc self.new) }
    {
        match read_document(self.alloc, outcome) {
            Ok(signed) => self.delegate(role, signed),
            Err(error) => Err(error),
        }
    }

    /// The future that fetches a role's file below the URL, and delegates to its document in the open editor as it stands, without verification: under
    /// these keys, or, where none are given, under those of its own delegations (TUF specification 1.0, section 4.5).
    ///
    /// The errors, in this order: `MissingLimits`, `MissingTransport`, `NoTargets` if no editor is open, `ParseUrl`, `JoinUrlEncoded`, `Transport`,
    /// `ParseMetadata`, `NoDelegations`.
    pub fn add_role<'a>(
        &'a mut self,
        name: &'a str,
        metadata_url: &'a str,
        paths: PathSet,
        terminating: bool,
        threshold: NonZeroU64,
        keys: Option<BTreeMap<Decoded<Hex>, Key>>,
    ) -> AddRole<'a, T>
        ensures lent { (editor_in result).ghost_name ≡ self.entry.ghost_name }
        ensures begins { (editor_in result).now ≡ self.old }
        ensures url { url_in result ≡ metadata_url.now }
        ensures role { role_in result
            ≡ record {
              name = name.now;
              paths = paths_doc paths;
              terminating = terminating;
              threshold = non_zero_u64_get threshold;
              keys = option_map (λ m. keys_doc m.entries) keys;
            } }
        ensures unbegun { fetch_in result ≡ None }
    {
        AddRole {
            editor: self,
            url: metadata_url,
            role: NewRole {
                name,
                paths,
                terminating,
                threshold,
                keys,
            },
            fetch: None,
        }
    }
}

/// The future of `RepositoryEditor::add_role`. A poll takes at most 64 pieces.
#[derive(Drop)]
pub struct AddRole<'a, T: Transport> {
    editor: &'a mut RepositoryEditor<T>,
    url: &'a str,
    role: NewRole<'a>,
    fetch: Option<Collect<T::Stream>>,
}

impl<T: Transport> Future for AddRole<'_, T> {
    type Output = Result<(), Error>;

    ghost can_poll = { λ m. IfSome (fetch_in m) (CanPoll T.Stream.can_poll) };

    ghost needs = { λ m n. IsSomeAnd (fetch_in m) (λ f. T.Stream.needs (collected f) n) };

    ghost gives = { λ m r. (new : ReleaseDoc) × Adds T.refuses T.serves T.Stream.yields (fetch_in m)
        (editor_doc (editor_in m).now) (url_in m) (role_in m) new r };

    fn poll(&mut self, cx: &mut Context<'_>) -> Poll<Result<(), Error>>
        requires { IfSome (fetch_in self.old) (CanPoll T.Stream.can_poll) }
        ensures value { IfReady result (λ r. (new : ReleaseDoc)
            × Adds T.refuses T.serves T.Stream.yields (fetch_in self.old)
            (editor_doc (editor_in self.old).now) (url_in self.old) (role_in self.old) new r) }
        ensures adds { IfReady result (Adds T.refuses T.serves T.Stream.yields (fetch_in self.old)
            (editor_doc (editor_in self.old).now) (url_in self.old) (role_in self.old)
            (editor_doc (editor_in self.new).now).edits) }
        ensures rest { IsEdited (editor_doc (editor_in self.old).now)
            (editor_doc (editor_in self.new).now) }
        ensures waits { OnPending result ((editor_in self.new).now ≡ (editor_in self.old).now) }
        ensures again { OnPending result
            (IfSome (fetch_in self.new) (CanPoll T.Stream.can_poll)) }
        ensures same { OnPending result ((r : _) → ((new : ReleaseDoc)
            × Adds T.refuses T.serves T.Stream.yields (fetch_in self.new)
            (editor_doc (editor_in self.new).now) (url_in self.new) (role_in self.new) new r)
            → ((new : ReleaseDoc) × Adds T.refuses T.serves T.Stream.yields (fetch_in self.old)
            (editor_doc (editor_in self.old).now) (url_in self.old) (role_in self.old) new r)) }
        ensures registered { OnPending result (Covers cx.new
            (λ n. IsSomeAnd (fetch_in self.new) (λ f. T.Stream.needs (collected f) n))) }
        ensures kept { Keeps cx.old cx.new }
        ensures lent { (editor_in self.new).ghost_name ≡ (editor_in self.old).ghost_name }
    {
        match &mut self.fetch {
            Some(fetch) => match fetch.poll(cx) {
                Poll::Pending => Poll::Pending,
                Poll::Ready(outcome) => Poll::Ready(self.editor.finish_adding(&self.role, outcome)),
            },
            None => match self.editor.begin_adding(self.url, self.role.name) {
                Ok(fetch) => {
                    self.fetch = Some(fetch);
                    cx.yield_now()
                }
                Err(error) => Poll::Ready(Err(error)),
            },
        }
    }
}
