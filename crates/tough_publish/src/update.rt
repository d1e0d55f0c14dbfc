//! A role's document is fetched anew.

ghost use Rattle.std.specs.Prelude.{◌≡◌, ⊤, true, is_some, None, Some, Ok, IfOk, IfErr, IfSome, IsSomeAnd, option_map, map, string_bytes};
ghost use Rattle.futures.specs.Poll.{IfReady, OnPending};
ghost use Rattle.futures.specs.Task.{Covers, Keeps};
ghost use Rattle.tough_keys.specs.Same.{Verifies};
ghost use Rattle.tough_net.specs.Collecting.{collected};
ghost use Rattle.tough_roles.specs.Signature.{signed_doc};
ghost use Rattle.tough_schema.specs.Whole.{tree_doc};
ghost use Rattle.tough_editor.specs.Editors.{IsEdited};
ghost use Rattle.tough_editor.specs.Fetched.{CanPoll};
ghost use Rattle.tough_release.specs.Edits.{ReleaseDoc};
ghost use Rattle.tough_publish.specs.Editors.{editor_doc};
ghost use Rattle.tough_publish.specs.Fetching.{Begins};
ghost use Rattle.tough_publish.specs.Updating.{update_doc, names_of, IsRejected, IsRenewed, Closes, Completes, Follows, Gains, GainsBy, IsUnbegun, Updates, Steps, HasEnded, GoesOn, held_of, CanGoOn, editor_in, name_in, url_in, verifier_in, fetch_in, update_in};

use crate::fetch::read_document;
use crate::repository::RepositoryEditor;
use crate::verify::{renew, take_new_role, vouched};
use futures::Future;
use futures::task::{Context, Poll};
use std::mem;
use std::vec::IntoIter;
use tough_editor::wide;
use tough_error::Error;
use tough_keys::Verify;
use tough_net::{Collect, Transport, TransportError};
use tough_roles::Signed;
use tough_schema::Targets;

/// A new document of a role, on its way to its place: the document of the new role of this name is being fetched, those of the other names are to come.
#[derive(Drop)]
pub(crate) struct Update {
    pub(crate) role: Signed<Targets>,
    pub(crate) name: String,
    pub(crate) names: IntoIter<String>,
}

// The next fetch and what has come so far are kept, and it is to be polled again; or it has ended.
fn keep<S: Drop>(
    fetch: &mut Option<Collect<S>>,
    update: &mut Option<Update>,
    step: Result<Option<(Collect<S>, Update)>, Error>,
    cx: &mut Context<'_>,
) -> Poll<Result<(), Error>>
    ensures ended { IfReady result (HasEnded step) }
    ensures going { OnPending result (GoesOn step fetch.new update.new) }
    ensures heard { OnPending result (Covers cx.new (λ n. ⊤)) }
    ensures kept { Keeps cx.old cx.new }
{
    match step {
        Ok(Some(pair)) => {
            let (next, later) = pair;
            drop(mem::replace(fetch, Some(next)));
            drop(mem::replace(update, Some(later)));
            cx.yield_now()
        }
        Ok(None) => Poll::Ready(Ok(())),
        Err(error) => Poll::Ready(Err(error)),
    }
}

impl<T: Transport> RepositoryEditor<T> {
    // Begins to fetch the role's file.
    fn begin_update(&self, url: &str, name: &str) -> Result<Collect<T::Stream>, Error>
        ensures begun { IfOk result (Begins T.refuses T.serves T.Stream.yields
            (editor_doc self.now) url.now name.now) }
        ensures can_poll { IfOk result (CanPoll T.Stream.can_poll) }
        ensures there { IfOk result (λ f. is_some (editor_doc self.now).edits.targets ≡ true) }
        ensures refused { IfErr result (IsUnbegun T.refuses T.serves T.Stream.yields
            (editor_doc self.now) url.now name.now) }
    {
        if let Err(error) = self.check_fetcher() {
            return Err(error);
        }
        if self.edits.signed_targets().is_none() {
            return Err(Error::NoTargets);
        }
        match self.begin_fetch(url, name) {
            Ok(fetch) => Ok(fetch),
            Err(error) => Err(error),
        }
    }

    // The role's new document, with those that the old one has for its roles, and the names of its new roles.
    fn renewed<V: Verify>(
        &self,
        name: &str,
        document: Signed<Targets>,
        verifier: &V,
    ) -> Result<(Signed<Targets>, Vec<String>), Error>
        ensures renewed { IfOk result (λ p. IsRenewed (V.verifies verifier.now)
            (editor_doc self.now).edits name.now document (signed_doc tree_doc p.0)
            (map string_bytes p.1.items)) }
        ensures refused { IfErr result (IsRejected (V.verifies verifier.now)
            (editor_doc self.now).edits name.now document) }
    {
        let Some(targets) = self.edits.signed_targets() else {
            return Err(Error::NoTargets);
        };
        let root = &self.edits.root().signed().signed;
        let old = match vouched(self.alloc, root, &targets.signed, name, &document, verifier) {
            Ok(old) => old,
            Err(error) => return Err(error),
        };
        let mut role = document;
        match renew(self.alloc, old, &mut role) {
            Ok(names) => Ok((role, names)),
            Err(error) => Err(error),
        }
    }

    // The role's document takes its place.
    fn place(&mut self, name: &str, role: Signed<Targets>) -> Result<(), Error>
        ensures closed { Closes (held_of name.now (signed_doc tree_doc role))
            (editor_doc self.old).edits (editor_doc self.new).edits result }
        ensures rest { IsEdited (editor_doc self.old) (editor_doc self.new) }
    {
        let text = match String::from_str(self.alloc, name) {
            Ok(text) => text,
            Err(_) => return Err(Error::Memory),
        };
        match self
            .edits
            .replace_targets(self.alloc, Targets::named(role, text))
        {
            Ok(()) => Ok(()),
            Err(error) => Err(wide(self.alloc, error)),
        }
    }

    // Begins to fetch the document of the next new role; where there is none, the role's document takes its place.
    fn go_on(
        &mut self,
        name: &str,
        url: &str,
        role: Signed<Targets>,
        names: IntoIter<String>,
    ) -> Result<Option<(Collect<T::Stream>, Update)>, Error>
        ensures steps { (v : Verifies) → Steps T.refuses T.serves T.Stream.yields v
            (editor_doc self.old) url.now name.now (Completes T.refuses T.serves T.Stream.yields v
            (editor_doc self.old) url.now name.now (names_of names) (signed_doc tree_doc role))
            (editor_doc self.new).edits result }
        ensures can_poll { CanGoOn T.Stream.can_poll result }
        ensures rest { IsEdited (editor_doc self.old) (editor_doc self.new) }
    {
        let mut names = names;
        match names.next() {
            Some(next) => match self.begin_fetch(url, next.as_str()) {
                Ok(fetch) => {
                    let update = Update {
                        role,
                        name: next,
                        names,
                    };
                    Ok(Some((fetch, update)))
                }
                Err(error) => Err(error),
            },
            None => match self.place(name, role) {
                Ok(()) => Ok(None),
                Err(error) => Err(error),
            },
        }
    }

    // What follows the role's document that was read.
    fn follow<V: Verify>(
        &mut self,
        name: &str,
        url: &str,
        verifier: &V,
        document: Signed<Targets>,
    ) -> Result<Option<(Collect<T::Stream>, Update)>, Error>
        ensures steps { Steps T.refuses T.serves T.Stream.yields (V.verifies verifier.now)
            (editor_doc self.old) url.now name.now (Follows T.refuses T.serves T.Stream.yields
            (V.verifies verifier.now) (editor_doc self.old) url.now name.now (Ok document))
            (editor_doc self.new).edits result }
        ensures can_poll { CanGoOn T.Stream.can_poll result }
        ensures rest { IsEdited (editor_doc self.old) (editor_doc self.new) }
    {
        match self.renewed(name, document, verifier) {
            Ok(pair) => {
                let (role, names) = pair;
                self.go_on(name, url, role, names.into_iter())
            }
            Err(error) => Err(error),
        }
    }

    // What follows the document of a new role that was read.
    fn take_up<V: Verify>(
        &mut self,
        name: &str,
        url: &str,
        verifier: &V,
        update: Update,
        document: Signed<Targets>,
    ) -> Result<Option<(Collect<T::Stream>, Update)>, Error>
        ensures steps { Steps T.refuses T.serves T.Stream.yields (V.verifies verifier.now)
            (editor_doc self.old) url.now name.now (Gains T.refuses T.serves T.Stream.yields
            (V.verifies verifier.now) (editor_doc self.old) url.now name.now
            (Some (update_doc update)) (Ok document)) (editor_doc self.new).edits result }
        ensures can_poll { CanGoOn T.Stream.can_poll result }
        ensures rest { IsEdited (editor_doc self.old) (editor_doc self.new) }
    {
        let Update {
            mut role,
            name: new,
            names,
        } = update;
        match take_new_role(
            self.alloc,
            &mut role.signed,
            new.as_str(),
            document,
            verifier,
        ) {
            Ok(()) => self.go_on(name, url, role, names),
            Err(error) => Err(error),
        }
    }

    // What follows a document that was fetched.
    fn advance<V: Verify>(
        &mut self,
        name: &str,
        url: &str,
        verifier: &V,
        update: Option<Update>,
        outcome: Result<Vec<u8>, TransportError>,
    ) -> Result<Option<(Collect<T::Stream>, Update)>, Error>
        ensures steps { Steps T.refuses T.serves T.Stream.yields (V.verifies verifier.now)
            (editor_doc self.old) url.now name.now (GainsBy T.refuses T.serves T.Stream.yields
            (V.verifies verifier.now) (editor_doc self.old) url.now name.now
            (option_map update_doc update) outcome) (editor_doc self.new).edits result }
        ensures can_poll { CanGoOn T.Stream.can_poll result }
        ensures rest { IsEdited (editor_doc self.old) (editor_doc self.new) }
    {
        let document = match read_document(self.alloc, outcome) {
            Ok(document) => document,
            Err(error) => return Err(error),
        };
        match update {
            None => self.follow(name, url, verifier, document),
            Some(update) => self.take_up(name, url, verifier, update, document),
        }
    }

    /// The future that fetches the role's document anew below the URL, and puts it in the place of the signed targets, or of that of the role: it takes
    /// over the old documents of the roles that it lists, unverified, and the documents of its other roles are fetched, too. Who holds the keys of the
    /// role vouches for its document, and that document for those of its new roles. The open editor is closed (TUF specification 1.0, sections 4.5 and
    /// 5.6).
    ///
    /// The errors, in this order: `MissingLimits`, `MissingTransport`, `NoTargets` without signed targets, `ParseUrl`, `JoinUrlEncoded`, `Transport`,
    /// `ParseMetadata`, `DelegateMissing`, `VerifyRoleMetadata`, `VersionMismatch` where the document is older, `NoDelegations` where it has none; then
    /// for each new role `JoinUrlEncoded`, `Transport`, `ParseMetadata`, `VerifyRoleMetadata`.
    pub fn update_delegated_targets<'a, V: Verify>(
        &'a mut self,
        name: &'a str,
        metadata_url: &'a str,
        verifier: &'a V,
    ) -> UpdateDelegatedTargets<'a, T, V>
        ensures lent { (editor_in result).ghost_name ≡ self.entry.ghost_name }
        ensures begins { (editor_in result).now ≡ self.old }
        ensures name { name_in result ≡ name.now }
        ensures url { url_in result ≡ metadata_url.now }
        ensures verifier { verifier_in result ≡ verifier.now }
        ensures unbegun { fetch_in result ≡ None }
    {
        UpdateDelegatedTargets {
            editor: self,
            name,
            url: metadata_url,
            verifier,
            fetch: None,
            update: None,
        }
    }
}

/// The future of `RepositoryEditor::update_delegated_targets`. A poll takes at most 64 pieces.
#[derive(Drop)]
pub struct UpdateDelegatedTargets<'a, T: Transport, V> {
    editor: &'a mut RepositoryEditor<T>,
    name: &'a str,
    url: &'a str,
    verifier: &'a V,
    fetch: Option<Collect<T::Stream>>,
    update: Option<Update>,
}

impl<T: Transport, V: Verify> Future for UpdateDelegatedTargets<'_, T, V> {
    type Output = Result<(), Error>;

    ghost can_poll = { λ m. IfSome (fetch_in m) (CanPoll T.Stream.can_poll) };

    ghost needs = { λ m n. IsSomeAnd (fetch_in m) (λ f. T.Stream.needs (collected f) n) };

    ghost gives = { λ m r. (new : ReleaseDoc) × Updates T.refuses T.serves T.Stream.yields
        (V.verifies (verifier_in m)) (editor_doc (editor_in m).now) (url_in m) (name_in m)
        (fetch_in m) (update_in m) new r };

    fn poll(&mut self, cx: &mut Context<'_>) -> Poll<Result<(), Error>>
        requires { IfSome (fetch_in self.old) (CanPoll T.Stream.can_poll) }
        ensures value { IfReady result (λ r. (new : ReleaseDoc)
            × Updates T.refuses T.serves T.Stream.yields (V.verifies (verifier_in self.old))
            (editor_doc (editor_in self.old).now) (url_in self.old) (name_in self.old)
            (fetch_in self.old) (update_in self.old) new r) }
        ensures updates { IfReady result (Updates T.refuses T.serves T.Stream.yields
            (V.verifies (verifier_in self.old)) (editor_doc (editor_in self.old).now)
            (url_in self.old) (name_in self.old) (fetch_in self.old) (update_in self.old)
            (editor_doc (editor_in self.new).now).edits) }
        ensures rest { IsEdited (editor_doc (editor_in self.old).now)
            (editor_doc (editor_in self.new).now) }
        ensures waits { OnPending result (editor_doc (editor_in self.new).now
            ≡ editor_doc (editor_in self.old).now) }
        ensures again { OnPending result
            (IfSome (fetch_in self.new) (CanPoll T.Stream.can_poll)) }
        ensures same { OnPending result ((r : _) → ((new : ReleaseDoc)
            × Updates T.refuses T.serves T.Stream.yields (V.verifies (verifier_in self.new))
            (editor_doc (editor_in self.new).now) (url_in self.new) (name_in self.new)
            (fetch_in self.new) (update_in self.new) new r) → ((new : ReleaseDoc)
            × Updates T.refuses T.serves T.Stream.yields (V.verifies (verifier_in self.old))
            (editor_doc (editor_in self.old).now) (url_in self.old) (name_in self.old)
            (fetch_in self.old) (update_in self.old) new r)) }
        ensures registered { OnPending result (Covers cx.new
            (λ n. IsSomeAnd (fetch_in self.new) (λ f. T.Stream.needs (collected f) n))) }
        ensures kept { Keeps cx.old cx.new }
        ensures lent { (editor_in self.new).ghost_name ≡ (editor_in self.old).ghost_name }
    {
        match &mut self.fetch {
            Some(fetch) => match fetch.poll(cx) {
                Poll::Pending => Poll::Pending,
                Poll::Ready(outcome) => {
                    let update = mem::replace(&mut self.update, None);
                    let step = self
                        .editor
                        .advance(self.name, self.url, self.verifier, update, outcome);
                    keep(&mut self.fetch, &mut self.update, step, cx)
                }
            },
            None => match self.editor.begin_update(self.url, self.name) {
                Ok(fetch) => {
                    self.fetch = Some(fetch);
                    drop(mem::replace(&mut self.update, None));
                    cx.yield_now()
                }
                Err(error) => Poll::Ready(Err(error)),
            },
        }
    }
}
