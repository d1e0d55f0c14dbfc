//! Fetching the document of a role.

ghost use Rattle.std.specs.Prelude.{◌≡◌, IfOk, IfErr};
ghost use Rattle.tough_editor.specs.Fetched.{CanPoll};
ghost use Rattle.tough_publish.specs.Editors.{editor_doc};
ghost use Rattle.tough_publish.specs.Fetching.{Begins, IsAble, IsUnable, IsUnfetchable, Reads};

use crate::repository::RepositoryEditor;
use std::alloc::Global;
use tough_editor::{begin_role, document, fault};
use tough_error::Error;
use tough_net::{Collect, Transport, TransportError};
use tough_roles::Signed;
use tough_schema::Targets;

/// The document that was fetched. The errors, in this order: `Transport`, `ParseMetadata`.
pub(crate) fn read_document(
    alloc: Global,
    outcome: Result<Vec<u8>, TransportError>,
) -> Result<Signed<Targets>, Error>
    ensures { Reads outcome result }
{
    let bytes = match outcome {
        Ok(bytes) => bytes,
        Err(error) => return Err(fault(error)),
    };
    match document(alloc, bytes.as_slice()) {
        Ok(signed) => Ok(signed),
        Err(error) => Err(error),
    }
}

impl<T: Transport> RepositoryEditor<T> {
    /// Whether there is what fetches. The errors, in this order: `MissingLimits`, `MissingTransport`.
    pub(crate) fn check_fetcher(&self) -> Result<(), Error>
        ensures able { IfOk result (λ u. IsAble (editor_doc self.now)) }
        ensures refused { IfErr result (IsUnable (editor_doc self.now)) }
    {
        if self.limits.is_none() {
            return Err(Error::MissingLimits);
        }
        if self.transport.is_none() {
            return Err(Error::MissingTransport);
        }
        Ok(())
    }

    /// Begins to fetch a role's file. The errors, in this order: `MissingLimits`, `MissingTransport`, `ParseUrl`, `JoinUrlEncoded`, `Transport`.
    pub(crate) fn begin_fetch(&self, url: &str, name: &str) -> Result<Collect<T::Stream>, Error>
        ensures begun { IfOk result (Begins T.refuses T.serves T.Stream.yields
            (editor_doc self.now) url.now name.now) }
        ensures can_poll { IfOk result (CanPoll T.Stream.can_poll) }
        ensures refused { IfErr result (IsUnfetchable T.refuses T.serves T.Stream.yields
            (editor_doc self.now) url.now name.now) }
    {
        let Some(limits) = &self.limits else {
            return Err(Error::MissingLimits);
        };
        let Some(transport) = &self.transport else {
            return Err(Error::MissingTransport);
        };
        match begin_role(self.alloc, transport, limits, url, name) {
            Ok(fetch) => Ok(fetch),
            Err(error) => Err(error),
        }
    }
}
