//! The example of the trait `Transport`: a transport of one's own.
ghost use Rattle.std.specs.Prelude.{⊤};
ghost use Rattle.url.specs.Parts.{Parts};

use std::alloc::Global;
use tough::{Transport, TransportError, TransportErrorKind, Url};

/// Has `https` served by a gateway, a program that is asked over plain HTTP.
#[derive(Drop)]
pub(crate) struct Gateway<T> {
    pub(crate) alloc: Global,
    pub(crate) base: String,
    pub(crate) within: T,
}

impl<T: Transport> Transport for Gateway<T> {
    type Stream = T::Stream;

    ghost refuses = { λ _ _ _. ⊤ };

    ghost serves = { λ t _ xs last. (asked : Parts) × T.serves t.within asked xs last };

    fn fetch(&self, url: &Url) -> Result<T::Stream, TransportError> {
        if url.scheme() != "https" {
            return self.within.fetch(url);
        }
        let (base, host, path) = (self.base.as_str(), url.host_str().unwrap_or(""), url.path());
        let text = format!(in self.alloc; "{base}/{host}{path}")?;
        match Url::parse(self.alloc, text.as_str()) {
            Ok(asked) => self.within.fetch(&asked),
            Err(_) => {
                let kind = TransportErrorKind::Other;
                Err(TransportError::new(self.alloc, kind, text.as_str())?)
            }
        }
    }
}
