//! Where bytes come from: transports, and streams that bound and check what they carry.
#![tactic(auto)]

mod collect;
mod digest_check;
mod digests;
mod error;
mod exchange;
mod filesystem;
mod http_error;
mod into_vec;
pub mod laws;
mod limits;
mod max_size;
mod memory;
mod requests;
mod retry_core;
mod retry_events;
mod retrying;
mod shown;
mod transport;
mod urls;

pub use collect::{Collect, fetch_whole};
pub use digest_check::DigestCheck;
pub use digests::Digests;
pub use error::{Cause, TransportError, TransportErrorKind};
pub use exchange::Exchange;
pub use filesystem::{FileStream, FilesystemTransport};
pub use http_error::{HttpError, LastRequest, RequestError, RequestFault};
pub use into_vec::{IntoVec, IntoVecFuture};
pub use limits::Limits;
pub use max_size::MaxSize;
pub use memory::{MemoryStream, MemoryTransport};
pub use requests::{Requests, Response};
pub use retry_core::RetryCore;
pub use retry_events::{AnswerClass, RetryAction, RetryEvent, RetrySettings};
pub use retrying::{Retrying, State};
pub use shown::{Printable, Shown};
pub use transport::{Transport, TransportStream, fetch_digests, fetch_max_size, fetch_sha256};
pub use urls::{JoinError, SlashError, join, with_slash};
