//! Fetches over plain HTTP/1.1.
#![tactic(auto)]

mod answer;
mod body;
mod builder;
mod connect;
mod deadline;
mod default;
mod metered;
mod requests;
mod transport;

pub use answer::{accepts_ranges, response};
pub use body::{HttpAnswer, HttpBody};
pub use builder::HttpTransportBuilder;
pub use connect::{HttpConnect, HttpPause, HttpSocket};
pub use deadline::Deadline;
pub use default::{DefaultStream, DefaultTransport};
pub use metered::{Allowance, Metered};
pub use requests::HttpRequests;
pub use tough_net::{HttpError, LastRequest, RequestError, RequestFault};
pub use transport::{HttpStream, HttpTransport};
