//! Files over plain HTTP.

pub use tough_http::{
    DefaultStream, DefaultTransport, HttpStream, HttpTransport, HttpTransportBuilder,
};
pub use tough_net::{HttpError, LastRequest, RequestError, RequestFault};
