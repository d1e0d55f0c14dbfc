//! What an answer over HTTP tells a fetch.
ghost use Rattle.std.specs.Prelude.{◌≡◌, ◌↔◌, IsTrue, codes};
ghost use Rattle.tough_http.specs.Answers.{AcceptsBytes, HasPart};

use http_header::{ACCEPT_RANGES, HeaderMap};
use memchr::memmem;
use tough_net::Response;

/// Whether a field `Accept-Ranges` contains `bytes` (RFC 9110, section 14.3).
pub fn accepts_ranges(fields: &HeaderMap) -> bool
    ensures { IsTrue result ↔ AcceptsBytes fields.now }
{
    for value in fields.get_all(ACCEPT_RANGES) {
        if names_bytes(value.as_bytes()) {
            return true;
        }
    }
    false
}

fn names_bytes(value: &[u8]) -> bool
    ensures { IsTrue result ↔ HasPart value.now (codes "bytes") }
{
    memmem::find(value, b"bytes").is_some()
}

/// What the rule of retries takes of an answer with this status code, these fields and this body.
pub fn response<B>(status: u16, fields: &HeaderMap, body: B) -> Response<B>
    ensures status { result.status ≡ status }
    ensures ranges { IsTrue result.accepts_ranges ↔ AcceptsBytes fields.now }
    ensures body { result.body ≡ body }
{
    Response {
        status,
        accepts_ranges: accepts_ranges(fields),
        body,
    }
}
