//! A fetch that checks what hashes state.

ghost use Rattle.std.specs.Prelude.{◌≡◌, ◌⊎◌, [], None, IfOk, IfErr};
ghost use Rattle.futures.specs.Runs.{Within};
ghost use Rattle.url.specs.Parts.{serialize};
ghost use Rattle.tough_roles.specs.Timestamp.{hashes_doc};
ghost use Rattle.tough_net.specs.Errors.{IsMemory};
ghost use Rattle.tough_net.specs.Limiting.{limit_of, limited};
ghost use Rattle.tough_net.specs.Checking.{checked, url_of, expected_of, failure_of, HasTaken};
ghost use Rattle.tough_trust.specs.Requests.{digests_in};

use std::alloc::Global;
use tough_net::{DigestCheck, MaxSize, Transport, TransportError, fetch_digests};
use tough_roles::Hashes;
use tough_trust::digests_in;
use url::Url;

/// Fetches a URL, bounds what comes, and checks each digest that the hashes state. The specifier says where the limit of `max_size` bytes
/// comes from.
pub fn fetch_hashes<T: Transport>(
    alloc: Global,
    transport: &T,
    url: &Url,
    max_size: u64,
    specifier: &'static str,
    hashes: &Hashes,
) -> Result<DigestCheck<MaxSize<T::Stream>>, TransportError>
    ensures refused { IfErr result (λ e. T.refuses transport.now url.now e ⊎ IsMemory e) }
    ensures can_poll { IfOk result (λ m. T.Stream.can_poll (limited (checked m))) }
    ensures limit { IfOk result (λ m. limit_of (checked m)
        ≡ record { url = serialize url.now; max = max_size; specifier = specifier.now; size = 0 }) }
    ensures url { IfOk result (λ m. url_of m ≡ serialize url.now) }
    ensures expected { IfOk result (λ m. expected_of m ≡ digests_in (hashes_doc hashes.now)) }
    ensures fresh { IfOk result (λ m. HasTaken m [] × (failure_of m ≡ None)) }
    ensures served { IfOk result
        (λ m. Within (T.serves transport.now url.now) (T.Stream.yields (limited (checked m)))) }
{
    let digests = digests_in(alloc, hashes)?;
    fetch_digests(alloc, transport, url, max_size, specifier, digests)
}
