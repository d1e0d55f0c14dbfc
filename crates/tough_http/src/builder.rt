//! The settings of fetches over HTTP.
ghost use Rattle.std.specs.Prelude.{◌≡◌, ◌<◌};
ghost use Rattle.std.specs.Duration.{as_nanos};
ghost use Rattle.tough_http.specs.Settings.{defaults, retries_of, settings};

use std::time::Duration;
use tough_net::RetrySettings;

/// How long a try may take, and how often a resource is asked for again.
#[derive(Debug, Drop, Clone, Copy, PartialEq, Eq)]
pub struct HttpTransportBuilder {
    timeout: Duration,
    connect_timeout: Duration,
    retries: RetrySettings,
}

impl Default for HttpTransportBuilder {
    ghost is_default = { λ b. settings b ≡ defaults };

    /// 30 s for each try and 10 s of them to connect, and 4 further tries after pauses from 100 ms to 1 s that grow by half.
    fn default() -> HttpTransportBuilder {
        HttpTransportBuilder {
            timeout: Duration::from_secs(30),
            connect_timeout: Duration::from_secs(10),
            retries: RetrySettings {
                tries: 4,
                initial_backoff: Duration::from_millis(100),
                max_backoff: Duration::from_secs(1),
                numerator: 3,
                denominator: 2,
            },
        }
    }
}

impl HttpTransportBuilder {
    /// The defaults.
    pub fn new() -> HttpTransportBuilder
        ensures { settings result ≡ defaults }
    {
        HttpTransportBuilder::default()
    }

    /// The time that a try may take, from the connection to the end of the body.
    pub fn timeout(mut self, value: Duration) -> HttpTransportBuilder
        ensures { settings result ≡ record (settings self) { timeout = as_nanos value } }
    {
        self.timeout = value;
        self
    }

    /// The time that a connection may take.
    pub fn connect_timeout(mut self, value: Duration) -> HttpTransportBuilder
        ensures { settings result ≡ record (settings self) { connect_timeout = as_nanos value } }
    {
        self.connect_timeout = value;
        self
    }

    /// How many further requests may follow the first.
    pub fn tries(mut self, value: u32) -> HttpTransportBuilder
        ensures { settings result ≡ record (settings self) { tries = value } }
    {
        self.retries.tries = value;
        self
    }

    /// The pause before the first request and before the first retry.
    pub fn initial_backoff(mut self, value: Duration) -> HttpTransportBuilder
        ensures { settings result ≡ record (settings self) { initial_backoff = as_nanos value } }
    {
        self.retries.initial_backoff = value;
        self
    }

    /// The greatest pause that a multiplication gives.
    pub fn max_backoff(mut self, value: Duration) -> HttpTransportBuilder
        ensures { settings result ≡ record (settings self) { max_backoff = as_nanos value } }
    {
        self.retries.max_backoff = value;
        self
    }

    /// The factor of each later pause, as a fraction.
    pub fn backoff_factor(mut self, numerator: u32, denominator: u32) -> HttpTransportBuilder
        requires { 0 < denominator }
        ensures { settings result ≡ record (settings self)
            { numerator = numerator; denominator = denominator } }
    {
        self.retries.numerator = numerator;
        self.retries.denominator = denominator;
        self
    }

    pub(crate) fn try_time(&self) -> Duration
        ensures { as_nanos result ≡ (settings self.now).timeout }
    {
        self.timeout
    }

    pub(crate) fn connect_time(&self) -> Duration
        ensures { as_nanos result ≡ (settings self.now).connect_timeout }
    {
        self.connect_timeout
    }

    pub(crate) fn retries(&self) -> RetrySettings
        ensures { result ≡ retries_of self.now }
    {
        self.retries
    }
}
