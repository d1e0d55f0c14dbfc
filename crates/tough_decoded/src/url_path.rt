//! The path of a URL as a path of files.

ghost use Rattle.std.specs.Prelude.{◌≡◌, ℕ, List};
ghost use Rattle.url.specs.Parts.{Parts};

use url::Url;

/// What has a path of files.
pub trait SafeUrlPath {
    ghost filepath: { Self → List ℕ };

    /// The path as it stands in the URL: no escape in it is decoded.
    fn safe_url_filepath(&self) -> &str
        ensures { result.now ≡ filepath self.now };
}

impl SafeUrlPath for Url {
    ghost filepath = { λ url. url.path };

    fn safe_url_filepath(&self) -> &str {
        self.path()
    }
}
