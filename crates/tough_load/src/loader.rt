//! What a load is made from.

ghost use Rattle.std.specs.Prelude.{◌≡◌, true, Ok, IfOk, IfErr};
ghost use Rattle.tough_checks.specs.Checks.{enforces};
ghost use Rattle.tough_net.specs.Urls.{with_slash};
ghost use Rattle.tough_update.specs.View.{is_whole};
ghost use Rattle.tough_load.specs.Base.{IsUnbegun, AreUnbegun};

use crate::load::Load;
use std::alloc::Global;
use tough_net::{SlashError, Transport, with_slash};
use tough_roles::Verify;
use tough_trust::Keeper;
use tough_update::{Core, Extent, Limits, UpdateError};
use tough_vault::{Clock, ExpirationEnforcement};
use url::Url;

/// A part of a loader that isn't given yet.
#[derive(Clone, Copy, Drop)]
pub struct Unset;

// What every loader has, whichever of its other parts are given.
#[derive(Drop)]
struct Settings<'a> {
    alloc: Global,
    root: &'a [u8],
    metadata_base_url: Url,
    targets_base_url: Url,
    limits: Limits,
    enforcement: ExpirationEnforcement,
    extent: Extent,
}

/// Loads a repository (TUF specification 5), from the bytes of a root that is trusted and two URLs. `load` is there once the transport, the
/// verifier, the clock and the keeper are given.
#[derive(Drop)]
pub struct RepositoryLoader<'a, T, V, C, K> {
    settings: Settings<'a>,
    transport: T,
    verifier: V,
    clock: C,
    keeper: K,
}

impl<'a> RepositoryLoader<'a, Unset, Unset, Unset, Unset> {
    ghost use Rattle.tough_load.specs.Loader.{settings_of, default_limits};

    /// A loader with the default limits, that refuses expired documents, and loads those of delegated roles too.
    pub fn new(
        alloc: Global,
        root: &'a [u8],
        metadata_base_url: Url,
        targets_base_url: Url,
    ) -> RepositoryLoader<'a, Unset, Unset, Unset, Unset>
        ensures { settings_of result
            ≡ record {
              root = root.now;
              metadata_base = metadata_base_url;
              targets_base
                  = targets_base_url;
              limits = default_limits;
              enforced = true;
              whole = true;
            } }
    {
        RepositoryLoader {
            settings: Settings {
                alloc,
                root,
                metadata_base_url,
                targets_base_url,
                limits: Limits::default(),
                enforcement: ExpirationEnforcement::Safe,
                extent: Extent::Whole,
            },
            transport: Unset,
            verifier: Unset,
            clock: Unset,
            keeper: Unset,
        }
    }
}

impl<'a, V, C, K> RepositoryLoader<'a, Unset, V, C, K> {
    ghost use Rattle.tough_load.specs.Loader.{settings_of, transport_of, verifier_of, clock_of, keeper_of};

    /// What fetches the files.
    pub fn transport<T>(self, transport: T) -> RepositoryLoader<'a, T, V, C, K>
        ensures given { transport_of result ≡ transport }
        ensures settings { settings_of result ≡ settings_of self.entry }
        ensures others { (verifier_of result ≡ verifier_of self.entry)
            × (clock_of result ≡ clock_of self.entry) × (keeper_of result ≡ keeper_of self.entry) }
    {
        RepositoryLoader {
            settings: self.settings,
            transport,
            verifier: self.verifier,
            clock: self.clock,
            keeper: self.keeper,
        }
    }
}

impl<'a, T, C, K> RepositoryLoader<'a, T, Unset, C, K> {
    ghost use Rattle.tough_load.specs.Loader.{settings_of, transport_of, verifier_of, clock_of, keeper_of};

    /// What verifies signatures.
    pub fn verifier<V>(self, verifier: V) -> RepositoryLoader<'a, T, V, C, K>
        ensures given { verifier_of result ≡ verifier }
        ensures settings { settings_of result ≡ settings_of self.entry }
        ensures others { (transport_of result ≡ transport_of self.entry)
            × (clock_of result ≡ clock_of self.entry) × (keeper_of result ≡ keeper_of self.entry) }
    {
        RepositoryLoader {
            settings: self.settings,
            transport: self.transport,
            verifier,
            clock: self.clock,
            keeper: self.keeper,
        }
    }
}

impl<'a, T, V, K> RepositoryLoader<'a, T, V, Unset, K> {
    ghost use Rattle.tough_load.specs.Loader.{settings_of, transport_of, verifier_of, clock_of, keeper_of};

    /// What tells the time.
    pub fn clock<C>(self, clock: C) -> RepositoryLoader<'a, T, V, C, K>
        ensures given { clock_of result ≡ clock }
        ensures settings { settings_of result ≡ settings_of self.entry }
        ensures others { (transport_of result ≡ transport_of self.entry)
            × (verifier_of result ≡ verifier_of self.entry)
            × (keeper_of result ≡ keeper_of self.entry) }
    {
        RepositoryLoader {
            settings: self.settings,
            transport: self.transport,
            verifier: self.verifier,
            clock,
            keeper: self.keeper,
        }
    }
}

impl<'a, T, V, C> RepositoryLoader<'a, T, V, C, Unset> {
    ghost use Rattle.tough_load.specs.Loader.{settings_of, transport_of, verifier_of, clock_of, keeper_of};

    /// What keeps what is accepted, in place of a datastore.
    pub fn keeper<K>(self, keeper: K) -> RepositoryLoader<'a, T, V, C, K>
        ensures given { keeper_of result ≡ keeper }
        ensures settings { settings_of result ≡ settings_of self.entry }
        ensures others { (transport_of result ≡ transport_of self.entry)
            × (verifier_of result ≡ verifier_of self.entry)
            × (clock_of result ≡ clock_of self.entry) }
    {
        RepositoryLoader {
            settings: self.settings,
            transport: self.transport,
            verifier: self.verifier,
            clock: self.clock,
            keeper,
        }
    }
}

impl<'a, T, V, C, K> RepositoryLoader<'a, T, V, C, K> {
    ghost use Rattle.tough_load.specs.Loader.{settings_of, transport_of, verifier_of, clock_of, keeper_of};

    /// What an update takes at most.
    pub fn limits(self, limits: Limits) -> RepositoryLoader<'a, T, V, C, K>
        ensures settings { settings_of result
            ≡ record (settings_of self.entry) { limits = limits } }
        ensures others { (transport_of result ≡ transport_of self.entry)
            × (verifier_of result ≡ verifier_of self.entry)
            × (clock_of result ≡ clock_of self.entry) × (keeper_of result ≡ keeper_of self.entry) }
    {
        let settings = Settings {
            limits,
            ..self.settings
        };
        RepositoryLoader { settings, ..self }
    }

    /// Whether documents that have expired are refused.
    pub fn expiration_enforcement(
        self,
        enforcement: ExpirationEnforcement,
    ) -> RepositoryLoader<'a, T, V, C, K>
        ensures settings { settings_of result
            ≡ record (settings_of self.entry) { enforced = enforces enforcement } }
        ensures others { (transport_of result ≡ transport_of self.entry)
            × (verifier_of result ≡ verifier_of self.entry)
            × (clock_of result ≡ clock_of self.entry) × (keeper_of result ≡ keeper_of self.entry) }
    {
        let settings = Settings {
            enforcement,
            ..self.settings
        };
        RepositoryLoader { settings, ..self }
    }

    /// Which documents are loaded: those of the delegated roles too, or the top-level ones alone, as `Extent` says.
    pub fn extent(self, extent: Extent) -> RepositoryLoader<'a, T, V, C, K>
        ensures settings { settings_of result
            ≡ record (settings_of self.entry) { whole = is_whole extent } }
        ensures others { (transport_of result ≡ transport_of self.entry)
            × (verifier_of result ≡ verifier_of self.entry)
            × (clock_of result ≡ clock_of self.entry) × (keeper_of result ≡ keeper_of self.entry) }
    {
        let settings = Settings {
            extent,
            ..self.settings
        };
        RepositoryLoader { settings, ..self }
    }
}

// A base URL, with a slash at its end.
fn base_url(alloc: Global, url: Url) -> Result<Url, UpdateError>
    ensures given { IfOk result (λ u. with_slash url ≡ Ok u) }
    ensures refused { IfErr result (IsUnbegun url) }
{
    match with_slash(alloc, url) {
        Ok(url) => Ok(url),
        Err(SlashError::Parse { url, source }) => Err(UpdateError::ParseUrl { url, source }),
        Err(SlashError::Memory) => Err(UpdateError::Memory),
    }
}

impl<T: Transport, V: Verify + Drop, C: Clock + Drop, K: Keeper> RepositoryLoader<'_, T, V, C, K> {
    ghost use Rattle.tough_load.specs.Loader.{settings_of, IsBegun};

    /// The load, which hasn't begun: the future of what it comes to. A base URL without a slash at its end gets one, and `ParseUrl` is
    /// where it then can't be parsed, that of the metadata first.
    pub fn load(self) -> Result<Load<T, K, C, V>, UpdateError>
        ensures begun { IfOk result (IsBegun self.entry) }
        ensures refused { IfErr result (AreUnbegun (settings_of self.entry).metadata_base
            (settings_of self.entry).targets_base) }
    {
        let RepositoryLoader {
            settings,
            transport,
            verifier,
            clock,
            keeper,
        } = self;
        let alloc = settings.alloc;
        let base = match base_url(alloc, settings.metadata_base_url) {
            Ok(base) => base,
            Err(error) => return Err(error),
        };
        let targets_base = match base_url(alloc, settings.targets_base_url) {
            Ok(base) => base,
            Err(error) => return Err(error),
        };
        let trusted = Vec::from_slice(alloc, settings.root)?;
        Ok(Load {
            alloc,
            transport,
            base,
            targets_base,
            limits: settings.limits,
            enforcement: settings.enforcement,
            keeper,
            clock,
            verifier,
            core: Core::new(trusted, settings.limits, settings.enforcement).to_extent(
                settings.extent,
            ),
            fetch: None,
            receipts: Vec::new(alloc),
        })
    }
}
