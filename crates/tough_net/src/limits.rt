//! What an update takes at most.

ghost use Rattle.std.specs.Prelude.{◌≡◌, ◌*◌, ◌^◌};

/// What an update takes at most: lengths in bytes, where no document states another, and how many new roots.
#[derive(Clone, Copy, Debug, PartialEq, Eq, Drop)]
pub struct Limits {
    /// The length of a root.
    pub max_root_size: u64,
    /// The length of targets, and of the documents of delegated roles.
    pub max_targets_size: u64,
    /// The length of a timestamp.
    pub max_timestamp_size: u64,
    /// The length of a snapshot.
    pub max_snapshot_size: u64,
    /// How many roots may follow the one that was handed in.
    pub max_root_updates: u64,
}

const MEBIBYTE: u64 = 1_048_576;

impl Default for Limits {
    ghost is_default = { λ l. l
        ≡ record {
          max_root_size = 2 ^ 20;
          max_targets_size = 10 * 2 ^ 20;
          max_timestamp_size = 2 ^
              20;
          max_snapshot_size = 2 ^ 20;
          max_root_updates = 1024;
        } };

    /// One mebibyte for roots, timestamps and snapshots, ten for targets, and 1,024 new roots.
    fn default() -> Limits {
        Limits {
            max_root_size: MEBIBYTE,
            max_targets_size: 10 * MEBIBYTE,
            max_timestamp_size: MEBIBYTE,
            max_snapshot_size: MEBIBYTE,
            max_root_updates: 1024,
        }
    }
}
