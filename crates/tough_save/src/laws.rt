//! What the stream of a target promises as a whole.

ghost use Rattle.std.specs.Prelude.{◌≡◌, ℕ, List, None, Ok, map};
ghost use Rattle.url.specs.Parts.{Parts};
ghost use Rattle.tough_net.specs.Checking.{Checked, checked};
ghost use Rattle.tough_net.specs.Digests.{Digests, HasDigests};
ghost use Rattle.tough_net.specs.Joining.{joined_pieces};
ghost use Rattle.tough_net.specs.Limiting.{Limits, limit_of, limited};
ghost use Rattle.tough_net.specs.declared.digest_check.DigestCheck.{DigestCheck as Check};
ghost use Rattle.tough_net.specs.declared.max_size.MaxSize.{MaxSize as Bounded};
ghost use Rattle.tough_save.specs.Targets.{HasBegun};

use tough_net::Transport;

/// The stream of a target that ends without an error gave bytes that have each digest that is listed (TUF specification 5.7.2).
pub fn ended_has_digest<T: Transport>()
    ensures { (t : T) (base : Parts) (name : List ℕ) (size : ℕ) (digests : Digests)
        (s : Check (Bounded T.Stream)) → HasBegun T.serves T.Stream.yields t base name size digests s
        → (pieces : List (List ℕ))
        → Checked s (Limits (limit_of (checked s))
        (T.Stream.yields (limited (checked s)))) (map Ok pieces) None
        → HasDigests digests (joined_pieces pieces) }
{}
