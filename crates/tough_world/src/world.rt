//! Many updates, one vault, one verifier.

ghost use Rattle.std.specs.Prelude.{◌≡◌, OnErr};
ghost use Rattle.tough_vault.specs.Journal.{Legal, NothingGoesBack};
ghost use Rattle.tough_vault.specs.Vault.{notes_in, tip_in};
ghost use Rattle.tough_world.specs.Turns.{Turned, Runs};
ghost use Rattle.tough_world.specs.View.{cores_of, vault_of, verifier_of, world_doc};

use crate::turns::{Answer, Turn, TurnError, reply};
use std::alloc::Global;
use tough_roles::Verify;
use tough_update::Core;
use tough_vault::{Store, Vault};

/// Several updates that take their steps on one vault, with one verifier.
#[derive(Drop)]
pub struct World<S: Store, V: Verify> {
    alloc: Global,
    cores: Vec<Core>,
    vault: Vault<S>,
    verifier: V,
}

impl<S: Store, V: Verify> World<S, V> {
    /// These updates, on this vault.
    pub fn new(alloc: Global, vault: Vault<S>, verifier: V, cores: Vec<Core>) -> World<S, V>
        ensures cores { cores_of result ≡ cores.items }
        ensures vault { vault_of result ≡ vault }
        ensures verifier { verifier_of result ≡ verifier }
    {
        World {
            alloc,
            cores,
            vault,
            verifier,
        }
    }

    /// The updates, by their numbers.
    pub fn cores(&self) -> &[Core]
        ensures { result.now ≡ cores_of self.now }
    {
        self.cores.as_slice()
    }

    /// The vault that they share.
    pub fn vault(&self) -> &Vault<S>
        ensures { result.now ≡ vault_of self.now }
    {
        &self.vault
    }

    /// The updates, the vault and the verifier.
    pub fn into_parts(self) -> (Vec<Core>, Vault<S>, V)
        ensures cores { result.0.items ≡ cores_of self }
        ensures vault { result.1 ≡ vault_of self }
        ensures verifier { result.2 ≡ verifier_of self }
    {
        let World {
            alloc: _,
            cores,
            vault,
            verifier,
        } = self;
        (cores, vault, verifier)
    }

    // Gives the answer to the update of this number, or puts its step on the vault and gives it that answer.
    fn take(&mut self, load: usize, answer: Answer) -> Result<(), TurnError>
        ensures turned { Turned S.tells S.files S.count (V.verifies (verifier_of self.old)) load
            answer (world_doc self.old) (world_doc self.new) result }
        ensures same { OnErr result ((cores_of self.new ≡ cores_of self.old)
            × (vault_of self.new ≡ vault_of self.old)) }
        ensures verifier { verifier_of self.new ≡ verifier_of self.old }
    {
        let World {
            alloc,
            cores,
            vault,
            verifier,
        } = self;
        let Some(core) = cores.get_mut(load) else {
            return Err(TurnError::NotAsked);
        };
        match reply(&core.ask(), vault, *alloc, verifier, answer) {
            Ok(reply) => {
                core.answer(*alloc, verifier, reply);
                Ok(())
            }
            Err(error) => Err(error),
        }
    }

    /// One turn: the answer goes to the update of this number alone, or its step to the vault and what the vault answers to it. Other
    /// updates may so come between two steps of one.
    ///
    /// It refuses `NotAsked` where there is no such update or it asks for something else, and `Misfit` where the bytes don't fit what it
    /// asks for; then nothing changes. Whatever is answered, no accepted document is older than one accepted before it, unless rotated
    /// keys cleared that (TUF specification 5.4 and 5.5).
    pub fn turn(&mut self, load: usize, answer: Answer) -> Result<(), TurnError>
        ensures turned { Turned S.tells S.files S.count (V.verifies (verifier_of self.old)) load
            answer (world_doc self.old) (world_doc self.new) result }
        ensures same { OnErr result ((cores_of self.new ≡ cores_of self.old)
            × (vault_of self.new ≡ vault_of self.old)) }
        ensures verifier { verifier_of self.new ≡ verifier_of self.old }
        ensures legal { Legal (notes_in (vault_of self.new)) (tip_in (vault_of self.new)) }
        ensures rising { NothingGoesBack (notes_in (vault_of self.new)) }
    {
        let result = self.take(load, answer);
        let _ = self.vault.journal();
        result
    }

    /// All turns of a schedule, in order. A refused turn changes nothing, and the run goes on.
    pub fn run(&mut self, schedule: Vec<Turn>)
        ensures runs { Runs S.tells S.files S.count (V.verifies (verifier_of self.old))
            (world_doc self.old) schedule.items (world_doc self.new) }
        ensures verifier { verifier_of self.new ≡ verifier_of self.old }
        ensures legal { Legal (notes_in (vault_of self.new)) (tip_in (vault_of self.new)) }
        ensures rising { NothingGoesBack (notes_in (vault_of self.new)) }
    {
        for turn in schedule {
            let Turn { load, answer } = turn;
            let _ = self.take(load, answer);
        }
        let _ = self.vault.journal();
    }
}
