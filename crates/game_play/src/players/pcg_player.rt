ghost use Rattle.std.specs.Prelude.{◌≡◌, []};

use super::said::Said;
use crate::opponent::{Opponent, Reply};
use bddl_model::Move;
use grid_game::Board;
use rand_pcg::Lcg64Xsh32;
use rand_pcg::rand_core::{Rng, SeedableRng};

/// Answers by a generator that the number of the last start sets: its next 32 bits, modulo the number of
/// moves. Before the first start it stands as after a start with 0.
#[derive(Drop)]
pub struct PcgPlayer {
    generator: Lcg64Xsh32,
    said: Said,
}

impl PcgPlayer {
    pub fn new() -> Self
        ensures began { ⟦<PcgPlayer as Opponent>⟧.began result ≡ 0 }
        ensures said { ⟦<PcgPlayer as Opponent>⟧.said result ≡ [] }
        ensures count { ⟦<PcgPlayer as Opponent>⟧.count result ≡ 0 }
    {
        PcgPlayer {
            generator: Lcg64Xsh32::seed_from_u64(0),
            said: Said::new(),
        }
    }
}

impl Opponent for PcgPlayer {
    ghost use Rattle.std.specs.Prelude.{true, None};

    ghost count = { λ _. 0 };

    ghost began = { λ s. s.said.began };

    ghost said = { λ s. s.said.numbers };

    ghost steady = { λ _. true };

    ghost left = { λ _. None };

    fn start(&mut self, number: u64) {
        self.generator = Lcg64Xsh32::seed_from_u64(number);
        self.said.begin(number);
    }

    fn reply(&mut self, _board: &Board, moves: &[Move]) -> Reply {
        let word = u64::from(self.generator.next_u32());
        let number = word % moves.len() as u64;
        self.said.push(number);
        Reply::Choice(number)
    }
}
