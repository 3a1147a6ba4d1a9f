ghost use Rattle.std.specs.Prelude.{◌≡◌, []};

use super::said::Said;
use crate::opponent::{Opponent, Reply};
use bddl_model::Move;
use grid_game::Board;

/// Always answers the first move.
#[derive(Drop)]
pub struct FirstMove {
    said: Said,
}

impl FirstMove {
    pub fn new() -> Self
        ensures began { ⟦<FirstMove as Opponent>⟧.began result ≡ 0 }
        ensures said { ⟦<FirstMove as Opponent>⟧.said result ≡ [] }
        ensures count { ⟦<FirstMove as Opponent>⟧.count result ≡ 0 }
    {
        FirstMove { said: Said::new() }
    }
}

impl Opponent for FirstMove {
    ghost use Rattle.std.specs.Prelude.{true, None};

    ghost count = { λ _. 0 };

    ghost began = { λ s. s.said.began };

    ghost said = { λ s. s.said.numbers };

    ghost steady = { λ _. true };

    ghost left = { λ _. None };

    fn start(&mut self, number: u64) {
        self.said.begin(number);
    }

    fn reply(&mut self, _board: &Board, _moves: &[Move]) -> Reply {
        self.said.push(0);
        Reply::Choice(0)
    }
}
