ghost use Rattle.std.specs.Prelude.{◌≡◌, ◌≤◌, [], Some, vec_len};

use super::said::Said;
use crate::opponent::{Opponent, Reply};
use bddl_model::Move;
use grid_game::Board;

/// Answers these numbers in turn, and behind the last one none any more, which counts as a fault each time.
/// A start leaves the numbers that are still to come.
#[derive(Drop)]
pub struct Scripted {
    list: Vec<u64>,
    next: usize,
    faults: u64,
    said: Said,
    ghost in_range: { next ≤ vec_len list },
}

impl Scripted {
    pub fn new(list: Vec<u64>) -> Self
        ensures left { ⟦<Scripted as Opponent>⟧.left result ≡ Some list.items }
        ensures began { ⟦<Scripted as Opponent>⟧.began result ≡ 0 }
        ensures said { ⟦<Scripted as Opponent>⟧.said result ≡ [] }
        ensures count { ⟦<Scripted as Opponent>⟧.count result ≡ 0 }
    {
        Scripted {
            list,
            next: 0,
            faults: 0,
            said: Said::new(),
        }
    }
}

impl Opponent for Scripted {
    ghost use Rattle.std.specs.Prelude.{false, drop};

    ghost count = { λ s. s.faults };

    ghost began = { λ s. s.said.began };

    ghost said = { λ s. s.said.numbers };

    ghost steady = { λ _. false };

    ghost left = { λ s. Some (drop s.next s.list.items) };

    fn start(&mut self, number: u64) {
        self.said.begin(number);
    }

    fn reply(&mut self, _board: &Board, _moves: &[Move]) -> Reply {
        if self.next < self.list.len() {
            let number = self.list[self.next];
            self.next += 1;
            self.said.push(number);
            return Reply::Choice(number);
        }
        self.faults = self.faults.saturating_add(1);
        Reply::Gone
    }
}
