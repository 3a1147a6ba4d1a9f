ghost use Rattle.std.specs.Prelude.{◌≡◌, ◌<◌, [], ◌∷◌, ◌++◌, length};
ghost use Rattle.game_play.specs.Players.{nothing_said};

use std::marker::Model;

/// What was answered since the last start, 16 numbers at most, so that no memory is taken.
#[derive(Drop)]
pub struct Said {
    began: u64,
    numbers: [u64; 16],
    len: usize,
}

impl Model for Said {
    ghost use Rattle.std.specs.Prelude.{take, ◌≤◌};
    ghost use Rattle.game_play.specs.Players.{SaidState};

    ghost Value = { SaidState };

    ghost view = { λ s. record { began = s.began; numbers = take s.len s.numbers } };

    ghost invariant = { λ s. s.len ≤ 16 };
}

impl Said {
    pub fn new() -> Self
        ensures { result ≡ nothing_said }
    {
        Said {
            began: 0,
            numbers: [0; 16],
            len: 0,
        }
    }

    pub fn begin(&mut self, number: u64)
        ensures { self.new ≡ record { began = number; numbers = [] } }
    {
        self.began = number;
        self.len = 0;
    }

    pub fn push(&mut self, number: u64)
        requires { length self.old.numbers < 16 }
        ensures { self.new ≡ record self.old { numbers = self.old.numbers ++ number ∷ [] } }
    {
        self.numbers[self.len] = number;
        self.len += 1;
    }
}
