// Words drawn from a number.
ghost use Rattle.std.specs.Prelude.{◌≡◌, ◌+◌, ◌<◌};
ghost use Rattle.bddl_model.specs.Trial.{draw, drawn};

use rand_pcg::Lcg64Xsh32;
use rand_pcg::rand_core::{Rng, SeedableRng};
use std::marker::Model;

/// The words of a number, and how many were drawn.
#[derive(Drop)]
pub struct Draws {
    generator: Lcg64Xsh32,
    number: u64,
    count: u32,
}

impl Model for Draws {
    ghost use Rattle.std.specs.Prelude.{◌≡◌};
    ghost use Rattle.bddl_make.specs.Draws.{Drawn, words_from};
    ghost use Rattle.bddl_model.specs.Trial.{drawn};

    ghost Value = { Drawn };

    ghost view = { λ d. record { number = d.number; count = d.count } };

    ghost invariant = { λ d. words_from d.generator ≡ words_from (drawn d.number d.count) };
}

impl Draws {
    pub fn of(number: u64) -> Self
        ensures { result ≡ record { number = number; count = 0 } }
    {
        Draws {
            generator: Lcg64Xsh32::seed_from_u64(number),
            number,
            count: 0,
        }
    }

    /// The next word, modulo a bound.
    pub fn draw(&mut self, bound: u32) -> u32
        requires some { 0 < bound }
        requires few { self.old.count < 1000 }
        ensures drawn { result ≡ draw self.old.number self.old.count bound }
        ensures next { self.new ≡ record self.old { count = self.old.count + 1 } }
    {
        self.count += 1;
        self.generator.next_u32() % bound
    }
}
