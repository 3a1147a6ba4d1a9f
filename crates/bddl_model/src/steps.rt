ghost use Rattle.std.specs.Prelude.{◌≡◌, ◌+◌, ◌≤◌, ◌<◌, ◌↔◌, IsTrue, false};
ghost use Rattle.bddl_model.specs.StepCount.{StepCount};

use std::marker::Model;

/// A budget of steps, and how many of them are used.
#[derive(Debug, Drop)]
pub struct Steps {
    used: u64,
    budget: u64,
}

impl Model for Steps {
    ghost use Rattle.std.specs.Prelude.{◌≤◌};
    ghost use Rattle.bddl_model.specs.StepCount.{StepCount};

    ghost Value = { StepCount };

    ghost view = { λ s. record { used = s.used; budget = s.budget } };

    ghost invariant = { λ s. s.used ≤ s.budget };
}

impl Steps {
    pub fn new(budget: u64) -> Self
        ensures { result ≡ record { used = 0; budget = budget } }
    {
        Steps { used: 0, budget }
    }

    /// Takes one step, if one is left, and says whether it did.
    pub fn tick(&mut self) -> bool
        ensures spent { (result ≡ false) ↔ (self.old.used ≡ self.old.budget) }
        ensures unchanged { result ≡ false → self.new ≡ self.old }
        ensures counted { IsTrue result → self.new ≡ record self.old { used = self.old.used + 1 } }
        ensures within { self.new.used ≤ self.new.budget }
    {
        if self.used == self.budget {
            return false;
        }
        self.used += 1;
        true
    }

    pub fn used(&self) -> u64
        ensures count { result ≡ self.now.used }
        ensures within { result ≤ self.now.budget }
    {
        self.used
    }

    pub fn budget(&self) -> u64
        ensures { result ≡ self.now.budget }
    {
        self.budget
    }
}
