// The games can be checked.
ghost use Rattle.std.specs.Prelude.{◌≡◌, ℕ, None};
ghost use Rattle.bddl_model.specs.Check.{setup_fault};
ghost use Rattle.bddl_model.specs.Trial.{large, occupying, small};

/// A law: no trial game has a fault.
pub fn trial_games_have_no_fault()
    ensures large { (number : ℕ) → setup_fault occupying (large number) ≡ None }
    ensures small { (number : ℕ) → setup_fault occupying (small number) ≡ None }
{}
