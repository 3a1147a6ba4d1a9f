// Plays under a certificate.
ghost use Rattle.std.specs.Prelude.{ℕ, ◌≡◌, ◌≤◌, ◌*◌, List, length, true};
ghost use Rattle.bddl_model.specs.declared.certificate.Node.{Node};
ghost use Rattle.bddl_model.specs.Certificate.{valid};
ghost use Rattle.bddl_model.specs.Play.{plays, in_range, Reaches, ReachesOrGone};
ghost use Rattle.bddl_model.specs.Setup.{Setup};

/// A law: under a valid certificate, a play whose replies are among the moves that were shown ends at
/// Black's goal within the depth, or where no reply comes; with half as many replies as the depth,
/// rounded up, it reaches the goal.
pub fn plays_reach_the_goal()
    ensures ends { (s : Setup) (nodes : List Node) (replies : List ℕ) → valid s nodes ≡ true → in_range s nodes replies ≡ true → ReachesOrGone s.depth (plays s nodes replies).end }
    ensures reaches { (s : Setup) (nodes : List Node) (replies : List ℕ) → valid s nodes ≡ true → in_range s nodes replies ≡ true → s.depth ≤ 2 * length replies
        → Reaches s.depth (plays s nodes replies).end }
{}
