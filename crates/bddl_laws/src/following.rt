// Laws of tails: what the values of their variables are.
ghost use Rattle.std.specs.Prelude.{◌≡◌, ◌≤◌, ◌∷◌, ◌++◌, List, false, not, length};
ghost use Rattle.bddl_model.specs.declared.formula.Quant.TheVariants as quant;
ghost use Rattle.bddl_model.specs.declared.formula.Bound.{Bound};
ghost use Rattle.bddl_model.specs.Truth.{Assignment, Formula, assign, value, clauses_true};
ghost use Rattle.bddl_model.specs.Forms.{prefix_variables, IsForm};
ghost use Rattle.bddl_model.specs.Tail.{tail_length};
ghost use Rattle.bddl_laws.specs.FollowingValues.{following_value, with_following};

/// A law: the values of a tail follow from those before it. A variable of the tail is existential, and
/// with the other value no values of those behind it make the clauses true. So the value of the tail is
/// that of the clauses under the values that follow.
pub fn tail_values_follow()
    ensures existential { (f : Formula) (front behind : List Bound) (b : Bound)
        → front ++ b ∷ behind ≡ f.prefix → length (b ∷ behind) ≤ tail_length f → b.quant ≡ quant.Exists }
    ensures no_other { (f : Formula) (front behind : List Bound) (b : Bound) (a : Assignment)
        → IsForm f → front ++ b ∷ behind ≡ f.prefix → length (b ∷ behind) ≤ tail_length f
        → value behind (clauses_true f.clauses) (assign b.var.0 (not (following_value f.clauses (prefix_variables front) b.var.0 a)) a) ≡ false }
    ensures value { (f : Formula) (front tail : List Bound) (a : Assignment)
        → IsForm f → front ++ tail ≡ f.prefix → length tail ≤ tail_length f
        → value tail (clauses_true f.clauses) a ≡ clauses_true f.clauses (with_following f.clauses (prefix_variables front) tail a) }
{}
