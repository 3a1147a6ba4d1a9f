// Laws of fine clauses and cubes.

ghost use Rattle.std.specs.Prelude.{◌≡◌, ◌↔◌, ◌≤◌, ℕ, Bool, true, false, not, List, [], length, drop, All};
ghost use Rattle.bddl_model.specs.declared.formula.Quant.TheVariants as quant;
ghost use Rattle.bddl_model.specs.declared.formula.Bound.{Bound};
ghost use Rattle.bddl_model.specs.declared.formula.Lit.{Lit};
ghost use Rattle.bddl_model.specs.Truth.{Assignment, Formula, value, form_value, negation, clause_true};
ghost use Rattle.bddl_model.specs.Forms.{has_literal, prefix_variables, AllApart, FitsPrefix, IsForm};
ghost use Rattle.bddl_model.specs.Dual.{dual_prefix, negated_literals};
ghost use Rattle.bddl_model.specs.Fine.{IsFineClause, IsFineCube, FineClauseOf, FineCubeOf, cube_true, first_block, last_named, among_first, value_under};
ghost use Rattle.bddl_model.specs.Resolution.{NoOpposites, resolvent, reduced_clause, reduced_cube, OneSign};

/// A law: under the other quantifiers the opposite of a test has the opposite value, and a cube is fine
/// exactly where the clause of its negated literals is fine for them.
pub fn cubes_are_dual()
    ensures value { (prefix : List Bound) (matrix : Assignment → Bool) (a : Assignment)
        → value (dual_prefix prefix) (λ b. not (matrix b)) a ≡ not (value prefix matrix a) }
    ensures fine { (kept : ℕ) (prefix : List Bound) (matrix : Assignment → Bool) (k : List Lit)
        → IsFineCube kept prefix matrix k ↔ IsFineClause kept (dual_prefix prefix) (λ a. not (matrix a)) (negated_literals k) }
{}

/// A law: a clause that fits the prefix is fine where it is true under each assignment under which the
/// test is true. So each clause of a form is fine.
pub fn original_clause_is_fine()
    ensures implied { (kept : ℕ) (prefix : List Bound) (matrix : Assignment → Bool) (c : List Lit)
        → AllApart (prefix_variables prefix) → FitsPrefix prefix c → ((a : Assignment) → matrix a ≡ true → clause_true a c ≡ true)
        → IsFineClause kept prefix matrix c }
    ensures of_form { (kept : ℕ) (f : Formula) → IsForm f → All (FineClauseOf kept f) f.clauses }
{}

/// A law: a cube that fits the prefix is fine where the test is true under each assignment that makes
/// each of its literals true.
pub fn first_cube_is_fine()
    ensures { (kept : ℕ) (prefix : List Bound) (matrix : Assignment → Bool) (k : List Lit)
        → AllApart (prefix_variables prefix) → FitsPrefix prefix k → ((a : Assignment) → cube_true a k ≡ true → matrix a ≡ true)
        → IsFineCube kept prefix matrix k }
{}

/// A law: a resolvent in which no literal stands beside its opposite has bound and distinct variables,
/// as both its parents have.
pub fn resolvent_fits()
    ensures { (prefix : List Bound) (v : ℕ) (left right : List Lit)
        → FitsPrefix prefix left → FitsPrefix prefix right → NoOpposites (resolvent v left right)
        → FitsPrefix prefix (resolvent v left right) }
{}

/// A law: the resolvent of two fine clauses is fine where no literal in it stands beside its opposite,
/// whether the variable is existential or universal. The variable has one sign in the left clause and
/// the other in the right one.
pub fn resolved_clause_is_fine()
    ensures on_signs { (kept : ℕ) (prefix : List Bound) (matrix : Assignment → Bool) (v : ℕ) (sign : Bool) (left right : List Lit)
        → AllApart (prefix_variables prefix) → IsFineClause kept prefix matrix left → IsFineClause kept prefix matrix right → OneSign v sign left
        → OneSign v (not sign) right → NoOpposites (resolvent v left right)
        → IsFineClause kept prefix matrix (resolvent v left right) }
    ensures on_literal { (kept : ℕ) (prefix : List Bound) (matrix : Assignment → Bool) (l : Lit) (left right : List Lit)
        → AllApart (prefix_variables prefix) → IsFineClause kept prefix matrix left → IsFineClause kept prefix matrix right
        → has_literal left l ≡ true → has_literal right (negation l) ≡ true → NoOpposites (resolvent l.var.0 left right)
        → IsFineClause kept prefix matrix (resolvent l.var.0 left right) }
{}

/// A law: the resolvent of two fine cubes is fine where no literal in it stands beside its opposite,
/// whether the variable is existential or universal. The variable has one sign in the left cube and
/// the other in the right one.
pub fn resolved_cube_is_fine()
    ensures on_signs { (kept : ℕ) (prefix : List Bound) (matrix : Assignment → Bool) (v : ℕ) (sign : Bool) (left right : List Lit)
        → AllApart (prefix_variables prefix) → IsFineCube kept prefix matrix left → IsFineCube kept prefix matrix right → OneSign v sign left
        → OneSign v (not sign) right → NoOpposites (resolvent v left right)
        → IsFineCube kept prefix matrix (resolvent v left right) }
    ensures on_literal { (kept : ℕ) (prefix : List Bound) (matrix : Assignment → Bool) (l : Lit) (left right : List Lit)
        → AllApart (prefix_variables prefix) → IsFineCube kept prefix matrix left → IsFineCube kept prefix matrix right → has_literal left l ≡ true
        → has_literal right (negation l) ≡ true → NoOpposites (resolvent l.var.0 left right)
        → IsFineCube kept prefix matrix (resolvent l.var.0 left right) }
{}

/// A law: a fine clause stays fine under reduction.
pub fn reduced_clause_is_fine()
    ensures fits { (kept : ℕ) (prefix : List Bound) (c : List Lit) → FitsPrefix prefix c → FitsPrefix prefix (reduced_clause kept prefix c) }
    ensures fine { (kept : ℕ) (prefix : List Bound) (matrix : Assignment → Bool) (c : List Lit)
        → IsFineClause kept prefix matrix c
        → IsFineClause kept prefix matrix (reduced_clause kept prefix c) }
{}

/// A law: a fine cube stays fine under reduction.
pub fn reduced_cube_is_fine()
    ensures fits { (kept : ℕ) (prefix : List Bound) (k : List Lit) → FitsPrefix prefix k → FitsPrefix prefix (reduced_cube kept prefix k) }
    ensures fine { (kept : ℕ) (prefix : List Bound) (matrix : Assignment → Bool) (k : List Lit)
        → IsFineCube kept prefix matrix k
        → IsFineCube kept prefix matrix (reduced_cube kept prefix k) }
{}

/// A law: what a fine clause without existential literals says. Where its literals among the variables
/// that are kept are false, the rest is false. So the whole is false, where those that are kept are of
/// a universal first block, and also where the clause has no literal.
pub fn clause_decides()
    ensures behind_kept { (kept : ℕ) (prefix : List Bound) (matrix : Assignment → Bool) (c : List Lit) (a : Assignment)
        → IsFineClause kept prefix matrix c → last_named quant.Exists prefix c ≡ 0
        → clause_true a (among_first kept prefix c) ≡ false
        → value (drop kept prefix) matrix a ≡ false }
    ensures whole { (kept : ℕ) (prefix : List Bound) (matrix : Assignment → Bool) (c : List Lit) (a : Assignment)
        → kept ≤ first_block quant.All prefix → IsFineClause kept prefix matrix c → last_named quant.Exists prefix c ≡ 0
        → value prefix matrix a ≡ false }
    ensures without_literals { (kept : ℕ) (prefix : List Bound) (matrix : Assignment → Bool) (a : Assignment)
        → IsFineClause kept prefix matrix []
        → value prefix matrix a ≡ false }
    ensures of_form { (kept : ℕ) (f : Formula) (c : List Lit)
        → kept ≤ first_block quant.All f.prefix → FineClauseOf kept f c → last_named quant.Exists f.prefix c ≡ 0 → form_value f ≡ false }
{}

/// A law: what a fine cube without universal literals says. Where its literals among the variables that
/// are kept are true, the rest is true. So the whole is true, where those that are kept are of an
/// existential first block, and also where the cube has no literal.
pub fn cube_decides()
    ensures behind_kept { (kept : ℕ) (prefix : List Bound) (matrix : Assignment → Bool) (k : List Lit) (a : Assignment)
        → IsFineCube kept prefix matrix k → last_named quant.All prefix k ≡ 0
        → cube_true a (among_first kept prefix k) ≡ true
        → value (drop kept prefix) matrix a ≡ true }
    ensures whole { (kept : ℕ) (prefix : List Bound) (matrix : Assignment → Bool) (k : List Lit) (a : Assignment)
        → kept ≤ first_block quant.Exists prefix → IsFineCube kept prefix matrix k → last_named quant.All prefix k ≡ 0
        → value prefix matrix a ≡ true }
    ensures without_literals { (kept : ℕ) (prefix : List Bound) (matrix : Assignment → Bool) (a : Assignment)
        → IsFineCube kept prefix matrix []
        → value prefix matrix a ≡ true }
    ensures of_form { (kept : ℕ) (f : Formula) (k : List Lit)
        → kept ≤ first_block quant.Exists f.prefix → FineCubeOf kept f k → last_named quant.All f.prefix k ≡ 0 → form_value f ≡ true }
{}

/// A law: under a prefix that begins with existential variables, some values of the first so many of
/// them make the rest true exactly where the whole is true; and under one that begins with universal
/// variables, some values make the rest false exactly where the whole is false.
pub fn first_block_has_values()
    ensures existential { (n : ℕ) (prefix : List Bound) (matrix : Assignment → Bool) (a : Assignment) → n ≤ first_block quant.Exists prefix
        → (value prefix matrix a ≡ true) ↔ ((values : List Bool) × (length values ≡ n) × (value_under prefix matrix values a ≡ true)) }
    ensures universal { (n : ℕ) (prefix : List Bound) (matrix : Assignment → Bool) (a : Assignment) → n ≤ first_block quant.All prefix
        → (value prefix matrix a ≡ false) ↔ ((values : List Bool) × (length values ≡ n) × (value_under prefix matrix values a ≡ false)) }
{}
