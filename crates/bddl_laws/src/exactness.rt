// The lifted encoding is exact.

ghost use Rattle.std.specs.Prelude.{◌≡◌, ◌++◌, Bool, List};
ghost use Rattle.bddl_model.specs.declared.circuit.Wire.{Wire};
ghost use Rattle.bddl_model.specs.declared.formula.Bound.{Bound};
ghost use Rattle.bddl_model.specs.Truth.{Assignment, value};
ghost use Rattle.bddl_model.specs.Circuit.{Circuit, IsCircuit, IsWire, holds};
ghost use Rattle.bddl_model.specs.Setup.{Setup};
ghost use Rattle.bddl_model.specs.Layout.{blocks, layout, prefix_of};
ghost use Rattle.bddl_model.specs.declared.game.Move.{Move};
ghost use Rattle.bddl_model.specs.Exact.{MayPlayFrom, PlaysFrom, IsExact, IsExactForm};
ghost use Rattle.bddl_model.specs.Encoding.{MeetsConditions, circuit_form};

/// A law: a test of the inputs that meets the conditions of the encoding says of every position of
/// the game what can be forced from there. So does a test whose value under further quantifiers
/// meets them, and so do the clauses of a circuit whose output meets them. Some test meets them.
pub fn served_claims_are_exact()
    ensures inputs { (s : Setup) (out : Assignment → Bool)
        → MeetsConditions s out
        → IsExact (prefix_of (blocks (layout s.game s.first s.depth))) out s }
    ensures more { (s : Setup) (rest : List Bound) (matrix : Assignment → Bool)
        → MeetsConditions s (value rest matrix)
        → IsExact (prefix_of (blocks (layout s.game s.first s.depth)) ++ rest) matrix s }
    ensures circuit { (s : Setup) (c : Circuit) (out : Wire)
        → IsCircuit c → IsWire c out → c.inputs ≡ (layout s.game s.first s.depth).inputs → MeetsConditions s (holds c out)
        → IsExactForm (circuit_form s c out) s }
    ensures some { (s : Setup) → (out : Assignment → Bool) × MeetsConditions s out }
{}

/// A law: what a test that is exact says, it says of every line of play. Some assignment plays any
/// moves that may be played from the start.
pub fn lines_of_play_are_played()
    ensures { (s : Setup) (ms : List Move) → MayPlayFrom s ms → (a : Assignment) × PlaysFrom s a ms }
{}
