// Laws of circuits: what their clauses say, that growth keeps words of wires, and that shared gates stand apart.
ghost use Rattle.std.specs.Prelude.{◌≡◌, ◌≢◌, ◌↔◌, ℕ, true, List, ◌++◌, AllPairs};
ghost use Rattle.std.specs.List.{range_with_len};
ghost use Rattle.bddl_model.specs.declared.formula.Bound.{Bound};
ghost use Rattle.bddl_model.specs.declared.circuit.Wire.{Wire};
ghost use Rattle.bddl_model.specs.Truth.{Assignment, value, literal_true, clauses_true};
ghost use Rattle.bddl_model.specs.Forms.{prefix_variables};
ghost use Rattle.bddl_model.specs.Circuit.{Circuit, IsCircuit, IsWire, holds, literal_of, circuit_clauses};
ghost use Rattle.bddl_model.specs.CircuitValues.{SameInputs, SameGates, gate_bounds};
ghost use Rattle.bddl_model.specs.Growth.{Grows};
ghost use Rattle.bddl_model.specs.Tail.{GatesApart};
ghost use Rattle.bddl_model.specs.Words.{AreWires, word_bits, word_value};

/// A law: the clauses of a circuit say that its output holds, and what each of its gates does.
pub fn circuit_clauses_hold()
    ensures satisfied { (c : Circuit) (out : Wire) (a : Assignment) → IsCircuit c → IsWire c out
        → ((b : Assignment) × SameInputs c a b × (clauses_true (circuit_clauses c out) b ≡ true)) ↔ (holds c out a ≡ true) }
    ensures unique { (c : Circuit) (out : Wire) (a b : Assignment) → IsCircuit c → SameInputs c a b
        → clauses_true (circuit_clauses c out) a ≡ true → clauses_true (circuit_clauses c out) b ≡ true → SameGates c a b }
    ensures held { (c : Circuit) (out w : Wire) (a : Assignment) → IsCircuit c → IsWire c w
        → clauses_true (circuit_clauses c out) a ≡ true → literal_true a (literal_of c.inputs w) ≡ holds c w a }
    ensures valued { (prefix : List Bound) (c : Circuit) (out : Wire) (a : Assignment) → IsCircuit c → IsWire c out
        → value (prefix ++ gate_bounds c) (clauses_true (circuit_clauses c out)) a ≡ value prefix (holds c out) a }
{}

/// A law: words of a circuit that grows hold what they held.
pub fn growth_keeps_words()
    ensures wires { (most : ℕ) (old new : Circuit) (ws : List Wire) → Grows most old new → AreWires old ws → AreWires new ws }
    ensures bits { (most : ℕ) (old new : Circuit) (ws : List Wire) (a : Assignment)
        → Grows most old new → AreWires old ws
        → word_bits new ws a ≡ word_bits old ws a }
    ensures number { (most : ℕ) (old new : Circuit) (ws : List Wire) (a : Assignment)
        → Grows most old new → AreWires old ws
        → word_value new ws a ≡ word_value old ws a }
{}

/// A law: where a circuit has no gate twice, the gates of its form stand apart: no two variables of the
/// tail have both the clause that they hold where the same two earlier literals do.
pub fn shared_gates_are_apart()
    ensures { (prefix : List Bound) (c : Circuit) (out : Wire) → IsCircuit c → AllPairs (λ g h. g ≢ h) c.gates
        → prefix_variables prefix ≡ range_with_len 1 c.inputs
        → GatesApart (record { prefix = prefix ++ gate_bounds c; clauses = circuit_clauses c out }) }
{}
