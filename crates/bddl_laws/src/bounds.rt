// Laws of bounds: sizes and steps of worked games, and the steps that a search may use.
ghost use Rattle.std.specs.Prelude.{◌≡◌, ◌⊎◌, ℕ, ◌+◌, ◌*◌, ◌^◌, ◌≤◌, ◌<◌, List, ◌∷◌, [], ◌++◌, true, false, length};
ghost use Rattle.bddl_model.specs.declared.formula.Bound.{Bound};
ghost use Rattle.bddl_model.specs.declared.circuit.Wire.{Wire};
ghost use Rattle.bddl_model.specs.declared.game.Side.TheVariants.{Black, White};
ghost use Rattle.bddl_model.specs.Truth.{Formula};
ghost use Rattle.bddl_model.specs.Board.{Board};
ghost use Rattle.bddl_model.specs.Certificate.{Place};
ghost use Rattle.bddl_model.specs.Moves.{moves};
ghost use Rattle.bddl_model.specs.Forms.{has_number, prefix_variables};
ghost use Rattle.bddl_model.specs.Circuit.{Circuit, IsCircuit, circuit_clauses};
ghost use Rattle.bddl_model.specs.CircuitValues.{gate_bounds};
ghost use Rattle.bddl_model.specs.Setup.{Setup};
ghost use Rattle.bddl_model.specs.Limits.{IsGame};
ghost use Rattle.bddl_model.specs.Size.{inputs_of, units_of, gate_limit, is_small};
ghost use Rattle.bddl_model.specs.Tail.{is_tail, tail_length};
ghost use Rattle.bddl_model.specs.Bounds.{bound, before_tail, game_bound, certify_bound, filled, most_replies};
ghost use Rattle.bddl_model.specs.TrailDigits.{Digits, digits_number, steps_paid};
ghost use Rattle.bddl_laws.specs.PlaceCosts.{MayBeMet, begun_at, cost_at};
ghost use Rattle.bddl_laws.specs.WorkedGames.{two_by_two, five_in_a_row, six_stones, twelve_stones, white_first, greatest_setup};

/// A law: these games have these numbers.
pub fn worked_bounds()
    ensures two_by_two_inputs { inputs_of two_by_two ≡ 16 }
    ensures two_by_two_units { units_of two_by_two ≡ 40 }
    ensures two_by_two_gates { gate_limit two_by_two ≡ 7680 }
    ensures two_by_two_bound { game_bound two_by_two ≡ 1008861184 }
    ensures two_by_two_certificates { certify_bound two_by_two ≡ 23300014122 }
    ensures five_in_a_row_inputs { inputs_of (five_in_a_row twelve_stones 5) ≡ 94 }
    ensures five_in_a_row_units { units_of (five_in_a_row twelve_stones 5) ≡ 119 }
    ensures five_in_a_row_gates { gate_limit (five_in_a_row twelve_stones 5) ≡ 39984 }
    ensures example_units { units_of (five_in_a_row six_stones 3) ≡ 94 }
    ensures example_gates { gate_limit (five_in_a_row six_stones 3) ≡ 31584 }
    ensures white_first_units { units_of white_first ≡ 27 }
    ensures white_first_bound { game_bound white_first ≡ 2327040 }
    ensures greatest_units { units_of greatest_setup ≡ 18193 }
    ensures greatest_gates { gate_limit greatest_setup ≡ 7859376 }
    ensures greatest_inputs { inputs_of greatest_setup ≡ 775 }
{}

/// A law: the numbers of the greatest game are the greatest of all games within the limits.
pub fn sizes_have_limits()
    ensures units { (s : Setup)
        → IsGame s.game → length s.board ≡ s.game.height * s.game.width → s.depth ≤ 31
        → units_of s ≤ 18193 }
    ensures gates { (s : Setup)
        → IsGame s.game → length s.board ≡ s.game.height * s.game.width → s.depth ≤ 31
        → gate_limit s ≤ 7859376 }
    ensures inputs { (s : Setup) → IsGame s.game → s.depth ≤ 31 → inputs_of s ≤ 775 }
{}

/// A law: a small form whose tail holds all its variables behind the inputs has at most its game's bound.
pub fn form_bound_is_at_most_game_bound()
    ensures { (f : Formula) (s : Setup) → is_small f s ≡ true → length f.prefix ≤ inputs_of s + tail_length f → bound f ≤ game_bound s }
{}

/// A law: a push takes one step, for which the longer trail pays.
pub fn push_keeps_steps_within()
    ensures never_lower { (places : ℕ) (front more : Digits) → digits_number places front ≤ digits_number places (front ++ more) }
    ensures paid { (places variables start used entries : ℕ) (front more : Digits)
        → used ≤ start + steps_paid places variables front entries
        → used + 1 ≤ start + steps_paid places variables (front ++ more) (entries + 1) }
{}

/// A law: a flip takes one step, for which the digit that it raises pays, whatever stood behind.
pub fn flip_keeps_steps_within()
    ensures higher { (places : ℕ) (front behind : Digits)
        → length front < places
        → digits_number places (front ++ false ∷ behind) < digits_number places (front ++ true ∷ []) }
    ensures paid { (places variables start used entries kept : ℕ) (front behind : Digits)
        → length front < places → entries ≤ variables
        → used ≤ start + steps_paid places variables (front ++ false ∷ behind) entries
        → used + 1 ≤ start + steps_paid places variables (front ++ true ∷ []) (kept + 1) }
{}

/// A law: the steps for which a trail pays are at most a whole trail for each number of its digits,
/// and so fewer than the bound of the form.
pub fn paid_steps_are_below_the_bound()
    ensures at_most { (places variables start used entries : ℕ) (digits : Digits)
        → entries ≤ variables
        → used ≤ start + steps_paid places variables digits entries
        → used ≤ start + 2 ^ places * variables }
    ensures below { (f : Formula) (start used entries : ℕ) (digits : Digits)
        → entries ≤ length f.prefix
        → used ≤ start + steps_paid (before_tail f) (length f.prefix) digits entries
        → used < start + bound f }
{}

/// A law: no tail of a form is longer than the length that is computed, and one is that long, if it isn't 0.
pub fn tail_is_the_longest()
    ensures none_longer { (f : Formula) (front rest : List Bound)
        → front ++ rest ≡ f.prefix → is_tail f.clauses (prefix_variables front) rest ≡ true → length rest ≤ tail_length f }
    ensures one { (f : Formula) → (tail_length f ≡ 0) ⊎ ((front rest : List Bound)
        × (front ++ rest ≡ f.prefix) × (is_tail f.clauses (prefix_variables front) rest ≡ true) × (length rest ≡ tail_length f)) }
{}

/// A law: behind a prefix that binds the inputs of a circuit, the tail holds all its gate variables.
/// So where they are few enough for the setup, the form is small and has at most its game's bound.
pub fn circuit_tail_holds_the_gates()
    ensures tail { (prefix : List Bound) (c : Circuit) (out : Wire) → IsCircuit c
        → ((v : ℕ) → 1 ≤ v → v ≤ c.inputs → has_number (prefix_variables prefix) v ≡ true)
        → length (gate_bounds c) ≤ tail_length (record { prefix = prefix ++ gate_bounds c; clauses = circuit_clauses c out }) }
    ensures small { (s : Setup) (prefix : List Bound) (c : Circuit) (out : Wire)
        → length prefix ≡ inputs_of s → length (gate_bounds c) ≤ gate_limit s
        → is_small (record { prefix = prefix ++ gate_bounds c; clauses = circuit_clauses c out }) s ≡ true }
    ensures bounded { (s : Setup) (prefix : List Bound) (c : Circuit) (out : Wire) → IsCircuit c
        → length prefix ≡ inputs_of s → length (gate_bounds c) ≤ gate_limit s
        → ((v : ℕ) → 1 ≤ v → v ≤ c.inputs → has_number (prefix_variables prefix) v ≡ true)
        → bound (record { prefix = prefix ++ gate_bounds c; clauses = circuit_clauses c out }) ≤ game_bound s }
{}

/// A law: each search for a certificate takes at most as many steps as one over a full board, White has
/// no more replies than are counted, and so the steps of all places are within the certificate's bound.
pub fn certificate_steps_are_bounded()
    ensures searches { (s : Setup) (p : Place) → MayBeMet s p → game_bound (begun_at s p) ≤ game_bound (filled s) }
    ensures replies { (s : Setup) (board : Board) → length (moves s.game board White) ≤ most_replies s }
    ensures black { (s : Setup) → cost_at s Black s.depth ≤ certify_bound s }
    ensures white { (s : Setup) → game_bound (filled s) + cost_at s White s.depth ≤ certify_bound s }
{}
