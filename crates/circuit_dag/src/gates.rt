// The conjunction of two wires: a wire that is there already, or the gate for it.
ghost use Rattle.std.specs.Prelude.{◌≡◌, ◌&&◌, is_none, IfSome};
ghost use Rattle.bddl_model.specs.Truth.{Assignment};
ghost use Rattle.bddl_model.specs.Circuit.{Circuit, IsWire, holds};
ghost use Rattle.circuit_dag.specs.Gates as spec;

use bddl_model::{Gate, NodeId, Wire};

/// A wire that holds where both do and takes no gate, if there is one in every circuit.
pub fn without_gate(left: Wire, right: Wire) -> Option<Wire>
    ensures none { is_none result ≡ spec.needs_gate left right }
    ensures wire { IfSome result (λ w. (c : Circuit) → IsWire c left → IsWire c right → IsWire c w) }
    ensures value { IfSome result (λ w. (c : Circuit) (a : Assignment) → holds c w a ≡ (holds c left a && holds c right a)) }
{
    if left.node.0 == 0 {
        return Some(if left.negated { left } else { right });
    }
    if right.node.0 == 0 {
        return Some(if right.negated { right } else { left });
    }
    if left.node.0 != right.node.0 {
        return None;
    }
    if left.negated == right.negated {
        return Some(left);
    }
    Some(Wire {
        node: NodeId(0),
        negated: true,
    })
}

/// The gate of two wires, that of the smaller node first.
pub fn gate_of(left: Wire, right: Wire) -> Gate
    ensures { result ≡ spec.gate_of left right }
{
    if left.node.0 < right.node.0 {
        Gate { left, right }
    } else {
        Gate {
            left: right,
            right: left,
        }
    }
}
