// A circuit that shares its gates.
ghost use Rattle.std.specs.Prelude.{◌≡◌, ◌≢◌, ◌<◌, ◌≤◌, ◌↔◌, true, not, ◌&&◌, [], All, AllPairs, option_map, IsSome, IfSome, IfOk, OnErr};
ghost use Rattle.bddl_model.specs.Truth.{Assignment};
ghost use Rattle.bddl_model.specs.Circuit.{IsCircuit, nodes_of, IsWire, holds};
ghost use Rattle.bddl_model.specs.Forms.{greatest_variables};
ghost use Rattle.bddl_model.specs.Growth.{HasRoom, Makes};
ghost use Rattle.circuit_dag.specs.Gates as spec;

use crate::gates::{gate_of, without_gate};
use bddl_model::{Gate, NoMemory, NodeId, Wire};
use indexmap::IndexSet;
use std::alloc::Global;
use std::marker::Model;

/// A circuit, to which gates come at the end. Contracts see its number of inputs and its gates.
/// Node 0 is true, the inputs are the nodes from 1 on, and the gates follow. A circuit keeps to
/// 65,535 inputs and 16,777,215 nodes. The operands of each gate are two earlier nodes, the smaller
/// one first, and no two gates have the same operands.
#[derive(Debug, Drop)]
pub struct Dag {
    inputs: u32,
    gates: IndexSet<Gate>,
}

impl Model for Dag {
    ghost use Rattle.bddl_model.specs.Circuit.{Circuit};
    ghost use Rattle.circuit_dag.specs.Gates.{IsShared};

    ghost Value = { Circuit };

    ghost view = { λ d. record { inputs = d.inputs; gates = d.gates.keys } };

    ghost invariant = { λ d. IsShared (record { inputs = d.inputs; gates = d.gates.keys }) };
}

impl Dag {
    /// Without gates.
    pub fn new(alloc: Global, inputs: u32) -> Result<Dag, NoMemory>
        requires { inputs ≤ 65535 }
        ensures inputs { IfOk result (λ dag. dag.inputs ≡ inputs) }
        ensures gates { IfOk result (λ dag. dag.gates ≡ []) }
    {
        Ok(Dag {
            inputs,
            gates: IndexSet::new(alloc),
        })
    }

    /// A law: the operands of each gate are two earlier nodes, the smaller one first, and none of
    /// them is node 0. The inputs and the nodes keep to their limits.
    pub fn keeps_its_order(&self)
        ensures inputs { self.now.inputs ≤ 65535 }
        ensures nodes { nodes_of self.now ≤ greatest_variables }
        ensures order { IsCircuit self.now }
        ensures proper { All (λ g. 1 ≤ g.left.node.0) self.now.gates }
    {
        let _ = &self.gates;
    }

    /// A law: no two gates have the same operands.
    pub fn keeps_its_gates_apart(&self)
        ensures { AllPairs (λ g h. g ≢ h) self.now.gates }
    {
        let _ = &self.gates;
    }

    pub fn inputs(&self) -> u32
        ensures { result ≡ self.now.inputs }
    {
        self.inputs
    }

    /// The number of nodes.
    pub fn len(&self) -> u32
        ensures { result ≡ nodes_of self.now }
    {
        1 + self.inputs + self.gates.len() as u32
    }

    /// What is always true.
    pub fn truth(&self) -> Wire
        ensures wire { IsWire self.now result }
        ensures value { (a : Assignment) → holds self.now result a ≡ true }
    {
        Wire {
            node: NodeId(0),
            negated: false,
        }
    }

    /// An input, by its number from 1 on.
    pub fn input(&self, number: u32) -> Wire
        requires { (1 ≤ number) × (number ≤ self.now.inputs) }
        ensures wire { IsWire self.now result }
        ensures value { (a : Assignment) → holds self.now result a ≡ a number }
    {
        Wire {
            node: NodeId(number),
            negated: false,
        }
    }

    /// The opposite of a wire.
    pub fn not(&self, wire: Wire) -> Wire
        ensures wire { IsWire self.now wire → IsWire self.now result }
        ensures value { (a : Assignment) → holds self.now result a ≡ not (holds self.now wire a) }
    {
        Wire {
            node: wire.node,
            negated: !wire.negated,
        }
    }

    /// The operands of a gate: two earlier nodes, the smaller one first. `None` where the node is no
    /// gate.
    pub fn gate(&self, node: NodeId) -> Option<(Wire, Wire)>
        ensures operands { result ≡ option_map spec.operands (spec.gate_at self.now node.0) }
        ensures some { IsSome result ↔ (self.now.inputs < node.0) × (node.0 < nodes_of self.now) }
        ensures earlier { IfSome result (λ operands. (operands.0.node.0 < operands.1.node.0) × (operands.1.node.0 < node.0)) }
    {
        if node.0 <= self.inputs {
            return None;
        }
        let gate = self.gates.get_index((node.0 - self.inputs - 1) as usize)?;
        Some((gate.left, gate.right))
    }

    /// A wire that holds where both do. A gate is made only where no node says so already, and a
    /// refusal leaves the circuit as it was.
    pub fn and(&mut self, left: Wire, right: Wire) -> Result<Wire, NoMemory>
        requires left { IsWire self.old left }
        requires right { IsWire self.old right }
        requires room { HasRoom self.old 1 }
        ensures made { Makes 1 self.old self.new result (λ a. holds self.old left a && holds self.old right a) }
        ensures err { OnErr result (self.new ≡ self.old) }
        ensures shared { spec.Shares self.old left right result self.new }
    {
        let first_gate = 1 + self.inputs;
        if let Some(wire) = without_gate(left, right) {
            return Ok(wire);
        }
        let (place, _) = self.gates.insert_full(gate_of(left, right))?;
        Ok(Wire {
            node: NodeId(first_gate + place as u32),
            negated: false,
        })
    }
}
