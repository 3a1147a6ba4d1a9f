/// A node of a circuit: node 0 is true, the inputs are the nodes from 1 on, and the gates follow.
#[derive(Clone, Copy, Debug, PartialEq, Eq, Hash)]
pub struct NodeId(pub u32);

/// What a node holds, or its negation.
#[derive(Clone, Copy, Debug, PartialEq, Eq, Hash)]
pub struct Wire {
    pub node: NodeId,
    pub negated: bool,
}

/// An and-gate, by its two operands. The one with the smaller node stands first.
#[derive(Clone, Copy, Debug, PartialEq, Eq, Hash)]
pub struct Gate {
    pub left: Wire,
    pub right: Wire,
}
