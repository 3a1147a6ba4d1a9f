// What is known of a node while the nodes before it are checked.
use bddl_model::Move;

#[derive(Clone, Copy, Debug, PartialEq, Eq)]
pub enum Known {
    /// No node has named it.
    Unnamed,
    /// All its namings so far lead to one place. This is the first: the node that names it, and the
    /// move.
    First { from: u64, mv: Move },
    /// Two namings lead to two places.
    Two,
}
