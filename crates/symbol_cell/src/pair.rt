// Pairs of wires that show a mark.
ghost use Rattle.std.specs.Prelude.{◌≡◌, ◌+◌, IfOk, if◌then◌else◌};
ghost use Rattle.bddl_model.specs.Truth.{Assignment};
ghost use Rattle.bddl_model.specs.Circuit.{IsWire, holds};
ghost use Rattle.bddl_model.specs.Growth.{HasRoom, Grows, Makes};
ghost use Rattle.symbol_cell.specs.Pairs as spec;
ghost use Rattle.symbol_cell.specs.Pairs.{IsPair, mark_of};

use bddl_model::{Mark, NoMemory, Wire};
use bit_arith::or;
use circuit_dag::Dag;

/// Wires of which one holds where a mark is black, and the other where it is white.
#[derive(Clone, Copy, Debug, PartialEq, Eq)]
pub struct Pair {
    pub black: Wire,
    pub white: Wire,
}

fn is_black(mark: Mark) -> bool
    ensures { result ≡ spec.is_black mark }
{
    matches!(mark, Mark::Black)
}

fn is_white(mark: Mark) -> bool
    ensures { result ≡ spec.is_white mark }
{
    matches!(mark, Mark::White)
}

// A wire that has this value where another holds, and else the value that it had.
fn put_wire(dag: &mut Dag, hit: Wire, value: bool, wire: Wire) -> Result<Wire, NoMemory>
    requires hit { IsWire dag.old hit }
    requires wire { IsWire dag.old wire }
    requires room { HasRoom dag.old 1 }
    ensures { Makes 1 dag.old dag.new result (λ a. if holds dag.old hit a then value else holds dag.old wire a) }
{
    if value {
        return or(dag, hit, wire);
    }
    let miss = dag.not(hit);
    dag.and(miss, wire)
}

/// A pair that shows this mark where a wire holds, and else the mark that was shown.
pub fn put_mark(dag: &mut Dag, hit: Wire, mark: Mark, pair: Pair) -> Result<Pair, NoMemory>
    requires hit { IsWire dag.old hit }
    requires pair { IsPair dag.old pair }
    requires room { HasRoom dag.old 2 }
    ensures pair { IfOk result (λ p. IsPair dag.new p) }
    ensures shown { IfOk result (λ p. (a : Assignment) → mark_of dag.new p a ≡ (if holds dag.old hit a then mark else mark_of dag.old pair a)) }
    ensures grows { Grows 2 dag.old dag.new }
{
    let black = put_wire(dag, hit, is_black(mark), pair.black)?;
    let white = put_wire(dag, hit, is_white(mark), pair.white)?;
    Ok(Pair { black, white })
}
