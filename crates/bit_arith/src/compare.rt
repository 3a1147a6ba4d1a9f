// Comparisons of words with words and with numbers.
ghost use Rattle.std.specs.Prelude.{◌≡◌, ◌*◌, ◌≤◌, ◌==◌, nat_le, nat_lt, not, ◌&&◌, ◌||◌, length};
ghost use Rattle.std.specs.Bool.{beq};
ghost use Rattle.bddl_model.specs.Circuit.{IsWire, holds};
ghost use Rattle.bddl_model.specs.Growth.{HasRoom, Makes};
ghost use Rattle.bddl_model.specs.Words.{AreWires, word_value};

use crate::gates::{join, or, or_both, same, signed};
use bddl_model::{NoMemory, Wire};
use circuit_dag::Dag;

/// A wire that holds where two words of one length are the same number.
pub fn equal(dag: &mut Dag, a: &[Wire], b: &[Wire]) -> Result<Wire, NoMemory>
    requires a { AreWires dag.old a.now }
    requires b { AreWires dag.old b.now }
    requires lengths { length a.now ≡ length b.now }
    requires room { HasRoom dag.old (4 * length a.now) }
    ensures { Makes (4 * length a.now) dag.old dag.new result (λ v. word_value dag.old a.now v == word_value dag.old b.now v) }
{
    let mut all = dag.truth();
    'bits: for i in 0..a.len() {
        all = also_same(dag, all, a[i], b[i])?;
    }
    Ok(all)
}

/// A wire that holds where another does and two wires hold the same.
fn also_same(dag: &mut Dag, all: Wire, left: Wire, right: Wire) -> Result<Wire, NoMemory>
    requires all { IsWire dag.old all }
    requires left { IsWire dag.old left }
    requires right { IsWire dag.old right }
    requires room { HasRoom dag.old 4 }
    ensures { Makes 4 dag.old dag.new result (λ v. holds dag.old all v && beq (holds dag.old left v) (holds dag.old right v)) }
{
    let bit = same(dag, left, right)?;
    dag.and(all, bit)
}

/// A wire that holds where of two wires the second alone holds, or where another holds and the first
/// doesn't hold alone.
fn less_by(dag: &mut Dag, less: Wire, left: Wire, right: Wire) -> Result<Wire, NoMemory>
    requires less { IsWire dag.old less }
    requires left { IsWire dag.old left }
    requires right { IsWire dag.old right }
    requires room { HasRoom dag.old 4 }
    ensures { Makes 4 dag.old dag.new result (λ v. not (holds dag.old left v) && holds dag.old right v || (not (holds dag.old left v) || holds dag.old right v) && holds dag.old less v) }
{
    let not_left = dag.not(left);
    let below = dag.and(not_left, right)?;
    let at_most = or(dag, not_left, right)?;
    or_both(dag, below, at_most, less)
}

/// A wire that holds where a word is a smaller number than another of its length.
pub fn less(dag: &mut Dag, a: &[Wire], b: &[Wire]) -> Result<Wire, NoMemory>
    requires a { AreWires dag.old a.now }
    requires b { AreWires dag.old b.now }
    requires lengths { length a.now ≡ length b.now }
    requires room { HasRoom dag.old (4 * length a.now) }
    ensures { Makes (4 * length a.now) dag.old dag.new result (λ v. nat_lt (word_value dag.old a.now v) (word_value dag.old b.now v)) }
{
    let truth = dag.truth();
    let mut less = dag.not(truth);
    'bits: for i in 0..a.len() {
        less = less_by(dag, less, a[i], b[i])?;
    }
    Ok(less)
}

/// A wire that holds where a word is a number.
pub fn equal_const(dag: &mut Dag, a: &[Wire], k: u32) -> Result<Wire, NoMemory>
    requires a { AreWires dag.old a.now }
    requires room { HasRoom dag.old (length a.now) }
    ensures { Makes (length a.now) dag.old dag.new result (λ v. word_value dag.old a.now v == k) }
{
    let mut all = dag.truth();
    let mut rest = k;
    'bits: for wire in a {
        let bit = signed(dag, rest % 2 == 1, *wire);
        all = dag.and(all, bit)?;
        rest = rest / 2;
    }
    if rest == 0 {
        return Ok(all);
    }
    let truth = dag.truth();
    Ok(dag.not(truth))
}

/// A wire that holds where a word is at least a number.
pub fn at_least(dag: &mut Dag, a: &[Wire], k: u32) -> Result<Wire, NoMemory>
    requires a { AreWires dag.old a.now }
    requires room { HasRoom dag.old (length a.now) }
    ensures { Makes (length a.now) dag.old dag.new result (λ v. nat_le k (word_value dag.old a.now v)) }
{
    let mut reached = dag.truth();
    let mut rest = k;
    'bits: for wire in a {
        reached = join(dag, rest % 2 == 1, reached, *wire)?;
        rest = rest / 2;
    }
    if rest == 0 {
        return Ok(reached);
    }
    let truth = dag.truth();
    Ok(dag.not(truth))
}

/// A wire that holds where a word of at most 16 wires is at most a number.
pub fn at_most(dag: &mut Dag, a: &[Wire], k: u32) -> Result<Wire, NoMemory>
    requires a { AreWires dag.old a.now }
    requires short { length a.now ≤ 16 }
    requires room { HasRoom dag.old (length a.now) }
    ensures { Makes (length a.now) dag.old dag.new result (λ v. nat_le (word_value dag.old a.now v) k) }
{
    if k >= 65_535 {
        return Ok(dag.truth());
    }
    let more = at_least(dag, a, k + 1)?;
    Ok(dag.not(more))
}
