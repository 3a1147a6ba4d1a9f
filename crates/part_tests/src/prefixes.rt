// Small lists of blocks, and the blocks of one game.
ghost use Rattle.std.specs.Prelude.{◌≡◌, ◌+◌, ◌≤◌};
ghost use Rattle.bddl_model.specs.Layout as spec;
ghost use Rattle.bddl_model.specs.Prenex.{Cover};
ghost use Rattle.bddl_model.specs.declared.formula.Quant.TheVariants as quant;

use crate::forms::assert_text;
use prenexer::{Block, Quant, Span, merged_blocks, prefix_of};
use qbf_form::Form;
use std::alloc::Global;
use std::process::Abort;
use std::test::Fail;

fn exists(from: u32, len: u32) -> Block
    ensures { result ≡ spec.block quant.Exists (spec.span from len) }
{
    Block {
        quant: Quant::Exists,
        span: Span { from, len },
    }
}

fn all(from: u32, len: u32) -> Block
    ensures { result ≡ spec.block quant.All (spec.span from len) }
{
    Block {
        quant: Quant::All,
        span: Span { from, len },
    }
}

// An empty block parts no neighbours.
#[test]
fn neighbours_of_one_quantifier_become_one_block(rt: HostRuntime) -> Result<(), Fail> {
    let blocks = [
        all(1, 0),
        exists(1, 2),
        all(3, 0),
        exists(3, 2),
        all(5, 2),
        all(7, 1),
        exists(8, 1),
    ];
    let merged = merged_blocks(rt.alloc(), &blocks)?;
    let wanted = [exists(1, 4), all(5, 3), exists(8, 1)];
    assert_eq!(rt; merged.as_slice(), wanted.as_slice());
    Ok(())
}

// On two by two cells with one action a side and two lines of Black: a move of Black, one of White after its sample, a
// move of Black, the claim, White's goal, of which there is none, what refutes it, the place, and
// three gates.
#[test]
fn a_game_of_three_plies_has_five_blocks(rt: HostRuntime) -> Result<(), Fail> {
    let blocks = [
        exists(1, 2),
        exists(3, 2),
        all(5, 2),
        exists(7, 2),
        exists(9, 6),
        all(15, 0),
        exists(15, 0),
        all(15, 2),
        exists(17, 3),
    ];
    let merged = merged_blocks(rt.alloc(), &blocks)?;
    let wanted = [
        exists(1, 4),
        all(5, 2),
        exists(7, 8),
        all(15, 2),
        exists(17, 3),
    ];
    assert_eq!(rt; merged.as_slice(), wanted.as_slice());
    Ok(())
}

// The prefix of these blocks with so many gates behind them, as that of a text.
fn assert_prefix(
    rt: &impl Abort,
    alloc: Global,
    blocks: &[Block],
    inputs: u32,
    gates: u32,
    text: &[u8],
) -> Result<(), Fail>
    requires cover { Cover blocks.now inputs }
    requires few { inputs + gates ≤ 16777215 }
{
    let prefix = prefix_of(alloc, blocks, inputs, gates)?;
    assert_text(rt, alloc, &Form::begin(alloc, prefix), text);
    Ok(())
}

#[test]
fn gates_join_an_existential_block(rt: HostRuntime) -> Result<(), Fail> {
    let text = b"p cnf 4 0\na 1 0\ne 2 3 4 0\n";
    assert_prefix(&rt, rt.alloc(), &[all(1, 1), exists(2, 1)], 2, 2, text)
}

#[test]
fn gates_without_inputs_are_the_whole_prefix(rt: HostRuntime) -> Result<(), Fail> {
    assert_prefix(&rt, rt.alloc(), &[], 0, 3, b"p cnf 3 0\ne 1 2 3 0\n")
}

#[test]
fn without_gates_the_inputs_are_the_whole_prefix(rt: HostRuntime) -> Result<(), Fail> {
    assert_prefix(&rt, rt.alloc(), &[all(1, 2)], 2, 0, b"p cnf 2 0\na 1 2 0\n")
}
