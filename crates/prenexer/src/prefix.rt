// The prefix of blocks.
ghost use Rattle.std.specs.Prelude.{◌≡◌, ◌≤◌, ◌<◌, ◌+◌, ℕ, false, ◌++◌, map, IfOk, OnOk};
ghost use Rattle.std.specs.List.{range_with_len};
ghost use Rattle.bddl_model.specs.Forms.{greatest_variables, has_number, prefix_variables};
ghost use Rattle.bddl_model.specs.FormulaText.{sets_of};
ghost use Rattle.bddl_model.specs.Layout as spec;
ghost use Rattle.bddl_model.specs.Prenex.{Cover, merged, set_of, with_gates};

use crate::merge::merged_blocks;
use bddl_model::{Block, NoMemory, Quant, Span, Var};
use qbf_form::Prefix;
use std::alloc::Global;

// The blocks of the inputs, and behind them that of the gates.
fn inputs_and_gates(
    alloc: Global,
    blocks: &[Block],
    inputs: u32,
    gates: u32,
) -> Result<Vec<Block>, NoMemory>
    requires { inputs ≤ greatest_variables }
    ensures { IfOk result (λ bs. bs.items ≡ with_gates blocks.now inputs gates) }
{
    let mut whole = Vec::new(alloc);
    whole.extend_from_slice(blocks)?;
    whole.push(Block {
        quant: Quant::Exists,
        span: Span {
            from: inputs + 1,
            len: gates,
        },
    })?;
    Ok(whole)
}

// Adds the variables of a block behind the others.
fn push_block(prefix: &mut Prefix, block: Block) -> Result<(), NoMemory>
    requires { (v : ℕ) → block.span.from ≤ v → v < block.span.from + block.span.len
        → (1 ≤ v) × (v ≤ greatest_variables) × (has_number (prefix_variables prefix.old) v ≡ false) }
    ensures { OnOk result (prefix.new ≡ prefix.old ++ spec.bounds block.quant block.span.from block.span.len) }
{
    let Span { from, len } = block.span;
    for number in from..from + len {
        prefix.push(block.quant, Var(number))?;
    }
    Ok(())
}

// The prefix of blocks that bind the variables from 1 on.
fn prefix_of_blocks(alloc: Global, blocks: &[Block]) -> Result<Prefix, NoMemory>
    requires { (n : ℕ) × (n ≤ greatest_variables) × Cover blocks.now n }
    ensures { IfOk result (λ p. p ≡ spec.prefix_of blocks.now) }
{
    let mut prefix = Prefix::empty(alloc);
    for block in blocks {
        push_block(&mut prefix, *block)?;
    }
    Ok(prefix)
}

/// The prefix of the inputs' blocks, outermost first, with the gate variables of a circuit behind
/// them, which are existential. Neighbours of one quantifier become one block, so the gates join
/// the last block of the inputs where that is existential. `gates` counts the variables behind the
/// inputs, of which the first is that of the node that is true.
pub fn prefix_of(
    alloc: Global,
    blocks: &[Block],
    inputs: u32,
    gates: u32,
) -> Result<Prefix, NoMemory>
    requires cover { Cover blocks.now inputs }
    requires few { inputs + gates ≤ greatest_variables }
    ensures order { IfOk result (λ p. p ≡ spec.prefix_of (with_gates blocks.now inputs gates)) }
    ensures covered { IfOk result (λ p. prefix_variables p ≡ range_with_len 1 (inputs + gates)) }
    ensures merged { IfOk result (λ p. sets_of p ≡ map set_of (merged (with_gates blocks.now inputs gates))) }
{
    let whole = inputs_and_gates(alloc, blocks, inputs, gates)?;
    let merged = merged_blocks(alloc, &whole)?;
    prefix_of_blocks(alloc, &merged)
}
