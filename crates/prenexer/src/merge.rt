// Blocks with neighbours of one quantifier as one.
ghost use Rattle.std.specs.Prelude.{◌≡◌, ◌≤◌, ◌+◌, ℕ, List, [], ◌∷◌, ◌++◌, IfOk, OnOk, sum_by};
ghost use Rattle.bddl_model.specs.declared.formula.Block.{Block};
ghost use Rattle.bddl_model.specs.Forms.{greatest_variables};
ghost use Rattle.bddl_model.specs.Prenex.{Cover, merged};

use bddl_model::{Block, NoMemory};
use std::alloc::Global;

// Adds a block behind merged ones: it joins the last one if that has its quantifier.
fn add_block(blocks: &mut Vec<Block>, block: Block) -> Result<(), NoMemory>
    requires { sum_by (λ b. b.span.len) blocks.old.items + block.span.len ≤ greatest_variables }
    ensures { OnOk result ((bs : List Block) → blocks.old.items ≡ merged bs → blocks.new.items ≡ merged (bs ++ block ∷ [])) }
{
    if block.span.len == 0 {
        return Ok(());
    }
    match blocks.last_mut() {
        Some(last) if last.quant == block.quant => last.span.len += block.span.len,
        _ => blocks.push(block)?,
    }
    Ok(())
}

/// The blocks in their order, without empty ones, and with neighbours of one quantifier as one.
pub fn merged_blocks(alloc: Global, blocks: &[Block]) -> Result<Vec<Block>, NoMemory>
    requires { (n : ℕ) × (n ≤ greatest_variables) × Cover blocks.now n }
    ensures { IfOk result (λ bs. bs.items ≡ merged blocks.now) }
{
    let mut merged = Vec::new(alloc);
    for block in blocks {
        add_block(&mut merged, *block)?;
    }
    Ok(merged)
}
