// The small game.
ghost use Rattle.std.specs.Prelude.{◌≡◌, IfOk};
ghost use Rattle.bddl_model.specs.Trial as trial;

use crate::draws::Draws;
use crate::items::test_at;
use bddl_model::{InitList, LineList, Mark, NoMemory, ProblemText, Side, TestList};
use std::alloc::Global;

// Two cells of Black, the second one so far from the first.
fn two(alloc: Global, x: i32, y: i32) -> Result<TestList, NoMemory>
    ensures { IfOk result (λ line. line ≡ trial.two x y) }
{
    let mut line = TestList::new(alloc);
    line.push(test_at(Mark::Black, 0, 0))?;
    line.push(test_at(Mark::Black, x, y))?;
    Ok(line)
}

pub fn small(alloc: Global, number: u64) -> Result<ProblemText, NoMemory>
    ensures { IfOk result (λ problem. problem ≡ trial.small number) }
{
    let mut draws = Draws::of(number);
    let depth = 1 + draws.draw(3);
    let mut black = LineList::new(alloc);
    black.push(two(alloc, 1, 0)?)?;
    if draws.draw(2) == 1 {
        black.push(two(alloc, 0, 1)?)?;
    }
    Ok(ProblemText {
        width: 2,
        height: 2,
        init: InitList::new(alloc),
        depth,
        first: Side::Black,
        black,
        white: LineList::new(alloc),
    })
}
