// The large game.
ghost use Rattle.std.specs.Prelude.{◌≡◌, ◌+◌, ◌<◌, ◌≤◌, ◌≤ℤ◌, pos, negsuc, IfOk};
ghost use Rattle.std.specs.List.{list_any};
ghost use Rattle.bddl_model.specs.Check.{same_cell};
ghost use Rattle.bddl_make.specs.Steps.{IsStep};
ghost use Rattle.bddl_model.specs.Trial as trial;

use crate::draws::Draws;
use crate::items::test_at;
use bddl_model::{InitAtom, InitList, LineList, Mark, NoMemory, ProblemText, Side, TestList};
use std::alloc::Global;

// Five cells from the anchor on, each so many columns and rows behind the one before.
fn five(alloc: Global, mark: Mark, x: i32, y: i32) -> Result<TestList, NoMemory>
    requires step { IsStep x × IsStep y }
    ensures { IfOk result (λ line. line ≡ trial.five mark x y) }
{
    let mut line = TestList::new(alloc);
    line.push(test_at(mark, 0, 0))?;
    line.push(test_at(mark, x, y))?;
    line.push(test_at(mark, 2 * x, 2 * y))?;
    line.push(test_at(mark, 3 * x, 3 * y))?;
    line.push(test_at(mark, 4 * x, 4 * y))?;
    Ok(line)
}

// In a row, in a column, and on both diagonals.
fn fives(alloc: Global, mark: Mark) -> Result<LineList, NoMemory>
    ensures { IfOk result (λ lines. lines ≡ trial.fives mark) }
{
    let mut lines = LineList::new(alloc);
    lines.push(five(alloc, mark, 1, 0)?)?;
    lines.push(five(alloc, mark, 0, 1)?)?;
    lines.push(five(alloc, mark, 1, 1)?)?;
    lines.push(five(alloc, mark, 1, -1)?)?;
    Ok(lines)
}

fn stone(draws: &mut Draws, width: u32, height: u32) -> InitAtom
    requires width { 0 < width × width ≤ 16 }
    requires height { 0 < height × height ≤ 16 }
    requires few { draws.old.count < 900 }
    ensures drawn { result ≡ trial.stone_at draws.old.number draws.old.count width height }
    ensures next { draws.new ≡ record draws.old { count = draws.old.count + 3 } }
{
    let x = 1 + draws.draw(width);
    let y = 1 + draws.draw(height);
    let mark = if draws.draw(2) == 0 {
        Mark::Black
    } else {
        Mark::White
    };
    InitAtom { mark, x, y }
}

fn is_named(earlier: &[InitAtom], stone: InitAtom) -> bool
    ensures { result ≡ list_any (same_cell stone) earlier.now }
{
    earlier
        .iter()
        .any(|cell| stone.x == cell.x && stone.y == cell.y)
}

// Twenty stones, but for those whose cells are named already.
fn stones(alloc: Global, draws: &mut Draws, width: u32, height: u32) -> Result<InitList, NoMemory>
    requires begun { draws.old.count ≡ 3 }
    requires width { width ≡ trial.large_width draws.old.number }
    requires height { height ≡ trial.large_height draws.old.number }
    ensures { IfOk result (λ init. init ≡ trial.stones draws.old.number 20) }
{
    let mut init = InitList::new(alloc);
    for _place in 0..20u32 {
        let stone = stone(draws, width, height);
        if !is_named(init.as_slice(), stone) {
            init.push(stone)?;
        }
    }
    Ok(init)
}

pub fn large(alloc: Global, number: u64) -> Result<ProblemText, NoMemory>
    ensures { IfOk result (λ problem. problem ≡ trial.large number) }
{
    let mut draws = Draws::of(number);
    let width = 12 + draws.draw(5);
    let height = 12 + draws.draw(5);
    let depth = 5 + 2 * draws.draw(3);
    Ok(ProblemText {
        width,
        height,
        init: stones(alloc, &mut draws, width, height)?,
        depth,
        first: Side::Black,
        black: fives(alloc, Mark::Black)?,
        white: fives(alloc, Mark::White)?,
    })
}
