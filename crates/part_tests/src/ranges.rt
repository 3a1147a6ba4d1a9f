// The bits of each code are constants, so the answer is a wire that holds always or never.
use crate::setups::setup_of;
use crate::wires::{bit, word};
use bddl_model::{NoMemory, Side};
use circuit_dag::Dag;
use grid_game::Game;
use move_code::{Shape, in_range};
use offset_check::Setup;
use std::alloc::Global;
use std::test::Fail;

// Three actions of Black, and none of White. The first needs a cell to the right of the anchor, the
// last one above it.
const THREE_ACTIONS: &str = "#blackactions
:action right :parameters (?x,?y) :precondition () :effect (black(?x+1,?y))
:action here :parameters (?x,?y) :precondition () :effect (black(?x,?y))
:action above :parameters (?x,?y) :precondition () :effect (black(?x,?y-1))
#whiteactions";

const THREE_BY_TWO: &str = "#boardsize 3 2 #init () #depth 1 #blackgoals #whitegoals";

// Whether the circuit says of the code of this number what is wanted.
fn range_is(
    alloc: Global,
    game: &Game,
    side: Side,
    number: u32,
    wanted: bool,
) -> Result<bool, NoMemory> {
    game.keeps_the_limits();
    let mut dag = Dag::new(alloc, 0)?;
    let code = word(alloc, &dag, number, Shape::of(game, side).len())?;
    let wire = in_range(&mut dag, game, side, &code)?;
    Ok(wire == bit(&dag, wanted))
}

// Whether the code of this number is one of a move whose cells are on the board of 3 by 2.
fn fits(number: u32) -> bool {
    let (x, y) = (number / 4 % 4 + 1, number / 16 + 1);
    match number % 4 {
        0 => x <= 2,
        1 => x <= 3,
        2 => x <= 3 && y == 2,
        _ => false,
    }
}

#[test]
fn a_code_is_in_range_where_its_cells_are_on_the_board(rt: HostRuntime) -> Result<(), Fail> {
    let Setup { game, .. } = setup_of(rt.alloc(), THREE_ACTIONS, THREE_BY_TWO)?;
    for number in 0..32 {
        assert!(rt; range_is(rt.alloc(), &game, Side::Black, number, fits(number))?);
    }
    assert!(rt; range_is(rt.alloc(), &game, Side::White, 0, false)?);
    Ok(())
}
