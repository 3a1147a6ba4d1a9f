// The form of a game, and its text.
use crate::setups::{is_board_of, setup_of};
use io_edge::SteadySink;
use offset_check::Setup;
use qdimacs_io::write_qdimacs;
use std::alloc::Global;
use std::process::Abort;
use std::test::Fail;
use strategy::{compile_game, compile_to};

// The form of a game has the text that is written without a form, and its layout this many inputs.
fn assert_written(
    rt: &impl Abort,
    alloc: Global,
    domain: &str,
    problem: &str,
    inputs: u32,
) -> Result<(), Fail> {
    let Setup {
        game,
        board,
        first,
        depth,
    } = setup_of(alloc, domain, problem)?;
    assert!(rt; is_board_of(&game, &board) && depth <= 31);
    let compiled = compile_game(alloc, &game, &board, first, depth)?;
    assert_eq!(rt; compiled.layout.inputs, inputs);
    let mut of_form = SteadySink::new(alloc);
    assert_eq!(rt; write_qdimacs(&compiled.form, &mut of_form), Ok(()));
    let mut of_game = SteadySink::new(alloc);
    let end = compile_to(alloc, &game, &board, first, depth, &mut of_game);
    assert_eq!(rt; end, Ok(()));
    assert!(rt; !of_form.bytes().is_empty());
    assert_eq!(rt; of_form.bytes(), of_game.bytes());
    Ok(())
}

#[test]
fn a_game_has_one_text(rt: HostRuntime) -> Result<(), Fail> {
    let occupy =
        "#blackactions :action occupy :parameters (?x,?y) :precondition (open(?x,?y)) :effect (black(?x,?y))
#whiteactions :action occupy :parameters (?x,?y) :precondition (open(?x,?y)) :effect (white(?x,?y))";
    for (problem, inputs) in [
        (
            "#boardsize 2 1 #init () #depth 3 #blackgoals (black(?x,?y) black(?x+1,?y)) #whitegoals",
            9,
        ),
        (
            "#boardsize 2 1 #init () #depth 0 #blackgoals (NOT(black(?x,?y))) #whitegoals (white(1,1))",
            4,
        ),
    ] {
        assert_written(&rt, rt.alloc(), occupy, problem, inputs)?;
    }
    Ok(())
}
