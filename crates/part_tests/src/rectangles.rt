// The rectangle of the anchors from which all cells are on the board.
use bddl_model::{Atom, Mark, Rect, Term, Test};
use grid_game::rect_of;

fn atom(mark: Mark, x: Term, y: Term) -> Atom {
    Atom { mark, x, y }
}

fn is(atom: Atom) -> Test {
    Test {
        atom,
        negated: false,
    }
}

fn rect(x_low: u32, x_high: u32, y_low: u32, y_high: u32) -> Option<Rect> {
    Some(Rect {
        x_low,
        x_high,
        y_low,
        y_high,
    })
}

#[test]
fn both_lists_narrow_the_board(rt: HostRuntime) {
    let right = [atom(Mark::Black, Term::Rel(1), Term::Rel(0))];
    let left = [atom(Mark::White, Term::Rel(-1), Term::Abs(1))];
    let above = [atom(Mark::Free, Term::Rel(0), Term::Rel(-1))];
    let (to_the_right, to_the_left, upwards) = (right.map(is), left.map(is), above.map(is));
    let cases: [(u32, &[Test], &[Atom], Option<Rect>); 6] = [
        (3, &[], &[], rect(1, 3, 1, 2)),
        (3, &to_the_right, &[], rect(1, 2, 1, 2)),
        (3, &[], &left, rect(2, 3, 1, 2)),
        (3, &to_the_right, &left, rect(2, 2, 1, 2)),
        (3, &upwards, &left, rect(2, 3, 2, 2)),
        (2, &to_the_left, &right, None),
    ];
    for (width, tests, effects, want) in &cases {
        assert_eq!(rt; rect_of(*width, 2, tests, effects), *want);
    }
}

#[test]
fn the_longest_shift_leaves_one_column(rt: HostRuntime) {
    for (shift, want) in [
        (63, rect(1, 1, 1, 64)),
        (-63, rect(64, 64, 1, 64)),
        (64, None),
        (-64, None),
        (i32::MAX, None),
        (i32::MIN, None),
    ] {
        let far = [atom(Mark::Free, Term::Rel(shift), Term::Rel(0))];
        assert_eq!(rt; rect_of(64, 64, &[], &far), want, "at {shift}");
    }
}

#[test]
fn a_number_off_the_side_fits_nowhere(rt: HostRuntime) {
    for (number, want) in [
        (0, None),
        (1, rect(1, 3, 1, 2)),
        (2, rect(1, 3, 1, 2)),
        (3, None),
    ] {
        let row = [is(atom(Mark::Free, Term::Rel(0), Term::Abs(number)))];
        assert_eq!(rt; rect_of(3, 2, &row, &[]), want, "at {number}");
    }
}
