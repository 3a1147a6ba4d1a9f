// Codes of small shapes.
ghost use Rattle.std.specs.Prelude.{◌≡◌, length, IfOk};
ghost use Rattle.bddl_model.specs.Codes.{IsPlaced, code_length};

use bddl_model::{Move, NoMemory};
use move_code::{Shape, bits, bits_of, move_of};
use std::alloc::Global;
use std::test::Fail;

#[test]
fn a_number_needs_the_bits_of_those_below_it(rt: HostRuntime) {
    for (number, want) in [
        (0, 0),
        (1, 0),
        (2, 1),
        (3, 2),
        (256, 8),
        (257, 9),
        (u32::MAX, 32),
    ] {
        assert_eq!(rt; bits(number), want);
    }
}

fn shape(actions: u32, width: u32, height: u32) -> Shape {
    Shape {
        actions,
        width,
        height,
    }
}

fn code_of(alloc: Global, shape: &Shape, mv: Move) -> Result<Vec<bool>, NoMemory>
    requires { IsPlaced shape.now mv }
    ensures { IfOk result (λ code. length code.items ≡ code_length shape.now) }
{
    let mut code = Vec::new(alloc);
    code.resize(shape.len() as usize, false)?;
    bits_of(shape, mv, &mut code);
    Ok(code)
}

#[test]
fn the_column_stands_before_the_row(rt: HostRuntime) -> Result<(), Fail> {
    let shape = Shape {
        actions: 1,
        width: 2,
        height: 2,
    };
    let right = Move {
        action: 0,
        x: 2,
        y: 1,
    };
    let code = code_of(rt.alloc(), &shape, right)?;
    assert_eq!(rt; code.as_slice(), [true, false].as_slice());
    Ok(())
}

#[test]
fn the_action_stands_first_by_its_least_bit(rt: HostRuntime) -> Result<(), Fail> {
    let shape = Shape {
        actions: 3,
        width: 2,
        height: 2,
    };
    let second = Move {
        action: 1,
        x: 1,
        y: 2,
    };
    let code = code_of(rt.alloc(), &shape, second)?;
    assert_eq!(rt; code.as_slice(), [true, false, false, true].as_slice());
    Ok(())
}

// An action past the last, a column past the last, and a side without actions, whose code has no bits.
#[test]
fn other_codes_are_no_moves(rt: HostRuntime) {
    for (shape, length) in [
        (shape(3, 1, 1), 2),
        (shape(1, 3, 1), 2),
        (shape(0, 5, 3), 0),
    ] {
        assert!(rt; shape.len() == length);
        assert_eq!(rt; move_of(&shape, &[true; 2][..length as usize]), None);
    }
}

#[test]
fn each_move_is_read_back_from_its_code(rt: HostRuntime) -> Result<(), Fail> {
    let shape = Shape {
        actions: 3,
        width: 5,
        height: 3,
    };
    for number in 0..45 {
        let mv = Move {
            action: number / 15,
            x: number % 5 + 1,
            y: number / 5 % 3 + 1,
        };
        let code = code_of(rt.alloc(), &shape, mv)?;
        assert_eq!(rt; move_of(&shape, &code), Some(mv));
    }
    Ok(())
}
