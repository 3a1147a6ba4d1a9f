// The words of each test are numbers, so each answer is a wire that holds always or never.
ghost use Rattle.std.specs.Prelude.{◌≡◌, ◌≤◌, length, pos, negsuc, ◌≤ℤ◌, IfOk};
ghost use Rattle.bddl_model.specs.Circuit.{IsWire};
ghost use Rattle.bddl_model.specs.Growth.{HasRoom};
ghost use Rattle.bddl_model.specs.Words.{AreWires};

use crate::wires::{bit, word};
use bddl_model::{NoMemory, Wire};
use bit_arith::{
    add_const, all_of, any_of, at_least, at_most, choose, equal, equal_const, less, or_both,
};
use circuit_dag::Dag;
use std::alloc::Global;
use std::process::Abort;
use std::test::Fail;

// What is asked of a word: its number beside that of another word, or beside a plain number.
#[derive(Clone, Copy, Debug)]
enum Question {
    Equal,
    EqualConst,
    AtLeast,
    AtMost,
    Less,
    All,
    Any,
}

fn answer(
    dag: &mut Dag,
    question: Question,
    word: &[Wire],
    other: &[Wire],
    number: u32,
) -> Result<Wire, NoMemory>
    requires word { AreWires dag.old word.now }
    requires other { AreWires dag.old other.now }
    requires lengths { length word.now ≡ length other.now }
    requires short { length word.now ≤ 4 }
    requires room { HasRoom dag.old 100 }
    ensures { IfOk result (IsWire dag.new) }
{
    match question {
        Question::Equal => equal(dag, word, other),
        Question::EqualConst => equal_const(dag, word, number),
        Question::AtLeast => at_least(dag, word, number),
        Question::AtMost => at_most(dag, word, number),
        Question::Less => less(dag, word, other),
        Question::All => all_of(dag, word),
        Question::Any => any_of(dag, word),
    }
}

// What is so of a number in so many bits, and of another number.
fn is_so(question: Question, a: u32, b: u32, count: u32) -> bool {
    let limit = 1u32.wrapping_shl(count);
    match question {
        Question::Equal => a == b % limit.max(1),
        Question::EqualConst => a == b,
        Question::AtLeast => a >= b,
        Question::AtMost => a <= b,
        Question::Less => a < b % limit.max(1),
        Question::All => a == limit.wrapping_sub(1),
        Question::Any => a != 0,
    }
}

// Whether the circuit answers of these numbers what is so.
fn agrees(alloc: Global, question: Question, a: u32, b: u32, count: u32) -> Result<bool, NoMemory>
    requires { count ≤ 4 }
{
    let mut dag = Dag::new(alloc, 0)?;
    let left = word(alloc, &dag, a, count)?;
    let right = word(alloc, &dag, b, count)?;
    let wire = answer(&mut dag, question, &left, &right, b)?;
    Ok(wire == bit(&dag, is_so(question, a, b, count)))
}

// Each number of so many bits beside numbers of up to five bits, and beside the greatest of all.
fn assert_agrees(
    rt: &impl Abort,
    alloc: Global,
    question: Question,
    count: u32,
) -> Result<(), Fail> {
    assert!(rt; count <= 4);
    let limit = 1u32.wrapping_shl(count).max(1);
    for pair in 0..33 * limit {
        let a = pair % limit;
        let b = if pair / limit < 32 {
            pair / limit
        } else {
            u32::MAX
        };
        assert!(rt;
            agrees(alloc, question, a, b, count)?,
            "{question:?} of {a} and {b}"
        );
    }
    Ok(())
}

// Words of four wires, and words without wires, which are zero.
#[test]
fn numbers_of_words_are_compared(rt: HostRuntime) -> Result<(), Fail> {
    for question in [
        Question::Equal,
        Question::EqualConst,
        Question::AtLeast,
        Question::AtMost,
        Question::Less,
        Question::All,
        Question::Any,
    ] {
        assert_agrees(&rt, rt.alloc(), question, 4)?;
        assert_agrees(&rt, rt.alloc(), question, 0)?;
    }
    Ok(())
}

// Whether these are the bits of a number, least bit first.
fn has_value(dag: &Dag, digits: &[Wire], number: u32) -> bool {
    let mut rest = number;
    for digit in digits {
        if *digit != bit(dag, rest % 2 == 1) {
            return false;
        }
        rest = rest / 2;
    }
    rest == 0
}

// Whether this is the sum of a number of two bits and another number.
fn sum_is(alloc: Global, a: u32, k: i32, width: u32, sum: u32) -> Result<bool, NoMemory>
    requires number { (negsuc 32767 ≤ℤ k) × (k ≤ℤ pos 32767) }
    requires width { (2 ≤ width) × (width ≤ 16) }
{
    let mut dag = Dag::new(alloc, 0)?;
    let word = [bit(&dag, a % 2 == 1), bit(&dag, a / 2 == 1)];
    let digits = add_const(alloc, &mut dag, &word, k, width)?;
    Ok(has_value(&dag, &digits, sum))
}

#[test]
fn sums_wrap_at_the_width(rt: HostRuntime) -> Result<(), Fail> {
    for (a, k, width, sum) in [
        (3, 0, 2, 3),
        (3, 1, 2, 0),
        (3, -1, 3, 2),
        (3, -4, 3, 7),
        (0, -1, 3, 7),
        (2, 5, 3, 7),
        (3, 5, 3, 0),
        (3, 32_767, 3, 2),
        (3, -32_768, 3, 3),
        (3, 32_767, 16, 32_770),
        (3, -32_768, 16, 32_771),
        (0, -1, 16, 65_535),
        (1, -32_768, 16, 32_769),
    ] {
        assert!(rt; 2 <= width && width <= 16 && -32_768 <= k && k <= 32_767);
        assert!(rt;
            sum_is(rt.alloc(), a, k, width, sum)?,
            "{a} and {k} in {width} bits"
        );
    }
    Ok(())
}

fn choice_is(alloc: Global, s: bool, a: bool, b: bool, chosen: bool) -> Result<bool, NoMemory> {
    let mut dag = Dag::new(alloc, 0)?;
    let (first, second, third) = (bit(&dag, s), bit(&dag, a), bit(&dag, b));
    let wire = choose(&mut dag, first, second, third)?;
    Ok(wire == bit(&dag, chosen))
}

#[test]
fn one_of_two_wires_is_chosen(rt: HostRuntime) -> Result<(), Fail> {
    for (s, a, b, chosen) in [
        (true, true, false, true),
        (true, false, true, false),
        (false, true, false, false),
        (false, false, true, true),
    ] {
        assert!(rt; choice_is(rt.alloc(), s, a, b, chosen)?);
    }
    Ok(())
}

fn one_or_both_is(
    alloc: Global,
    known: bool,
    a: bool,
    b: bool,
    holds: bool,
) -> Result<bool, NoMemory> {
    let mut dag = Dag::new(alloc, 0)?;
    let (first, second, third) = (bit(&dag, known), bit(&dag, a), bit(&dag, b));
    let wire = or_both(&mut dag, first, second, third)?;
    Ok(wire == bit(&dag, holds))
}

#[test]
fn one_wire_or_both_of_two_hold(rt: HostRuntime) -> Result<(), Fail> {
    for number in 0..8 {
        let (known, a, b) = (number % 2 == 1, number / 2 % 2 == 1, number / 4 == 1);
        assert!(rt; one_or_both_is(rt.alloc(), known, a, b, known || a && b)?);
    }
    Ok(())
}
