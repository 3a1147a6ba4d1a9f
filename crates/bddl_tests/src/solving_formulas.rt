// The request `qsolve`: values, the first block's values, steps that are spent, and faults of texts.

use crate::answers::assert_answer;
use io_edge::MemoryShelf;
use std::alloc::Global;
use std::process::Abort;
use std::test::Fail;

// A formula, a budget, and how the request ends: its status, and what it writes.
#[derive(Clone, Copy)]
struct Solved<'a> {
    text: &'a [u8],
    budget: &'a [u8],
    status: u8,
    out: &'a [u8],
}

fn assert_solved(rt: &impl Abort, alloc: Global, rows: &[Solved<'_>]) -> Result<(), Fail> {
    for row in rows {
        let mut shelf = MemoryShelf::new(alloc);
        shelf.put_file(b"f", row.text)?;
        let words: [&[u8]; 3] = [b"qsolve", b"f", row.budget];
        assert_answer(rt, alloc, &words, &mut shelf, row.status, row.out, b"")?;
    }
    Ok(())
}

#[test]
fn values_are_told_with_those_of_the_first_block(rt: HostRuntime) -> Result<(), Fail> {
    let cases: [(&[u8], u8, &[u8]); 8] = [
        (
            b"p cnf 2 2\na 1 0\ne 2 0\n1 -2 0\n-1 2 0\n",
            10,
            b"s cnf 1 2 2\n",
        ),
        (
            b"p cnf 2 2\ne 2 0\na 1 0\n1 -2 0\n-1 2 0\n",
            20,
            b"s cnf 0 2 2\n",
        ),
        (
            b"p cnf 2 2\ne 1 2 0\n1 0\n-2 0\n",
            10,
            b"s cnf 1 2 2\nV 1 0\nV -2 0\n",
        ),
        (b"p cnf 1 1\n-1 0\n", 10, b"s cnf 1 1 1\nV -1 0\n"),
        (b"p cnf 0 0\n", 10, b"s cnf 1 0 0\n"),
        (b"p cnf 0 1\n0\n", 20, b"s cnf 0 0 1\n"),
        // A universal first block, under whose values the rest is false.
        (
            b"p cnf 3 2\na 1 2 0\ne 3 0\n1 -2 3 0\n1 -2 -3 0\n",
            20,
            b"s cnf 0 3 2\nV -1 0\nV 2 0\n",
        ),
        // A variable in no set stands before all others.
        (
            b"p cnf 3 2\na 1 0\ne 2 0\n1 2 3 0\n-1 -2 3 0\n",
            10,
            b"s cnf 1 3 2\nV 3 0\n",
        ),
    ];
    for (text, status, out) in cases {
        let row = Solved {
            text,
            budget: b"1000",
            status,
            out,
        };
        assert_solved(&rt, rt.alloc(), &[row])?;
    }
    Ok(())
}

#[test]
fn steps_may_be_spent(rt: HostRuntime) -> Result<(), Fail> {
    let rows = [
        Solved {
            text: b"p cnf 1 1\n1 0\n",
            budget: b"0",
            status: 30,
            out: b"s cnf -1 1 1\n",
        },
        Solved {
            text: b"p cnf 1 1\n1 0\n",
            budget: b"1",
            status: 10,
            out: b"s cnf 1 1 1\nV 1 0\n",
        },
        Solved {
            text: b"p cnf 42 4\ne 1 2 3 4 5 6 7 8 9 10 11 12 13 14 15 16 17 18 19 20 21 22 23 24 25 26 27 28 29 30 31 32 33 34 35 36 37 38 39 40 41 42 0\n41 42 0\n41 -42 0\n-41 42 0\n-41 -42 0\n",
            budget: b"1000",
            status: 30,
            out: b"s cnf -1 42 4\n",
        },
    ];
    assert_solved(&rt, rt.alloc(), &rows)
}

// No variable of the problem line is in the form.
#[test]
fn a_form_without_variables_takes_no_step(rt: HostRuntime) -> Result<(), Fail> {
    let row = Solved {
        text: b"p cnf 16777215 0\n",
        budget: b"0",
        status: 10,
        out: b"s cnf 1 16777215 0\n",
    };
    assert_solved(&rt, rt.alloc(), &[row])
}

// A text that is refused, with its note.
fn assert_refused(rt: &impl Abort, alloc: Global, text: &[u8], note: &[u8]) -> Result<(), Fail> {
    let mut shelf = MemoryShelf::new(alloc);
    shelf.put_file(b"f", text)?;
    let words: [&[u8]; 3] = [b"qsolve", b"f", b"1000"];
    assert_answer(rt, alloc, &words, &mut shelf, 2, b"", note)
}

#[test]
fn faults_of_texts_are_told_with_their_lines(rt: HostRuntime) -> Result<(), Fail> {
    let cases: [(&[u8], &[u8]); 10] = [
        (b"", b"qdimacs:1: no problem line\n"),
        (b"p cnf 1 x", b"qdimacs:1: bad word\n"),
        (
            b"p cnf 16777216 0\n",
            b"qdimacs:1: 16777216 variables are over 16777215\n",
        ),
        (
            b"p cnf 1 1\n2 0\n",
            b"qdimacs:2: literal 2 is out of range\n",
        ),
        (
            b"p cnf 1 1\n\n-2 0\n",
            b"qdimacs:3: literal -2 is out of range\n",
        ),
        (
            b"p cnf 1 0\ne 1 1 0\n",
            b"qdimacs:2: variable 1 is bound twice\n",
        ),
        (
            b"p cnf 1 1\n1 0\na 1 0\n",
            b"qdimacs:3: quantifier after a clause\n",
        ),
        (b"p cnf 1 1\n1", b"qdimacs:2: text ends early\n"),
        (
            b"p cnf 1 2\ne 1 0\n1 0\n",
            b"qdimacs: count differs: said 2, found 1\n",
        ),
        (b"c p cnf 1 0\n p", b"qdimacs:2: text ends early\n"),
    ];
    for (text, note) in cases {
        assert_refused(&rt, rt.alloc(), text, note)?;
    }
    Ok(())
}
