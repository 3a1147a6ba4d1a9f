// Formula texts: the forms that are read from them, and what is wrong with them.
use crate::forms::assert_read;
use bddl_model::QFault;
use qdimacs_io::read_qdimacs;
use std::alloc::Global;
use std::process::Abort;

fn fault_of(rt: &impl Abort, alloc: Global, text: &[u8]) -> Option<QFault> {
    assert!(rt; text.len() <= 67_108_864);
    match read_qdimacs(alloc, text) {
        Ok(_) => None,
        Err(fault) => Some(fault),
    }
}

fn assert_faults(rt: &impl Abort, alloc: Global, cases: &[(&[u8], QFault)]) {
    for (text, fault) in cases {
        assert_eq!(rt; fault_of(rt, alloc, text), Some(*fault), "{text:?}");
    }
}

fn assert_bad_words(rt: &impl Abort, alloc: Global, line: u32, texts: &[&[u8]]) {
    for text in texts {
        assert_eq!(rt;
            fault_of(rt, alloc, text),
            Some(QFault::BadWord { line }),
            "{text:?}"
        );
    }
}

// ---- forms

#[test]
fn a_written_text_is_read_as_it_stands(rt: HostRuntime) {
    let cases: [(&[u8], u32, u64); 6] = [
        (b"p cnf 2 2\na 1 0\ne 2 0\n1 -2 0\n-1 2 0\n", 2, 2),
        (b"p cnf 2 2\ne 2 0\na 1 0\n1 -2 0\n-1 2 0\n", 2, 2),
        (b"p cnf 2 2\ne 1 2 0\n1 0\n-2 0\n", 2, 2),
        (b"p cnf 0 0\n", 0, 0),
        (b"p cnf 0 1\n0\n", 0, 1),
        (b"p cnf 3 0\ne 2 0\na 3 0\n", 3, 0),
    ];
    for (text, variables, clauses) in cases {
        assert_read(&rt, rt.alloc(), text, (variables, clauses), text);
    }
}

#[test]
fn a_variable_in_no_set_exists_outermost(rt: HostRuntime) {
    let cases: [(&[u8], u32, &[u8]); 3] = [
        (b"p cnf 1 1\n-1 0\n", 1, b"p cnf 1 1\ne 1 0\n-1 0\n"),
        (
            b"p cnf 5 1\na 2 0\n4 2 -3 0\n",
            5,
            b"p cnf 4 1\ne 3 4 0\na 2 0\n4 2 -3 0\n",
        ),
        (
            b"p cnf 3 1\ne 2 0\n3 -1 0\n",
            3,
            b"p cnf 3 1\ne 1 3 2 0\n3 -1 0\n",
        ),
    ];
    for (text, variables, written) in cases {
        assert_read(&rt, rt.alloc(), text, (variables, 1), written);
    }
}

#[test]
fn doubled_literals_go_and_clauses_with_opposites_go(rt: HostRuntime) {
    assert_read(
        &rt,
        rt.alloc(),
        b"p cnf 3 4\na 3 0\n1 3 1 -2 3 1 0\n2 1 -2 0\n3 -3 0\n0\n",
        (3, 4),
        b"p cnf 3 2\ne 1 2 0\na 3 0\n1 3 -2 0\n0\n",
    );
    assert_read(
        &rt,
        rt.alloc(),
        b"p cnf 2 2\n-1 -1 1 0 1 0\n",
        (2, 2),
        b"p cnf 1 1\ne 1 0\n1 0\n",
    );
}

#[test]
fn neighbours_of_one_quantifier_are_one_block(rt: HostRuntime) {
    assert_read(
        &rt,
        rt.alloc(),
        b"p cnf 4 0\ne 0 e 2 0 a 0 e 1\n0\na 4 0 a 0 a 3 0\n",
        (4, 0),
        b"p cnf 4 0\ne 2 1 0\na 4 3 0\n",
    );
}

#[test]
fn spaces_lines_and_comments_mean_nothing_else(rt: HostRuntime) {
    assert_read(
        &rt,
        rt.alloc(),
        b"c p cnf 9 9\n \tc\x00\xff\np\tcnf\r\n\r\n02\n\tc -0 +1\n001 e\ncnf 7\n1\n 2 0 -2\nc\n-000000001 0",
        (2, 1),
        b"p cnf 2 1\ne 1 2 0\n-2 -1 0\n",
    );
}

#[test]
fn the_greatest_number_of_variables(rt: HostRuntime) {
    let text = b"p cnf 16777215 1\ne 16777215 0\n-16777215 0";
    assert_read(
        &rt,
        rt.alloc(),
        text,
        (16_777_215, 1),
        b"p cnf 16777215 1\ne 16777215 0\n-16777215 0\n",
    );
    assert_read(
        &rt,
        rt.alloc(),
        b"p cnf 16777215 0\n",
        (16_777_215, 0),
        b"p cnf 0 0\n",
    );
}

// ---- faults

#[test]
fn each_fault_has_its_line(rt: HostRuntime) {
    let cases: [(&[u8], QFault); 11] = [
        (b"", QFault::NoProblemLine { line: 1 }),
        (b"c\n\nc p cnf 0 0\n", QFault::NoProblemLine { line: 4 }),
        (b"\n pcnf 0 0", QFault::NoProblemLine { line: 2 }),
        (
            b"p cnf 16777216 0",
            QFault::TooManyVariables {
                line: 1,
                said: 16_777_216,
            },
        ),
        (b"p cnf 1 1\n1\n", QFault::EndsEarly { line: 3 }),
        (
            b"p cnf 2 0\ne 1 1 0\n",
            QFault::BoundTwice { line: 2, var: 1 },
        ),
        (
            b"p cnf 2 0\ne 1 0\n\na 2\n1 0",
            QFault::BoundTwice { line: 5, var: 1 },
        ),
        (
            b"p cnf 1 2\ne 1 0\n1 0\n",
            QFault::CountDiffers { said: 2, found: 1 },
        ),
        (
            b"p cnf 1 0\n1 -1 0\n",
            QFault::CountDiffers { said: 0, found: 1 },
        ),
        (b"p cnf 1 1\n1 0\na 1 0\n", QFault::AfterMatrix { line: 3 }),
        (b"p cnf 1 1\n0\ne\n", QFault::AfterMatrix { line: 3 }),
    ];
    assert_faults(&rt, rt.alloc(), &cases);
}

#[test]
fn a_number_is_at_most_that_of_variables(rt: HostRuntime) {
    let cases: [(&[u8], QFault); 4] = [
        (
            b"p cnf 1 1\n2 0\n",
            QFault::OutOfRange {
                line: 2,
                literal: 2,
            },
        ),
        (
            b"p cnf 1 1\n1 -2 0\n",
            QFault::OutOfRange {
                line: 2,
                literal: -2,
            },
        ),
        (
            b"p cnf 1 1\n\ne 999999999 0\n",
            QFault::OutOfRange {
                line: 3,
                literal: 999_999_999,
            },
        ),
        (
            b"p cnf 16777215 1\n16777216 0\n",
            QFault::OutOfRange {
                line: 2,
                literal: 16_777_216,
            },
        ),
    ];
    assert_faults(&rt, rt.alloc(), &cases);
}

#[test]
fn other_words_are_bad(rt: HostRuntime) {
    assert_bad_words(
        &rt,
        rt.alloc(),
        1,
        &[
            b"p cnf 1 1000000000",
            b"p cnf -1 0",
            b"p cnf 1 -0",
            b"p p cnf 1 0",
            b"p cn 1 0",
            b"p cnf 0x1 0",
        ],
    );
    assert_bad_words(
        &rt,
        rt.alloc(),
        2,
        &[
            b"p cnf 1 0\na -1 0\n",
            b"p cnf 1 0\na -2 0\n",
            b"p cnf 1 1\n-0",
            b"p cnf 1 1\n+1 0",
            b"p cnf 1 1\n--1 0",
            b"p cnf 1 1\n-",
            b"p cnf 1 1\n0000000001 0",
            b"p cnf 1 1\n1 a",
            b"p cnf 1 1\n1\x00 0",
            b"p cnf 1 1\n\x00",
            b"p cnf 1 1\n\rc 1 0",
            b"p cnf 1 1\n1 c",
            b"p cnf 1 1\n1 p",
            b"p cnf 1 0\ne a 1 0",
        ],
    );
}

// A line that begins with `c` is a comment, though the word is `cnf`.
#[test]
fn the_second_word_can_not_begin_a_line(rt: HostRuntime) {
    assert_faults(
        &rt,
        rt.alloc(),
        &[(b"p\ncnf 1 0\n", QFault::EndsEarly { line: 3 })],
    );
}

const TEXT: &[u8] = b"p cnf 2 1\ne 2 0\n1 -2 0\n";

const ENDS: [QFault; 3] = [
    QFault::EndsEarly { line: 1 },
    QFault::EndsEarly { line: 2 },
    QFault::EndsEarly { line: 3 },
];

// What is wrong with the first bytes of the text, by how many there are.
fn fault_of_front(length: usize) -> Option<QFault> {
    match length {
        0 => Some(QFault::NoProblemLine { line: 1 }),
        3 | 4 => Some(QFault::BadWord { line: 1 }),
        1..=8 => Some(ENDS[0]),
        9 | 10 | 15 | 16 => Some(QFault::CountDiffers { said: 1, found: 0 }),
        11..=14 => Some(ENDS[1]),
        19 => Some(QFault::BadWord { line: 3 }),
        17..=21 => Some(ENDS[2]),
        _ => None,
    }
}

#[test]
fn each_front_of_a_text_has_its_fault(rt: HostRuntime) {
    for length in 0..TEXT.len() + 1 {
        let (front, _) = TEXT.split_at(length);
        assert_eq!(rt;
            fault_of(&rt, rt.alloc(), front),
            fault_of_front(length),
            "{length}"
        );
    }
}
