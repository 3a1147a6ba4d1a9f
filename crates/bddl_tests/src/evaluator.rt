// The value of a formula, by all values of its variables.
//
// A variable of the last block that three clauses define as both of two earlier literals is a gate:
// its value is computed. All others are chosen: the innermost six in the 64 bits of a word at once, and
// the others one after the other. A gate is computed, and a clause looked at, as soon as the last
// choice below it is made, and in the place of a gate that has to hold stand its operands.

use crate::formula::{Formula, FormulaFault, Literal};
use bddl_model::Quant;
use std::alloc::{AllocError, Global};
use std::test::Fail;

// The values of the innermost choices, from the last one on.
const LANES: [u64; 6] = [
    0xaaaa_aaaa_aaaa_aaaa,
    0xcccc_cccc_cccc_cccc,
    0xf0f0_f0f0_f0f0_f0f0,
    0xff00_ff00_ff00_ff00,
    0xffff_0000_ffff_0000,
    0xffff_ffff_0000_0000,
];

/// A variable that holds exactly where both operands do.
#[derive(Clone, Copy, Debug)]
struct Gate {
    place: usize,
    left: Literal,
    right: Literal,
}

/// Gates, and the clauses that define none.
#[derive(Debug, Drop)]
struct Work {
    gates: Vec<Gate>,
    clauses: Vec<Vec<Literal>>,
}

/// A choice, and what depends on it and on no later one outside the words.
#[derive(Debug, Drop)]
struct Level {
    place: usize,
    quant: Quant,
    work: Work,
}

/// A formula in the order of its choices.
#[derive(Debug, Drop)]
pub struct Evaluator {
    levels: Vec<Level>,
    // the choices within a word, the innermost first, and what depends on no other
    lanes: Vec<Quant>,
    base: Work,
    words: Vec<u64>,
}

impl Work {
    fn new(alloc: Global) -> Self {
        Work {
            gates: Vec::new(alloc),
            clauses: Vec::new(alloc),
        }
    }

    // Computes the gates, and answers where the clauses hold.
    fn run(&self, words: &mut [u64]) -> u64 {
        for gate in &self.gates {
            let word = word_of(words, gate.left) & word_of(words, gate.right);
            set_word(words, gate.place, word);
        }
        let mut holding = u64::MAX;
        for clause in &self.clauses {
            holding &= clause_word(words, clause);
        }
        holding
    }
}

impl Evaluator {
    /// The formula of a text.
    pub fn read(alloc: Global, text: &[u8]) -> Result<Self, FormulaFault> {
        let Formula { quants, clauses } = Formula::read(alloc, text)?;
        let Work { gates, clauses } = parted(alloc, &clauses, tail_of(&quants))?;
        let clauses = spread(alloc, quants.len(), &gates, clauses)?;
        let choices = choices_of(alloc, quants.len(), &gates)?;
        let mut evaluator = Evaluator {
            levels: Vec::new(alloc),
            lanes: Vec::new(alloc),
            base: Work::new(alloc),
            words: vec![in alloc; 0; quants.len()]?,
        };
        let mut ranks = vec![in alloc; 0; quants.len()]?;
        evaluator.choose(alloc, &quants, &choices, &mut ranks)?;
        evaluator.place_gates(&gates, &mut ranks)?;
        evaluator.place_clauses(clauses, &ranks)?;
        Ok(evaluator)
    }

    // Makes a level of each choice that is not within a word, and gives it its rank.
    fn choose(
        &mut self,
        alloc: Global,
        quants: &[Quant],
        choices: &[usize],
        ranks: &mut [usize],
    ) -> Result<(), AllocError> {
        let (outer, inner) = choices.split_at(choices.len().saturating_sub(LANES.len()));
        for place in outer {
            self.levels.push(Level {
                place: *place,
                quant: quant_at(quants, *place),
                work: Work::new(alloc),
            })?;
            set_rank(ranks, *place, self.levels.len());
        }
        for (place, word) in inner.iter().rev().zip(LANES) {
            self.lanes.push(quant_at(quants, *place))?;
            set_word(&mut self.words, *place, word);
        }
        Ok(())
    }

    // What is done at a rank.
    fn work_at(&mut self, rank: usize) -> &mut Work {
        match self.levels.get_mut(rank.wrapping_sub(1)) {
            Some(level) => &mut level.work,
            None => &mut self.base,
        }
    }

    fn place_gates(&mut self, gates: &[Gate], ranks: &mut [usize]) -> Result<(), AllocError> {
        for gate in gates {
            let rank = rank_of(ranks, gate.left).max(rank_of(ranks, gate.right));
            set_rank(ranks, gate.place, rank);
            self.work_at(rank).gates.push(*gate)?;
        }
        Ok(())
    }

    fn place_clauses(
        &mut self,
        clauses: Vec<Vec<Literal>>,
        ranks: &[usize],
    ) -> Result<(), AllocError> {
        for clause in clauses {
            let mut rank = 0;
            for literal in &clause {
                rank = rank_of(ranks, *literal).max(rank);
            }
            self.work_at(rank).clauses.push(clause)?;
        }
        Ok(())
    }

    /// Its value.
    pub fn value(&self) -> Result<bool, AllocError> {
        self.value_behind(&[])
    }

    /// Its value under the quantifiers behind the first choices, which have these values.
    pub fn value_behind(&self, known: &[bool]) -> Result<bool, AllocError> {
        let mut words = self.words.clone()?;
        let holding = self.base.run(&mut words);
        Ok(value_from(&self.levels, 0, &self.lanes, known, &mut words, holding))
    }
}

// The value from a level on, where the words hold the choices above it. Under `Exists` a value with
// which the rest holds decides, and under `All` one with which it doesn't.
fn value_from(
    levels: &[Level],
    number: usize,
    lanes: &[Quant],
    known: &[bool],
    words: &mut [u64],
    holding: u64,
) -> bool {
    let Some(level) = levels.get(number) else {
        return value_of_lanes(lanes, known.get(number..).unwrap_or(&[]), holding);
    };
    let deciding = level.quant == Quant::Exists;
    for value in [true, false] {
        if known.get(number) == Some(&!value) {
            continue;
        }
        set_word(words, level.place, if value { u64::MAX } else { 0 });
        let rest = holding & level.work.run(words);
        let holds = rest != 0 && value_from(levels, number + 1, lanes, known, words, rest);
        if holds == deciding {
            return deciding;
        }
    }
    !deciding
}

// The value of a word: each lane in turn joins the pairs that differ in its choice alone, where no
// value of it is known.
fn value_of_lanes(lanes: &[Quant], known: &[bool], word: u64) -> bool {
    let mut word = word;
    let mut shift = 1;
    let mut place = lanes.len();
    for quant in lanes {
        place = place.wrapping_sub(1);
        let other = word.wrapping_shr(shift);
        word = match (known.get(place), quant) {
            (Some(true), _) => other,
            (Some(false), _) => word,
            (None, Quant::Exists) => word | other,
            (None, Quant::All) => word & other,
        };
        shift = shift.wrapping_mul(2);
    }
    word & 1 == 1
}

fn word_of(words: &[u64], literal: Literal) -> u64 {
    let word = words.get(literal.place).copied().unwrap_or(0);
    if literal.value { word } else { !word }
}

fn clause_word(words: &[u64], clause: &[Literal]) -> u64 {
    let mut word = 0;
    for literal in clause {
        word |= word_of(words, *literal);
    }
    word
}

fn set_word(words: &mut [u64], place: usize, word: u64) {
    if let Some(slot) = words.get_mut(place) {
        *slot = word;
    }
}

fn rank_of(ranks: &[usize], literal: Literal) -> usize {
    ranks.get(literal.place).copied().unwrap_or(0)
}

fn set_rank(ranks: &mut [usize], place: usize, rank: usize) {
    if let Some(slot) = ranks.get_mut(place) {
        *slot = rank;
    }
}

fn quant_at(quants: &[Quant], place: usize) -> Quant {
    quants.get(place).copied().unwrap_or(Quant::All)
}

// The first variable behind those under `All`.
fn tail_of(quants: &[Quant]) -> usize {
    let mut tail = 0;
    for (place, quant) in quants.iter().enumerate() {
        if *quant == Quant::All {
            tail = place + 1;
        }
    }
    tail
}

// The gate that three clauses define, where its variable stands at this place or behind it.
fn gate_of(clauses: &[Vec<Literal>], least: usize) -> Option<Gate> {
    let [first, second, third, ..] = clauses else {
        return None;
    };
    let ([no, left], [again, right]) = (first.as_slice(), second.as_slice()) else {
        return None;
    };
    let both = [no.negation(), left.negation(), right.negation()];
    let is_gate = no == again && !no.value && third.as_slice() == both.as_slice();
    let is_behind = no.place >= least && left.place < no.place && right.place < no.place;
    (is_gate && is_behind).then_some(Gate {
        place: no.place,
        left: *left,
        right: *right,
    })
}

// The gates that clauses define, in their order, and the other clauses.
fn parted(alloc: Global, clauses: &[Vec<Literal>], tail: usize) -> Result<Work, AllocError> {
    let mut work = Work::new(alloc);
    let mut least = tail;
    let mut behind = 0;
    for (number, clause) in clauses.iter().enumerate() {
        if number < behind {
            continue;
        }
        match gate_of(clauses.get(number..).unwrap_or(&[]), least) {
            Some(gate) => {
                least = gate.place.saturating_add(1);
                behind = number.saturating_add(3);
                work.gates.push(gate)?;
            }
            None => work.clauses.push(clause.to_vec(alloc)?)?,
        }
    }
    Ok(work)
}

fn is_marked(marks: &[bool], place: usize) -> bool {
    marks.get(place) == Some(&true)
}

fn set_mark(marks: &mut [bool], place: usize, mark: bool) {
    if let Some(slot) = marks.get_mut(place) {
        *slot = mark;
    }
}

// The clauses, with those of its operands in the place of that of a gate.
fn spread(
    alloc: Global,
    count: usize,
    gates: &[Gate],
    clauses: Vec<Vec<Literal>>,
) -> Result<Vec<Vec<Literal>>, AllocError> {
    let mut required = vec![in alloc; false; count]?;
    let mut rest = Vec::new(alloc);
    for clause in clauses {
        match clause.as_slice() {
            [literal] if literal.value => set_mark(&mut required, literal.place, true),
            _ => rest.push(clause)?,
        }
    }
    for gate in gates.iter().rev() {
        if is_marked(&required, gate.place) {
            set_mark(&mut required, gate.place, false);
            for operand in [gate.left, gate.right] {
                if operand.value {
                    set_mark(&mut required, operand.place, true);
                } else {
                    rest.push(vec![in alloc; operand]?)?;
                }
            }
        }
    }
    for (place, mark) in required.iter().enumerate() {
        if *mark {
            rest.push(vec![in alloc; Literal { place, value: true }]?)?;
        }
    }
    Ok(rest)
}

// The variables that are no gates.
fn choices_of(alloc: Global, count: usize, gates: &[Gate]) -> Result<Vec<usize>, AllocError> {
    let mut choices = Vec::new(alloc);
    let mut gates = gates.iter();
    let mut next = gates.next();
    for place in 0..count {
        match next {
            Some(gate) if gate.place == place => next = gates.next(),
            _ => choices.push(place)?,
        }
    }
    Ok(choices)
}

#[test]
fn values_of_small_formulas(rt: HostRuntime) -> Result<(), Fail> {
    let cases: [(&[u8], bool); 15] = [
        (b"p cnf 0 0\n", true),
        (b"p cnf 0 1\n0\n", false),
        (b"p cnf 1 1\ne 1 0\n0\n", false),
        (b"p cnf 1 1\ne 1 0\n-1 0\n", true),
        (b"p cnf 1 1\na 1 0\n-1 0\n", false),
        (b"p cnf 1 1\na 1 0\n1 -1 0\n", true),
        (b"p cnf 1 2\ne 1 0\n1 0\n-1 0\n", false),
        (b"p cnf 2 2\na 1 0\ne 2 0\n1 2 0\n-1 -2 0\n", true),
        (b"p cnf 2 2\ne 1 0\na 2 0\n1 2 0\n-1 -2 0\n", false),
        (b"p cnf 2 1\ne 1 0\na 2 0\n-1 2 0\n", true),
        (b"p cnf 3 2\ne 1 0\na 2 0\ne 3 0\n3 -2 0\n-3 -1 0\n", true),
        (b"p cnf 3 2\na 1 0\ne 2 0\na 3 0\n2 3 0\n-2 1 0\n", false),
        (b"p cnf 3 2\ne 1 2 0\na 3 0\n-2 3 0\n2 -1 -3 0\n", true),
        (
            b"p cnf 3 4\na 1 2 0\ne 3 0\n-3 1 0\n-3 -2 0\n3 -1 2 0\n3 0\n",
            false,
        ),
        (
            b"p cnf 3 4\ne 1 0\na 2 0\ne 3 0\n-3 1 0\n-3 -2 0\n3 -1 2 0\n-3 0\n",
            true,
        ),
    ];
    for (text, value) in &cases {
        let formula = Evaluator::read(rt.alloc(), text)?;
        assert_eq!(rt; formula.value()?, *value);
    }
    Ok(())
}

// The first variables of a line of eight, of which the last six stand in one word: an outer one, one
// that stands in the word, and what is left under the quantifiers.
#[test]
fn values_behind_known_choices(rt: HostRuntime) -> Result<(), Fail> {
    let text = b"p cnf 8 4\ne 1 2 3 0\na 4 0\ne 5 6 7 8 0\n1 4 5 0\n-1 3 0\n-3 -4 -8 0\n2 -5 0\n";
    let cases: [(&[bool], bool); 8] = [
        (&[], true),
        (&[false, true], true),
        (&[false, false], false),
        (&[true, false], true),
        (&[true, false, false], false),
        (&[false, false, false, true], true),
        (&[false, true, true, false, false], false),
        (&[false, true, true, true, true, true, true, true], false),
    ];
    let formula = Evaluator::read(rt.alloc(), text)?;
    for (known, value) in &cases {
        assert_eq!(rt; formula.value_behind(known)?, *value, "{known:?}");
    }
    Ok(())
}
