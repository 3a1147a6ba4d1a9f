// A formula in clauses, from the bytes of its text alone.

use bddl_model::Quant;
use std::alloc::{AllocError, AllocFailed, Global};
use std::str;

/// Why a text is no formula.
#[derive(Clone, Copy, Debug, PartialEq, Eq, Drop)]
pub enum FormulaFault {
    Malformed,
    NoMemory,
}

impl From<AllocError> for FormulaFault {
    fn from(_: AllocError) -> Self {
        FormulaFault::NoMemory
    }
}

impl<T: Drop> From<AllocFailed<T>> for FormulaFault {
    fn from(_: AllocFailed<T>) -> Self {
        FormulaFault::NoMemory
    }
}

/// A variable, by how many stand before it in the prefix, and the value that makes the literal true.
#[derive(Clone, Copy, Debug, PartialEq, Eq)]
pub struct Literal {
    pub place: usize,
    pub value: bool,
}

impl Literal {
    /// The opposite literal.
    pub fn negation(self) -> Literal {
        Literal {
            place: self.place,
            value: !self.value,
        }
    }
}

/// A formula of the variables 1, 2 and so on, which are bound in this order.
#[derive(Debug, Drop)]
pub struct Formula {
    pub quants: Vec<Quant>,
    pub clauses: Vec<Vec<Literal>>,
}

impl Formula {
    /// The formula of a text.
    pub fn read(alloc: Global, text: &[u8]) -> Result<Self, FormulaFault> {
        let Ok(text) = str::from_utf8(text) else {
            return Err(FormulaFault::Malformed);
        };
        let mut formula = Formula {
            quants: Vec::new(alloc),
            clauses: Vec::new(alloc),
        };
        let mut head = None;
        for line in text.split_terminator('\n') {
            if head.is_none() {
                head = Some(head_of(line)?);
            } else {
                formula.take_line(alloc, line)?;
            }
        }
        if text.ends_with('\n') && head == Some((formula.quants.len(), formula.clauses.len())) {
            Ok(formula)
        } else {
            Err(FormulaFault::Malformed)
        }
    }

    fn take_line(&mut self, alloc: Global, line: &str) -> Result<(), FormulaFault> {
        if let Some(variables) = line.strip_prefix("e ") {
            self.bind(Quant::Exists, &numbers_of(alloc, variables)?)
        } else if let Some(variables) = line.strip_prefix("a ") {
            self.bind(Quant::All, &numbers_of(alloc, variables)?)
        } else {
            self.add_clause(alloc, &numbers_of(alloc, line)?)
        }
    }

    // Variables are bound before the first clause, each the next in order.
    fn bind(&mut self, quant: Quant, variables: &[i32]) -> Result<(), FormulaFault> {
        if variables.is_empty() || !self.clauses.is_empty() {
            return Err(FormulaFault::Malformed);
        }
        for variable in variables {
            if usize::try_from(*variable) != Ok(self.quants.len() + 1) {
                return Err(FormulaFault::Malformed);
            }
            self.quants.push(quant)?;
        }
        Ok(())
    }

    fn add_clause(&mut self, alloc: Global, numbers: &[i32]) -> Result<(), FormulaFault> {
        let mut clause = Vec::new(alloc);
        for number in numbers {
            let literal = literal_of(*number);
            if literal.place >= self.quants.len() {
                return Err(FormulaFault::Malformed);
            }
            clause.push(literal)?;
        }
        self.clauses.push(clause)?;
        Ok(())
    }
}

// The literal of a number that is not 0.
fn literal_of(number: i32) -> Literal {
    Literal {
        place: (number.unsigned_abs() as usize).saturating_sub(1),
        value: number > 0,
    }
}

// The numbers of variables and clauses in a problem line.
fn head_of(line: &str) -> Result<(usize, usize), FormulaFault> {
    let Some(counts) = line.strip_prefix("p cnf ") else {
        return Err(FormulaFault::Malformed);
    };
    let Some((variables, clauses)) = counts.split_once(' ') else {
        return Err(FormulaFault::Malformed);
    };
    match (variables.parse::<usize>(), clauses.parse::<usize>()) {
        (Ok(variables), Ok(clauses)) => Ok((variables, clauses)),
        _ => Err(FormulaFault::Malformed),
    }
}

// The numbers of a line before its 0, with which it ends.
fn numbers_of(alloc: Global, line: &str) -> Result<Vec<i32>, FormulaFault> {
    let mut numbers = Vec::new(alloc);
    let mut has_ended = false;
    for word in line.split(' ') {
        if has_ended {
            return Err(FormulaFault::Malformed);
        }
        match word.parse::<i32>() {
            Ok(0) => has_ended = true,
            Ok(number) => numbers.push(number)?,
            Err(_) => return Err(FormulaFault::Malformed),
        }
    }
    if has_ended {
        Ok(numbers)
    } else {
        Err(FormulaFault::Malformed)
    }
}

#[test]
fn malformed_texts_are_no_formula(rt: HostRuntime) {
    let cases: [&[u8]; 15] = [
        b"",
        b"\n",
        b"p cnf 1 1\ne 1 0\n",
        b"p cnf 1 1\ne 1 0\n1 0\n1 0\n",
        b"p cnf 2 1\ne 1 0\n1 0\n",
        b"p cnf 1 1\ne 1 0\n1 0",
        b"p cnf 1 1\ne 1 0\n2 0\n",
        b"p cnf 1 1\ne 1 0\n-2 1 0\n",
        b"p cnf 1 1\n1 0\ne 1 0\n",
        b"p cnf 2 0\ne 2 1 0\n",
        b"p cnf 1 1\ne 1\n1 0\n",
        b"p cnf 1 1\ne 1 0\n1 0 1 0\n",
        b"p cnf 1 1\ne 1 0\n1  0\n",
        b"p cnf 0 0\ne 0\n",
        b"p cnf 1 1\ne 1 0\n\xff 0\n",
    ];
    for text in &cases {
        let formula = Formula::read(rt.alloc(), text);
        assert!(rt; matches!(formula, Err(FormulaFault::Malformed)));
    }
}
