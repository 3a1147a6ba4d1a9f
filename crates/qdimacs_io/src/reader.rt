// Reading a formula text word by word.
ghost use Rattle.std.specs.Prelude.{◌≡◌, ◌+◌, ◌<◌, ◌≤◌, ◌^◌, IfOk, OnOk};
ghost use Rattle.bddl_model.specs.Forms.{AllFitPrefix, greatest_variables};
ghost use Rattle.qdimacs_io.specs.Scanning.{token_view};
ghost use Rattle.qdimacs_io.specs.States as spec;
ghost use Rattle.qdimacs_io.specs.States.{Goes};

use crate::marks::Marks;
use crate::open_clause::OpenClause;
use crate::prefix::with_free;
use crate::tokens::Token;
use bddl_model::{Lit, NoMemory, QFault, Quant, Var};
use qbf_form::{Clauses, Form, Prefix};
use std::alloc::Global;
use std::marker::Model;

/// What stands before the next word.
#[derive(Clone, Copy, Debug)]
pub enum Stage {
    Nothing,
    AfterP,
    AfterCnf,
    AfterVariables,
    InSet { quant: Quant },
    InClauses,
}

/// What is kept of the words so far.
#[derive(Debug, Drop)]
pub struct Reader {
    stage: Stage,
    // The two numbers of the problem line.
    variables: u32,
    said: u32,
    // The variables of the quantifier sets.
    prefix: Prefix,
    // The clauses that ended and are not always true, and how many ended.
    clauses: Clauses,
    found: u64,
    open_clause: OpenClause,
    // The variables of all clauses.
    occurs: Marks,
}

impl Model for Reader {
    ghost use Rattle.qdimacs_io.specs.States.{State, HasRoom};

    ghost Value = { State };

    ghost view = { λ r. record { stage = r.stage; variables = r.variables; said = r.said; bounds = r.prefix; kept = r.clauses; found = r.found; open_clause = r.open_clause; occurs = r.occurs } };

    ghost invariant = { λ r. HasRoom r.variables r.open_clause r.occurs };
}

impl Reader {
    pub fn new(alloc: Global) -> Result<Reader, NoMemory>
        ensures { IfOk result (λ r. r ≡ spec.first_state) }
    {
        Reader::begin(alloc, Stage::Nothing, 0)
    }

    // Before all sets and clauses.
    fn begin(alloc: Global, stage: Stage, variables: u32) -> Result<Reader, NoMemory>
        requires { variables ≤ greatest_variables }
        ensures { IfOk result (λ r. r ≡ spec.begun stage variables 0) }
    {
        let open_clause = OpenClause::new(alloc, variables)?;
        let occurs = Marks::new(alloc, variables as usize + 1)?;
        Ok(Reader {
            stage,
            variables,
            said: 0,
            prefix: Prefix::empty(alloc),
            clauses: Clauses::new(alloc),
            found: 0,
            open_clause,
            occurs,
        })
    }

    fn set_variables(&mut self, alloc: Global, line: u32, size: u32) -> Result<(), QFault>
        ensures { Goes (spec.set_variables line self.old size) self.new result }
    {
        if size > 16_777_215 {
            return Err(QFault::TooManyVariables { line, said: size });
        }
        *self = Reader::begin(alloc, Stage::AfterVariables, size)?;
        Ok(())
    }

    // A number of a quantifier set.
    fn bind(&mut self, line: u32, quant: Quant, size: u32) -> Result<(), QFault>
        ensures { Goes (spec.bind line self.old quant size) self.new result }
    {
        if size == 0 {
            self.stage = Stage::InClauses;
            return Ok(());
        }
        if size > self.variables {
            return Err(QFault::OutOfRange {
                line,
                literal: size as i64,
            });
        }
        if self.prefix.holds(Var(size)) {
            return Err(QFault::BoundTwice { line, var: size });
        }
        self.prefix.push(quant, Var(size))?;
        Ok(())
    }

    // A literal more of the open clause.
    fn add_literal(&mut self, literal: Lit) -> Result<(), NoMemory>
        requires { literal.var.0 ≤ self.old.variables }
        ensures { OnOk result (self.new ≡ spec.add_literal self.old literal) }
    {
        self.occurs.add(literal.var.0 as usize);
        self.open_clause.add(literal)
    }

    // The end of the open clause.
    fn end_clause(&mut self) -> Result<(), NoMemory>
        requires { self.old.found + 1 < 2 ^ 64 }
        ensures { OnOk result (self.new ≡ spec.end_clause self.old) }
    {
        self.open_clause.end(&mut self.clauses)?;
        self.found += 1;
        Ok(())
    }

    // A number among the clauses.
    fn take_number(&mut self, line: u32, negated: bool, size: u32) -> Result<(), QFault>
        requires { self.old.found + 1 < 2 ^ 64 }
        ensures { Goes (spec.take_number line self.old negated size) self.new result }
    {
        if size == 0 {
            self.end_clause()?;
            return Ok(());
        }
        if size > self.variables {
            let literal = if negated { -(size as i64) } else { size as i64 };
            return Err(QFault::OutOfRange { line, literal });
        }
        self.add_literal(Lit {
            var: Var(size),
            negated,
        })?;
        Ok(())
    }

    // A quantifier among the clauses.
    fn open_set(&mut self, line: u32, quant: Quant) -> Result<(), QFault>
        ensures { Goes (spec.open_set line self.old quant) self.new result }
    {
        if !self.open_clause.is_empty() {
            return Err(QFault::BadWord { line });
        }
        if self.found != 0 {
            return Err(QFault::AfterMatrix { line });
        }
        self.stage = Stage::InSet { quant };
        Ok(())
    }

    /// Takes a word more. After a fault the reader is of no more use.
    pub fn step(&mut self, alloc: Global, line: u32, token: Token) -> Result<(), QFault>
        requires { self.old.found + 1 < 2 ^ 64 }
        ensures { Goes (spec.state_step line self.old (token_view token)) self.new result }
    {
        match (self.stage, token) {
            (Stage::Nothing, Token::Problem) => {
                self.stage = Stage::AfterP;
                Ok(())
            }
            (Stage::Nothing, _) => Err(QFault::NoProblemLine { line }),
            (Stage::AfterP, Token::Cnf) => {
                self.stage = Stage::AfterCnf;
                Ok(())
            }
            (
                Stage::AfterCnf,
                Token::Number {
                    negated: false,
                    size,
                },
            ) => self.set_variables(alloc, line, size),
            (
                Stage::AfterVariables,
                Token::Number {
                    negated: false,
                    size,
                },
            ) => {
                self.said = size;
                self.stage = Stage::InClauses;
                Ok(())
            }
            (
                Stage::InSet { quant },
                Token::Number {
                    negated: false,
                    size,
                },
            ) => self.bind(line, quant, size),
            (Stage::InClauses, Token::Number { negated, size }) => {
                self.take_number(line, negated, size)
            }
            (Stage::InClauses, Token::Quantifier { quant }) => self.open_set(line, quant),
            _ => Err(QFault::BadWord { line }),
        }
    }

    /// What is wrong where the text ends, if anything is.
    pub fn end_fault(&self, line: u32) -> Option<QFault>
        ensures { result ≡ spec.state_end line self.now }
    {
        match self.stage {
            Stage::Nothing => Some(QFault::NoProblemLine { line }),
            Stage::InClauses => {
                if !self.open_clause.is_empty() {
                    return Some(QFault::EndsEarly { line });
                }
                if self.said as u64 == self.found {
                    return None;
                }
                Some(QFault::CountDiffers {
                    said: self.said as u64,
                    found: self.found,
                })
            }
            _ => Some(QFault::EndsEarly { line }),
        }
    }

    /// The form, where all words are read.
    pub fn into_form(self, alloc: Global) -> Result<Form, NoMemory>
        requires { AllFitPrefix (spec.form_at self).prefix self.kept }
        ensures { IfOk result (λ form. form ≡ spec.form_at self) }
    {
        let prefix = self.prefix;
        let clauses = self.clauses;
        let prefix = with_free(alloc, self.variables, &self.occurs, prefix)?;
        Ok(Form::of(prefix, clauses))
    }

    /// The numbers of variables and of clauses that the problem line says.
    pub fn said(&self) -> (u32, u64)
        ensures { result ≡ (self.now.variables, self.now.said) }
    {
        (self.variables, self.said as u64)
    }
}
