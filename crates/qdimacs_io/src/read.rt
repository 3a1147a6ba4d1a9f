// Reading a whole formula text.
ghost use Rattle.std.specs.Prelude.{◌≡◌, ◌≤◌, ◌⊎◌, length, Ok, Err, IfOk, IfErr};
ghost use Rattle.bddl_model.specs.declared.fault.QFault.{QFault};
ghost use Rattle.bddl_model.specs.declared.fault.QFault.TheVariants.{NoMemory as out_of_memory};
ghost use Rattle.bddl_model.specs.FormulaFaults.{QdimacsFails};
ghost use Rattle.bddl_model.specs.FormulaReading.{reading};
ghost use Rattle.bddl_model.specs.Qdimacs.{Qdimacs};
ghost use Rattle.bddl_model.specs.Forms.{AllFitPrefix};
ghost use Rattle.qdimacs_io.specs.declared.read.QdimacsRead.{QdimacsRead};
ghost use Rattle.qdimacs_io.specs.Answers.{Reads, UnlessNoMemory, read_view};
ghost use Rattle.qdimacs_io.specs.States.{first_state, states, Gives, form_at, read_of};

use crate::reader::Reader;
use crate::tokens::Token;
use crate::words::Words;
use bddl_model::{NoMemory, QFault};
use qbf_form::Form;
use std::alloc::Global;

/// What a formula text says: its form, and the two numbers of its problem line.
#[derive(Debug, Drop)]
pub struct QdimacsRead {
    pub form: Form,
    pub variables: u32,
    pub clauses: u64,
}

// Takes all words, up to one that can't stand where it does.
fn read_words(alloc: Global, words: &mut Words) -> Result<Reader, QFault>
    requires { words.old.bytes ≤ 67108864 }
    ensures read { Gives (states (Ok first_state) words.old.words) result }
    ensures last { IfOk result (λ _. words.new.line ≡ words.old.last) }
{
    let mut reader = Reader::new(alloc)?;
    'words: while let Some(word) = words.next() {
        reader.step(alloc, word.line, Token::of(word.text))?;
    }
    Ok(reader)
}

// Makes what was read of a text that ended well.
fn finish(alloc: Global, reader: Reader) -> Result<QdimacsRead, NoMemory>
    requires { AllFitPrefix (form_at reader).prefix reader.kept }
    ensures { IfOk result (λ read. read_view read ≡ read_of reader) }
{
    let (variables, clauses) = reader.said();
    let form = reader.into_form(alloc)?;
    Ok(QdimacsRead {
        form,
        variables,
        clauses,
    })
}

fn read_text(alloc: Global, bytes: &[u8]) -> Result<QdimacsRead, QFault>
    requires { length bytes.now ≤ 67108864 }
    ensures { Reads (reading bytes.now) result }
{
    let mut words = Words::of(bytes);
    let reader = read_words(alloc, &mut words)?;
    if let Some(fault) = reader.end_fault(words.line()) {
        return Err(fault);
    }
    Ok(finish(alloc, reader)?)
}

/// The form that a text in the QDIMACS format says, with the two numbers of its problem line.
///
/// Doubled literals of a clause are dropped, and a clause with a literal and its opposite isn't
/// kept. Variables of clauses that stand in no quantifier set are existential and outermost. It
/// goes once over the bytes.
pub fn read_qdimacs(alloc: Global, bytes: &[u8]) -> Result<QdimacsRead, QFault>
    requires { length bytes.now ≤ 67108864 }
    ensures form { IfOk result (λ read. Qdimacs bytes.now read.variables read.clauses read.form) }

    // A text that has a form is read, if memory suffices.
    ensures only { (read : QdimacsRead) → Qdimacs bytes.now read.variables read.clauses read.form → UnlessNoMemory result (Ok read) }

    // A fault is the text's, and a text with a fault has this answer.
    ensures fault { IfErr result (λ f. (f ≡ out_of_memory) ⊎ QdimacsFails bytes.now f) }
    ensures exact { (f : QFault) → QdimacsFails bytes.now f → UnlessNoMemory result (Err f) }
{
    read_text(alloc, bytes)
}
