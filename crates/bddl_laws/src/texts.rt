// Laws of texts: a form is read from the text that is written for it, and no other form is; and each
// text has one reading.
ghost use Rattle.std.specs.Prelude.{◌≡◌, ◌<◌, ◌↔◌, ℕ, List, length, Ok, Err};
ghost use Rattle.bddl_model.specs.declared.fault.QFault.{QFault};
ghost use Rattle.bddl_model.specs.Truth.{Formula};
ghost use Rattle.bddl_model.specs.Forms.{IsForm};
ghost use Rattle.bddl_model.specs.FormulaText.{greatest_variable, qtext};
ghost use Rattle.bddl_model.specs.FormulaFaults.{QdimacsFails};
ghost use Rattle.bddl_model.specs.FormulaReading.{FormulaRead, reading};
ghost use Rattle.bddl_model.specs.Qdimacs.{HasOneForm, Qdimacs};

/// A law: the text that is written for a form has this form and no other, and the numbers of its
/// problem line are the form's greatest variable and its number of clauses.
pub fn text_is_read()
    ensures one_form { (f : Formula) → IsForm f → length f.clauses < 1000000000 → HasOneForm (qtext f) f }
    ensures numbers { (f read : Formula) (variables clauses : ℕ) → IsForm f → length f.clauses < 1000000000
        → Qdimacs (qtext f) variables clauses read
        → (variables ≡ greatest_variable f.prefix) × (clauses ≡ length f.clauses) }
{}

/// A law: each text has one reading. It is a form with two numbers exactly where the text has this
/// form and these numbers, and a fault exactly where this is the fault of the text.
pub fn one_reading()
    ensures form { (bytes : List ℕ) (read : FormulaRead) → (reading bytes ≡ Ok read) ↔ Qdimacs bytes read.variables read.clauses read.form }
    ensures fault { (bytes : List ℕ) (fault : QFault) → (reading bytes ≡ Err fault) ↔ QdimacsFails bytes fault }
{}
