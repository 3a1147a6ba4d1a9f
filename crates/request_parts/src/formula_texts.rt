// The form that a text has, or what is wrong with it.
ghost use Rattle.std.specs.Prelude.{◌≤◌, length, IfOk, IfErr};
ghost use Rattle.bddl_model.specs.Outcome.{FormulaThen};
ghost use Rattle.bddl_model.specs.Qdimacs.{Qdimacs};
ghost use Rattle.request_parts.specs.Ends.{NoFormula, StopsAt, content_told};

use crate::refusal::{Content, Stop};
use qdimacs_io::{QdimacsRead, read_qdimacs};
use std::alloc::Global;

/// The form of a text, and the two numbers of its problem line.
pub fn read_formula(alloc: Global, bytes: &[u8]) -> Result<QdimacsRead, Stop<Content>>
    requires { length bytes.now ≤ 67108864 }
    ensures found { IfOk result (λ r. Qdimacs bytes.now r.variables r.clauses r.form) }
    ensures stop { IfErr result (StopsAt content_told (FormulaThen bytes.now NoFormula)) }
{
    Ok(read_qdimacs(alloc, bytes)?)
}
