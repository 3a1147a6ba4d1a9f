//! The text of a formula in the QDIMACS format: read, and written whole or in parts.
//!
//! `read_qdimacs` answers the form of a text, or what is wrong with it and on which line. Read the
//! definitions `Qdimacs` and `QdimacsFails` of `bddl_model` first.
//!
//! `write_qdimacs` puts the one text that is written for a form. A caller that holds its clauses in
//! no form puts the same text in parts, the head first and then clause by clause: by `write_head`
//! and `write_clause`, or in large pieces by `add_head` and `add_clause` over one `PieceBuffer`.
//! Where the sink refuses, a front of the text was put. Its definition is `qtext` of
//! `bddl_model`.
#![tactic(auto)]

mod answer;
mod clause;
mod head;
mod marks;
mod open_clause;
mod prefix;
mod read;
mod reader;
mod tokens;
mod words;
mod write;

pub use answer::write_answer;
pub use clause::{add_clause, write_clause};
pub use head::{add_head, write_head};
pub use read::{QdimacsRead, read_qdimacs};
pub use write::write_qdimacs;
