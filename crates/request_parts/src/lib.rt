//! What the requests of the program `bddl` share: their words, their files, and how each may end. It
//! holds the requests too that need no formula.
//!
//! `read_request` tells which words are a request, and `read_files` reads its files. `read_game` answers
//! the game that two of them state, `read_formula` the form of one, and `read_accepted` the certificate
//! of one that is valid for a game. A request ends with a `Close`, or a `Stop` says why it doesn't; each has
//! its status and its note. Read `specs/Ends.antt` first.
#![tactic(auto)]

mod about;
mod certificate_texts;
mod command;
mod format;
mod formula_texts;
mod found_faults;
mod game_texts;
mod notes;
mod number;
mod read;
mod refusal;
mod request;

pub use about::{help, version};
pub use certificate_texts::read_accepted;
pub use command::limits_of;
pub use format::{format_domain, format_problem};
pub use formula_texts::read_formula;
pub use found_faults::{CertTextFault, FormulaFault, GameFault, NodeFault};
pub use game_texts::read_game;
pub use notes::{note_of, status_of};
pub use read::read_files;
pub use refusal::{Close, Content, FileEnd, GameText, Refusal, Stop};
pub use request::{Request, read_request};
