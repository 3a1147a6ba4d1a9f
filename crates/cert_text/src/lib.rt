//! The text of certificates: read, in both of its versions, and written.
//!
//! `read_cert` answers the nodes that a text says, or what is wrong with it and at which node. In
//! version 1 the order of the nodes tells which one follows; in version 2 each line says the number
//! of the next node. Read the definitions `CertText` and `CertFails` of `bddl_model` first: a text
//! has one answer by them.
//!
//! `write_cert` puts the text of version 2. Where the sink refuses, a front of the text was put. Its
//! definition is `ctext` of `bddl_model`.
#![tactic(auto)]

mod header;
mod line;
mod nodes;
mod number;
mod reached;
mod read;
mod stop;
mod tree;
mod write;

pub use read::read_cert;
pub use write::write_cert;
