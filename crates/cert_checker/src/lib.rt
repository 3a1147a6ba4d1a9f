//! Certificates, checked by one pass over their nodes.
//!
//! `check_cert` is `cert_fault` of `bddl_model/specs/Certificate.antt`: read that first, and then
//! `specs/Checking.antt`, which says what the pass does. `known` is what it remembers of a node, `places`
//! finds where a node stands, `naming` says what an answer tells of the node that it names, `turn` and
//! `node` are what is asked of a node at its place, and `bench` holds the boards of a check. `share_cert`
//! leaves one node for each place: `least` finds it, and `sharing` numbers those that the start leads to.
#![tactic(auto)]

mod bench;
mod check;
mod known;
mod least;
mod naming;
mod node;
mod places;
mod sharing;
mod turn;

pub use bddl_model::{CertFault, Node};
pub use check::check_cert;
pub use offset_check::Setup;
pub use sharing::share_cert;
