//! The types that the crates share, and in `specs/` the definitions that their contracts cite.
//!
//! Begin with `specs/Truth.antt`, what a quantified formula means, and `specs/Win.antt`, who can
//! force a goal. `docs/DEFINITIONS.md` leads through the rest.
#![tactic(auto)]

mod certificate;
mod check;
mod circuit;
mod command;
mod fault;
mod formula;
mod game;
mod list;
mod memory;
mod play;
mod steps;
mod texts;
mod tokens;

pub use certificate::{
    Answered, Cert, CertFault, CertReadFault, Node, NodeNo, ReplyList, TurnFault,
};
pub use check::{Axis, CheckFault, Item, Part};
pub use circuit::{Gate, NodeId, Wire};
pub use command::Command;
pub use fault::{QFault, ReadFault};
pub use formula::{Block, Bound, Kind, Lit, LitList, Quant, Span, Var, Verdict};
pub use game::{Atom, GREATEST_SIDE, Mark, Move, PlyBits, Rect, Side, Term, Test};
pub use list::Items;
pub use memory::NoMemory;
pub use play::Played;
pub use steps::Steps;
pub use texts::{
    ActionList, ActionText, AtomList, AtomText, DomainText, InitAtom, InitList, LineList, NameText,
    Place, ProblemText, TermText, TestList, TestText,
};
pub use tokens::{LexFault, Token, TokenFault, TokenKind};

#[cfg(test)]
mod tests {
    use super::*;
    use std::test::Fail;

    #[test]
    fn items_stand_in_the_order_of_pushing(rt: HostRuntime) -> Result<(), Fail> {
        let mut clause = LitList::new(rt.alloc());
        assert!(rt; clause.as_slice().is_empty());
        let first = Lit {
            var: Var(2),
            negated: true,
        };
        let second = Lit {
            var: Var(1),
            negated: false,
        };
        clause.push(first)?;
        clause.push(second)?;
        assert_eq!(rt; clause.as_slice(), [first, second].as_slice());
        Ok(())
    }

    #[test]
    fn the_last_step_is_the_budget(rt: HostRuntime) {
        let mut steps = Steps::new(2);
        assert!(rt; steps.tick());
        assert!(rt; steps.tick());
        assert!(rt; !steps.tick());
        assert_eq!(rt; (steps.used(), steps.budget()), (2, 2));
        assert!(rt; !Steps::new(0).tick());
    }
}
