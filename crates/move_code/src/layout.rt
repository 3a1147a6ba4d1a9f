// Where the inputs of the encoding stand.
ghost use Rattle.std.specs.Prelude.{◌≡◌, ◌+◌, ◌-◌, ◌<◌, ◌≤◌, ◌^◌, ◌++◌, IfOk, OnOk};
ghost use Rattle.bddl_model.specs.Layout as spec;
ghost use Rattle.bddl_model.specs.Layout.{prefix_of, plies_blocks, claim_blocks, ply_blocks};
ghost use Rattle.bddl_model.specs.Prenex.{Cover};

use crate::sizes::Sizes;
use bddl_model::{Block, NoMemory, PlyBits, Quant, Side, Span};
use grid_game::Game;
use std::alloc::Global;
use std::marker::Model;

/// Where the inputs of the encoding stand: the plies in their order, then the claim of Black, what
/// White says against it, what refutes White, and a place of the board. The inputs count from 1,
/// each part begins where the one before it ends, and there are at most 65,535 inputs. Contracts see
/// it as its list of plies, its spans and its number of inputs.
#[derive(Debug, Drop)]
pub struct Layout {
    pub plies: Vec<PlyBits>,
    pub kind: Span,
    pub time: Span,
    pub line: Span,
    pub anchor: Span,
    pub atom: Span,
    pub white_line: Span,
    pub white_anchor: Span,
    pub white_time: Span,
    pub refuting: Span,
    pub place: Span,
    pub inputs: u32,
}

impl Model for Layout {
    ghost use Rattle.bddl_model.specs.Layout.{Inputs};
    ghost use Rattle.move_code.specs.LaidOut.{IsLaidOut};

    ghost Value = { Inputs };

    ghost view = { λ l. record { plies = l.plies.items; kind = l.kind; time = l.time; line = l.line; anchor = l.anchor; atom = l.atom; white_line = l.white_line; white_anchor = l.white_anchor; white_time = l.white_time; refuting = l.refuting; place = l.place; inputs = l.inputs } };

    ghost invariant = { λ l. IsLaidOut (record { plies = l.plies.items; kind = l.kind; time = l.time; line = l.line; anchor = l.anchor; atom = l.atom; white_line = l.white_line; white_anchor = l.white_anchor; white_time = l.white_time; refuting = l.refuting; place = l.place; inputs = l.inputs }) };
}

// So many inputs behind a span.
fn behind(span: Span, len: u32) -> Span
    requires { spec.end span < 2 ^ 32 }
    ensures { result ≡ spec.behind span len }
{
    Span {
        from: span.from + span.len,
        len,
    }
}

// The inputs of a ply of the side, from one on.
fn ply_at(sizes: &Sizes, side: Side, from: u32) -> PlyBits
    requires { from ≤ 10000 }
    ensures value { result ≡ spec.ply_at sizes.now side from }
    ensures order { from ≤ spec.end result.code }
    ensures bound { spec.end result.code ≤ from + 192 }
{
    match side {
        Side::Black => PlyBits {
            side,
            sample: Span { from, len: 0 },
            code: Span {
                from,
                len: sizes.black_code,
            },
        },
        Side::White => {
            let len = sizes.white_code;
            PlyBits {
                side,
                sample: Span { from, len },
                code: Span {
                    from: from + len,
                    len,
                },
            }
        }
    }
}

// The inputs from the first of some spans to the last.
fn from_to(first: Span, last: Span) -> Span
    requires order { first.from ≤ spec.end last }
    requires small { spec.end last < 2 ^ 32 }
    ensures { result ≡ spec.from_to first last }
{
    Span {
        from: first.from,
        len: last.from + last.len - first.from,
    }
}

fn block(quant: Quant, span: Span) -> Block
    ensures { result ≡ spec.block quant span }
{
    Block { quant, span }
}

// Adds the blocks of a ply behind the others.
fn push_ply(blocks: &mut Vec<Block>, ply: &PlyBits) -> Result<(), NoMemory>
    ensures { OnOk result (blocks.new.items ≡ blocks.old.items ++ ply_blocks ply.now.side ply.now) }
{
    match ply.side {
        Side::Black => blocks.push(block(Quant::Exists, ply.code))?,
        Side::White => {
            blocks.push(block(Quant::Exists, ply.sample))?;
            blocks.push(block(Quant::All, ply.code))?;
        }
    }
    Ok(())
}

// The blocks of plies.
fn ply_blocks(alloc: Global, plies: &[PlyBits]) -> Result<Vec<Block>, NoMemory>
    ensures { IfOk result (λ bs. bs.items ≡ plies_blocks plies.now) }
{
    let mut blocks = Vec::new(alloc);
    for ply in plies {
        push_ply(&mut blocks, ply)?;
    }
    Ok(blocks)
}

impl Layout {
    // What stands behind the plies, from an input on.
    fn behind_plies(sizes: &Sizes, plies: Vec<PlyBits>, from: u32) -> Layout
        requires low { 1 ≤ from }
        requires high { from ≤ 10000 }
        requires covered { Cover (plies_blocks plies.items) (from - 1) }
        ensures { result ≡ spec.layout_behind sizes.now plies.items from }
    {
        let kind = Span { from, len: 1 };
        let time = behind(kind, sizes.time);
        let line = behind(time, sizes.line);
        let anchor = behind(line, sizes.anchor);
        let atom = behind(anchor, sizes.atom);
        let white_line = behind(atom, sizes.white_line);
        let white_anchor = behind(white_line, sizes.white_anchor);
        let white_time = behind(white_anchor, sizes.white_time);
        let refuting = behind(white_time, sizes.refuting);
        let place = behind(refuting, sizes.anchor);
        Layout {
            plies,
            kind,
            time,
            line,
            anchor,
            atom,
            white_line,
            white_anchor,
            white_time,
            refuting,
            place,
            inputs: place.from + place.len - 1,
        }
    }

    /// The layout of the inputs of a game that this side begins, for so many plies at most.
    pub fn of(alloc: Global, game: &Game, first: Side, depth: u32) -> Result<Layout, NoMemory>
        requires depth { depth ≤ 31 }
        ensures { IfOk result (λ l. l ≡ spec.layout game.now first depth) }
    {
        let sizes = Sizes::of(game, depth);
        let mut plies = Vec::new(alloc);
        let mut next = 1;
        let mut side = first;
        for number in 0..depth {
            let ply = ply_at(&sizes, side, next);
            plies.push(ply)?;
            next = ply.code.from + ply.code.len;
            side = side.opponent();
        }
        Ok(Layout::behind_plies(&sizes, plies, next))
    }

    /// A law: the blocks bind the inputs, from 1 to the last, in order.
    pub fn keeps_its_order(&self)
        ensures covered { Cover (spec.blocks self.now) self.now.inputs }
        ensures few { self.now.inputs ≤ 65535 }
    {
        let _ = &self.inputs;
    }

    // The blocks behind those of the plies.
    fn claim_blocks(&self) -> [Block; 4]
        ensures { result ≡ claim_blocks self.now }
    {
        [
            block(Quant::Exists, from_to(self.kind, self.atom)),
            block(Quant::All, from_to(self.white_line, self.white_time)),
            block(Quant::Exists, self.refuting),
            block(Quant::All, self.place),
        ]
    }

    /// The quantifier blocks of the inputs, outermost first. Blocks may be empty, and neighbours may
    /// have one quantifier.
    pub fn blocks(&self, alloc: Global) -> Result<Vec<Block>, NoMemory>
        ensures blocks { IfOk result (λ bs. bs.items ≡ spec.blocks self.now) }
        ensures prefix { IfOk result (λ bs. prefix_of bs.items ≡ prefix_of (plies_blocks self.now.plies) ++ prefix_of (claim_blocks self.now)) }
    {
        let mut blocks = ply_blocks(alloc, &self.plies)?;
        blocks.extend_from_slice(&self.claim_blocks())?;
        Ok(blocks)
    }
}
