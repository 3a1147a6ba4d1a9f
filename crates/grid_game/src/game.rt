// A game that is within the limits.
ghost use Rattle.std.specs.Prelude.{◌≡◌, ◌++◌, ◌<◌, [], length, OnOk, OnErr};
ghost use Rattle.bddl_model.specs.Game as spec;
ghost use Rattle.bddl_model.specs.Limits.{IsSide, FitsSomewhere, IsAction, IsLine, AreItems, IsGame};
ghost use Rattle.bddl_model.specs.Rectangle.{IsRectOf};
ghost use Rattle.grid_game.specs.Stored.{action_of, actions_of, lines_of, KeepsRects};

use crate::items::{Items, StoredAction, StoredLine};
use crate::rect::rect_of;
use bddl_model::{Atom, NoMemory, Rect, Side, Test};
use std::alloc::Global;
use std::marker::Model;

/// A game on a grid. Contracts see it as its two sizes and, for each side, its actions and its goal
/// lines. A game keeps to the limits: sides of 1 to 64, at most 8 actions a side with names of 1 to
/// 32 bytes, 8 preconditions and 4 effects, at most 256 goal lines a side of 16 tests, and an anchor
/// that fits for each of them.
#[derive(Debug, Drop)]
pub struct Game {
    alloc: Global,
    width: u32,
    height: u32,
    black: Items,
    white: Items,
}

impl Model for Game {
    ghost use Rattle.bddl_model.specs.Game as spec;
    ghost use Rattle.bddl_model.specs.Limits.{IsGame};
    ghost use Rattle.grid_game.specs.Stored.{KeepsRects, game_of};

    ghost Value = { spec.Game };

    ghost view = { λ g. game_of g.width g.height g.black g.white };

    ghost invariant = { λ g. IsGame (game_of g.width g.height g.black g.white)
        × KeepsRects g.width g.height g.black × KeepsRects g.width g.height g.white };
}

impl Game {
    /// Without actions and lines.
    pub fn begin(alloc: Global, width: u32, height: u32) -> Game
        requires width { IsSide width }
        requires height { IsSide height }
        ensures { result ≡ record { width = width; height = height; black_actions = []; white_actions = []; black_lines = []; white_lines = [] } }
    {
        Game {
            alloc,
            width,
            height,
            black: Items::new(alloc),
            white: Items::new(alloc),
        }
    }

    /// A law: each game keeps to the limits.
    pub fn keeps_the_limits(&self)
        ensures { IsGame self.now }
    {
        let _ = &self.width;
    }

    // The anchors that fit the tests and the effects, of which there are some.
    fn anchors(&self, tests: &[Test], effects: &[Atom]) -> Rect
        requires { FitsSomewhere self.now.width self.now.height (spec.test_atoms tests.now ++ effects.now) }
        ensures { IsRectOf self.now.width self.now.height (spec.test_atoms tests.now ++ effects.now) result }
    {
        let Some(rect) = rect_of(self.width, self.height, tests, effects) else {
            unreachable!()
        };
        rect
    }

    /// Adds an action behind those of the side, or leaves the game as it was.
    pub fn add_action(
        &mut self,
        side: Side,
        name: &[u8],
        before: &[Test],
        effects: &[Atom],
    ) -> Result<(), NoMemory>
        requires few { length (spec.actions self.old side) < 8 }
        requires action { IsAction self.old.width self.old.height (record { name = name.now; before = before.now; effects = effects.now }) }
        ensures ok { OnOk result (self.new ≡ spec.with_action self.old side (record { name = name.now; before = before.now; effects = effects.now })) }
        ensures err { OnErr result (self.new ≡ self.old) }
    {
        let rect = self.anchors(before, effects);
        let action = StoredAction::copied(self.alloc, name, before, effects, rect)?;
        match side {
            Side::Black => self.black.push_action(action),
            Side::White => self.white.push_action(action),
        }
    }

    /// Adds a goal line behind those of the side, or leaves the game as it was.
    pub fn add_line(&mut self, side: Side, tests: &[Test]) -> Result<(), NoMemory>
        requires few { length (spec.lines self.old side) < 256 }
        requires line { IsLine self.old.width self.old.height tests.now }
        ensures ok { OnOk result (self.new ≡ spec.with_line self.old side tests.now) }
        ensures err { OnErr result (self.new ≡ self.old) }
    {
        let rect = self.anchors(tests, &[]);
        let line = StoredLine::copied(self.alloc, tests, rect)?;
        match side {
            Side::Black => self.black.push_line(line),
            Side::White => self.white.push_line(line),
        }
    }

    pub fn width(&self) -> u32
        ensures value { result ≡ self.now.width }
        ensures limit { IsSide result }
    {
        self.width
    }

    pub fn height(&self) -> u32
        ensures value { result ≡ self.now.height }
        ensures limit { IsSide result }
    {
        self.height
    }

    // What the side has, each item with its anchors.
    fn items(&self, side: Side) -> &Items
        ensures actions { actions_of result.now ≡ spec.actions self.now side }
        ensures lines { lines_of result.now ≡ spec.lines self.now side }
        ensures rects { KeepsRects self.now.width self.now.height result.now }
        ensures limits { AreItems self.now.width self.now.height (spec.actions self.now side) (spec.lines self.now side) }
    {
        match side {
            Side::Black => &self.black,
            Side::White => &self.white,
        }
    }

    // An action with its anchors.
    fn stored_action(&self, side: Side, number: u32) -> &StoredAction
        requires { number < length (spec.actions self.now side) }
        ensures action { action_of result.now ≡ spec.action_at self.now side number }
        ensures rect { IsRectOf self.now.width self.now.height (spec.action_atoms (action_of result.now)) result.now.rect }
    {
        &self.items(side).actions[number as usize]
    }

    // A goal line with its anchors.
    fn stored_line(&self, side: Side, number: u32) -> &StoredLine
        requires { number < length (spec.lines self.now side) }
        ensures line { result.now.tests.items ≡ spec.line_at self.now side number }
        ensures rect { IsRectOf self.now.width self.now.height (spec.line_atoms result.now.tests.items) result.now.rect }
    {
        &self.items(side).lines[number as usize]
    }

    /// The number of the side's actions. They count from 0.
    pub fn actions(&self, side: Side) -> u32
        ensures { result ≡ length (spec.actions self.now side) }
    {
        self.items(side).actions.len() as u32
    }

    /// The name of an action.
    pub fn name(&self, side: Side, action: u32) -> &[u8]
        requires { action < length (spec.actions self.now side) }
        ensures { result.now ≡ (spec.action_at self.now side action).name }
    {
        &self.stored_action(side, action).name
    }

    /// What must hold before an action.
    pub fn before(&self, side: Side, action: u32) -> &[Test]
        requires { action < length (spec.actions self.now side) }
        ensures { result.now ≡ (spec.action_at self.now side action).before }
    {
        &self.stored_action(side, action).before
    }

    /// What an action writes, in order.
    pub fn effects(&self, side: Side, action: u32) -> &[Atom]
        requires { action < length (spec.actions self.now side) }
        ensures { result.now ≡ (spec.action_at self.now side action).effects }
    {
        &self.stored_action(side, action).effects
    }

    /// The anchors that fit an action.
    pub fn action_rect(&self, side: Side, action: u32) -> Rect
        requires { action < length (spec.actions self.now side) }
        ensures { IsRectOf self.now.width self.now.height (spec.action_atoms (spec.action_at self.now side action)) result }
    {
        self.stored_action(side, action).rect
    }

    /// The number of the side's goal lines. They count from 0.
    pub fn lines(&self, side: Side) -> u32
        ensures { result ≡ length (spec.lines self.now side) }
    {
        self.items(side).lines.len() as u32
    }

    /// The tests of a goal line.
    pub fn line(&self, side: Side, number: u32) -> &[Test]
        requires { number < length (spec.lines self.now side) }
        ensures { result.now ≡ spec.line_at self.now side number }
    {
        &self.stored_line(side, number).tests
    }

    /// The anchors that fit a goal line.
    pub fn line_rect(&self, side: Side, number: u32) -> Rect
        requires { number < length (spec.lines self.now side) }
        ensures { IsRectOf self.now.width self.now.height (spec.line_atoms (spec.line_at self.now side number)) result }
    {
        self.stored_line(side, number).rect
    }
}
