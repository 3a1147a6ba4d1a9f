// What a game keeps of each side.
ghost use Rattle.std.specs.Prelude.{◌≡◌, [], ◌∷◌, ◌++◌, if◌then◌else◌, IfOk, is_ok};
ghost use Rattle.grid_game.specs.Stored.{action_of};

use bddl_model::{Atom, NoMemory, Rect, Test};
use std::alloc::Global;

/// An action, with the anchors that fit.
#[derive(Debug, Drop)]
pub struct StoredAction {
    pub name: Vec<u8>,
    pub before: Vec<Test>,
    pub effects: Vec<Atom>,
    pub rect: Rect,
}

impl StoredAction {
    /// A copy of the parts.
    pub fn copied(
        alloc: Global,
        name: &[u8],
        before: &[Test],
        effects: &[Atom],
        rect: Rect,
    ) -> Result<StoredAction, NoMemory>
        ensures action { IfOk result (λ a. action_of a ≡ record { name = name.now; before = before.now; effects = effects.now }) }
        ensures rect { IfOk result (λ a. a.rect ≡ rect) }
    {
        Ok(StoredAction {
            name: name.to_vec(alloc)?,
            before: before.to_vec(alloc)?,
            effects: effects.to_vec(alloc)?,
            rect,
        })
    }
}

/// A goal line, with the anchors that fit.
#[derive(Debug, Drop)]
pub struct StoredLine {
    pub tests: Vec<Test>,
    pub rect: Rect,
}

impl StoredLine {
    /// A copy of the tests.
    pub fn copied(alloc: Global, tests: &[Test], rect: Rect) -> Result<StoredLine, NoMemory>
        ensures line { IfOk result (λ line. line.tests.items ≡ tests.now) }
        ensures rect { IfOk result (λ line. line.rect ≡ rect) }
    {
        Ok(StoredLine {
            tests: tests.to_vec(alloc)?,
            rect,
        })
    }
}

/// The actions and the goal lines of a side.
#[derive(Debug, Drop)]
pub struct Items {
    pub actions: Vec<StoredAction>,
    pub lines: Vec<StoredLine>,
}

impl Items {
    /// Without actions and lines.
    pub fn new(alloc: Global) -> Items
        ensures actions { result.actions.items ≡ [] }
        ensures lines { result.lines.items ≡ [] }
    {
        Items {
            actions: Vec::new(alloc),
            lines: Vec::new(alloc),
        }
    }

    /// Adds an action behind the others, or leaves them as they were.
    pub fn push_action(&mut self, action: StoredAction) -> Result<(), NoMemory>
        ensures actions { self.new.actions.items ≡ (if is_ok result then self.old.actions.items ++ action ∷ [] else self.old.actions.items) }
        ensures lines { self.new.lines.items ≡ self.old.lines.items }
    {
        self.actions.push(action)?;
        Ok(())
    }

    /// Adds a goal line behind the others, or leaves them as they were.
    pub fn push_line(&mut self, line: StoredLine) -> Result<(), NoMemory>
        ensures lines { self.new.lines.items ≡ (if is_ok result then self.old.lines.items ++ line ∷ [] else self.old.lines.items) }
        ensures actions { self.new.actions.items ≡ self.old.actions.items }
    {
        self.lines.push(line)?;
        Ok(())
    }
}
