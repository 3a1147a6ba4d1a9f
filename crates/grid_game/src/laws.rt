// Laws of moves.
ghost use Rattle.std.specs.Prelude.{◌≡◌, true, Contains, length};
ghost use Rattle.bddl_model.specs.declared.game.Side.{Side};
ghost use Rattle.bddl_model.specs.declared.game.Move.{Move};
ghost use Rattle.bddl_model.specs.Game.{Game};
ghost use Rattle.bddl_model.specs.Board.{Board};
ghost use Rattle.bddl_model.specs.Moves.{legal, moves, after};

/// A law: a legal move is in the list of moves.
pub fn legal_moves_are_listed()
    ensures { (g : Game) (board : Board) (side : Side) (m : Move) → legal g board side m ≡ true → Contains (moves g board side) m }
{}

/// A law: a move keeps the board's size.
pub fn moves_keep_the_size()
    ensures { (g : Game) (board : Board) (side : Side) (m : Move) → length (after g board side m) ≡ length board }
{}
