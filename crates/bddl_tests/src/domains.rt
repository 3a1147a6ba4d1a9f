// Domains that several tests share.

/// Without actions.
pub const NONE: &str = "#blackactions #whiteactions";

/// Each side puts a stone on an open cell.
pub const OCCUPY: &str = "#blackactions
:action occupy :parameters (?x,?y) :precondition (open(?x,?y)) :effect (black(?x,?y))
#whiteactions
:action occupy :parameters (?x,?y) :precondition (open(?x,?y)) :effect (white(?x,?y))";

/// A part of Breakthrough: stones go one row ahead onto open cells, Black's towards greater rows.
pub const ADVANCE: &str = "#blackactions
:action forward :parameters (?x,?y) :precondition (black(?x,?y) open(?x,?y+1)) :effect (open(?x,?y) black(?x,?y+1))
:action right :parameters (?x,?y) :precondition (black(?x,?y) open(?x+1,?y+1)) :effect (open(?x,?y) black(?x+1,?y+1))
:action left :parameters (?x,?y) :precondition (black(?x,?y) open(?x-1,?y+1)) :effect (open(?x,?y) black(?x-1,?y+1))
#whiteactions
:action forward :parameters (?x,?y) :precondition (white(?x,?y) open(?x,?y-1)) :effect (open(?x,?y) white(?x,?y-1))
:action right :parameters (?x,?y) :precondition (white(?x,?y) open(?x+1,?y-1)) :effect (open(?x,?y) white(?x+1,?y-1))
:action left :parameters (?x,?y) :precondition (white(?x,?y) open(?x-1,?y-1)) :effect (open(?x,?y) white(?x-1,?y-1))";
