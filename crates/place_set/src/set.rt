// A set of places that keeps the order of meeting.
ghost use Rattle.std.specs.Prelude.{◌≡◌, ◌≢◌, ◌<◌, ◌≤◌, [], ◌∷◌, ◌++◌, length, slice_get, AllPairs, Some, IfOk, OnErr};
ghost use Rattle.place_set.specs.Places.{place_at, HasSize};

use bddl_model::{Mark, NoMemory, Side};
use grid_game::Board;
use indexmap::IndexSet;
use std::alloc::Global;
use std::marker::Model;

#[derive(Debug, Drop, PartialEq, Eq, Hash)]
struct StoredPlace {
    side: Side,
    left: u32,
    marks: Vec<Mark>,
}

/// Places, each once, numbered from 0 in the order of meeting. Contracts see the list of them.
#[derive(Debug, Drop)]
pub struct PlaceSet {
    alloc: Global,
    places: IndexSet<StoredPlace>,
}

impl Model for PlaceSet {
    ghost use Rattle.std.specs.Prelude.{◌≢◌, List, map, AllPairs};
    ghost use Rattle.bddl_model.specs.Certificate.{Place};
    ghost use Rattle.place_set.specs.Stored.{places_of};

    ghost Value = { List Place };

    ghost view = { λ s. places_of s.places.keys };

    ghost invariant = { λ s. AllPairs (λ p q. p ≢ q) (places_of s.places.keys) };
}

impl PlaceSet {
    /// Without places.
    pub fn new(alloc: Global) -> PlaceSet
        ensures { result ≡ [] }
    {
        PlaceSet {
            alloc,
            places: IndexSet::new(alloc),
        }
    }

    /// A law: no place stands twice.
    pub fn keeps_places_apart(&self)
        ensures { AllPairs (λ p q. p ≢ q) self.now }
    {
        let _ = &self.places;
    }

    /// How many places there are.
    pub fn len(&self) -> u64
        ensures { result ≡ length self.now }
    {
        self.places.len() as u64
    }

    /// The number of a place: its own where it was met, and else the next one. A refusal leaves the
    /// set as it was.
    pub fn number(&mut self, side: Side, board: &Board, left: u32) -> Result<u64, NoMemory>
        ensures place { IfOk result (λ n. slice_get self.new n ≡ Some (place_at side board.now left)) }
        ensures met { IfOk result (λ n. n < length self.old → self.new ≡ self.old) }
        ensures next { IfOk result (λ n. length self.old ≤ n → self.new ≡ self.old ++ place_at side board.now left ∷ []) }
        ensures err { OnErr result (self.new ≡ self.old) }
    {
        let place = StoredPlace {
            side,
            left,
            marks: Vec::from_slice(self.alloc, board.marks())?,
        };
        let (number, _) = self.places.insert_full(place)?;
        Ok(number as u64)
    }

    /// Puts the board of a place there, and says whose turn it is and how many plies are left.
    pub fn go_to(&self, number: u64, board: &mut Board) -> (Side, u32)
        requires number { number < length self.now }
        requires size { HasSize board.old self.now number }
        ensures place { slice_get self.now number ≡ Some (place_at result.0 board.new result.1) }
        ensures size { (board.new.width ≡ board.old.width) × (board.new.height ≡ board.old.height) }
    {
        let Some(place) = self.places.get_index(number as usize) else {
            unreachable!()
        };
        board.set_marks(&place.marks);
        (place.side, place.left)
    }
}
