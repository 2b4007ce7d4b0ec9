//! What a caller has: its number, and what it has seen; and what it can hand to others.
ghost use Rattle.rate_shared.specs.Hands.{IsReady, IsNote};

use crate::rule::Place;
use rate_lane::Lane;

/// A caller, with the beginning of the history that it has seen.
#[derive(Drop)]
pub struct Seen {
    pub(crate) seat: Place,
    pub(crate) caller: u32,
    pub(crate) taken: u64,
    ghost ready: { IsReady seat caller taken },
}

/// All callers.
pub type Seens = Vec<Seen>;

/// What a caller had seen, to be handed to another.
#[derive(Drop)]
pub struct Note {
    pub(crate) seat: Place,
    ghost bare: { IsNote seat },
}

/// A caller that has the turn of a lane, and the lane.
#[derive(Drop)]
pub struct Held {
    pub(crate) seat: Place,
    pub(crate) caller: u32,
    pub(crate) taken: u64,
    pub(crate) number: u32,
    pub(crate) lane: Lane,
}

impl Seen {
    ghost use Rattle.std.specs.Prelude.{◌≡◌, length};
    ghost use Rattle.rate_shared.specs.Callers.{own_history};

    /// How many steps the caller has taken. Takes no memory.
    pub fn taken(&self) -> u64
        ensures { result ≡ length (own_history self.now) }
    {
        self.taken
    }

    /// The caller's number, from 0. Takes no memory.
    pub fn caller(&self) -> u32
        ensures { result ≡ self.now.caller }
    {
        self.caller
    }
}
