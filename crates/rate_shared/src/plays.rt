//! What each step on the table tells, how a seat is cut in two, and how one takes in another.
ghost use Rattle.rate_shared.specs.Steps.{Takes, Draws, Gives, Looks, without_number, numbered, note_of, met};
ghost use Rattle.rate_shared.specs.Rule.{nobody};

use crate::rule::View;
use atomic_table::{Join, Play, Split};
use rate_lane::Lane;
use rate_plain::Entry;
use std::marker::{Brand, PhantomData};

/// The turn of a lane is taken, if it is free.
pub(crate) struct TakesTurn;

impl Play<Option<Lane>, View> for TakesTurn {
    ghost then = { Takes };
}

/// Names the entry that a draw adds.
pub(crate) trait Drawn {
    ghost use Rattle.rate_plain.specs.declared.entry.Entry.{Entry};

    ghost entry: { Entry };
}

impl Drawn for Brand {
    ghost use Rattle.rate_shared.specs.Steps.{some_entry};

    ghost entry = { some_entry };
}

/// The next position is drawn, for an entry of the lane whose turn the seat has.
pub(crate) struct DrawsEntry<N: Drawn> {
    entry: PhantomData<N>,
}

impl<N: Drawn> Play<Option<Lane>, View> for DrawsEntry<N> {
    ghost then = { Draws N.entry };
}

/// The turn is given back, and the lane comes home.
pub(crate) struct GivesTurn;

impl Play<Option<Lane>, View> for GivesTurn {
    ghost then = { Gives };
}

/// The whole history is seen.
pub(crate) struct LooksUp;

impl Play<Option<Lane>, View> for LooksUp {
    ghost then = { Looks };
}

/// The next caller's number goes to a new seat.
pub(crate) struct NextCaller;

impl Split<View> for NextCaller {
    ghost left = { without_number };

    ghost right = { numbered };
}

/// What was seen goes to a new seat, which has no number.
pub(crate) struct Notes;

impl Split<View> for Notes {
    ghost left = { λ v. v };

    ghost right = { note_of };
}

/// What another seat knew is kept.
pub(crate) struct Meets;

impl Join<View> for Meets {
    ghost both = { met };

    ghost spent = { nobody };
}
