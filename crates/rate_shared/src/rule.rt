//! The table that all callers share, and what each seat at it knows.
//! Word 0 is the length of the history, word `lane + 1` is 1 while somebody has the turn of the lane, which lies in
//! slot `lane` otherwise.
use atomic_table::{Seat, Shared, Table, TableRule};
use rate_lane::Lane;
use rate_plain::Entry;
use std::alloc::Global;
use std::collections::LinkedList;

/// How many lanes there are, how many live keys each has room for, and how many callers.
#[derive(Drop)]
pub struct Shape {
    pub lanes: u32,
    pub cap: u32,
    pub callers: u32,
}

/// A beginning of the history, with all entries of the callers `from` up to `to`. No value of it is made.
pub struct Known {
    pub from: u32,
    pub to: u32,
    pub seen: LinkedList<Entry>,
}

/// What a seat knows. No value of it is made.
pub struct View {
    pub shape: Shape,
    pub known: Known,
    /// The turn word of the lane whose turn it has, or 0.
    pub turn: u64,
    /// The entries of that lane.
    pub mine: LinkedList<Entry>,
    /// What other seats knew that it took in.
    pub kept: LinkedList<Known>,
}

/// All seats see beginnings of one legal history.
pub struct OneHistory;

impl TableRule<Option<Lane>, View, Shape> for OneHistory {
    ghost use Rattle.rate_shared.specs.Rule.{IsKept, maker};

    ghost holds = { IsKept };

    ghost first = { maker };
}

pub(crate) type Board = Shared<Option<Lane>, View, Shape, OneHistory>;

pub(crate) type Shelf = Table<Option<Lane>, View, Shape, OneHistory, Global>;

pub(crate) type Place = Seat<Option<Lane>, View>;
