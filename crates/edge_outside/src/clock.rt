ghost use Rattle.std.specs.Prelude.{◌≡◌, ◌<◌, Some, None, length, get_or};
ghost use Rattle.edge_outside.specs.Clocks.{moments_after};

use edge_base::Moment;
use sqlite_items::Items;
use std::marker::Model;

/// What tells the moment.
pub trait Clock {
    ghost use Rattle.std.specs.Prelude.{ℕ, Option};

    // The moment that was told last, if one was.
    ghost told: { Self → Option ℕ };

    fn now(&mut self) -> Moment
        ensures told { told self.new ≡ Some result };
}

/// A list of moments.
pub type Moments = Items<Moment>;

/// A clock that tells the moments of a list, one after the other, and then its last again and again.
#[derive(Debug, Drop)]
pub struct ListClock {
    moments: Moments,
    at: usize,
    told: Option<Moment>,
}

impl Model for ListClock {
    ghost use Rattle.std.specs.Prelude.{◌<◌, length, drop};
    ghost use Rattle.edge_outside.specs.Clocks.{Ticks};

    ghost Value = { Ticks };

    ghost view = { λ clock. record { left = drop clock.at clock.moments; told = clock.told } };

    ghost invariant = { λ clock. clock.at < length clock.moments };
}

impl ListClock {
    /// A clock of these moments, at least one. Takes no memory.
    pub fn new(moments: Moments) -> ListClock
        requires { 0 < length moments }
        ensures { result ≡ record { left = moments; told = None } }
    {
        ListClock {
            moments,
            at: 0,
            told: None,
        }
    }
}

impl Clock for ListClock {
    ghost told = { λ clock. clock.told };

    /// Takes no memory.
    fn now(&mut self) -> Moment
        ensures told { self.new.told ≡ Some result }
        ensures first { result ≡ get_or self.old.left 0 0 }
        ensures left { self.new.left ≡ moments_after self.old.left }
    {
        let moment = self.moments.as_slice()[self.at];
        if self.at + 1 < self.moments.len() {
            self.at += 1;
        }
        self.told = Some(moment);
        moment
    }
}
