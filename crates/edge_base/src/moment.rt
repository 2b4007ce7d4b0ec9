ghost use Rattle.std.specs.Prelude.{◌≡◌, ◌≤◌, ◌^◌, Ok};
ghost use Rattle.std.specs.Option.{SomeIff};

use crate::refusal::Memory;
use std::marker::Model;

/// The greatest number of milliseconds that a moment may have: 2^53.
const LAST_MOMENT: u64 = 1 << 53;

/// A point in time, in milliseconds from 0 to 2^53.
#[derive(Clone, Copy, Debug, PartialEq, Eq, PartialOrd, Ord, Hash)]
pub struct Moment {
    milliseconds: u64,
}

impl Model for Moment {
    ghost use Rattle.std.specs.Prelude.{ℕ, ◌≤◌, ◌^◌};

    ghost Value = { ℕ };

    ghost view = { λ m. m.milliseconds };

    ghost invariant = { λ m. m.milliseconds ≤ 2 ^ 53 };

    ghost inverse = { λ n. record { milliseconds = n } };
}

impl Moment {
    /// The moment of `n` milliseconds, where there is one. Takes no memory.
    pub fn of(n: u64) -> Option<Moment>
        ensures { SomeIff result (n ≤ 2 ^ 53) n }
    {
        if n <= LAST_MOMENT {
            Some(Moment { milliseconds: n })
        } else {
            None
        }
    }

    pub fn get(self) -> u64
        ensures number { result ≡ self }
        ensures within { result ≤ 2 ^ 53 }
    {
        self.milliseconds
    }

    /// Takes no memory.
    pub fn copy(&self) -> Result<Moment, Memory>
        ensures { result ≡ Ok self.now }
    {
        Ok(*self)
    }
}
