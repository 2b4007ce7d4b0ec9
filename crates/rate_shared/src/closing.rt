//! The end of the counters: all callers come back, and their histories are shown to be beginnings of one.

use crate::counters::Counters;
use crate::gathering::{are_all, gather, write_own};
use crate::seen::Seens;
use sqlite_items::Items;

/// A number for each caller.
pub type Numbers = Items<u64>;

/// How many steps there were, and how many of each caller.
#[derive(Drop)]
pub struct Totals {
    pub history: u64,
    pub own: Numbers,
}

impl Counters {
    ghost use Rattle.std.specs.Prelude.{◌≡◌, All, IfOk, IfErr};
    ghost use Rattle.rate_shared.specs.Callers.{shape_of, IsOf};
    ghost use Rattle.rate_shared.specs.Close.{AreAll, OneIsMissing, Closes};

    /// Ends the counting. It is refused exactly where a caller isn't there, and then nothing changes. Takes no memory.
    pub fn close(self, seens: Seens) -> Result<Totals, (Counters, Seens)>
        requires of { All (λ seen. IsOf self seen) seens.items }
        ensures all { IfOk result (λ totals. AreAll (shape_of self).callers seens.items) }
        ensures closes { IfOk result (λ totals. Closes (shape_of self) seens.items totals) }
        ensures missing { IfErr result (λ back. OneIsMissing (shape_of self).callers seens.items) }
        ensures err { IfErr result (λ back. (back.0 ≡ self) × (back.1 ≡ seens)) }
    {
        if !are_all(seens.as_slice(), self.own.len() as u32) {
            return Err((self, seens));
        }
        let Counters {
            table,
            lanes: _,
            mut own,
        } = self;
        write_own(&mut own, seens.as_slice());
        let history = gather(&table.shared, seens);
        let own = Items::from_vec(own);
        Ok(Totals { history, own })
    }
}
