//! All callers joined into one.
ghost use Rattle.std.specs.Prelude.{◌≡◌, ◌<◌, All, length, MatchBool};
ghost use Rattle.rate_shared.specs.Hands.{SitsAt};
ghost use Rattle.rate_shared.specs.Close.{has_caller, AreAll, OneIsMissing, HasTaken, Gathers};

use crate::plays::{LooksUp, Meets};
use crate::rule::Board;
use crate::seen::{Seen, Seens};

fn has_caller(seens: &[Seen], caller: u32) -> bool
    ensures { result ≡ has_caller caller seens.now }
{
    seens.iter().any(|seen| seen.caller == caller)
}

/// Whether each caller is there.
pub(crate) fn are_all(seens: &[Seen], callers: u32) -> bool
    ensures { MatchBool result (AreAll callers seens.now) (OneIsMissing callers seens.now) }
{
    for caller in 0..callers {
        if !has_caller(seens, caller) {
            return false;
        }
    }
    true
}

/// Writes how many steps each caller has taken. They may be given as a function of the callers' numbers.
pub(crate) fn write_own(own: &mut Vec<u64>, seens: &[Seen])
    requires { All (λ seen. seen.caller < length own.old.items) seens.now }
    ensures count { length own.new.items ≡ length own.old.items }
    ensures own { HasTaken own.new.items seens.now seens.now }
{
    for seen in seens {
        own[seen.caller as usize] = seen.taken;
    }
}

/// Joins all callers into one, which then sees the whole history, and tells its length.
pub(crate) fn gather(board: &Board, mut seens: Seens) -> u64
    requires table { 0 < board.now.table_id.words }
    requires some { 0 < length seens.items }
    requires of { All (λ seen. SitsAt board.now.table_id board.now.key seen.seat) seens.items }
    ensures { Gathers board.now.key seens.items result }
{
    let Some(first) = seens.pop() else {
        unreachable!();
    };
    let Seen {
        mut seat,
        caller: _,
        taken: _,
    } = first;
    while let Some(seen) = seens.pop() {
        let Seen {
            seat: other,
            caller: _,
            taken: _,
        } = seen;
        board.join_seat::<Meets>(&mut seat, other);
    }
    board.load::<LooksUp>(&mut seat, 0)
}
