ghost use Rattle.std.specs.Prelude.{◌≡◌, ◌+◌, ◌^◌, ◌<◌, [], ◌∷◌, length, None, IsTrue, MatchBool};
ghost use mathlib.Core.List.{IsPrefix};
ghost use Rattle.version_store.specs.declared.notice.Notice.TheVariants.{Put};
ghost use Rattle.version_store.specs.Books.{grown};
ghost use Rattle.version_store.specs.Rules.{head_of};

use crate::book::{Adds, Begins, Head, Law, Nothing};
use crate::notice::Notice;
use logbook::{Offer, Plain, Seen, Start, Word};
use ruleset_model::Config;
use std::marker::Model;

/// A beginning of the published list that was reached: how many notices came after the opening one, and a token of it.
#[derive(Drop)]
pub struct Front {
    count: u64,
    seen: Seen<Notice, u64, Law>,
}

impl Model for Front {
    ghost use Rattle.std.specs.Coded.{codes};
    ghost use Rattle.std.specs.Prelude.{◌≡◌, ◌+◌, length};
    ghost use Rattle.version_store.specs.Books.{Page};
    ghost use Rattle.version_store.specs.contracts.notice.Notice.{the_row as notice_row};

    ghost Value = { Page };

    ghost coded = { Prim.hlevel (codes, notice_row.coded) };

    ghost view = { λ front. record { book = front.seen.book; notices = front.seen.log } };

    ghost invariant = { λ front. front.count + 1 ≡ length front.seen.log };
}

impl Front {
    /// A list of the opening configuration alone, and the word of its book.
    pub fn open(config: &Config) -> (Front, Head)
        ensures notices { result.0.notices ≡ Put config.now ∷ [] }
        ensures head { result.1 ≡ head_of result.0.book }
    {
        let (seen, mut pens) = Seen::open_row::<Config, Begins>(config, Start::alone(), 1);
        let mut pen = pens.take();
        (Front { count: 0, seen }, Word::tracked(0, &mut pen))
    }

    /// How many notices came after the opening one.
    pub fn count(&self) -> u64
        ensures { result + 1 ≡ length self.now.notices }
    {
        self.count
    }

    /// A copy.
    pub fn again(&self) -> Front
        ensures { result ≡ self.now }
    {
        Front {
            count: self.count,
            seen: self.seen.again(),
        }
    }

    /// Whether it is no shorter than another of its book, and so begins with it. Else the other begins with it.
    pub fn reaches(&self, other: &Front) -> bool
        requires { other.now.book ≡ self.now.book }
        ensures reaches { IsTrue result → IsPrefix other.now.notices self.now.notices }
        ensures behind { ¬ (IsTrue result) → IsPrefix self.now.notices other.now.notices }
    {
        let mut both = self.seen.again();
        both.learn(&other.seen);
        self.count >= other.count
    }

    /// Adds a notice to the list, and says whether it did. It did not where the list of the book is longer.
    pub fn add<X, M: Plain<X, Notice, u64>>(&mut self, head: &Head, about: &X) -> bool
        requires head { head.now ≡ head_of self.old.book }
        requires room { length self.old.notices < 2 ^ 62 }
        requires fresh { M.state about.now ≡ None }
        ensures { MatchBool result (self.new ≡ grown self.old (M.ask about.now)) (self.new ≡ self.old) }
    {
        let mut seen = self.seen.again();
        let mut offer: Offer<Notice, u64, Law, Nothing> = seen.plain::<Nothing, X, M>(about);
        let mut pen = seen.no_pen();
        let count = self.count;
        let found = head.compare_exchange::<Adds, Nothing>(
            count,
            count + 1,
            &mut seen,
            &mut offer,
            &mut pen,
        );
        if found != count {
            return false;
        }
        self.count = count + 1;
        self.seen = seen;
        true
    }
}
