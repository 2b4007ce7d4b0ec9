//! The book in which the published list grows. It has no bytes but its word.

use crate::notice::Notice;
use logbook::{Gain, Opening, Plain, Play, Rule, Word};
use ruleset_model::Config;

/// The rule of the book.
pub struct Law;

impl Rule<Notice, u64> for Law {
    ghost use Rattle.std.specs.Prelude.{[]};
    ghost use base.Fml.{ftrue};
    ghost use Rattle.version_store.specs.Rules.{IsKept};

    ghost holds = { λ cells notices. IsKept cells notices };

    ghost first = { [] };

    ghost hinted = { λ n notices. Unit {0} };

    ghost shows = { λ notices. [] };

    ghost keeps = { λ names notices. ftrue };

    ghost moves = { λ ask before after answer. Unit {0} };
}

/// The word that counts the notices after the opening one.
pub type Head = Word<Notice, u64, Law>;

/// The list begins with the opening configuration.
pub struct Begins;

impl Opening<Config, Notice> for Begins {
    ghost use Rattle.std.specs.Prelude.{[], ◌∷◌};
    ghost use Rattle.version_store.specs.declared.notice.Notice.TheVariants.{Put};

    ghost log = { λ count config. Put config ∷ [] };
}

/// Who adds a notice trades nothing.
pub struct Nothing;

impl Gain<Notice, u64> for Nothing {
    ghost use base.Fml.{ftrue};

    ghost after = { λ names about answer. ftrue };
}

/// A step that adds a notice.
pub struct Adds;

impl Play<Notice, u64> for Adds {
    ghost use Rattle.version_store.specs.Rules.{Adds};

    ghost then = { Adds };
}

/// The notice that puts a configuration.
pub struct Puts;

impl Plain<Config, Notice, u64> for Puts {
    ghost use Rattle.std.specs.Prelude.{None};
    ghost use Rattle.version_store.specs.declared.notice.Notice.TheVariants.{Put};

    ghost ask = { λ config. Put config };

    ghost state = { λ config. None };
}

/// The notice that stops.
pub struct Stops;

impl Plain<(), Notice, u64> for Stops {
    ghost use Rattle.std.specs.Prelude.{None};
    ghost use Rattle.version_store.specs.declared.notice.Notice.TheVariants.{Stop};

    ghost ask = { λ _. Stop };

    ghost state = { λ _. None };
}
