//! A built expression that may cross threads.
ghost use Rattle.std.specs.Prelude.{◌≡◌, IfOk};

use regex::bytes::Regex;
use std::alloc::{AllocError, Global};
use std::marker::Model;

/// A built expression. What is said of it beside its field is nothing, so that its own proofs of `Send` and `Sync` are
/// asked, and not those of all that the field holds.
#[derive(Drop)]
pub(crate) struct Built {
    regex: Box<Regex>,
}

impl Model for Built {
    ghost use Rattle.std.specs.Borrow.{ftrue};
    ghost use Rattle.regex.specs.declared.bytes.regex.Regex.{Regex};
    ghost use Rattle.regex.specs.contracts.bytes.regex.Regex.{the_row as regex_row};

    ghost Value = { Regex };

    ghost coded = { regex_row.coded };

    ghost view = { λ b. b.regex.value };

    ghost also_owns = { λ _. ftrue };

    ghost also_shares = { λ _ _ _. ftrue };
}

unsafe impl Send for Built {}

unsafe impl Sync for Built {}

impl Built {
    /// Puts the expression in.
    fn of(regex: Box<Regex>) -> Built
        ensures { result ≡ regex.value }
    {
        Built { regex }
    }

    /// Puts the expression on the heap.
    pub fn new(alloc: Global, regex: Regex) -> Result<Built, AllocError>
        ensures { IfOk result (λ built. built ≡ regex) }
    {
        Ok(Built::of(Box::new(alloc, regex)?))
    }

    /// The expression.
    pub fn get(&self) -> &Regex
        ensures { result.now ≡ self.now }
    {
        &self.regex
    }
}
