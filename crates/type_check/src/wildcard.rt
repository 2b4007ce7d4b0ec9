ghost use Rattle.std.specs.Prelude.{◌≡◌, None, IfOk, OnOk, IsErrOf, ◌↔◌};
ghost use Rattle.text_match.specs.Wildcards.{fault_of, pieces_of};
ghost use Rattle.text_match.specs.Matching.{is_matched};

use edge_base::{Memory, Text};
use std::alloc::Global;
use std::marker::Model;
use text_match::{Wild, WildFault};

/// A wildcard that was read, with its text. Contracts see the text.
#[derive(Drop)]
pub struct Wildcard {
    text: Text,
    wild: Wild,
}

impl Model for Wildcard {
    ghost use Rattle.std.specs.Prelude.{◌≡◌, List, ℕ};
    ghost use Rattle.text_match.specs.Wildcards.{pieces_of};

    ghost Value = { List ℕ };

    ghost view = { λ wildcard. wildcard.text };

    ghost invariant = { λ wildcard. wildcard.wild ≡ pieces_of wildcard.text };
}

impl Wildcard {
    /// Reads a wildcard without a fault.
    pub fn of(alloc: Global, text: &[u8]) -> Result<Wildcard, Memory>
        requires { fault_of text.now ≡ None }
        ensures { IfOk result (λ wildcard. wildcard ≡ text.now) }
    {
        match Wild::build(alloc, text) {
            Ok(wild) => Ok(Wildcard {
                text: Text::of(alloc, text)?,
                wild,
            }),
            Err(WildFault::Memory) => Err(Memory),
            Err(_) => unreachable!(),
        }
    }

    /// Whether a text matches, strictly or with ASCII case ignored. Takes no memory.
    pub fn matches(&self, text: &[u8], strict: bool) -> bool
        ensures { result ≡ is_matched (pieces_of self.now) strict text.now }
    {
        self.wild.matches(text, strict)
    }
}
