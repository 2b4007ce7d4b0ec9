use edge_base::Memory;
use std::alloc::Global;
use std::marker::Model;

/// The most bytes of a document.
const MOST: usize = 1_048_576;

/// The bytes of a document that have come so far; of more than 1,048,576 nothing is kept. Contracts see the bytes, where
/// they are kept.
#[derive(Drop)]
pub struct Kept {
    bytes: Vec<u8>,
    is_long: bool,
}

impl Model for Kept {
    ghost use Rattle.std.specs.Prelude.{ℕ, ◌≤◌, ◌^◌, List, Option, Some, None, if◌then◌else◌, length};

    ghost Value = { Option (List ℕ) };

    ghost view = { λ kept. if kept.is_long then None else Some kept.bytes.items };

    ghost invariant = { λ kept. length kept.bytes.items ≤ 2 ^ 20 };
}

impl Kept {
    ghost use Rattle.std.specs.Prelude.{◌≡◌, ◌≤◌, ◌+◌, ℕ, [], List, ◌++◌, Some, length, OnOk, OnErr, option_map};
    ghost use Rattle.edge_main.specs.Document.{kept_of};

    /// Nothing has come yet. Takes no memory.
    pub fn new(alloc: Global) -> Kept
        ensures { result ≡ kept_of [] }
    {
        Kept {
            bytes: Vec::new(alloc),
            is_long: false,
        }
    }

    /// More has come. Memory is wanted for what may still be a document alone.
    pub fn add(&mut self, piece: &[u8]) -> Result<(), Memory>
        ensures ok { OnOk result ((before : List ℕ) → self.old ≡ kept_of before → self.new ≡ kept_of (before ++ piece.now)) }
        ensures err { OnErr result ((before : List ℕ) → self.old ≡ kept_of before → length before + length piece.now ≤ 1048576) }
    {
        if self.is_long {
            return Ok(());
        }
        if MOST - self.bytes.len() < piece.len() {
            self.is_long = true;
            self.bytes.clear();
            return Ok(());
        }
        self.bytes.extend_from_slice(piece)?;
        Ok(())
    }

    /// What is kept. Takes no memory.
    pub fn bytes(&self) -> Option<&[u8]>
        ensures { option_map (λ bytes. bytes.now) result ≡ self.now }
    {
        if self.is_long {
            None
        } else {
            Some(self.bytes.as_slice())
        }
    }
}
