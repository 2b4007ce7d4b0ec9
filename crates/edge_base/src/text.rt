ghost use Rattle.std.specs.Prelude.{◌≡◌, [], ◌∷◌, ◌++◌, IfOk, OnOk, OnErr};

use crate::refusal::Memory;
use sqlite_items::Items;
use std::alloc::Global;
use std::hash::{Hash, Hasher};
use std::marker::Model;

/// A text: any bytes, compared byte by byte. Contracts see the list of its bytes.
#[derive(Debug, Drop)]
pub struct Text {
    bytes: Vec<u8>,
}

/// A list of texts.
pub type Texts = Items<Text>;

impl Model for Text {
    ghost use Rattle.std.specs.Prelude.{List, ℕ};

    ghost Value = { List ℕ };

    ghost view = { λ text. text.bytes.items };
}

impl PartialEq for Text {
    ghost use Rattle.std.specs.Cmp.Lexicographic.{nat_list_eq_equiv, pointwise};
    ghost use Rattle.std.specs.Cmp.{partial_equiv_from_equiv};
    ghost use Rattle.std.specs.Prelude.{nat_eq};

    ghost eq = { pointwise nat_eq };

    ghost laws = { partial_equiv_from_equiv nat_list_eq_equiv };

    fn eq(&self, other: &Text) -> bool {
        self.bytes.as_slice() == other.bytes.as_slice()
    }
}

impl Eq for Text {
    ghost use Rattle.std.specs.Cmp.Lexicographic.{nat_list_eq_equiv};

    ghost laws = { nat_list_eq_equiv };
}

impl Hash for Text {
    ghost use Rattle.std.specs.Hash as fed;
    ghost use Rattle.std.proofs.Common.{rules};
    ghost use Rattle.std.specs.Cmp.Rules.{hashing};

    ghost hash_input = { λ t. fed.slice fed.u8 t };

    ghost respects_eq = { Prim.search (hashing, rules) };

    fn hash<H: Hasher>(&self, state: &mut H) {
        self.bytes.as_slice().hash(state);
    }
}

impl Text {
    /// A text of a copy of these bytes.
    pub fn of(alloc: Global, bytes: &[u8]) -> Result<Text, Memory>
        ensures { IfOk result (λ text. text ≡ bytes.now) }
    {
        let bytes = Vec::from_slice(alloc, bytes)?;
        Ok(Text { bytes })
    }

    /// A text of these bytes, without a copy. Takes no memory.
    pub fn from_vec(bytes: Vec<u8>) -> Text
        ensures { result ≡ bytes.items }
    {
        Text { bytes }
    }

    /// Takes no memory.
    pub fn bytes(&self) -> &[u8]
        ensures { result.now ≡ self.now }
    {
        self.bytes.as_slice()
    }

    pub fn copy(&self, alloc: Global) -> Result<Text, Memory>
        ensures { IfOk result (λ text. text ≡ self.now) }
    {
        Text::of(alloc, self.bytes())
    }
}

/// A copy of each text, in order.
pub fn copy_texts(alloc: Global, texts: &[Text]) -> Result<Texts, Memory>
    ensures { IfOk result (λ copy. copy ≡ texts.now) }
{
    let mut copy = Items::new(alloc);
    for text in texts {
        copy.push(text.copy(alloc)?)?;
    }
    Ok(copy)
}
