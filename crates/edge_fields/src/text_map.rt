ghost use Rattle.std.specs.Prelude.{◌≡◌, [], ◌∷◌, ◌++◌, length, OnOk, OnErr, IfOk, None, bytes_eq};
ghost use Rattle.std.specs.List.{position_from};
ghost use Rattle.std.specs.Option.{option_copied};
ghost use Rattle.std.specs.Map.{keys_of, lookup};
ghost use Rattle.edge_fields.specs.Maps.{with_value};

use edge_base::{Memory, Text, Texts, copy_texts};
use sqlite_items::Items;
use std::alloc::Global;
use std::collections::BTreeMap;
use std::marker::Model;

/// A map of texts to arrays of texts, with its keys in the order in which they first came.
/// Contracts see the list of its entries, whose keys are distinct. A key is found by comparison alone, since a hash
/// that a client knows would let it choose keys that make a map slow.
#[derive(Drop)]
pub struct TextMap {
    entries: Vec<(Text, Texts)>,
    /// The place of each key among the entries.
    places: BTreeMap<Vec<u8>, usize>,
}

impl Model for TextMap {
    ghost use Rattle.std.specs.Prelude.{List, ℕ};
    ghost use Rattle.std.specs.Map.{keys_of};
    ghost use Rattle.edge_fields.specs.Places.{ArePlaces};

    ghost Value = { List (List ℕ × List (List ℕ)) };

    ghost view = { λ m. m.entries.items };

    ghost invariant = { λ m. ArePlaces (keys_of m.entries.items) m.places };
}

impl TextMap {
    /// A map without entries. Takes no memory.
    pub fn new(alloc: Global) -> TextMap
        ensures { result ≡ [] }
    {
        TextMap {
            entries: Vec::new(alloc),
            places: BTreeMap::new(alloc),
        }
    }

    /// Takes no memory.
    pub fn len(&self) -> usize
        ensures { result ≡ length self.now }
    {
        self.entries.len()
    }

    /// The place of a key among the keys.
    fn place_of(&self, key: &[u8]) -> Option<usize>
        ensures { result ≡ position_from (bytes_eq key.now) 0 (keys_of self.now) }
    {
        self.places.get(key).copied()
    }

    /// The texts of a key. Takes no memory.
    pub fn get(&self, key: &Text) -> Option<&Texts>
        ensures { option_copied result ≡ lookup (bytes_eq key.now) self.now }
    {
        match self.place_of(key.bytes()) {
            Some(at) => Some(&self.entries[at].1),
            None => None,
        }
    }

    /// Puts the entry of a new key last.
    fn put(&mut self, alloc: Global, key: Text, texts: Texts) -> Result<(), Memory>
        requires { position_from (bytes_eq key) 0 (keys_of self.old) ≡ None }
        ensures ok { OnOk result (self.new ≡ self.old ++ (key, texts) ∷ []) }
        ensures err { OnErr result (self.new ≡ self.old) }
    {
        let place = self.entries.len();
        let name = Vec::from_slice(alloc, key.bytes())?;
        self.entries.push((key, texts))?;
        if self.places.insert(name, place).is_err() {
            let _ = self.entries.pop();
            return Err(Memory);
        }
        Ok(())
    }

    /// Puts one more value at the end of those of a key, and a new key last. A refusal leaves the map as it was.
    pub fn add(&mut self, alloc: Global, key: Text, value: Text) -> Result<(), Memory>
        ensures ok { OnOk result (self.new ≡ with_value self.old key value) }
        ensures err { OnErr result (self.new ≡ self.old) }
    {
        match self.place_of(key.bytes()) {
            Some(at) => self.entries[at].1.push(value)?,
            None => {
                let mut values = Items::new(alloc);
                values.push(value)?;
                self.put(alloc, key, values)?;
            }
        }
        Ok(())
    }

    pub fn copy(&self, alloc: Global) -> Result<TextMap, Memory>
        ensures { IfOk result (λ map. map ≡ self.now) }
    {
        let mut map = TextMap::new(alloc);
        for (key, texts) in self.entries.iter() {
            map.put(
                alloc,
                key.copy(alloc)?,
                copy_texts(alloc, texts.as_slice())?,
            )?;
        }
        Ok(map)
    }
}
