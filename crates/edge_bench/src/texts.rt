//! Lists of texts.
ghost use Rattle.std.specs.Prelude.{IfOk};
ghost use Rattle.list_store.specs.Parts.{IsListOf};

use crate::faults::Fault;
use crate::spread::{Places, number_at};
use edge_base::{Memory, Text, Texts};
use edge_fields::Basic;
use list_store::{ListPart, Lists};
use sqlite_items::Items;
use std::alloc::Global;

/// The most texts of a list.
const MOST_SIZE: u32 = 50_000;

/// The text of a place: sixteen bytes. Different places have different texts.
fn text_at(place: u32) -> [u8; 16] {
    number_at(place).to_be_bytes()
}

/// The texts of the places before an end.
fn texts_before(alloc: Global, end: u32) -> Result<Texts, Memory> {
    let mut texts = Items::new(alloc);
    for place in 0..end {
        texts.push(Text::of(alloc, &text_at(place))?)?;
    }
    Ok(texts)
}

/// One list, of these texts.
fn list_of(alloc: Global, items: Texts) -> Result<Lists, Fault>
    ensures { IfOk result (λ lists. IsListOf lists 0 Basic.Text) }
{
    let mut parts = Items::new(alloc);
    parts.push(ListPart {
        name: Text::of(alloc, b"names")?,
        kind: Basic::Text,
        items,
    })?;
    Ok(Lists::build(alloc, parts)?)
}

/// How many of the texts that were asked for are in the list. About half of them are its own.
pub fn texts_found(alloc: Global, size: u32, rounds: u32) -> Result<u64, Fault> {
    if size == 0 || size > MOST_SIZE {
        return Err(Fault::Usage);
    }
    let lists = list_of(alloc, texts_before(alloc, size)?)?;
    let mut places = Places::new();
    let mut found = 0u64;
    for _ in 0..rounds {
        let place = places.next(2 * size);
        found = found.wrapping_add(u64::from(lists.has_text(0, &text_at(place))));
    }
    Ok(found)
}
