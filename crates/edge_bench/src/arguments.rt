//! Fields of a request that has many arguments.
use crate::faults::Fault;
use crate::spread::number_at;
use edge_base::{Addr, Memory, Moment, Request, Text, TextBuilder};
use edge_fields::{FieldId, Value, field};
use sqlite_items::Items;
use std::alloc::Global;

/// The most arguments.
const MOST_SIZE: u32 = 50_000;

/// What the names of the arguments look like. All differ.
#[derive(Clone, Copy, Debug, PartialEq, Eq)]
pub enum Names {
    /// Numbers in no order.
    Spread,
    /// The same 64 bytes and then a number, so that a comparison goes far.
    Alike,
}

/// What the names that look alike begin with.
const FRONT: &[u8] = b"aaaaaaaaaaaaaaaaaaaaaaaaaaaaaaaaaaaaaaaaaaaaaaaaaaaaaaaaaaaaaaaa";

/// A target with this many arguments.
fn target_of(alloc: Global, names: Names, size: u32) -> Result<Text, Memory> {
    let mut target = TextBuilder::new(alloc);
    target.push(b"/?")?;
    for place in 0..size {
        match names {
            Names::Spread => target.push_number((number_at(place) >> 64) as u64)?,
            Names::Alike => {
                target.push(FRONT)?;
                target.push_number(u64::from(place))?;
            }
        }
        target.push(b"=1&")?;
    }
    Ok(target.into_text())
}

/// A request for a target.
fn request_for(alloc: Global, target: Text) -> Result<Request, Fault> {
    let Some(at) = Moment::of(0) else {
        return Err(Fault::Refused);
    };
    Ok(Request {
        at,
        from: Addr::V4(1),
        ssl: false,
        method: Text::of(alloc, b"GET")?,
        target,
        minor: 1,
        headers: Items::new(alloc),
        body: Text::of(alloc, b"")?,
    })
}

/// How many keys or items a value has.
fn size_of(value: Option<Value>) -> u64 {
    match value {
        Some(Value::Map(map)) => map.len() as u64,
        Some(Value::Array(values)) => values.len() as u64,
        _ => 0,
    }
}

/// How many keys or items the field had in all rounds.
pub fn arguments_found(
    alloc: Global,
    id: FieldId,
    names: Names,
    size: u32,
    rounds: u32,
) -> Result<u64, Fault> {
    if size > MOST_SIZE {
        return Err(Fault::Usage);
    }
    let request = request_for(alloc, target_of(alloc, names, size)?)?;
    let mut found = 0u64;
    for _ in 0..rounds {
        found = found.wrapping_add(size_of(field(alloc, &request, None, id)?));
    }
    Ok(found)
}
