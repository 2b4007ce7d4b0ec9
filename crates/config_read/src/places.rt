ghost use Rattle.std.specs.Prelude.{◌≡◌, ◌++◌, IfOk, OnOk};
ghost use Rattle.edge_base.specs.Printed.{escaped};
ghost use Rattle.config_read.specs.Places.{pointed, placed, child, nth};

use edge_base::{Memory, Text, TextBuilder};
use std::alloc::Global;

fn push_byte(out: &mut TextBuilder, byte: u8) -> Result<(), Memory>
    ensures { OnOk result (out.new ≡ out.old ++ escaped (pointed byte)) }
{
    match byte {
        b'~' => out.push(b"~0"),
        b'/' => out.push(b"~1"),
        _ => out.push_escaped(&[byte]),
    }
}

fn push_name(out: &mut TextBuilder, name: &[u8]) -> Result<(), Memory>
    ensures { OnOk result (out.new ≡ out.old ++ placed name.now) }
{
    for &byte in name {
        push_byte(out, byte)?;
    }
    Ok(())
}

/// The place of the member of this name.
pub(crate) fn child(alloc: Global, place: &[u8], name: &[u8]) -> Result<Text, Memory>
    ensures { IfOk result (λ text. text ≡ child place.now name.now) }
{
    let mut out = TextBuilder::new(alloc);
    out.push(place)?;
    out.push(b"/")?;
    push_name(&mut out, name)?;
    Ok(out.into_text())
}

/// The place of the element with this number, from 0.
pub(crate) fn nth(alloc: Global, place: &[u8], number: usize) -> Result<Text, Memory>
    ensures { IfOk result (λ text. text ≡ nth place.now number) }
{
    let mut out = TextBuilder::new(alloc);
    out.push(place)?;
    out.push(b"/")?;
    out.push_number(number as u64)?;
    Ok(out.into_text())
}
