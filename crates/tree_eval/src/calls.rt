//! Calls of functions, with what their arguments give.
ghost use Rattle.std.specs.Prelude.{◌≡◌, [], ◌∷◌, ◌++◌, map, IfOk, OnOk};
ghost use Rattle.std.specs.List.{cons_option, filter_map};
ghost use Rattle.std.specs.Option.{option_and_then};
ghost use Rattle.type_check.specs.Meaning.{alone, all_of, is_quantifier, takes_whole, or_false};
ghost use Rattle.tree_eval.specs.Calls.{with_last, result_of, called_of, call_of};
ghost use Rattle.tree_eval.specs.Seen.{seen};

use crate::sense::Sense;
use edge_base::Memory;
use edge_fields::{FunctionId, Value, Values, copy_values};
use func_lib::call;
use sqlite_items::Items;
use std::alloc::Global;

/// `any` or `all`.
fn is_quantifier(id: FunctionId) -> bool
    ensures { result ≡ is_quantifier id }
{
    matches!(id, FunctionId::Any | FunctionId::All)
}

/// Whether a function is applied to an array as a whole.
fn takes_whole(id: FunctionId) -> bool
    ensures { result ≡ takes_whole id }
{
    match id {
        FunctionId::Len | FunctionId::Join | FunctionId::HasValue | FunctionId::HasKey => true,
        _ => is_quantifier(id),
    }
}

/// `any` and `all` are false where there is no array to ask. Takes no memory.
fn or_false(id: FunctionId, found: Option<Value>) -> Option<Value>
    ensures { result ≡ or_false id found }
{
    match found {
        None if is_quantifier(id) => Some(Value::Bool(false)),
        _ => found,
    }
}

/// A value and copies of further ones.
fn joined(alloc: Global, first: Value, further: &[Value]) -> Result<Values, Memory>
    ensures { IfOk result (λ values. values ≡ first ∷ further.now) }
{
    let mut values = Items::new(alloc);
    values.push(first)?;
    values.append(copy_values(alloc, further)?)?;
    Ok(values)
}

/// What a function gives of a value and further ones, where none of these is missing.
fn result_of(
    alloc: Global,
    id: FunctionId,
    further: &Option<Values>,
    first: Value,
) -> Result<Option<Value>, Memory>
    ensures { IfOk result (λ found. found ≡ result_of id further.now first) }
{
    match further {
        Some(others) => call(
            alloc,
            id,
            joined(alloc, first, others.as_slice())?.as_slice(),
        ),
        None => Ok(None),
    }
}

/// Puts a value last, if there is one.
fn push_found(values: &mut Values, found: Option<Value>) -> Result<(), Memory>
    ensures { OnOk result (values.new ≡ values.old ++ cons_option found []) }
{
    if let Some(value) = found {
        values.push(value)?;
    }
    Ok(())
}

/// What a function gives of each of these values and further ones; missing results are left out.
fn mapped(
    alloc: Global,
    id: FunctionId,
    further: &Option<Values>,
    items: &[Value],
) -> Result<Values, Memory>
    ensures { IfOk result (λ results. results ≡ filter_map (result_of id further.now) items.now) }
{
    let mut results = Items::new(alloc);
    for item in items {
        let found = result_of(alloc, id, further, item.copy(alloc)?)?;
        push_found(&mut results, found)?;
    }
    Ok(results)
}

/// What a call gives, by what its first argument gives and by the values of the others.
fn called(
    alloc: Global,
    id: FunctionId,
    first: Sense,
    further: &Option<Values>,
) -> Result<Option<Value>, Memory>
    ensures { IfOk result (λ found. found ≡ called_of id (seen first) further.now) }
{
    match first {
        Sense::Single(Some(first)) => Ok(or_false(id, result_of(alloc, id, further, first)?)),
        Sense::Single(None) => Ok(or_false(id, None)),
        Sense::Spread(Some(items)) if !takes_whole(id) => {
            Ok(Some(Value::Array(mapped(alloc, id, further, items.as_slice())?)))
        }
        Sense::Spread(_) => Ok(None),
    }
}

/// Values with one more, where none is missing.
fn with_last(values: Option<Values>, last: Option<Value>) -> Result<Option<Values>, Memory>
    ensures { IfOk result (λ found. found ≡ with_last values last) }
{
    match (values, last) {
        (Some(mut values), Some(last)) => {
            values.push(last)?;
            Ok(Some(values))
        }
        _ => Ok(None),
    }
}

/// The values of what some nodes give, where none is missing.
fn all_of(alloc: Global, senses: Vec<Sense>) -> Result<Option<Values>, Memory>
    ensures { IfOk result (λ found. found ≡ all_of (map alone (map seen senses.items))) }
{
    let mut values = Some(Items::new(alloc));
    for sense in senses {
        values = with_last(values, sense.alone())?;
    }
    Ok(values)
}

/// What a call gives, by what its arguments give.
pub fn value_of_call(
    alloc: Global,
    id: FunctionId,
    args: Vec<Sense>,
) -> Result<Option<Value>, Memory>
    ensures { IfOk result (λ found. found ≡ call_of id (map seen args.items)) }
{
    if args.is_empty() {
        return Ok(or_false(id, call(alloc, id, &[])?));
    }
    let mut further = args;
    let first = further.remove(0);
    let further = all_of(alloc, further)?;
    called(alloc, id, first, &further)
}
