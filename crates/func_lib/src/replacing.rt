//! Functions that replace.
ghost use Rattle.std.specs.Prelude.{◌≡◌, IfOk};
ghost use Rattle.std.specs.Option.{option_map, option_copied};
ghost use Rattle.text_match.specs.Takes.{first_takes, TakesAreFirst};
ghost use Rattle.func_lib.specs.Replacing.{strict_of, wildcard_arguments, wild_of, filled_or, wildcard_replace_of};
ghost use Rattle.func_lib.specs.Replacing.{first_replaced, regex_replace_of};
ghost use Rattle.func_lib.specs.Arguments.{parts_of};

use crate::arguments::{ThreeTexts, optional_text, texts_of_three, three_texts};
use edge_base::{Memory, Text, Texts};
use edge_fields::Value;
use std::alloc::Global;
use text_match::{Pattern, Wild, WildFault, fill};

/// The wildcard that a pattern is, unless it has a fault.
fn wild_of(alloc: Global, pattern: &[u8]) -> Result<Option<Wild>, Memory>
    ensures { IfOk result (λ found. found ≡ wild_of pattern.now) }
{
    match Wild::build(alloc, pattern) {
        Ok(wild) => Ok(Some(wild)),
        Err(WildFault::DoubleStar | WildFault::BadEscape) => Ok(None),
        Err(WildFault::Memory) => Err(Memory),
    }
}

/// The first takes of a wildcard in a text.
#[tactic(auto, using(text_match::proofs::TakeLemmas::takes_found))]
fn first_takes(
    alloc: Global,
    wild: &Wild,
    strict: bool,
    text: &[u8],
) -> Result<Option<Texts>, Memory>
    ensures { IfOk result (λ found. found ≡ first_takes wild.now strict text.now) }
{
    wild.takes(alloc, text, strict)
}

/// The replacement filled with the first takes, or the text as it is.
fn filled_or(
    alloc: Global,
    wild: &Wild,
    strict: bool,
    text: &[u8],
    replacement: &[u8],
) -> Result<Text, Memory>
    ensures { IfOk result (λ whole. whole ≡ filled_or text.now replacement.now (first_takes wild.now strict text.now)) }
{
    match first_takes(alloc, wild, strict, text)? {
        Some(takes) => fill(alloc, replacement, takes.as_slice()),
        None => Text::of(alloc, text),
    }
}

/// Whether flags make a wildcard strict.
fn strict_of(flags: Option<&[u8]>) -> Option<bool>
    ensures { result ≡ strict_of (option_copied flags.entry) }
{
    match flags {
        None => Some(false),
        Some(flags) => if flags == b"s".as_slice() {
            Some(true)
        } else {
            None
        },
    }
}

/// A text, a wildcard, a replacement, and whether the wildcard is strict.
fn wildcard_arguments(args: &[Value]) -> Option<(ThreeTexts<'_>, bool)>
    ensures { option_map (λ found. (parts_of found.0, found.1)) result ≡ wildcard_arguments args.now }
{
    let (texts, flags) = match args {
        [text, pattern, replacement] => (texts_of_three(text, pattern, replacement)?, None),
        [text, pattern, replacement, flags] => (
            texts_of_three(text, pattern, replacement)?,
            Some(flags),
        ),
        _ => return None,
    };
    let strict = strict_of(optional_text(flags)?)?;
    Some((texts, strict))
}

/// `wildcard_replace(text, pattern, replacement)` and `wildcard_replace(text, pattern, replacement, flags)`
pub(crate) fn wildcard_replace(alloc: Global, args: &[Value]) -> Result<Option<Value>, Memory>
    ensures { IfOk result (λ found. found ≡ wildcard_replace_of args.now) }
{
    let Some((texts, strict)) = wildcard_arguments(args) else {
        return Ok(None);
    };
    let Some(wild) = wild_of(alloc, texts.second)? else {
        return Ok(None);
    };
    let text = filled_or(alloc, &wild, strict, texts.first, texts.third)?;
    Ok(Some(Value::Text(text)))
}

/// The text with the first match of a pattern replaced. A pattern that `regex` refuses is answered as want of memory.
fn first_replaced(alloc: Global, texts: &ThreeTexts<'_>) -> Result<Text, Memory>
    ensures { IfOk result (λ whole. whole ≡ first_replaced (parts_of texts.now)) }
{
    match Pattern::build(alloc, texts.second) {
        Ok(pattern) => pattern.replace_first(alloc, texts.first, texts.third),
        Err(_) => Err(Memory),
    }
}

/// `regex_replace(text, pattern, replacement)`
pub(crate) fn regex_replace(alloc: Global, args: &[Value]) -> Result<Option<Value>, Memory>
    ensures { IfOk result (λ found. found ≡ regex_replace_of args.now) }
{
    match three_texts(args) {
        Some(texts) => Ok(Some(Value::Text(first_replaced(alloc, &texts)?))),
        None => Ok(None),
    }
}

/// A law: the first takes are the least that match.
pub fn takes_are_first()
    ensures { TakesAreFirst }
{}
