//! Patterns of `regex`, over bytes.
ghost use Rattle.std.specs.Prelude.{◌≡◌, is_some, IfOk, OnOk, IsErrOf};
ghost use Rattle.regex.specs.Bytes.{captures_haystack, captures_span};
ghost use Rattle.text_match.specs.Patterns.{IsPattern, first_match, text_at, replaced};
ghost use Rattle.text_match.specs.Regexes.{fault_for, captured_texts, IsReplaced};

use crate::expression::Built;
use crate::replacement::fill;
use edge_base::{Memory, Text, TextBuilder, Texts};
use regex::Error;
use regex::bytes::{Captures, Regex};
use sqlite_items::Items;
use std::alloc::Global;
use std::marker::Model;
use thiserror::Error as Fault;

/// Why no pattern was built.
#[derive(Clone, Copy, Debug, PartialEq, Eq, Fault)]
pub enum PatternFault {
    #[error("the text is no pattern, or nests too deeply")]
    Syntax,
    #[error("the pattern is too big")]
    Size,
    #[error("out of memory")]
    Memory,
}

/// A built pattern. Contracts see its text.
#[derive(Drop)]
pub struct Pattern {
    built: Built,
}

impl Model for Pattern {
    ghost use Rattle.std.specs.Prelude.{List, ℕ};
    ghost use Rattle.regex.specs.Bytes.{regex_source};
    ghost use Rattle.text_match.specs.Regexes.{IsOfItsText};

    ghost Value = { List ℕ };

    ghost view = { λ pattern. regex_source pattern.built };

    ghost invariant = { λ pattern. IsOfItsText pattern.built };
}

fn fault_for(error: Error) -> PatternFault
    ensures { result ≡ fault_for error }
{
    match error {
        Error::Syntax(_) => PatternFault::Syntax,
        Error::CompiledTooBig | Error::Internal => PatternFault::Size,
        Error::OutOfMemory => PatternFault::Memory,
    }
}

/// What a group of a match holds; nothing where it took no part, or is beyond the last.
fn group_text<'h>(captures: &Captures<'_, 'h>, group: usize) -> &'h [u8]
    ensures { result.now ≡ text_at (captures_haystack captures.now) (captures_span captures.now group) }
{
    match captures.get(group) {
        Some(found) => found.as_bytes(),
        None => &[],
    }
}

/// What the groups 1 to 8 of a match hold.
fn group_texts(alloc: Global, captures: &Captures<'_, '_>) -> Result<Texts, Memory>
    ensures { IfOk result (λ texts. texts ≡ captured_texts captures.now) }
{
    let mut texts = Items::new(alloc);
    for group in 1..9 {
        texts.push(Text::of(alloc, group_text(captures, group))?)?;
    }
    Ok(texts)
}

/// The text with a match replaced.
fn replace(
    alloc: Global,
    text: &[u8],
    captures: &Captures<'_, '_>,
    replacement: &[u8],
) -> Result<Text, Memory>
    requires { captures_haystack captures.now ≡ text.now }
    ensures { IfOk result (IsReplaced text.now replacement.now captures.now) }
{
    let found = captures.get_match();
    let groups = group_texts(alloc, captures)?;
    let filled = fill(alloc, replacement, groups.as_slice())?;
    let mut whole = TextBuilder::new(alloc);
    whole.push(&text[..found.start()])?;
    whole.push(filled.bytes())?;
    whole.push(&text[found.end()..])?;
    Ok(whole.into_text())
}

impl Pattern {
    /// Builds the pattern of a text.
    pub fn build(alloc: Global, pattern: &[u8]) -> Result<Pattern, PatternFault>
        ensures ok { IfOk result (λ built. built ≡ pattern.now) }
        ensures is_pattern { OnOk result (IsPattern pattern.now) }
        ensures syntax { IsErrOf result PatternFault.Syntax → ¬ (IsPattern pattern.now) }
        ensures size { IsErrOf result PatternFault.Size → IsPattern pattern.now }
    {
        let Ok(source) = str::from_utf8(pattern) else {
            return Err(PatternFault::Syntax);
        };
        match Regex::new(alloc, source) {
            Ok(regex) => match Built::new(alloc, regex) {
                Ok(built) => Ok(Pattern { built }),
                Err(_) => Err(PatternFault::Memory),
            },
            Err(error) => Err(fault_for(error)),
        }
    }

    /// Whether the pattern matches somewhere in a text. Makes one matcher.
    pub fn is_match(&self, alloc: Global, text: &[u8]) -> Result<bool, Memory>
        ensures { IfOk result (λ found. found ≡ is_some (first_match self.now text.now)) }
    {
        let mut matcher = self.built.get().matcher(alloc)?;
        Ok(matcher.is_match(text))
    }

    /// The text with the leftmost match replaced, or as it is where there is none.
    pub fn replace_first(
        &self,
        alloc: Global,
        text: &[u8],
        replacement: &[u8],
    ) -> Result<Text, Memory>
        ensures { IfOk result (λ whole. whole ≡ replaced text.now replacement.now (first_match self.now text.now)) }
    {
        let mut matcher = self.built.get().matcher(alloc)?;
        match matcher.captures(text) {
            Some(captures) => replace(alloc, text, &captures, replacement),
            None => Text::of(alloc, text),
        }
    }
}
