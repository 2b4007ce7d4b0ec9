//! The arguments of a call, taken apart by their number and kinds.
ghost use Rattle.std.specs.Prelude.{◌≡◌};
ghost use Rattle.std.specs.Option.{option_map, option_copied};
ghost use Rattle.edge_fields.specs.Values.{text_in, number_in, truth_in, items_in, entries_in};
ghost use Rattle.func_lib.specs.Arguments.{only_of, one_text, pair_of, two_texts, two_or_three, optional_of};
ghost use Rattle.func_lib.specs.Arguments.{one_or_two, triple_of, parts_of, texts_of_three, three_texts, three_or_four};

use edge_base::Text;
use edge_fields::{TextMap, Value};

/// The only argument.
pub(crate) fn only_of(args: &[Value]) -> Option<&Value>
    ensures { option_copied result ≡ only_of args.now }
{
    match args {
        [value] => Some(value),
        _ => None,
    }
}

/// The only argument, a text.
pub(crate) fn one_text(args: &[Value]) -> Option<&[u8]>
    ensures { option_copied result ≡ one_text args.now }
{
    Some(only_of(args)?.as_text()?.bytes())
}

/// Two arguments.
pub(crate) fn pair_of(args: &[Value]) -> Option<(&Value, &Value)>
    ensures { option_map (λ pair. (pair.0.now, pair.1.now)) result ≡ pair_of args.now }
{
    match args {
        [first, second] => Some((first, second)),
        _ => None,
    }
}

/// Two arguments, both texts.
pub(crate) fn two_texts(args: &[Value]) -> Option<(&[u8], &[u8])>
    ensures { option_map (λ pair. (pair.0.now, pair.1.now)) result ≡ two_texts args.now }
{
    let (first, second) = pair_of(args)?;
    Some((first.as_text()?.bytes(), second.as_text()?.bytes()))
}

/// Two arguments, or three.
pub(crate) fn two_or_three(args: &[Value]) -> Option<(&Value, &Value, Option<&Value>)>
    ensures { option_map (λ found. (found.0.now, found.1.now, option_copied found.2)) result ≡ two_or_three args.now }
{
    match args {
        [first, second] => Some((first, second, None)),
        [first, second, third] => Some((first, second, Some(third))),
        _ => None,
    }
}

/// The number that an argument is which may be left out.
pub(crate) fn optional_number(value: Option<&Value>) -> Option<Option<i64>>
    ensures { result ≡ optional_of number_in (option_copied value.entry) }
{
    match value {
        Some(value) => Some(Some(value.as_number()?)),
        None => Some(None),
    }
}

/// The text that an argument is which may be left out.
pub(crate) fn optional_text(value: Option<&Value>) -> Option<Option<&[u8]>>
    ensures { option_map option_copied result ≡ optional_of text_in (option_copied value.entry) }
{
    match value {
        Some(value) => Some(Some(value.as_text()?.bytes())),
        None => Some(None),
    }
}

/// An argument, or two.
pub(crate) fn one_or_two(args: &[Value]) -> Option<(&Value, Option<&Value>)>
    ensures { option_map (λ found. (found.0.now, option_copied found.1)) result ≡ one_or_two args.now }
{
    match args {
        [first] => Some((first, None)),
        [first, second] => Some((first, Some(second))),
        _ => None,
    }
}

/// Three texts.
#[derive(Clone, Copy)]
pub(crate) struct ThreeTexts<'a> {
    pub(crate) first: &'a [u8],
    pub(crate) second: &'a [u8],
    pub(crate) third: &'a [u8],
}

/// What three values are, all texts.
pub(crate) fn texts_of_three<'a>(
    first: &'a Value,
    second: &'a Value,
    third: &'a Value,
) -> Option<ThreeTexts<'a>>
    ensures { option_map parts_of result ≡ texts_of_three (first.now, second.now, third.now) }
{
    Some(ThreeTexts {
        first: first.as_text()?.bytes(),
        second: second.as_text()?.bytes(),
        third: third.as_text()?.bytes(),
    })
}

/// Three arguments, all texts.
pub(crate) fn three_texts(args: &[Value]) -> Option<ThreeTexts<'_>>
    ensures { option_map parts_of result ≡ three_texts args.now }
{
    match args {
        [first, second, third] => texts_of_three(first, second, third),
        _ => None,
    }
}
