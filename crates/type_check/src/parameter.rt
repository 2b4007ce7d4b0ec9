//! The arguments that functions take.
ghost use Rattle.std.specs.Prelude.{◌≡◌, bytes_eq};
ghost use Rattle.std.specs.Option.{option_copied};
ghost use Rattle.type_check.specs.Parameters.{are_base64_flags, literal_fits, kind_fits, kind_held, takes, parameters_of, optional_of, number_parameters};

use crate::sort::Sort;
use edge_base::Lit;
use edge_fields::{Basic, FunctionId, Kind};

/// What a function takes at one place.
#[derive(Clone, Copy, Debug, PartialEq, Eq)]
pub enum Parameter {
    Text,
    Num,
    Map,
    Texts,
    Nums,
    Truths,
    /// A text or an array.
    TextOrArray,
    /// Anything but an array or a map.
    Single,
    /// A number, an address or a truth value.
    NoText,
    TextLiteral,
    /// A literal that leads into JSON: a text, or a number that isn't negative.
    StepLiteral,
    /// A literal of the letters `u` and `p`, each at most once.
    FlagsLiteral,
    /// The literal `s`.
    StrictLiteral,
}

const TRUTHS: [Parameter; 1] = [Parameter::Truths];

const TEXT: [Parameter; 1] = [Parameter::Text];

const TEXT_OR_ARRAY: [Parameter; 1] = [Parameter::TextOrArray];

const PLACES: [Parameter; 3] = [Parameter::Text, Parameter::Num, Parameter::Num];

const TEXT_AND_LITERAL: [Parameter; 2] = [Parameter::Text, Parameter::TextLiteral];

const TWO_TEXTS: [Parameter; 2] = [Parameter::Text, Parameter::Text];

const SINGLES: [Parameter; 16] = [Parameter::Single; 16];

const NO_TEXT: [Parameter; 1] = [Parameter::NoText];

const MAP_AND_KEY: [Parameter; 2] = [Parameter::Map, Parameter::Text];

const TEXTS_AND_TEXT: [Parameter; 2] = [Parameter::Texts, Parameter::Text];

const NUMS_AND_NUM: [Parameter; 2] = [Parameter::Nums, Parameter::Num];

const STEPS: [Parameter; 9] = [
    Parameter::Text,
    Parameter::StepLiteral,
    Parameter::StepLiteral,
    Parameter::StepLiteral,
    Parameter::StepLiteral,
    Parameter::StepLiteral,
    Parameter::StepLiteral,
    Parameter::StepLiteral,
    Parameter::StepLiteral,
];

const TEXT_AND_FLAGS: [Parameter; 2] = [Parameter::Text, Parameter::FlagsLiteral];

const WILDCARD: [Parameter; 4] = [
    Parameter::Text,
    Parameter::TextLiteral,
    Parameter::TextLiteral,
    Parameter::StrictLiteral,
];

const PATTERN: [Parameter; 3] = [
    Parameter::Text,
    Parameter::TextLiteral,
    Parameter::TextLiteral,
];

/// What a function takes, place by place.
pub fn parameters(id: FunctionId) -> &'static [Parameter]
    ensures { result.now ≡ parameters_of id }
{
    match id {
        FunctionId::Any | FunctionId::All => &TRUTHS,
        FunctionId::Lower | FunctionId::Upper | FunctionId::DecodeBase64 | FunctionId::UrlDecode =>
            &TEXT,
        FunctionId::Len => &TEXT_OR_ARRAY,
        FunctionId::Substring => &PLACES,
        FunctionId::RemoveBytes | FunctionId::Split => &TEXT_AND_LITERAL,
        FunctionId::StartsWith | FunctionId::EndsWith => &TWO_TEXTS,
        FunctionId::Concat => &SINGLES,
        FunctionId::ToString => &NO_TEXT,
        FunctionId::HasKey => &MAP_AND_KEY,
        FunctionId::HasValue | FunctionId::Join => &TEXTS_AND_TEXT,
        FunctionId::LookupJsonString | FunctionId::LookupJsonInteger => &STEPS,
        FunctionId::EncodeBase64 => &TEXT_AND_FLAGS,
        FunctionId::WildcardReplace => &WILDCARD,
        FunctionId::RegexReplace => &PATTERN,
    }
}

/// What `has_value` takes beside texts.
pub fn number_parameters() -> &'static [Parameter]
    ensures { result.now ≡ number_parameters }
{
    &NUMS_AND_NUM
}

/// How many of a function's last arguments may be left out.
pub fn optional(id: FunctionId) -> usize
    ensures { result ≡ optional_of id }
{
    match id {
        FunctionId::Substring | FunctionId::EncodeBase64 | FunctionId::WildcardReplace => 1,
        FunctionId::LookupJsonString | FunctionId::LookupJsonInteger => 7,
        FunctionId::Concat => 15,
        _ => 0,
    }
}

fn is_word(text: &[u8], word: &[u8]) -> bool
    ensures { result ≡ bytes_eq text.now word.now }
{
    text == word
}

fn are_flags(text: &[u8]) -> bool
    ensures { result ≡ are_base64_flags text.now }
{
    text.is_empty()
        || is_word(text, b"u")
        || is_word(text, b"p")
        || is_word(text, b"up")
        || is_word(text, b"pu")
}

fn literal_fits(parameter: Parameter, lit: &Lit) -> bool
    ensures { result ≡ literal_fits parameter lit.now }
{
    match (parameter, lit) {
        (Parameter::TextLiteral | Parameter::StepLiteral, Lit::Text(_)) => true,
        (Parameter::StepLiteral, Lit::Num(number)) => 0 <= *number,
        (Parameter::FlagsLiteral, Lit::Text(text)) => are_flags(text.bytes()),
        (Parameter::StrictLiteral, Lit::Text(text)) => is_word(text.bytes(), b"s"),
        _ => false,
    }
}

fn kind_fits(parameter: Parameter, kind: Kind) -> bool
    ensures { result ≡ kind_fits parameter kind }
{
    match (parameter, kind) {
        (Parameter::Text, Kind::One(Basic::Text))
        | (Parameter::Num, Kind::One(Basic::Num))
        | (Parameter::Map, Kind::Map)
        | (Parameter::Texts, Kind::Array(Basic::Text))
        | (Parameter::Nums, Kind::Array(Basic::Num))
        | (Parameter::Truths, Kind::Array(Basic::Bool))
        | (Parameter::TextOrArray, Kind::One(Basic::Text) | Kind::Array(_))
        | (Parameter::Single, Kind::One(_))
        | (Parameter::NoText, Kind::One(Basic::Num | Basic::Addr | Basic::Bool)) => true,
        _ => false,
    }
}

/// The kind of an argument, or of each element of one that is unpacked.
fn kind_held(sort: Option<Sort>) -> Option<Kind>
    ensures { result ≡ kind_held sort }
{
    match sort {
        Some(Sort::Plain(kind)) => Some(kind),
        Some(Sort::Each(of)) => Some(Kind::One(of)),
        None => None,
    }
}

/// Whether a parameter takes an argument, which may be a literal.
pub fn takes(parameter: Parameter, literal: Option<&Lit>, sort: Option<Sort>) -> bool
    ensures { result ≡ takes parameter (option_copied literal.entry) sort }
{
    let literal_fits = match literal {
        Some(lit) => literal_fits(parameter, lit),
        None => false,
    };
    let kind_fits = match kind_held(sort) {
        Some(kind) => kind_fits(parameter, kind),
        None => false,
    };
    literal_fits || kind_fits
}
