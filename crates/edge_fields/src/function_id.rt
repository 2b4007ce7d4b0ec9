ghost use Rattle.std.specs.Prelude.{◌≡◌, ◌≢◌, All, MatchOption};
ghost use Rattle.edge_fields.specs.Names.{AreUnnamed, function_kind, function_name};

use crate::kind::{Basic, Kind};

/// A function of the Rules language.
#[derive(Clone, Copy, Debug, PartialEq, Eq)]
pub enum FunctionId {
    Any,
    All,
    Lower,
    Upper,
    Len,
    Substring,
    RemoveBytes,
    StartsWith,
    EndsWith,
    Concat,
    ToString,
    HasKey,
    HasValue,
    Split,
    Join,
    LookupJsonString,
    LookupJsonInteger,
    EncodeBase64,
    DecodeBase64,
    UrlDecode,
    WildcardReplace,
    RegexReplace,
}

/// Every function.
const FUNCTIONS: [FunctionId; 22] = [
    FunctionId::Any,
    FunctionId::All,
    FunctionId::Lower,
    FunctionId::Upper,
    FunctionId::Len,
    FunctionId::Substring,
    FunctionId::RemoveBytes,
    FunctionId::StartsWith,
    FunctionId::EndsWith,
    FunctionId::Concat,
    FunctionId::ToString,
    FunctionId::HasKey,
    FunctionId::HasValue,
    FunctionId::Split,
    FunctionId::Join,
    FunctionId::LookupJsonString,
    FunctionId::LookupJsonInteger,
    FunctionId::EncodeBase64,
    FunctionId::DecodeBase64,
    FunctionId::UrlDecode,
    FunctionId::WildcardReplace,
    FunctionId::RegexReplace,
];

impl FunctionId {
    /// Takes no memory.
    pub fn name(self) -> &'static [u8]
        ensures { result.now ≡ function_name self }
    {
        match self {
            FunctionId::Any => b"any",
            FunctionId::All => b"all",
            FunctionId::Lower => b"lower",
            FunctionId::Upper => b"upper",
            FunctionId::Len => b"len",
            FunctionId::Substring => b"substring",
            FunctionId::RemoveBytes => b"remove_bytes",
            FunctionId::StartsWith => b"starts_with",
            FunctionId::EndsWith => b"ends_with",
            FunctionId::Concat => b"concat",
            FunctionId::ToString => b"to_string",
            FunctionId::HasKey => b"has_key",
            FunctionId::HasValue => b"has_value",
            FunctionId::Split => b"split",
            FunctionId::Join => b"join",
            FunctionId::LookupJsonString => b"lookup_json_string",
            FunctionId::LookupJsonInteger => b"lookup_json_integer",
            FunctionId::EncodeBase64 => b"encode_base64",
            FunctionId::DecodeBase64 => b"decode_base64",
            FunctionId::UrlDecode => b"url_decode",
            FunctionId::WildcardReplace => b"wildcard_replace",
            FunctionId::RegexReplace => b"regex_replace",
        }
    }

    /// The kind of what it gives, applied to values. Takes no memory.
    pub fn kind(self) -> Kind
        ensures { result ≡ function_kind self }
    {
        match self {
            FunctionId::Any
            | FunctionId::All
            | FunctionId::StartsWith
            | FunctionId::EndsWith
            | FunctionId::HasKey
            | FunctionId::HasValue => Kind::One(Basic::Bool),
            FunctionId::Len | FunctionId::LookupJsonInteger => Kind::One(Basic::Num),
            FunctionId::Split => Kind::Array(Basic::Text),
            FunctionId::Lower
            | FunctionId::Upper
            | FunctionId::Substring
            | FunctionId::RemoveBytes
            | FunctionId::Concat
            | FunctionId::ToString
            | FunctionId::Join
            | FunctionId::LookupJsonString
            | FunctionId::EncodeBase64
            | FunctionId::DecodeBase64
            | FunctionId::UrlDecode
            | FunctionId::WildcardReplace
            | FunctionId::RegexReplace => Kind::One(Basic::Text),
        }
    }
}

/// The first of some functions that has a name.
fn first_named(functions: &[FunctionId], name: &[u8]) -> Option<FunctionId>
    ensures { MatchOption result (AreUnnamed functions.now name.now) (λ id. function_name id ≡ name.now) }
{
    for &id in functions {
        if id.name() == name {
            return Some(id);
        }
    }
    None
}

/// The function of a name. Takes no memory.
#[tactic(auto, using(crate::proofs::NamesLemmas::named_of_functions))]
pub fn function_named(name: &[u8]) -> Option<FunctionId>
    ensures { MatchOption result ((id : FunctionId) → function_name id ≢ name.now) (λ id. function_name id ≡ name.now) }
{
    first_named(&FUNCTIONS, name)
}
