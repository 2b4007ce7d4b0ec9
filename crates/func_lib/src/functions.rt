//! The functions by their names.
ghost use Rattle.std.specs.Prelude.{◌≡◌, IfOk, IfSome};
ghost use Rattle.edge_fields.specs.Kinds.{HasKind};
ghost use Rattle.edge_fields.specs.Names.{function_kind};
ghost use Rattle.func_lib.specs.Functions.{function_of, FunctionsKeepKinds};

use crate::{array, base64_text, json, replacing, text, url};
use edge_base::Memory;
use edge_fields::{FunctionId, Value};
use std::alloc::Global;

/// What a function gives of some arguments. A pattern of `regex_replace` that `regex` refuses is answered `Memory`.
pub fn call(alloc: Global, id: FunctionId, args: &[Value]) -> Result<Option<Value>, Memory>
    ensures value { IfOk result (λ found. found ≡ function_of id args.now) }
    ensures kind { IfOk result (λ found. IfSome found (HasKind (function_kind id))) }
{
    match id {
        FunctionId::Any => Ok(array::any(args)),
        FunctionId::All => Ok(array::all(args)),
        FunctionId::Lower => text::lower(alloc, args),
        FunctionId::Upper => text::upper(alloc, args),
        FunctionId::Len => Ok(array::len(args)),
        FunctionId::Substring => text::substring(alloc, args),
        FunctionId::RemoveBytes => text::remove_bytes(alloc, args),
        FunctionId::StartsWith => Ok(text::starts_with(args)),
        FunctionId::EndsWith => Ok(text::ends_with(args)),
        FunctionId::Concat => text::concat(alloc, args),
        FunctionId::ToString => text::to_string(alloc, args),
        FunctionId::HasKey => Ok(array::has_key(args)),
        FunctionId::HasValue => Ok(array::has_value(args)),
        FunctionId::Split => array::split(alloc, args),
        FunctionId::Join => array::join(alloc, args),
        FunctionId::LookupJsonString => json::lookup_json_string(alloc, args),
        FunctionId::LookupJsonInteger => json::lookup_json_integer(alloc, args),
        FunctionId::EncodeBase64 => base64_text::encode_base64(alloc, args),
        FunctionId::DecodeBase64 => base64_text::decode_base64(alloc, args),
        FunctionId::UrlDecode => url::url_decode(alloc, args),
        FunctionId::WildcardReplace => replacing::wildcard_replace(alloc, args),
        FunctionId::RegexReplace => replacing::regex_replace(alloc, args),
    }
}

/// A law: what a function gives is of the function's kind.
pub fn functions_keep_kinds()
    ensures { FunctionsKeepKinds }
{}
