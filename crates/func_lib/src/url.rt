//! The function of URL encoding.
ghost use Rattle.std.specs.Prelude.{◌≡◌, map, IfOk};
ghost use Rattle.func_lib.specs.Urls.{unescaped, url_decoded, url_decode_of};

use crate::arguments::one_text;
use edge_base::{Memory, Text};
use edge_fields::Value;
use percent_encoding::percent_decode;
use std::alloc::Global;

/// A text with each `+` as a blank.
fn with_blanks(alloc: Global, text: &[u8]) -> Result<Vec<u8>, Memory>
    ensures { IfOk result (λ blanks. blanks.items ≡ map unescaped text.now) }
{
    let mut blanks = Vec::new(alloc);
    for &byte in text {
        blanks.push(if byte == b'+' { b' ' } else { byte })?;
    }
    Ok(blanks)
}

/// A text, decoded in one pass. The blanks come first: no `+` is a digit of an escape, and none comes out of one.
#[tactic(auto, using(crate::proofs::UrlLemmas::url_decoded_by_escapes))]
fn url_decoded(alloc: Global, text: &[u8]) -> Result<Text, Memory>
    ensures { IfOk result (λ decoded. decoded ≡ url_decoded text.now) }
{
    let blanks = with_blanks(alloc, text)?;
    let mut bytes = Vec::new(alloc);
    percent_decode(blanks.as_slice()).append_to(&mut bytes)?;
    Ok(Text::from_vec(bytes))
}

/// `url_decode(text)`
pub(crate) fn url_decode(alloc: Global, args: &[Value]) -> Result<Option<Value>, Memory>
    ensures { IfOk result (λ found. found ≡ url_decode_of args.now) }
{
    match one_text(args) {
        Some(text) => Ok(Some(Value::Text(url_decoded(alloc, text)?))),
        None => Ok(None),
    }
}
