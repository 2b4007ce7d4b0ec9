ghost use Rattle.std.specs.Prelude.{◌≡◌, ◌≤◌, ◌⊎◌, [], ◌++◌, length};
ghost use Rattle.std.specs.List.{position_or_len, before_first, after_first};
ghost use Rattle.std.specs.Option.{option_map};
ghost use Rattle.std.specs.Str.{str_eq_ignore_ascii_case};
ghost use Rattle.edge_fields.specs.Target.{is_question, ends_authority, after_front, after_scheme, after_authority, root_of, added_root, uri_after, uri_of, path_of, query_of};

use crate::cuts::{after, before};
use edge_base::Request;
use memchr::memchr2;

/// A uri, as two parts that follow one another. The first is `/` where that has to be put in front, else empty.
#[derive(Clone, Copy)]
pub struct UriParts<'a> {
    pub root: &'a [u8],
    pub rest: &'a [u8],
}

/// Whether two names are one, ASCII case ignored.
pub(crate) fn is_same_name(name: &[u8], other: &[u8]) -> bool
    ensures { result ≡ str_eq_ignore_ascii_case name.now other.now }
{
    name.eq_ignore_ascii_case(other)
}

/// What follows `front`, where the text begins with it, ASCII case ignored.
fn after_front<'a>(text: &'a [u8], front: &[u8]) -> Option<&'a [u8]>
    ensures { option_map (λ rest. rest.now) result ≡ after_front front.now text.now }
{
    if text.len() < front.len() {
        return None;
    }
    let (start, rest) = text.split_at(front.len());
    if is_same_name(start, front) {
        Some(rest)
    } else {
        None
    }
}

/// What follows the scheme of a target in absolute form.
fn after_scheme(target: &[u8]) -> Option<&[u8]>
    ensures { option_map (λ rest. rest.now) result ≡ after_scheme target.now }
{
    match after_front(target, b"http://") {
        Some(rest) => Some(rest),
        None => after_front(target, b"https://"),
    }
}

/// How long an authority is.
#[tactic(auto, using(crate::proofs::PlaceLemmas::first_byte_position))]
fn authority_len(text: &[u8]) -> usize
    ensures value { result ≡ position_or_len ends_authority text.now }
    ensures within { result ≤ length text.now }
{
    memchr2(b'/', b'?', text).unwrap_or(text.len())
}

/// What follows an authority.
fn after_authority(text: &[u8]) -> &[u8]
    ensures { result.now ≡ after_authority text.now }
{
    let (_, rest) = text.split_at(authority_len(text));
    rest
}

/// `/` where a text doesn't begin with it, else nothing.
fn root_of(text: &[u8]) -> &'static [u8]
    ensures { result.now ≡ root_of text.now }
{
    match text {
        [b'/', ..] => b"",
        _ => b"/",
    }
}

/// The uri of what follows a scheme.
#[tactic(auto, using(crate::proofs::TargetLemmas::root_is_path, crate::proofs::TargetLemmas::query_of_rooted))]
fn absolute_uri(text: &[u8]) -> UriParts<'_>
    ensures joined { result.root.now ++ result.rest.now ≡ uri_after text.now }
    ensures root { result.root.now ≡ root_of (after_authority text.now) }
    ensures path { (result.root.now ≡ []) ⊎ (result.root.now ≡ before_first is_question (uri_after text.now)) }
    ensures query { after_first is_question result.rest.now ≡ after_first is_question (uri_after text.now) }
{
    let rest = after_authority(text);
    UriParts {
        root: root_of(rest),
        rest,
    }
}

/// The uri of a request. Takes no memory.
pub fn uri_of(request: &Request) -> UriParts<'_>
    ensures joined { result.root.now ++ result.rest.now ≡ uri_of request.now.target }
    ensures root { result.root.now ≡ added_root request.now.target }
    ensures path { (result.root.now ≡ []) ⊎ (result.root.now ≡ path_of request.now.target) }
    ensures query { after_first is_question result.rest.now ≡ query_of request.now.target }
{
    let target = request.target.bytes();
    match after_scheme(target) {
        Some(rest) => absolute_uri(rest),
        None => UriParts {
            root: b"",
            rest: target,
        },
    }
}

/// The path of a request. Takes no memory.
pub fn path_of(request: &Request) -> &[u8]
    ensures { result.now ≡ path_of request.now.target }
{
    let uri = uri_of(request);
    if uri.root.is_empty() {
        before(b'?', uri.rest)
    } else {
        uri.root
    }
}

/// The query of a request. Takes no memory.
pub fn query_of(request: &Request) -> &[u8]
    ensures { result.now ≡ query_of request.now.target }
{
    after(b'?', uri_of(request).rest)
}
