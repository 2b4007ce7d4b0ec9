ghost use Rattle.std.specs.Prelude.{◌≡◌, ◌/◌, ◌↔◌, pos, Some, None, IfOk, IfSome};
ghost use Rattle.std.specs.Option.{option_copied};
ghost use Rattle.edge_fields.specs.Target.{uri_of};
ghost use Rattle.edge_fields.specs.Fields.{host_of, version_of, full_uri_of, field_of, LacksReply};
ghost use Rattle.edge_fields.specs.Names.{field_kind};
ghost use Rattle.edge_fields.specs.Kinds.{HasKind};
ghost use Rattle.edge_fields.specs.declared.value.Value.TheVariants as value;

use crate::arguments::{argument_names, argument_values, arguments_of};
use crate::field_id::FieldId;
use crate::headers::{first_value, header_names, header_values, pairs_of};
use crate::target::{path_of, query_of, uri_of};
use crate::value::{Value, map};
use edge_base::{Memory, Reply, Request, Text, TextBuilder};
use std::alloc::Global;

/// The host as the client names it. Takes no memory.
pub fn host_of(request: &Request) -> &[u8]
    ensures { result.now ≡ host_of request.now }
{
    first_value(request.headers.as_slice(), b"host")
}

/// The version of HTTP. Takes no memory.
pub fn version_of(request: &Request) -> &'static [u8]
    ensures { result.now ≡ version_of request.now }
{
    request.version()
}

/// The uri in one text.
fn uri_text(alloc: Global, request: &Request) -> Result<Text, Memory>
    ensures { IfOk result (λ text. text ≡ uri_of request.now.target) }
{
    let uri = uri_of(request);
    let mut text = TextBuilder::new(alloc);
    text.push(uri.root)?;
    text.push(uri.rest)?;
    Ok(text.into_text())
}

/// The uri with its scheme and its host in front.
fn full_uri(alloc: Global, request: &Request) -> Result<Text, Memory>
    ensures { IfOk result (λ text. text ≡ full_uri_of request.now) }
{
    let uri = uri_of(request);
    let scheme: &[u8] = if request.ssl { b"https" } else { b"http" };
    let mut text = TextBuilder::new(alloc);
    text.push(scheme)?;
    text.push(b"://")?;
    text.push(host_of(request))?;
    text.push(uri.root)?;
    text.push(uri.rest)?;
    Ok(text.into_text())
}

/// The number of seconds in the moment of a request.
fn seconds(request: &Request) -> i64
    ensures { result ≡ pos (request.now.at / 1000) }
{
    (request.at.get() / 1000) as i64
}

/// A text field, with its bytes copied.
fn text_value(alloc: Global, bytes: &[u8]) -> Result<Option<Value>, Memory>
    ensures { IfOk result (λ found. found ≡ Some (value.Text bytes.now)) }
{
    Ok(Some(Value::Text(Text::of(alloc, bytes)?)))
}

/// A field of a request and of its reply, by the table of fields.
fn computed(
    alloc: Global,
    request: &Request,
    reply: Option<&Reply>,
    id: FieldId,
) -> Result<Option<Value>, Memory>
    ensures { IfOk result (λ found. found ≡ field_of request.now (option_copied reply.entry) id) }
{
    let headers = request.headers.as_slice();
    match id {
        FieldId::Host => text_value(alloc, host_of(request)),
        FieldId::Cookie => text_value(alloc, first_value(headers, b"cookie")),
        FieldId::Referer => text_value(alloc, first_value(headers, b"referer")),
        FieldId::UserAgent => text_value(alloc, first_value(headers, b"user-agent")),
        FieldId::Method => text_value(alloc, request.method.bytes()),
        FieldId::Uri => Ok(Some(Value::Text(uri_text(alloc, request)?))),
        FieldId::Path => text_value(alloc, path_of(request)),
        FieldId::Query => text_value(alloc, query_of(request)),
        FieldId::FullUri => Ok(Some(Value::Text(full_uri(alloc, request)?))),
        FieldId::Version => text_value(alloc, version_of(request)),
        FieldId::Source => Ok(Some(Value::Addr(request.from))),
        FieldId::Ssl => Ok(Some(Value::Bool(request.ssl))),
        FieldId::Timestamp => Ok(Some(Value::Num(seconds(request)))),
        FieldId::Headers => Ok(Some(map(alloc, pairs_of(alloc, headers)?)?)),
        FieldId::HeaderNames => Ok(Some(header_names(alloc, headers)?)),
        FieldId::HeaderValues => Ok(Some(header_values(alloc, headers)?)),
        FieldId::Args => Ok(Some(map(alloc, arguments_of(alloc, query_of(request))?)?)),
        FieldId::ArgNames => Ok(Some(argument_names(alloc, query_of(request))?)),
        FieldId::ArgValues => Ok(Some(argument_values(alloc, query_of(request))?)),
        FieldId::ResponseCode => match reply {
            Some(reply) => Ok(Some(Value::Num(i64::from(reply.status)))),
            None => Ok(None),
        },
        FieldId::ResponseHeaders => match reply {
            Some(reply) => { Ok(Some(map(alloc, pairs_of(alloc, reply.headers.as_slice())?)?)) }
            None => Ok(None),
        },
    }
}

/// A field of a request and of its reply.
pub fn field(
    alloc: Global,
    request: &Request,
    reply: Option<&Reply>,
    id: FieldId,
) -> Result<Option<Value>, Memory>
    ensures value { IfOk result (λ found. found ≡ field_of request.now (option_copied reply.entry) id) }
    ensures missing { IfOk result (λ found. (found ≡ None) ↔ LacksReply (option_copied reply.entry) id) }
    ensures kind { IfOk result (λ found. IfSome found (HasKind (field_kind id))) }
{
    computed(alloc, request, reply, id)
}
