ghost use Rattle.std.specs.Prelude.{◌≡◌, ◌≢◌, All, MatchOption};
ghost use Rattle.edge_fields.specs.Names.{field_name, field_kind, is_response};

use crate::kind::{Basic, Kind};

/// A field of a request or of its reply.
#[derive(Clone, Copy, Debug, PartialEq, Eq)]
pub enum FieldId {
    Host,
    Cookie,
    Referer,
    UserAgent,
    Method,
    Uri,
    Path,
    Query,
    FullUri,
    Version,
    Source,
    Ssl,
    Timestamp,
    Headers,
    HeaderNames,
    HeaderValues,
    Args,
    ArgNames,
    ArgValues,
    ResponseCode,
    ResponseHeaders,
}

/// Every field.
const FIELDS: [FieldId; 21] = [
    FieldId::Host,
    FieldId::Cookie,
    FieldId::Referer,
    FieldId::UserAgent,
    FieldId::Method,
    FieldId::Uri,
    FieldId::Path,
    FieldId::Query,
    FieldId::FullUri,
    FieldId::Version,
    FieldId::Source,
    FieldId::Ssl,
    FieldId::Timestamp,
    FieldId::Headers,
    FieldId::HeaderNames,
    FieldId::HeaderValues,
    FieldId::Args,
    FieldId::ArgNames,
    FieldId::ArgValues,
    FieldId::ResponseCode,
    FieldId::ResponseHeaders,
];

impl FieldId {
    /// Takes no memory.
    pub fn name(self) -> &'static [u8]
        ensures { result.now ≡ field_name self }
    {
        match self {
            FieldId::Host => b"http.host",
            FieldId::Cookie => b"http.cookie",
            FieldId::Referer => b"http.referer",
            FieldId::UserAgent => b"http.user_agent",
            FieldId::Method => b"http.request.method",
            FieldId::Uri => b"http.request.uri",
            FieldId::Path => b"http.request.uri.path",
            FieldId::Query => b"http.request.uri.query",
            FieldId::FullUri => b"http.request.full_uri",
            FieldId::Version => b"http.request.version",
            FieldId::Source => b"ip.src",
            FieldId::Ssl => b"ssl",
            FieldId::Timestamp => b"http.request.timestamp.sec",
            FieldId::Headers => b"http.request.headers",
            FieldId::HeaderNames => b"http.request.headers.names",
            FieldId::HeaderValues => b"http.request.headers.values",
            FieldId::Args => b"http.request.uri.args",
            FieldId::ArgNames => b"http.request.uri.args.names",
            FieldId::ArgValues => b"http.request.uri.args.values",
            FieldId::ResponseCode => b"http.response.code",
            FieldId::ResponseHeaders => b"http.response.headers",
        }
    }

    /// The kind of the field's values. Takes no memory.
    pub fn kind(self) -> Kind
        ensures { result ≡ field_kind self }
    {
        match self {
            FieldId::Source => Kind::One(Basic::Addr),
            FieldId::Ssl => Kind::One(Basic::Bool),
            FieldId::Timestamp | FieldId::ResponseCode => Kind::One(Basic::Num),
            FieldId::Headers | FieldId::Args | FieldId::ResponseHeaders => Kind::Map,
            FieldId::HeaderNames | FieldId::HeaderValues | FieldId::ArgNames | FieldId::ArgValues =>
                Kind::Array(Basic::Text),
            _ => Kind::One(Basic::Text),
        }
    }

    /// Whether the field is one of the reply. Takes no memory.
    pub fn is_response(self) -> bool
        ensures { result ≡ is_response self }
    {
        self == FieldId::ResponseCode || self == FieldId::ResponseHeaders
    }
}

/// The first of some fields that has a name.
fn first_named(fields: &[FieldId], name: &[u8]) -> Option<FieldId>
    ensures { MatchOption result (All (λ id. field_name id ≢ name.now) fields.now) (λ id. field_name id ≡ name.now) }
{
    for &id in fields {
        if id.name() == name {
            return Some(id);
        }
    }
    None
}

/// The field of a name. Takes no memory.
#[tactic(auto, using(crate::proofs::NamesLemmas::named_of_fields))]
pub fn field_named(name: &[u8]) -> Option<FieldId>
    ensures { MatchOption result ((id : FieldId) → field_name id ≢ name.now) (λ id. field_name id ≡ name.now) }
{
    first_named(&FIELDS, name)
}
