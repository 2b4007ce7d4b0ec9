use crate::dynamic::Dynamic;
use edge_base::Text;
use sqlite_items::Items;

/// What becomes of the path and of the query.
#[derive(Drop)]
pub struct UriRewrite {
    pub path: Option<Dynamic>,
    pub query: Option<Dynamic>,
}

/// What is done to the headers of a name.
#[derive(Drop)]
pub enum Operation {
    Set(Dynamic),
    Add(Dynamic),
    Remove,
}

/// One change of headers.
#[derive(Drop)]
pub struct HeaderRewrite {
    pub name: Text,
    pub operation: Operation,
}

/// Changes of headers, in byte order of the names in lower case.
pub type HeaderRewrites = Items<HeaderRewrite>;

/// A change of a request, or of the headers of a reply.
#[derive(Drop)]
pub struct Rewrite {
    pub uri: Option<UriRewrite>,
    pub headers: Option<HeaderRewrites>,
}
