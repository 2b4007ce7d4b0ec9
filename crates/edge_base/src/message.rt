ghost use Rattle.std.specs.Prelude.{◌≡◌, ◌≤◌, IfOk};
ghost use Rattle.edge_base.specs.Version.{version_text};

use crate::address::Addr;
use crate::moment::Moment;
use crate::refusal::Memory;
use crate::text::Text;
use sqlite_items::Items;
use std::alloc::Global;

/// One header field, with its name as sent.
#[derive(Debug, PartialEq, Eq, Hash, Drop)]
pub struct Header {
    pub name: Text,
    pub value: Text,
}

/// A list of header fields.
pub type Headers = Items<Header>;

/// A request as it came, or as rules have rewritten it.
#[derive(Debug, Drop)]
pub struct Request {
    /// When it came.
    pub at: Moment,
    /// The peer.
    pub from: Addr,
    /// Whether the listener says that it came over TLS.
    pub ssl: bool,
    pub method: Text,
    pub target: Text,
    /// The minor version of HTTP/1: 0 or 1.
    pub minor: u8,
    pub headers: Headers,
    pub body: Text,
    ghost within: { minor ≤ 1 },
}

/// A reply of an origin.
#[derive(Debug, Drop)]
pub struct Reply {
    pub status: u16,
    pub headers: Headers,
    pub body: Text,
}

impl Header {
    pub fn copy(&self, alloc: Global) -> Result<Header, Memory>
        ensures { IfOk result (λ header. header ≡ self.now) }
    {
        Ok(Header {
            name: self.name.copy(alloc)?,
            value: self.value.copy(alloc)?,
        })
    }
}

/// A copy of each header, in order.
pub fn copy_headers(alloc: Global, headers: &[Header]) -> Result<Headers, Memory>
    ensures { IfOk result (λ copy. copy ≡ headers.now) }
{
    let mut copy = Items::new(alloc);
    for header in headers {
        copy.push(header.copy(alloc)?)?;
    }
    Ok(copy)
}

impl Request {
    /// The version of HTTP as it is written. Takes no memory.
    pub fn version(&self) -> &'static [u8]
        ensures { result.now ≡ version_text self.now.minor }
    {
        if self.minor == 0 {
            b"HTTP/1.0"
        } else {
            b"HTTP/1.1"
        }
    }

    pub fn copy(&self, alloc: Global) -> Result<Request, Memory>
        ensures { IfOk result (λ request. request ≡ self.now) }
    {
        Ok(Request {
            at: self.at,
            from: self.from,
            ssl: self.ssl,
            method: self.method.copy(alloc)?,
            target: self.target.copy(alloc)?,
            minor: self.minor,
            headers: copy_headers(alloc, self.headers.as_slice())?,
            body: self.body.copy(alloc)?,
        })
    }
}

impl Reply {
    pub fn copy(&self, alloc: Global) -> Result<Reply, Memory>
        ensures { IfOk result (λ reply. reply ≡ self.now) }
    {
        Ok(Reply {
            status: self.status,
            headers: copy_headers(alloc, self.headers.as_slice())?,
            body: self.body.copy(alloc)?,
        })
    }
}
