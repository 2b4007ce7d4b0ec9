ghost use Rattle.std.specs.Prelude.{◌≤◌};

use edge_base::{Addr, Headers, Moment, Reply, Text};

/// What the object of a request tells. The moment is none where it is out of range, the peer where its text is no
/// address.
#[derive(Drop)]
pub struct Told {
    pub at: Option<Moment>,
    pub from: Option<Addr>,
    pub ssl: bool,
    pub method: Text,
    pub target: Text,
    pub minor: u8,
    pub headers: Headers,
    ghost within: { minor ≤ 1 },
}

/// What the object of a request tells whose head and body stand as they were sent. The moment is none where it is out of
/// range, the peer where its text is no address.
#[derive(Drop)]
pub struct Sent {
    pub at: Option<Moment>,
    pub from: Option<Addr>,
    pub ssl: bool,
    pub bytes: Text,
}

/// What an object tells of a reply: the reply, and its moment, which is none where it is out of range.
pub type ToldReply = (Reply, Option<Moment>);
