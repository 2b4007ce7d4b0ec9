use edge_base::Text;
use sqlite_items::Items;

/// What rules change of a request. The changes of headers are in byte order of their names.
#[derive(Debug, Drop)]
pub struct Changes {
    pub path: Option<Text>,
    pub query: Option<Text>,
    pub headers: HeaderChanges,
}

/// What is changed of the headers of a name.
#[derive(Debug, Drop)]
pub struct HeaderChange {
    pub name: Text,
    pub change: Change,
}

#[derive(Debug, Drop)]
pub enum Change {
    /// One header with this value, in the place of the first.
    Set(Text),
    /// One more header with this value, at the end.
    Add(Text),
    Remove,
}

/// A list of changes.
pub type HeaderChanges = Items<HeaderChange>;
