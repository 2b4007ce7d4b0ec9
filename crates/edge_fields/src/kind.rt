/// A kind of values that hold no others.
#[derive(Clone, Copy, Debug, PartialEq, Eq)]
pub enum Basic {
    Text,
    Num,
    Addr,
    Bool,
}

/// A kind of values. A map is one of texts to arrays of texts.
#[derive(Clone, Copy, Debug, PartialEq, Eq)]
pub enum Kind {
    One(Basic),
    Array(Basic),
    Map,
}
