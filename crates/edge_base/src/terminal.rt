use crate::address::Addr;
use crate::expression::Order;
use crate::text::Text;

/// What a token means to the grammar, with its value: a word and its sign are one terminal, and so are a text and a
/// raw text.
#[derive(Debug, Drop)]
pub enum Terminal {
    Name(Text),
    Text(Text),
    Number(i64),
    Address(Addr),
    /// An address, and how many of its first bits count.
    Block(Addr, u16),
    /// The name of a list, without its `$`.
    ListName(Text),
    Not,
    And,
    Xor,
    Or,
    True,
    False,
    Order(Order),
    Contains,
    Matches,
    Wildcard,
    Strict,
    In,
    Open,
    Close,
    OpenIndex,
    CloseIndex,
    OpenItems,
    CloseItems,
    Comma,
    Star,
    /// `..`
    To,
}
