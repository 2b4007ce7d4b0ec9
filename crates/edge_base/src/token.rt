use sqlite_items::Items;

/// What a token of the Rules language is.
#[derive(Clone, Copy, Debug, PartialEq, Eq)]
pub enum TokenKind {
    Name,
    Reserved,
    Number,
    Address,
    Block,
    Text,
    RawText,
    ListName,
    Symbol,
}

/// One token: its kind, and the bytes `start .. end` of the text that it is.
#[derive(Clone, Copy, Debug, PartialEq, Eq)]
pub struct Token {
    pub kind: TokenKind,
    pub start: u32,
    pub end: u32,
}

/// A list of tokens.
pub type Tokens = Items<Token>;
