ghost use Rattle.std.specs.Prelude.{◌≡◌, bytes_eq};
ghost use Rattle.edge_base.specs.Spellings.{joining_words, order_words, test_words, truth_words, brackets, marks, joining_signs, order_signs, test_signs};
ghost use Rattle.edge_base.specs.Terminal.{spelled, reserved, symbol};

use edge_base::{Order, Terminal};

/// Whether a text is this word.
pub fn is(text: &[u8], word: &str) -> bool
    ensures { result ≡ bytes_eq text.now word.now }
{
    text == word.as_bytes()
}

fn joining_word(text: &[u8]) -> Option<Terminal>
    ensures { result ≡ spelled joining_words text.now }
{
    if is(text, "not") {
        return Some(Terminal::Not);
    }
    if is(text, "and") {
        return Some(Terminal::And);
    }
    if is(text, "xor") {
        return Some(Terminal::Xor);
    }
    if is(text, "or") {
        return Some(Terminal::Or);
    }
    None
}

fn order_word(text: &[u8]) -> Option<Terminal>
    ensures { result ≡ spelled order_words text.now }
{
    if is(text, "eq") {
        return Some(Terminal::Order(Order::Eq));
    }
    if is(text, "ne") {
        return Some(Terminal::Order(Order::Ne));
    }
    if is(text, "lt") {
        return Some(Terminal::Order(Order::Lt));
    }
    if is(text, "le") {
        return Some(Terminal::Order(Order::Le));
    }
    if is(text, "gt") {
        return Some(Terminal::Order(Order::Gt));
    }
    if is(text, "ge") {
        return Some(Terminal::Order(Order::Ge));
    }
    None
}

fn test_word(text: &[u8]) -> Option<Terminal>
    ensures { result ≡ spelled test_words text.now }
{
    if is(text, "contains") {
        return Some(Terminal::Contains);
    }
    if is(text, "matches") {
        return Some(Terminal::Matches);
    }
    if is(text, "in") {
        return Some(Terminal::In);
    }
    if is(text, "wildcard") {
        return Some(Terminal::Wildcard);
    }
    if is(text, "strict") {
        return Some(Terminal::Strict);
    }
    None
}

fn truth_word(text: &[u8]) -> Option<Terminal>
    ensures { result ≡ spelled truth_words text.now }
{
    if is(text, "true") {
        return Some(Terminal::True);
    }
    if is(text, "false") {
        return Some(Terminal::False);
    }
    None
}

fn bracket(text: &[u8]) -> Option<Terminal>
    ensures { result ≡ spelled brackets text.now }
{
    if is(text, "(") {
        return Some(Terminal::Open);
    }
    if is(text, ")") {
        return Some(Terminal::Close);
    }
    if is(text, "[") {
        return Some(Terminal::OpenIndex);
    }
    if is(text, "]") {
        return Some(Terminal::CloseIndex);
    }
    if is(text, "{") {
        return Some(Terminal::OpenItems);
    }
    if is(text, "}") {
        return Some(Terminal::CloseItems);
    }
    None
}

fn mark(text: &[u8]) -> Option<Terminal>
    ensures { result ≡ spelled marks text.now }
{
    if is(text, ",") {
        return Some(Terminal::Comma);
    }
    if is(text, "*") {
        return Some(Terminal::Star);
    }
    if is(text, "..") {
        return Some(Terminal::To);
    }
    None
}

fn joining_sign(text: &[u8]) -> Option<Terminal>
    ensures { result ≡ spelled joining_signs text.now }
{
    if is(text, "!") {
        return Some(Terminal::Not);
    }
    if is(text, "&&") {
        return Some(Terminal::And);
    }
    if is(text, "^^") {
        return Some(Terminal::Xor);
    }
    if is(text, "||") {
        return Some(Terminal::Or);
    }
    None
}

fn order_sign(text: &[u8]) -> Option<Terminal>
    ensures { result ≡ spelled order_signs text.now }
{
    if is(text, "==") {
        return Some(Terminal::Order(Order::Eq));
    }
    if is(text, "!=") {
        return Some(Terminal::Order(Order::Ne));
    }
    if is(text, "<") {
        return Some(Terminal::Order(Order::Lt));
    }
    if is(text, "<=") {
        return Some(Terminal::Order(Order::Le));
    }
    if is(text, ">") {
        return Some(Terminal::Order(Order::Gt));
    }
    if is(text, ">=") {
        return Some(Terminal::Order(Order::Ge));
    }
    None
}

fn test_sign(text: &[u8]) -> Option<Terminal>
    ensures { result ≡ spelled test_signs text.now }
{
    if is(text, "~") {
        return Some(Terminal::Matches);
    }
    None
}

/// The terminal of a reserved word.
pub fn reserved(text: &[u8]) -> Option<Terminal>
    ensures { result ≡ reserved text.now }
{
    if let Some(terminal) = joining_word(text) {
        return Some(terminal);
    }
    if let Some(terminal) = order_word(text) {
        return Some(terminal);
    }
    if let Some(terminal) = test_word(text) {
        return Some(terminal);
    }
    truth_word(text)
}

/// The terminal of a symbol.
pub fn symbol(text: &[u8]) -> Option<Terminal>
    ensures { result ≡ symbol text.now }
{
    if let Some(terminal) = bracket(text) {
        return Some(terminal);
    }
    if let Some(terminal) = mark(text) {
        return Some(terminal);
    }
    if let Some(terminal) = joining_sign(text) {
        return Some(terminal);
    }
    if let Some(terminal) = order_sign(text) {
        return Some(terminal);
    }
    test_sign(text)
}
