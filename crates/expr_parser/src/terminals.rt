ghost use Rattle.std.specs.Prelude.{◌≡◌, ◌≤◌, ◌==◌, length, IfOk};
ghost use Rattle.std.specs.List.{position_or_len, after_first};
ghost use Rattle.edge_base.specs.Token.{IsTokenOf, words_of};
ghost use Rattle.edge_base.specs.Terminal.{IsTerminalOf, AreTerminals};
ghost use Rattle.expr_parser.specs.Parsed.{AreTokensOf};

use crate::numbers::{bits_of, number_of};
use crate::spellings::{reserved, symbol};
use crate::texts::{list_name_of, quoted_text_of, raw_text_of};
use edge_base::{Memory, Terminal, Text, Token, TokenKind, parse_addr};
use std::alloc::Global;

fn word(text: &[u8]) -> Terminal
    requires { IsTokenOf TokenKind.Reserved text.now }
    ensures { IsTerminalOf TokenKind.Reserved text.now result }
{
    let Some(terminal) = reserved(text) else {
        unreachable!();
    };
    terminal
}

fn sign(text: &[u8]) -> Terminal
    requires { IsTokenOf TokenKind.Symbol text.now }
    ensures { IsTerminalOf TokenKind.Symbol text.now result }
{
    let Some(terminal) = symbol(text) else {
        unreachable!();
    };
    terminal
}

fn number(text: &[u8]) -> Terminal
    requires { IsTokenOf TokenKind.Number text.now }
    ensures { IsTerminalOf TokenKind.Number text.now result }
{
    let Some(number) = number_of(text) else {
        unreachable!();
    };
    Terminal::Number(number)
}

fn address(text: &[u8]) -> Terminal
    requires { IsTokenOf TokenKind.Address text.now }
    ensures { IsTerminalOf TokenKind.Address text.now result }
{
    let Some(addr) = parse_addr(text) else {
        unreachable!();
    };
    Terminal::Address(addr)
}

/// The place of the first `/`, or the text's length.
fn slash(text: &[u8]) -> usize
    ensures place { result ≡ position_or_len (λ byte. byte == 47) text.now }
    ensures within { result ≤ length text.now }
{
    text.iter().take_while(|byte| **byte != b'/').count()
}

/// What stands behind the first `/`.
fn behind_slash(text: &[u8]) -> &[u8]
    ensures { result.now ≡ after_first (λ byte. byte == 47) text.now }
{
    let at = slash(text);
    if at < text.len() {
        &text[at + 1..]
    } else {
        &text[at..]
    }
}

fn block(text: &[u8]) -> Terminal
    requires { IsTokenOf TokenKind.Block text.now }
    ensures { IsTerminalOf TokenKind.Block text.now result }
{
    let at = slash(text);
    let Some(addr) = parse_addr(&text[..at]) else {
        unreachable!();
    };
    let Some(bits) = bits_of(behind_slash(text)) else {
        unreachable!();
    };
    Terminal::Block(addr, bits)
}

fn quoted(alloc: Global, text: &[u8]) -> Result<Terminal, Memory>
    requires { IsTokenOf TokenKind.Text text.now }
    ensures { IfOk result (λ t. IsTerminalOf TokenKind.Text text.now t) }
{
    let Some(bytes) = quoted_text_of(alloc, text)? else {
        unreachable!();
    };
    Ok(Terminal::Text(bytes))
}

fn raw(alloc: Global, text: &[u8]) -> Result<Terminal, Memory>
    requires { IsTokenOf TokenKind.RawText text.now }
    ensures { IfOk result (λ t. IsTerminalOf TokenKind.RawText text.now t) }
{
    let Some(bytes) = raw_text_of(alloc, text)? else {
        unreachable!();
    };
    Ok(Terminal::Text(bytes))
}

fn list_name(alloc: Global, text: &[u8]) -> Result<Terminal, Memory>
    requires { IsTokenOf TokenKind.ListName text.now }
    ensures { IfOk result (λ t. IsTerminalOf TokenKind.ListName text.now t) }
{
    let Some(name) = list_name_of(alloc, text)? else {
        unreachable!();
    };
    Ok(Terminal::ListName(name))
}

/// The terminal of a token of this kind with this spelling.
fn terminal_of(alloc: Global, kind: TokenKind, text: &[u8]) -> Result<Terminal, Memory>
    requires { IsTokenOf kind text.now }
    ensures { IfOk result (λ t. IsTerminalOf kind text.now t) }
{
    match kind {
        TokenKind::Name => Ok(Terminal::Name(Text::of(alloc, text)?)),
        TokenKind::Reserved => Ok(word(text)),
        TokenKind::Number => Ok(number(text)),
        TokenKind::Address => Ok(address(text)),
        TokenKind::Block => Ok(block(text)),
        TokenKind::Text => quoted(alloc, text),
        TokenKind::RawText => raw(alloc, text),
        TokenKind::ListName => list_name(alloc, text),
        TokenKind::Symbol => Ok(sign(text)),
    }
}

/// The terminals of the tokens of a text.
pub fn terminals_of(alloc: Global, text: &[u8], tokens: &[Token]) -> Result<Vec<Terminal>, Memory>
    requires { AreTokensOf text.now tokens.now }
    ensures { IfOk result (λ terminals. AreTerminals (words_of text.now tokens.now) terminals.items) }
{
    let mut terminals = Vec::new(alloc);
    for token in tokens {
        let spelling = &text[token.start as usize..token.end as usize];
        terminals.push(terminal_of(alloc, token.kind, spelling)?)?;
    }
    Ok(terminals)
}
