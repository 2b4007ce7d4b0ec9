//! The lexer, on an expression.
ghost use Rattle.std.specs.Prelude.{◌≡◌, ◌≤◌, IfOk, vec_len};

use crate::faults::Fault;
use expr_lexer::lex;
use std::alloc::{AllocError, Global};

/// The most bytes of an expression.
const MOST_SIZE: usize = 4096;

/// How the expression begins.
const FIRST: &[u8] = b"ssl";

/// How it goes on, over and over. Each kind of token stands here.
const NEXT: &[u8] =
    br##" or (http.host eq "shop.example" and not ip.src in {10.0.0.0/8 2001:db8::1 192.0.2.7} and http.request.uri.path matches r#"^/api/[0-9]+"# && len(http.user_agent) <= 120 and ip.src in $office)"##;

/// An expression of this many bytes: its first word, as many members as fit, and blanks.
fn expression_of(alloc: Global, size: usize) -> Result<Vec<u8>, AllocError>
    requires { 3 ≤ size }
    ensures { IfOk result (λ text. vec_len text ≡ size) }
{
    let mut text = Vec::from_slice(alloc, FIRST)?;
    for _ in 0..(size - FIRST.len()) / NEXT.len() {
        text.extend_from_slice(NEXT)?;
    }
    text.resize(size, b' ')?;
    Ok(text)
}

/// How many tokens the lexer gave in all rounds.
pub fn tokens_found(alloc: Global, size: u32, rounds: u32) -> Result<u64, Fault> {
    let size = size as usize;
    if size < FIRST.len() || size > MOST_SIZE {
        return Err(Fault::Usage);
    }
    let text = expression_of(alloc, size)?;
    let mut found = 0u64;
    for _ in 0..rounds {
        found = found.wrapping_add(lex(alloc, text.as_slice())?.len() as u64);
    }
    Ok(found)
}
