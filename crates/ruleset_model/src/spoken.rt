//! Whether an expression speaks of a reply.
ghost use Rattle.std.specs.Prelude.{◌≡◌};
ghost use Rattle.std.specs.List.{list_any};
ghost use Rattle.ruleset_model.specs.Built.{is_reply_name, speaks_of_reply};

use edge_base::{Expr, Text};

/// Whether the name is that of a field of a reply.
fn is_reply_name(name: &Text) -> bool
    ensures { result ≡ is_reply_name name.now }
{
    let name = name.bytes();
    name == b"http.response.code".as_slice() || name == b"http.response.headers".as_slice()
}

/// Whether one of these expressions speaks of a reply.
#[cycle(speaking)]
fn is_one_of_reply(exprs: &[Expr]) -> bool
    ensures { result ≡ list_any speaks_of_reply exprs.now }
{
    for expr in exprs {
        if speaks_of_reply(expr) {
            return true;
        }
    }
    false
}

/// Whether an expression has a field of a reply in it. Takes no memory.
#[cycle(speaking)]
pub fn speaks_of_reply(expr: &Expr) -> bool
    ensures { result ≡ speaks_of_reply expr.now }
{
    match expr {
        Expr::Lit(_) => false,
        Expr::Field(name) => is_reply_name(name),
        Expr::Call(_, args) => is_one_of_reply(args.as_slice()),
        Expr::At(of, _) | Expr::Key(of, _) | Expr::Each(of) => speaks_of_reply(of.get()),
        Expr::Test(of, _) | Expr::Not(of) => speaks_of_reply(of.get()),
        Expr::And(members) => is_one_of_reply(members.as_slice()),
        Expr::Xor(members) => is_one_of_reply(members.as_slice()),
        Expr::Or(members) => is_one_of_reply(members.as_slice()),
    }
}
