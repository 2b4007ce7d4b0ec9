ghost use Rattle.std.specs.Prelude.{◌≡◌, ◌≤◌, ◌++◌, map, IfOk, OnOk};
ghost use Rattle.expr_parser.specs.Spelling.{joined, call_spelling, chain_spelling, spelling_at, spelling};
ghost use Rattle.expr_parser.specs.Reread.{IsReadAgain, SpellingsAreParsedAgain, PairsAreNeeded};

use crate::grammar::answers_are_unique;
use crate::phrases::{push_lit, push_quoted, push_test};
use edge_base::{Expr, Memory, Text, TextBuilder, address_is_unique};
use expr_lexer::cuts_are_unique;
use std::alloc::Global;

/// Members of a chain or arguments of a call, joined.
#[cycle(printing)]
fn push_joined(
    alloc: Global,
    out: &mut TextBuilder,
    members: &[Expr],
    joint: &[u8],
    tightness: u8,
) -> Result<(), Memory>
    ensures { OnOk result (out.new ≡ out.old ++ joined joint.now tightness (map spelling_at members.now)) }
{
    for (at, member) in members.iter().enumerate() {
        if 0 < at {
            out.push(joint)?;
        }
        push_expr(alloc, out, member, tightness)?;
    }
    Ok(())
}

/// A chain, in parentheses where its place binds tighter than `own`.
#[cycle(printing)]
fn push_chain(
    alloc: Global,
    out: &mut TextBuilder,
    members: &[Expr],
    joint: &[u8],
    own: u8,
    tightness: u8,
) -> Result<(), Memory>
    requires { own ≤ 2 }
    ensures { OnOk result (out.new ≡ out.old ++ chain_spelling own joint.now (map spelling_at members.now) tightness) }
{
    if tightness <= own {
        return push_joined(alloc, out, members, joint, own + 1);
    }
    out.push(b"(")?;
    push_joined(alloc, out, members, joint, own + 1)?;
    out.push(b")")
}

/// A call: its name, and its arguments in parentheses.
#[cycle(printing)]
fn push_call(alloc: Global, out: &mut TextBuilder, name: &[u8], args: &[Expr]) -> Result<(), Memory>
    ensures { OnOk result (out.new ≡ out.old ++ call_spelling name.now (map spelling_at args.now)) }
{
    out.push(name)?;
    out.push(b"(")?;
    push_joined(alloc, out, args, b", ", 0)?;
    out.push(b")")
}

/// A tree, at a place that binds so tight.
#[cycle(printing)]
fn push_expr(alloc: Global, out: &mut TextBuilder, expr: &Expr, tightness: u8) -> Result<(), Memory>
    ensures { OnOk result (out.new ≡ out.old ++ spelling_at expr.now tightness) }
{
    match expr {
        Expr::Lit(lit) => push_lit(alloc, out, lit),
        Expr::Field(name) => out.push(name.bytes()),
        Expr::Call(name, args) => push_call(alloc, out, name.bytes(), args.as_slice()),
        Expr::At(of, at) => {
            push_expr(alloc, out, of.get(), 3)?;
            out.push(b"[")?;
            out.push_signed(*at)?;
            out.push(b"]")
        }
        Expr::Key(of, key) => {
            push_expr(alloc, out, of.get(), 3)?;
            out.push(b"[")?;
            push_quoted(out, key.bytes())?;
            out.push(b"]")
        }
        Expr::Each(of) => {
            push_expr(alloc, out, of.get(), 3)?;
            out.push(b"[*]")
        }
        Expr::Test(of, test) => {
            push_expr(alloc, out, of.get(), 3)?;
            out.push(b" ")?;
            push_test(alloc, out, test)
        }
        Expr::Not(of) => {
            out.push(b"not ")?;
            push_expr(alloc, out, of.get(), 3)
        }
        Expr::And(members) => push_chain(alloc, out, members.as_slice(), b" and ", 2, tightness),
        Expr::Xor(members) => push_chain(alloc, out, members.as_slice(), b" xor ", 1, tightness),
        Expr::Or(members) => push_chain(alloc, out, members.as_slice(), b" or ", 0, tightness),
    }
}

/// The one spelling of a tree. Where some text is read as the tree, so is its print, which nests no deeper and has no
/// more parentheses.
pub fn print(alloc: Global, expr: &Expr) -> Result<Text, Memory>
    ensures spelling { IfOk result (λ text. text ≡ spelling expr.now) }
    ensures again { IfOk result (λ text. IsReadAgain text expr.now) }
{
    let mut out = TextBuilder::new(alloc);
    push_expr(alloc, &mut out, expr, 0)?;
    Ok(out.into_text())
}

/// The print of a tree that `parse` gave is parsed as this tree, where it has at most 4,096 bytes.
pub fn prints_are_parsed_again()
    ensures { SpellingsAreParsedAgain }
{
    answers_are_unique();
}

/// A law: a print without one of its pairs of parentheses is read as another tree or as none.
pub fn pairs_are_needed()
    ensures { PairsAreNeeded }
{
    address_is_unique();
    cuts_are_unique();
}
