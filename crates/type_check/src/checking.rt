//! An expression is checked as it stands in a configuration.
ghost use Rattle.std.specs.Prelude.{◌≡◌, true, IfOk, Some};
ghost use Rattle.type_check.specs.declared.sort.Sort.TheVariants as plain;
ghost use Rattle.type_check.specs.declared.sort.Stand.TheVariants as stand;
ghost use Rattle.type_check.specs.Sorts.{suits};
ghost use Rattle.type_check.specs.Places.{is_colo, allows_reply, want_at, tree_at, findings_of, kind_at, Answers, CheckedTreesHaveTheirKinds};
ghost use Rattle.type_check.specs.Trees.{tree_of};

use crate::fault::{Place, TypeFault};
use crate::judging::{Judged, judge};
use crate::node::Node;
use crate::sort::{Mark, Sort, Stand, Want};
use crate::typed::Typed;
use edge_base::{Expr, Lit};
use edge_fields::{Basic, Kind, Scheme, copy_lists};
use sqlite_items::Boxed;
use std::alloc::Global;

/// Whether an expression is the data centre, which is known as a characteristic alone. There is one.
fn is_colo(place: Place, expr: &Expr) -> bool
    ensures { result ≡ is_colo place expr.now }
{
    match expr {
        Expr::Field(name) => place == Place::Characteristic
            && name.bytes() == b"cf.colo.id".as_slice(),
        _ => false,
    }
}

/// Whether fields of a reply may stand there.
fn allows_reply(place: Place) -> bool
    ensures { result ≡ allows_reply place }
{
    match place {
        Place::Count | Place::ReplyFilter | Place::ReplyValue => true,
        Place::Filter | Place::Value | Place::Characteristic => false,
    }
}

/// What is wanted of an expression there.
fn want_at(place: Place, expr: &Expr) -> Want
    ensures { result ≡ want_at place expr.now }
{
    match place {
        Place::Filter | Place::Count | Place::ReplyFilter => Want::Truth,
        Place::Value | Place::ReplyValue => Want::Text,
        Place::Characteristic => match expr {
            Expr::Field(_) => Want::Single,
            Expr::Key(_, _) => Want::Anything,
            Expr::At(of, _) => match of.get() {
                Expr::Key(_, _) => Want::Anything,
                _ => Want::Nothing,
            },
            _ => Want::Nothing,
        },
    }
}

/// The kind of what was wanted and is there.
fn kind_wanted(want: Want, sort: Option<Sort>) -> Kind
    requires { suits (stand.Whole want) sort ≡ true }
    ensures { sort ≡ Some (plain.Plain result) }
{
    match sort {
        Some(Sort::Plain(kind)) => kind,
        Some(Sort::Each(_)) | None => unreachable!(),
    }
}

/// Checks an expression. The answer is the fault of the lowest node, its first cause, but for an earlier node whose
/// pattern was refused.
pub fn check(alloc: Global, scheme: &Scheme, expr: &Expr, place: Place) -> Result<Typed, TypeFault>
    ensures answer { Answers (findings_of scheme.now place expr.now) result }
    ensures tree { IfOk result (λ typed. tree_of typed.root ≡ tree_at place expr.now) }
    ensures kind { IfOk result (λ typed. kind_at scheme.now place expr.now ≡ Some typed.kind) }
    ensures lists { IfOk result (λ typed. typed.lists ≡ scheme.now) }
{
    let lists = copy_lists(alloc, scheme.lists().as_slice())?;
    if is_colo(place, expr) {
        let root = Boxed::new(alloc, Node::Lit(Lit::Num(0)))?;
        return Ok(Typed::of(root, Kind::One(Basic::Num), lists));
    }
    let want = want_at(place, expr);
    let mark = Mark {
        node: 0,
        replaced: false,
    };
    let Judged { sort, node, .. } = judge(
        alloc,
        scheme,
        allows_reply(place),
        expr,
        Stand::Whole(want),
        mark,
    )?;
    match node {
        Ok(root) => Ok(Typed::of(root, kind_wanted(want, sort), lists)),
        Err(refused) => Err(TypeFault::Bad {
            node: refused.node,
            cause: refused.cause,
        }),
    }
}

/// A law: where functions give values of their kinds, what was checked has its kind on every request and reply.
pub fn checked_trees_have_their_kinds()
    ensures { CheckedTreesHaveTheirKinds }
{}
