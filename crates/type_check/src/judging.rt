//! The walk over an expression: its faults are found, and its tree is made.
ghost use Rattle.std.specs.Prelude.{◌≡◌, ℕ, map, List, [], Bool, ◌&&◌, not, IfOk, OnOk};
ghost use Rattle.edge_fields.specs.Names.{is_response};
ghost use Rattle.edge_fields.specs.declared.kind.Basic.{Basic};
ghost use Rattle.edge_base.specs.declared.expression.Expr.TheVariants as expr;
ghost use Rattle.edge_base.specs.declared.expression.Expr.TheOpen as open_expr;
ghost use Rattle.type_check.specs.declared.fault.TypeFault.TheVariants as fault;
ghost use Rattle.type_check.specs.declared.node.Node.TheVariants as node;
ghost use Rattle.std.specs.List.{list_all};
ghost use Rattle.std.specs.Option.{option_copied};
ghost use Rattle.edge_base.specs.declared.expression.Expr.{Expr};
ghost use Rattle.type_check.specs.Checking.{Judge, judge, judge_of, judge_step, unpacked_causes, chain_judge, is_regex_replace, literal_of, call_pattern};
ghost use Rattle.type_check.specs.Sorts.{test_stand, inner};
ghost use Rattle.type_check.specs.Trees.{tree_of, are_placed};
ghost use Rattle.type_check.specs.Judging.{Tells, TellsAll, TellsLit, TellsField, TellsAt, TellsKey, TellsEach, TellsNot, TellsTest, TellsCall, TellsChain};
ghost use Rattle.type_check.specs.Judging.{around_node, IsChainNode, IsPlacedAs, IsAround, IsBeforeParts, IsTestNode, IsCallNode, IsCalled, IsTested, Gathers, before_fault, IsEnd, chain_expr};
ghost use Rattle.type_check.specs.TestKinds.{list_causes, text_causes, where_so};

use crate::building::{build_test, refusal, test_pattern};
use crate::call::{call_pattern, call_sort, chain_sort, inner_call, wildcard_cause};
use crate::fault::{Fault, TypeCause, TypeFault};
use crate::names::{find_field, find_function};
use crate::node::{Node, Nodes};
use crate::sort::{
    Mark, Sort, Stand, array_sort, basic_of, element_sort, first_stand, suits, test_stand,
    truth_sort, unpacked_sort,
};
use crate::testing::{has_unknown_list, test_sort, text_cause};
use edge_base::{Expr, Exprs, Lit, Memory, Test, Text};
use edge_fields::{FieldId, FunctionId, Kind, Scheme};
use sqlite_items::{Boxed, Items};
use std::alloc::Global;

/// An expression in which no fault was found: its sort, its tree or the first of its patterns that was refused, and how
/// far the walk has come.
#[derive(Drop)]
pub struct Judged {
    pub sort: Option<Sort>,
    pub node: Result<Boxed<Node>, Fault>,
    pub mark: Mark,
}

/// The same of expressions in a row.
#[derive(Drop)]
pub struct JudgedAll {
    pub sorts: Vec<Option<Sort>>,
    pub nodes: Result<Nodes, Fault>,
    pub mark: Mark,
}

impl Mark {
    /// The answer for a fault of the node that is reached.
    fn fault(self, cause: TypeCause) -> TypeFault
        ensures { result ≡ fault.Bad self.node cause }
    {
        TypeFault::Bad {
            node: self.node,
            cause,
        }
    }
}

/// A literal.
fn judge_lit(alloc: Global, lit: &Lit, stand: Stand, mark: Mark) -> Result<Judged, TypeFault>
    ensures { TellsLit lit.now stand mark result }
{
    let sort = Some(Sort::Plain(Kind::One(basic_of(lit))));
    if !suits(stand, sort) {
        return Err(mark.fault(TypeCause::Mismatch));
    }
    let end = mark.inner()?;
    Ok(Judged {
        sort,
        node: Ok(Boxed::new(alloc, Node::Lit(lit.copy(alloc)?))?),
        mark: end,
    })
}

/// Whether a field is one of a reply where there is none.
fn has_no_reply(replies: bool, id: FieldId) -> bool
    ensures { result ≡ (is_response id && not replies) }
{
    id.is_response() && !replies
}

/// A field. Fields of a reply may stand or not.
fn judge_field(
    alloc: Global,
    replies: bool,
    name: &Text,
    stand: Stand,
    mark: Mark,
) -> Result<Judged, TypeFault>
    ensures { TellsField replies name.now stand mark result }
{
    let Some(id) = find_field(name.bytes()) else {
        return Err(mark.fault(TypeCause::UnknownField));
    };
    if has_no_reply(replies, id) {
        return Err(mark.fault(TypeCause::ResponseField));
    }
    let sort = Some(Sort::Plain(id.kind()));
    if !suits(stand, sort) {
        return Err(mark.fault(TypeCause::Mismatch));
    }
    let end = mark.inner()?;
    Ok(Judged {
        sort,
        node: Ok(Boxed::new(alloc, Node::Field(id))?),
        mark: end,
    })
}

/// A node around its parts, in which no fault was found: its sort must suit where it stands.
fn around(
    sort: Option<Sort>,
    node: Made,
    stand: Stand,
    mark: Mark,
    end: Mark,
) -> Result<Judged, TypeFault>
    ensures { IsAround sort node stand mark end result }
{
    if !suits(stand, sort) {
        return Err(mark.fault(TypeCause::Mismatch));
    }
    Ok(Judged {
        sort,
        node,
        mark: end,
    })
}

/// A tree, or the first of its patterns that was refused.
type Made = Result<Boxed<Node>, Fault>;

/// The tree of an element.
fn at_node(alloc: Global, of: Made, at: i64) -> Result<Made, Memory>
    ensures { IfOk result (λ made. made ≡ around_node (λ n. node.At n at) of) }
{
    match of {
        Ok(of) => Ok(Ok(Boxed::new(alloc, Node::At(of, at))?)),
        Err(refused) => Ok(Err(refused)),
    }
}

/// The tree of an array of a map.
fn key_node(alloc: Global, of: Made, key: &Text) -> Result<Made, Memory>
    ensures { IfOk result (λ made. made ≡ around_node (λ n. node.Key n key.now) of) }
{
    match of {
        Ok(of) => Ok(Ok(Boxed::new(alloc, Node::Key(of, key.copy(alloc)?))?)),
        Err(refused) => Ok(Err(refused)),
    }
}

/// The tree of an unpacked array.
fn each_node(alloc: Global, of: Made) -> Result<Made, Memory>
    ensures { IfOk result (λ made. made ≡ around_node (λ n. node.Each n) of) }
{
    match of {
        Ok(of) => Ok(Ok(Boxed::new(alloc, Node::Each(of))?)),
        Err(refused) => Ok(Err(refused)),
    }
}

/// The tree of a negation.
fn not_node(alloc: Global, of: Made) -> Result<Made, Memory>
    ensures { IfOk result (λ made. made ≡ around_node (λ n. node.Not n) of) }
{
    match of {
        Ok(of) => Ok(Ok(Boxed::new(alloc, Node::Not(of))?)),
        Err(refused) => Ok(Err(refused)),
    }
}

/// An element of an array.
#[cycle(judging)]
fn judge_at(
    alloc: Global,
    scheme: &Scheme,
    replies: bool,
    of: &Boxed<Expr>,
    at: i64,
    stand: Stand,
    mark: Mark,
) -> Result<Judged, TypeFault>
    ensures { TellsAt scheme.now replies of.now at stand mark result }
{
    let inner = mark.inner()?;
    let Judged {
        sort,
        node,
        mark: end,
    } = judge(alloc, scheme, replies, of.get(), Stand::Part, inner)?;
    around(
        element_sort(sort),
        at_node(alloc, node, at)?,
        stand,
        mark,
        end,
    )
}

/// An array of a map.
#[cycle(judging)]
fn judge_key(
    alloc: Global,
    scheme: &Scheme,
    replies: bool,
    of: &Boxed<Expr>,
    key: &Text,
    stand: Stand,
    mark: Mark,
) -> Result<Judged, TypeFault>
    ensures { TellsKey scheme.now replies of.now key.now stand mark result }
{
    let inner = mark.inner()?;
    let Judged {
        sort,
        node,
        mark: end,
    } = judge(alloc, scheme, replies, of.get(), Stand::Part, inner)?;
    around(
        array_sort(sort),
        key_node(alloc, node, key)?,
        stand,
        mark,
        end,
    )
}

/// Whether no unpacked operand may stand there.
fn is_misplaced(stand: Stand) -> bool
    ensures { unpacked_causes stand ≡ where_so result TypeCause.Misplaced }
{
    match stand {
        Stand::Unpacked => false,
        Stand::Whole(_) | Stand::Part | Stand::Asked => true,
    }
}

/// Each element of an array.
#[cycle(judging)]
fn judge_each(
    alloc: Global,
    scheme: &Scheme,
    replies: bool,
    of: &Boxed<Expr>,
    stand: Stand,
    mark: Mark,
) -> Result<Judged, TypeFault>
    ensures { TellsEach scheme.now replies of.now stand mark result }
{
    if is_misplaced(stand) {
        return Err(mark.fault(TypeCause::Misplaced));
    }
    let inner = mark.inner()?;
    let Judged {
        sort,
        node,
        mark: end,
    } = judge(alloc, scheme, replies, of.get(), Stand::Part, inner)?;
    around(
        unpacked_sort(sort),
        each_node(alloc, node)?,
        stand,
        mark,
        end,
    )
}

#[cycle(judging)]
fn judge_not(
    alloc: Global,
    scheme: &Scheme,
    replies: bool,
    of: &Boxed<Expr>,
    stand: Stand,
    mark: Mark,
) -> Result<Judged, TypeFault>
    ensures { TellsNot scheme.now replies of.now stand mark result }
{
    let inner = mark.inner()?;
    let Judged {
        sort,
        node,
        mark: end,
    } = judge(alloc, scheme, replies, of.get(), Stand::Part, inner)?;
    around(truth_sort(sort), not_node(alloc, node)?, stand, mark, end)
}

/// A fault of a node that is found whatever its parts are, else that of its own pattern, else that of its parts.
fn before_parts(
    alloc: Global,
    own: Option<TypeCause>,
    pattern: Option<&[u8]>,
    mark: Mark,
    parts: TypeFault,
) -> TypeFault
    ensures { IsBeforeParts own (option_copied pattern.entry) mark parts result }
{
    if parts == TypeFault::Memory {
        return parts;
    }
    if let Some(cause) = own {
        return mark.fault(cause);
    }
    match refusal(alloc, pattern) {
        Ok(Some(cause)) => mark.fault(cause),
        Ok(None) => parts,
        Err(Memory) => TypeFault::Memory,
    }
}

/// The tree of a test.
fn test_node(
    alloc: Global,
    scheme: &Scheme,
    test: &Test,
    of: Made,
    mark: Mark,
) -> Result<Made, Memory>
    requires listed { list_causes scheme.now test.now ≡ [] }
    requires readable { text_causes test.now ≡ [] }
    ensures { IfOk result (λ made. IsTestNode scheme.now test.now of mark made) }
{
    match build_test(alloc, scheme, test)? {
        Ok(built) => match of {
            Ok(of) => Ok(Ok(Boxed::new(alloc, Node::Test(of, built))?)),
            Err(refused) => Ok(Err(refused)),
        },
        Err(cause) => Ok(Err(Fault {
            node: mark.node,
            cause,
        })),
    }
}

/// A test, once its operand was judged.
fn judge_tested(
    alloc: Global,
    scheme: &Scheme,
    test: &Test,
    of: Result<Judged, TypeFault>,
    stand: Stand,
    mark: Mark,
) -> Result<Judged, TypeFault>
    requires { list_causes scheme.now test.now ≡ [] }
    ensures { IsTested scheme.now test.now of stand mark result }
{
    let own = text_cause(alloc, test)?;
    match of {
        Ok(
            Judged {
                sort,
                node,
                mark: end,
            },
        ) => {
            let sort = test_sort(scheme, test, sort);
            if !suits(stand, sort) {
                return Err(mark.fault(TypeCause::Mismatch));
            }
            if let Some(cause) = own {
                return Err(mark.fault(cause));
            }
            let node = test_node(alloc, scheme, test, node, mark)?;
            Ok(Judged {
                sort,
                node,
                mark: end,
            })
        }
        Err(fault) => Err(before_parts(alloc, own, test_pattern(test), mark, fault)),
    }
}

#[cycle(judging)]
fn judge_test(
    alloc: Global,
    scheme: &Scheme,
    replies: bool,
    of: &Boxed<Expr>,
    test: &Test,
    stand: Stand,
    mark: Mark,
) -> Result<Judged, TypeFault>
    ensures { TellsTest scheme.now replies of.now test.now stand mark result }
{
    if has_unknown_list(scheme, test) {
        return Err(mark.fault(TypeCause::UnknownList));
    }
    let of = judge(
        alloc,
        scheme,
        replies,
        of.get(),
        test_stand(stand),
        mark.inner()?,
    );
    judge_tested(alloc, scheme, test, of, stand, mark)
}

/// Whether a call is a second `regex_replace`.
fn is_second(id: FunctionId, mark: Mark) -> bool
    ensures { result ≡ (is_regex_replace id && mark.replaced) }
{
    id == FunctionId::RegexReplace && mark.replaced
}

/// The tree of a call.
fn call_node(
    alloc: Global,
    id: FunctionId,
    args: &[Expr],
    nodes: Result<Nodes, Fault>,
    mark: Mark,
) -> Result<Made, Memory>
    ensures { IfOk result (λ made. IsCallNode id (call_pattern id (map literal_of args.now)) nodes mark made) }
{
    match refusal(alloc, call_pattern(id, args))? {
        Some(cause) => Ok(Err(Fault {
            node: mark.node,
            cause,
        })),
        None => match nodes {
            Ok(nodes) => Ok(Ok(Boxed::new(alloc, Node::Call(id, nodes))?)),
            Err(refused) => Ok(Err(refused)),
        },
    }
}

/// A call, once its arguments were judged.
fn judge_called(
    alloc: Global,
    id: FunctionId,
    args: &[Expr],
    all: Result<JudgedAll, TypeFault>,
    stand: Stand,
    mark: Mark,
) -> Result<Judged, TypeFault>
    ensures { IsCalled id args.now all stand mark result }
{
    let own = wildcard_cause(alloc, id, args)?;
    match all {
        Ok(
            JudgedAll {
                sorts,
                nodes,
                mark: end,
            },
        ) => {
            let sort = call_sort(id, args, sorts.as_slice());
            if !suits(stand, sort) {
                return Err(mark.fault(TypeCause::Mismatch));
            }
            if let Some(cause) = own {
                return Err(mark.fault(cause));
            }
            let node = call_node(alloc, id, args, nodes, mark)?;
            Ok(Judged {
                sort,
                node,
                mark: end,
            })
        }
        Err(fault) => Err(before_parts(alloc, own, call_pattern(id, args), mark, fault)),
    }
}

#[cycle(judging)]
fn judge_call(
    alloc: Global,
    scheme: &Scheme,
    replies: bool,
    name: &Text,
    args: &Exprs,
    stand: Stand,
    mark: Mark,
) -> Result<Judged, TypeFault>
    ensures { TellsCall scheme.now replies name.now args.now stand mark result }
{
    let Some(id) = find_function(name.bytes()) else {
        return Err(mark.fault(TypeCause::UnknownFunction));
    };
    if is_second(id, mark) {
        return Err(mark.fault(TypeCause::Misplaced));
    }
    let inner = inner_call(id, mark)?;
    let all = judge_all(
        alloc,
        scheme,
        replies,
        args.as_slice(),
        first_stand(id),
        inner,
    );
    judge_called(alloc, id, args.as_slice(), all, stand, mark)
}

/// A chain of `and`, `xor` or `or`.
#[derive(Clone, Copy)]
enum Chain {
    And,
    Xor,
    Or,
}

impl Chain {
    fn node(self, members: Nodes) -> Node
        ensures tree { tree_of result ≡ chain_expr self (map tree_of members) }
        ensures placed { IsPlacedAs result members }
    {
        match self {
            Chain::And => Node::And(members),
            Chain::Xor => Node::Xor(members),
            Chain::Or => Node::Or(members),
        }
    }
}

/// The tree of a chain.
fn chain_node(alloc: Global, chain: Chain, nodes: Result<Nodes, Fault>) -> Result<Made, Memory>
    ensures { IfOk result (λ made. IsChainNode chain nodes made) }
{
    match nodes {
        Ok(nodes) => Ok(Ok(Boxed::new(alloc, chain.node(nodes))?)),
        Err(refused) => Ok(Err(refused)),
    }
}

#[cycle(judging)]
fn judge_chain(
    alloc: Global,
    scheme: &Scheme,
    replies: bool,
    chain: Chain,
    members: &Exprs,
    stand: Stand,
    mark: Mark,
) -> Result<Judged, TypeFault>
    ensures { TellsChain scheme.now replies chain members.now stand mark result }
{
    let inner = mark.inner()?;
    let JudgedAll {
        sorts,
        nodes,
        mark: end,
    } = judge_all(
        alloc,
        scheme,
        replies,
        members.as_slice(),
        Stand::Part,
        inner,
    )?;
    let sort = chain_sort(sorts.as_slice());
    around(sort, chain_node(alloc, chain, nodes)?, stand, mark, end)
}

/// What was told of the expressions so far, and where the next one stands.
#[derive(Drop)]
struct Gathered {
    sorts: Vec<Option<Sort>>,
    nodes: Nodes,
    refused: Option<Fault>,
    stand: Stand,
    mark: Mark,
}

impl Gathered {
    fn add(&mut self, judged: Judged) -> Result<(), Memory>
        ensures { OnOk result (Gathers self.old judged self.new) }
    {
        let Judged { sort, node, mark } = judged;
        self.sorts.push(sort)?;
        self.stand = Stand::Part;
        self.mark = mark;
        match node {
            Ok(node) => self.nodes.push(node.into_inner())?,
            Err(refused) => self.refused = self.refused.or(Some(refused)),
        }
        Ok(())
    }

    /// The answer where the next expression has a fault.
    fn before(&self, fault: TypeFault) -> TypeFault
        ensures { result ≡ before_fault self.now.refused fault }
    {
        match (self.refused, fault) {
            (Some(refused), TypeFault::Bad { .. }) => TypeFault::Bad {
                node: refused.node,
                cause: refused.cause,
            },
            (_, fault) => fault,
        }
    }

    fn end(self) -> JudgedAll
        ensures { IsEnd self result }
    {
        let Gathered {
            sorts,
            nodes,
            refused,
            mark,
            ..
        } = self;
        match refused {
            Some(refused) => JudgedAll {
                sorts,
                nodes: Err(refused),
                mark,
            },
            None => JudgedAll {
                sorts,
                nodes: Ok(nodes),
                mark,
            },
        }
    }
}

/// Expressions in a row; the first may stand otherwise than the others.
#[cycle(judging)]
fn judge_all(
    alloc: Global,
    scheme: &Scheme,
    replies: bool,
    exprs: &[Expr],
    first: Stand,
    mark: Mark,
) -> Result<JudgedAll, TypeFault>
    ensures { TellsAll scheme.now replies exprs.now first mark result }
{
    let mut all = Gathered {
        sorts: Vec::new(alloc),
        nodes: Items::new(alloc),
        refused: None,
        stand: first,
        mark,
    };
    for expr in exprs {
        match judge(alloc, scheme, replies, expr, all.stand, all.mark) {
            Ok(judged) => all.add(judged)?,
            Err(fault) => return Err(all.before(fault)),
        }
    }
    Ok(all.end())
}

/// An expression, by where it stands and how far the walk has come.
#[cycle(judging)]
pub fn judge(
    alloc: Global,
    scheme: &Scheme,
    replies: bool,
    expr: &Expr,
    stand: Stand,
    mark: Mark,
) -> Result<Judged, TypeFault>
    ensures { Tells scheme.now (judge_of scheme.now replies expr.now) expr.now stand mark result }
{
    match expr {
        Expr::Lit(lit) => judge_lit(alloc, lit, stand, mark),
        Expr::Field(name) => judge_field(alloc, replies, name, stand, mark),
        Expr::Call(name, args) => judge_call(alloc, scheme, replies, name, args, stand, mark),
        Expr::At(of, at) => judge_at(alloc, scheme, replies, of, *at, stand, mark),
        Expr::Key(of, key) => judge_key(alloc, scheme, replies, of, key, stand, mark),
        Expr::Each(of) => judge_each(alloc, scheme, replies, of, stand, mark),
        Expr::Test(of, test) => judge_test(alloc, scheme, replies, of, test, stand, mark),
        Expr::Not(of) => judge_not(alloc, scheme, replies, of, stand, mark),
        Expr::And(members) => judge_chain(alloc, scheme, replies, Chain::And, members, stand, mark),
        Expr::Xor(members) => judge_chain(alloc, scheme, replies, Chain::Xor, members, stand, mark),
        Expr::Or(members) => judge_chain(alloc, scheme, replies, Chain::Or, members, stand, mark),
    }
}
