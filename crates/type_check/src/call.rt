//! What a call is judged by beside its parts.
ghost use Rattle.std.specs.Prelude.{◌≡◌, map, is_some, IfOk};
ghost use Rattle.std.specs.List.{list_all};
ghost use Rattle.type_check.specs.Sorts.{truth_sort};
ghost use Rattle.std.specs.Option.{option_copied};
ghost use Rattle.type_check.specs.Checking.{literal_of, second_text, wildcard_causes, call_pattern, call_sort, chain_sort, inner_call};
ghost use Rattle.type_check.specs.Parameters.{are_taken, row_fits};
ghost use Rattle.type_check.specs.TestKinds.{head_of};

use crate::fault::TypeCause;
use crate::parameter::{Parameter, number_parameters, optional, parameters, takes};
use crate::sort::{Mark, Sort, result_sort, truth_sort};
use crate::testing::is_bad_wildcard;
use edge_base::{Expr, Lit, Memory};
use edge_fields::{Basic, FunctionId, Kind};
use std::alloc::Global;

/// The literal that an expression is.
pub fn literal(expr: &Expr) -> Option<&Lit>
    ensures { option_copied result ≡ literal_of expr.now }
{
    match expr {
        Expr::Lit(lit) => Some(lit),
        _ => None,
    }
}

/// The text that stands as the second argument, where that is a literal.
pub fn second_text(args: &[Expr]) -> Option<&[u8]>
    ensures { option_copied result ≡ second_text (map literal_of args.now) }
{
    match literal(args.get(1)?) {
        Some(Lit::Text(text)) => Some(text.bytes()),
        _ => None,
    }
}

/// Whether a function's wildcard can't be read.
pub fn wildcard_cause(
    alloc: Global,
    id: FunctionId,
    args: &[Expr],
) -> Result<Option<TypeCause>, Memory>
    ensures { IfOk result (λ found. found ≡ head_of (wildcard_causes id (map literal_of args.now))) }
{
    match second_text(args) {
        Some(text) if id == FunctionId::WildcardReplace => {
            if is_bad_wildcard(alloc, text)? {
                Ok(Some(TypeCause::BadWildcard))
            } else {
                Ok(None)
            }
        }
        _ => Ok(None),
    }
}

/// A function's pattern.
pub fn call_pattern(id: FunctionId, args: &[Expr]) -> Option<&[u8]>
    ensures { option_copied result ≡ call_pattern id (map literal_of args.now) }
{
    if id == FunctionId::RegexReplace {
        second_text(args)
    } else {
        None
    }
}

/// Whether each argument is one that its parameter takes.
fn are_taken(parameters: &[Parameter], args: &[Expr], sorts: &[Option<Sort>]) -> bool
    ensures { result ≡ are_taken parameters.now (map literal_of args.now) sorts.now }
{
    let [parameter, parameters @ ..] = parameters else {
        return true;
    };
    let [arg, args @ ..] = args else {
        return true;
    };
    let [sort, sorts @ ..] = sorts else {
        return true;
    };
    takes(*parameter, literal(arg), *sort) && are_taken(parameters, args, sorts)
}

/// Whether arguments are as many as these parameters, but for some of the last, and each is one that its parameter takes.
fn row_fits(
    parameters: &[Parameter],
    optional: usize,
    args: &[Expr],
    sorts: &[Option<Sort>],
) -> bool
    ensures { result ≡ row_fits parameters.now optional (map literal_of args.now) sorts.now }
{
    args.len() <= parameters.len()
        && parameters.len() - args.len() <= optional
        && are_taken(parameters, args, sorts)
}

/// What a call gives, where the function takes its arguments.
pub fn call_sort(id: FunctionId, args: &[Expr], sorts: &[Option<Sort>]) -> Option<Sort>
    ensures { result ≡ call_sort id (map literal_of args.now) sorts.now }
{
    let fits = row_fits(parameters(id), optional(id), args, sorts)
        || id == FunctionId::HasValue && row_fits(number_parameters(), 0, args, sorts);
    if fits {
        result_sort(id, sorts.first().copied().flatten())
    } else {
        None
    }
}

/// What a chain gives, by its members.
pub fn chain_sort(sorts: &[Option<Sort>]) -> Option<Sort>
    ensures { result ≡ chain_sort sorts.now }
{
    if are_truths(sorts) {
        Some(Sort::Plain(Kind::One(Basic::Bool)))
    } else {
        None
    }
}

fn are_truths(sorts: &[Option<Sort>]) -> bool
    ensures { result ≡ list_all (λ s. is_some (truth_sort s)) sorts.now }
{
    sorts.iter().all(|sort| truth_sort(*sort).is_some())
}

/// The mark behind a node that is a call, at its first argument.
pub fn inner_call(id: FunctionId, mark: Mark) -> Result<Mark, Memory>
    ensures { IfOk result (λ inner. inner ≡ inner_call id mark) }
{
    let inner = mark.inner()?;
    Ok(Mark {
        node: inner.node,
        replaced: inner.replaced || id == FunctionId::RegexReplace,
    })
}
