ghost use Rattle.std.specs.Prelude.{◌≡◌, IfOk};
ghost use Rattle.type_check.specs.declared.fault.Place.TheVariants as stand;
ghost use Rattle.type_check.specs.Places.{findings_of};
ghost use Rattle.config_read.specs.Places.{child};
ghost use Rattle.config_read.specs.Refusals.{IsAnswerOf};
ghost use Rattle.config_read.specs.Judged.{parse_cause, type_cause, unfit_of, ChecksTree, Judges, judged, expression};
ghost use Rattle.config_read.specs.Limits.{characteristic};
ghost use Rattle.config_read.specs.Filters.{IsTypedOf, IsReadAndTyped, IsFilterOf};
ghost use Rattle.config_read.specs.Filters.{IsCountingBuilt, IsCharacteristicBuilt};
ghost use Rattle.ruleset_model.specs.Built.{speaks_of_reply};
ghost use Rattle.type_check.specs.Trees.{tree_of};

use crate::fault::{Cause, ConfigFault};
use crate::refusals::{member_refusal, refusal};
use edge_base::{Expr, Text};
use edge_fields::Scheme;
use expr_parser::{ParseFault, parse};
use ruleset_model::{Characteristic, Counting, Filter, speaks_of_reply};
use std::alloc::Global;
use type_check::{Place, TypeCause, TypeFault, Typed, check};

/// Why a text is no expression; none for want of memory.
fn parse_cause(fault: ParseFault) -> Option<Cause>
    ensures { result ≡ parse_cause fault }
{
    match fault {
        ParseFault::TooLong => Some(Cause::ExpressionTooLong),
        ParseFault::Lex { .. } => Some(Cause::Lex),
        ParseFault::Syntax { .. } => Some(Cause::Syntax),
        ParseFault::TooDeep => Some(Cause::TooDeep),
        ParseFault::Memory => None,
    }
}

/// Why an expression isn't taken where it stands.
fn type_cause(cause: TypeCause) -> Cause
    ensures { result ≡ type_cause cause }
{
    match cause {
        TypeCause::UnknownField => Cause::UnknownField,
        TypeCause::UnknownFunction => Cause::UnknownFunction,
        TypeCause::UnknownList => Cause::UnknownList,
        TypeCause::ResponseField => Cause::ResponseField,
        TypeCause::Misplaced => Cause::Misplaced,
        TypeCause::Mismatch => Cause::Mismatch,
        TypeCause::BadPrefix => Cause::BadPrefix,
        TypeCause::BadRange => Cause::BadRange,
        TypeCause::BadWildcard => Cause::BadWildcard,
        TypeCause::PatternSyntax => Cause::PatternSyntax,
        TypeCause::PatternSize => Cause::PatternSize,
    }
}

/// Why a text isn't taken.
#[derive(Clone, Copy, Debug)]
enum Unfit {
    Bad(Cause),
    Memory,
}

fn unread(fault: ParseFault) -> Unfit
    ensures { result ≡ unfit_of (parse_cause fault) }
{
    match parse_cause(fault) {
        Some(cause) => Unfit::Bad(cause),
        None => Unfit::Memory,
    }
}

/// Checks an expression where it stands.
fn checked(alloc: Global, scheme: &Scheme, at: Place, tree: &Expr) -> Result<Typed, Unfit>
    ensures answer { ChecksTree (findings_of scheme.now at tree.now) result }
    ensures typed { IfOk result (IsTypedOf scheme.now at tree.now) }
{
    match check(alloc, scheme, tree, at) {
        Ok(typed) => Ok(typed),
        Err(TypeFault::Bad { node: _, cause }) => Err(Unfit::Bad(type_cause(cause))),
        Err(TypeFault::Memory) => Err(Unfit::Memory),
    }
}

/// Reads a text, and checks it where it stands.
fn judge(alloc: Global, scheme: &Scheme, at: Place, text: &[u8]) -> Result<Typed, Unfit>
    ensures answer { Judges (judged scheme.now at text.now) result }
    ensures typed { IfOk result (IsReadAndTyped scheme.now at text.now) }
{
    match parse(alloc, text) {
        Ok(tree) => checked(alloc, scheme, at, &tree),
        Err(fault) => Err(unread(fault)),
    }
}

/// What the text of a member is built to.
pub(crate) fn filter_of(
    alloc: Global,
    scheme: &Scheme,
    at: Place,
    place: &[u8],
    name: &str,
    text: &[u8],
) -> Result<Filter, ConfigFault>
    ensures table { IsAnswerOf result (expression (judged scheme.now at) (child place.now name.now) text.now) }
    ensures built { IfOk result (IsFilterOf scheme.now at text.now) }
{
    match judge(alloc, scheme, at, text) {
        Ok(typed) => Ok(Filter::of(typed)),
        Err(Unfit::Bad(cause)) => Err(member_refusal(alloc, place, name, cause)),
        Err(Unfit::Memory) => Err(ConfigFault::Memory),
    }
}

/// Checks what a limit counts, and says whether that speaks of the reply.
fn checked_counting(alloc: Global, scheme: &Scheme, tree: &Expr) -> Result<(Typed, bool), Unfit>
    ensures answer { ChecksTree (findings_of scheme.now stand.Count tree.now) result }
    ensures typed { IfOk result (λ made. IsTypedOf scheme.now stand.Count tree.now made.0) }
    ensures reply { IfOk result (λ made. made.1 ≡ speaks_of_reply (tree_of made.0.root)) }
{
    match checked(alloc, scheme, Place::Count, tree) {
        Ok(typed) => Ok((typed, speaks_of_reply(tree))),
        Err(Unfit::Bad(cause)) => Err(Unfit::Bad(cause)),
        Err(Unfit::Memory) => Err(Unfit::Memory),
    }
}

/// What a limit counts by a text, and whether that speaks of the reply.
fn judge_counting(alloc: Global, scheme: &Scheme, text: &[u8]) -> Result<(Typed, bool), Unfit>
    ensures answer { Judges (judged scheme.now stand.Count text.now) result }
    ensures typed { IfOk result (λ made. IsReadAndTyped scheme.now stand.Count text.now made.0) }
    ensures reply { IfOk result (λ made. made.1 ≡ speaks_of_reply (tree_of made.0.root)) }
{
    match parse(alloc, text) {
        Ok(tree) => checked_counting(alloc, scheme, &tree),
        Err(fault) => Err(unread(fault)),
    }
}

/// What a limit counts by the text of a member.
pub(crate) fn counting_of(
    alloc: Global,
    scheme: &Scheme,
    place: &[u8],
    name: &str,
    text: &[u8],
) -> Result<Counting, ConfigFault>
    ensures table { IsAnswerOf result (expression (judged scheme.now stand.Count) (child place.now name.now) text.now) }
    ensures value { IfOk result (λ made. made.source ≡ text.now) }
    ensures built { IfOk result (IsCountingBuilt scheme.now) }
{
    match judge_counting(alloc, scheme, text) {
        Ok((typed, reply)) => Ok(Counting {
            filter: Filter::of(typed),
            source: Text::of(alloc, text)?,
            reply,
        }),
        Err(Unfit::Bad(cause)) => Err(member_refusal(alloc, place, name, cause)),
        Err(Unfit::Memory) => Err(ConfigFault::Memory),
    }
}

/// The characteristic of a text at a place.
pub(crate) fn characteristic_of(
    alloc: Global,
    scheme: &Scheme,
    place: &[u8],
    text: &[u8],
) -> Result<Characteristic, ConfigFault>
    ensures table { IsAnswerOf result (characteristic (judged scheme.now) place.now text.now) }
    ensures value { IfOk result (λ made. made.source ≡ text.now) }
    ensures built { IfOk result (IsCharacteristicBuilt scheme.now) }
{
    match judge(alloc, scheme, Place::Characteristic, text) {
        Ok(typed) => Ok(Characteristic {
            filter: Filter::of(typed),
            source: Text::of(alloc, text)?,
        }),
        Err(Unfit::Bad(_)) => Err(refusal(alloc, place, Cause::BadLimit)),
        Err(Unfit::Memory) => Err(ConfigFault::Memory),
    }
}
