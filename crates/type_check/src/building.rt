//! Patterns, wildcards and tests are built.
ghost use Rattle.std.specs.Prelude.{◌≡◌, [], IfOk, Ok};
ghost use Rattle.edge_base.specs.declared.expression.Test.TheVariants as test;
ghost use Rattle.std.specs.Option.{option_copied};
ghost use Rattle.type_check.specs.Building.{IsBuilt, IsRefusedOrNot, IsMade};
ghost use Rattle.type_check.specs.Checking.{test_pattern};
ghost use Rattle.type_check.specs.TestKinds.{list_causes, text_causes};

use crate::fault::TypeCause;
use crate::node::BuiltTest;
use crate::wildcard::Wildcard;
use edge_base::{Memory, Test, Text, copy_items};
use edge_fields::Scheme;
use std::alloc::Global;
use text_match::{Pattern, PatternFault};

/// Builds a pattern, or tells why it can't be had.
pub fn build_pattern(alloc: Global, text: &[u8]) -> Result<Result<Pattern, TypeCause>, Memory>
    ensures { IfOk result (λ built. IsBuilt text.now built) }
{
    match Pattern::build(alloc, text) {
        Ok(pattern) => Ok(Ok(pattern)),
        Err(PatternFault::Syntax) => Ok(Err(TypeCause::PatternSyntax)),
        Err(PatternFault::Size) => Ok(Err(TypeCause::PatternSize)),
        Err(PatternFault::Memory) => Err(Memory),
    }
}

/// Why a pattern, if there is one, can't be had.
pub fn refusal(alloc: Global, pattern: Option<&[u8]>) -> Result<Option<TypeCause>, Memory>
    ensures { IfOk result (λ refused. IsRefusedOrNot (option_copied pattern.entry) refused) }
{
    match pattern {
        Some(text) => match build_pattern(alloc, text)? {
            Ok(_) => Ok(None),
            Err(cause) => Ok(Some(cause)),
        },
        None => Ok(None),
    }
}

/// The pattern of a test.
pub fn test_pattern(test: &Test) -> Option<&[u8]>
    ensures { option_copied result ≡ test_pattern test.now }
{
    match test {
        Test::Matches(text) => Some(text.bytes()),
        _ => None,
    }
}

/// A test of a named list, which there is.
fn build_listed(alloc: Global, scheme: &Scheme, name: &Text) -> Result<BuiltTest, Memory>
    requires { list_causes scheme.now (test.Listed name.now) ≡ [] }
    ensures { IfOk result (λ built. IsMade scheme.now (test.Listed name.now) (Ok built)) }
{
    match scheme.list(name.bytes()) {
        Some((place, _)) => Ok(BuiltTest::Listed(place, name.copy(alloc)?)),
        None => unreachable!(),
    }
}

/// Builds what a test without faults wants.
pub fn build_test(
    alloc: Global,
    scheme: &Scheme,
    test: &Test,
) -> Result<Result<BuiltTest, TypeCause>, Memory>
    requires listed { list_causes scheme.now test.now ≡ [] }
    requires readable { text_causes test.now ≡ [] }
    ensures { IfOk result (λ built. IsMade scheme.now test.now built) }
{
    match test {
        Test::Order(order, lit) => Ok(Ok(BuiltTest::Order(*order, lit.copy(alloc)?))),
        Test::Contains(text) => Ok(Ok(BuiltTest::Contains(text.copy(alloc)?))),
        Test::Matches(text) => match build_pattern(alloc, text.bytes())? {
            Ok(pattern) => Ok(Ok(BuiltTest::Matches(pattern))),
            Err(cause) => Ok(Err(cause)),
        },
        Test::Wild(text) => Ok(Ok(BuiltTest::Wild(Wildcard::of(alloc, text.bytes())?))),
        Test::StrictWild(text) => Ok(Ok(BuiltTest::StrictWild(Wildcard::of(alloc, text.bytes())?))),
        Test::Among(items) => Ok(Ok(BuiltTest::Among(copy_items(alloc, items.as_slice())?))),
        Test::Listed(name) => Ok(Ok(build_listed(alloc, scheme, name)?)),
    }
}
