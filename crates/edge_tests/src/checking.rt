ghost use Rattle.edge_fields.specs.Schemes.{AreLists};

use edge_base::{Addr, Expr, Item, Lit, Memory, Order, Test, Text};
use edge_fields::{ListKinds, Scheme};
use sqlite_items::{Boxed, Items};
use std::alloc::Global;
use std::test::Fail;
use type_check::{Place, TypeCause, TypeFault, check};

fn no_lists(alloc: Global) -> ListKinds
    ensures { AreLists result }
{
    Items::new(alloc)
}

/// The fault of an expression, if it has one.
fn fault_of(alloc: Global, expr: &Expr, place: Place) -> Result<Option<(u32, TypeCause)>, Memory> {
    let scheme = Scheme::new(alloc, &no_lists(alloc))?;
    match check(alloc, &scheme, expr, place) {
        Ok(_) => Ok(None),
        Err(TypeFault::Bad { node, cause }) => Ok(Some((node, cause))),
        Err(TypeFault::Memory) => Err(Memory),
    }
}

fn field(alloc: Global, name: &[u8]) -> Result<Expr, Memory> {
    Ok(Expr::Field(Text::of(alloc, name)?))
}

fn tested(alloc: Global, name: &[u8], test: Test) -> Result<Expr, Memory> {
    Ok(Expr::Test(Boxed::new(alloc, field(alloc, name)?)?, test))
}

fn call(alloc: Global, name: &[u8], arg: Expr) -> Result<Expr, Memory> {
    let mut args = Items::new(alloc);
    args.push(arg)?;
    Ok(Expr::Call(Text::of(alloc, name)?, args))
}

fn equal(alloc: Global, text: &[u8]) -> Result<Test, Memory> {
    Ok(Test::Order(Order::Eq, Lit::Text(Text::of(alloc, text)?)))
}

fn among(alloc: Global, item: Item) -> Result<Test, Memory> {
    let mut items = Items::new(alloc);
    items.push(item)?;
    Ok(Test::Among(items))
}

fn matches(alloc: Global, text: &[u8]) -> Result<Test, Memory> {
    Ok(Test::Matches(Text::of(alloc, text)?))
}

/// The fault of a test of a field, as a condition.
fn tested_fault(
    alloc: Global,
    name: &[u8],
    test: Test,
) -> Result<Option<(u32, TypeCause)>, Memory> {
    fault_of(alloc, &tested(alloc, name, test)?, Place::Filter)
}

/// The fault of a field as a characteristic.
fn keyed_fault(alloc: Global, name: &[u8]) -> Result<Option<(u32, TypeCause)>, Memory> {
    fault_of(alloc, &field(alloc, name)?, Place::Characteristic)
}

/// The fault of `len` of a test that `regex` can't read.
fn length_fault(alloc: Global) -> Result<Option<(u32, TypeCause)>, Memory> {
    let test = tested(alloc, b"http.host", matches(alloc, b"(")?)?;
    fault_of(alloc, &call(alloc, b"len", test)?, Place::Value)
}

#[test]
fn the_fault_is_that_of_the_lowest_node(rt: HostRuntime) -> Result<(), Fail> {
    let alloc = rt.alloc();
    let block = Item::Block(Addr::V4(167772160), 33);
    assert!(rt; tested_fault(alloc, b"http.host", equal(alloc, b"a")?)? == None);
    assert!(rt; tested_fault(alloc, b"http.host", matches(alloc, b"^a")?)? == None);
    assert!(rt;
        tested_fault(alloc, b"http.hots", equal(alloc, b"a")?)?
            == Some((1, TypeCause::UnknownField))
    );
    assert!(rt;
        tested_fault(alloc, b"nosuch", Test::Listed(Text::of(alloc, b"x")?))?
            == Some((0, TypeCause::UnknownList))
    );
    assert!(rt;
        tested_fault(alloc, b"ip.src", among(alloc, block)?)? == Some((0, TypeCause::BadPrefix))
    );
    assert!(rt;
        tested_fault(
            alloc,
            b"http.request.timestamp.sec",
            among(alloc, Item::Nums(9, 3))?
        )? == Some((0, TypeCause::BadRange))
    );
    assert!(rt;
        tested_fault(alloc, b"http.host", matches(alloc, b"(")?)?
            == Some((0, TypeCause::PatternSyntax))
    );
    assert!(rt; length_fault(alloc)? == Some((0, TypeCause::Mismatch)));
    assert!(rt; keyed_fault(alloc, b"cf.colo.id")? == None);
    assert!(rt; keyed_fault(alloc, b"ssl")? == Some((0, TypeCause::Mismatch)));
    assert!(rt; keyed_fault(alloc, b"http.response.code")? == Some((0, TypeCause::ResponseField)));
    Ok(())
}
