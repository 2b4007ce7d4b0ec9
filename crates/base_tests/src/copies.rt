use edge_base::{
    Addr, Expr, Exprs, Header, Headers, Item, ListedItems, Lit, Memory, Moment, Order, Reply,
    Request, RuleName, Test, Text, copy_exprs, copy_headers, copy_items, copy_rule_names,
    copy_texts,
};
use sqlite_items::{Boxed, Items};
use std::alloc::Global;
use std::test::Fail;

fn two_headers(alloc: Global) -> Result<Headers, Memory> {
    let mut headers = Items::new(alloc);
    headers.push(Header {
        name: Text::of(alloc, b"Host")?,
        value: Text::of(alloc, b"a.example")?,
    })?;
    headers.push(Header {
        name: Text::of(alloc, b"X-Trace")?,
        value: Text::of(alloc, b"")?,
    })?;
    Ok(headers)
}

#[test]
fn texts_are_copied_in_order(rt: HostRuntime) -> Result<(), Fail> {
    let alloc = rt.alloc();
    let mut texts = Items::new(alloc);
    texts.push(Text::of(alloc, b"a")?)?;
    texts.push(Text::of(alloc, b"")?)?;
    let copies = copy_texts(alloc, texts.as_slice())?;
    assert_eq!(rt; copies.as_slice(), texts.as_slice());
    for text in texts.as_slice() {
        assert_eq!(rt; text.copy(alloc)?, *text);
    }
    Ok(())
}

#[test]
fn headers_are_copied_in_order(rt: HostRuntime) -> Result<(), Fail> {
    let alloc = rt.alloc();
    let headers = two_headers(alloc)?;
    let copies = copy_headers(alloc, headers.as_slice())?;
    assert_eq!(rt; copies.as_slice(), headers.as_slice());
    for header in headers.as_slice() {
        assert_eq!(rt; header.copy(alloc)?, *header);
    }
    Ok(())
}

#[test]
fn rule_names_are_copied_in_order(rt: HostRuntime) -> Result<(), Fail> {
    let alloc = rt.alloc();
    let mut names = Items::new(alloc);
    names.push(RuleName {
        set_id: Text::of(alloc, b"fw")?,
        rule: Text::of(alloc, b"r1")?,
    })?;
    let copies = copy_rule_names(alloc, names.as_slice())?;
    assert_eq!(rt; copies.as_slice(), names.as_slice());
    for name in names.as_slice() {
        assert_eq!(rt; name.copy(alloc)?, *name);
    }
    Ok(())
}

#[test]
fn a_request_is_copied_whole(rt: HostRuntime) -> Result<(), Fail> {
    let alloc = rt.alloc();
    let request = Request {
        at: Moment::of(1999).ok_or(Memory)?.copy()?,
        from: Addr::V4(0x0a00_0001).copy()?,
        ssl: true,
        method: Text::of(alloc, b"PUT")?,
        target: Text::of(alloc, b"/a?b=c")?,
        minor: 1,
        headers: two_headers(alloc)?,
        body: Text::of(alloc, b"body")?,
    };
    let copy = request.copy(alloc)?;
    assert_eq!(rt; copy.at.get(), 1999);
    assert_eq!(rt; copy.from, Addr::V4(0x0a00_0001));
    assert!(rt; copy.ssl);
    assert_eq!(rt; copy.method, request.method);
    assert_eq!(rt; copy.target, request.target);
    assert_eq!(rt; copy.minor, 1);
    assert_eq!(rt; copy.headers.as_slice(), request.headers.as_slice());
    assert_eq!(rt; copy.body, request.body);
    Ok(())
}

#[test]
fn a_reply_is_copied_whole(rt: HostRuntime) -> Result<(), Fail> {
    let alloc = rt.alloc();
    let reply = Reply {
        status: 503,
        headers: two_headers(alloc)?,
        body: Text::of(alloc, b"later")?,
    };
    let copy = reply.copy(alloc)?;
    assert_eq!(rt; copy.status, 503);
    assert_eq!(rt; copy.headers.as_slice(), reply.headers.as_slice());
    assert_eq!(rt; copy.body, reply.body);
    Ok(())
}

/// An item of each kind, and a literal of each kind.
fn each_item(alloc: Global) -> Result<ListedItems, Memory> {
    let mut items = Items::new(alloc);
    items.push(Item::One(Lit::Text(Text::of(alloc, b"a")?)))?;
    items.push(Item::One(Lit::Num(-7)))?;
    items.push(Item::One(Lit::Addr(Addr::V6(1))))?;
    items.push(Item::One(Lit::Bool(true)))?;
    items.push(Item::Nums(1, 9))?;
    items.push(Item::Addrs(Addr::V4(1), Addr::V4(9)))?;
    items.push(Item::Block(Addr::V4(0x0a00_0000), 8))?;
    Ok(items)
}

#[test]
fn items_and_literals_are_copied_in_order(rt: HostRuntime) -> Result<(), Fail> {
    let alloc = rt.alloc();
    let items = each_item(alloc)?;
    assert_eq!(rt;
        copy_items(alloc, items.as_slice())?.as_slice(),
        items.as_slice()
    );
    for item in items.as_slice() {
        assert_eq!(rt; item.copy(alloc)?, *item);
        if let Item::One(lit) = item {
            assert_eq!(rt; lit.copy(alloc)?, *lit);
        }
    }
    Ok(())
}

/// A field tested in each way.
fn each_test(alloc: Global) -> Result<Items<Test>, Memory> {
    let mut tests = Items::new(alloc);
    tests.push(Test::Order(Order::Le.copy()?, Lit::Num(3)))?;
    tests.push(Test::Contains(Text::of(alloc, b"contained")?))?;
    tests.push(Test::Matches(Text::of(alloc, b"matched")?))?;
    tests.push(Test::Wild(Text::of(alloc, b"wild")?))?;
    tests.push(Test::StrictWild(Text::of(alloc, b"strict")?))?;
    tests.push(Test::Among(each_item(alloc)?))?;
    tests.push(Test::Listed(Text::of(alloc, b"listed")?))?;
    Ok(tests)
}

/// Which test it is, and how long what it is tested for.
fn test_sign(test: &Test) -> (u8, usize) {
    match test {
        Test::Order(Order::Le, Lit::Num(3)) => (1, 0),
        Test::Order(..) => (0, 0),
        Test::Contains(text) => (2, text.bytes().len()),
        Test::Matches(pattern) => (3, pattern.bytes().len()),
        Test::Wild(pattern) => (4, pattern.bytes().len()),
        Test::StrictWild(pattern) => (5, pattern.bytes().len()),
        Test::Among(items) => (6, items.as_slice().len()),
        Test::Listed(name) => (7, name.bytes().len()),
    }
}

#[test]
fn each_test_is_copied(rt: HostRuntime) -> Result<(), Fail> {
    let alloc = rt.alloc();
    let want = [(1, 0), (2, 9), (3, 7), (4, 4), (5, 6), (6, 7), (7, 6)];
    for (test, want) in each_test(alloc)?.as_slice().iter().zip(want) {
        assert_eq!(rt; test_sign(&test.copy(alloc)?), want);
    }
    Ok(())
}

fn field(alloc: Global, name: &str) -> Result<Boxed<Expr>, Memory> {
    let field = Expr::Field(Text::of(alloc, name.as_bytes())?);
    Ok(Boxed::new(alloc, field)?)
}

fn two_fields(alloc: Global) -> Result<Exprs, Memory> {
    let mut fields = Items::new(alloc);
    fields.push(Expr::Field(Text::of(alloc, b"a")?))?;
    fields.push(Expr::Field(Text::of(alloc, b"b")?))?;
    Ok(fields)
}

/// An expression of each kind.
fn each_expr(alloc: Global) -> Result<Exprs, Memory> {
    let mut exprs = Items::new(alloc);
    exprs.push(Expr::Lit(Lit::Num(1)))?;
    exprs.push(Expr::Field(Text::of(alloc, b"ssl")?))?;
    exprs.push(Expr::Call(Text::of(alloc, b"f")?, two_fields(alloc)?))?;
    exprs.push(Expr::At(field(alloc, "array")?, 4))?;
    exprs.push(Expr::Key(field(alloc, "map")?, Text::of(alloc, b"key")?))?;
    exprs.push(Expr::Each(field(alloc, "each")?))?;
    exprs.push(Expr::Test(field(alloc, "tested")?, Test::Order(Order::Eq, Lit::Num(1))))?;
    exprs.push(Expr::Not(field(alloc, "not")?))?;
    exprs.push(Expr::And(two_fields(alloc)?))?;
    exprs.push(Expr::Xor(two_fields(alloc)?))?;
    exprs.push(Expr::Or(two_fields(alloc)?))?;
    Ok(exprs)
}

/// Which expression it is, and how much hangs below it.
fn expr_sign(expr: &Expr) -> (u8, usize) {
    match expr {
        Expr::Lit(_) => (1, 0),
        Expr::Field(name) => (2, name.bytes().len()),
        Expr::Call(_, args) => (3, args.as_slice().len()),
        Expr::At(_, _) => (4, 1),
        Expr::Key(_, key) => (5, key.bytes().len()),
        Expr::Each(_) => (6, 1),
        Expr::Test(_, _) => (7, 1),
        Expr::Not(_) => (8, 1),
        Expr::And(members) => (9, members.as_slice().len()),
        Expr::Xor(members) => (10, members.as_slice().len()),
        Expr::Or(members) => (11, members.as_slice().len()),
    }
}

#[test]
fn each_expression_is_copied(rt: HostRuntime) -> Result<(), Fail> {
    let alloc = rt.alloc();
    let want = [
        (1, 0),
        (2, 3),
        (3, 2),
        (4, 1),
        (5, 3),
        (6, 1),
        (7, 1),
        (8, 1),
        (9, 2),
        (10, 2),
        (11, 2),
    ];
    let exprs = each_expr(alloc)?;
    let copies = copy_exprs(alloc, exprs.as_slice())?;
    assert_eq!(rt; copies.as_slice().len(), want.len());
    for (copy, want) in copies.as_slice().iter().zip(want) {
        assert_eq!(rt; expr_sign(copy), want);
        assert_eq!(rt; expr_sign(&copy.copy(alloc)?), want);
    }
    Ok(())
}
