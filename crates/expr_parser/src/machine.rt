ghost use Rattle.std.specs.Prelude.{◌≡◌, [], ◌∷◌, ◌++◌, IfOk};
ghost use Rattle.expr_parser.specs.Machine.{at_operand, at_path, at_named, at_index, at_index_end, mode_of, at_testing, step, ending};

use crate::chains::chain_of;
use crate::levels::{at_begin, at_end, at_want, at_whole, fresh, refused};
use crate::stack::Stack;
use crate::state::{Frame, Level, Mode, Opened, State};
use crate::testing::{Tested, Testing, TextTest, test_step};
use edge_base::{Expr, Lit, Memory, Terminal, Text};
use sqlite_items::{Boxed, Items};
use std::alloc::Global;

/// Behind an operand: a test, or what may follow a unit.
fn at_operand(
    alloc: Global,
    terminal: Terminal,
    operand: Expr,
    top: Frame,
    below: Stack<Level>,
) -> Result<Option<State>, Memory>
    ensures { IfOk result (λ next. next ≡ at_operand terminal operand top below) }
{
    let testing = match terminal {
        Terminal::Order(order) => Testing::Order(order),
        Terminal::Contains => Testing::Text(TextTest::Contains),
        Terminal::Matches => Testing::Text(TextTest::Matches),
        Terminal::Wildcard => Testing::Text(TextTest::Wild),
        Terminal::Strict => Testing::Strict,
        Terminal::In => Testing::In,
        other => return at_end(alloc, other, operand, top, below),
    };
    Ok(Some(State {
        mode: Mode::Testing(operand, testing),
        top,
        below,
    }))
}

/// Behind a path: an index, or what may follow an operand.
fn at_path(
    alloc: Global,
    terminal: Terminal,
    path: Expr,
    top: Frame,
    below: Stack<Level>,
) -> Result<Option<State>, Memory>
    ensures { IfOk result (λ next. next ≡ at_path terminal path top below) }
{
    match terminal {
        Terminal::OpenIndex => Ok(Some(State {
            mode: Mode::Index(path),
            top,
            below,
        })),
        other => at_operand(alloc, other, path, top, below),
    }
}

/// Behind a name: the arguments of a call, or what may follow a path.
fn at_named(
    alloc: Global,
    terminal: Terminal,
    name: Text,
    top: Frame,
    below: Stack<Level>,
) -> Result<Option<State>, Memory>
    ensures { IfOk result (λ next. next ≡ at_named terminal name top below) }
{
    match terminal {
        Terminal::Open => {
            let mut below = below;
            below.push(Level {
                opened: Opened::Call(name, Items::new(alloc)),
                outer: top,
            })?;
            Ok(Some(State {
                mode: Mode::Begin,
                top: fresh(alloc),
                below,
            }))
        }
        other => at_path(alloc, other, Expr::Field(name), top, below),
    }
}

/// Behind `[`.
fn at_index(
    alloc: Global,
    terminal: Terminal,
    path: Expr,
    top: Frame,
    below: Stack<Level>,
) -> Result<Option<State>, Memory>
    ensures { IfOk result (λ next. next ≡ at_index terminal path top below) }
{
    let indexed = match terminal {
        Terminal::Number(number) if 0 <= number => Expr::At(Boxed::new(alloc, path)?, number),
        Terminal::Text(key) => Expr::Key(Boxed::new(alloc, path)?, key),
        Terminal::Star => Expr::Each(Boxed::new(alloc, path)?),
        _ => return Ok(refused(path)),
    };
    Ok(Some(State {
        mode: Mode::IndexEnd(indexed),
        top,
        below,
    }))
}

fn at_index_end(terminal: Terminal, path: Expr, top: Frame, below: Stack<Level>) -> Option<State>
    ensures { result ≡ at_index_end terminal path top below }
{
    match terminal {
        Terminal::CloseIndex => Some(State {
            mode: Mode::Path(path),
            top,
            below,
        }),
        _ => refused(path),
    }
}

fn mode_of(alloc: Global, operand: Expr, tested: Tested) -> Result<Mode, Memory>
    ensures { IfOk result (λ mode. mode ≡ mode_of operand tested) }
{
    match tested {
        Tested::Part(testing) => Ok(Mode::Testing(operand, testing)),
        Tested::Whole(test) => Ok(Mode::Done(Expr::Test(Boxed::new(alloc, operand)?, test))),
    }
}

fn at_testing(
    alloc: Global,
    terminal: Terminal,
    operand: Expr,
    testing: Testing,
    top: Frame,
    below: Stack<Level>,
) -> Result<Option<State>, Memory>
    ensures { IfOk result (λ next. next ≡ at_testing terminal operand testing top below) }
{
    match test_step(alloc, testing, terminal)? {
        None => Ok(refused(operand)),
        Some(tested) => {
            let mode = mode_of(alloc, operand, tested)?;
            Ok(Some(State { mode, top, below }))
        }
    }
}

/// The state after one more terminal, or None where it may not stand here.
pub fn step(alloc: Global, state: State, terminal: Terminal) -> Result<Option<State>, Memory>
    ensures { IfOk result (λ next. next ≡ step state terminal) }
{
    let State { mode, top, below } = state;
    match mode {
        Mode::Begin => at_begin(alloc, terminal, top, below),
        Mode::Want => at_want(alloc, terminal, top, below),
        Mode::Literal(lit) => at_whole(alloc, terminal, Expr::Lit(lit), below),
        Mode::Named(name) => at_named(alloc, terminal, name, top, below),
        Mode::Path(path) => at_path(alloc, terminal, path, top, below),
        Mode::Truth(truth) => at_operand(alloc, terminal, Expr::Lit(Lit::Bool(truth)), top, below),
        Mode::Index(path) => at_index(alloc, terminal, path, top, below),
        Mode::IndexEnd(path) => Ok(at_index_end(terminal, path, top, below)),
        Mode::Testing(operand, testing) => at_testing(
            alloc, terminal, operand, testing, top, below,
        ),
        Mode::Done(unit) => at_end(alloc, terminal, unit, top, below),
    }
}

/// No tree: what was read is let go.
fn unended(_mode: Mode) -> Option<Expr>
    ensures { result ≡ None }
{
    None
}

/// The tree, where the terminals end here.
pub fn ended(alloc: Global, state: State) -> Result<Option<Expr>, Memory>
    ensures { IfOk result (λ tree. tree ≡ ending state) }
{
    let State { mode, top, below } = state;
    if !below.is_empty() {
        return Ok(unended(mode));
    }
    match mode {
        Mode::Literal(lit) => Ok(Some(Expr::Lit(lit))),
        Mode::Named(name) => Ok(Some(chain_of(alloc, top, Expr::Field(name))?)),
        Mode::Path(path) => Ok(Some(chain_of(alloc, top, path)?)),
        Mode::Truth(truth) => Ok(Some(chain_of(alloc, top, Expr::Lit(Lit::Bool(truth)))?)),
        Mode::Done(unit) => Ok(Some(chain_of(alloc, top, unit)?)),
        other => Ok(unended(other)),
    }
}
