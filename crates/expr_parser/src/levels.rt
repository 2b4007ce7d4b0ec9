ghost use Rattle.std.specs.Prelude.{◌≡◌, ◌+◌, [], ◌∷◌, ◌++◌, IfOk};
ghost use Rattle.expr_parser.specs.Machine.{frame, fresh, state, start, negate, and_of, xor_of, at_want, at_begin, closed, further, at_whole, at_end};

use crate::chains::{and_of, chain_of, negated, xor_of};
use crate::stack::Stack;
use crate::state::{Frame, Level, Mode, Opened, State};
use edge_base::{Expr, Lit, Memory, Terminal};
use sqlite_items::Items;
use std::alloc::Global;

/// A level of which nothing was read.
pub fn fresh(alloc: Global) -> Frame
    ensures { result ≡ fresh }
{
    Frame {
        ors: Items::new(alloc),
        xors: Items::new(alloc),
        ands: Items::new(alloc),
        nots: 0,
    }
}

/// Before the first terminal.
pub fn start(alloc: Global) -> State
    ensures { result ≡ start }
{
    State {
        mode: Mode::Begin,
        top: fresh(alloc),
        below: Stack::new(alloc),
    }
}

/// One more `not` is pending. No text has as many as a `u32` can't count.
fn one_more(nots: u32) -> Result<u32, Memory>
    ensures { IfOk result (λ n. n ≡ nots + 1) }
{
    nots.checked_add(1).ok_or(Memory)
}

/// A unit begins.
pub fn at_want(
    alloc: Global,
    terminal: Terminal,
    top: Frame,
    below: Stack<Level>,
) -> Result<Option<State>, Memory>
    ensures { IfOk result (λ next. next ≡ at_want terminal top below) }
{
    let mode = match terminal {
        Terminal::Name(name) => Mode::Named(name),
        Terminal::True => Mode::Truth(true),
        Terminal::False => Mode::Truth(false),
        Terminal::Not => {
            let nots = one_more(top.nots)?;
            let top = Frame { nots, ..top };
            return Ok(Some(State {
                mode: Mode::Want,
                top,
                below,
            }));
        }
        Terminal::Open => {
            let mut below = below;
            below.push(Level {
                opened: Opened::Group,
                outer: top,
            })?;
            return Ok(Some(State {
                mode: Mode::Want,
                top: fresh(alloc),
                below,
            }));
        }
        _ => return Ok(None),
    };
    Ok(Some(State { mode, top, below }))
}

/// An expression begins.
pub fn at_begin(
    alloc: Global,
    terminal: Terminal,
    top: Frame,
    below: Stack<Level>,
) -> Result<Option<State>, Memory>
    ensures { IfOk result (λ next. next ≡ at_begin terminal top below) }
{
    let lit = match terminal {
        Terminal::Text(text) => Lit::Text(text),
        Terminal::Number(number) => Lit::Num(number),
        Terminal::Address(addr) => Lit::Addr(addr),
        other => return at_want(alloc, other, top, below),
    };
    Ok(Some(State {
        mode: Mode::Literal(lit),
        top,
        below,
    }))
}

/// `)` behind an expression.
fn closed(level: Level, expr: Expr, below: Stack<Level>) -> Result<State, Memory>
    ensures { IfOk result (λ next. next ≡ closed expr level.opened level.outer below) }
{
    let Level { opened, outer } = level;
    match opened {
        Opened::Group => Ok(State {
            mode: Mode::Done(expr),
            top: outer,
            below,
        }),
        Opened::Call(name, mut args) => {
            args.push(expr)?;
            Ok(State {
                mode: Mode::Path(Expr::Call(name, args)),
                top: outer,
                below,
            })
        }
    }
}

/// `,` behind an expression.
fn further(
    alloc: Global,
    level: Level,
    expr: Expr,
    below: Stack<Level>,
) -> Result<Option<State>, Memory>
    ensures { IfOk result (λ next. next ≡ further expr level.opened level.outer below) }
{
    let mut below = below;
    let Level { opened, outer } = level;
    match opened {
        Opened::Group => Ok(None),
        Opened::Call(name, mut args) => {
            args.push(expr)?;
            below.push(Level {
                opened: Opened::Call(name, args),
                outer,
            })?;
            Ok(Some(State {
                mode: Mode::Begin,
                top: fresh(alloc),
                below,
            }))
        }
    }
}

/// No state: the expression is let go.
pub fn refused(_expr: Expr) -> Option<State>
    ensures { result ≡ None }
{
    None
}

/// Behind an expression that is whole.
pub fn at_whole(
    alloc: Global,
    terminal: Terminal,
    expr: Expr,
    below: Stack<Level>,
) -> Result<Option<State>, Memory>
    ensures { IfOk result (λ next. next ≡ at_whole terminal expr below) }
{
    let mut below = below;
    match terminal {
        Terminal::Close => match below.pop() {
            Some(level) => Ok(Some(closed(level, expr, below)?)),
            None => Ok(refused(expr)),
        },
        Terminal::Comma => match below.pop() {
            Some(level) => further(alloc, level, expr, below),
            None => Ok(refused(expr)),
        },
        _ => Ok(refused(expr)),
    }
}

/// The level behind a unit and `and`.
fn behind_and(alloc: Global, unit: Expr, top: Frame) -> Result<Frame, Memory>
    ensures { IfOk result (λ f. f ≡ frame top.ors top.xors (top.ands ++ negate top.nots unit ∷ []) 0) }
{
    let Frame {
        ors,
        xors,
        mut ands,
        nots,
    } = top;
    ands.push(negated(alloc, nots, unit)?)?;
    Ok(Frame {
        ors,
        xors,
        ands,
        nots: 0,
    })
}

/// The level behind a unit and `xor`.
fn behind_xor(alloc: Global, unit: Expr, top: Frame) -> Result<Frame, Memory>
    ensures { IfOk result (λ f. f ≡ frame top.ors (top.xors ++ and_of top unit ∷ []) [] 0) }
{
    let Frame {
        ors,
        mut xors,
        ands,
        nots,
    } = top;
    xors.push(and_of(alloc, ands, nots, unit)?)?;
    Ok(Frame {
        ors,
        xors,
        ands: Items::new(alloc),
        nots: 0,
    })
}

/// The level behind a unit and `or`.
fn behind_or(alloc: Global, unit: Expr, top: Frame) -> Result<Frame, Memory>
    ensures { IfOk result (λ f. f ≡ frame (top.ors ++ xor_of top unit ∷ []) [] [] 0) }
{
    let Frame {
        mut ors,
        xors,
        ands,
        nots,
    } = top;
    ors.push(xor_of(alloc, xors, ands, nots, unit)?)?;
    Ok(Frame {
        ors,
        ..fresh(alloc)
    })
}

/// A unit begins behind an operator.
fn wanting(top: Frame, below: Stack<Level>) -> State
    ensures { result ≡ state Mode.Want top below }
{
    State {
        mode: Mode::Want,
        top,
        below,
    }
}

/// Behind a unit that is whole.
pub fn at_end(
    alloc: Global,
    terminal: Terminal,
    unit: Expr,
    top: Frame,
    below: Stack<Level>,
) -> Result<Option<State>, Memory>
    ensures { IfOk result (λ next. next ≡ at_end terminal unit top below) }
{
    match terminal {
        Terminal::And => Ok(Some(wanting(behind_and(alloc, unit, top)?, below))),
        Terminal::Xor => Ok(Some(wanting(behind_xor(alloc, unit, top)?, below))),
        Terminal::Or => Ok(Some(wanting(behind_or(alloc, unit, top)?, below))),
        other => {
            let chain = chain_of(alloc, top, unit)?;
            at_whole(alloc, other, chain, below)
        }
    }
}
