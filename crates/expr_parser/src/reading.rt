ghost use Rattle.std.specs.Prelude.{◌≡◌, IfOk, is_some};
ghost use Rattle.edge_base.specs.Grammar.{DeriveAtMostOne, HaveOneFault, UnderivedHaveFaults};
ghost use Rattle.expr_parser.specs.Machine.{bare_mode, bared};
ghost use Rattle.expr_parser.specs.Reading.{IsReading, IsFaultOrTree};

use crate::levels::{fresh, start};
use crate::machine::{ended, step};
use crate::state::{Mode, State};
use edge_base::{Expr, Lit, Memory, Terminal};
use std::alloc::Global;

/// What terminals are: an expression, or none, with the place of the first that may not stand where it stands.
#[derive(Drop)]
pub enum Reading {
    Tree(Expr),
    Fault(usize),
}

/// Reads terminals, with no recursion.
pub fn read(alloc: Global, terminals: Vec<Terminal>) -> Result<Reading, Memory>
    ensures { IfOk result (λ reading. IsReading terminals.items reading) }
{
    let mut state = start(alloc);
    let mut at = 0;
    for terminal in terminals {
        let Some(next) = step(alloc, state, terminal)? else {
            return Ok(Reading::Fault(at));
        };
        state = next;
        at += 1;
    }
    match ended(alloc, state)? {
        Some(tree) => Ok(Reading::Tree(tree)),
        None => Ok(Reading::Fault(at)),
    }
}

/// The mode with a small tree in place of what was read: what may follow is the same.
fn bare_mode(mode: Mode) -> Mode
    ensures { result ≡ bare_mode mode }
{
    let stub = Expr::Lit(Lit::Bool(false));
    match mode {
        Mode::Path(_) => Mode::Path(stub),
        Mode::Index(_) => Mode::Index(stub),
        Mode::IndexEnd(_) => Mode::IndexEnd(stub),
        Mode::Testing(_, testing) => Mode::Testing(stub, testing),
        Mode::Done(_) => Mode::Done(stub),
        other => other,
    }
}

/// The state with small trees in place of what the innermost level has.
fn bared(alloc: Global, state: State) -> State
    ensures { result ≡ bared state }
{
    let State { mode, below, .. } = state;
    State {
        mode: bare_mode(mode),
        top: fresh(alloc),
        below,
    }
}

fn is_tree(tree: Option<Expr>) -> bool
    ensures { result ≡ is_some tree }
{
    tree.is_some()
}

/// The fault of terminals that may nest deep: their tree is never built.
pub fn fault_of(alloc: Global, terminals: Vec<Terminal>) -> Result<Option<usize>, Memory>
    ensures { IfOk result (λ found. IsFaultOrTree terminals.items found) }
{
    let mut state = start(alloc);
    let mut at = 0;
    for terminal in terminals {
        let Some(next) = step(alloc, state, terminal)? else {
            return Ok(Some(at));
        };
        state = bared(alloc, next);
        at += 1;
    }
    if is_tree(ended(alloc, state)?) {
        return Ok(None);
    }
    Ok(Some(at))
}

/// The grammar gives no terminals two trees.
pub fn derivations_are_unique()
    ensures { DeriveAtMostOne }
{}

/// Terminals go wrong at one place.
pub fn faults_are_unique()
    ensures { HaveOneFault }
{}

/// Terminals that derive no tree go wrong at some place.
pub fn underived_have_faults()
    ensures { UnderivedHaveFaults }
{}
