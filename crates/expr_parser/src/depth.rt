ghost use Rattle.std.specs.Prelude.{◌≡◌, IfOk};
ghost use Rattle.edge_base.specs.Nesting.{nesting};
ghost use Rattle.expr_parser.specs.Depth.{NestingIsDepth};

use crate::stack::Stack;
use edge_base::{Memory, Terminal};
use std::alloc::Global;

/// How deep terminals nest.
pub fn nesting(alloc: Global, terminals: &[Terminal]) -> Result<usize, Memory>
    ensures { IfOk result (λ n. n ≡ nesting terminals.now) }
{
    let mut around: Stack<usize> = Stack::new(alloc);
    let mut pending = 0;
    let mut depth = 0;
    let mut deepest = 0;
    for terminal in terminals {
        match terminal {
            Terminal::Not => {
                pending += 1;
                depth += 1;
            }
            Terminal::Open => {
                around.push(pending)?;
                pending = 0;
                depth += 1;
            }
            Terminal::Close => {
                if let Some(outer) = around.pop() {
                    depth -= pending + 1;
                    pending = outer;
                }
            }
            Terminal::And | Terminal::Xor | Terminal::Or | Terminal::Comma => {
                depth -= pending;
                pending = 0;
            }
            _ => {}
        }
        deepest = deepest.max(depth);
    }
    Ok(deepest)
}

/// A law: terminals that derive a tree nest as deep as groups, calls and `not`s stand one inside the other in it.
pub fn nesting_is_depth()
    ensures { NestingIsDepth }
{}
