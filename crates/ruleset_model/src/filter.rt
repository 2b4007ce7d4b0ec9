use edge_base::{Memory, Reply, Request};
use edge_fields::{Kind, Value};
use list_store::Lists;
use std::alloc::Global;
use std::marker::Model;
use tree_eval::{eval, is_met};
use type_check::Typed;

/// An expression that was checked and built. Contracts see the tree that is evaluated, the kind of its values, and the
/// named lists that it may speak of.
#[derive(Drop)]
pub struct Filter {
    typed: Typed,
}

impl Model for Filter {
    ghost use Rattle.std.specs.Coded.{codes};
    ghost use Rattle.edge_base.specs.contracts.expression.Expr.{the_row as expr_row};
    ghost use Rattle.type_check.specs.Trees.{tree_of};
    ghost use Rattle.ruleset_model.specs.FilterParts.{FilterParts};

    ghost Value = { FilterParts };

    ghost coded = { Prim.hlevel (codes, expr_row.coded) };

    ghost view = { λ f. record { tree = tree_of f.typed.root; kind = f.typed.kind; lists = f.typed.lists } };
}

impl Filter {
    ghost use Rattle.std.specs.Prelude.{◌≡◌, IfOk};
    ghost use Rattle.std.specs.Option.{option_copied};
    ghost use Rattle.list_store.specs.Listed.{list_kinds_of};
    ghost use Rattle.type_check.specs.Trees.{tree_of};
    ghost use Rattle.tree_eval.specs.Settings.{IsValueOf, IsTruthOf};

    /// The filter of a checked expression. Takes no memory.
    pub fn of(typed: Typed) -> Filter
        ensures tree { result.tree ≡ tree_of typed.root }
        ensures kind { result.kind ≡ typed.kind }
        ensures lists { result.lists ≡ typed.lists }
    {
        Filter { typed }
    }

    /// The kind of its values. Takes no memory.
    pub fn kind(&self) -> Kind
        ensures { result ≡ self.now.kind }
    {
        self.typed.kind()
    }

    /// Its value on a request and its reply, under the lists with which it was built; none is a missing value.
    pub fn run(
        &self,
        alloc: Global,
        request: &Request,
        reply: Option<&Reply>,
        lists: &Lists,
    ) -> Result<Option<Value>, Memory>
        requires { self.now.lists ≡ list_kinds_of lists.now }
        ensures { IfOk result (IsValueOf lists.now request.now (option_copied reply.entry) self.now.tree) }
    {
        eval(alloc, &self.typed, request, reply, lists)
    }

    /// Whether it is a condition that is true on a request and its reply; a missing value is not.
    pub fn holds(
        &self,
        alloc: Global,
        request: &Request,
        reply: Option<&Reply>,
        lists: &Lists,
    ) -> Result<bool, Memory>
        requires { self.now.lists ≡ list_kinds_of lists.now }
        ensures { IfOk result (IsTruthOf lists.now request.now (option_copied reply.entry) self.now.tree) }
    {
        is_met(alloc, &self.typed, request, reply, lists)
    }
}
