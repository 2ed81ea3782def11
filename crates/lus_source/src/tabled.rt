//! Sources with what their names stand for.

ghost use Rattle.std.specs.Prelude.{◌≡◌, ◌<◌, IfOk, length};
ghost use Rattle.lus_syntax.specs.View.{tree_seen};
ghost use Rattle.lus_source.specs.ScopeView.{scope_of};
ghost use Rattle.lus_source.specs.Tables.{node_at, scope};

use crate::loopless::Loopless;
use crate::scope::{Scope, Tables};
use crate::signatures::{nodes, variables};
use crate::types::{declared, kinds_of_types};
use crate::values::{constants, constructors};
use lus_values::Memory;
use std::alloc::Global;
use std::marker::Model;

/// A source in which nothing leads back to itself, with what its names stand for. Contracts see it as its tree.
#[derive(Drop)]
pub struct Tabled<'a> {
    pub loopless: &'a Loopless,
    pub tables: Tables<'a>,
}

impl<'a> Model for Tabled<'a> {
    ghost use Rattle.std.specs.Prelude.{◌≡◌};
    ghost use Rattle.std.specs.Coded.{codes};
    ghost use Rattle.lus_syntax.specs.contracts.tree.Expr as source_expr;
    ghost use Rattle.lus_syntax.specs.declared.tree.Tree.{Tree as StoredTree};
    ghost use Rattle.lus_syntax.specs.View.{tree_seen};
    ghost use Rattle.lus_source.specs.Sources.{HasTables};

    ghost Value = { StoredTree };

    ghost coded = { Prim.hlevel (codes, source_expr.the_row.coded) };

    ghost view = { λ t. t.loopless.now };

    ghost invariant = { λ t. HasTables (tree_seen t.loopless.now) t.tables };
}

/// A source with what its names stand for.
pub fn tables(alloc: Global, loopless: &Loopless) -> Result<Tabled<'_>, Memory>
    ensures { IfOk result (λ tabled. tabled ≡ loopless.now) }
{
    let named = loopless.named();
    let names = named.names();
    let types = kinds_of_types(alloc, loopless)?;
    let declared = declared(alloc, &names.types, &types, &named.tree().types)?;
    let nodes = nodes(alloc, &names.types, &types, named)?;
    let variables = variables(alloc, &names.types, &types, &named.tree().nodes)?;
    let constructors = constructors(alloc, named)?;
    let constants = constants(
        alloc,
        &names.constructors,
        &constructors,
        &named.tree().constants,
    )?;
    let tables = Tables {
        names,
        constants,
        constructors,
        types,
        declared,
        nodes,
        variables,
    };
    Ok(Tabled { loopless, tables })
}

/// What the names in the text of the node at a place stand for.
pub fn enter<'a>(tabled: &'a Tabled<'a>, node: usize) -> Scope<'a>
    requires { node < length (tree_seen tabled.now).nodes }
    ensures { scope_of result ≡ scope (tree_seen tabled.now) (node_at (tree_seen tabled.now) node) }
{
    Scope {
        tables: &tabled.tables,
        variables: tabled.loopless.named().variables(node),
        variable_kinds: tabled.tables.variables[node].as_slice(),
    }
}
