// Which properties calls list (IEEE 1800-2017, 18.11.1).

ghost use Rattle.std.specs.Prelude.{◌≡◌, ◌<◌, ◌^◌, length, map, IfOk};
ghost use Rattle.svr_token.specs.Names.{names_of};
ghost use Rattle.svr_tree.specs.StmtTree.{stmt_tree, stmt_trees, right_tree, randomize_tree};
ghost use Rattle.svr_elab_names.specs.Names as names_spec;
ghost use Rattle.svr_elab_names.specs.Tables.{space_of, class_of};
ghost use Rattle.svr_elab_target.specs.Seen.{path_seen};
ghost use Rattle.svr_elab_unit.specs.Listed as spec;

use indexmap::IndexSet;
use svr_elab_names::{NameSpace, Property};
use svr_elab_random::Home;
use svr_elab_target::{ObjectPath, class_property, object_path};
use svr_tree::{RandomizeArgs, RandomizeCall, RightSide, Stmt};
use svr_typed::NoMemory;

/// The listed properties with one more.
fn and_home(homes: &mut IndexSet<Home>, property: Option<Property>) -> Result<(), NoMemory>
    ensures { IfOk result (λ u. homes.new.keys ≡ spec.and_home homes.old.keys property) }
{
    match property {
        None => Ok(()),
        Some(property) => match homes.insert(Home::of(property)) {
            Ok(_) => Ok(()),
            Err(_) => Err(NoMemory),
        },
    }
}

fn and_names(
    class: u32,
    list: &[u32],
    names: &NameSpace<'_, '_>,
    homes: &mut IndexSet<Home>,
) -> Result<(), NoMemory>
    ensures { IfOk result (λ u. homes.new.keys ≡ spec.and_names (names_of names.now.names) (names_spec.class_props (map class_of names.now.classes.now) class) homes.old.keys list.now) }
{
    for name in list {
        let property = class_property(class, *name, names);
        and_home(homes, property)?;
    }
    Ok(())
}

/// The class of an object variable that stands alone.
fn path_class(path: ObjectPath<'_>) -> Option<u32>
    ensures { result ≡ spec.path_class (path_seen path.entry) }
{
    if !path.rest.is_empty() {
        return None;
    }
    match path.object {
        None => None,
        Some(object) => Some(object.class),
    }
}

fn listed_in(
    class: Option<u32>,
    args: &RandomizeArgs,
    names: &NameSpace<'_, '_>,
    homes: &mut IndexSet<Home>,
) -> Result<(), NoMemory>
    ensures { IfOk result (λ u. homes.new.keys ≡ spec.listed_in (space_of names.now) homes.old.keys class args.now) }
{
    let Some(class) = class else {
        return Ok(());
    };
    match args {
        RandomizeArgs::Empty | RandomizeArgs::Null => Ok(()),
        RandomizeArgs::Names(list) => and_names(class, list.as_slice(), names, homes),
    }
}

fn listed_call(
    call: &RandomizeCall,
    names: &NameSpace<'_, '_>,
    homes: &mut IndexSet<Home>,
) -> Result<(), NoMemory>
    requires vars { length names.now.vars.now.entries < 2 ^ 32 }
    requires loops { length names.now.loops.now < 2 ^ 32 }
    ensures { IfOk result (λ u. homes.new.keys ≡ spec.listed_call (space_of names.now) homes.old.keys (randomize_tree call.now)) }
{
    let path = object_path(&call.path, names);
    let class = path_class(path);
    listed_in(class, &call.args, names, homes)
}

fn listed_right(
    right: &RightSide,
    names: &NameSpace<'_, '_>,
    homes: &mut IndexSet<Home>,
) -> Result<(), NoMemory>
    requires vars { length names.now.vars.now.entries < 2 ^ 32 }
    requires loops { length names.now.loops.now < 2 ^ 32 }
    ensures { IfOk result (λ u. homes.new.keys ≡ spec.listed_right (space_of names.now) homes.old.keys (right_tree right.now)) }
{
    match right {
        RightSide::Call(call) => listed_call(call, names, homes),
        RightSide::Value(_) | RightSide::New { .. } | RightSide::NewArray(_) => Ok(()),
        RightSide::Pattern { .. } => Ok(()),
    }
}

/// The properties that the calls of a statement list, behind these.
#[cycle(listed)]
fn listed(
    stmt: &Stmt,
    names: &NameSpace<'_, '_>,
    homes: &mut IndexSet<Home>,
) -> Result<(), NoMemory>
    requires vars { length names.now.vars.now.entries < 2 ^ 32 }
    requires loops { length names.now.loops.now < 2 ^ 32 }
    ensures { IfOk result (λ u. homes.new.keys ≡ spec.listed (space_of names.now) homes.old.keys (stmt_tree stmt.now)) }
{
    match stmt {
        Stmt::Empty { .. } | Stmt::Mode { .. } => Ok(()),
        Stmt::Block { stmts, .. } => listed_in_all(stmts.as_slice(), names, homes),
        Stmt::Repeat { body, .. } => listed(body.get(), names, homes),
        Stmt::Assign { value, .. } => listed_right(value, names, homes),
        Stmt::Call { call, .. } => listed_call(call, names, homes),
    }
}

/// The properties that the calls of statements list, behind these.
#[cycle(listed)]
pub fn listed_in_all(
    list: &[Stmt],
    names: &NameSpace<'_, '_>,
    homes: &mut IndexSet<Home>,
) -> Result<(), NoMemory>
    requires vars { length names.now.vars.now.entries < 2 ^ 32 }
    requires loops { length names.now.loops.now < 2 ^ 32 }
    ensures { IfOk result (λ u. homes.new.keys ≡ spec.all_listed (space_of names.now) homes.old.keys (stmt_trees list.now)) }
{
    for stmt in list {
        listed(stmt, names, homes)?;
    }
    Ok(())
}
