// Modes of properties and of blocks (IEEE 1800-2017, 18.8 and 18.9).

ghost use Rattle.std.specs.Prelude.{◌≡◌, ◌<◌, ◌^◌, length, None, Some, option_map, IfOk};
ghost use Rattle.svr_typed.specs.ExprTerm.{expr_term};
ghost use Rattle.svr_typed.specs.StmtTerm.{stmt_term};
ghost use Rattle.svr_tree.specs.StmtTree.{mode_tree};
ghost use Rattle.svr_elab_fault.specs.Refusals.{first_one};
ghost use Rattle.svr_elab_names.specs.Tables.{space_of};
ghost use Rattle.svr_elab_part.specs.Seen.{part_of};
ghost use Rattle.svr_elab_part.specs.Fits.{MembersFit};
ghost use Rattle.svr_elab_stmt.specs.Stmts as spec;
ghost use Rattle.svr_elab_stmt.specs.Seen.{stmt_part};
ghost use Rattle.svr_elab_stmt.specs.Fits.{ModeFits};
ghost use Rattle.svr_elab_target.specs.Seen.{object_seen, path_seen};
ghost use Rattle.svr_elab_target.specs.Fits.{BlocksFit};
ghost use Rattle.svr_elab_target.specs.Kept.{IsKept};

use crate::part::StmtPart;
use indexmap::IndexSet;
use std::alloc::Global;
use svr_elab_expr::{beside, value};
use svr_elab_fault::earlier;
use svr_elab_names::NameSpace;
use svr_elab_part::Part;
use svr_elab_target::{
    FlatNames, Object, ObjectPath, mode_member, object_path, unknown_at, use_fault, wrong_member,
};
use svr_tree::{ModeCall, ModeKind};
use svr_typed::{NoMemory, TExpr, TStmt};

fn typed_mode(kind: ModeKind, object: u32, member: Option<u32>, on: TExpr) -> TStmt
    ensures { stmt_term result ≡ spec.mode_term kind object member (expr_term on) }
{
    match kind {
        ModeKind::Rand => TStmt::rand_mode(object, member, on),
        ModeKind::Constraint => TStmt::constraint_mode(object, member, on),
    }
}

fn mode_tree_of(
    kind: ModeKind,
    object: u32,
    member: Option<u32>,
    on: Option<TExpr>,
) -> Option<TStmt>
    ensures { option_map stmt_term result ≡ option_map (spec.mode_term kind object member) (option_map expr_term on) }
{
    match on {
        None => None,
        Some(on) => Some(typed_mode(kind, object, member, on)),
    }
}

/// A mode of an object.
fn mode_on(
    made: &IndexSet<u32>,
    path: ObjectPath<'_>,
    kind: ModeKind,
    object: Object,
    member: Option<u32>,
    on: Part,
) -> StmtPart
    ensures value { stmt_part result ≡ spec.mode_on first_one made.now.keys (path_seen path.entry) kind (object_seen object) member (part_of on) }
    ensures once { result.count ≡ 1 }
{
    let unused = use_fault(made, path.first, Some(object));
    let wrong = unknown_at(wrong_member(member, path.rest));
    StmtPart {
        tree: mode_tree_of(kind, object.variable, member, on.tree),
        fault: earlier(unused, earlier(wrong, on.fault)),
        makes: None,
        count: 1,
    }
}

/// A mode of what is no object variable.
fn mode_on_none(made: &IndexSet<u32>, first: u32, on: Part) -> StmtPart
    ensures value { stmt_part result ≡ spec.one_stmt first_one None (first_one.both (spec.use_faults first_one made.now.keys first None) (part_of on).faults) }
    ensures once { result.count ≡ 1 }
{
    let fault = earlier(use_fault(made, first, None), on.fault);
    drop(on);
    StmtPart {
        tree: None,
        fault,
        makes: None,
        count: 1,
    }
}

/// A mode of an object on a path.
fn mode_on_object<'a>(
    alloc: Global,
    path: ObjectPath<'_>,
    kind: ModeKind,
    object: Object,
    on: Part,
    names: &NameSpace<'_, 'a>,
    flat: &mut FlatNames<'a>,
) -> Result<StmtPart, NoMemory>
    requires blocks { BlocksFit (space_of names.now) }
    requires kept { IsKept (space_of names.now) flat.old }
    ensures value { IfOk result (λ s. stmt_part s ≡ spec.mode_of first_one (space_of names.now) (path_seen path.entry) kind (part_of on) (Some (object_seen object))) }
    ensures once { IfOk result (λ s. s.count ≡ 1) }
    ensures kept { IsKept (space_of names.now) flat.new }
{
    let member = mode_member(alloc, kind, object.class, path.rest, names, flat);
    let (on, member) = beside(on, member)?;
    Ok(mode_on(names.made, path, kind, object, member, on))
}

/// A mode of what stands on this path.
fn mode_of<'a>(
    alloc: Global,
    path: ObjectPath<'_>,
    kind: ModeKind,
    on: Part,
    names: &NameSpace<'_, 'a>,
    flat: &mut FlatNames<'a>,
) -> Result<StmtPart, NoMemory>
    requires blocks { BlocksFit (space_of names.now) }
    requires kept { IsKept (space_of names.now) flat.old }
    ensures value { IfOk result (λ s. stmt_part s ≡ spec.mode_of first_one (space_of names.now) (path_seen path.entry) kind (part_of on) (option_map object_seen path.entry.object)) }
    ensures once { IfOk result (λ s. s.count ≡ 1) }
    ensures kept { IsKept (space_of names.now) flat.new }
{
    match path.object {
        None => Ok(mode_on_none(names.made, path.first, on)),
        Some(object) => mode_on_object(alloc, path, kind, object, on, names, flat),
    }
}

/// `path.rand_mode(on)` or `path.constraint_mode(on)`
pub fn mode_stmt<'a>(
    alloc: Global,
    mode: &ModeCall,
    names: &NameSpace<'_, 'a>,
    flat: &mut FlatNames<'a>,
) -> Result<StmtPart, NoMemory>
    requires vars { length names.now.vars.now.entries < 2 ^ 32 }
    requires members { MembersFit (space_of names.now) }
    requires blocks { BlocksFit (space_of names.now) }
    requires fits { ModeFits (length names.now.loops.now) (mode_tree mode.now) }
    requires kept { IsKept (space_of names.now) flat.old }
    ensures value { IfOk result (λ s. stmt_part s ≡ spec.mode_stmt first_one (space_of names.now) (mode_tree mode.now)) }
    ensures once { IfOk result (λ s. s.count ≡ 1) }
    ensures kept { IsKept (space_of names.now) flat.new }
{
    let on = value(alloc, &mode.on, names)?;
    let path = object_path(&mode.path, names);
    mode_of(alloc, path, mode.kind, on, names, flat)
}
