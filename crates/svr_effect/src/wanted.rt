// The classes that a script wants: those of the object variables that its statements name.

ghost use Rattle.std.specs.Prelude.{◌≡◌, true, false, length, replicate, slice_index_or, slice_set, IfOk};
ghost use Rattle.svr_typed.specs.StmtTerm.{design_term, stmt_term, stmt_terms};
ghost use Rattle.svr_script.specs.Statement as spec;
ghost use Rattle.svr_effect.specs.Inherited.{with_named, with_all_named};

use crate::declared::class_of_var;
use std::alloc::Global;
use svr_typed::{Design, NoMemory, TStmt};

/// A class is wanted from now on.
pub(crate) fn want(wanted: &mut Vec<bool>, class: u32)
    ensures { wanted.new.items ≡ slice_set wanted.old.items class true }
{
    if let Some(place) = wanted.get_mut(class as usize) {
        *place = true;
    }
}

/// Whether a class is wanted.
pub(crate) fn is_wanted(wanted: &[bool], class: u32) -> bool
    ensures { result ≡ slice_index_or wanted.now class true }
{
    match wanted.get(class as usize) {
        Some(wanted) => *wanted,
        None => true,
    }
}

/// The class of an object variable is wanted from now on.
fn want_object(object: u32, design: &Design, wanted: &mut Vec<bool>)
    ensures { wanted.new.items ≡ slice_set wanted.old.items (spec.class_of_var (design_term design.now) object) true }
{
    want(wanted, class_of_var(design, object));
}

/// So is that of the variable that a statement names, and those of the ones that the statements in it name.
#[cycle(want_named)]
fn want_named(stmt: &TStmt, design: &Design, wanted: &mut Vec<bool>)
    ensures { wanted.new.items ≡ with_named (design_term design.now) wanted.old.items (stmt_term stmt.now) }
{
    match stmt {
        TStmt::Make(object) => want_object(*object, design, wanted),
        TStmt::SetVar(_, _) => {}
        TStmt::SetProp { object, .. } => want_object(*object, design, wanted),
        TStmt::Resize { object, .. } => want_object(*object, design, wanted),
        TStmt::Pattern { object, .. } => want_object(*object, design, wanted),
        TStmt::RandMode { object, .. } => want_object(*object, design, wanted),
        TStmt::ConstraintMode { object, .. } => want_object(*object, design, wanted),
        TStmt::Call(call) => want_object(call.object, design, wanted),
        TStmt::Repeat(_, body) => want_named(body.get(), design, wanted),
        TStmt::List(stmts) => want_all_named(stmts.as_slice(), design, wanted),
    }
}

/// So are those of the variables that some of these statements name.
#[cycle(want_named)]
fn want_all_named(stmts: &[TStmt], design: &Design, wanted: &mut Vec<bool>)
    ensures { wanted.new.items ≡ with_all_named (design_term design.now) wanted.old.items (stmt_terms stmts.now) }
{
    for stmt in stmts {
        want_named(stmt, design, wanted);
    }
}

/// For each class of a script whether a statement names a variable that has it.
pub(crate) fn wanted_classes(alloc: Global, design: &Design) -> Result<Vec<bool>, NoMemory>
    ensures { IfOk result (λ wanted. wanted.items ≡ with_all_named (design_term design.now) (replicate (length design.now.classes) false) (stmt_terms design.now.stmts)) }
{
    let mut wanted = vec![in alloc; false; design.classes.len()]?;
    want_all_named(design.stmts.as_slice(), design, &mut wanted);
    Ok(wanted)
}
