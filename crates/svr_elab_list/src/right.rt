// Assignments with their sides (IEEE 1800-2017, 8.7, 10.4, 7.5.1, 10.9.1 and 18.6.1).

ghost use Rattle.std.specs.Prelude.{◌≡◌, ◌<◌, ◌^◌, length, IfOk};
ghost use Rattle.svr_tree.specs.ExprTree.{expr_tree, expr_trees};
ghost use Rattle.svr_tree.specs.StmtTree.{right_tree, randomize_tree};
ghost use Rattle.svr_elab_fault.specs.Refusals.{first_one};
ghost use Rattle.svr_elab_names.specs.Tables.{space_of};
ghost use Rattle.svr_elab_part.specs.Elab as elab_spec;
ghost use Rattle.svr_elab_part.specs.Seen.{part_of};
ghost use Rattle.svr_elab_part.specs.Fits.{MembersFit};
ghost use Rattle.svr_elab_type.specs.Types as types;
ghost use Rattle.svr_elab_type.specs.Fits.{ExprFits};
ghost use Rattle.svr_elab_target.specs.Targets as targets;
ghost use Rattle.svr_elab_stmt.specs.Stmts as spec;
ghost use Rattle.svr_elab_stmt.specs.Seen.{stmt_part};
ghost use Rattle.svr_elab_stmt.specs.Fits.{CallFits, RightFits, ValuesFit, values_in};

use crate::call::randomized;
use std::alloc::Global;
use svr_elab_expr::{beside, elab};
use svr_elab_names::NameSpace;
use svr_elab_part::{Form, Part};
use svr_elab_stmt::{StmtPart, given, made_new, pattern_stmt, resize_stmt, values};
use svr_elab_target::{Target, answer_fault};
use svr_elab_type::constant_at;
use svr_tree::{Expr, RandomizeCall, RightSide};
use svr_typed::NoMemory;

/// `target = e`
fn given_at(
    alloc: Global,
    target: Part,
    e: &Expr,
    names: &NameSpace<'_, '_>,
) -> Result<StmtPart, NoMemory>
    requires vars { length names.now.vars.now.entries < 2 ^ 32 }
    requires members { MembersFit (space_of names.now) }
    requires fits { ExprFits (length names.now.loops.now) (expr_tree e.now) }
    ensures value { IfOk result (λ s. stmt_part s ≡ spec.given first_one (part_of target) (elab_spec.elab first_one (space_of names.now) (expr_tree e.now))) }
    ensures once { IfOk result (λ s. s.count ≡ 1) }
{
    let (target, right) = beside(target, elab(alloc, e, names))?;
    Ok(given(target, right))
}

/// `target = new[size]`
fn resize_at(
    alloc: Global,
    target: Part,
    size: &Expr,
    names: &NameSpace<'_, '_>,
) -> Result<StmtPart, NoMemory>
    requires vars { length names.now.vars.now.entries < 2 ^ 32 }
    requires members { MembersFit (space_of names.now) }
    requires fits { ExprFits (length names.now.loops.now) (expr_tree size.now) }
    ensures value { IfOk result (λ s. stmt_part s ≡ spec.resize_stmt first_one (part_of target) (types.constant_at first_one (space_of names.now) (expr_tree size.now))) }
    ensures once { IfOk result (λ s. s.count ≡ 1) }
{
    let (target, right) = beside(target, constant_at(alloc, size, names))?;
    Ok(resize_stmt(target, right))
}

/// `target = '{ list }`
fn pattern_at(
    alloc: Global,
    target: Part,
    at: u32,
    list: &[Expr],
    names: &NameSpace<'_, '_>,
) -> Result<StmtPart, NoMemory>
    requires vars { length names.now.vars.now.entries < 2 ^ 32 }
    requires members { MembersFit (space_of names.now) }
    requires fits { ValuesFit (length names.now.loops.now) (expr_trees list.now) }
    requires many { values_in (expr_trees list.now) < 2 ^ 32 }
    ensures value { IfOk result (λ s. stmt_part s ≡ spec.pattern_stmt first_one (part_of target) at (spec.values first_one (space_of names.now) target.form.members (spec.no_values first_one) (expr_trees list.now))) }
    ensures once { IfOk result (λ s. s.count ≡ 1) }
{
    let right = values(alloc, list, target.form.members, names);
    let (target, right) = beside(target, right)?;
    Ok(pattern_stmt(target, at, right))
}

/// The variable that takes an answer.
fn taker(form: Form) -> Option<u32>
    ensures { result ≡ targets.answer_number (targets.target_of form) }
{
    Target::of(form).answer()
}

/// `target = call`
fn answered(
    alloc: Global,
    target: Part,
    call: &RandomizeCall,
    names: &NameSpace<'_, '_>,
) -> Result<StmtPart, NoMemory>
    requires vars { length names.now.vars.now.entries < 2 ^ 32 }
    requires members { MembersFit (space_of names.now) }
    requires fits { CallFits (length names.now.loops.now) (randomize_tree call.now) }
    ensures value { IfOk result (λ s. stmt_part s ≡ spec.answered first_one (space_of names.now) (part_of target) (randomize_tree call.now)) }
    ensures once { IfOk result (λ s. s.count ≡ 1) }
{
    let refused = answer_fault(&target);
    let form = target.form;
    drop(target);
    let right = randomized(alloc, taker(form), call, names)?;
    Ok(right.behind(refused))
}

/// `target = right`
fn assignment(
    alloc: Global,
    target: Part,
    right: &RightSide,
    names: &NameSpace<'_, '_>,
) -> Result<StmtPart, NoMemory>
    requires vars { length names.now.vars.now.entries < 2 ^ 32 }
    requires members { MembersFit (space_of names.now) }
    requires fits { RightFits (length names.now.loops.now) (right_tree right.now) }
    ensures value { IfOk result (λ s. stmt_part s ≡ spec.assignment first_one (space_of names.now) (part_of target) (right_tree right.now)) }
    ensures once { IfOk result (λ s. s.count ≡ 1) }
{
    match right {
        RightSide::Value(e) => given_at(alloc, target, e, names),
        RightSide::New { .. } => Ok(made_new(target)),
        RightSide::NewArray(size) => resize_at(alloc, target, size, names),
        RightSide::Pattern { at, values: list } => {
            pattern_at(alloc, target, *at, list.as_slice(), names)
        }
        RightSide::Call(call) => answered(alloc, target, call, names),
    }
}

/// An assignment with its left side.
pub(crate) fn assign(
    alloc: Global,
    target: &Expr,
    right: &RightSide,
    names: &NameSpace<'_, '_>,
) -> Result<StmtPart, NoMemory>
    requires vars { length names.now.vars.now.entries < 2 ^ 32 }
    requires members { MembersFit (space_of names.now) }
    requires target { ExprFits (length names.now.loops.now) (expr_tree target.now) }
    requires right { RightFits (length names.now.loops.now) (right_tree right.now) }
    ensures value { IfOk result (λ s. stmt_part s ≡ spec.assignment first_one (space_of names.now) (elab_spec.elab first_one (space_of names.now) (expr_tree target.now)) (right_tree right.now)) }
    ensures once { IfOk result (λ s. s.count ≡ 1) }
{
    let left = elab(alloc, target, names)?;
    assignment(alloc, left, right, names)
}
