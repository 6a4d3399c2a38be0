// Initial values of properties, which are constants (IEEE 1800-2017, 10.7 and 6.19.3).

ghost use Rattle.std.specs.Prelude.{◌≡◌, ◌<◌, ◌≤◌, ◌^◌, [], length, option_map, IfOk};
ghost use Rattle.svr_tree.specs.ExprTree.{expr_tree};
ghost use Rattle.svr_typed.specs.ExprTerm.{expr_term};
ghost use Rattle.svr_eval.specs.Reading.{blank};
ghost use Rattle.svr_eval.specs.Value.{val};
ghost use Rattle.svr_eval.specs.Typed.{IsTyped, IsConstant};
ghost use Rattle.svr_elab_fault.specs.Refusals.{first_one};
ghost use Rattle.svr_elab_names.specs.Tables.{space_of};
ghost use Rattle.svr_elab_part.specs.Elab as parts;
ghost use Rattle.svr_elab_part.specs.Seen.{part_of, HasValue};
ghost use Rattle.svr_elab_part.specs.Fits.{MembersFit, KindFits};
ghost use Rattle.svr_elab_decl.specs.Properties as spec;
ghost use Rattle.svr_elab_type.specs.Types as types;
ghost use Rattle.svr_elab_type.specs.Fits.{ExprFits, ValueFits};

use sqlite_items::Items;
use std::alloc::Global;
use svr_elab_expr::value;
use svr_elab_fault::{Fault, earlier, when};
use svr_elab_names::{Dims, NameSpace, Vector};
use svr_elab_part::Part;
use svr_elab_type::let_go;
use svr_eval::{Assign, Env, value_at};
use svr_num::Bits;
use svr_refusal::Refusal;
use svr_tree::Expr;
use svr_typed::{NoMemory, TExpr};

/// What an initial value stores, 0 where there is none or it is refused.
#[derive(Clone, Copy)]
pub struct InitialPart {
    pub number: u64,
    pub fault: Option<Fault>,
}

/// The value of a constant at a width that is no less than its own.
fn bits_at(tree: &TExpr, width: u8, nothing: &Assign, env: &Env) -> Bits
    requires typed { IsTyped (expr_term tree.now) }
    requires constant { IsConstant (expr_term tree.now) }
    requires wide { tree.now.width ≤ width }
    requires high { width ≤ 64 }
    ensures value { result.value ≡ val blank [] (expr_term tree.now) width tree.now.signed }
    ensures width { result.width ≡ width }
{
    value_at(tree, width, tree.signed, nothing, env)
}

/// The bits that a variable of this width has after a constant was assigned to it.
#[tactic(auto, using(crate::proofs::Assigned::stored_small, crate::proofs::Assigned::assigned_is))]
fn assigned(alloc: Global, width: u8, tree: &TExpr) -> u64
    requires low { 1 ≤ width }
    requires high { width ≤ 64 }
    requires typed { IsTyped (expr_term tree.now) }
    requires constant { IsConstant (expr_term tree.now) }
    ensures { result ≡ spec.assigned width (expr_term tree.now) }
{
    let nothing = Assign {
        values: Items::new(alloc),
        sizes: Items::new(alloc),
        script: Items::new(alloc),
    };
    let env = Env::new();
    let wide = tree.width.max(width);
    bits_at(tree, wide, &nothing, &env).cut(width).value()
}

fn first_value(alloc: Global, kind: Option<Vector>, part: &Part) -> u64
    requires kind { KindFits kind }
    requires value { HasValue (part_of part.now) }
    ensures { result ≡ spec.initial first_one kind (part_of part.now) }
{
    if !part.reads.constant || part.fault.is_some() {
        return 0;
    }
    let Some(kind) = kind else {
        return 0;
    };
    match &part.tree {
        None => 0,
        Some(tree) => assigned(alloc, kind.kind.width, tree),
    }
}

/// Whether a value that is, by its form, one of the enum of number `given` is wanted as one of another enum.
fn is_not(given: Option<u32>, wanted: Option<u32>) -> bool
    ensures { result ≡ types.is_not wanted given }
{
    let Some(wanted) = wanted else {
        return false;
    };
    match given {
        None => true,
        Some(given) => given != wanted,
    }
}

fn is_other_enum(kind: Option<Vector>, given: Option<u32>) -> bool
    ensures { result ≡ spec.is_other_enum kind given }
{
    match kind {
        None => false,
        Some(kind) => is_not(given, kind.kind.members),
    }
}

fn first_fault(name: u32, dims: Dims, kind: Option<Vector>, part: &Part) -> Option<Fault>
    ensures { result ≡ spec.first_faults first_one name dims kind (part_of part.now) }
{
    let form = earlier(
        when(
            is_other_enum(kind, part.form.members),
            part.at,
            Refusal::EnumAssign,
        ),
        when(dims.is_array(), name, Refusal::LeftOut),
    );
    let not_constant = when(!part.reads.constant, part.at, Refusal::NotConstant);
    earlier(part.fault, earlier(not_constant, form))
}

/// What an initial value that is written stores, with its first refusal.
#[tactic(auto, using(svr_elab_part::proofs::Valued::has_value))]
fn written_value(
    alloc: Global,
    name: u32,
    kind: Option<Vector>,
    dims: Dims,
    e: &Expr,
    names: &NameSpace<'_, '_>,
) -> Result<InitialPart, NoMemory>
    requires vars { length names.now.vars.now.entries < 2 ^ 32 }
    requires members { MembersFit (space_of names.now) }
    requires kind { KindFits kind }
    requires fits { ExprFits (length names.now.loops.now) (expr_tree e.now) }
    ensures number { IfOk result (λ i. i.number ≡ spec.initial first_one kind (parts.value first_one (space_of names.now) (expr_tree e.now))) }
    ensures fault { IfOk result (λ i. i.fault ≡ spec.first_faults first_one name dims kind (parts.value first_one (space_of names.now) (expr_tree e.now))) }
{
    let part = value(alloc, e, names)?;
    let initial = InitialPart {
        number: first_value(alloc, kind, &part),
        fault: first_fault(name, dims, kind, &part),
    };
    let_go(part);
    Ok(initial)
}

/// What the initial value of the property of this name, type and dimensions stores, with its first refusal.
pub fn initial_value(
    alloc: Global,
    name: u32,
    kind: Option<Vector>,
    dims: Dims,
    value_of: &Option<Expr>,
    names: &NameSpace<'_, '_>,
) -> Result<InitialPart, NoMemory>
    requires vars { length names.now.vars.now.entries < 2 ^ 32 }
    requires members { MembersFit (space_of names.now) }
    requires kind { KindFits kind }
    requires fits { ValueFits (length names.now.loops.now) (option_map expr_tree value_of.now) }
    ensures number { IfOk result (λ i. i.number ≡ spec.first_number first_one (space_of names.now) kind (option_map expr_tree value_of.now)) }
    ensures fault { IfOk result (λ i. i.fault ≡ spec.first_at first_one (space_of names.now) name kind dims (option_map expr_tree value_of.now)) }
{
    match value_of {
        None => Ok(InitialPart {
            number: 0,
            fault: None,
        }),
        Some(e) => written_value(alloc, name, kind, dims, e, names),
    }
}
