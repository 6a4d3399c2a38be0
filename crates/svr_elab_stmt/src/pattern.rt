// The values of an assignment pattern (IEEE 1800-2017, 10.9.1).

ghost use Rattle.std.specs.Prelude.{◌≡◌, ◌+◌, ◌<◌, ◌^◌, IfOk, length};
ghost use Rattle.svr_tree.specs.ExprTree.{expr_trees};
ghost use Rattle.svr_elab_fault.specs.Refusals.{first_one};
ghost use Rattle.svr_elab_names.specs.Tables.{space_of};
ghost use Rattle.svr_elab_part.specs.Seen.{part_of};
ghost use Rattle.svr_elab_part.specs.Fits.{MembersFit};
ghost use Rattle.svr_elab_stmt.specs.Stmts as spec;
ghost use Rattle.svr_elab_stmt.specs.Seen.{values_part};
ghost use Rattle.svr_elab_stmt.specs.Fits.{ValuesFit, values_in};

use crate::assignment::is_not;
use crate::part::{ValuesPart, and_more};
use sqlite_items::Items;
use std::alloc::Global;
use svr_elab_expr::value;
use svr_elab_fault::{earlier, when};
use svr_elab_names::NameSpace;
use svr_elab_part::Part;
use svr_refusal::Refusal;
use svr_tree::Expr;
use svr_typed::NoMemory;

/// One more value. `members`: the enum of the elements.
#[tactic(auto, using(crate::proofs::Forms::more_of))]
fn and_value(members: Option<u32>, values: ValuesPart, part: Part) -> Result<ValuesPart, NoMemory>
    requires { values.many + 1 < 2 ^ 32 }
    ensures value { IfOk result (λ v. values_part v ≡ spec.and_value first_one members (values_part values) (part_of part)) }
    ensures many { IfOk result (λ v. v.many ≡ values.many + 1) }
{
    let differs = is_not(members, part.form.members);
    let other = when(differs, part.at, Refusal::EnumAssign);
    let fault = earlier(values.fault, earlier(part.fault, other));
    let many = values.many + 1;
    Ok(ValuesPart {
        trees: and_more(values.trees, part.tree)?,
        fault,
        many,
    })
}

/// The values of a pattern. `members`: the enum of the elements.
pub fn values(
    alloc: Global,
    list: &[Expr],
    members: Option<u32>,
    names: &NameSpace<'_, '_>,
) -> Result<ValuesPart, NoMemory>
    requires vars { length names.now.vars.now.entries < 2 ^ 32 }
    requires members { MembersFit (space_of names.now) }
    requires fits { ValuesFit (length names.now.loops.now) (expr_trees list.now) }
    requires many { values_in (expr_trees list.now) < 2 ^ 32 }
    ensures { IfOk result (λ v. values_part v ≡ spec.values first_one (space_of names.now) members (spec.no_values first_one) (expr_trees list.now)) }
{
    let mut values = ValuesPart {
        trees: Some(Items::new(alloc)),
        fault: None,
        many: 0,
    };
    for e in list {
        let part = value(alloc, e, names)?;
        values = and_value(members, values, part)?;
    }
    Ok(values)
}
