// Sets with a guard, loops and `disable soft`.

ghost use Rattle.std.specs.Prelude.{◌≡◌, ◌<◌, length, IfOk};
ghost use Rattle.svr_elab_fault.specs.Refusals.{first_one};
ghost use Rattle.svr_elab_part.specs.Seen.{part_of};
ghost use Rattle.svr_elab_item.specs.Items as spec;
ghost use Rattle.svr_elab_item.specs.Seen as seen;

use crate::list::and_more;
use crate::part::{Around, ElsePart, ItemPart, ItemsPart};
use crate::root::{array_of, has_too_many_names, is_no_target};
use crate::tree;
use svr_elab_fault::{Fault, earlier, when};
use svr_elab_form::is_no_array;
use svr_elab_part::Part;
use svr_refusal::Refusal;
use svr_typed::NoMemory;

/// `guard -> body` (IEEE 1800-2017, 18.5.6)
pub fn implies_item(guard: Part, body: ItemsPart) -> ItemPart
    ensures { seen.item_part result ≡ spec.implies_item first_one (part_of guard) (seen.items_part body) }
{
    ItemPart {
        tree: tree::implies(guard.tree, body.trees),
        fault: earlier(guard.fault, body.fault),
    }
}

/// The items behind `else`.
pub fn else_part(body: ItemsPart) -> ElsePart
    ensures { seen.else_part result ≡ spec.else_part first_one (seen.items_part body) }
{
    ElsePart {
        tree: tree::else_items(body.trees),
        fault: body.fault,
    }
}

/// No `else`.
pub fn no_else() -> ElsePart
    ensures { seen.else_part result ≡ spec.no_else first_one }
{
    ElsePart {
        tree: Some(None),
        fault: None,
    }
}

/// `if (guard) yes else no` (IEEE 1800-2017, 18.5.7)
pub fn branch_item(guard: Part, yes: ItemsPart, no: ElsePart) -> ItemPart
    ensures { seen.item_part result ≡ spec.branch_item first_one (part_of guard) (seen.items_part yes) (seen.else_part no) }
{
    ItemPart {
        tree: tree::branch(guard.tree, yes.trees, no.tree),
        fault: earlier(guard.fault, earlier(yes.fault, no.fault)),
    }
}

/// What a loop itself is refused for.
fn foreach_fault(array: &Part, vars: &[u32], body: Option<Fault>) -> Option<Fault>
    ensures { result ≡ spec.foreach_faults first_one (part_of array.now) vars.now body }
{
    let name = array.form.name;
    let unknown = when(is_no_array(array), name, Refusal::UnknownName);
    let many = when(has_too_many_names(array, vars), name, Refusal::LeftOut);
    earlier(array.fault, earlier(unknown, earlier(many, body)))
}

/// `foreach` over an array, with its body (IEEE 1800-2017, 18.5.8.1).
pub fn foreach_item(array: Part, vars: &[u32], body: ItemsPart) -> ItemPart
    requires { length vars.now < 256 }
    ensures { seen.item_part result ≡ spec.foreach_item first_one (part_of array) vars.now (seen.items_part body) }
{
    let fault = foreach_fault(&array, vars, body.fault);
    let property = array_of(array.form.root);
    drop(array.tree);
    ItemPart {
        tree: tree::foreach(property, vars.len() as u8, body.trees),
        fault,
    }
}

/// A refusal at a token, where there is one.
fn at_some(at: Option<u32>, refusal: Refusal) -> Option<Fault>
    ensures { result ≡ spec.at_some first_one at refusal }
{
    match at {
        None => None,
        Some(at) => when(true, at, refusal),
    }
}

/// What a target of `disable soft` is refused for, with the guards around.
fn disable_fault(around: Around, target: &Part) -> Option<Fault>
    ensures { result ≡ spec.disable_faults first_one around (part_of target.now) }
{
    let form = target.form;
    let unknown = when(is_no_target(target), form.name, Refusal::UnknownName);
    let index = at_some(form.random_index, Refusal::RandomIndex);
    let guard = at_some(around.open_guard, Refusal::StateNeeded);
    earlier(target.fault, earlier(unknown, earlier(index, guard)))
}

/// `disable soft target` (IEEE 1800-2017, 18.5.14.2)
pub fn disable_item(around: Around, target: Part) -> ItemPart
    ensures { seen.item_part result ≡ spec.disable_item first_one around (part_of target) }
{
    let fault = disable_fault(around, &target);
    ItemPart {
        tree: tree::disable(target.tree),
        fault,
    }
}

/// One more item in a set, where all are known.
pub fn and_item(part: ItemsPart, item: ItemPart) -> Result<ItemsPart, NoMemory>
    ensures { IfOk result (λ p. seen.items_part p ≡ spec.and_item first_one (seen.items_part part) (seen.item_part item)) }
{
    let fault = earlier(part.fault, item.fault);
    Ok(ItemsPart {
        trees: and_more(part.trees, item.tree)?,
        fault,
    })
}
