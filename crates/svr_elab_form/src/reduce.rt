// Reductions of arrays (IEEE 1800-2017, 7.12.3).

ghost use Rattle.std.specs.Prelude.{◌≡◌, IfOk};
ghost use Rattle.svr_elab_fault.specs.Refusals.{first_one};
ghost use Rattle.svr_elab_part.specs.Elab as spec;
ghost use Rattle.svr_elab_part.specs.Seen.{part_of};

use crate::operator::node_part;
use std::alloc::Global;
use svr_elab_fault::{Fault, earlier, when};
use svr_elab_part::{Part, array_node};
use svr_operator::Fold;
use svr_refusal::Refusal;
use svr_typed::NoMemory;

/// Whether this is known to be no whole array.
pub fn is_no_array(part: &Part) -> bool
    ensures { result ≡ spec.is_no_array (part_of part.now) }
{
    !part.form.root.is_refused() && !part.form.extent.is_whole()
}

fn reduce_fault(array: &Part, body: &Part) -> Option<Fault>
    ensures { result ≡ spec.reduce_faults first_one (part_of array.now) (part_of body.now) }
{
    let form = array.form;
    let own = earlier(
        when(form.root.is_in_object(), form.name, Refusal::LeftOut),
        body.fault,
    );
    let unknown = when(is_no_array(array), form.name, Refusal::UnknownName);
    earlier(array.fault, earlier(unknown, own))
}

/// A reduction of an array by what its body is for an element.
pub fn reduce_part(
    alloc: Global,
    at: u32,
    fold: Fold,
    array: Part,
    body: Part,
) -> Result<Part, NoMemory>
    ensures { IfOk result (λ p. part_of p ≡ spec.reduce_part first_one at fold (part_of array) (part_of body)) }
{
    let fault = reduce_fault(&array, &body);
    let reads = array.reads.and(body.reads).no_constant();
    let (shape, root) = (body.shape, array.form.root);
    drop(array);
    let node = array_node(alloc, root, fold, body.tree)?;
    Ok(node_part(at, shape, node, fault, reads))
}
