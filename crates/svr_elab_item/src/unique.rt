// `unique` (IEEE 1800-2017, 18.5.5).

ghost use Rattle.std.specs.Prelude.{◌≡◌, IfOk, Some};
ghost use Rattle.svr_elab_fault.specs.Refusals.{first_one};
ghost use Rattle.svr_elab_names.specs.Names as names_spec;
ghost use Rattle.svr_elab_part.specs.Seen.{part_of};
ghost use Rattle.svr_elab_item.specs.Items as spec;
ghost use Rattle.svr_elab_item.specs.Seen.{item_part, unique_part};

use crate::list::and_more;
use crate::part::{ItemPart, UniquePart};
use crate::root::{differs, is_cyclic_root};
use crate::tree;
use svr_elab_fault::{earlier, when};
use svr_elab_part::{Part, Shape};
use svr_refusal::Refusal;
use svr_typed::NoMemory;

fn or_else(first: Option<Option<Shape>>, shape: Option<Shape>) -> Option<Option<Shape>>
    ensures { result ≡ names_spec.or_else first (Some shape) }
{
    match first {
        None => Some(shape),
        Some(first) => Some(first),
    }
}

/// One more member of `unique` (IEEE 1800-2017, 18.5.5). All have one size and sign, and none is cyclic.
pub fn and_member(unique: UniquePart, part: Part) -> Result<UniquePart, NoMemory>
    ensures { IfOk result (λ u. unique_part u ≡ spec.and_member first_one (unique_part unique) (part_of part)) }
{
    let cyclic = when(
        is_cyclic_root(part.form.root),
        part.at,
        Refusal::UniqueRandc,
    );
    let other = when(
        differs(unique.first, part.shape),
        part.at,
        Refusal::UniqueTypes,
    );
    let fault = earlier(unique.fault, earlier(part.fault, earlier(cyclic, other)));
    let first = or_else(unique.first, part.shape);
    Ok(UniquePart {
        trees: and_more(unique.trees, part.tree)?,
        first,
        fault,
    })
}

/// `unique { members }` of these members.
pub fn unique_item(unique: UniquePart) -> ItemPart
    ensures { item_part result ≡ spec.unique_item first_one (unique_part unique) }
{
    ItemPart {
        tree: tree::unique(unique.trees),
        fault: unique.fault,
    }
}
