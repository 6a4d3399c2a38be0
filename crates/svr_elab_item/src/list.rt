// Lists that grow while all that comes is known.

ghost use Rattle.std.specs.Prelude.{◌≡◌, IfOk};
ghost use Rattle.svr_elab_part.specs.Shapes as shapes;

use sqlite_items::Items;
use svr_elab_form::pushed;
use svr_typed::NoMemory;

/// One more value in a list, where all are known.
pub(crate) fn and_more<T: Drop>(
    list: Option<Items<T>>,
    value: Option<T>,
) -> Result<Option<Items<T>>, NoMemory>
    ensures { IfOk result (λ r. r ≡ shapes.and_more list value) }
{
    match list.zip(value) {
        None => Ok(None),
        Some((list, value)) => Ok(Some(pushed(list, value)?)),
    }
}
