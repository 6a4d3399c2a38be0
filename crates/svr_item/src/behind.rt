// Steps behind something that was read, which is handed back where they succeed. Its type is a parameter, so that no reader drops a tree itself: each such drop makes a proof long.

ghost use Rattle.svr_reader.specs.Answers.{plainly};
ghost use Rattle.svr_reader.specs.Lists.{name};
ghost use Rattle.svr_reader.specs.Steps.{expected};
ghost use Rattle.svr_item.specs.Parts.{Behind, Grows, Stays};

use sqlite_items::Items;
use svr_reader::{Cursor, Fixed, ReadFault};

/// What was found, where this word or mark comes next, which is taken.
///
/// Errors: `Unexpected` at any other token.
pub fn ended<T: Drop>(cursor: &mut Cursor<'_>, found: T, end: Fixed) -> Result<T, ReadFault>
    ensures { Stays found (expected end cursor.old) result cursor.new }
{
    match cursor.expect(end) {
        Ok(()) => Ok(found),
        Err(fault) => Err(fault),
    }
}

/// What was found, and the number of a name, which comes next and is taken.
///
/// Errors: `Unexpected` at any other token.
pub fn named<T: Drop>(cursor: &mut Cursor<'_>, found: T) -> Result<(T, u32), ReadFault>
    ensures { Behind found (λ n. n) (plainly name cursor.old) result cursor.new }
{
    match cursor.name() {
        Ok(name) => Ok((found, name)),
        Err(fault) => Err(fault),
    }
}

/// The list with one more at its end.
///
/// Errors: `NoMemory`.
pub fn pushed<T: Drop>(mut items: Items<T>, item: T) -> Result<Items<T>, ReadFault>
    ensures { Grows items item result }
{
    items.push(item)?;
    Ok(items)
}
