// Lists of parts that one function reads.

ghost use Rattle.std.specs.Prelude.{[]};
ghost use Rattle.svr_reader.specs.Calls.{IsCallable, LeavesNoMore, LeavesLess, Lists, Until, cap};

use crate::cursor::Cursor;
use crate::fault::ReadFault;
use crate::fixed::Fixed;
use sqlite_items::Items;
use std::alloc::Global;
use svr_token::Mark;

/// Parts with commas between them, behind the first ones, which were read before and have the greatest height `first_height`. Each part comes with its height.
pub fn listing_on<T: Drop, F: Fn(&mut Cursor<'_>) -> Result<(T, usize), ReadFault>>(
    cursor: &mut Cursor<'_>,
    first: Items<T>,
    first_height: usize,
    one: F,
) -> Result<(Items<T>, usize), ReadFault>
    requires calls { IsCallable (F.pre one) }
    requires takes { LeavesNoMore (F.post one) }
    ensures { Lists (F.post one) cap (first, first_height) cursor.old result cursor.new }
{
    let mut found = first;
    let mut height = first_height;
    let left = cursor.left();
    for _turn in 0..left + 1 {
        let (part, part_height) = one(cursor)?;
        found.push(part)?;
        height = height.max(part_height);
        if !cursor.eat(Fixed::Mark(Mark::Comma)) {
            return Ok((found, height));
        }
    }
    unreachable!()
}

/// One part or more, with commas between them, and the height of the highest. Each part comes with its height.
pub fn listing<T: Drop, F: Fn(&mut Cursor<'_>) -> Result<(T, usize), ReadFault>>(
    alloc: Global,
    cursor: &mut Cursor<'_>,
    one: F,
) -> Result<(Items<T>, usize), ReadFault>
    requires calls { IsCallable (F.pre one) }
    requires takes { LeavesNoMore (F.post one) }
    ensures { Lists (F.post one) cap ([], 0) cursor.old result cursor.new }
{
    listing_on(cursor, Items::new(alloc), 0, one)
}

/// Parts up to the word or mark that ends them, which is taken, behind the first ones, which were read before and have the greatest height `first_height`. Each part comes with its height.
pub fn until_on<T: Drop, F: Fn(&mut Cursor<'_>) -> Result<(T, usize), ReadFault>>(
    cursor: &mut Cursor<'_>,
    first: Items<T>,
    first_height: usize,
    end: Fixed,
    one: F,
) -> Result<(Items<T>, usize), ReadFault>
    requires calls { IsCallable (F.pre one) }
    requires takes { LeavesLess (F.post one) }
    ensures { Until end (F.post one) cap (first, first_height) cursor.old result cursor.new }
{
    let mut found = first;
    let mut height = first_height;
    let left = cursor.left();
    for _turn in 0..left + 1 {
        if cursor.eat(end) {
            return Ok((found, height));
        }
        let (part, part_height) = one(cursor)?;
        found.push(part)?;
        height = height.max(part_height);
    }
    unreachable!()
}

/// Parts up to the word or mark that ends them, which is taken, and the height of the highest. Each part comes with its height.
pub fn until<T: Drop, F: Fn(&mut Cursor<'_>) -> Result<(T, usize), ReadFault>>(
    alloc: Global,
    cursor: &mut Cursor<'_>,
    end: Fixed,
    one: F,
) -> Result<(Items<T>, usize), ReadFault>
    requires calls { IsCallable (F.pre one) }
    requires takes { LeavesLess (F.post one) }
    ensures { Until end (F.post one) cap ([], 0) cursor.old result cursor.new }
{
    until_on(cursor, Items::new(alloc), 0, end, one)
}
