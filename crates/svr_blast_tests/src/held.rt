//! Values that are joined, listed and let go by generic functions: the drop of a type parameter is
//! proved once, and a caller that hands on what it holds has none of its own.

ghost use Rattle.std.specs.Prelude.{◌≡◌, Ok, IfOk};

use sqlite_items::Items;
use std::alloc::Global;
use svr_typed::NoMemory;

/// Both values, where both are there.
pub(crate) fn both<T: Drop, U: Drop>(
    first: Result<T, NoMemory>,
    second: Result<U, NoMemory>,
) -> Result<(T, U), NoMemory>
    ensures first { IfOk result (λ values. first ≡ Ok values.0) }
    ensures second { IfOk result (λ values. second ≡ Ok values.1) }
{
    Ok((first?, second?))
}

/// The list of the values of an array.
pub(crate) fn listed<T: Drop, const N: usize>(
    alloc: Global,
    values: [T; N],
) -> Result<Items<T>, NoMemory>
    ensures { IfOk result (λ list. list ≡ values) }
{
    match Vec::from_array(alloc, values) {
        Ok(list) => Ok(Items::from_vec(list)),
        Err(_) => Err(NoMemory),
    }
}

/// The list of plain values.
pub(crate) fn copied<T: Copy>(alloc: Global, values: &[T]) -> Result<Items<T>, NoMemory>
    ensures { IfOk result (λ list. list ≡ values.now) }
{
    Ok(Items::from_slice(alloc, values)?)
}

/// What a list holds, with one more. Where there is no memory it is left out, and the list is another.
pub(crate) fn added<T: Drop>(list: &mut Vec<T>, item: T) {
    let _unmet = list.push(item).is_err();
}

pub(crate) fn let_go<T: Drop>(_held: T) {}
