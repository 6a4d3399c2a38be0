// Values that take memory. Generic functions let them go, so that no caller does.

ghost use Rattle.std.specs.Prelude.{◌≡◌, ◌++◌, ◌∷◌, [], Ok, IfOk};

use sqlite_items::Items;
use svr_typed::NoMemory;

/// Both values, where both are there.
pub(crate) fn both<T: Drop, U: Drop>(
    first: Result<T, NoMemory>,
    second: Result<U, NoMemory>,
) -> Result<(T, U), NoMemory>
    ensures { IfOk result (λ values. (first ≡ Ok values.0) × (second ≡ Ok values.1)) }
{
    Ok((first?, second?))
}

/// A list with one more value behind it, where that is there.
pub(crate) fn pushed<T: Drop>(
    list: Items<T>,
    value: Result<T, NoMemory>,
) -> Result<Items<T>, NoMemory>
    ensures { IfOk result (λ longer. (last : T) × (value ≡ Ok last) × (longer ≡ list ++ last ∷ [])) }
{
    let mut list = list;
    list.push(value?)?;
    Ok(list)
}
