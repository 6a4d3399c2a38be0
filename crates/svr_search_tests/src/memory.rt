// Values that are let go, lists that grow, and two values that may be missing.

ghost use Rattle.std.specs.Prelude.{◌≡◌, Ok, IfOk};

use svr_gate::NoMemory;

/// Lets a value go: the drop of a type parameter is proved once, and a caller that hands on what it holds has none of its own.
pub(crate) fn let_go<T: Drop>(_held: T) {}

/// What a list holds, with one more. Where there is no memory it is left out, and the list is another.
pub(crate) fn added<T: Drop>(list: &mut Vec<T>, item: T) {
    let _unmet = list.push(item).is_err();
}

/// Both values, where both are there.
pub(crate) fn both<T: Drop, U: Drop>(
    first: Result<T, NoMemory>,
    second: Result<U, NoMemory>,
) -> Result<(T, U), NoMemory>
    ensures first { IfOk result (λ values. first ≡ Ok values.0) }
    ensures second { IfOk result (λ values. second ≡ Ok values.1) }
{
    Ok((first?, second?))
}
