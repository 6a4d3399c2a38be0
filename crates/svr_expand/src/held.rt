// What is at hand where memory is wanting. Generic functions let it go, so that no caller does.

ghost use Rattle.std.specs.Prelude.{◌≡◌, Ok, IfOk};

use svr_typed::NoMemory;

/// The fault; a value that is at hand is let go.
pub(crate) fn let_go<T: Drop>(_held: T, fault: NoMemory) -> NoMemory
    ensures { result ≡ fault }
{
    fault
}

/// What is held, beside what was made meanwhile, where that is there.
pub(crate) fn beside<T: Drop, U: Drop>(
    held: T,
    made: Result<U, NoMemory>,
) -> Result<(T, U), NoMemory>
    ensures held { IfOk result (λ values. values.0 ≡ held) }
    ensures made { IfOk result (λ values. made ≡ Ok values.1) }
{
    let made = made?;
    Ok((held, made))
}

/// Both values, where both are there.
pub(crate) fn both<T: Drop, U: Drop>(
    first: Result<T, NoMemory>,
    second: Result<U, NoMemory>,
) -> Result<(T, U), NoMemory>
    ensures first { IfOk result (λ values. first ≡ Ok values.0) }
    ensures second { IfOk result (λ values. second ≡ Ok values.1) }
{
    Ok((first?, second?))
}
