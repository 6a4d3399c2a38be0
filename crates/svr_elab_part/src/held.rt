// Values that hold trees. Generic functions let them go where a step fails, so that no caller does: each such drop makes a proof long.

ghost use Rattle.std.specs.Prelude.{◌≡◌, Ok, IfOk};

use svr_typed::NoMemory;

/// Both values, where both are there.
pub fn both<T: Drop, U: Drop>(
    first: Result<T, NoMemory>,
    second: Result<U, NoMemory>,
) -> Result<(T, U), NoMemory>
    ensures first { IfOk result (λ values. first ≡ Ok values.0) }
    ensures second { IfOk result (λ values. second ≡ Ok values.1) }
{
    Ok((first?, second?))
}

/// What is held, beside what was made meanwhile, where that is there.
pub fn beside<T: Drop, U: Drop>(held: T, made: Result<U, NoMemory>) -> Result<(T, U), NoMemory>
    ensures held { IfOk result (λ values. values.0 ≡ held) }
    ensures made { IfOk result (λ values. made ≡ Ok values.1) }
{
    let made = made?;
    Ok((held, made))
}
