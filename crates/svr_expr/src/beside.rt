// Steps of the cursor beside what was read before: it is handed back, or dropped with the fault, so that whoever reads on holds nothing where reading may stop.

ghost use Rattle.std.specs.Prelude.{◌≡◌, ◌≤◌, ◌<◌, ◌+◌, ◌^◌, IfOk};
ghost use Rattle.svr_reader.specs.Outcomes as outcome;
ghost use Rattle.svr_reader.specs.Steps as steps;
ghost use Rattle.svr_reader.specs.Answers.{Answers};

use svr_reader::{Cursor, Fixed, ReadFault};

/// Takes the word or mark, which has to come next.
///
/// Errors: as those of `Cursor::expect`.
pub fn expect_beside<T: Drop>(
    cursor: &mut Cursor<'_>,
    held: T,
    fixed: Fixed,
) -> Result<T, ReadFault>
    ensures gives { Answers (λ _. tt) (steps.expected fixed cursor.old) result cursor.new }
    ensures same { IfOk result (λ x. x ≡ held) }
{
    cursor.expect(fixed)?;
    Ok(held)
}

/// Takes the next token, and gives its number.
///
/// Errors: as those of `Cursor::take`.
pub fn take_beside<T: Drop>(cursor: &mut Cursor<'_>, held: T) -> Result<(T, u32), ReadFault>
    ensures gives { Answers (λ x. x.1) (outcome.taken cursor.old) result cursor.new }
    ensures same { IfOk result (λ x. x.0 ≡ held) }
{
    let at = cursor.take()?;
    Ok((held, at))
}

/// Takes the first token of a construct over a part of this height, and gives its number.
///
/// Errors: as those of `Cursor::enter`.
pub fn enter_beside<T: Drop>(
    cursor: &mut Cursor<'_>,
    held: T,
    room: usize,
    height: usize,
) -> Result<(T, u32), ReadFault>
    requires room { room + 1 < 2 ^ 64 }
    requires height { height ≤ room + 1 }
    ensures gives { Answers (λ x. x.1) (outcome.entered room height cursor.old) result cursor.new }
    ensures same { IfOk result (λ x. x.0 ≡ held) }
    ensures fits { IfOk result (λ x. height ≤ room) }
{
    let at = cursor.enter(room, height)?;
    Ok((held, at))
}
