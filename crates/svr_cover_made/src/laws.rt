// What the stored values of bins are.

ghost use Rattle.std.specs.Prelude.{◌≤◌};
ghost use Rattle.svr_typed.specs.declared.class.NumType.{NumType};
ghost use Rattle.svr_cover_made.specs.Within.{HoldTheirNumbers};

/// The stored values of the numbers from one up to another are just those that read as one of them, by the sign of the property's type.
#[tactic(auto, using(crate::proofs::Within::hold_their_numbers))]
pub fn stored_values_are_their_numbers()
    ensures { (kind : NumType) → 1 ≤ kind.width → kind.width ≤ 64 → HoldTheirNumbers kind }
{}
