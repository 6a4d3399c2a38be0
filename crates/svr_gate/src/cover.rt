//! Short covers of the tables of sums, choices and logic (W. V. Quine, 1952).

ghost use Rattle.std.specs.Prelude.{◌≡◌, length, true, IfSome, IfNone};
ghost use Rattle.svr_gate.specs.Covers.{is_cover, short_count};

use crate::table;

/// The rows of a table that read as `row` at the inputs whose bits are set in `mask`.
#[derive(Clone, Copy)]
pub struct Cube {
    pub row: u16,
    pub mask: u16,
}

const BOTH: u16 = table!(both);

const EITHER: u16 = table!(either);

// What conjunctions, disjunctions, choices and agreements become where an input is known; the inputs are 0 and 1.

const NEITHER: u16 = 0x1;

const ZERO_ALONE: u16 = 0x2;

const ONE_ALONE: u16 = 0x4;

const NOT_BOTH: u16 = 0x7;

const ZERO_IF_ONE: u16 = 0xb;

const ONE_IF_ZERO: u16 = 0xd;

const AGREE: u16 = table!(agree);

const CARRY: u16 = table!(carry);

const CHOICE: u16 = table!(choice);

/// Cubes that cover a table, on each of which it has one value, where a short list is known.
///
/// Each table of two inputs has one where a row has a value of its own: it is a conjunction or a disjunction of the inputs or their negations. The parity tables, `unequal`, its negation and `sum`, have none that is shorter than their rows.
pub(crate) fn short_cover(count: usize, table: u16) -> Option<&'static [Cube]>
    ensures cover { IfSome result (λ cubes. is_cover count table cubes.now ≡ true) }
    ensures count { IfSome result (λ cubes. Some (length cubes.now) ≡ short_count count table) }
    ensures none { IfNone result (short_count count table ≡ None) }
{
    macro_rules! cubes {
        ($($row:literal of $mask:literal),+) => { Some(&[$(Cube { row: $row, mask: $mask }),+]) };
    }
    match (count, table) {
        (2, BOTH | NOT_BOTH) => cubes!(0b11 of 0b11, 0b00 of 0b01, 0b00 of 0b10),
        (2, EITHER | NEITHER) => cubes!(0b00 of 0b11, 0b01 of 0b01, 0b10 of 0b10),
        (2, ZERO_ALONE | ONE_IF_ZERO) => cubes!(0b01 of 0b11, 0b00 of 0b01, 0b10 of 0b10),
        (2, ONE_ALONE | ZERO_IF_ONE) => cubes!(0b10 of 0b11, 0b01 of 0b01, 0b00 of 0b10),
        (3, AGREE) => cubes!(
            0b000 of 0b001, 0b010 of 0b110, 0b100 of 0b110, 0b001 of 0b111, 0b111 of 0b111
        ),
        (3, CARRY) => cubes!(
            0b011 of 0b011, 0b101 of 0b101, 0b110 of 0b110,
            0b000 of 0b011, 0b000 of 0b101, 0b000 of 0b110
        ),
        (3, CHOICE) => cubes!(
            0b011 of 0b011, 0b001 of 0b011, 0b100 of 0b101, 0b000 of 0b101
        ),
        _ => None,
    }
}
