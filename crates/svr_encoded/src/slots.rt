// Where the bits of each slot stand.

ghost use Rattle.std.specs.Prelude.{◌≡◌, ◌<◌, ◌^◌, ℕ, Some, length, IfOk, OnOk, if◌then◌else◌};
ghost use Rattle.svr_frame.specs.Satisfaction.{is_at, is_size_of};
ghost use Rattle.svr_inputs.specs.Inputs.{number_row, size_row};
ghost use Rattle.svr_encoded.specs.Slots.{place_where};

use std::alloc::Global;
use svr_frame::Slot;
use svr_inputs::Table;
use svr_vector::NoMemory;

/// A slot has this row from now on.
fn set(table: &mut Table, slot: Slot, row: u32) -> Result<(), NoMemory>
    ensures numbers { OnOk result ((p j : ℕ) → number_row table.new p j ≡ (if is_at p j slot then Some row else number_row table.old p j)) }
    ensures sizes { OnOk result ((p : ℕ) → size_row table.new p ≡ (if is_size_of p slot then Some row else size_row table.old p)) }
{
    match slot {
        Slot::Scalar(prop) => table.set_number(prop, 0, row),
        Slot::Element(prop, index) => table.set_number(prop, index, row),
        Slot::Size(prop) => table.set_size(prop, row),
    }
}

/// For each number and each size the place of the first slot that it is.
pub fn table_of(alloc: Global, slots: &[Slot]) -> Result<Table, NoMemory>
    requires { length slots.now < 2 ^ 32 }
    ensures numbers { IfOk result (λ t. (p j : ℕ) → number_row t p j ≡ place_where (is_at p j) 0 slots.now) }
    ensures sizes { IfOk result (λ t. (p : ℕ) → size_row t p ≡ place_where (is_size_of p) 0 slots.now) }
{
    let mut table = Table::new(alloc);
    let mut at = slots.len();
    while at > 0 {
        at -= 1;
        set(&mut table, slots[at], at as u32)?;
    }
    Ok(table)
}
