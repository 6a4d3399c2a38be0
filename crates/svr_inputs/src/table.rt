// Where the bits of each unknown stand.

ghost use Rattle.std.specs.Prelude.{◌≡◌, ◌==◌, ◌&&◌, ◌+◌, ◌*◌, ◌^◌, ℕ, Some, None, IfOk, OnOk, if◌then◌else◌};
ghost use Rattle.svr_inputs.specs.Inputs.{number_row, size_row};

use std::alloc::Global;
use std::collections::HashMap;
use svr_vector::NoMemory;

/// For numbers of properties and for sizes the rows of their bits, by keys.
#[derive(Drop)]
pub struct Table {
    numbers: HashMap<u64, u32>,
    sizes: HashMap<u32, u32>,
}

/// The key of a number: the property above the place.
fn key(prop: u32, index: u32) -> u64
    ensures { result ≡ prop * 2 ^ 32 + index }
{
    (u64::from(prop) << 32) + u64::from(index)
}

impl Table {
    /// No rows.
    pub fn new(alloc: Global) -> Table
        ensures numbers { (p j : ℕ) → number_row result p j ≡ None }
        ensures sizes { (p : ℕ) → size_row result p ≡ None }
    {
        Table {
            numbers: HashMap::new(alloc),
            sizes: HashMap::new(alloc),
        }
    }

    /// The number at a place of a property has this row from now on.
    pub fn set_number(&mut self, prop: u32, index: u32, row: u32) -> Result<(), NoMemory>
        ensures numbers { OnOk result ((p j : ℕ) → number_row self.new p j ≡ (if (prop == p) && (index == j) then Some row else number_row self.old p j)) }
        ensures sizes { OnOk result ((p : ℕ) → size_row self.new p ≡ size_row self.old p) }
    {
        let _old = self.numbers.insert(key(prop, index), row)?;
        Ok(())
    }

    /// The size of a property has this row from now on.
    pub fn set_size(&mut self, prop: u32, row: u32) -> Result<(), NoMemory>
        ensures numbers { OnOk result ((p j : ℕ) → number_row self.new p j ≡ number_row self.old p j) }
        ensures sizes { OnOk result ((p : ℕ) → size_row self.new p ≡ (if prop == p then Some row else size_row self.old p)) }
    {
        let _old = self.sizes.insert(prop, row)?;
        Ok(())
    }

    /// The row of a number.
    pub fn number_row(&self, prop: u32, index: u64) -> Option<u32>
        ensures { result ≡ number_row self.now prop index }
    {
        if index < 1 << 32 {
            self.numbers.get(&key(prop, index as u32)).copied()
        } else {
            None
        }
    }

    /// The row of a size.
    pub fn size_row(&self, prop: u32) -> Option<u32>
        ensures { result ≡ size_row self.now prop }
    {
        self.sizes.get(&prop).copied()
    }
}
