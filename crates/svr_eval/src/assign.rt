// The numbers that an expression reads.

ghost use Rattle.std.specs.Prelude.{◌≡◌, slice_index};
ghost use Rattle.svr_eval.specs.Reading.{reading_of};

use sqlite_items::Items;

/// The numbers of each property by its place in flat order, its size, and the numbers of the script variables. A scalar has one number and size 1.
#[derive(Drop)]
pub struct Assign {
    pub values: Items<Items<u64>>,
    pub sizes: Items<u32>,
    pub script: Items<u64>,
}

impl Assign {
    /// The number of a property at a place, 0 outside.
    pub fn element(&self, prop: u32, index: u64) -> u64
        ensures { result ≡ (reading_of self.now).element prop index }
    {
        self.element_at(prop, u128::from(index))
    }

    /// The number of a property at a place, which may be past all that memory has.
    pub(crate) fn element_at(&self, prop: u32, place: u128) -> u64
        ensures { result ≡ (reading_of self.now).element prop place }
    {
        match self.values.as_slice().get(prop as usize) {
            Some(numbers) => number_at(numbers.as_slice(), place),
            None => 0,
        }
    }

    /// The size of a property, 0 where there is none.
    pub fn size(&self, prop: u32) -> u32
        ensures { result ≡ (reading_of self.now).size prop }
    {
        match self.sizes.as_slice().get(prop as usize) {
            Some(size) => *size,
            None => 0,
        }
    }

    /// The number of a script variable, 0 where there is none.
    pub fn script(&self, variable: u32) -> u64
        ensures { result ≡ (reading_of self.now).script variable }
    {
        number_at(self.script.as_slice(), u128::from(variable))
    }
}

fn number_at(numbers: &[u64], index: u128) -> u64
    ensures { result ≡ slice_index numbers.now index }
{
    if index < numbers.len() as u128 {
        numbers[index as usize]
    } else {
        0
    }
}
