// Ranks of properties that items agree with.

ghost use Rattle.std.specs.Prelude.{◌≡◌, ℕ, List};
ghost use Rattle.svr_elab_order.specs.Ranks.{rank_of, is_higher, are_higher, goes_up, is_ranked, agree, higher};

use crate::order::Order;
use crate::ranking::rank_or;
use sqlite_items::Items;
use std::alloc::Global;

/// Ranks of properties by their numbers. A property whose number lies behind the table ranks above all of it, and by its number.
#[derive(Drop)]
pub struct Ranks {
    pub(crate) table: Items<usize>,
    /// What such a property has for a rank beside its number.
    pub(crate) above: u32,
}

/// The higher of two ranks.
fn higher(high: Option<usize>, rank: usize) -> Option<usize>
    ensures { result ≡ higher high rank }
{
    match high {
        None => Some(rank),
        Some(high) => Some(if high < rank { rank } else { high }),
    }
}

/// Whether a rank is higher than this one, where there is one.
fn is_higher(low: Option<usize>, rank: usize) -> bool
    ensures { result ≡ is_higher low rank }
{
    match low {
        None => true,
        Some(low) => low < rank,
    }
}

impl Ranks {
    /// Each property has its number for a rank.
    pub fn by_number(alloc: Global) -> Ranks
        ensures { (x : ℕ) → rank_of result x ≡ x }
    {
        Ranks {
            table: Items::new(alloc),
            above: 0,
        }
    }

    /// The rank of a property.
    fn rank_of(&self, number: u32) -> usize
        ensures { result ≡ rank_of self.now number }
    {
        let number = number as usize;
        rank_or(self.table.as_slice(), number, self.above as usize + number)
    }

    /// The highest rank of these properties, where there is one.
    fn highest(&self, numbers: &[u32]) -> Option<usize>
        ensures { (later : List ℕ) → goes_up self.now numbers.now later ≡ are_higher self.now result later }
    {
        let mut high = None;
        for number in numbers {
            high = higher(high, self.rank_of(*number));
        }
        high
    }

    /// Whether each of these properties ranks higher.
    fn are_higher(&self, low: Option<usize>, numbers: &[u32]) -> bool
        ensures { result ≡ are_higher self.now low numbers.now }
    {
        for number in numbers {
            if !is_higher(low, self.rank_of(*number)) {
                return false;
            }
        }
        true
    }

    /// Whether each first name of an item ranks lower than each later one.
    fn is_ranked(&self, order: &Order) -> bool
        ensures { result ≡ is_ranked self.now order.now }
    {
        let high = self.highest(order.first.as_slice());
        self.are_higher(high, order.later.as_slice())
    }

    /// Whether each item goes from lower ranks to higher ones.
    pub fn agree(&self, orders: &[Order]) -> bool
        ensures { result ≡ agree self.now orders.now }
    {
        for order in orders {
            if !self.is_ranked(order) {
                return false;
            }
        }
        true
    }
}
