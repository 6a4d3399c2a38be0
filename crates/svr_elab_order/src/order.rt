// What an item orders, and how large its numbers are.

ghost use Rattle.std.specs.Prelude.{◌≡◌, ℕ, ◌<◌, ◌≤◌, ◌^◌, max, true};
ghost use Rattle.svr_elab_order.specs.Order.{is_in};
ghost use Rattle.svr_elab_order.specs.Graph.{AreNames};

use sqlite_items::Items;

/// What one `solve` item orders: each of the first properties before each of the later ones, by their numbers. `block` is the name of the block that it stands in, and `at` the token `solve`.
#[derive(Drop)]
pub struct Order {
    pub block: u32,
    pub at: u32,
    pub first: Items<u32>,
    pub later: Items<u32>,
}

/// One more than the largest of these numbers, 0 of none.
fn past(numbers: &[u32]) -> usize
    ensures above { (a : ℕ) → is_in a numbers.now ≡ true → a < result }
    ensures small { result ≤ 2 ^ 32 }
{
    let mut past = 0;
    for number in numbers {
        past = past.max(*number as usize + 1);
    }
    past
}

fn larger(a: usize, b: usize) -> usize
    ensures { result ≡ max a b }
{
    if a < b { b } else { a }
}

/// One more than the largest number that items name, 0 where they name none.
pub(crate) fn names_past(orders: &[Order]) -> usize
    ensures above { AreNames result orders.now }
    ensures small { result ≤ 2 ^ 32 }
{
    let mut names = 0;
    for order in orders {
        let own = larger(past(order.first.as_slice()), past(order.later.as_slice()));
        names = larger(names, own);
    }
    names
}
