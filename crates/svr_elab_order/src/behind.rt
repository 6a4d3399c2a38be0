// Items whose refusals can't be the first.

ghost use Rattle.std.specs.Prelude.{◌≡◌};
ghost use Rattle.svr_elab_order.specs.Ranks.{all_behind, are_behind};

use crate::order::Order;
use svr_elab_fault::Fault;

/// Whether all items stand behind a token.
fn all_behind(at: u32, orders: &[Order]) -> bool
    ensures { result ≡ all_behind at orders.now }
{
    for order in orders {
        if order.at <= at {
            return false;
        }
    }
    true
}

/// Whether all items stand behind a refusal, so that none of theirs is the first.
pub fn are_behind(fault: Option<Fault>, orders: &[Order]) -> bool
    ensures { result ≡ are_behind fault orders.now }
{
    match fault {
        None => false,
        Some(fault) => all_behind(fault.token, orders),
    }
}
