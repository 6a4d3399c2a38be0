// The weight of a phase.

ghost use Rattle.std.specs.Prelude.{◌≡◌, ◌<◌, ◌≤◌, ◌+◌, ◌*◌, length};
ghost use Rattle.svr_eval.specs.Holds.{ItemsAreTyped};
ghost use Rattle.svr_frame.specs.Frame.{frame_term};
ghost use Rattle.svr_frame.specs.Sound.{IsSound};
ghost use Rattle.svr_frame.specs.Weight.{capped, weight_of};
ghost use Rattle.svr_weight.specs.Weighing as spec;

use crate::around::Around;
use crate::cost::add;
use crate::items::items_weight;
use svr_frame::{Frame, Part, size_at};

/// That a number of a property is one of its domain (IEEE 1800-2017, 6.19.3).
fn domain_weight(prop: u32, frame: &Frame) -> u128
    ensures { result ≡ spec.domain_weight (frame_term frame.now) prop }
{
    match frame.member_count(prop) {
        None => 0,
        Some(members) => 1 + members as u128 * (u128::from(frame.width(prop)) + 1),
    }
}

fn is_scalar_unknown(prop: u32, frame: &Frame) -> bool
    ensures { result ≡ spec.is_scalar_unknown (frame_term frame.now) prop }
{
    frame.is_cyclic(prop) || (frame.is_random(prop) && !frame.is_array(prop))
}

/// How many numbers of a property a phase looks for.
fn number_count(prop: u32, frame: &Frame, part: Part, sizes: &[u32]) -> u64
    ensures { result ≡ spec.number_count (frame_term frame.now) sizes.now part prop }
{
    match part {
        Part::Randc => u64::from(frame.is_cyclic(prop)),
        Part::Sizes => u64::from(is_scalar_unknown(prop, frame)),
        Part::All => {
            let scalar = u64::from(is_scalar_unknown(prop, frame));
            if frame.is_random(prop) && frame.is_array(prop) {
                scalar + u64::from(size_at(sizes, prop))
            } else {
                scalar
            }
        }
    }
}

/// The two bounds of a size that this call chooses: comparisons of 32 bits with numbers.
fn bounds_weight(prop: u32, frame: &Frame, part: Part) -> u128
    ensures { result ≡ spec.bounds_weight (frame_term frame.now) part prop }
{
    match part {
        Part::Randc | Part::All => 0,
        Part::Sizes => { if frame.has_free_size(prop) { 68 } else { 0 } }
    }
}

/// The weight of a phase at these sizes: the sum over its items, those of the domains among them, or the last value of the type where it is greater. It measures the clauses that the items become.
#[tactic(auto, using(crate::proofs::Domains::phase_weighed))]
pub fn weight(frame: &Frame, part: Part, sizes: &[u32]) -> u128
    requires { IsSound (frame_term frame.now) }
    ensures { result ≡ weight_of (frame_term frame.now) part sizes.now }
{
    let mut sum = 0;
    for prop in 0..frame.class.props.len() as u32 {
        let count = u128::from(number_count(prop, frame, part, sizes));
        let domains = count.saturating_mul(domain_weight(prop, frame));
        let own = add(domains, bounds_weight(prop, frame, part));
        sum = add(sum, own);
    }
    let items = frame.items.as_slice();
    add(
        sum,
        items_weight(items, Around::everywhere(), frame, part, sizes),
    )
}
