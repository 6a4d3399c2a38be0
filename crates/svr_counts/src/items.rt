// How many hard occurrences items have.

ghost use Rattle.std.specs.Prelude.{◌≡◌, ◌≤◌, ◌+◌, ◌*◌, ◌/◌, slice_index, IfOk};
ghost use Rattle.svr_typed.specs.ItemTerm.{item_term, item_terms};
ghost use Rattle.svr_eval.specs.Holds.{ItemIsTyped, ItemsAreTyped};
ghost use Rattle.svr_frame.specs.Frame.{frame_term};
ghost use Rattle.svr_counts.specs.Counting as spec;
ghost use Rattle.svr_counts.specs.Hard.{counts_of, hard_by_item};

use crate::members::{plus, times, unique_count};
use sqlite_items::Items;
use std::alloc::Global;
use svr_frame::{Frame, size_at};
use svr_typed::{NoMemory, TItem};

/// One that is not soft.
fn plain_count(soft: bool) -> usize
    ensures { result ≡ spec.plain_number soft }
{
    if soft { 0 } else { 1 }
}

/// How often the body of a loop stands over an array of this size with rows of `inner` elements (IEEE 1800-2017, 18.5.8.1).
fn turns(size: u32, inner: u32, names: u8) -> usize
    requires { 1 ≤ inner }
    ensures { result ≡ (size / inner) * spec.row_turns inner names }
{
    let in_row = if names == 2 { inner } else { 1 };
    (size / inner) as usize * in_row as usize
}

/// Those of a loop. Where it has no turn its body is not looked at, so that a number that is too large is one of a list that is.
#[cycle(items)]
fn foreach_count(
    array: u32,
    inner: u32,
    names: u8,
    body: &[TItem],
    frame: &Frame,
    sizes: &[u32],
) -> Result<usize, NoMemory>
    requires inner { 1 ≤ inner }
    requires typed { ItemsAreTyped (item_terms body.now) }
    ensures { IfOk result (λ n. n ≡ (slice_index sizes.now array / inner) * spec.row_turns inner names * spec.items_number (frame_term frame.now) sizes.now (item_terms body.now)) }
{
    let count = turns(size_at(sizes, array), inner, names);
    if count == 0 {
        return Ok(0);
    }
    let each = items_count(body, frame, sizes)?;
    times(count, each)
}

/// Those of an item.
#[cycle(items)]
fn item_count(item: &TItem, frame: &Frame, sizes: &[u32]) -> Result<usize, NoMemory>
    requires { ItemIsTyped (item_term item.now) }
    ensures { IfOk result (λ n. n ≡ spec.item_number (frame_term frame.now) sizes.now (item_term item.now)) }
{
    match item {
        TItem::Plain { soft, .. } => Ok(plain_count(*soft)),
        TItem::Unique { members } => unique_count(members.as_slice(), frame, sizes),
        TItem::Implies { body, .. } => items_count(body.as_slice(), frame, sizes),
        TItem::Branch { yes, no, .. } => {
            let met = items_count(yes.as_slice(), frame, sizes)?;
            match no {
                None => Ok(met),
                Some(no) => {
                    let unmet = items_count(no.as_slice(), frame, sizes)?;
                    plus(met, unmet)
                }
            }
        }
        TItem::Foreach {
            array,
            inner,
            names,
            body,
        } => foreach_count(*array, *inner, *names, body.as_slice(), frame, sizes),
        TItem::Disable { .. } | TItem::Solve { .. } => Ok(0),
    }
}

/// Those of items.
#[cycle(items)]
fn items_count(items: &[TItem], frame: &Frame, sizes: &[u32]) -> Result<usize, NoMemory>
    requires { ItemsAreTyped (item_terms items.now) }
    ensures { IfOk result (λ n. n ≡ spec.items_number (frame_term frame.now) sizes.now (item_terms items.now)) }
{
    let mut count = 0;
    for item in items {
        let more = item_count(item, frame, sizes)?;
        count = plus(count, more)?;
    }
    Ok(count)
}

/// Those of each of the items.
fn each_count(
    alloc: Global,
    items: &[TItem],
    frame: &Frame,
    sizes: &[u32],
) -> Result<Items<usize>, NoMemory>
    requires { ItemsAreTyped (item_terms items.now) }
    ensures { IfOk result (λ counts. counts ≡ spec.numbers (frame_term frame.now) sizes.now (item_terms items.now)) }
{
    let mut counts = Items::new(alloc);
    for item in items {
        let count = item_count(item, frame, sizes)?;
        counts.push(count)?;
    }
    Ok(counts)
}

/// How many hard occurrences each active item of a call has.
pub fn hard_counts(alloc: Global, frame: &Frame, sizes: &[u32]) -> Result<Items<usize>, NoMemory>
    requires { ItemsAreTyped (frame_term frame.now).items }
    ensures { IfOk result (λ counts. counts ≡ counts_of (hard_by_item (frame_term frame.now) sizes.now)) }
{
    let items = frame.items.as_slice();
    let counts = each_count(alloc, items, frame, sizes)?;
    Ok(counts)
}
