// A list put into another one.

ghost use Rattle.std.specs.Prelude.{◌≡◌, ◌≤◌, ◌+◌, ◌++◌, List, length, reverse, IfOk, OnOk};

use crate::memory::NoMemory;
use sqlite_items::Items;
use std::alloc::Global;

/// The last elements of a list, the last one first, and those before them.
#[derive(Drop)]
struct Cut<T> {
    front: Items<T>,
    turned: Items<T>,
}

/// Moves the last element of one list to the end of another.
fn move_last<T: Drop>(front: &mut Items<T>, turned: &mut Items<T>) -> Result<(), NoMemory>
    requires { 1 ≤ length front.old }
    ensures whole { OnOk result (front.new ++ reverse turned.new ≡ front.old ++ reverse turned.old) }
    ensures count { OnOk result (length turned.new ≡ length turned.old + 1) }
{
    match front.pop() {
        None => Ok(()),
        Some(item) => {
            turned.push(item)?;
            Ok(())
        }
    }
}

/// Takes so many elements off the end of a list.
fn taken_off<T: Drop>(alloc: Global, items: Items<T>, count: usize) -> Result<Cut<T>, NoMemory>
    requires { count ≤ length items }
    ensures whole { IfOk result (λ cut. cut.front ++ reverse cut.turned ≡ items) }
    ensures count { IfOk result (λ cut. length cut.turned ≡ count) }
{
    let mut front = items;
    let mut turned = Items::new(alloc);
    for _place in 0..count {
        move_last(&mut front, &mut turned)?;
    }
    Ok(Cut { front, turned })
}

/// A list, and behind it another one, which is given the last one first.
#[tactic(auto, using(crate::proofs::Turned::turned))]
fn put_back<T: Drop>(front: Items<T>, turned: Items<T>) -> Result<Items<T>, NoMemory>
    ensures { IfOk result (λ all. all ≡ front ++ reverse turned) }
{
    let mut all = front;
    let mut left = turned;
    while let Some(item) = left.pop() {
        all.push(item)?;
    }
    Ok(all)
}

/// Puts more elements in front of the last `count` ones of a list.
pub(crate) fn put_before_last<T: Drop>(
    alloc: Global,
    items: Items<T>,
    count: usize,
    more: Items<T>,
) -> Result<Items<T>, NoMemory>
    requires { count ≤ length items }
    ensures { IfOk result (λ all. (front last : List T) → items ≡ front ++ last → length last ≡ count → all ≡ front ++ more ++ last) }
{
    let cut = taken_off(alloc, items, count)?;
    let Cut { front, turned } = cut;
    let mut longer = front;
    longer.append(more)?;
    put_back(longer, turned)
}
