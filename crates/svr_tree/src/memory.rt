// Want of memory, and boxes for the parts of a node. These functions are generic, so that a node lets its parts go in one call where memory ends.

ghost use Rattle.std.specs.Prelude.{◌≡◌, IfSome};

use sqlite_items::Boxed;
use std::alloc::{AllocError, Global};

/// There is no memory for the result.
#[derive(Clone, Copy, Debug, PartialEq, Eq)]
pub struct NoMemory;

impl From<AllocError> for NoMemory {
    fn from(_error: AllocError) -> NoMemory {
        NoMemory
    }
}

/// A value in a box, where there is memory for it.
pub(crate) fn boxed<T: Drop>(alloc: Global, value: T) -> Option<Boxed<T>>
    ensures { IfSome result (λ b. b ≡ value) }
{
    Boxed::new(alloc, value).ok()
}

/// Two values in boxes, where there is memory for both.
pub(crate) fn boxed_pair<T: Drop>(
    alloc: Global,
    first: T,
    second: T,
) -> Option<(Boxed<T>, Boxed<T>)>
    ensures first { IfSome result (λ boxes. boxes.0 ≡ first) }
    ensures second { IfSome result (λ boxes. boxes.1 ≡ second) }
{
    boxed(alloc, first).zip(boxed(alloc, second))
}

/// Three values in boxes, where there is memory for all.
pub(crate) fn boxed_three<T: Drop>(
    alloc: Global,
    first: T,
    second: T,
    third: T,
) -> Option<((Boxed<T>, Boxed<T>), Boxed<T>)>
    ensures first { IfSome result (λ boxes. boxes.0.0 ≡ first) }
    ensures second { IfSome result (λ boxes. boxes.0.1 ≡ second) }
    ensures third { IfSome result (λ boxes. boxes.1 ≡ third) }
{
    boxed_pair(alloc, first, second).zip(boxed(alloc, third))
}
