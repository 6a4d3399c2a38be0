// What the definitions of order mean.

ghost use Rattle.std.specs.Prelude.{◌≡◌, true};
ghost use Rattle.std.specs.List.{list_all};
ghost use Rattle.svr_elab_order.specs.Order.{ComesByItems, ComesByLoop};
ghost use Rattle.svr_elab_order.specs.Cycles.{KeepsTheFirst};
ghost use Rattle.svr_elab_order.specs.Examples as example;

/// A property comes before another one exactly where a chain of items leads from it to the other, and items order one before itself where a chain leads back to it.
pub fn comes_by_items()
    ensures chain { ComesByItems }
    ensures cycle { ComesByLoop }
{}

/// The refusal that is kept is the first of all that the definition gathers.
pub fn keeps_the_first()
    ensures { KeepsTheFirst }
{}

/// Items that order a property before itself, with the first of them.
pub fn loops_are_as_worked_out()
    ensures { list_all example.is_so example.loops ≡ true }
{}

/// Items that order no property before itself.
pub fn chains_are_as_worked_out()
    ensures { list_all example.is_so example.chains ≡ true }
{}
