// What the definitions say of classes that were worked out by hand: each function has an empty body, and its contract is the statement.

ghost use Rattle.std.specs.Prelude.{◌≡◌, true};
ghost use Rattle.std.specs.List.{list_all};
ghost use Rattle.svr_elab_block.specs.Examples as example;

/// Items that order a property before itself.
pub fn loops_are_as_worked_out()
    ensures { list_all example.is_so example.loops ≡ true }
{}

/// What is inherited, and blocks in whose place others are put.
pub fn inheritances_are_as_worked_out()
    ensures refused { list_all example.is_so example.inheritances ≡ true }
    ensures ordered { example.OrdersStand }
{}

/// Blocks whose name their class has already.
pub fn doubles_are_as_worked_out()
    ensures { list_all example.is_so example.doubles ≡ true }
{}

/// Names of the class of a block, and of that of an in-line set.
pub fn names_are_as_worked_out()
    ensures blocks { list_all example.is_so example.names ≡ true }
    ensures in_line { example.InLineHasTheClass }
{}
