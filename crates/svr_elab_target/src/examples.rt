// What the definitions say of blocks that were worked out by hand: each function has an empty body, and its contract is the statement.

ghost use Rattle.std.specs.Prelude.{◌≡◌, true};
ghost use Rattle.std.specs.List.{list_all};
ghost use Rattle.svr_elab_target.specs.Examples as example;

/// The blocks of classes in flat order.
pub fn flat_blocks_are_as_worked_out()
    ensures { list_all example.is_so example.flat_blocks ≡ true }
{}
