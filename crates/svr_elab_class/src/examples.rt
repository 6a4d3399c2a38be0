// What the definitions say of classes that were worked out by hand: each function has an empty body, and its contract is the statement.

ghost use Rattle.std.specs.Prelude.{◌≡◌, true};
ghost use Rattle.std.specs.List.{list_all};
ghost use Rattle.svr_elab_class.specs.Examples as example;

/// Inherited properties in flat order, and the blocks of the class itself.
pub fn flat_classes_are_as_worked_out()
    ensures { list_all example.is_so example.flat_classes ≡ true }
{}

/// Base classes, and the names of classes.
pub fn base_classes_are_as_worked_out()
    ensures { list_all example.is_so example.base_classes ≡ true }
{}

/// Properties by their names, types, dimensions and values.
pub fn properties_are_as_worked_out()
    ensures { list_all example.is_so example.properties ≡ true }
{}
