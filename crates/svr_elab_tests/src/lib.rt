//! What the definition of elaboration says of expressions that were worked out by hand from the rules of the standard (IEEE 1800-2017, clause 11): each function has an empty body, and its contract is the statement.
#![tactic(auto)]

ghost use Rattle.std.specs.Prelude.{◌≡◌, true};
ghost use Rattle.std.specs.List.{list_all};
ghost use Rattle.svr_elab_tests.specs.Expressions as example;
ghost use Rattle.svr_elab_tests.specs.Scopes as scopes;
ghost use Rattle.svr_elab_tests.specs.Trees as trees;

/// Literals, names and operators have the sizes and the signs of the tables, and names that stand for nothing are refused.
pub fn names_and_operators_are_as_worked_out()
    ensures { list_all (example.is_so example.block) example.names_and_operators ≡ true }
{}

/// Each row of the table of sizes and signs (IEEE 1800-2017, table 11-21 and 11.8.1).
pub fn operators_are_as_worked_out()
    ensures { list_all (example.is_so example.block) example.operators ≡ true }
{}

/// Bits, elements and rows: bounds are constant, in order and inside the vector, and a row alone is no value.
pub fn selects_are_as_worked_out()
    ensures { list_all (example.is_so example.block) example.selects ≡ true }
{}

/// Concatenations and replications have 64 bits at most.
pub fn wholes_are_as_worked_out()
    ensures { list_all (example.is_so example.block) example.wholes ≡ true }
{}

/// Sizes and reductions stand behind arrays alone; in the body of a reduction one more name stands for an element.
pub fn arrays_are_as_worked_out()
    ensures { list_all (example.is_so example.block) example.arrays ≡ true }
{}

/// In a statement a property stands behind its object variable alone, which must have an object.
pub fn statements_are_as_worked_out()
    ensures { list_all (example.is_so example.statement) example.statements ≡ true }
{}

/// Names by where they stand: in sets behind a call, in blocks, in loops and reductions, and where something is declared further down (IEEE 1800-2017, 18.7.1 and 23.9).
pub fn scopes_are_as_worked_out()
    ensures in_line { list_all (example.is_so scopes.in_line) scopes.in_line_sets ≡ true }
    ensures blocks { list_all (example.is_so scopes.in_block) scopes.blocks ≡ true }
    ensures loops { list_all (example.is_so scopes.in_foreach) scopes.loops ≡ true }
    ensures hidden { list_all (example.is_so scopes.in_hiding) scopes.hidden ≡ true }
    ensures reductions { list_all (example.is_so example.block) scopes.reductions ≡ true }
    ensures later { list_all (example.is_so scopes.in_declaration) scopes.declarations ≡ true }
{}

/// What expressions become: names are numbers, bits have the lowest number of their vector, and in a statement an element by two indexes is one by its place.
pub fn trees_are_as_worked_out()
    ensures blocks { trees.trees_in example.block trees.in_a_block ≡ trees.wanted trees.in_a_block }
    ensures loops { trees.trees_in scopes.in_foreach trees.in_a_loop ≡ trees.wanted trees.in_a_loop }
    ensures statements { trees.trees_in example.statement trees.in_a_statement ≡ trees.wanted trees.in_a_statement }
    ensures places { trees.places ≡ trees.wanted_places }
{}
