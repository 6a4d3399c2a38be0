// A design that was worked out by hand, and what is wrong with it where one choice is another.

ghost use Rattle.std.specs.Prelude.{ℕ, true, false, Some, None, [], ◌∷◌, codes};
ghost use Rattle.svr_typed.specs.ExprTerm as node;
ghost use Rattle.svr_typed.specs.StmtTerm as stmt;
ghost use Rattle.svr_design.specs.Lawful.{IsLawful};
ghost use Rattle.svr_design.specs.Examples.{Choices, design, as_written, read};

/// As it is written the design is lawful, and with as many calls as there may be.
pub fn what_is_as_written_is_lawful()
    ensures written { IsLawful (design as_written) }
    ensures most { IsLawful (design (record as_written { times = 99997 })) }
{}

/// Types and what is declared of them (IEEE 1800-2017, clauses 6 and 7, and 18.4.2).
///
/// - `write`: two members of an enum have one value.
/// - `initial`: an initial value needs more bits than its type has.
/// - `cycle`: a cyclic property has 9 bits.
/// - `inner`: an array of four elements has rows of three.
pub fn wrong_types_are_not_lawful()
    ensures write { IsLawful (design (record as_written { write = 0 })) → ⊥ }
    ensures initial { IsLawful (design (record as_written { initial = 16 })) → ⊥ }
    ensures cycle { IsLawful (design (record as_written { cycle = 9 })) → ⊥ }
    ensures inner { IsLawful (design (record as_written { inner = 3 })) → ⊥ }
{}

/// Classes (IEEE 1800-2017, clause 8, and 18.4).
///
/// - `base`: a class extends one that stands behind it.
/// - `name`: a derived class has a property with the name of an inherited one.
/// - `listed`: a property that is declared neither `rand` nor `randc`, and that no call lists, is said to be one that can be random.
pub fn wrong_classes_are_not_lawful()
    ensures base { IsLawful (design (record as_written { base = Some 1 })) → ⊥ }
    ensures name { IsLawful (design (record as_written { name = codes "x" })) → ⊥ }
    ensures listed { IsLawful (design (record as_written { listed = 0 ∷ [] })) → ⊥ }
{}

/// Constraints (IEEE 1800-2017, 11.5.1 and 18.5).
///
/// - `width`: a property is read with another width than it has.
/// - `soft`: a soft item mentions a cyclic property.
/// - `outer`: an index is of a loop that does not stand around it.
/// - `last`: a part-select lies outside of its vector.
/// - `bit`: the number of a bit mentions a property that can be random.
pub fn wrong_constraints_are_not_lawful()
    ensures width { IsLawful (design (record as_written { width = 5 })) → ⊥ }
    ensures soft { IsLawful (design (record as_written { soft = true })) → ⊥ }
    ensures outer { IsLawful (design (record as_written { outer = 2 })) → ⊥ }
    ensures last { IsLawful (design (record as_written { last = 9 })) → ⊥ }
    ensures bit { IsLawful (design (record as_written { bit = read 4 (node.prop 0) })) → ⊥ }
{}

/// Statements (IEEE 1800-2017, 8.7 and clause 18).
///
/// - `start`: an object variable is used that has no object.
/// - `value`: a property stands by itself in place of one of an object.
/// - `times`: more than 100,000 statements run.
/// - `answer`: an object variable takes the answer of a call.
pub fn wrong_statements_are_not_lawful()
    ensures start { IsLawful (design (record as_written { start = stmt.list stmt.no_stmts })) → ⊥ }
    ensures value { IsLawful (design (record as_written { value = read 4 (node.prop 0) })) → ⊥ }
    ensures times { IsLawful (design (record as_written { times = 99998 })) → ⊥ }
    ensures answer { IsLawful (design (record as_written { answer = 1 })) → ⊥ }
{}
