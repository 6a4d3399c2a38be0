// What is accepted is lawful.

ghost use Rattle.svr_elab_lawful_laws.specs.Constants.{ConstantsHaveNumbers};
ghost use Rattle.svr_elab_lawful_laws.specs.There.{AcceptedHasDesign};
ghost use Rattle.svr_elab_lawful_laws.specs.Lawful.{EnumsAreLawful, ClassesAreLawful, VariablesAreLawful, VariablesAreFew, StatementsAreFew, RandomIsLawful, BlocksAreFew, ObjectsAreMade};
ghost use Rattle.svr_elab_lawful_laws.specs.Places.{PlacesStand};
ghost use Rattle.svr_elab_lawful_laws.specs.Reads.{AcceptedReads, StatementPlacesStand};
ghost use Rattle.svr_elab_lawful_laws.specs.Together.{LawfulButForWalks, BlocksAreThose};
ghost use Rattle.svr_elab_lawful_laws.specs.Walks.{AcceptedStatementsStand, StatementsStand, UnitsAreRead, BlocksAreNamed};
ghost use Rattle.svr_elab_lawful_laws.specs.Accepted.{AcceptedIsLawful};

/// A constant in which nothing is refused has a number, whatever is declared further down.
pub fn constants_have_numbers()
    ensures { ConstantsHaveNumbers }
{}

/// A script in which nothing is refused has a design, where accepted constraint items have trees.
pub fn accepted_has_design()
    ensures { AcceptedHasDesign }
{}

/// The enums of a script in which nothing is refused have a base of 1 to 64 bits, and 1 to 1,024 members of different values (IEEE 1800-2017, 6.19).
pub fn enums_are_lawful()
    ensures { EnumsAreLawful }
{}

/// The base of each class stands before it, its properties are lawful, and with those that it inherits they are at most 1,024, with at most 32 arrays, of different names (IEEE 1800-2017, 7.4, 8.13 and 18.4).
pub fn classes_are_lawful()
    ensures { ClassesAreLawful }
{}

/// Each variable is a number of a lawful type or an object of a class of the design, and there are at most 4,096 of each sort.
pub fn variables_are_lawful()
    ensures kinds { VariablesAreLawful }
    ensures few { VariablesAreFew }
{}

/// At most 100,000 statements of a script in which nothing is refused run.
pub fn statements_are_few()
    ensures { StatementsAreFew }
{}

/// In blocks and in sets behind calls of a script in which nothing is refused, each property that can be named stands in the design at its number, and each script variable at its place.
pub fn places_stand()
    ensures { PlacesStand }
{}

/// A property can be random just where it is declared so, or where a call lists it on an object of its class or of one that is derived from it (IEEE 1800-2017, 18.4 and 18.11.1).
pub fn random_is_lawful()
    ensures { RandomIsLawful }
{}

/// A class has no more constraint blocks, with those that it inherits, than the script declares.
pub fn blocks_are_few()
    ensures { BlocksAreFew }
{}

/// An object that a statement uses is made by one before it, in the same list or in one around it (IEEE 1800-2017, 8.7).
pub fn objects_are_made()
    ensures { ObjectsAreMade }
{}

/// An expression of a statement in which nothing is refused reads properties, elements, sizes and variables that stand in the design (IEEE 1800-2017, 8.7 and 11.5.1).
/// The place of the statements of a script in which nothing is refused is such a place.
pub fn accepted_reads()
    ensures reads { AcceptedReads }
    ensures places { StatementPlacesStand }
{}

/// The design of a script in which nothing is refused is lawful, where its constraint blocks and its statements stand and there are fewer than 2^32 blocks; and its blocks are those that elaboration gives.
pub fn lawful_but_for_walks()
    ensures lawful { LawfulButForWalks }
    ensures blocks { BlocksAreThose }
{}

/// A statement in which nothing is refused stands in the design, where sets behind calls do (IEEE 1800-2017, clauses 8.7, 10, 12 and 18).
pub fn accepted_statements_stand()
    ensures { AcceptedStatementsStand }
{}

/// The statements of a script in which nothing is refused stand in its design, where each class has its blocks and the sets behind calls stand (IEEE 1800-2017, clauses 8.7, 10, 12 and 18).
/// What was read as a module is as that asks.
pub fn statements_stand()
    ensures stand { StatementsStand }
    ensures read { UnitsAreRead }
{}

/// A class of the design of a script in which nothing is refused has a block for each name of one that can be named behind an object (IEEE 1800-2017, 18.5.2 and 18.9).
pub fn blocks_are_named()
    ensures { BlocksAreNamed }
{}

/// The design of a script that was read and in which nothing is refused is lawful, where its constraint blocks and the sets behind calls stand.
pub fn accepted_is_lawful()
    ensures { AcceptedIsLawful }
{}
