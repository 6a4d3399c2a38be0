// The design of a script in which nothing is refused: it is there, and its constraints stand.

ghost use Rattle.svr_elab_whole_laws.specs.Whole.{AcceptedHasADesign, AcceptedBlocksStand, AcceptedSetsStand, WhatIsAcceptedIsLawful, WhatIsReadAndAcceptedIsLawful};

/// A script in which nothing is refused has a design.
pub fn accepted_has_a_design()
    ensures { AcceptedHasADesign }
{}

/// The constraint blocks of a design stand in their classes, where the script was read and nothing in it is refused (IEEE 1800-2017, 18.5).
pub fn accepted_blocks_stand()
    ensures { AcceptedBlocksStand }
{}

/// An in-line set of constraints in which nothing is refused stands in the design of the script, for objects of each class (IEEE 1800-2017, 18.7).
pub fn accepted_sets_stand()
    ensures { AcceptedSetsStand }
{}

/// What elaboration accepts is lawful: a script that was read and in which nothing is refused has a design, and it is lawful (IEEE 1800-2017, clauses 6, 8, 11 and 18).
pub fn what_is_accepted_is_lawful()
    ensures accepted { WhatIsAcceptedIsLawful }
    ensures read { WhatIsReadAndAcceptedIsLawful }
{}
