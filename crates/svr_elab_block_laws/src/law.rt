// What is accepted among constraint blocks and in-line sets is typed and lawful.

ghost use Rattle.svr_elab_block_laws.specs.Lawful.{AcceptedBlocksHaveTrees, AcceptedBlocksAreLawful, AcceptedInLineIsLawful};

/// The blocks of classes in which nothing is refused are there, where no declaration that they can name was refused.
pub fn accepted_blocks_have_trees()
    ensures { AcceptedBlocksHaveTrees }
{}

/// The blocks of classes in which nothing is refused are there, class by class, and stand in their class in every design which has at its numbers what is declared (IEEE 1800-2017, 18.5).
pub fn accepted_blocks_are_lawful()
    ensures { AcceptedBlocksAreLawful }
{}

/// An in-line set of constraints in which nothing is refused is there, and lawful in every design which has at its numbers what is declared (IEEE 1800-2017, 18.7).
pub fn accepted_in_line_is_lawful()
    ensures { AcceptedInLineIsLawful }
{}
