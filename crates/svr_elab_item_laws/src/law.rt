// What is accepted among constraint items is typed and lawful.

ghost use Rattle.svr_elab_item_laws.specs.Lawful.{AcceptedItemsHaveTrees, AcceptedItemsAreLawful};

/// Constraint items in which nothing is refused have typed items, where no declaration that they can name was refused.
pub fn accepted_items_have_trees()
    ensures { AcceptedItemsHaveTrees }
{}

/// Constraint items in which nothing is refused have typed items that are lawful in every design which has at its numbers what is declared (IEEE 1800-2017, 18.5).
pub fn accepted_items_are_lawful()
    ensures { AcceptedItemsAreLawful }
{}
