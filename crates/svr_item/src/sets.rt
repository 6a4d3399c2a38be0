// Constraint sets (IEEE 1800-2017, A.1.10).

ghost use Rattle.std.specs.Prelude.{◌≡◌, ◌≤◌, IfOk};
ghost use Rattle.svr_reader.specs.Answers.{Gives};
ghost use Rattle.svr_reader.specs.Calls.{cap, height_view, heights_view};
ghost use Rattle.svr_tree.specs.ItemTree.{item_tree, set_tree};
ghost use Rattle.svr_item.specs.ItemRules as spec;
ghost use Rattle.svr_item.specs.Parts.{Behind, ReadsItems, else_view};

use crate::behind::pushed;
use crate::reader::Reader;
use sqlite_items::Items;
use std::alloc::Global;
use svr_reader::{Cursor, Fixed, ReadFault, until};
use svr_token::{Mark, Word};
use svr_tree::{Item, Set};

impl<F: Fn(Global, &mut Cursor<'_>, usize) -> Result<(Item, usize), ReadFault>> Reader<F> {
    /// Items up to the closing brace, which is taken.
    #[tactic(auto, unfolding(crate::specs::ItemRules::items))]
    pub fn items(&self, cursor: &mut Cursor<'_>) -> Result<(Items<Item>, usize), ReadFault>
        requires reads { ReadsItems self.now.room (F.pre self.now.item) (F.post self.now.item) }
        ensures gives { Gives (heights_view item_tree) (spec.within cap self.now.room spec.items cursor.old) result cursor.new }
        ensures low { IfOk result (λ x. x.1 ≤ self.now.room) }
    {
        until(
            self.alloc,
            cursor,
            Fixed::Mark(Mark::CloseBrace),
            |cursor| self.part(cursor),
        )
    }

    /// Items in braces, behind the first one.
    #[tactic(auto, unfolding(crate::specs::ItemRules::braced_set))]
    fn braced_set(&self, cursor: &mut Cursor<'_>) -> Result<(Set, usize), ReadFault>
        requires reads { ReadsItems self.now.room (F.pre self.now.item) (F.post self.now.item) }
        ensures gives { Gives (height_view set_tree) (spec.within cap self.now.room spec.braced_set cursor.old) result cursor.new }
        ensures low { IfOk result (λ x. x.1 ≤ self.now.room) }
    {
        let (items, height) = self.items(cursor)?;
        Ok((Set::new(true, items), height))
    }

    /// One item without braces.
    #[tactic(auto, unfolding(crate::specs::ItemRules::single_set))]
    fn single_set(&self, cursor: &mut Cursor<'_>) -> Result<(Set, usize), ReadFault>
        requires reads { ReadsItems self.now.room (F.pre self.now.item) (F.post self.now.item) }
        ensures gives { Gives (height_view set_tree) (spec.within cap self.now.room spec.single_set cursor.old) result cursor.new }
        ensures low { IfOk result (λ x. x.1 ≤ self.now.room) }
    {
        let (item, height) = self.part(cursor)?;
        let items = pushed(Items::new(self.alloc), item)?;
        Ok((Set::new(false, items), height))
    }

    /// A set, braced where a brace comes next.
    #[tactic(auto, unfolding(crate::specs::ItemRules::item_set))]
    fn set(&self, cursor: &mut Cursor<'_>) -> Result<(Set, usize), ReadFault>
        requires reads { ReadsItems self.now.room (F.pre self.now.item) (F.post self.now.item) }
        ensures gives { Gives (height_view set_tree) (spec.within cap self.now.room spec.item_set cursor.old) result cursor.new }
        ensures low { IfOk result (λ x. x.1 ≤ self.now.room) }
    {
        if cursor.eat(Fixed::Mark(Mark::OpenBrace)) {
            self.braced_set(cursor)
        } else {
            self.single_set(cursor)
        }
    }

    /// `else` and its set, where `else` comes next.
    #[tactic(auto, unfolding(crate::specs::ItemRules::otherwise, crate::specs::ItemRules::else_branch))]
    fn otherwise(&self, cursor: &mut Cursor<'_>) -> Result<(Option<Set>, usize), ReadFault>
        requires reads { ReadsItems self.now.room (F.pre self.now.item) (F.post self.now.item) }
        ensures gives { Gives (height_view else_view) (spec.within cap self.now.room spec.otherwise cursor.old) result cursor.new }
        ensures low { IfOk result (λ x. x.1 ≤ self.now.room) }
    {
        if cursor.eat(Fixed::Word(Word::Else)) {
            let (set, height) = self.set(cursor)?;
            Ok((Some(set), height))
        } else {
            Ok((None, 0))
        }
    }

    /// A set behind what was found.
    pub fn set_behind<T: Drop>(
        &self,
        cursor: &mut Cursor<'_>,
        found: T,
    ) -> Result<(T, (Set, usize)), ReadFault>
        requires reads { ReadsItems self.now.room (F.pre self.now.item) (F.post self.now.item) }
        ensures gives { Behind found (height_view set_tree) (spec.within cap self.now.room spec.item_set cursor.old) result cursor.new }
        ensures low { IfOk result (λ x. x.1.1 ≤ self.now.room) }
    {
        match self.set(cursor) {
            Ok(next) => Ok((found, next)),
            Err(fault) => Err(fault),
        }
    }

    /// `else` and its set behind what was found.
    pub fn otherwise_behind<T: Drop>(
        &self,
        cursor: &mut Cursor<'_>,
        found: T,
    ) -> Result<(T, (Option<Set>, usize)), ReadFault>
        requires reads { ReadsItems self.now.room (F.pre self.now.item) (F.post self.now.item) }
        ensures gives { Behind found (height_view else_view) (spec.within cap self.now.room spec.otherwise cursor.old) result cursor.new }
        ensures low { IfOk result (λ x. x.1.1 ≤ self.now.room) }
    {
        match self.otherwise(cursor) {
            Ok(next) => Ok((found, next)),
            Err(fault) => Err(fault),
        }
    }
}
