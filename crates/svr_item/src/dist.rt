// `dist` sets (IEEE 1800-2017, A.1.10 and 18.5.4).

ghost use Rattle.std.specs.Prelude.{◌≤◌, ◌+◌, ◌<◌, ◌^◌, IfOk};
ghost use Rattle.svr_reader.specs.Answers.{Gives};
ghost use Rattle.svr_reader.specs.Calls.{cap, height_view, heights_view};
ghost use Rattle.svr_reader.specs.Lists as lists;
ghost use Rattle.svr_tree.specs.ItemTree.{dist_item_tree};
ghost use Rattle.svr_item.specs.ItemRules as spec;
ghost use Rattle.svr_item.specs.Parts.{Behind, weight_view, dist_view};

use crate::behind::ended;
use crate::reader::Reader;
use sqlite_items::Items;
use std::alloc::Global;
use svr_expr::{expr, range};
use svr_operator::Share;
use svr_reader::{Cursor, Fixed, ReadFault, listing};
use svr_token::{Lexeme, Mark, Word};
use svr_tree::{Dist, DistItem, Expr, Item, level};

impl<F: Fn(Global, &mut Cursor<'_>, usize) -> Result<(Item, usize), ReadFault>> Reader<F> {
    /// A weight behind `:=` or `:/`.
    #[tactic(auto, unfolding(crate::specs::ItemRules::weight_of))]
    fn weight_of(
        &self,
        cursor: &mut Cursor<'_>,
        share: Share,
    ) -> Result<(Option<(Share, Expr)>, usize), ReadFault>
        ensures gives { Gives (height_view weight_view) (spec.within cap self.now.room (spec.weight_of share) cursor.old) result cursor.new }
        ensures low { IfOk result (λ x. x.1 ≤ self.now.room) }
    {
        cursor.take()?;
        let (weight, height) = expr(self.alloc, cursor, self.room, level::IMPLICATION)?;
        Ok((Some((share, weight)), height))
    }

    #[tactic(auto, unfolding(crate::specs::ItemRules::weight))]
    fn weight(&self, cursor: &mut Cursor<'_>) -> Result<(Option<(Share, Expr)>, usize), ReadFault>
        ensures gives { Gives (height_view weight_view) (spec.within cap self.now.room spec.weight cursor.old) result cursor.new }
        ensures low { IfOk result (λ x. x.1 ≤ self.now.room) }
    {
        match cursor.peek() {
            Some(Lexeme::Mark(Mark::ColonEqual)) => self.weight_of(cursor, Share::Each),
            Some(Lexeme::Mark(Mark::ColonSlash)) => self.weight_of(cursor, Share::Whole),
            _ => Ok((None, 0)),
        }
    }

    /// A weight behind what was found.
    fn weight_behind<T: Drop>(
        &self,
        cursor: &mut Cursor<'_>,
        found: T,
    ) -> Result<(T, (Option<(Share, Expr)>, usize)), ReadFault>
        ensures gives { Behind found (height_view weight_view) (spec.within cap self.now.room spec.weight cursor.old) result cursor.new }
        ensures low { IfOk result (λ x. x.1.1 ≤ self.now.room) }
    {
        match self.weight(cursor) {
            Ok(weight) => Ok((found, weight)),
            Err(fault) => Err(fault),
        }
    }

    #[tactic(auto, unfolding(crate::specs::ItemRules::dist_item))]
    fn dist_item(&self, cursor: &mut Cursor<'_>) -> Result<(DistItem, usize), ReadFault>
        ensures gives { Gives (height_view dist_item_tree) (spec.within cap self.now.room spec.dist_item cursor.old) result cursor.new }
        ensures low { IfOk result (λ x. x.1 ≤ self.now.room) }
    {
        let (range, range_height) = range(self.alloc, cursor, self.room)?;
        let (range, (weight, weight_height)) = self.weight_behind(cursor, range)?;
        Ok((
            DistItem::new(range, weight),
            range_height.max(weight_height),
        ))
    }

    /// Members with commas between them.
    fn dist_items(&self, cursor: &mut Cursor<'_>) -> Result<(Items<DistItem>, usize), ReadFault>
        ensures gives { Gives (heights_view dist_item_tree) (spec.within cap self.now.room (lists.listing spec.dist_item) cursor.old) result cursor.new }
        ensures low { IfOk result (λ x. x.1 ≤ self.now.room) }
    {
        listing(self.alloc, cursor, |cursor| self.dist_item(cursor))
    }

    /// `dist` and its members in braces.
    #[tactic(auto, unfolding(crate::specs::ItemRules::dist_on))]
    fn dist_on(&self, cursor: &mut Cursor<'_>) -> Result<(Option<Dist>, usize), ReadFault>
        ensures gives { Gives (height_view dist_view) (spec.within cap self.now.room spec.dist_on cursor.old) result cursor.new }
        ensures low { IfOk result (λ x. x.1 ≤ self.now.room) }
    {
        let at = cursor.take()?;
        cursor.expect(Fixed::Mark(Mark::OpenBrace))?;
        let (items, height) = self.dist_items(cursor)?;
        let dist = ended(cursor, Dist::new(at, items), Fixed::Mark(Mark::CloseBrace))?;
        Ok((Some(dist), height))
    }

    /// `dist` and its members, where `dist` comes next.
    #[tactic(auto, unfolding(crate::specs::ItemRules::dist))]
    fn dist(&self, cursor: &mut Cursor<'_>) -> Result<(Option<Dist>, usize), ReadFault>
        ensures gives { Gives (height_view dist_view) (spec.within cap self.now.room spec.dist cursor.old) result cursor.new }
        ensures low { IfOk result (λ x. x.1 ≤ self.now.room) }
    {
        match cursor.peek() {
            Some(Lexeme::Word(Word::Dist)) => self.dist_on(cursor),
            _ => Ok((None, 0)),
        }
    }

    /// `dist` and its members behind what was found.
    pub fn dist_behind<T: Drop>(
        &self,
        cursor: &mut Cursor<'_>,
        found: T,
    ) -> Result<(T, (Option<Dist>, usize)), ReadFault>
        ensures gives { Behind found (height_view dist_view) (spec.within cap self.now.room spec.dist cursor.old) result cursor.new }
        ensures low { IfOk result (λ x. x.1.1 ≤ self.now.room) }
    {
        match self.dist(cursor) {
            Ok(dist) => Ok((found, dist)),
            Err(fault) => Err(fault),
        }
    }
}
