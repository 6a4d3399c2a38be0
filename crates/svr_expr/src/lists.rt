// Lists and ranges of expressions (IEEE 1800-2017, A.8.1 and A.8.3).

ghost use Rattle.std.specs.Prelude.{◌≡◌, ◌≤◌, map, IfOk};
ghost use Rattle.svr_tree.specs.ExprTree.{expr_tree, range_tree, bound_tree};
ghost use Rattle.svr_tree.specs.Operators.{implication_level};
ghost use Rattle.svr_reader.specs.Answers.{Gives};
ghost use Rattle.svr_reader.specs.Calls.{cap, height_view, heights_view};
ghost use Rattle.svr_reader.specs.Program.{call};
ghost use Rattle.svr_reader.specs.Lists.{listing_on as listing_program};
ghost use Rattle.svr_expr.specs.ExprRules as spec;
ghost use Rattle.svr_expr.specs.Parts.{Nests};

use crate::beside::expect_beside;
use crate::reader::Reader;
use sqlite_items::Items;
use std::alloc::Global;
use svr_reader::{Cursor, Fixed, ReadFault, listing, listing_on};
use svr_token::{Lexeme, Mark};
use svr_tree::{Bound, Expr, Range, level};

impl<F: Fn(Global, &mut Cursor<'_>, usize, u8) -> Result<(Expr, usize), ReadFault>> Reader<F> {
    /// Expressions with commas between them.
    #[tactic(auto, unfolding(crate::specs::ExprRules::exprs, svr_reader::specs::Lists::listing))]
    pub fn exprs(&self, cursor: &mut Cursor<'_>) -> Result<(Items<Expr>, usize), ReadFault>
        requires nests { Nests self.now.room (F.pre self.now.expr) (F.post self.now.expr) }
        ensures gives { Gives (heights_view expr_tree) (spec.within cap self.now.room spec.exprs cursor.old) result cursor.new }
        ensures low { IfOk result (λ x. x.1 ≤ self.now.room) }
    {
        self.exprs_on(cursor, Items::new(self.alloc), 0)
    }

    /// The same, behind the first ones.
    pub fn exprs_on(
        &self,
        cursor: &mut Cursor<'_>,
        first: Items<Expr>,
        first_height: usize,
    ) -> Result<(Items<Expr>, usize), ReadFault>
        requires nests { Nests self.now.room (F.pre self.now.expr) (F.post self.now.expr) }
        requires first { first_height ≤ self.now.room }
        ensures gives { Gives (heights_view expr_tree) (spec.within cap self.now.room (listing_program (call implication_level) (heights_view expr_tree (first, first_height))) cursor.old) result cursor.new }
        ensures low { IfOk result (λ x. x.1 ≤ self.now.room) }
    {
        listing_on(
            cursor,
            first,
            first_height,
            |cursor| self.part(cursor, level::IMPLICATION),
        )
    }

    /// Expressions with commas between them, beside what was read before.
    pub fn exprs_beside<T: Drop>(
        &self,
        cursor: &mut Cursor<'_>,
        held: T,
    ) -> Result<(T, Items<Expr>, usize), ReadFault>
        requires nests { Nests self.now.room (F.pre self.now.expr) (F.post self.now.expr) }
        ensures gives { Gives (λ x. (map expr_tree x.1, x.2)) (spec.within cap self.now.room spec.exprs cursor.old) result cursor.new }
        ensures same { IfOk result (λ x. x.0 ≡ held) }
        ensures low { IfOk result (λ x. x.2 ≤ self.now.room) }
    {
        let (found, height) = self.exprs(cursor)?;
        Ok((held, found, height))
    }

    /// A bound of a range.
    #[tactic(auto, unfolding(crate::specs::ExprRules::bound))]
    fn bound(&self, cursor: &mut Cursor<'_>) -> Result<(Bound, usize), ReadFault>
        requires nests { Nests self.now.room (F.pre self.now.expr) (F.post self.now.expr) }
        ensures gives { Gives (height_view bound_tree) (spec.within cap self.now.room spec.bound cursor.old) result cursor.new }
        ensures low { IfOk result (λ x. x.1 ≤ self.now.room) }
    {
        match cursor.peek() {
            Some(Lexeme::Mark(Mark::Dollar)) => {
                cursor.take()?;
                Ok((Bound::dollar(), 0))
            }
            _ => {
                let (value, height) = self.part(cursor, level::IMPLICATION)?;
                Ok((Bound::value(value), height))
            }
        }
    }

    /// The same beside what was read before.
    fn bound_beside<T: Drop>(
        &self,
        cursor: &mut Cursor<'_>,
        held: T,
    ) -> Result<(T, Bound, usize), ReadFault>
        requires nests { Nests self.now.room (F.pre self.now.expr) (F.post self.now.expr) }
        ensures gives { Gives (λ x. (bound_tree x.1, x.2)) (spec.within cap self.now.room spec.bound cursor.old) result cursor.new }
        ensures same { IfOk result (λ x. x.0 ≡ held) }
        ensures low { IfOk result (λ x. x.2 ≤ self.now.room) }
    {
        let (found, height) = self.bound(cursor)?;
        Ok((held, found, height))
    }

    /// Two bounds, behind their bracket.
    #[tactic(auto, unfolding(crate::specs::ExprRules::span_on))]
    fn span_on(&self, cursor: &mut Cursor<'_>) -> Result<(Range, usize), ReadFault>
        requires nests { Nests self.now.room (F.pre self.now.expr) (F.post self.now.expr) }
        ensures gives { Gives (height_view range_tree) (spec.within cap self.now.room spec.span_on cursor.old) result cursor.new }
        ensures low { IfOk result (λ x. x.1 ≤ self.now.room) }
    {
        let (low, low_height) = self.bound(cursor)?;
        let low = expect_beside(cursor, low, Fixed::Mark(Mark::Colon))?;
        let (low, high, high_height) = self.bound_beside(cursor, low)?;
        let (low, high) = expect_beside(cursor, (low, high), Fixed::Mark(Mark::CloseBracket))?;
        Ok((Range::span(low, high), low_height.max(high_height)))
    }

    /// A value, or two bounds in brackets.
    #[tactic(auto, unfolding(crate::specs::ExprRules::range))]
    pub fn range(&self, cursor: &mut Cursor<'_>) -> Result<(Range, usize), ReadFault>
        requires nests { Nests self.now.room (F.pre self.now.expr) (F.post self.now.expr) }
        ensures gives { Gives (height_view range_tree) (spec.within cap self.now.room spec.range cursor.old) result cursor.new }
        ensures low { IfOk result (λ x. x.1 ≤ self.now.room) }
    {
        match cursor.peek() {
            Some(Lexeme::Mark(Mark::OpenBracket)) => {
                cursor.take()?;
                self.span_on(cursor)
            }
            _ => {
                let (value, height) = self.part(cursor, level::IMPLICATION)?;
                Ok((Range::one(value), height))
            }
        }
    }

    /// Ranges with commas between them.
    #[tactic(auto, unfolding(crate::specs::ExprRules::ranges))]
    pub fn ranges(&self, cursor: &mut Cursor<'_>) -> Result<(Items<Range>, usize), ReadFault>
        requires nests { Nests self.now.room (F.pre self.now.expr) (F.post self.now.expr) }
        ensures gives { Gives (heights_view range_tree) (spec.within cap self.now.room spec.ranges cursor.old) result cursor.new }
        ensures low { IfOk result (λ x. x.1 ≤ self.now.room) }
    {
        listing(self.alloc, cursor, |cursor| self.range(cursor))
    }

    /// The same beside what was read before.
    pub fn ranges_beside<T: Drop>(
        &self,
        cursor: &mut Cursor<'_>,
        held: T,
    ) -> Result<(T, Items<Range>, usize), ReadFault>
        requires nests { Nests self.now.room (F.pre self.now.expr) (F.post self.now.expr) }
        ensures gives { Gives (λ x. (map range_tree x.1, x.2)) (spec.within cap self.now.room spec.ranges cursor.old) result cursor.new }
        ensures same { IfOk result (λ x. x.0 ≡ held) }
        ensures low { IfOk result (λ x. x.2 ≤ self.now.room) }
    {
        let (found, height) = self.ranges(cursor)?;
        Ok((held, found, height))
    }
}
