// Items that begin with an expression (IEEE 1800-2017, A.1.10).

ghost use Rattle.std.specs.Prelude.{◌≡◌, ◌≤◌, ◌<◌, ◌+◌, ◌^◌, IfOk};
ghost use Rattle.svr_reader.specs.Answers.{Gives};
ghost use Rattle.svr_reader.specs.Calls.{cap, height_view};
ghost use Rattle.svr_tree.specs.ExprTree.{expr_tree};
ghost use Rattle.svr_tree.specs.ItemTree.{item_tree};
ghost use Rattle.svr_item.specs.ItemRules as spec;
ghost use Rattle.svr_item.specs.Parts.{ReadsItems};

use crate::behind::ended;
use crate::reader::Reader;
use std::alloc::Global;
use svr_expr::{expr, rest_of_operand, take_beside};
use svr_reader::{Cursor, Fixed, ReadFault};
use svr_token::{Lexeme, Mark};
use svr_tree::{Expr, Item, level};

impl<F: Fn(Global, &mut Cursor<'_>, usize) -> Result<(Item, usize), ReadFault>> Reader<F> {
    /// What stands behind the expression of an item: `[dist] ;`.
    #[tactic(auto, unfolding(crate::specs::ItemRules::plain_on))]
    pub fn plain_on(
        &self,
        cursor: &mut Cursor<'_>,
        at: u32,
        soft: bool,
        expr: Expr,
        height: usize,
    ) -> Result<(Item, usize), ReadFault>
        requires room { self.now.room + 1 < 2 ^ 64 }
        requires height { height ≤ self.now.room }
        ensures gives { Gives (height_view item_tree) (spec.within cap self.now.room (spec.plain_on at soft (height_view expr_tree (expr, height))) cursor.old) result cursor.new }
        ensures low { IfOk result (λ x. x.1 ≤ self.now.room + 1) }
    {
        let (expr, (dist, dist_height)) = self.dist_behind(cursor, expr)?;
        let item = Item::plain(at, soft, expr, dist);
        let item = ended(cursor, item, Fixed::Mark(Mark::Semicolon))?;
        Ok((item, height.max(dist_height) + 1))
    }

    /// `<->` and an expression, behind the left operand.
    #[tactic(auto, unfolding(crate::specs::ItemRules::equivalent_on))]
    fn equivalent_on(
        &self,
        cursor: &mut Cursor<'_>,
        at: u32,
        left: Expr,
        height: usize,
    ) -> Result<(Item, usize), ReadFault>
        requires room { self.now.room + 1 < 2 ^ 64 }
        requires some { 1 ≤ self.now.room }
        requires height { height ≤ self.now.room }
        ensures gives { Gives (height_view item_tree) (spec.within cap self.now.room (spec.equivalent_on at (height_view expr_tree (left, height))) cursor.old) result cursor.new }
        ensures low { IfOk result (λ x. x.1 ≤ self.now.room + 1) }
    {
        let (whole, whole_height) = rest_of_operand(
            self.alloc, cursor, self.room, at, left, height,
        )?;
        let item = Item::plain(at, false, whole, None);
        let item = ended(cursor, item, Fixed::Mark(Mark::Semicolon))?;
        Ok((item, whole_height + 1))
    }

    /// `->` and a set, behind the test.
    #[tactic(auto, unfolding(crate::specs::ItemRules::implies_on))]
    fn implies_on(
        &self,
        cursor: &mut Cursor<'_>,
        at: u32,
        test: Expr,
        height: usize,
    ) -> Result<(Item, usize), ReadFault>
        requires reads { ReadsItems self.now.room (F.pre self.now.item) (F.post self.now.item) }
        requires room { self.now.room + 1 < 2 ^ 64 }
        requires height { height ≤ self.now.room }
        ensures gives { Gives (height_view item_tree) (spec.within cap self.now.room (spec.implies_on at (height_view expr_tree (test, height))) cursor.old) result cursor.new }
        ensures low { IfOk result (λ x. x.1 ≤ self.now.room + 1) }
    {
        let (test, _) = take_beside(cursor, test)?;
        let (test, (body, body_height)) = self.set_behind(cursor, test)?;
        Ok((Item::implies(at, test, body), height.max(body_height) + 1))
    }

    /// What stands behind the first expression of an item.
    #[tactic(auto, unfolding(crate::specs::ItemRules::expr_item_on))]
    fn expr_item_on(
        &self,
        cursor: &mut Cursor<'_>,
        at: u32,
        first: Expr,
        height: usize,
    ) -> Result<(Item, usize), ReadFault>
        requires reads { ReadsItems self.now.room (F.pre self.now.item) (F.post self.now.item) }
        requires room { self.now.room + 1 < 2 ^ 64 }
        requires some { 1 ≤ self.now.room }
        requires height { height ≤ self.now.room }
        ensures gives { Gives (height_view item_tree) (spec.within cap self.now.room (spec.expr_item_on at (height_view expr_tree (first, height))) cursor.old) result cursor.new }
        ensures low { IfOk result (λ x. x.1 ≤ self.now.room + 1) }
    {
        match cursor.peek() {
            Some(Lexeme::Mark(Mark::Arrow)) => self.implies_on(cursor, at, first, height),
            Some(Lexeme::Mark(Mark::DoubleArrow)) => {
                self.equivalent_on(cursor, at, first, height)
            }
            _ => self.plain_on(cursor, at, false, first, height),
        }
    }

    /// An item that begins with an expression.
    #[tactic(auto, unfolding(crate::specs::ItemRules::expr_item))]
    pub fn expr_item(&self, cursor: &mut Cursor<'_>) -> Result<(Item, usize), ReadFault>
        requires reads { ReadsItems self.now.room (F.pre self.now.item) (F.post self.now.item) }
        requires room { self.now.room + 1 < 2 ^ 64 }
        ensures gives { Gives (height_view item_tree) (spec.within cap self.now.room spec.expr_item cursor.old) result cursor.new }
        ensures low { IfOk result (λ x. x.1 ≤ self.now.room + 1) }
    {
        let at = cursor.at();
        let (first, height) = expr(self.alloc, cursor, self.room, level::CONDITIONAL)?;
        self.expr_item_on(cursor, at, first, height)
    }
}
