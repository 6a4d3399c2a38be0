// Operators, by precedence climbing (IEEE 1800-2017, table 11-2).

ghost use Rattle.std.specs.Prelude.{◌≡◌, ◌≤◌, ◌<◌, ◌+◌, ◌^◌, IfOk};
ghost use Rattle.svr_tree.specs.ExprTree.{expr_tree};
ghost use Rattle.svr_tree.specs.Operators as operators;
ghost use Rattle.svr_reader.specs.Answers.{Gives};
ghost use Rattle.svr_reader.specs.Calls.{cap, height_view};
ghost use Rattle.svr_expr.specs.ExprRules as spec;
ghost use Rattle.svr_expr.specs.Connectives as connectives;
ghost use Rattle.svr_expr.specs.Parts.{Nests};

use crate::beside::{enter_beside, expect_beside};
use crate::connective::{
    Connective, connective_level, connective_of, goes_on, least_right, precedence,
};
use crate::reader::Reader;
use std::alloc::Global;
use svr_operator::BinOp;
use svr_reader::{Cursor, Fixed, ReadFault};
use svr_token::Mark;
use svr_tree::{Expr, level};

impl<F: Fn(Global, &mut Cursor<'_>, usize, u8) -> Result<(Expr, usize), ReadFault>> Reader<F> {
    /// The right operand of a binary operator.
    #[tactic(auto, unfolding(crate::specs::ExprRules::binary_on))]
    fn binary_on(
        &self,
        cursor: &mut Cursor<'_>,
        at: u32,
        left: Expr,
        height: usize,
        op: BinOp,
    ) -> Result<(Expr, usize), ReadFault>
        requires nests { Nests self.now.room (F.pre self.now.expr) (F.post self.now.expr) }
        requires room { self.now.room + 1 < 2 ^ 64 }
        requires left { height ≤ self.now.room }
        ensures gives { Gives (height_view expr_tree) (spec.within cap self.now.room (spec.binary_on at (height_view expr_tree (left, height)) op) cursor.old) result cursor.new }
        ensures low { IfOk result (λ x. x.1 ≤ self.now.room + 1) }
    {
        let (left, right, right_height) = self.part_beside(
            cursor,
            left,
            least_right(precedence(op)),
        )?;
        let whole = Expr::binary(self.alloc, at, op, left, right)?;
        Ok((whole, height.max(right_height) + 1))
    }

    /// The two values of a choice, behind its test.
    #[tactic(auto, unfolding(crate::specs::ExprRules::choice_on))]
    fn choice_on(
        &self,
        cursor: &mut Cursor<'_>,
        at: u32,
        test: Expr,
        height: usize,
    ) -> Result<(Expr, usize), ReadFault>
        requires nests { Nests self.now.room (F.pre self.now.expr) (F.post self.now.expr) }
        requires room { self.now.room + 1 < 2 ^ 64 }
        requires test { height ≤ self.now.room }
        ensures gives { Gives (height_view expr_tree) (spec.within cap self.now.room (spec.choice_on at (height_view expr_tree (test, height))) cursor.old) result cursor.new }
        ensures low { IfOk result (λ x. x.1 ≤ self.now.room + 1) }
    {
        let (test, yes, yes_height) = self.part_beside(cursor, test, level::IMPLICATION)?;
        let (test, yes) = expect_beside(cursor, (test, yes), Fixed::Mark(Mark::Colon))?;
        let ((test, yes), no, no_height) = self.part_beside(
            cursor,
            (test, yes),
            level::CONDITIONAL,
        )?;
        let whole = Expr::choice(self.alloc, at, test, yes, no)?;
        Ok((whole, height.max(yes_height).max(no_height) + 1))
    }

    /// The set behind `inside`.
    #[tactic(auto, unfolding(crate::specs::ExprRules::inside_on))]
    fn inside_on(
        &self,
        cursor: &mut Cursor<'_>,
        at: u32,
        left: Expr,
        height: usize,
    ) -> Result<(Expr, usize), ReadFault>
        requires nests { Nests self.now.room (F.pre self.now.expr) (F.post self.now.expr) }
        requires room { self.now.room + 1 < 2 ^ 64 }
        requires left { height ≤ self.now.room }
        ensures gives { Gives (height_view expr_tree) (spec.within cap self.now.room (spec.inside_on at (height_view expr_tree (left, height))) cursor.old) result cursor.new }
        ensures low { IfOk result (λ x. x.1 ≤ self.now.room + 1) }
    {
        let left = expect_beside(cursor, left, Fixed::Mark(Mark::OpenBrace))?;
        let (left, members, members_height) = self.ranges_beside(cursor, left)?;
        let (left, members) = expect_beside(
            cursor,
            (left, members),
            Fixed::Mark(Mark::CloseBrace),
        )?;
        let whole = Expr::inside(self.alloc, at, left, members)?;
        Ok((whole, height.max(members_height) + 1))
    }

    /// A connective and what stands behind it.
    #[tactic(auto, unfolding(crate::specs::ExprRules::extend))]
    fn extend(
        &self,
        cursor: &mut Cursor<'_>,
        at: u32,
        left: Expr,
        height: usize,
        connective: Connective,
    ) -> Result<(Expr, usize), ReadFault>
        requires nests { Nests self.now.room (F.pre self.now.expr) (F.post self.now.expr) }
        requires room { self.now.room + 1 < 2 ^ 64 }
        requires left { height ≤ self.now.room + 1 }
        ensures gives { Gives (height_view expr_tree) (spec.within cap self.now.room (spec.extend at (height_view expr_tree (left, height)) connective) cursor.old) result cursor.new }
        ensures low { IfOk result (λ x. x.1 ≤ self.now.room + 1) }
    {
        let (left, _) = enter_beside(cursor, left, self.room, height)?;
        match connective {
            Connective::Binary(op) => self.binary_on(cursor, at, left, height, op),
            Connective::Choice => self.choice_on(cursor, at, left, height),
            Connective::Inside => self.inside_on(cursor, at, left, height),
        }
    }

    /// All connectives of at least this level, behind an operand that begins at this token.
    #[tactic(auto, unfolding(crate::specs::ExprRules::climb))]
    pub fn climb(
        &self,
        cursor: &mut Cursor<'_>,
        at: u32,
        least: u8,
        first: Expr,
        first_height: usize,
    ) -> Result<(Expr, usize), ReadFault>
        requires nests { Nests self.now.room (F.pre self.now.expr) (F.post self.now.expr) }
        requires room { self.now.room + 1 < 2 ^ 64 }
        requires first { first_height ≤ self.now.room + 1 }
        ensures gives { Gives (height_view expr_tree) (spec.within cap self.now.room (spec.climb at least (height_view expr_tree (first, first_height))) cursor.old) result cursor.new }
        ensures low { IfOk result (λ x. x.1 ≤ self.now.room + 1) }
    {
        let mut left = first;
        let mut height = first_height;
        let mut most = level::SELECTION;
        let tokens = cursor.left();
        for _turn in 0..tokens + 1 {
            let Some(connective) = connective_of(cursor.peek()) else {
                return Ok((left, height));
            };
            if !goes_on(least, most, connective_level(connective)) {
                return Ok((left, height));
            }
            let (longer, longer_height) = self.extend(cursor, at, left, height, connective)?;
            left = longer;
            height = longer_height;
            most = least_right(connective_level(connective));
        }
        unreachable!()
    }

    /// An expression of at least this level.
    #[tactic(auto, unfolding(crate::specs::ExprRules::expr_in))]
    pub fn expr_in(&self, cursor: &mut Cursor<'_>, least: u8) -> Result<(Expr, usize), ReadFault>
        requires nests { Nests self.now.room (F.pre self.now.expr) (F.post self.now.expr) }
        requires room { self.now.room + 1 < 2 ^ 64 }
        ensures gives { Gives (height_view expr_tree) (spec.within cap self.now.room (spec.expr_in least) cursor.old) result cursor.new }
        ensures low { IfOk result (λ x. x.1 ≤ self.now.room + 1) }
    {
        let at = cursor.at();
        let (first, height) = self.prefix(cursor)?;
        self.climb(cursor, at, least, first, height)
    }
}
