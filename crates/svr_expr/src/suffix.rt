// What stands behind a path: selects and parentheses (IEEE 1800-2017, A.8.4 and A.8.2).

ghost use Rattle.std.specs.Prelude.{◌≡◌, ◌≤◌, ◌<◌, ◌+◌, ◌^◌, IfOk};
ghost use Rattle.svr_tree.specs.ExprTree.{expr_tree};
ghost use Rattle.svr_reader.specs.Answers.{Gives, plainly};
ghost use Rattle.svr_reader.specs.Calls.{cap, height_view};
ghost use Rattle.svr_reader.specs.Program.{loop};
ghost use Rattle.svr_expr.specs.ExprRules as spec;
ghost use Rattle.svr_expr.specs.Parts.{Nests, bit_of, last_of};

use crate::beside::{enter_beside, expect_beside, take_beside};
use crate::names::any_path;
use crate::reader::Reader;
use std::alloc::Global;
use svr_reader::{Cursor, Fixed, ReadFault};
use svr_token::{Lexeme, Mark};
use svr_tree::{Expr, level};

/// A path, and its height.
#[tactic(auto, unfolding(crate::specs::ExprRules::path_in))]
pub(crate) fn path_in(alloc: Global, cursor: &mut Cursor<'_>) -> Result<(Expr, usize), ReadFault>
    ensures gives { Gives (height_view expr_tree) (plainly spec.path_in cursor.old) result cursor.new }
    ensures low { IfOk result (λ x. x.1 ≤ 1) }
{
    let (found, _) = any_path(alloc, cursor)?;
    Ok((found, 1))
}

/// A path or a select with `()` behind it; any other expression as it is.
pub fn with_parens(expr: Expr) -> Expr
    ensures { expr_tree result ≡ spec.with_parens (expr_tree expr) }
{
    match expr {
        Expr::Path {
            at,
            scope,
            names,
            ..
        } => Expr::path(at, scope, names, true),
        Expr::Select {
            at,
            base,
            first,
            last,
            ..
        } => Expr::Select {
            at,
            base,
            first,
            last,
            call: true,
        },
        other => other,
    }
}

impl<F: Fn(Global, &mut Cursor<'_>, usize, u8) -> Result<(Expr, usize), ReadFault>> Reader<F> {
    /// `()`, behind what can be called.
    #[tactic(auto, unfolding(crate::specs::ExprRules::parens_on))]
    fn parens_on(
        &self,
        cursor: &mut Cursor<'_>,
        base: Expr,
        height: usize,
    ) -> Result<(Expr, usize), ReadFault>
        ensures gives { Gives (height_view expr_tree) (spec.within cap self.now.room (spec.parens_on (height_view expr_tree (base, height))) cursor.old) result cursor.new }
        ensures low { IfOk result (λ x. x.1 ≡ height) }
    {
        let (base, _) = take_beside(cursor, base)?;
        let base = expect_beside(cursor, base, Fixed::Mark(Mark::CloseParen))?;
        Ok((with_parens(base), height))
    }

    /// The end of a select of one bit, behind its index. The base and the index are as high as `height`.
    fn bit_select_on(
        &self,
        cursor: &mut Cursor<'_>,
        at: u32,
        base: Expr,
        index: Expr,
        height: usize,
    ) -> Result<(Expr, usize), ReadFault>
        requires room { self.now.room + 1 < 2 ^ 64 }
        requires height { height ≤ self.now.room }
        ensures gives { Gives (height_view expr_tree) (spec.within cap self.now.room (bit_of at (expr_tree base) (expr_tree index) height) cursor.old) result cursor.new }
        ensures low { IfOk result (λ x. x.1 ≤ self.now.room + 1) }
    {
        let (base, index) = expect_beside(cursor, (base, index), Fixed::Mark(Mark::CloseBracket))?;
        let whole = Expr::bit_select(self.alloc, at, base, index, false)?;
        Ok((whole, height + 1))
    }

    /// An index, behind a path and its indices.
    #[tactic(auto, unfolding(crate::specs::ExprRules::index_on))]
    fn index_on(
        &self,
        cursor: &mut Cursor<'_>,
        at: u32,
        base: Expr,
        height: usize,
    ) -> Result<(Expr, usize), ReadFault>
        requires nests { Nests self.now.room (F.pre self.now.expr) (F.post self.now.expr) }
        requires room { self.now.room + 1 < 2 ^ 64 }
        requires base { height ≤ self.now.room + 1 }
        ensures gives { Gives (height_view expr_tree) (spec.within cap self.now.room (spec.index_on at (height_view expr_tree (base, height))) cursor.old) result cursor.new }
        ensures low { IfOk result (λ x. x.1 ≤ self.now.room + 1) }
    {
        let (base, _) = enter_beside(cursor, base, self.room, height)?;
        let (base, index, index_height) = self.part_beside(cursor, base, level::IMPLICATION)?;
        self.bit_select_on(cursor, at, base, index, height.max(index_height))
    }

    /// The indices behind a path that begins at this token.
    pub fn indices_on(
        &self,
        cursor: &mut Cursor<'_>,
        at: u32,
        first: Expr,
        first_height: usize,
    ) -> Result<(Expr, usize), ReadFault>
        requires nests { Nests self.now.room (F.pre self.now.expr) (F.post self.now.expr) }
        requires room { self.now.room + 1 < 2 ^ 64 }
        requires first { first_height ≤ self.now.room + 1 }
        ensures gives { Gives (height_view expr_tree) (spec.within cap self.now.room (loop (spec.member_step at) (height_view expr_tree (first, first_height))) cursor.old) result cursor.new }
        ensures low { IfOk result (λ x. x.1 ≤ self.now.room + 1) }
    {
        let mut base = first;
        let mut height = first_height;
        let left = cursor.left();
        for _turn in 0..left + 1 {
            if !cursor.sees(Fixed::Mark(Mark::OpenBracket)) {
                return Ok((base, height));
            }
            let (longer, longer_height) = self.index_on(cursor, at, base, height)?;
            base = longer;
            height = longer_height;
        }
        unreachable!()
    }

    /// A path and its indices.
    #[tactic(auto, using(crate::proofs::Anywhere::path_in_same), unfolding(crate::specs::ExprRules::member_in))]
    pub fn member_in(&self, cursor: &mut Cursor<'_>) -> Result<(Expr, usize), ReadFault>
        requires nests { Nests self.now.room (F.pre self.now.expr) (F.post self.now.expr) }
        requires room { self.now.room + 1 < 2 ^ 64 }
        ensures gives { Gives (height_view expr_tree) (spec.within cap self.now.room spec.member_in cursor.old) result cursor.new }
        ensures low { IfOk result (λ x. x.1 ≤ self.now.room + 1) }
    {
        let at = cursor.at();
        let (base, height) = path_in(self.alloc, cursor)?;
        self.indices_on(cursor, at, base, height)
    }

    /// The last bound of a part-select, behind the colon. The base and the first bound are as high as `height`.
    fn part_select_on(
        &self,
        cursor: &mut Cursor<'_>,
        at: u32,
        base: Expr,
        first: Expr,
        height: usize,
    ) -> Result<(Expr, usize), ReadFault>
        requires nests { Nests self.now.room (F.pre self.now.expr) (F.post self.now.expr) }
        requires room { self.now.room + 1 < 2 ^ 64 }
        requires height { height ≤ self.now.room }
        ensures gives { Gives (height_view expr_tree) (spec.within cap self.now.room (last_of at (expr_tree base) (expr_tree first) height) cursor.old) result cursor.new }
        ensures low { IfOk result (λ x. x.1 ≤ self.now.room + 1) }
    {
        let ((base, first), last, last_height) = self.part_beside(
            cursor,
            (base, first),
            level::IMPLICATION,
        )?;
        let (base, first, last) = expect_beside(
            cursor,
            (base, first, last),
            Fixed::Mark(Mark::CloseBracket),
        )?;
        let whole = Expr::part_select(self.alloc, at, base, first, last, false)?;
        Ok((whole, height.max(last_height) + 1))
    }

    /// A select of one bit or of a part, behind what it is taken of.
    #[tactic(auto, unfolding(crate::specs::ExprRules::select_on))]
    fn select_on(
        &self,
        cursor: &mut Cursor<'_>,
        at: u32,
        base: Expr,
        height: usize,
    ) -> Result<(Expr, usize), ReadFault>
        requires nests { Nests self.now.room (F.pre self.now.expr) (F.post self.now.expr) }
        requires room { self.now.room + 1 < 2 ^ 64 }
        requires base { height ≤ self.now.room + 1 }
        ensures gives { Gives (height_view expr_tree) (spec.within cap self.now.room (spec.select_on at (height_view expr_tree (base, height))) cursor.old) result cursor.new }
        ensures low { IfOk result (λ x. x.1 ≤ self.now.room + 1) }
    {
        let (base, _) = enter_beside(cursor, base, self.room, height)?;
        let (base, first, first_height) = self.part_beside(cursor, base, level::IMPLICATION)?;
        let height = height.max(first_height);
        if cursor.eat(Fixed::Mark(Mark::Colon)) {
            self.part_select_on(cursor, at, base, first, height)
        } else {
            self.bit_select_on(cursor, at, base, first, height)
        }
    }

    /// The selects behind a path that begins at this token, and then `()`.
    #[tactic(auto, unfolding(crate::specs::ExprRules::with_suffixes))]
    pub fn with_suffixes(
        &self,
        cursor: &mut Cursor<'_>,
        at: u32,
        first: Expr,
        first_height: usize,
    ) -> Result<(Expr, usize), ReadFault>
        requires nests { Nests self.now.room (F.pre self.now.expr) (F.post self.now.expr) }
        requires room { self.now.room + 1 < 2 ^ 64 }
        requires first { first_height ≤ self.now.room + 1 }
        ensures gives { Gives (height_view expr_tree) (spec.within cap self.now.room (spec.with_suffixes at (height_view expr_tree (first, first_height))) cursor.old) result cursor.new }
        ensures low { IfOk result (λ x. x.1 ≤ self.now.room + 1) }
    {
        let mut base = first;
        let mut height = first_height;
        let left = cursor.left();
        for _turn in 0..left + 1 {
            match cursor.peek() {
                Some(Lexeme::Mark(Mark::OpenBracket)) => {
                    let (longer, longer_height) = self.select_on(cursor, at, base, height)?;
                    base = longer;
                    height = longer_height;
                }
                Some(Lexeme::Mark(Mark::OpenParen)) => return self.parens_on(cursor, base, height),
                _ => return Ok((base, height)),
            }
        }
        unreachable!()
    }
}
