// Primaries and unary operators (IEEE 1800-2017, A.8.1, A.8.4 and A.8.6).

ghost use Rattle.std.specs.Prelude.{◌≡◌, ◌≤◌, ◌<◌, ◌+◌, ◌^◌, IfOk};
ghost use Rattle.svr_tree.specs.ExprTree.{expr_tree};
ghost use Rattle.svr_reader.specs.Answers.{Gives};
ghost use Rattle.svr_reader.specs.Calls.{cap, height_view, heights_view};
ghost use Rattle.svr_expr.specs.ExprRules as spec;
ghost use Rattle.svr_expr.specs.Parts.{Nests};

use crate::beside::expect_beside;
use crate::connective::unary_of;
use crate::reader::Reader;
use sqlite_items::Items;
use std::alloc::Global;
use svr_operator::UnOp;
use svr_reader::{Cursor, Fixed, ReadFault};
use svr_token::{Lexeme, Mark, SystemName, Word};
use svr_tree::{Expr, level};

impl<F: Fn(Global, &mut Cursor<'_>, usize, u8) -> Result<(Expr, usize), ReadFault>> Reader<F> {
    /// A literal of this value, width and sign.
    #[tactic(auto, unfolding(crate::specs::ExprRules::literal))]
    fn literal(
        &self,
        cursor: &mut Cursor<'_>,
        value: u64,
        width: u8,
        signed: bool,
    ) -> Result<(Expr, usize), ReadFault>
        ensures gives { Gives (height_view expr_tree) (spec.within cap self.now.room (spec.literal value width signed) cursor.old) result cursor.new }
        ensures low { IfOk result (λ x. x.1 ≤ 1) }
    {
        let at = cursor.take()?;
        Ok((Expr::number(at, value, width, signed), 1))
    }

    /// An expression in parentheses.
    #[tactic(auto, unfolding(crate::specs::ExprRules::paren_expr))]
    fn paren_expr(&self, cursor: &mut Cursor<'_>) -> Result<(Expr, usize), ReadFault>
        requires nests { Nests self.now.room (F.pre self.now.expr) (F.post self.now.expr) }
        requires room { self.now.room + 1 < 2 ^ 64 }
        ensures gives { Gives (height_view expr_tree) (spec.within cap self.now.room spec.paren_expr cursor.old) result cursor.new }
        ensures low { IfOk result (λ x. x.1 ≤ self.now.room + 1) }
    {
        let at = cursor.enter(self.room, 1)?;
        let (arg, height) = self.part(cursor, level::IMPLICATION)?;
        let arg = expect_beside(cursor, arg, Fixed::Mark(Mark::CloseParen))?;
        Ok((Expr::paren(self.alloc, at, arg)?, height + 1))
    }

    /// `$signed(..)` or `$unsigned(..)`.
    #[tactic(auto, unfolding(crate::specs::ExprRules::sign_expr))]
    fn sign_expr(
        &self,
        cursor: &mut Cursor<'_>,
        function: SystemName,
    ) -> Result<(Expr, usize), ReadFault>
        requires nests { Nests self.now.room (F.pre self.now.expr) (F.post self.now.expr) }
        requires room { self.now.room + 1 < 2 ^ 64 }
        ensures gives { Gives (height_view expr_tree) (spec.within cap self.now.room (spec.sign_expr function) cursor.old) result cursor.new }
        ensures low { IfOk result (λ x. x.1 ≤ self.now.room + 1) }
    {
        let at = cursor.enter(self.room, 1)?;
        cursor.expect(Fixed::Mark(Mark::OpenParen))?;
        let (arg, height) = self.part(cursor, level::IMPLICATION)?;
        let arg = expect_beside(cursor, arg, Fixed::Mark(Mark::CloseParen))?;
        let signed = is_signed(function);
        Ok((Expr::sign(self.alloc, at, signed, arg)?, height + 1))
    }

    /// The parts that are copied, behind their number.
    #[tactic(auto, unfolding(crate::specs::ExprRules::copies_on))]
    fn copies_on(
        &self,
        cursor: &mut Cursor<'_>,
        at: u32,
        count: Expr,
        count_height: usize,
    ) -> Result<(Expr, usize), ReadFault>
        requires nests { Nests self.now.room (F.pre self.now.expr) (F.post self.now.expr) }
        requires room { self.now.room + 1 < 2 ^ 64 }
        requires count { count_height ≤ self.now.room }
        ensures gives { Gives (height_view expr_tree) (spec.within cap self.now.room (spec.copies_on at (height_view expr_tree (count, count_height))) cursor.old) result cursor.new }
        ensures low { IfOk result (λ x. x.1 ≤ self.now.room + 1) }
    {
        let (count, parts, height) = self.exprs_beside(cursor, count)?;
        let (count, parts) = expect_beside(cursor, (count, parts), Fixed::Mark(Mark::CloseBrace))?;
        let (count, parts) = expect_beside(cursor, (count, parts), Fixed::Mark(Mark::CloseBrace))?;
        let whole = Expr::copies(self.alloc, at, count, parts)?;
        Ok((whole, count_height.max(height) + 1))
    }

    /// The end of a concatenation of these parts.
    #[tactic(auto, unfolding(crate::specs::ExprRules::join_on))]
    fn join_on(
        &self,
        cursor: &mut Cursor<'_>,
        at: u32,
        parts: Items<Expr>,
        height: usize,
    ) -> Result<(Expr, usize), ReadFault>
        requires room { self.now.room + 1 < 2 ^ 64 }
        requires parts { height ≤ self.now.room }
        ensures gives { Gives (height_view expr_tree) (spec.within cap self.now.room (spec.join_on at (heights_view expr_tree (parts, height))) cursor.old) result cursor.new }
        ensures low { IfOk result (λ x. x.1 ≤ self.now.room + 1) }
    {
        let parts = expect_beside(cursor, parts, Fixed::Mark(Mark::CloseBrace))?;
        Ok((Expr::join(at, parts), height + 1))
    }

    /// A concatenation or a replication.
    #[tactic(auto, unfolding(crate::specs::ExprRules::brace_expr))]
    fn brace_expr(&self, cursor: &mut Cursor<'_>) -> Result<(Expr, usize), ReadFault>
        requires nests { Nests self.now.room (F.pre self.now.expr) (F.post self.now.expr) }
        requires room { self.now.room + 1 < 2 ^ 64 }
        ensures gives { Gives (height_view expr_tree) (spec.within cap self.now.room spec.brace_expr cursor.old) result cursor.new }
        ensures low { IfOk result (λ x. x.1 ≤ self.now.room + 1) }
    {
        let at = cursor.enter(self.room, 1)?;
        let (first, height) = self.part(cursor, level::IMPLICATION)?;
        if cursor.eat(Fixed::Mark(Mark::OpenBrace)) {
            return self.copies_on(cursor, at, first, height);
        }
        let mut parts = Items::new(self.alloc);
        parts.push(first)?;
        if cursor.eat(Fixed::Mark(Mark::Comma)) {
            let (more, all_height) = self.exprs_on(cursor, parts, height)?;
            self.join_on(cursor, at, more, all_height)
        } else {
            self.join_on(cursor, at, parts, height)
        }
    }

    /// A unary operator and its operand.
    #[tactic(auto, unfolding(crate::specs::ExprRules::unary_expr))]
    fn unary_expr(&self, cursor: &mut Cursor<'_>, op: UnOp) -> Result<(Expr, usize), ReadFault>
        requires nests { Nests self.now.room (F.pre self.now.expr) (F.post self.now.expr) }
        requires room { self.now.room + 1 < 2 ^ 64 }
        ensures gives { Gives (height_view expr_tree) (spec.within cap self.now.room (spec.unary_expr op) cursor.old) result cursor.new }
        ensures low { IfOk result (λ x. x.1 ≤ self.now.room + 1) }
    {
        let at = cursor.enter(self.room, 1)?;
        let (arg, height) = self.part(cursor, level::UNARY)?;
        Ok((Expr::unary(self.alloc, at, op, arg)?, height + 1))
    }

    /// An operand: what an expression begins with.
    #[tactic(auto, unfolding(crate::specs::ExprRules::prefix))]
    pub fn prefix(&self, cursor: &mut Cursor<'_>) -> Result<(Expr, usize), ReadFault>
        requires nests { Nests self.now.room (F.pre self.now.expr) (F.post self.now.expr) }
        requires room { self.now.room + 1 < 2 ^ 64 }
        ensures gives { Gives (height_view expr_tree) (spec.within cap self.now.room spec.prefix cursor.old) result cursor.new }
        ensures low { IfOk result (λ x. x.1 ≤ self.now.room + 1) }
    {
        match cursor.peek() {
            Some(
                Lexeme::Literal {
                    value,
                    width,
                    signed,
                },
            ) => self.literal(cursor, value, width, signed),
            Some(Lexeme::Name(_)) => self.path_expr(cursor),
            Some(Lexeme::Word(Word::Local)) => self.path_expr(cursor),
            Some(Lexeme::Word(Word::This)) => self.path_expr(cursor),
            Some(Lexeme::System(function)) => self.sign_expr(cursor, function),
            Some(Lexeme::Mark(Mark::OpenParen)) => self.paren_expr(cursor),
            Some(Lexeme::Mark(Mark::OpenBrace)) => self.brace_expr(cursor),
            Some(Lexeme::Mark(mark)) => match unary_of(mark) {
                Some(op) => self.unary_expr(cursor, op),
                None => Err(cursor.refuse()),
            },
            _ => Err(cursor.refuse()),
        }
    }
}

fn is_signed(function: SystemName) -> bool
    ensures { result ≡ spec.is_signed function }
{
    match function {
        SystemName::Signed => true,
        SystemName::Unsigned => false,
    }
}
