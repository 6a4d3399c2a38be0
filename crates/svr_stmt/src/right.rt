// Right sides of assignments (IEEE 1800-2017, A.6.2).

ghost use Rattle.std.specs.Prelude.{◌≤◌, IfOk};
ghost use Rattle.svr_reader.specs.Answers.{Gives};
ghost use Rattle.svr_reader.specs.Calls.{cap, height_view};
ghost use Rattle.svr_tree.specs.ExprTree.{expr_tree};
ghost use Rattle.svr_tree.specs.StmtTree.{right_tree};
ghost use Rattle.svr_stmt.specs.StmtRules as spec;

use crate::method::{Method, path_method};
use crate::reader::Reader;
use sqlite_items::Items;
use svr_expr::{
    connective_of, expr, exprs, rest_of_operand, rest_of_path, starts_path, with_parens,
};
use svr_item::ended;
use svr_reader::{Cursor, Fixed, ReadFault};
use svr_token::{Lexeme, Mark, Word};
use svr_tree::{Expr, RandomizeArgs, RightSide, level};

impl Reader {
    /// `new`, with parentheses or a count behind it
    #[tactic(auto, unfolding(crate::specs::StmtRules::new_right))]
    fn new_right(&self, cursor: &mut Cursor<'_>) -> Result<(RightSide, usize), ReadFault>
        ensures gives { Gives (height_view right_tree) (spec.within cap self.now.room spec.new_right cursor.old) result cursor.new }
        ensures low { IfOk result (λ x. x.1 ≤ self.now.room) }
    {
        cursor.take()?;
        match cursor.peek() {
            Some(Lexeme::Mark(Mark::OpenParen)) => {
                cursor.take()?;
                let found = (RightSide::New { parens: true }, 0);
                ended(cursor, found, Fixed::Mark(Mark::CloseParen))
            }
            Some(Lexeme::Mark(Mark::OpenBracket)) => {
                cursor.take()?;
                let (count, height) = expr(self.alloc, cursor, self.room, level::IMPLICATION)?;
                let found = (RightSide::NewArray(count), height);
                ended(cursor, found, Fixed::Mark(Mark::CloseBracket))
            }
            _ => Ok((RightSide::New { parens: false }, 0)),
        }
    }

    /// `'{ values }`
    #[tactic(auto, unfolding(crate::specs::StmtRules::pattern_right))]
    fn pattern_right(&self, cursor: &mut Cursor<'_>) -> Result<(RightSide, usize), ReadFault>
        ensures gives { Gives (height_view right_tree) (spec.within cap self.now.room spec.pattern_right cursor.old) result cursor.new }
        ensures low { IfOk result (λ x. x.1 ≤ self.now.room) }
    {
        let at = cursor.take()?;
        if cursor.eat(Fixed::Mark(Mark::CloseBrace)) {
            let values = Items::new(self.alloc);
            return Ok((RightSide::Pattern { at, values }, 0));
        }
        let (values, height) = exprs(self.alloc, cursor, self.room)?;
        let found = (RightSide::Pattern { at, values }, height);
        ended(cursor, found, Fixed::Mark(Mark::CloseBrace))
    }

    /// What stands behind `path.randomize()`.
    #[tactic(auto, unfolding(crate::specs::StmtRules::behind_parens, crate::specs::StmtRules::answer_right, crate::specs::StmtRules::value_right))]
    fn behind_parens(
        &self,
        cursor: &mut Cursor<'_>,
        at: u32,
        path: Expr,
    ) -> Result<(RightSide, usize), ReadFault>
        requires path { 1 ≤ self.now.room }
        ensures gives { Gives (height_view right_tree) (spec.within cap self.now.room (spec.behind_parens at (expr_tree path)) cursor.old) result cursor.new }
        ensures low { IfOk result (λ x. x.1 ≤ self.now.room) }
    {
        match connective_of(cursor.peek()) {
            None => {
                let (call, height) = self.randomize_end(cursor, path, RandomizeArgs::Empty)?;
                Ok((RightSide::Call(call), height))
            }
            Some(_) => {
                let first = with_parens(path);
                let (value, height) = rest_of_operand(self.alloc, cursor, self.room, at, first, 1)?;
                Ok((RightSide::Value(value), height))
            }
        }
    }

    /// What stands behind `path.randomize(`.
    #[tactic(auto, unfolding(crate::specs::StmtRules::behind_open, crate::specs::StmtRules::answer_right))]
    fn behind_open(
        &self,
        cursor: &mut Cursor<'_>,
        at: u32,
        path: Expr,
    ) -> Result<(RightSide, usize), ReadFault>
        requires path { 1 ≤ self.now.room }
        ensures gives { Gives (height_view right_tree) (spec.within cap self.now.room (spec.behind_open at (expr_tree path)) cursor.old) result cursor.new }
        ensures low { IfOk result (λ x. x.1 ≤ self.now.room) }
    {
        if cursor.eat(Fixed::Mark(Mark::CloseParen)) {
            self.behind_parens(cursor, at, path)
        } else {
            let (call, height) = self.randomize_given(cursor, path)?;
            Ok((RightSide::Call(call), height))
        }
    }

    /// A right side that begins with a path.
    #[tactic(auto, unfolding(crate::specs::StmtRules::path_right, crate::specs::StmtRules::behind_path, crate::specs::StmtRules::value_right))]
    fn path_right(&self, cursor: &mut Cursor<'_>) -> Result<(RightSide, usize), ReadFault>
        ensures gives { Gives (height_view right_tree) (spec.within cap self.now.room spec.path_right cursor.old) result cursor.new }
        ensures low { IfOk result (λ x. x.1 ≤ self.now.room) }
    {
        let at = cursor.at();
        let (path, kind) = self.path_here(cursor)?;
        match path_method(&path, kind) {
            Some(Method::Randomize) if cursor.eat(Fixed::Mark(Mark::OpenParen)) => {
                self.behind_open(cursor, at, path)
            }
            _ => {
                let (value, height) = rest_of_path(self.alloc, cursor, self.room, at, path, kind)?;
                Ok((RightSide::Value(value), height))
            }
        }
    }

    /// A right side.
    #[tactic(auto, unfolding(crate::specs::StmtRules::right_in, crate::specs::StmtRules::value_right))]
    pub(crate) fn right_in(&self, cursor: &mut Cursor<'_>) -> Result<(RightSide, usize), ReadFault>
        ensures gives { Gives (height_view right_tree) (spec.within cap self.now.room spec.right_in cursor.old) result cursor.new }
        ensures low { IfOk result (λ x. x.1 ≤ self.now.room) }
    {
        match cursor.peek() {
            Some(Lexeme::Word(Word::New)) => self.new_right(cursor),
            Some(Lexeme::Mark(Mark::OpenPattern)) => self.pattern_right(cursor),
            next if starts_path(next) => self.path_right(cursor),
            _ => {
                let (value, height) = expr(self.alloc, cursor, self.room, level::IMPLICATION)?;
                Ok((RightSide::Value(value), height))
            }
        }
    }
}
