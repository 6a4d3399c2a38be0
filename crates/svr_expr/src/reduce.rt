// Array reductions (IEEE 1800-2017, A.8.2 and 7.12.3).

ghost use Rattle.std.specs.Prelude.{◌≡◌, ◌≤◌, ◌<◌, ◌+◌, ◌^◌, IfOk};
ghost use Rattle.svr_tree.specs.ExprTree.{expr_tree};
ghost use Rattle.svr_reader.specs.Answers.{Gives};
ghost use Rattle.svr_reader.specs.Calls.{cap, height_view};
ghost use Rattle.svr_reader.specs.Program.{bind, peek};
ghost use Rattle.svr_expr.specs.ExprRules as spec;
ghost use Rattle.svr_expr.specs.Parts.{Nests, kind_view};

use crate::beside::{enter_beside, expect_beside, take_beside};
use crate::names::any_path;
use crate::reader::Reader;
use crate::suffix::with_parens;
use sqlite_items::Items;
use std::alloc::Global;
use svr_operator::Fold;
use svr_reader::{Cursor, Fixed, ReadFault};
use svr_token::{Lexeme, Mark, NameKind, Word};
use svr_tree::{Expr, IteratorArgument, level};

fn fold_of(kind: NameKind) -> Option<Fold>
    ensures { result ≡ spec.fold_of kind }
{
    match kind {
        NameKind::Sum => Some(Fold::Sum),
        NameKind::Product => Some(Fold::Product),
        NameKind::And => Some(Fold::And),
        NameKind::Or => Some(Fold::Or),
        NameKind::Xor => Some(Fold::Xor),
        NameKind::Plain | NameKind::Randomize | NameKind::RandMode | NameKind::ConstraintMode =>
            None,
    }
}

/// The reduction that a path of two names or more ends with, whose last name is of this kind.
fn path_fold(path: &Expr, kind: NameKind) -> Option<Fold>
    ensures { result ≡ spec.path_fold (expr_tree path.now, kind) }
{
    match path {
        Expr::Path { names, .. } if names.len() > 1 => fold_of(kind),
        _ => None,
    }
}

fn all_but_last(names: Items<u32>) -> Items<u32>
    ensures { result ≡ spec.all_but_last names }
{
    let mut rest = names;
    rest.pop();
    rest
}

/// A path without its last name; any other expression as it is.
pub fn owner(path: Expr) -> Expr
    ensures { expr_tree result ≡ spec.owner (expr_tree path) }
{
    match path {
        Expr::Path {
            at,
            scope,
            names,
            call,
        } => Expr::path(at, scope, all_but_last(names), call),
        other => other,
    }
}

impl<F: Fn(Global, &mut Cursor<'_>, usize, u8) -> Result<(Expr, usize), ReadFault>> Reader<F> {
    /// The body in its parentheses, behind `with`.
    fn body_in_parens(
        &self,
        cursor: &mut Cursor<'_>,
        at: u32,
        array: Expr,
        op: Fold,
        item: IteratorArgument,
    ) -> Result<(Expr, usize), ReadFault>
        requires nests { Nests self.now.room (F.pre self.now.expr) (F.post self.now.expr) }
        requires fits { 1 ≤ self.now.room }
        requires room { self.now.room + 1 < 2 ^ 64 }
        ensures gives { Gives (height_view expr_tree) (spec.within cap self.now.room (spec.body_in_parens at (expr_tree array) op item) cursor.old) result cursor.new }
        ensures low { IfOk result (λ x. x.1 ≤ self.now.room + 1) }
    {
        let array = expect_beside(cursor, array, Fixed::Mark(Mark::OpenParen))?;
        let (array, body, height) = self.part_beside(cursor, array, level::IMPLICATION)?;
        let (array, body) = expect_beside(cursor, (array, body), Fixed::Mark(Mark::CloseParen))?;
        let whole = Expr::reduce(self.alloc, at, array, op, item, body)?;
        Ok((whole, 1usize.max(height) + 1))
    }

    /// `with` and a body, behind the name of a reduction and its parentheses.
    #[tactic(auto, unfolding(crate::specs::ExprRules::body_on))]
    fn body_on(
        &self,
        cursor: &mut Cursor<'_>,
        at: u32,
        array: Expr,
        op: Fold,
        item: IteratorArgument,
    ) -> Result<(Expr, usize), ReadFault>
        requires nests { Nests self.now.room (F.pre self.now.expr) (F.post self.now.expr) }
        requires room { self.now.room + 1 < 2 ^ 64 }
        ensures gives { Gives (height_view expr_tree) (spec.within cap self.now.room (spec.body_on at (expr_tree array) op item) cursor.old) result cursor.new }
        ensures low { IfOk result (λ x. x.1 ≤ self.now.room + 1) }
    {
        let (array, _) = enter_beside(cursor, array, self.room, 1)?;
        self.body_in_parens(cursor, at, array, op, item)
    }

    /// The name of an element, behind `(`, and what has to follow it.
    #[tactic(auto, unfolding(crate::specs::ExprRules::argument_on))]
    fn argument_on(
        &self,
        cursor: &mut Cursor<'_>,
        at: u32,
        path: Expr,
        op: Fold,
    ) -> Result<(Expr, usize), ReadFault>
        requires nests { Nests self.now.room (F.pre self.now.expr) (F.post self.now.expr) }
        requires room { self.now.room + 1 < 2 ^ 64 }
        ensures gives { Gives (height_view expr_tree) (spec.within cap self.now.room (spec.argument_on at (expr_tree path) op) cursor.old) result cursor.new }
        ensures low { IfOk result (λ x. x.1 ≤ self.now.room + 1) }
    {
        let (path, name) = enter_beside(cursor, path, self.room, 1)?;
        let path = expect_beside(cursor, path, Fixed::Mark(Mark::CloseParen))?;
        let path = expect_beside(cursor, path, Fixed::Word(Word::With))?;
        self.body_in_parens(cursor, at, owner(path), op, IteratorArgument::Named(name))
    }

    /// What stands behind `()`: a body, or nothing that belongs to the path.
    fn behind_parens(
        &self,
        cursor: &mut Cursor<'_>,
        at: u32,
        path: Expr,
        op: Fold,
    ) -> Result<(Expr, usize), ReadFault>
        requires nests { Nests self.now.room (F.pre self.now.expr) (F.post self.now.expr) }
        requires room { self.now.room + 1 < 2 ^ 64 }
        ensures gives { Gives (height_view expr_tree) (spec.within cap self.now.room (bind peek (spec.called_by at (expr_tree path) op)) cursor.old) result cursor.new }
        ensures low { IfOk result (λ x. x.1 ≤ self.now.room + 1) }
    {
        match cursor.peek() {
            Some(Lexeme::Word(Word::With)) => {
                self.body_on(cursor, at, owner(path), op, IteratorArgument::Empty)
            }
            _ => Ok((with_parens(path), 1)),
        }
    }

    /// What stands behind `(`: the name of an element, or none.
    fn behind_paren(
        &self,
        cursor: &mut Cursor<'_>,
        at: u32,
        path: Expr,
        op: Fold,
    ) -> Result<(Expr, usize), ReadFault>
        requires nests { Nests self.now.room (F.pre self.now.expr) (F.post self.now.expr) }
        requires room { self.now.room + 1 < 2 ^ 64 }
        ensures gives { Gives (height_view expr_tree) (spec.within cap self.now.room (bind peek (spec.argument_by at (expr_tree path) op)) cursor.old) result cursor.new }
        ensures low { IfOk result (λ x. x.1 ≤ self.now.room + 1) }
    {
        match cursor.peek() {
            Some(Lexeme::Name(_)) => self.argument_on(cursor, at, path, op),
            _ => {
                let path = expect_beside(cursor, path, Fixed::Mark(Mark::CloseParen))?;
                self.behind_parens(cursor, at, path, op)
            }
        }
    }

    /// What stands behind a path that ends with the name of a reduction.
    fn behind_fold(
        &self,
        cursor: &mut Cursor<'_>,
        at: u32,
        path: Expr,
        op: Fold,
    ) -> Result<(Expr, usize), ReadFault>
        requires nests { Nests self.now.room (F.pre self.now.expr) (F.post self.now.expr) }
        requires room { self.now.room + 1 < 2 ^ 64 }
        ensures gives { Gives (height_view expr_tree) (spec.within cap self.now.room (bind peek (spec.fold_by at (expr_tree path) op)) cursor.old) result cursor.new }
        ensures low { IfOk result (λ x. x.1 ≤ self.now.room + 1) }
    {
        match cursor.peek() {
            Some(Lexeme::Word(Word::With)) => {
                self.body_on(cursor, at, owner(path), op, IteratorArgument::Absent)
            }
            Some(Lexeme::Mark(Mark::OpenParen)) => {
                let (path, _) = take_beside(cursor, path)?;
                self.behind_paren(cursor, at, path, op)
            }
            _ => self.with_suffixes(cursor, at, path, 1),
        }
    }

    /// What stands behind a path that begins at this token and whose last name is of this kind.
    #[tactic(auto, unfolding(crate::specs::ExprRules::path_rest))]
    pub fn path_rest(
        &self,
        cursor: &mut Cursor<'_>,
        at: u32,
        path: Expr,
        kind: NameKind,
    ) -> Result<(Expr, usize), ReadFault>
        requires nests { Nests self.now.room (F.pre self.now.expr) (F.post self.now.expr) }
        requires room { self.now.room + 1 < 2 ^ 64 }
        ensures gives { Gives (height_view expr_tree) (spec.within cap self.now.room (spec.path_rest at (kind_view (path, kind))) cursor.old) result cursor.new }
        ensures low { IfOk result (λ x. x.1 ≤ self.now.room + 1) }
    {
        match path_fold(&path, kind) {
            Some(op) => self.behind_fold(cursor, at, path, op),
            None => self.with_suffixes(cursor, at, path, 1),
        }
    }

    /// A path and what stands behind it.
    #[tactic(auto, unfolding(crate::specs::ExprRules::path_expr))]
    pub fn path_expr(&self, cursor: &mut Cursor<'_>) -> Result<(Expr, usize), ReadFault>
        requires nests { Nests self.now.room (F.pre self.now.expr) (F.post self.now.expr) }
        requires room { self.now.room + 1 < 2 ^ 64 }
        ensures gives { Gives (height_view expr_tree) (spec.within cap self.now.room spec.path_expr cursor.old) result cursor.new }
        ensures low { IfOk result (λ x. x.1 ≤ self.now.room + 1) }
    {
        let at = cursor.at();
        let (path, kind) = any_path(self.alloc, cursor)?;
        self.path_rest(cursor, at, path, kind)
    }
}
