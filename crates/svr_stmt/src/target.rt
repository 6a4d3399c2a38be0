// Statements that begin with a path (IEEE 1800-2017, A.6.2, A.6.4, 18.8 and 18.9).

ghost use Rattle.std.specs.Prelude.{◌≤◌, ◌<◌, ◌+◌, ◌^◌, IfOk};
ghost use Rattle.svr_reader.specs.Answers.{Gives};
ghost use Rattle.svr_reader.specs.Calls.{cap, height_view};
ghost use Rattle.svr_tree.specs.ExprTree.{expr_tree};
ghost use Rattle.svr_tree.specs.StmtTree.{stmt_tree};
ghost use Rattle.svr_stmt.specs.StmtRules as spec;

use crate::held::let_go;
use crate::method::{Method, path_method};
use crate::reader::Reader;
use svr_expr::{expr, member_on, owner};
use svr_item::ended;
use svr_reader::{Cursor, Fixed, ReadFault};
use svr_token::{Mark, NameKind};
use svr_tree::{CallForm, Expr, ModeCall, ModeKind, Stmt, level};

impl Reader {
    /// The indices of a target, and the value that it gets.
    #[tactic(auto, unfolding(crate::specs::StmtRules::assign_on))]
    fn assign_on(
        &self,
        cursor: &mut Cursor<'_>,
        at: u32,
        path: Expr,
    ) -> Result<(Stmt, usize), ReadFault>
        requires path { 1 ≤ self.now.room }
        requires room { self.now.room + 1 < 2 ^ 64 }
        ensures gives { Gives (height_view stmt_tree) (spec.within cap self.now.room (spec.assign_on at (expr_tree path)) cursor.old) result cursor.new }
        ensures low { IfOk result (λ x. x.1 ≤ self.now.room + 1) }
    {
        let (target, height) = member_on(self.alloc, cursor, self.room, at, path, 1)?;
        let target = ended(cursor, target, Fixed::Mark(Mark::Assign))?;
        match self.right_in(cursor) {
            Ok((value, value_height)) => {
                let height = height.max(value_height) + 1;
                let found = (Stmt::assign(at, target, value), height);
                ended(cursor, found, Fixed::Mark(Mark::Semicolon))
            }
            Err(fault) => Err(let_go(target, fault)),
        }
    }

    /// The rest of a call behind `(`.
    #[tactic(auto, unfolding(crate::specs::StmtRules::call_on))]
    fn call_on(
        &self,
        cursor: &mut Cursor<'_>,
        at: u32,
        path: Expr,
    ) -> Result<(Stmt, usize), ReadFault>
        requires path { 1 ≤ self.now.room }
        requires room { self.now.room + 1 < 2 ^ 64 }
        ensures gives { Gives (height_view stmt_tree) (spec.within cap self.now.room (spec.call_on at (expr_tree path)) cursor.old) result cursor.new }
        ensures low { IfOk result (λ x. x.1 ≤ self.now.room + 1) }
    {
        let (call, height) = self.randomize_on(cursor, path)?;
        let found = (Stmt::call(at, CallForm::Plain, call), height + 1);
        ended(cursor, found, Fixed::Mark(Mark::Semicolon))
    }

    /// The rest of a mode behind `(`.
    #[tactic(auto, unfolding(crate::specs::StmtRules::mode_on))]
    fn mode_on(
        &self,
        cursor: &mut Cursor<'_>,
        at: u32,
        path: Expr,
        kind: ModeKind,
    ) -> Result<(Stmt, usize), ReadFault>
        requires path { 1 ≤ self.now.room }
        requires room { self.now.room + 1 < 2 ^ 64 }
        ensures gives { Gives (height_view stmt_tree) (spec.within cap self.now.room (spec.mode_on at (expr_tree path) kind) cursor.old) result cursor.new }
        ensures low { IfOk result (λ x. x.1 ≤ self.now.room + 1) }
    {
        match expr(self.alloc, cursor, self.room, level::IMPLICATION) {
            Ok((on, height)) => {
                let path = owner(path);
                let found = Stmt::mode(at, ModeCall { path, kind, on });
                self.closed(cursor, found, height.max(1))
            }
            Err(fault) => Err(let_go(path, fault)),
        }
    }

    /// What stands behind the path that a statement begins with.
    #[tactic(auto, unfolding(crate::specs::StmtRules::behind_target))]
    fn behind_target(
        &self,
        cursor: &mut Cursor<'_>,
        at: u32,
        path: Expr,
        kind: NameKind,
    ) -> Result<(Stmt, usize), ReadFault>
        requires path { 1 ≤ self.now.room }
        requires room { self.now.room + 1 < 2 ^ 64 }
        ensures gives { Gives (height_view stmt_tree) (spec.within cap self.now.room (spec.behind_target at (expr_tree path, kind)) cursor.old) result cursor.new }
        ensures low { IfOk result (λ x. x.1 ≤ self.now.room + 1) }
    {
        match path_method(&path, kind) {
            Some(method) if cursor.eat(Fixed::Mark(Mark::OpenParen)) => match method {
                Method::Randomize => self.call_on(cursor, at, path),
                Method::Mode(mode) => self.mode_on(cursor, at, path, mode),
            },
            _ => self.assign_on(cursor, at, path),
        }
    }

    /// A statement that begins with a path.
    #[tactic(auto, unfolding(crate::specs::StmtRules::path_stmt))]
    pub(crate) fn path_stmt(&self, cursor: &mut Cursor<'_>) -> Result<(Stmt, usize), ReadFault>
        requires room { self.now.room + 1 < 2 ^ 64 }
        ensures gives { Gives (height_view stmt_tree) (spec.within cap self.now.room spec.path_stmt cursor.old) result cursor.new }
        ensures low { IfOk result (λ x. x.1 ≤ self.now.room + 1) }
    {
        let at = cursor.at();
        let (path, kind) = self.path_here(cursor)?;
        self.behind_target(cursor, at, path, kind)
    }

    /// The same where the first name, of this number and kind, was taken.
    #[tactic(auto, unfolding(crate::specs::StmtRules::stmt_from))]
    pub(crate) fn stmt_from(
        &self,
        cursor: &mut Cursor<'_>,
        first: u32,
        first_kind: NameKind,
    ) -> Result<(Stmt, usize), ReadFault>
        requires path { 1 ≤ self.now.room }
        requires room { self.now.room + 1 < 2 ^ 64 }
        ensures gives { Gives (height_view stmt_tree) (spec.within cap self.now.room (spec.stmt_from (first, first_kind)) cursor.old) result cursor.new }
        ensures low { IfOk result (λ x. x.1 ≤ self.now.room + 1) }
    {
        let (path, kind) = self.path_behind(cursor, first, first_kind)?;
        self.behind_target(cursor, first, path, kind)
    }
}
