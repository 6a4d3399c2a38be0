// Statements, and those that begin with a word or a mark (IEEE 1800-2017, A.6).

ghost use Rattle.std.specs.Prelude.{◌≡◌, ◌≤◌, ◌<◌, ◌+◌, ◌^◌, IfOk, if◌then◌else◌, length};
ghost use Rattle.svr_reader.specs.declared.fault.ReadFault.TheVariants.{Unexpected, TooDeep};
ghost use Rattle.svr_reader.specs.Outcomes.{lexeme_at};
ghost use Rattle.svr_reader.specs.Answers.{Gives};
ghost use Rattle.svr_reader.specs.Calls.{cap, height_view, heights_view};
ghost use Rattle.svr_reader.specs.Lists.{WithHeight, until as until_program};
ghost use Rattle.svr_reader.specs.Program.{call};
ghost use Rattle.svr_reader.specs.declared.fixed.Fixed.TheVariants as f;
ghost use Rattle.svr_token.specs.declared.Word.TheVariants as w;
ghost use Rattle.svr_tree.specs.ExprTree.{expr_tree};
ghost use Rattle.svr_tree.specs.StmtTree.{StmtTree, stmt_tree};
ghost use Rattle.svr_stmt.specs.StmtRules as spec;
ghost use Rattle.svr_stmt.specs.Parts.{Nests, closing, repeating};

use crate::held::let_go;
use crate::reader::Reader;
use sqlite_items::Items;
use std::alloc::Global;
use svr_expr::{expr, starts_path};
use svr_item::ended;
use svr_reader::{Cursor, Fixed, ReadFault, until};
use svr_token::{Lexeme, Mark, NameKind, Word};
use svr_tree::{CallForm, Expr, Stmt, level};

impl Reader {
    /// A call in parentheses, and `;`.
    #[tactic(auto, unfolding(crate::specs::StmtRules::enclosed_call))]
    fn enclosed_call(
        &self,
        cursor: &mut Cursor<'_>,
        at: u32,
        form: CallForm,
    ) -> Result<(Stmt, usize), ReadFault>
        requires room { self.now.room + 1 < 2 ^ 64 }
        ensures gives { Gives (height_view stmt_tree) (spec.within cap self.now.room (spec.enclosed_call at form) cursor.old) result cursor.new }
        ensures low { IfOk result (λ x. x.1 ≤ self.now.room + 1) }
    {
        cursor.expect(Fixed::Mark(Mark::OpenParen))?;
        let (call, height) = self.whole_call(cursor)?;
        self.closed(cursor, Stmt::call(at, form, call), height)
    }

    /// `);` behind the last part of a statement, of parts as high as `height`.
    pub(crate) fn closed(
        &self,
        cursor: &mut Cursor<'_>,
        found: Stmt,
        height: usize,
    ) -> Result<(Stmt, usize), ReadFault>
        requires room { self.now.room + 1 < 2 ^ 64 }
        requires height { height ≤ self.now.room }
        ensures gives { Gives (height_view stmt_tree) (spec.within cap self.now.room (closing (stmt_tree found) height) cursor.old) result cursor.new }
        ensures low { IfOk result (λ x. x.1 ≤ self.now.room + 1) }
    {
        let found = ended(cursor, (found, height + 1), Fixed::Mark(Mark::CloseParen))?;
        ended(cursor, found, Fixed::Mark(Mark::Semicolon))
    }

    /// `void'(call);`
    #[tactic(auto, unfolding(crate::specs::StmtRules::void_stmt))]
    fn void_stmt(&self, cursor: &mut Cursor<'_>) -> Result<(Stmt, usize), ReadFault>
        requires room { self.now.room + 1 < 2 ^ 64 }
        ensures gives { Gives (height_view stmt_tree) (spec.within cap self.now.room spec.void_stmt cursor.old) result cursor.new }
        ensures low { IfOk result (λ x. x.1 ≤ self.now.room + 1) }
    {
        let at = cursor.enter(self.room, 1)?;
        cursor.expect(Fixed::Mark(Mark::Apostrophe))?;
        self.enclosed_call(cursor, at, CallForm::Void)
    }

    /// `assert (call);`
    #[tactic(auto, unfolding(crate::specs::StmtRules::assert_stmt))]
    fn assert_stmt(&self, cursor: &mut Cursor<'_>) -> Result<(Stmt, usize), ReadFault>
        requires room { self.now.room + 1 < 2 ^ 64 }
        ensures gives { Gives (height_view stmt_tree) (spec.within cap self.now.room spec.assert_stmt cursor.old) result cursor.new }
        ensures low { IfOk result (λ x. x.1 ≤ self.now.room + 1) }
    {
        let at = cursor.enter(self.room, 1)?;
        self.enclosed_call(cursor, at, CallForm::Assert)
    }

    /// `;`
    #[tactic(auto, unfolding(crate::specs::StmtRules::empty_stmt))]
    fn empty_stmt(&self, cursor: &mut Cursor<'_>) -> Result<(Stmt, usize), ReadFault>
        requires room { self.now.room + 1 < 2 ^ 64 }
        ensures gives { Gives (height_view stmt_tree) (spec.within cap self.now.room spec.empty_stmt cursor.old) result cursor.new }
        ensures low { IfOk result (λ x. x.1 ≤ self.now.room + 1) }
    {
        let at = cursor.enter(self.room, 0)?;
        Ok((Stmt::empty(at), 1))
    }
}

/// What reads the statements within a statement, which may be as high as its other parts. The function is a parameter, so that each production is proved by itself.
#[derive(Clone, Copy)]
struct Within<F> {
    parts: Reader,
    stmt: F,
}

impl<F: Fn(Global, &mut Cursor<'_>, usize) -> Result<(Stmt, usize), ReadFault>> Within<F> {
    /// A statement one level below.
    fn part(&self, cursor: &mut Cursor<'_>) -> Result<(Stmt, usize), ReadFault>
        requires nests { Nests self.now.parts.room (F.pre self.now.stmt) (F.post self.now.stmt) }
        ensures gives { Gives (height_view stmt_tree) (spec.stmt cap self.now.parts.room cursor.old) result cursor.new }
        ensures low { IfOk result (λ x. x.1 ≤ self.now.parts.room) }
    {
        (self.stmt)(self.parts.alloc, cursor, self.parts.room)
    }

    /// Statements up to `end`, which is taken.
    fn stmts(&self, cursor: &mut Cursor<'_>) -> Result<(Items<Stmt>, usize), ReadFault>
        requires nests { Nests self.now.parts.room (F.pre self.now.stmt) (F.post self.now.stmt) }
        ensures gives { Gives (heights_view stmt_tree) (spec.within cap self.now.parts.room (until_program (f.Word w.End) (call spec.a_stmt)) cursor.old) result cursor.new }
        ensures low { IfOk result (λ x. x.1 ≤ self.now.parts.room) }
    {
        until(
            self.parts.alloc,
            cursor,
            Fixed::Word(Word::End),
            |cursor| self.part(cursor),
        )
    }

    /// `begin stmts end`
    #[tactic(auto, unfolding(crate::specs::StmtRules::block_stmt))]
    fn block_stmt(&self, cursor: &mut Cursor<'_>) -> Result<(Stmt, usize), ReadFault>
        requires nests { Nests self.now.parts.room (F.pre self.now.stmt) (F.post self.now.stmt) }
        requires room { self.now.parts.room + 1 < 2 ^ 64 }
        ensures gives { Gives (height_view stmt_tree) (spec.within cap self.now.parts.room spec.block_stmt cursor.old) result cursor.new }
        ensures low { IfOk result (λ x. x.1 ≤ self.now.parts.room + 1) }
    {
        let at = cursor.enter(self.parts.room, 0)?;
        let (stmts, height) = self.stmts(cursor)?;
        Ok((Stmt::block(at, stmts), height + 1))
    }

    /// `repeat (count) body`
    #[tactic(auto, unfolding(crate::specs::StmtRules::repeat_stmt))]
    fn repeat_stmt(&self, cursor: &mut Cursor<'_>) -> Result<(Stmt, usize), ReadFault>
        requires nests { Nests self.now.parts.room (F.pre self.now.stmt) (F.post self.now.stmt) }
        requires room { self.now.parts.room + 1 < 2 ^ 64 }
        ensures gives { Gives (height_view stmt_tree) (spec.within cap self.now.parts.room spec.repeat_stmt cursor.old) result cursor.new }
        ensures low { IfOk result (λ x. x.1 ≤ self.now.parts.room + 1) }
    {
        let at = cursor.enter(self.parts.room, 1)?;
        cursor.expect(Fixed::Mark(Mark::OpenParen))?;
        let (count, height) = expr(
            self.parts.alloc,
            cursor,
            self.parts.room,
            level::IMPLICATION,
        )?;
        let count = ended(cursor, count, Fixed::Mark(Mark::CloseParen))?;
        self.repeat_on(cursor, at, count, height)
    }

    /// What is repeated, behind the count, which is as high as `height`.
    fn repeat_on(
        &self,
        cursor: &mut Cursor<'_>,
        at: u32,
        count: Expr,
        height: usize,
    ) -> Result<(Stmt, usize), ReadFault>
        requires nests { Nests self.now.parts.room (F.pre self.now.stmt) (F.post self.now.stmt) }
        requires room { self.now.parts.room + 1 < 2 ^ 64 }
        requires height { height ≤ self.now.parts.room }
        ensures gives { Gives (height_view stmt_tree) (spec.within cap self.now.parts.room (repeating at (expr_tree count) height) cursor.old) result cursor.new }
        ensures low { IfOk result (λ x. x.1 ≤ self.now.parts.room + 1) }
    {
        match self.part(cursor) {
            Ok((body, body_height)) => {
                let whole = Stmt::repeat(self.parts.alloc, at, count, body)?;
                Ok((whole, height.max(body_height) + 1))
            }
            Err(fault) => Err(let_go(count, fault)),
        }
    }

    /// A statement over these parts.
    #[tactic(auto, unfolding(crate::specs::StmtRules::stmt_in))]
    fn stmt_in(&self, cursor: &mut Cursor<'_>) -> Result<(Stmt, usize), ReadFault>
        requires nests { Nests self.now.parts.room (F.pre self.now.stmt) (F.post self.now.stmt) }
        requires room { self.now.parts.room + 1 < 2 ^ 64 }
        ensures gives { Gives (height_view stmt_tree) (spec.within cap self.now.parts.room spec.stmt_in cursor.old) result cursor.new }
        ensures low { IfOk result (λ x. x.1 ≤ self.now.parts.room + 1) }
    {
        match cursor.peek() {
            Some(Lexeme::Mark(Mark::Semicolon)) => self.parts.empty_stmt(cursor),
            Some(Lexeme::Word(Word::Begin)) => self.block_stmt(cursor),
            Some(Lexeme::Word(Word::Repeat)) => self.repeat_stmt(cursor),
            Some(Lexeme::Word(Word::Void)) => self.parts.void_stmt(cursor),
            Some(Lexeme::Word(Word::Assert)) => self.parts.assert_stmt(cursor),
            _ => self.parts.path_stmt(cursor),
        }
    }
}

/// Whether a statement begins with the token.
fn starts_stmt(lexeme: Option<Lexeme>) -> bool
    ensures { result ≡ spec.stmt_starts lexeme }
{
    match lexeme {
        Some(Lexeme::Mark(Mark::Semicolon)) => true,
        Some(Lexeme::Word(Word::Begin)) => true,
        Some(Lexeme::Word(Word::Repeat)) => true,
        Some(Lexeme::Word(Word::Void)) => true,
        Some(Lexeme::Word(Word::Assert)) => true,
        other => starts_path(other),
    }
}

/// The fault where there is no room for a statement.
fn no_stmt(cursor: &Cursor<'_>) -> ReadFault
    ensures { result ≡ (if spec.stmt_starts (lexeme_at cursor.now) then TooDeep (length cursor.now) else Unexpected (length cursor.now)) }
{
    if starts_stmt(cursor.peek()) {
        cursor.too_deep()
    } else {
        cursor.refuse()
    }
}

/// A statement of a height up to `room` (IEEE 1800-2017, A.6.4), and its height.
///
/// Errors: `Unexpected` at a token that goes on with no statement, `TooDeep` at one that goes on with higher ones only.
pub fn stmt(alloc: Global, cursor: &mut Cursor<'_>, room: usize) -> Result<(Stmt, usize), ReadFault>
    ensures gives { Gives (height_view stmt_tree) (spec.stmt cap room cursor.old) result cursor.new }
    ensures low { IfOk result (λ x. x.1 ≤ room) }
{
    if room == 0 {
        return Err(no_stmt(cursor));
    }
    let parts = Reader {
        alloc,
        room: room - 1,
    };
    Within { parts, stmt }.stmt_in(cursor)
}

/// A statement of a height up to `room` whose first token, the first name of a plain path, was taken already: the number of the name and its kind. With its height. There is room for a path.
///
/// Errors: as those of `stmt`.
#[tactic(auto, unfolding(crate::specs::StmtRules::stmt_on))]
pub fn stmt_on(
    alloc: Global,
    cursor: &mut Cursor<'_>,
    room: usize,
    first: u32,
    first_kind: NameKind,
) -> Result<(Stmt, usize), ReadFault>
    requires room { 2 ≤ room }
    ensures gives { Gives (height_view stmt_tree) (spec.stmt_on cap room (first, first_kind) cursor.old) result cursor.new }
    ensures low { IfOk result (λ x. x.1 ≤ room) }
{
    let parts = Reader {
        alloc,
        room: room - 1,
    };
    parts.stmt_from(cursor, first, first_kind)
}
