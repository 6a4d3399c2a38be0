// The variables and statements of an initial block (IEEE 1800-2017, A.6.2 and A.6.3).

ghost use Rattle.std.specs.Prelude.{List, ◌+◌, ◌^◌, ◌<◌, ◌≤◌};
ghost use Rattle.svr_tree.specs.DeclTree.{VarTree};
ghost use Rattle.svr_tree.specs.StmtTree.{stmt_tree};
ghost use Rattle.svr_reader.specs.Answers.{Gives};
ghost use Rattle.svr_reader.specs.Calls.{cap, heights_view};
ghost use Rattle.svr_reader.specs.Lists.{WithHeight};
ghost use Rattle.svr_parse.specs.ScriptRules as rules;
ghost use Rattle.svr_parse.specs.Found.{inner_of, inner_turn};

use crate::reader::Reader;
use sqlite_items::Items;
use svr_decl::{starts_type, var, var_on};
use svr_reader::{Cursor, Fixed, ReadFault, until_on};
use svr_stmt::{stmt, stmt_on};
use svr_token::{Lexeme, NameKind, Word};
use svr_tree::{Stmt, VarDecl};

/// The variables of a block, and its first statement where that begins with a name, with the greatest heights in them.
#[derive(Drop)]
pub(crate) struct Declared {
    pub vars: Items<VarDecl>,
    pub vars_height: usize,
    pub stmts: Items<Stmt>,
    pub stmts_height: usize,
}

/// What comes next, with the greatest height in it.
#[derive(Drop)]
pub(crate) enum Found {
    Var(VarDecl, usize),
    /// A statement that begins with a name.
    Stmt(Stmt, usize),
    /// Another statement, or `end`.
    Nothing,
}

impl Reader {
    // Behind a name: a second name belongs to a variable, anything else to a statement.
    fn named(&self, cursor: &mut Cursor<'_>, name: u32, kind: NameKind) -> Result<Found, ReadFault>
        requires path { 2 ≤ self.now.room }
        requires room { self.now.room + 1 < 2 ^ 64 }
        ensures { (s : WithHeight (List VarTree)) → Gives (inner_turn s) (rules.within cap self.now.room (rules.named_step s (name, kind)) cursor.old) result cursor.new }
    {
        match cursor.peek() {
            Some(Lexeme::Name(_)) => {
                let (found, height) = var_on(self.alloc, cursor, self.room, name)?;
                Ok(Found::Var(found, height))
            }
            _ => {
                let (found, height) = stmt_on(self.alloc, cursor, self.room, name, kind)?;
                Ok(Found::Stmt(found, height))
            }
        }
    }

    // The next variable, or a statement where that begins with a name.
    fn declared(&self, cursor: &mut Cursor<'_>) -> Result<Found, ReadFault>
        requires path { 2 ≤ self.now.room }
        requires room { self.now.room + 1 < 2 ^ 64 }
        ensures { (s : WithHeight (List VarTree)) → Gives (inner_turn s) (rules.within cap self.now.room (rules.inner_step s) cursor.old) result cursor.new }
    {
        match cursor.peek() {
            Some(Lexeme::Name(_)) => {
                let (name, kind) = cursor.known_name()?;
                self.named(cursor, name, kind)
            }
            lexeme => {
                if !starts_type(lexeme) {
                    return Ok(Found::Nothing);
                }
                let (found, height) = var(self.alloc, cursor, self.room)?;
                Ok(Found::Var(found, height))
            }
        }
    }

    /// The variables, and a first statement that begins with a name.
    #[tactic(auto, unfolding(crate::specs::ScriptRules::inner))]
    pub fn inner(&self, cursor: &mut Cursor<'_>) -> Result<Declared, ReadFault>
        requires path { 2 ≤ self.now.room }
        requires room { self.now.room + 1 < 2 ^ 64 }
        ensures { Gives inner_of (rules.within cap self.now.room rules.inner cursor.old) result cursor.new }
    {
        let mut vars = Items::new(self.alloc);
        let mut vars_height = 0usize;
        let left = cursor.left();
        for _turn in 0..left + 1 {
            match self.declared(cursor)? {
                Found::Var(found, height) => {
                    vars.push(found)?;
                    vars_height = vars_height.max(height);
                }
                Found::Stmt(found, stmts_height) => {
                    let mut stmts = Items::new(self.alloc);
                    stmts.push(found)?;
                    return Ok(Declared {
                        vars,
                        vars_height,
                        stmts,
                        stmts_height,
                    });
                }
                Found::Nothing => {
                    return Ok(Declared {
                        vars,
                        vars_height,
                        stmts: Items::new(self.alloc),
                        stmts_height: 0,
                    });
                }
            }
        }
        unreachable!()
    }

    /// The other statements, and `end`, behind first ones that were read before.
    #[tactic(auto, unfolding(crate::specs::ScriptRules::stmts_on))]
    pub fn stmts(
        &self,
        cursor: &mut Cursor<'_>,
        first: Items<Stmt>,
        first_height: usize,
    ) -> Result<(Items<Stmt>, usize), ReadFault>
        requires path { 2 ≤ self.now.room }
        requires room { self.now.room + 1 < 2 ^ 64 }
        ensures { Gives (heights_view stmt_tree) (rules.within cap self.now.room (rules.stmts_on (heights_view stmt_tree (first, first_height))) cursor.old) result cursor.new }
    {
        until_on(
            cursor,
            first,
            first_height,
            Fixed::Word(Word::End),
            |cursor| stmt(self.alloc, cursor, self.room),
        )
    }
}
