// Types and classes.

ghost use Rattle.std.specs.Prelude.{◌+◌, ◌^◌, ◌<◌};
ghost use Rattle.svr_reader.specs.Answers.{Gives};
ghost use Rattle.svr_reader.specs.Calls.{cap, height_view};
ghost use Rattle.svr_reader.specs.Lists.{WithHeight};
ghost use Rattle.svr_parse.specs.ScriptRules as rules;
ghost use Rattle.svr_parse.specs.Found.{tops_tree, top_turn};

use crate::reader::Reader;
use sqlite_items::Items;
use svr_decl::{class, typedef};
use svr_reader::{Cursor, ReadFault};
use svr_token::{Lexeme, Word};
use svr_tree::{ClassDecl, Top, TypeDecl};

/// Types and classes, and the order in which they stand.
#[derive(Drop)]
pub(crate) struct Tops {
    pub types: Items<TypeDecl>,
    pub classes: Items<ClassDecl>,
    pub order: Items<Top>,
}

/// What comes next, with the greatest height in it.
#[derive(Drop)]
pub(crate) enum FoundTop {
    Type(TypeDecl, usize),
    Class(ClassDecl, usize),
    /// Neither, so the module or program.
    Unit,
}

impl Reader {
    // The next type or class.
    fn top(&self, cursor: &mut Cursor<'_>) -> Result<FoundTop, ReadFault>
        requires { self.now.room + 1 < 2 ^ 64 }
        ensures { (s : WithHeight rules.Tops) → Gives (top_turn s) (rules.within cap self.now.room (rules.top_step s) cursor.old) result cursor.new }
    {
        match cursor.peek() {
            Some(Lexeme::Word(Word::TypeDef)) => {
                let (found, height) = typedef(self.alloc, cursor, self.room)?;
                Ok(FoundTop::Type(found, height))
            }
            Some(Lexeme::Word(Word::Class)) => {
                let (found, height) = class(self.alloc, cursor, self.room)?;
                Ok(FoundTop::Class(found, height))
            }
            _ => Ok(FoundTop::Unit),
        }
    }

    /// All types and classes before the module or program, and the greatest height in them.
    #[tactic(auto, unfolding(crate::specs::ScriptRules::tops))]
    pub fn tops(&self, cursor: &mut Cursor<'_>) -> Result<(Tops, usize), ReadFault>
        requires { self.now.room + 1 < 2 ^ 64 }
        ensures { Gives (height_view tops_tree) (rules.within cap self.now.room rules.tops cursor.old) result cursor.new }
    {
        let mut types = Items::new(self.alloc);
        let mut classes = Items::new(self.alloc);
        let mut order = Items::new(self.alloc);
        let mut highest = 0usize;
        let left = cursor.left();
        for _turn in 0..left + 1 {
            match self.top(cursor)? {
                FoundTop::Type(found, height) => {
                    types.push(found)?;
                    order.push(Top::OfType)?;
                    highest = highest.max(height);
                }
                FoundTop::Class(found, height) => {
                    classes.push(found)?;
                    order.push(Top::OfClass)?;
                    highest = highest.max(height);
                }
                FoundTop::Unit => {
                    let found = Tops {
                        types,
                        classes,
                        order,
                    };
                    return Ok((found, highest));
                }
            }
        }
        unreachable!()
    }
}
