// Classes.

ghost use Rattle.std.specs.Prelude.{◌≤◌, IfOk};
ghost use Rattle.svr_token.specs.declared.Word.TheVariants as w;
ghost use Rattle.svr_reader.specs.declared.fixed.Fixed.TheVariants as f;
ghost use Rattle.svr_tree.specs.DeclTree.{block_tree, class_item_tree, class_tree};
ghost use Rattle.svr_reader.specs.Lists as lists;
ghost use Rattle.svr_reader.specs.Answers.{Gives};
ghost use Rattle.svr_reader.specs.Calls.{cap, height_view, heights_view};
ghost use Rattle.svr_decl.specs.DeclRules as rules;

use crate::held::let_go;
use crate::reader::Reader;
use sqlite_items::Items;
use std::alloc::Global;
use svr_item::block_items;
use svr_reader::{Cursor, Fixed, ReadFault, until};
use svr_token::{Mark, Word};
use svr_tree::{ClassDecl, ClassItem, ConstraintBlock};

/// A class, and the greatest height of an expression or of an item of a block in it (IEEE 1800-2017, A.1.2: `class_declaration`). None is higher than `room`.
///
/// # Errors
///
/// The first token that can't stand there, or that begins an expression or an item for which there is no room.
#[tactic(auto, unfolding(crate::specs::DeclRules::class))]
pub fn class(
    alloc: Global,
    cursor: &mut Cursor<'_>,
    room: usize,
) -> Result<(ClassDecl, usize), ReadFault>
    ensures gives { Gives (height_view class_tree) (rules.class cap room cursor.old) result cursor.new }
    ensures low { IfOk result (λ x. x.1 ≤ room) }
{
    Reader { alloc, room }.class(cursor)
}

impl Reader {
    // Behind `constraint`.
    #[tactic(auto, unfolding(crate::specs::DeclRules::block_on))]
    fn block_on(&self, cursor: &mut Cursor<'_>) -> Result<(ConstraintBlock, usize), ReadFault>
        ensures gives { Gives (height_view block_tree) (rules.within cap self.now.room rules.block_on cursor.old) result cursor.new }
        ensures low { IfOk result (λ x. x.1 ≤ self.now.room) }
    {
        let name = cursor.name()?;
        cursor.expect(Fixed::Mark(Mark::OpenBrace))?;
        let (items, height) = block_items(self.alloc, cursor, self.room)?;
        Ok((ConstraintBlock { name, items }, height))
    }

    #[tactic(auto, unfolding(crate::specs::DeclRules::class_item))]
    fn class_item(&self, cursor: &mut Cursor<'_>) -> Result<(ClassItem, usize), ReadFault>
        ensures gives { Gives (height_view class_item_tree) (rules.within cap self.now.room rules.class_item cursor.old) result cursor.new }
        ensures low { IfOk result (λ x. x.1 ≤ self.now.room) }
    {
        if cursor.eat(Fixed::Word(Word::Constraint)) {
            let (block, height) = self.block_on(cursor)?;
            Ok((ClassItem::Constraint(block), height))
        } else {
            let (property, height) = self.property(cursor)?;
            Ok((ClassItem::Property(property), height))
        }
    }

    // With `endclass`.
    fn class_items(&self, cursor: &mut Cursor<'_>) -> Result<(Items<ClassItem>, usize), ReadFault>
        ensures gives { Gives (heights_view class_item_tree) (rules.within cap self.now.room (lists.until (f.Word w.EndClass) rules.class_item) cursor.old) result cursor.new }
        ensures low { IfOk result (λ x. x.1 ≤ self.now.room) }
    {
        until(self.alloc, cursor, Fixed::Word(Word::EndClass), |cursor| {
            self.class_item(cursor)
        })
    }

    #[tactic(auto, unfolding(crate::specs::DeclRules::class_in))]
    fn class(&self, cursor: &mut Cursor<'_>) -> Result<(ClassDecl, usize), ReadFault>
        ensures gives { Gives (height_view class_tree) (rules.within cap self.now.room rules.class_in cursor.old) result cursor.new }
        ensures low { IfOk result (λ x. x.1 ≤ self.now.room) }
    {
        cursor.expect(Fixed::Word(Word::Class))?;
        let name = cursor.name()?;
        let base = self.name_behind(cursor, Fixed::Word(Word::Extends))?;
        cursor.expect(Fixed::Mark(Mark::Semicolon))?;
        let (items, height) = self.class_items(cursor)?;
        match self.name_behind(cursor, Fixed::Mark(Mark::Colon)) {
            Ok(label) => {
                let found = ClassDecl {
                    name,
                    base,
                    items,
                    label,
                };
                Ok((found, height))
            }
            Err(fault) => Err(let_go(items, fault)),
        }
    }
}
