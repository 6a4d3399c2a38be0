// Type declarations.

ghost use Rattle.std.specs.Prelude.{◌≤◌, IfOk, option_map};
ghost use Rattle.svr_tree.specs.ExprTree.{expr_tree};
ghost use Rattle.svr_tree.specs.DeclTree.{integer_tree, member_tree, definition_tree, type_decl_tree};
ghost use Rattle.svr_reader.specs.Lists as lists;
ghost use Rattle.svr_reader.specs.Answers.{Gives};
ghost use Rattle.svr_reader.specs.Calls.{cap, height_view, heights_view};
ghost use Rattle.svr_decl.specs.DeclRules as rules;

use crate::held::let_go;
use crate::reader::Reader;
use crate::types::starts_type;
use sqlite_items::Items;
use std::alloc::Global;
use svr_item::{ended, named};
use svr_reader::{Cursor, Fixed, ReadFault, listing};
use svr_token::{Mark, Word};
use svr_tree::{EnumDecl, Expr, IntegerType, MemberDecl, TypeDecl, TypeDefinition};

/// A type declaration, and the greatest height of an expression in it (IEEE 1800-2017, A.2.1.3). No expression is higher than `room`.
///
/// # Errors
///
/// The first token that can't stand there, or that begins an expression for which there is no room.
#[tactic(auto, unfolding(crate::specs::DeclRules::typedef))]
pub fn typedef(
    alloc: Global,
    cursor: &mut Cursor<'_>,
    room: usize,
) -> Result<(TypeDecl, usize), ReadFault>
    ensures gives { Gives (height_view type_decl_tree) (rules.typedef cap room cursor.old) result cursor.new }
    ensures low { IfOk result (λ x. x.1 ≤ room) }
{
    Reader { alloc, room }.typedef(cursor)
}

impl Reader {
    /// `[= value]`
    #[tactic(auto, unfolding(crate::specs::DeclRules::initial))]
    pub fn initial(&self, cursor: &mut Cursor<'_>) -> Result<(Option<Expr>, usize), ReadFault>
        ensures gives { Gives (height_view (option_map expr_tree)) (rules.within cap self.now.room rules.initial cursor.old) result cursor.new }
        ensures low { IfOk result (λ x. x.1 ≤ self.now.room) }
    {
        if cursor.eat(Fixed::Mark(Mark::Assign)) {
            let (value, height) = self.expression(cursor)?;
            Ok((Some(value), height))
        } else {
            Ok((None, 0))
        }
    }

    #[tactic(auto, unfolding(crate::specs::DeclRules::member))]
    fn member(&self, cursor: &mut Cursor<'_>) -> Result<(MemberDecl, usize), ReadFault>
        ensures gives { Gives (height_view member_tree) (rules.within cap self.now.room rules.member cursor.old) result cursor.new }
        ensures low { IfOk result (λ x. x.1 ≤ self.now.room) }
    {
        let name = cursor.name()?;
        let (value, height) = self.initial(cursor)?;
        Ok((MemberDecl { name, value }, height))
    }

    fn members(&self, cursor: &mut Cursor<'_>) -> Result<(Items<MemberDecl>, usize), ReadFault>
        ensures gives { Gives (heights_view member_tree) (rules.within cap self.now.room (lists.listing rules.member) cursor.old) result cursor.new }
        ensures low { IfOk result (λ x. x.1 ≤ self.now.room) }
    {
        listing(self.alloc, cursor, |cursor| self.member(cursor))
    }

    #[tactic(auto, unfolding(crate::specs::DeclRules::enum_base, crate::specs::DeclRules::written_base))]
    fn enum_base(&self, cursor: &mut Cursor<'_>) -> Result<(Option<IntegerType>, usize), ReadFault>
        ensures gives { Gives (height_view (option_map integer_tree)) (rules.within cap self.now.room rules.enum_base cursor.old) result cursor.new }
        ensures low { IfOk result (λ x. x.1 ≤ self.now.room) }
    {
        if starts_type(cursor.peek()) {
            let (base, height) = self.integer_type(cursor)?;
            Ok((Some(base), height))
        } else {
            Ok((None, 0))
        }
    }

    // Behind `enum`.
    #[tactic(auto, unfolding(crate::specs::DeclRules::enum_on))]
    fn enum_on(&self, cursor: &mut Cursor<'_>) -> Result<(TypeDefinition, usize), ReadFault>
        ensures gives { Gives (height_view definition_tree) (rules.within cap self.now.room rules.enum_on cursor.old) result cursor.new }
        ensures low { IfOk result (λ x. x.1 ≤ self.now.room) }
    {
        let (base, base_height) = self.enum_base(cursor)?;
        let base = ended(cursor, base, Fixed::Mark(Mark::OpenBrace))?;
        match self.members(cursor) {
            Ok((members, members_height)) => {
                let found = TypeDefinition::Enum(EnumDecl { base, members });
                let found = (found, base_height.max(members_height));
                ended(cursor, found, Fixed::Mark(Mark::CloseBrace))
            }
            Err(fault) => Err(let_go(base, fault)),
        }
    }

    #[tactic(auto, unfolding(crate::specs::DeclRules::definition, crate::specs::DeclRules::plain_definition))]
    fn definition(&self, cursor: &mut Cursor<'_>) -> Result<(TypeDefinition, usize), ReadFault>
        ensures gives { Gives (height_view definition_tree) (rules.within cap self.now.room rules.definition cursor.old) result cursor.new }
        ensures low { IfOk result (λ x. x.1 ≤ self.now.room) }
    {
        if cursor.eat(Fixed::Word(Word::Enum)) {
            self.enum_on(cursor)
        } else {
            let (found, height) = self.integer_type(cursor)?;
            Ok((TypeDefinition::Integer(found), height))
        }
    }

    #[tactic(auto, unfolding(crate::specs::DeclRules::typedef_in))]
    fn typedef(&self, cursor: &mut Cursor<'_>) -> Result<(TypeDecl, usize), ReadFault>
        ensures gives { Gives (height_view type_decl_tree) (rules.within cap self.now.room rules.typedef_in cursor.old) result cursor.new }
        ensures low { IfOk result (λ x. x.1 ≤ self.now.room) }
    {
        cursor.expect(Fixed::Word(Word::TypeDef))?;
        let (definition, height) = self.definition(cursor)?;
        let (definition, name) = named(cursor, definition)?;
        let found = (TypeDecl { definition, name }, height);
        ended(cursor, found, Fixed::Mark(Mark::Semicolon))
    }
}
