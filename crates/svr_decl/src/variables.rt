// Variables.

ghost use Rattle.std.specs.Prelude.{◌≤◌, IfOk, option_map};
ghost use Rattle.svr_tree.specs.DeclTree.{type_tree, var_init_tree, var_declarator_tree, var_tree};
ghost use Rattle.svr_reader.specs.Lists as lists;
ghost use Rattle.svr_reader.specs.Answers.{Gives};
ghost use Rattle.svr_reader.specs.Calls.{cap, height_view, heights_view};
ghost use Rattle.svr_decl.specs.DeclRules as rules;

use crate::held::let_go;
use crate::reader::Reader;
use sqlite_items::Items;
use std::alloc::Global;
use svr_item::ended;
use svr_reader::{Cursor, Fixed, ReadFault, listing};
use svr_token::{Mark, Word};
use svr_tree::{DataType, VarDecl, VarDeclarator, VarInit};

/// Variables of one type, and the greatest height of an expression in their declaration (IEEE 1800-2017, A.2.1.3: `data_declaration`). No expression is higher than `room`.
///
/// # Errors
///
/// The first token that can't stand there, or that begins an expression for which there is no room.
#[tactic(auto, unfolding(crate::specs::DeclRules::var))]
pub fn var(
    alloc: Global,
    cursor: &mut Cursor<'_>,
    room: usize,
) -> Result<(VarDecl, usize), ReadFault>
    ensures gives { Gives (height_view var_tree) (rules.var cap room cursor.old) result cursor.new }
    ensures low { IfOk result (λ x. x.1 ≤ room) }
{
    Reader { alloc, room }.var(cursor)
}

/// The same where the type is a name that was read before, the token `name`.
///
/// # Errors
///
/// Those of [`var`].
#[tactic(auto, unfolding(crate::specs::DeclRules::var_on))]
pub fn var_on(
    alloc: Global,
    cursor: &mut Cursor<'_>,
    room: usize,
    name: u32,
) -> Result<(VarDecl, usize), ReadFault>
    ensures gives { Gives (height_view var_tree) (rules.var_on cap room name cursor.old) result cursor.new }
    ensures low { IfOk result (λ x. x.1 ≤ room) }
{
    Reader { alloc, room }.vars_on(cursor, DataType::Named(name), 0)
}

impl Reader {
    // `[= value]`, `[= new]` or `[= new()]`
    #[tactic(auto, unfolding(crate::specs::DeclRules::var_initial, crate::specs::DeclRules::var_value))]
    fn var_initial(&self, cursor: &mut Cursor<'_>) -> Result<(Option<VarInit>, usize), ReadFault>
        ensures gives { Gives (height_view (option_map var_init_tree)) (rules.within cap self.now.room rules.var_initial cursor.old) result cursor.new }
        ensures low { IfOk result (λ x. x.1 ≤ self.now.room) }
    {
        if !cursor.eat(Fixed::Mark(Mark::Assign)) {
            return Ok((None, 0));
        }
        if cursor.eat(Fixed::Word(Word::New)) {
            let parens = self.parens(cursor)?;
            Ok((Some(VarInit::New { parens }), 0))
        } else {
            let (value, height) = self.expression(cursor)?;
            Ok((Some(VarInit::Value(value)), height))
        }
    }

    #[tactic(auto, unfolding(crate::specs::DeclRules::var_declarator))]
    fn var_declarator(&self, cursor: &mut Cursor<'_>) -> Result<(VarDeclarator, usize), ReadFault>
        ensures gives { Gives (height_view var_declarator_tree) (rules.within cap self.now.room rules.var_declarator cursor.old) result cursor.new }
        ensures low { IfOk result (λ x. x.1 ≤ self.now.room) }
    {
        let name = cursor.name()?;
        let (init, height) = self.var_initial(cursor)?;
        Ok((VarDeclarator { name, init }, height))
    }

    fn var_declarators(
        &self,
        cursor: &mut Cursor<'_>,
    ) -> Result<(Items<VarDeclarator>, usize), ReadFault>
        ensures gives { Gives (heights_view var_declarator_tree) (rules.within cap self.now.room (lists.listing rules.var_declarator) cursor.old) result cursor.new }
        ensures low { IfOk result (λ x. x.1 ≤ self.now.room) }
    {
        listing(self.alloc, cursor, |cursor| self.var_declarator(cursor))
    }

    // Behind the type.
    #[tactic(auto, unfolding(crate::specs::DeclRules::vars_on))]
    fn vars_on(
        &self,
        cursor: &mut Cursor<'_>,
        kind: DataType,
        kind_height: usize,
    ) -> Result<(VarDecl, usize), ReadFault>
        requires { kind_height ≤ self.now.room }
        ensures gives { Gives (height_view var_tree) (rules.within cap self.now.room (rules.vars_on (height_view type_tree (kind, kind_height))) cursor.old) result cursor.new }
        ensures low { IfOk result (λ x. x.1 ≤ self.now.room) }
    {
        match self.var_declarators(cursor) {
            Ok((vars, vars_height)) => {
                let found = (VarDecl { kind, vars }, kind_height.max(vars_height));
                ended(cursor, found, Fixed::Mark(Mark::Semicolon))
            }
            Err(fault) => Err(let_go(kind, fault)),
        }
    }

    #[tactic(auto, unfolding(crate::specs::DeclRules::var_in))]
    fn var(&self, cursor: &mut Cursor<'_>) -> Result<(VarDecl, usize), ReadFault>
        ensures gives { Gives (height_view var_tree) (rules.within cap self.now.room rules.var_in cursor.old) result cursor.new }
        ensures low { IfOk result (λ x. x.1 ≤ self.now.room) }
    {
        let (kind, height) = self.data_type(cursor)?;
        self.vars_on(cursor, kind, height)
    }
}
