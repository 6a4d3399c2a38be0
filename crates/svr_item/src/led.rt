// Items that a word leads (IEEE 1800-2017, A.1.10).

ghost use Rattle.std.specs.Prelude.{◌≡◌, ◌≤◌, ◌<◌, ◌+◌, ◌^◌, IfOk};
ghost use Rattle.svr_reader.specs.Answers.{Gives};
ghost use Rattle.svr_reader.specs.Calls.{cap, height_view, heights_view};
ghost use Rattle.svr_reader.specs.Program.{call};
ghost use Rattle.svr_reader.specs.Lists as lists;
ghost use Rattle.svr_tree.specs.ExprTree.{expr_tree};
ghost use Rattle.svr_tree.specs.ItemTree as tree;
ghost use Rattle.svr_tree.specs.ItemTree.{item_tree, set_tree};
ghost use Rattle.svr_expr.specs.ExprRules.{node, a_path};
ghost use Rattle.svr_item.specs.ItemRules as spec;
ghost use Rattle.svr_item.specs.Parts.{Behind, ReadsItems, else_view, node_listed};

use crate::behind::{ended, named, pushed};
use crate::reader::Reader;
use sqlite_items::Items;
use std::alloc::Global;
use svr_expr::{expr, member, path};
use svr_reader::{Cursor, Fixed, ReadFault, listing};
use svr_token::{Mark, Word};
use svr_tree::{Expr, Item, Set, level};

/// What the parts of a list are.
#[derive(Clone, Copy)]
pub(crate) enum Listed {
    Path,
    /// A path and its indices.
    Member,
}

/// An `if` of these parts.
fn branch(at: u32, test: Expr, yes: Set, no: Option<Set>) -> Item
    ensures { item_tree result ≡ tree.branch at (expr_tree test) (set_tree yes) (else_view no) }
{
    match no {
        Some(no) => Item::branch_else(at, test, yes, no),
        None => Item::branch(at, test, yes),
    }
}

impl<F: Fn(Global, &mut Cursor<'_>, usize) -> Result<(Item, usize), ReadFault>> Reader<F> {
    /// `soft` and an expression.
    #[tactic(auto, unfolding(crate::specs::ItemRules::soft_item))]
    pub fn soft_item(&self, cursor: &mut Cursor<'_>) -> Result<(Item, usize), ReadFault>
        requires room { self.now.room + 1 < 2 ^ 64 }
        ensures gives { Gives (height_view item_tree) (spec.within cap self.now.room spec.soft_item cursor.old) result cursor.new }
        ensures low { IfOk result (λ x. x.1 ≤ self.now.room + 1) }
    {
        let at = cursor.enter(self.room, 1)?;
        let (expr, height) = expr(self.alloc, cursor, self.room, level::IMPLICATION)?;
        self.plain_on(cursor, at, true, expr, height)
    }

    /// A part of a list of this kind.
    fn listed(&self, cursor: &mut Cursor<'_>, kind: Listed) -> Result<(Expr, usize), ReadFault>
        ensures gives { Gives (height_view expr_tree) (node cap self.now.room (node_listed kind) cursor.old) result cursor.new }
        ensures low { IfOk result (λ x. x.1 ≤ self.now.room) }
    {
        match kind {
            Listed::Path => path(self.alloc, cursor, self.room),
            Listed::Member => member(self.alloc, cursor, self.room),
        }
    }

    /// Such parts with commas between them.
    fn list(&self, cursor: &mut Cursor<'_>, kind: Listed) -> Result<(Items<Expr>, usize), ReadFault>
        ensures gives { Gives (heights_view expr_tree) (spec.within cap self.now.room (lists.listing (call (spec.a_node (node_listed kind)))) cursor.old) result cursor.new }
        ensures low { IfOk result (λ x. x.1 ≤ self.now.room) }
    {
        listing(self.alloc, cursor, |cursor| self.listed(cursor, kind))
    }

    /// Paths with commas between them, behind what was found.
    fn paths_behind<T: Drop>(
        &self,
        cursor: &mut Cursor<'_>,
        found: T,
    ) -> Result<(T, (Items<Expr>, usize)), ReadFault>
        ensures gives { Behind found (heights_view expr_tree) (spec.within cap self.now.room (lists.listing (call (spec.a_node a_path))) cursor.old) result cursor.new }
        ensures low { IfOk result (λ x. x.1.1 ≤ self.now.room) }
    {
        match self.list(cursor, Listed::Path) {
            Ok(paths) => Ok((found, paths)),
            Err(fault) => Err(fault),
        }
    }

    /// `unique { members };`
    #[tactic(auto, unfolding(crate::specs::ItemRules::unique_item))]
    pub fn unique_item(&self, cursor: &mut Cursor<'_>) -> Result<(Item, usize), ReadFault>
        requires room { self.now.room + 1 < 2 ^ 64 }
        ensures gives { Gives (height_view item_tree) (spec.within cap self.now.room spec.unique_item cursor.old) result cursor.new }
        ensures low { IfOk result (λ x. x.1 ≤ self.now.room + 1) }
    {
        let at = cursor.enter(self.room, 1)?;
        cursor.expect(Fixed::Mark(Mark::OpenBrace))?;
        let (members, height) = self.list(cursor, Listed::Member)?;
        let members = ended(cursor, members, Fixed::Mark(Mark::CloseBrace))?;
        let item = ended(
            cursor,
            Item::unique(at, members),
            Fixed::Mark(Mark::Semicolon),
        )?;
        Ok((item, height + 1))
    }

    /// `disable soft target;`
    #[tactic(auto, unfolding(crate::specs::ItemRules::disable_item))]
    pub fn disable_item(&self, cursor: &mut Cursor<'_>) -> Result<(Item, usize), ReadFault>
        requires room { self.now.room + 1 < 2 ^ 64 }
        ensures gives { Gives (height_view item_tree) (spec.within cap self.now.room spec.disable_item cursor.old) result cursor.new }
        ensures low { IfOk result (λ x. x.1 ≤ self.now.room + 1) }
    {
        let at = cursor.enter(self.room, 1)?;
        cursor.expect(Fixed::Word(Word::Soft))?;
        let (target, height) = member(self.alloc, cursor, self.room)?;
        let item = Item::disable(at, target);
        let item = ended(cursor, item, Fixed::Mark(Mark::Semicolon))?;
        Ok((item, height + 1))
    }

    /// `solve first before later;`
    #[tactic(auto, unfolding(crate::specs::ItemRules::solve_item))]
    pub fn solve_item(&self, cursor: &mut Cursor<'_>) -> Result<(Item, usize), ReadFault>
        requires room { self.now.room + 1 < 2 ^ 64 }
        ensures gives { Gives (height_view item_tree) (spec.within cap self.now.room spec.solve_item cursor.old) result cursor.new }
        ensures low { IfOk result (λ x. x.1 ≤ self.now.room + 1) }
    {
        let at = cursor.enter(self.room, 1)?;
        let (first, first_height) = self.list(cursor, Listed::Path)?;
        let first = ended(cursor, first, Fixed::Word(Word::Before))?;
        let (first, (later, later_height)) = self.paths_behind(cursor, first)?;
        let item = Item::solve(at, first, later);
        let item = ended(cursor, item, Fixed::Mark(Mark::Semicolon))?;
        Ok((item, first_height.max(later_height) + 1))
    }

    /// `if (test) set [else set]`
    #[tactic(auto, unfolding(crate::specs::ItemRules::branch_item))]
    pub fn branch_item(&self, cursor: &mut Cursor<'_>) -> Result<(Item, usize), ReadFault>
        requires reads { ReadsItems self.now.room (F.pre self.now.item) (F.post self.now.item) }
        requires room { self.now.room + 1 < 2 ^ 64 }
        ensures gives { Gives (height_view item_tree) (spec.within cap self.now.room spec.branch_item cursor.old) result cursor.new }
        ensures low { IfOk result (λ x. x.1 ≤ self.now.room + 1) }
    {
        let at = cursor.enter(self.room, 1)?;
        cursor.expect(Fixed::Mark(Mark::OpenParen))?;
        let (test, test_height) = expr(self.alloc, cursor, self.room, level::IMPLICATION)?;
        let test = ended(cursor, test, Fixed::Mark(Mark::CloseParen))?;
        let (test, (yes, yes_height)) = self.set_behind(cursor, test)?;
        let ((test, yes), (no, no_height)) = self.otherwise_behind(cursor, (test, yes))?;
        Ok((
            branch(at, test, yes, no),
            test_height.max(yes_height).max(no_height) + 1,
        ))
    }

    /// One loop variable, or two.
    #[tactic(auto, unfolding(crate::specs::ItemRules::loop_vars))]
    fn loop_vars(&self, cursor: &mut Cursor<'_>) -> Result<Items<u32>, ReadFault>
        ensures { Gives (λ vars. vars) (spec.within cap self.now.room spec.loop_vars cursor.old) result cursor.new }
    {
        let first = cursor.name()?;
        let vars = pushed(Items::new(self.alloc), first)?;
        if cursor.eat(Fixed::Mark(Mark::Comma)) {
            let (vars, second) = named(cursor, vars)?;
            pushed(vars, second)
        } else {
            Ok(vars)
        }
    }

    /// The loop variables of an array that was found.
    fn loop_vars_behind<T: Drop>(
        &self,
        cursor: &mut Cursor<'_>,
        found: T,
    ) -> Result<(T, Items<u32>), ReadFault>
        ensures { Behind found (λ vars. vars) (spec.within cap self.now.room spec.loop_vars cursor.old) result cursor.new }
    {
        match self.loop_vars(cursor) {
            Ok(vars) => Ok((found, vars)),
            Err(fault) => Err(fault),
        }
    }

    /// `foreach (array[vars]) set`
    #[tactic(auto, unfolding(crate::specs::ItemRules::foreach_item))]
    pub fn foreach_item(&self, cursor: &mut Cursor<'_>) -> Result<(Item, usize), ReadFault>
        requires reads { ReadsItems self.now.room (F.pre self.now.item) (F.post self.now.item) }
        requires room { self.now.room + 1 < 2 ^ 64 }
        ensures gives { Gives (height_view item_tree) (spec.within cap self.now.room spec.foreach_item cursor.old) result cursor.new }
        ensures low { IfOk result (λ x. x.1 ≤ self.now.room + 1) }
    {
        let at = cursor.enter(self.room, 1)?;
        cursor.expect(Fixed::Mark(Mark::OpenParen))?;
        let (array, array_height) = path(self.alloc, cursor, self.room)?;
        let array = ended(cursor, array, Fixed::Mark(Mark::OpenBracket))?;
        let loops = self.loop_vars_behind(cursor, array)?;
        let loops = ended(cursor, loops, Fixed::Mark(Mark::CloseBracket))?;
        let loops = ended(cursor, loops, Fixed::Mark(Mark::CloseParen))?;
        let ((array, vars), (body, body_height)) = self.set_behind(cursor, loops)?;
        Ok((
            Item::foreach(at, array, vars, body),
            array_height.max(body_height) + 1,
        ))
    }
}
