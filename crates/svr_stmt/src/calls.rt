// Calls of `randomize` (IEEE 1800-2017, A.8.2).

ghost use Rattle.std.specs.Prelude.{◌≤◌, ◌<◌, IfOk};
ghost use Rattle.svr_reader.specs.Answers.{Answers, Gives};
ghost use Rattle.svr_reader.specs.Calls.{cap, height_view, heights_view};
ghost use Rattle.svr_reader.specs.Lists.{listing as listing_program};
ghost use Rattle.svr_tree.specs.ExprTree.{expr_tree};
ghost use Rattle.svr_tree.specs.StmtTree.{randomize_tree};
ghost use Rattle.svr_stmt.specs.StmtRules as spec;
ghost use Rattle.svr_stmt.specs.Parts.{set_view};

use crate::held::let_go;
use crate::method::{Method, path_method};
use crate::reader::Reader;
use sqlite_items::Items;
use svr_expr::owner;
use svr_item::set_items;
use svr_reader::{Cursor, Fixed, ReadFault, listing};
use svr_token::{Lexeme, Mark, Word};
use svr_tree::{Expr, Item, RandomizeArgs, RandomizeCall};

impl Reader {
    #[tactic(auto, unfolding(crate::specs::StmtRules::argument))]
    fn argument(&self, cursor: &mut Cursor<'_>) -> Result<(u32, usize), ReadFault>
        ensures { Answers (height_view (λ n. n)) (spec.within cap self.now.room spec.argument cursor.old) result cursor.new }
    {
        Ok((cursor.name()?, 0))
    }

    fn arguments(&self, cursor: &mut Cursor<'_>) -> Result<(Items<u32>, usize), ReadFault>
        ensures { Gives (heights_view (λ n. n)) (spec.within cap self.now.room (listing_program spec.argument) cursor.old) result cursor.new }
    {
        listing(self.alloc, cursor, |cursor| self.argument(cursor))
    }

    /// `null`, or names
    #[tactic(auto, using(crate::proofs::Rooms::same_names), unfolding(crate::specs::StmtRules::call_arguments))]
    fn call_arguments(&self, cursor: &mut Cursor<'_>) -> Result<RandomizeArgs, ReadFault>
        ensures { Gives (λ a. a) (spec.within cap self.now.room spec.call_arguments cursor.old) result cursor.new }
    {
        match cursor.peek() {
            Some(Lexeme::Word(Word::Null)) => {
                cursor.take()?;
                Ok(RandomizeArgs::Null)
            }
            _ => {
                let (names, _) = self.arguments(cursor)?;
                Ok(RandomizeArgs::Names(names))
            }
        }
    }

    /// `[ with { items } ]`
    #[tactic(auto, unfolding(crate::specs::StmtRules::in_line))]
    fn in_line(&self, cursor: &mut Cursor<'_>) -> Result<(Option<Items<Item>>, usize), ReadFault>
        ensures gives { Gives (height_view set_view) (spec.within cap self.now.room spec.in_line cursor.old) result cursor.new }
        ensures low { IfOk result (λ x. x.1 ≤ self.now.room) }
    {
        if cursor.eat(Fixed::Word(Word::With)) {
            cursor.expect(Fixed::Mark(Mark::OpenBrace))?;
            let (items, height) = set_items(self.alloc, cursor, self.room)?;
            Ok((Some(items), height))
        } else {
            Ok((None, 0))
        }
    }

    /// The call of the method at the end of a path, behind its parentheses.
    #[tactic(auto, unfolding(crate::specs::StmtRules::randomize_end))]
    pub(crate) fn randomize_end(
        &self,
        cursor: &mut Cursor<'_>,
        path: Expr,
        args: RandomizeArgs,
    ) -> Result<(RandomizeCall, usize), ReadFault>
        requires path { 1 ≤ self.now.room }
        ensures gives { Gives (height_view randomize_tree) (spec.within cap self.now.room (spec.randomize_end (expr_tree path) args) cursor.old) result cursor.new }
        ensures low { IfOk result (λ x. x.1 ≤ self.now.room) }
    {
        match self.in_line(cursor) {
            Ok((with, height)) => {
                let path = owner(path);
                Ok((RandomizeCall { path, args, with }, height.max(1)))
            }
            Err(fault) => Err(let_go(path, let_go(args, fault))),
        }
    }

    /// Arguments and what follows, where there are some.
    #[tactic(auto, unfolding(crate::specs::StmtRules::randomize_given))]
    pub(crate) fn randomize_given(
        &self,
        cursor: &mut Cursor<'_>,
        path: Expr,
    ) -> Result<(RandomizeCall, usize), ReadFault>
        requires path { 1 ≤ self.now.room }
        ensures gives { Gives (height_view randomize_tree) (spec.within cap self.now.room (spec.randomize_given (expr_tree path)) cursor.old) result cursor.new }
        ensures low { IfOk result (λ x. x.1 ≤ self.now.room) }
    {
        match self.call_arguments(cursor) {
            Ok(args) => match cursor.expect(Fixed::Mark(Mark::CloseParen)) {
                Ok(()) => self.randomize_end(cursor, path, args),
                Err(fault) => Err(let_go(path, let_go(args, fault))),
            },
            Err(fault) => Err(let_go(path, fault)),
        }
    }

    /// The same behind `(`, or no arguments.
    #[tactic(auto, unfolding(crate::specs::StmtRules::randomize_on))]
    pub(crate) fn randomize_on(
        &self,
        cursor: &mut Cursor<'_>,
        path: Expr,
    ) -> Result<(RandomizeCall, usize), ReadFault>
        requires path { 1 ≤ self.now.room }
        ensures gives { Gives (height_view randomize_tree) (spec.within cap self.now.room (spec.randomize_on (expr_tree path)) cursor.old) result cursor.new }
        ensures low { IfOk result (λ x. x.1 ≤ self.now.room) }
    {
        if cursor.eat(Fixed::Mark(Mark::CloseParen)) {
            self.randomize_end(cursor, path, RandomizeArgs::Empty)
        } else {
            self.randomize_given(cursor, path)
        }
    }

    /// A call, where nothing else may stand.
    #[tactic(auto, unfolding(crate::specs::StmtRules::whole_call))]
    pub(crate) fn whole_call(
        &self,
        cursor: &mut Cursor<'_>,
    ) -> Result<(RandomizeCall, usize), ReadFault>
        ensures gives { Gives (height_view randomize_tree) (spec.within cap self.now.room spec.whole_call cursor.old) result cursor.new }
        ensures low { IfOk result (λ x. x.1 ≤ self.now.room) }
    {
        let (path, kind) = self.path_here(cursor)?;
        match path_method(&path, kind) {
            Some(Method::Randomize) => match cursor.expect(Fixed::Mark(Mark::OpenParen)) {
                Ok(()) => self.randomize_on(cursor, path),
                Err(fault) => Err(let_go(path, fault)),
            },
            _ => Err(let_go(path, cursor.refuse())),
        }
    }
}
