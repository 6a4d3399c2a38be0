// What declarations are made of.

ghost use Rattle.std.specs.Prelude.{◌≤◌, IfOk};
ghost use Rattle.svr_tree.specs.ExprTree.{expr_tree};
ghost use Rattle.svr_reader.specs.Answers.{Answers, Gives};
ghost use Rattle.svr_reader.specs.Calls.{cap, height_view};
ghost use Rattle.svr_reader.specs.Lists as lists;
ghost use Rattle.svr_decl.specs.DeclRules as rules;

use std::alloc::Global;
use svr_expr::expr;
use svr_reader::{Cursor, Fixed, ReadFault};
use svr_tree::{Expr, level};

/// Reads declarations. The expressions and the items of blocks in them may be as high as `room`.
#[derive(Clone, Copy)]
pub(crate) struct Reader {
    pub alloc: Global,
    pub room: usize,
}

impl Reader {
    /// An expression (IEEE 1800-2017, A.8.3).
    pub fn expression(&self, cursor: &mut Cursor<'_>) -> Result<(Expr, usize), ReadFault>
        ensures gives { Gives (height_view expr_tree) (rules.part cap self.now.room rules.an_expression cursor.old) result cursor.new }
        ensures low { IfOk result (λ x. x.1 ≤ self.now.room) }
    {
        expr(self.alloc, cursor, self.room, level::IMPLICATION)
    }

    /// `()`, or none of both.
    pub fn parens(&self, cursor: &mut Cursor<'_>) -> Result<bool, ReadFault>
        ensures { Answers (λ b. b) (rules.within cap self.now.room lists.parens cursor.old) result cursor.new }
    {
        cursor.parens()
    }

    /// A word or mark and a name, or none of both.
    pub fn name_behind(
        &self,
        cursor: &mut Cursor<'_>,
        fixed: Fixed,
    ) -> Result<Option<u32>, ReadFault>
        ensures { Answers (λ n. n) (rules.within cap self.now.room (lists.name_behind fixed) cursor.old) result cursor.new }
    {
        cursor.name_behind(fixed)
    }
}
