// The parts of an expression.

ghost use Rattle.std.specs.Prelude.{◌≡◌, ◌≤◌, IfOk};
ghost use Rattle.svr_tree.specs.ExprTree.{expr_tree};
ghost use Rattle.svr_reader.specs.Answers.{Gives};
ghost use Rattle.svr_reader.specs.Calls.{cap, height_view};
ghost use Rattle.svr_expr.specs.ExprRules as spec;
ghost use Rattle.svr_expr.specs.Parts.{Nests};

use std::alloc::Global;
use svr_reader::{Cursor, ReadFault};
use svr_tree::Expr;

/// What reads the parts of an expression, which may be as high as `room`. The function is a parameter, so that each production is proved by itself.
#[derive(Clone, Copy)]
pub struct Reader<F> {
    pub alloc: Global,
    pub room: usize,
    pub expr: F,
}

impl<F: Fn(Global, &mut Cursor<'_>, usize, u8) -> Result<(Expr, usize), ReadFault>> Reader<F> {
    /// An expression one level below, of at least this level of table 11-2.
    pub fn part(&self, cursor: &mut Cursor<'_>, least: u8) -> Result<(Expr, usize), ReadFault>
        requires nests { Nests self.now.room (F.pre self.now.expr) (F.post self.now.expr) }
        ensures gives { Gives (height_view expr_tree) (spec.expr cap self.now.room least cursor.old) result cursor.new }
        ensures low { IfOk result (λ x. x.1 ≤ self.now.room) }
    {
        (self.expr)(self.alloc, cursor, self.room, least)
    }

    /// The same beside what was read before.
    pub fn part_beside<T: Drop>(
        &self,
        cursor: &mut Cursor<'_>,
        held: T,
        least: u8,
    ) -> Result<(T, Expr, usize), ReadFault>
        requires nests { Nests self.now.room (F.pre self.now.expr) (F.post self.now.expr) }
        ensures gives { Gives (λ x. (expr_tree x.1, x.2)) (spec.expr cap self.now.room least cursor.old) result cursor.new }
        ensures same { IfOk result (λ x. x.0 ≡ held) }
        ensures low { IfOk result (λ x. x.2 ≤ self.now.room) }
    {
        let (found, height) = self.part(cursor, least)?;
        Ok((held, found, height))
    }
}
