// The parts of a statement.

ghost use Rattle.std.specs.Prelude.{◌≤◌, IfOk};
ghost use Rattle.svr_reader.specs.Answers.{Gives};
ghost use Rattle.svr_reader.specs.Calls.{cap};
ghost use Rattle.svr_expr.specs.ExprRules.{a_known_path};
ghost use Rattle.svr_expr.specs.Parts.{kind_view};
ghost use Rattle.svr_stmt.specs.StmtRules as spec;

use std::alloc::Global;
use svr_expr::{known_path, path_on};
use svr_reader::{Cursor, ReadFault};
use svr_token::NameKind;
use svr_tree::Expr;

/// What reads the parts of a statement, which may be as high as `room`.
#[derive(Clone, Copy)]
pub(crate) struct Reader {
    pub(crate) alloc: Global,
    pub(crate) room: usize,
}

impl Reader {
    /// A path, and the kind of its last name.
    #[tactic(auto, using(crate::proofs::Rooms::needs_room))]
    pub(crate) fn path_here(&self, cursor: &mut Cursor<'_>) -> Result<(Expr, NameKind), ReadFault>
        ensures gives { Gives kind_view (a_known_path cap self.now.room cursor.old) result cursor.new }
        ensures room { IfOk result (λ p. 1 ≤ self.now.room) }
    {
        known_path(self.alloc, cursor, self.room)
    }

    /// The rest of a plain path whose first name, of this number and kind, was taken: the path, and the kind of its last name.
    #[tactic(auto, unfolding(crate::specs::StmtRules::a_path_on))]
    pub(crate) fn path_behind(
        &self,
        cursor: &mut Cursor<'_>,
        first: u32,
        kind: NameKind,
    ) -> Result<(Expr, NameKind), ReadFault>
        requires { 1 ≤ self.now.room }
        ensures { Gives kind_view (spec.a_path_on cap self.now.room (first, kind) cursor.old) result cursor.new }
    {
        path_on(self.alloc, cursor, first, kind)
    }
}
