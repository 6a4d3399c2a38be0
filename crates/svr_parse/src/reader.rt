// What scripts are made of.

ghost use Rattle.svr_reader.specs.Answers.{Answers};
ghost use Rattle.svr_reader.specs.Calls.{cap};
ghost use Rattle.svr_reader.specs.Lists as lists;
ghost use Rattle.svr_parse.specs.ScriptRules as rules;

use std::alloc::Global;
use svr_reader::{Cursor, Fixed, ReadFault};

/// Reads scripts. The expressions, items and statements in them may be as high as `room`.
#[derive(Clone, Copy)]
pub(crate) struct Reader {
    pub alloc: Global,
    pub room: usize,
}

impl Reader {
    /// `()`, or none of both.
    pub fn parens(&self, cursor: &mut Cursor<'_>) -> Result<bool, ReadFault>
        ensures { Answers (λ b. b) (rules.within cap self.now.room lists.parens cursor.old) result cursor.new }
    {
        cursor.parens()
    }

    /// A word or mark and a name, or none of both.
    pub fn name_behind(
        &self,
        cursor: &mut Cursor<'_>,
        fixed: Fixed,
    ) -> Result<Option<u32>, ReadFault>
        ensures { Answers (λ n. n) (rules.within cap self.now.room (lists.name_behind fixed) cursor.old) result cursor.new }
    {
        cursor.name_behind(fixed)
    }
}
