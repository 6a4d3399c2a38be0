// Over what the mentions of a call are gathered.

ghost use Rattle.std.specs.Prelude.{◌≡◌};
ghost use Rattle.svr_typed.specs.ExprTerm.{expr_term};
ghost use Rattle.svr_mention.specs.Mentioned.{shape_in, opens};

use svr_eval::Assign;
use svr_frame::{Frame, Part, is_open};
use svr_typed::TExpr;

/// A call, its phase, the sizes of arrays, and the state at these sizes.
#[derive(Clone, Copy)]
pub struct Setting<'a> {
    pub frame: &'a Frame,
    pub part: Part,
    pub sizes: &'a [u32],
    pub state: &'a Assign,
}

impl Setting<'_> {
    /// Whether the property is an array. A number that names no property is no scalar.
    pub fn is_array(&self, prop: u32) -> bool
        ensures { result ≡ (shape_in self.now).is_array prop }
    {
        self.frame.is_array(prop)
    }

    /// Whether the value of an index is one of many in the phase.
    pub fn opens(&self, index: &TExpr) -> bool
        ensures { result ≡ opens self.now (expr_term index.now) }
    {
        is_open(index, self.frame, self.part)
    }
}
