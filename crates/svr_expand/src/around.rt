// Where the walk over the items of a call stands.

use svr_eval::Env;
use svr_typed::TExpr;

/// The tests and the loops around a place, the innermost first.
#[derive(Clone, Copy)]
pub(crate) enum Around<'a> {
    Outside,
    /// A test, whether it is to hold, the indexes of the loops around it, and what is around it.
    Under(&'a TExpr, bool, &'a Env, &'a Around<'a>),
    /// A loop over an array, and what is around it.
    Within(u32, &'a Around<'a>),
}
