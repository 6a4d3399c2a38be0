// What a node is combined from.

ghost use Rattle.std.specs.Prelude.{◌≡◌, ◌<◌, [], length, get_or};
ghost use Rattle.svr_vector.specs.Places.{rows};

use svr_chain::Lit;
use svr_eval::Env;
use svr_inputs::Inputs;

/// The inputs, the loops around a node, and the vectors of its parts.
#[derive(Clone, Copy)]
pub(crate) struct Given<'a> {
    pub(crate) inputs: &'a Inputs<'a>,
    pub(crate) env: &'a Env,
    pub(crate) values: &'a [Vec<Lit>],
}

/// The vector at a place.
pub(crate) fn value_at(values: &[Vec<Lit>], at: usize) -> &[Lit]
    requires { at < length (rows values.now) }
    ensures { result.now ≡ get_or (rows values.now) at [] }
{
    values[at].as_slice()
}
