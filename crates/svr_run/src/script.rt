// What is run.

ghost use Rattle.std.specs.Prelude.{◌≡◌};
ghost use Rattle.svr_typed.specs.StmtTerm.{design_term};
ghost use Rattle.svr_script.specs.Statement as spec;

use crate::extra::Extra;
use svr_effect::Classes;
use svr_phase::Options;
use svr_typed::Design;

/// A script, its classes with what they inherit, and what it is run with.
#[derive(Clone, Copy)]
pub(crate) struct Script<'a> {
    pub(crate) design: &'a Design,
    pub(crate) classes: &'a Classes,
    pub(crate) opts: Options,
    pub(crate) extra: Extra,
}

/// The name of a script variable, empty where there is none.
pub(crate) fn name_of_var(design: &Design, var: u32) -> &[u8]
    ensures { result.now ≡ spec.name_of_var (design_term design.now) var }
{
    match design.vars.as_slice().get(var as usize) {
        Some(declared) => declared.name.as_bytes(),
        None => &[],
    }
}
