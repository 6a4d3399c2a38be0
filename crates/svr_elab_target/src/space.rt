// What can be named in a statement, and in the in-line set of a call.

ghost use Rattle.std.specs.Prelude.{◌≡◌, length, map, IfOk};
ghost use Rattle.svr_elab_names.specs.Tables.{space_of, prop_of};
ghost use Rattle.svr_elab_target.specs.Named as spec;

use indexmap::{IndexMap, IndexSet};
use svr_elab_names::{NameSpace, PropEntry, Region};
use svr_typed::NoMemory;

/// The same names where these object variables have an object.
pub fn with_made<'t, 's, 'a>(
    names: &NameSpace<'s, 'a>,
    made: &'t IndexSet<u32>,
) -> NameSpace<'t, 'a>
where
    's: 't,
    ensures space { space_of result ≡ spec.with_made (space_of names.now) made.now.keys }
    ensures loops { length result.loops.now ≡ length names.now.loops.now }
    ensures vars { length result.vars.now.entries ≡ length names.now.vars.now.entries }
{
    NameSpace {
        names: names.names,
        region: names.region,
        globals: names.globals,
        classes: names.classes,
        props: names.props,
        later: names.later,
        loops: names.loops,
        vars: names.vars,
        made,
    }
}

/// The same names in the in-line set of a call on an object with these properties.
pub fn in_line<'t, 's, 'a>(
    names: &NameSpace<'s, 'a>,
    props: &'t IndexMap<&'a [u8], PropEntry>,
) -> NameSpace<'t, 'a>
where
    's: 't,
    ensures space { space_of result ≡ spec.in_line_with (space_of names.now) (map prop_of props.now.entries) }
    ensures loops { length result.loops.now ≡ length names.now.loops.now }
    ensures vars { length result.vars.now.entries ≡ length names.now.vars.now.entries }
{
    NameSpace {
        names: names.names,
        region: Region::InLine,
        globals: names.globals,
        classes: names.classes,
        props,
        later: names.later,
        loops: names.loops,
        vars: names.vars,
        made: names.made,
    }
}

/// The object variables that have an object, with one more where a statement makes it.
pub fn and_made(made: &mut IndexSet<u32>, makes: Option<u32>) -> Result<(), NoMemory>
    ensures { IfOk result (λ u. made.new.keys ≡ spec.and_made made.old.keys makes) }
{
    match makes {
        None => Ok(()),
        Some(object) => match made.insert(object) {
            Ok(_) => Ok(()),
            Err(_) => Err(NoMemory),
        },
    }
}
