// What is declared of script variables and of the properties of their classes.

ghost use Rattle.std.specs.Prelude.{◌≡◌};
ghost use Rattle.svr_typed.specs.StmtTerm.{design_term};
ghost use Rattle.svr_effect.specs.Inherited.{AreClasses, IsNamed};
ghost use Rattle.svr_script.specs.Statement as spec;

use crate::classes::Classes;
use svr_typed::{Design, VarKind};

/// The class of an object variable, 0 for any other.
pub fn class_of_var(design: &Design, object: u32) -> u32
    ensures { result ≡ spec.class_of_var (design_term design.now) object }
{
    match design.vars.as_slice().get(object as usize) {
        Some(var) => match var.kind {
            VarKind::Number(_) => 0,
            VarKind::Object(class) => class,
        },
        None => 0,
    }
}

/// The width of a script variable, 0 where it holds objects.
pub(crate) fn width_of_var(design: &Design, var: u32) -> u8
    ensures { result ≡ spec.width_of_var (design_term design.now) var }
{
    match design.vars.as_slice().get(var as usize) {
        Some(var) => match var.kind {
            VarKind::Number(kind) => kind.width,
            VarKind::Object(_) => 0,
        },
        None => 0,
    }
}

/// The width of a property of an object variable that some statement of the design names, or of its elements; 0 where there is none.
pub(crate) fn width_of_prop(design: &Design, classes: &Classes, object: u32, prop: u32) -> u8
    requires classes { AreClasses (design_term design.now) classes.now }
    requires named { IsNamed (design_term design.now) object }
    ensures { result ≡ spec.width_of_prop (design_term design.now) object prop }
{
    let flat = classes.of_var(design, object);
    match flat.props.as_slice().get(prop as usize) {
        Some(declared) => declared.kind.width,
        None => 0,
    }
}
