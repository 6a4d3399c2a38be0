// What a declared property is refused for (IEEE 1800-2017, clauses 7, 8 and 18.4).

ghost use Rattle.std.specs.Prelude.{◌≡◌, ◌&&◌, ◌||◌, nat_le};
ghost use Rattle.svr_elab_fault.specs.Refusals.{first_one};
ghost use Rattle.svr_elab_names.specs.Names.{is_array};
ghost use Rattle.svr_elab_part.specs.Shapes as shapes;
ghost use Rattle.svr_elab_decl.specs.Properties as spec;
ghost use Rattle.svr_elab_decl.specs.Seen.{before_of, used_of};

use crate::used::Used;
use svr_elab_fault::{Fault, earlier, when};
use svr_elab_names::{Dims, Property, Vector};
use svr_limits::{ARRAY_LIMIT, ELEMENT_LIMIT, PROPERTY_LIMIT};
use svr_operator::Rand;
use svr_refusal::Refusal;

/// What stands before a property: how many properties and arrays its class has, whether a base or the class itself has its name, and whether its type has too many values for `randc`.
#[derive(Clone, Copy, PartialEq, Eq)]
pub struct Before {
    pub props: usize,
    pub arrays: usize,
    pub inherits: bool,
    pub doubles: bool,
    pub wide: bool,
}

fn is_large(dims: Dims) -> bool
    ensures { result ≡ spec.is_large dims }
{
    match dims {
        Dims::Fixed(Some(size)) => ELEMENT_LIMIT < size,
        Dims::Rows(Some(rows), Some(size)) => {
            u64::from(ELEMENT_LIMIT) < u64::from(rows) * u64::from(size)
        }
        Dims::Rows(Some(_), None) | Dims::Rows(None, _) | Dims::Fixed(None) => false,
        Dims::Scalar | Dims::Dynamic => false,
    }
}

fn is_randc(rand: Rand) -> bool
    ensures { result ≡ shapes.is_randc rand }
{
    match rand {
        Rand::Randc => true,
        Rand::State | Rand::Rand => false,
    }
}

fn is_state(rand: Rand) -> bool
    ensures { result ≡ spec.is_state rand }
{
    match rand {
        Rand::State => true,
        Rand::Rand | Rand::Randc => false,
    }
}

/// Whether a property has the type of objects, or the name of one that its class inherits.
fn is_left_out(used: Used, inherits: bool) -> bool
    ensures { result ≡ (spec.is_objects (used_of used) || inherits) }
{
    used.is_objects() || inherits
}

/// Whether a cyclic property is an array.
fn is_cyclic_array(rand: Rand, dims: Dims) -> bool
    ensures { result ≡ (shapes.is_randc rand && is_array dims) }
{
    is_randc(rand) && dims.is_array()
}

/// Whether the type of a cyclic property has too many values.
fn is_too_wide(rand: Rand, wide: bool) -> bool
    ensures { result ≡ (shapes.is_randc rand && wide) }
{
    is_randc(rand) && wide
}

/// Whether a property of these dimensions has too many elements, or makes too many properties or arrays of its class.
fn is_many(before: Before, dims: Dims) -> bool
    ensures { result ≡ (spec.is_large dims || (nat_le PROPERTY_LIMIT before.props || (is_array dims && nat_le ARRAY_LIMIT before.arrays))) }
{
    is_large(dims)
        || (PROPERTY_LIMIT as usize <= before.props
            || (dims.is_array() && ARRAY_LIMIT <= before.arrays))
}

/// What a declared property is refused for.
pub fn property_fault(
    before: Before,
    name: u32,
    rand: Rand,
    used: Used,
    dims: Dims,
) -> Option<Fault>
    ensures { result ≡ spec.property_faults first_one (before_of before) name rand (used_of used) dims }
{
    let limits = earlier(
        when(is_too_wide(rand, before.wide), name, Refusal::RandcTooWide),
        when(is_many(before, dims), name, Refusal::TooMany),
    );
    let form = earlier(
        when(before.doubles, name, Refusal::DoubleName),
        earlier(
            when(is_cyclic_array(rand, dims), name, Refusal::LeftOut),
            limits,
        ),
    );
    earlier(
        when(is_left_out(used, before.inherits), name, Refusal::LeftOut),
        form,
    )
}

/// The property of this number in flat order, as the class of number `home` declares it.
pub fn property_of(number: u32, home: u32, rand: Rand, kind: Option<Vector>, dims: Dims) -> Property
    ensures { result ≡ spec.declared_as number home rand kind dims }
{
    Property {
        number,
        home,
        kind,
        rand,
        random: !is_state(rand),
        dims,
    }
}
