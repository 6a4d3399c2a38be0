// What an item asks of the form of a part.

ghost use Rattle.std.specs.Prelude.{◌≡◌};
ghost use Rattle.svr_elab_part.specs.Seen.{part_of};
ghost use Rattle.svr_elab_part.specs.Shapes as shapes;
ghost use Rattle.svr_elab_item.specs.Items as spec;

use svr_elab_names::{Dims, Property};
use svr_elab_part::{Part, Root, Shape};
use svr_operator::Rand;

fn is_randc(rand: Rand) -> bool
    ensures { result ≡ shapes.is_randc rand }
{
    match rand {
        Rand::Randc => true,
        Rand::State | Rand::Rand => false,
    }
}

pub(crate) fn is_plain_rand(rand: Rand) -> bool
    ensures { result ≡ spec.is_plain_rand rand }
{
    match rand {
        Rand::Rand => true,
        Rand::State | Rand::Randc => false,
    }
}

/// Whether it is a property that is declared `randc`.
pub(crate) fn is_cyclic_root(root: Root) -> bool
    ensures { result ≡ spec.is_cyclic_root root }
{
    match root {
        Root::Field(property, _) => is_randc(property.rand),
        Root::Nothing | Root::Refused | Root::Member | Root::Variable(_) | Root::Object(_, _) =>
            false,
    }
}

/// The property of a path.
pub(crate) fn array_of(root: Root) -> Option<Property>
    ensures { result ≡ spec.array_of root }
{
    match root {
        Root::Field(property, _) => Some(property),
        Root::Nothing | Root::Refused | Root::Member | Root::Variable(_) | Root::Object(_, _) =>
            None,
    }
}

/// Whether it has two dimensions.
fn has_rows(dims: Dims) -> bool
    ensures { result ≡ spec.has_rows dims }
{
    match dims {
        Dims::Rows(_, _) => true,
        Dims::Scalar | Dims::Fixed(_) | Dims::Dynamic => false,
    }
}

/// How many elements a row has; 1 of an array of one dimension.
pub(crate) fn inner_of(dims: Dims) -> Option<u32>
    ensures { result ≡ shapes.inner_of dims }
{
    match dims {
        Dims::Rows(_, inner) => inner,
        Dims::Scalar | Dims::Fixed(_) | Dims::Dynamic => Some(1),
    }
}

/// Whether a loop has two names over an array of one dimension.
pub(crate) fn has_too_many_names(array: &Part, vars: &[u32]) -> bool
    ensures { result ≡ spec.has_too_many_names (part_of array.now) vars.now }
{
    let form = array.form;
    form.extent.is_whole() && (vars.len() > 1 && !has_rows(form.root.property().dims))
}

/// Whether this is known to be no target of `disable soft`, which is the whole of a property or an element.
pub(crate) fn is_no_target(part: &Part) -> bool
    ensures { result ≡ spec.is_no_target (part_of part.now) }
{
    match part.form.root {
        Root::Refused => false,
        Root::Field(_, _) => part.form.bits,
        Root::Nothing | Root::Member | Root::Variable(_) | Root::Object(_, _) => true,
    }
}

/// Whether two members of `unique` have the same size and sign, or one has none.
fn is_same_shape(x: Option<Shape>, y: Option<Shape>) -> bool
    ensures { result ≡ spec.same_shape x y }
{
    let Some(x) = x else {
        return true;
    };
    let Some(y) = y else {
        return true;
    };
    x.width == y.width && (if x.signed { y.signed } else { !y.signed })
}

/// Whether a member of `unique` has another size or sign than the first one.
pub(crate) fn differs(first: Option<Option<Shape>>, shape: Option<Shape>) -> bool
    ensures { result ≡ spec.differs first shape }
{
    match first {
        None => false,
        Some(first) => !is_same_shape(first, shape),
    }
}
