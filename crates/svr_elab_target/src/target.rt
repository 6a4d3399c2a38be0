// What the left side of an assignment names (IEEE 1800-2017, 10.4, 7.5.1, 8.7 and 10.9.1).

ghost use Rattle.std.specs.Prelude.{◌≡◌, ◌&&◌, not};
ghost use Rattle.svr_elab_fault.specs.Refusals.{first_one};
ghost use Rattle.svr_elab_part.specs.Forms.{is_refused};
ghost use Rattle.svr_elab_part.specs.Seen.{part_of};
ghost use Rattle.svr_elab_target.specs.Targets as spec;
ghost use Rattle.svr_elab_target.specs.Named as named;

use svr_elab_fault::{Fault, earlier, when};
use svr_elab_names::{Dims, Property};
use svr_elab_part::{Extent, Form, Part, Root};
use svr_refusal::Refusal;

/// What a left side names. Objects and variables are named by their places among the script variables.
#[derive(Clone, Copy)]
pub enum Target {
    /// Nothing that a statement can change.
    Nothing,
    /// An object variable alone.
    Object(u32),
    /// A script variable that is no object variable.
    Variable(u32),
    /// A scalar property or an element of an object.
    Place(u32, Property),
    /// The whole of an object's array.
    Array(u32, Property),
}

fn property_target(extent: Extent, object: u32, property: Property) -> Target
    ensures { result ≡ spec.property_target extent object property }
{
    match extent {
        Extent::Single => Target::Place(object, property),
        Extent::Row => Target::Nothing,
        Extent::Whole => Target::Array(object, property),
    }
}

fn root_target(extent: Extent, root: Root) -> Target
    ensures { result ≡ spec.root_target extent root }
{
    match root {
        Root::Variable(variable) => Target::Variable(variable),
        Root::Object(object, _) => Target::Object(object),
        Root::Field(property, Some(object)) => property_target(extent, object, property),
        Root::Field(_, None) | Root::Nothing | Root::Refused | Root::Member => Target::Nothing,
    }
}

impl Target {
    /// What an expression names as a left side, by its form.
    pub fn of(form: Form) -> Target
        ensures { result ≡ spec.target_of form }
    {
        if form.bits {
            Target::Nothing
        } else {
            root_target(form.extent, form.root)
        }
    }

    /// Whether it is an object variable.
    pub fn is_object(self) -> bool
        ensures { result ≡ spec.is_object self }
    {
        match self {
            Target::Object(_) => true,
            Target::Nothing | Target::Variable(_) | Target::Place(_, _) | Target::Array(_, _) => {
                false
            }
        }
    }

    /// Whether a value can be assigned.
    pub fn is_settable(self) -> bool
        ensures { result ≡ spec.is_settable self }
    {
        match self {
            Target::Variable(_) | Target::Place(_, _) => true,
            Target::Nothing | Target::Object(_) | Target::Array(_, _) => false,
        }
    }

    /// Whether `new[..]` can be assigned.
    pub fn is_resizable(self) -> bool
        ensures { result ≡ spec.is_resizable self }
    {
        match self {
            Target::Array(_, property) => is_dynamic(property.dims),
            Target::Nothing | Target::Object(_) | Target::Variable(_) | Target::Place(_, _) => {
                false
            }
        }
    }

    /// Whether an assignment pattern can be assigned.
    pub fn is_array(self) -> bool
        ensures { result ≡ spec.is_array self }
    {
        match self {
            Target::Array(_, _) => true,
            Target::Nothing | Target::Object(_) | Target::Variable(_) | Target::Place(_, _) => {
                false
            }
        }
    }

    /// Whether the answer of a call can be assigned; `members` is the enum of its values.
    pub fn is_answer(self, members: Option<u32>) -> bool
        ensures { result ≡ spec.is_answer self members }
    {
        match self {
            Target::Variable(_) => members.is_none(),
            Target::Nothing | Target::Object(_) | Target::Place(_, _) | Target::Array(_, _) => {
                false
            }
        }
    }

    /// The script variable that takes an answer.
    pub fn answer(self) -> Option<u32>
        ensures { result ≡ spec.answer_number self }
    {
        match self {
            Target::Variable(variable) => Some(variable),
            Target::Nothing | Target::Object(_) | Target::Place(_, _) | Target::Array(_, _) => None,
        }
    }

    /// The object variable that `new` gives an object to.
    pub fn object(self) -> Option<u32>
        ensures { result ≡ spec.object_number self }
    {
        match self {
            Target::Object(object) => Some(object),
            Target::Nothing | Target::Variable(_) | Target::Place(_, _) | Target::Array(_, _) => {
                None
            }
        }
    }

    /// The dimensions of a whole array.
    pub fn dims(self) -> Dims
        ensures { result ≡ spec.array_dims self }
    {
        match self {
            Target::Array(_, property) => property.dims,
            Target::Nothing | Target::Object(_) | Target::Variable(_) | Target::Place(_, _) => {
                Dims::Scalar
            }
        }
    }
}

fn is_dynamic(dims: Dims) -> bool
    ensures { result ≡ spec.is_dynamic dims }
{
    match dims {
        Dims::Dynamic => true,
        Dims::Scalar | Dims::Fixed(_) | Dims::Rows(_, _) => false,
    }
}

/// Whether a left side may not stand there, and is not refused by its path.
fn is_misplaced(root: Root, fits: bool) -> bool
    ensures { result ≡ (not fits && not (is_refused root)) }
{
    !fits && !root.is_refused()
}

/// The refusal of a left side that may not stand there, unless its path is refused already.
fn misplaced(form: Form, fits: bool) -> Option<Fault>
    ensures { result ≡ named.misplaced first_one form fits }
{
    when(
        is_misplaced(form.root, fits),
        form.name,
        Refusal::UnknownName,
    )
}

/// The refusal of a left side to which no value can be assigned.
pub fn settable_fault(form: Form) -> Option<Fault>
    ensures { result ≡ named.misplaced first_one form (spec.is_settable (spec.target_of form)) }
{
    misplaced(form, Target::of(form).is_settable())
}

/// The refusal of a left side of `new`.
pub fn object_fault(form: Form) -> Option<Fault>
    ensures { result ≡ named.misplaced first_one form (spec.is_object (spec.target_of form)) }
{
    misplaced(form, Target::of(form).is_object())
}

/// The refusal of a left side of `new[..]`.
pub fn resizable_fault(form: Form) -> Option<Fault>
    ensures { result ≡ named.misplaced first_one form (spec.is_resizable (spec.target_of form)) }
{
    misplaced(form, Target::of(form).is_resizable())
}

/// The refusal of a left side of an assignment pattern.
pub fn array_fault(form: Form) -> Option<Fault>
    ensures { result ≡ named.misplaced first_one form (spec.is_array (spec.target_of form)) }
{
    misplaced(form, Target::of(form).is_array())
}

/// The refusal of a left side that takes an answer.
fn taker_fault(form: Form) -> Option<Fault>
    ensures { result ≡ named.misplaced first_one form (spec.is_answer (spec.target_of form) form.members) }
{
    misplaced(form, Target::of(form).is_answer(form.members))
}

/// What the left side of a call's answer is refused for.
pub fn answer_fault(target: &Part) -> Option<Fault>
    ensures { result ≡ named.answer_faults first_one (part_of target.now) }
{
    earlier(target.fault, taker_fault(target.form))
}
