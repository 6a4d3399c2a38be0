// Assignments by what is known of their sides (IEEE 1800-2017, 8.7, 10.4, 7.5.1 and 10.9.1).

ghost use Rattle.std.specs.Prelude.{◌≡◌, pos};
ghost use Rattle.svr_elab_fault.specs.Refusals.{first_one};
ghost use Rattle.svr_elab_part.specs.Elab as elab_spec;
ghost use Rattle.svr_elab_part.specs.Seen.{part_of};
ghost use Rattle.svr_elab_type.specs.Types as types;
ghost use Rattle.svr_elab_type.specs.Seen.{constant_part};
ghost use Rattle.svr_elab_target.specs.Targets as targets;
ghost use Rattle.svr_elab_stmt.specs.Stmts as spec;
ghost use Rattle.svr_elab_stmt.specs.Seen.{stmt_part, values_part};

use crate::part::{StmtPart, ValuesPart};
use crate::set::{make, pattern, resize, set};
use svr_elab_fault::{Fault, earlier, when};
use svr_elab_form::plain;
use svr_elab_names::Dims;
use svr_elab_part::{Form, Part};
use svr_elab_target::{Target, array_fault, object_fault, resizable_fault, settable_fault};
use svr_elab_type::{Constant, is_below};
use svr_limits::ELEMENT_LIMIT;
use svr_refusal::Refusal;

/// Whether a value for an enum is none of it, by its form.
pub(crate) fn is_not(members: Option<u32>, given: Option<u32>) -> bool
    ensures { result ≡ types.is_not members given }
{
    let Some(members) = members else {
        return false;
    };
    match given {
        None => true,
        Some(given) => given != members,
    }
}

/// An object variable that is the whole right side is copied.
fn copied(target: Part, value: Part) -> StmtPart
    ensures value { stmt_part result ≡ spec.copied first_one (part_of target) (part_of value) }
    ensures once { result.count ≡ 1 }
{
    let left_out = when(true, value.form.name, Refusal::LeftOut);
    let fault = earlier(target.fault, earlier(value.fault, left_out));
    drop((target, value));
    StmtPart {
        tree: None,
        fault,
        makes: None,
        count: 1,
    }
}

/// What the sides of `target = value` are refused for.
fn assigned_fault(target: &Part, value: &Part) -> Option<Fault>
    ensures { result ≡ spec.assigned_faults first_one (part_of target.now) (part_of value.now) }
{
    let wrong = settable_fault(target.form);
    let differs = is_not(target.form.members, value.form.members);
    let other = when(differs, value.at, Refusal::EnumAssign);
    earlier(target.fault, earlier(value.fault, earlier(wrong, other)))
}

/// `target = value`, where a value stands.
fn assigned(target: Part, value: Part) -> StmtPart
    ensures value { stmt_part result ≡ spec.assigned first_one (part_of target) (part_of value) }
    ensures once { result.count ≡ 1 }
{
    let fault = assigned_fault(&target, &value);
    let named = Target::of(target.form);
    StmtPart {
        tree: set(named, target.tree, value.tree),
        fault,
        makes: None,
        count: 1,
    }
}

/// `target = value`, where no object variable stands.
fn given_value(target: Part, value: Part) -> StmtPart
    ensures value { stmt_part result ≡ spec.assigned first_one (part_of target) (elab_spec.plain first_one (part_of value)) }
    ensures once { result.count ≡ 1 }
{
    assigned(target, plain(value))
}

/// Whether a right side is an object variable.
fn is_object(form: Form) -> bool
    ensures { result ≡ targets.is_object (targets.target_of form) }
{
    Target::of(form).is_object()
}

/// `target = value`, where any expression stands.
pub fn given(target: Part, value: Part) -> StmtPart
    ensures value { stmt_part result ≡ spec.given first_one (part_of target) (part_of value) }
    ensures once { result.count ≡ 1 }
{
    if is_object(value.form) {
        copied(target, value)
    } else {
        given_value(target, value)
    }
}

/// `target = new`
pub fn made_new(target: Part) -> StmtPart
    ensures value { stmt_part result ≡ spec.made_new first_one (part_of target) }
    ensures once { result.count ≡ 1 }
{
    let named = Target::of(target.form);
    let fault = earlier(target.fault, object_fault(target.form));
    drop(target);
    StmtPart {
        tree: make(named),
        fault,
        makes: named.object(),
        count: 1,
    }
}

fn is_above(most: u32, number: Option<i128>) -> bool
    ensures { result ≡ spec.is_above (pos most) number }
{
    match number {
        None => false,
        Some(number) => i128::from(most) < number,
    }
}

/// What a size itself is refused for.
fn size_fault(size: Constant) -> Option<Fault>
    ensures { result ≡ spec.size_faults first_one (constant_part size) }
{
    let low = when(is_below(0, size.number), size.at, Refusal::BadRange);
    let high = when(
        is_above(ELEMENT_LIMIT, size.number),
        size.at,
        Refusal::TooMany,
    );
    earlier(low, high)
}

/// `target = new[size]`
pub fn resize_stmt(target: Part, size: Constant) -> StmtPart
    ensures value { stmt_part result ≡ spec.resize_stmt first_one (part_of target) (constant_part size) }
    ensures once { result.count ≡ 1 }
{
    let named = Target::of(target.form);
    let wrong = resizable_fault(target.form);
    let bad = size_fault(size);
    let fault = earlier(target.fault, earlier(size.fault, earlier(wrong, bad)));
    drop(target);
    StmtPart {
        tree: resize(named, size.number),
        fault,
        makes: None,
        count: 1,
    }
}

fn has_rows(dims: Dims) -> bool
    ensures { result ≡ spec.has_rows dims }
{
    match dims {
        Dims::Rows(_, _) => true,
        Dims::Scalar | Dims::Fixed(_) | Dims::Dynamic => false,
    }
}

fn is_other_count(many: u32, size: Option<u32>) -> bool
    ensures { result ≡ spec.is_other_count many size }
{
    match size {
        None => false,
        Some(size) => many != size,
    }
}

/// Whether an array of these dimensions has another size than a pattern of so many values.
fn has_other_size(dims: Dims, many: u32) -> bool
    ensures { result ≡ spec.has_other_size dims many }
{
    match dims {
        Dims::Fixed(size) => is_other_count(many, size),
        Dims::Scalar | Dims::Rows(_, _) | Dims::Dynamic => false,
    }
}

/// What so many values are refused for by the dimensions of the array.
fn count_fault(dims: Dims, at: u32, many: u32) -> Option<Fault>
    ensures { result ≡ spec.count_faults first_one dims at many }
{
    let other = when(has_other_size(dims, many), at, Refusal::BadRange);
    let long = when(ELEMENT_LIMIT < many, at, Refusal::TooMany);
    earlier(other, long)
}

/// What a pattern of so many values is refused for by the array.
fn pattern_fault(form: Form, at: u32, many: u32) -> Option<Fault>
    ensures { result ≡ spec.pattern_faults first_one form at many }
{
    let dims = Target::of(form).dims();
    let wrong = array_fault(form);
    let rows = when(has_rows(dims), form.name, Refusal::LeftOut);
    let count = count_fault(dims, at, many);
    earlier(wrong, earlier(rows, count))
}

/// `target = '{ values }`, `at` being the first token of the pattern.
pub fn pattern_stmt(target: Part, at: u32, values: ValuesPart) -> StmtPart
    ensures value { stmt_part result ≡ spec.pattern_stmt first_one (part_of target) at (values_part values) }
    ensures once { result.count ≡ 1 }
{
    let named = Target::of(target.form);
    let own = pattern_fault(target.form, at, values.many);
    let fault = earlier(target.fault, earlier(values.fault, own));
    drop(target);
    StmtPart {
        tree: pattern(named, values.trees),
        fault,
        makes: None,
        count: 1,
    }
}
