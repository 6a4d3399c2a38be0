//! A call that is sound by proof.

ghost use Rattle.std.specs.Prelude.{◌≡◌, IfOk};
ghost use Rattle.svr_typed.specs.ClassTerm.{flat_term};
ghost use Rattle.svr_frame.specs.Frame.{frame_term};
ghost use Rattle.svr_blast_tests.specs.Sample as spec;

use crate::held::{both, copied, listed};
use sqlite_items::Items;
use std::alloc::Global;
use svr_eval::Assign;
use svr_frame::{Frame, Part, Slot};
use svr_operator::Rand;
use svr_typed::{ArrayKind, EnumType, FlatClass, NoMemory, NumType, Prop, TBlock, TItem, Text};

fn random_prop(alloc: Global, array: ArrayKind, width: u8, inner: u32) -> Prop
    ensures { result ≡ spec.random_prop array width inner }
{
    Prop {
        name: Text::from_vec(Vec::new(alloc)),
        kind: NumType {
            width,
            signed: false,
            members: None,
        },
        rand: Rand::Rand,
        array,
        first: 0,
        low: 0,
        can: true,
        inner,
    }
}

fn sample_class(alloc: Global) -> Result<FlatClass, NoMemory>
    ensures { IfOk result (λ class. flat_term class ≡ spec.sample_frame.class) }
{
    let x = random_prop(alloc, ArrayKind::Scalar, 4, 1);
    let y = random_prop(alloc, ArrayKind::Scalar, 4, 1);
    let z = random_prop(alloc, ArrayKind::Scalar, 4, 1);
    let row = random_prop(alloc, ArrayKind::Fixed(3), 2, 1);
    let table = random_prop(alloc, ArrayKind::Fixed(4), 1, 2);
    let list = random_prop(alloc, ArrayKind::Dynamic, 2, 1);
    let props = listed(alloc, [x, y, z, row, table, list])?;
    Ok(FlatClass::new(props, Items::<TBlock>::new(alloc)))
}

fn sample_values(alloc: Global) -> Result<Items<Items<u64>>, NoMemory>
    ensures { IfOk result (λ values. values ≡ spec.sample_frame.state.values) }
{
    let scalars = both(
        copied(alloc, &[0]),
        both(copied(alloc, &[0]), copied(alloc, &[0])),
    );
    let arrays = both(copied(alloc, &[1, 2, 3]), copied(alloc, &[0, 0, 0, 0]));
    let ((x, (y, z)), (row, table)) = both(scalars, arrays)?;
    listed(alloc, [x, y, z, row, table, Items::<u64>::new(alloc)])
}

fn sample_state(alloc: Global) -> Result<Assign, NoMemory>
    ensures { IfOk result (λ state. state ≡ spec.sample_frame.state) }
{
    let numbers = both(copied(alloc, &[1, 1, 1, 3, 4, 0]), copied(alloc, &[9]));
    let (values, (sizes, script)) = both(sample_values(alloc), numbers)?;
    Ok(Assign {
        values,
        sizes,
        script,
    })
}

/// The call.
pub(crate) fn sample(alloc: Global) -> Result<Frame, NoMemory>
    ensures { IfOk result (λ frame. frame_term frame ≡ spec.sample_frame) }
{
    let random = copied(alloc, &[true, true, true, true, true, true]);
    let flags = both(
        random,
        copied(alloc, &[false, false, false, false, false, true]),
    );
    let parts = both(sample_class(alloc), sample_state(alloc));
    let ((class, state), (random, free_size)) = both(parts, flags)?;
    Ok(Frame {
        class,
        enums: Items::<EnumType>::new(alloc),
        state,
        random,
        free_size,
        items: Items::<TItem>::new(alloc),
    })
}

/// The unknowns of a phase of the call.
pub(crate) fn slots_of(alloc: Global, part: Part) -> Result<Vec<Slot>, NoMemory>
    ensures { IfOk result (λ slots. slots.items ≡ spec.sample_slots part) }
{
    match part {
        Part::Randc => Ok(Vec::new(alloc)),
        Part::Sizes => {
            let table = [
                Slot::Size(5),
                Slot::Scalar(0),
                Slot::Scalar(1),
                Slot::Scalar(2),
            ];
            Ok(Vec::from_slice(alloc, &table)?)
        }
        Part::All => {
            let table = [
                Slot::Scalar(0),
                Slot::Scalar(1),
                Slot::Scalar(2),
                Slot::Element(3, 0),
                Slot::Element(3, 1),
                Slot::Element(3, 2),
                Slot::Element(4, 0),
                Slot::Element(4, 1),
                Slot::Element(4, 2),
                Slot::Element(4, 3),
            ];
            Ok(Vec::from_slice(alloc, &table)?)
        }
    }
}
