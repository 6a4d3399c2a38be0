// The words of a call, and what it prefers with ample memory.

ghost use Rattle.std.specs.Prelude.{◌≡◌, ◌≤◌, IfOk, None, [], pos, true, false};
ghost use Rattle.svr_typed.specs.ClassTerm.{flat_term};
ghost use Rattle.svr_frame.specs.Frame.{frame_term};
ghost use Rattle.svr_draw.specs.Examples.{sample_frame};

use crate::held::{both, copied, let_go, listed};
use sqlite_items::Items;
use std::alloc::Global;
use svr_draw::{Draws, preferred};
use svr_eval::Assign;
use svr_frame::{Frame, Part};
use svr_operator::Rand;
use svr_typed::{ArrayKind, EnumType, FlatClass, NoMemory, NumType, Prop, TBlock, TItem, Text};

/// The words that are drawn first under the seed 42, with the stream 54.
const WORDS: [u64; 3] = [
    0x86b1_da1d_7206_2b68,
    0x1304_aa46_c985_3d39,
    0xa367_0e9e_0dd5_0358,
];

#[test]
fn words_are_those_of_the_generator(rt: HostRuntime) {
    let mut draws = Draws::new(42, 54);
    for word in &WORDS {
        assert!(rt; draws.word() == *word);
    }
}

fn byte(alloc: Global, array: ArrayKind) -> Prop
    ensures { result ≡ record { name = []; kind = record { width = 8; signed = false; members = None }; rand = Rand.Rand; array = array; first = 0; low = pos 0; can = true; inner = 1 } }
{
    Prop {
        name: Text::from_vec(Vec::new(alloc)),
        kind: NumType {
            width: 8,
            signed: false,
            members: None,
        },
        rand: Rand::Rand,
        array,
        first: 0,
        low: 0,
        can: true,
        inner: 1,
    }
}

/// A random scalar and a random array whose size is to be chosen, both of bytes.
fn sample_class(alloc: Global) -> Result<FlatClass, NoMemory>
    ensures { IfOk result (λ class. flat_term class ≡ sample_frame.class) }
{
    let scalar = byte(alloc, ArrayKind::Scalar);
    let props = listed(alloc, [scalar, byte(alloc, ArrayKind::Dynamic)])?;
    Ok(FlatClass::new(props, Items::<TBlock>::new(alloc)))
}

fn sample_values(alloc: Global) -> Result<Items<Items<u64>>, NoMemory>
    ensures { IfOk result (λ values. values ≡ sample_frame.state.values) }
{
    let scalar = copied(alloc, &[0])?;
    listed(alloc, [scalar, Items::<u64>::new(alloc)])
}

fn sample_state(alloc: Global) -> Result<Assign, NoMemory>
    ensures { IfOk result (λ state. state ≡ sample_frame.state) }
{
    let (values, sizes) = both(sample_values(alloc), copied(alloc, &[1, 0]))?;
    Ok(Assign {
        values,
        sizes,
        script: Items::<u64>::new(alloc),
    })
}

fn sample(alloc: Global) -> Result<Frame, NoMemory>
    ensures { IfOk result (λ frame. frame_term frame ≡ sample_frame) }
{
    let flags = both(copied(alloc, &[true, true]), copied(alloc, &[false, true]));
    let parts = both(sample_state(alloc), sample_class(alloc));
    let ((random, free_size), (state, class)) = both(flags, parts)?;
    Ok(Frame {
        random,
        free_size,
        state,
        class,
        enums: Items::<EnumType>::new(alloc),
        items: Items::<TItem>::new(alloc),
    })
}

/// What the 54th call under the seed 42 prefers where the array has this size, with the cap 64.
fn preferred_at(alloc: Global, frame: &Frame, part: Part, size: u32) -> Result<Assign, NoMemory>
    requires sample { frame_term frame.now ≡ sample_frame }
    requires limit { size ≤ 2048 }
{
    let mut draws = Draws::new(42, 54);
    preferred(alloc, &mut draws, frame, part, &[1, size], 64)
}

/// Whether this size, this scalar and this first element are preferred.
fn is_preferred(
    alloc: Global,
    frame: &Frame,
    part: Part,
    size: u32,
    wanted: (u32, u64, u64),
) -> bool
    requires sample { frame_term frame.now ≡ sample_frame }
    requires limit { size ≤ 2048 }
{
    let (wanted_size, scalar, first) = wanted;
    let found = preferred_at(alloc, frame, part, size);
    let is_so = match &found {
        Ok(values) => {
            values.size(1) == wanted_size
                && values.element(0, 0) == scalar
                && values.element(1, 0) == first
        }
        Err(_) => false,
    };
    let_go(found);
    is_so
}

/// Whether each part takes what the parts before it leave.
fn are_in_order(alloc: Global, frame: &Frame) -> bool
    requires { frame_term frame.now ≡ sample_frame }
{
    is_preferred(alloc, frame, Part::Randc, 2, (2, 0, 0))
        && is_preferred(alloc, frame, Part::Sizes, 2, (35, 57, 0))
        && is_preferred(alloc, frame, Part::All, 1, (1, 57, 88))
}

#[test]
fn sizes_come_first(rt: HostRuntime) {
    let frame = sample(rt.alloc());
    let is_so = match &frame {
        Ok(frame) => are_in_order(rt.alloc(), frame),
        Err(_) => false,
    };
    let_go(frame);
    assert!(rt; is_so);
}
