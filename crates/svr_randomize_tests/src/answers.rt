//! What calls answer.

ghost use Rattle.std.specs.Prelude.{◌≤◌};
ghost use Rattle.svr_world.specs.World.{IsMade};
ghost use Rattle.svr_frame.specs.Frame.{frame_term};
ghost use Rattle.svr_frame.specs.Sound.{IsSound};

use crate::form::Form;
use crate::held::let_go;
use crate::proofs_of::{Judged, proofs_of};
use crate::sample::{sample, world};
use std::alloc::Global;
use svr_call::Outcome;
use svr_frame::Frame;
use svr_phase::Options;
use svr_randomize::randomize;
use svr_world::World;

/// The kinds of answers.
#[derive(Clone, Copy, PartialEq, Eq)]
enum Kind {
    One,
    Zero,
    GaveUp,
    TooHeavy,
    SizeCap,
}

/// What a call answered, with its proofs, and what it left of the object.
#[derive(Clone, Copy)]
struct Seen {
    kind: Kind,
    judged: Judged,
    x: u64,
    y: u64,
    size: u32,
}

fn kind_of(outcome: &Outcome) -> Kind {
    match outcome {
        Outcome::One { .. } => Kind::One,
        Outcome::Zero { .. } => Kind::Zero,
        Outcome::GaveUp { .. } => Kind::GaveUp,
        Outcome::TooHeavy { .. } => Kind::TooHeavy,
        Outcome::SizeCap { .. } => Kind::SizeCap,
    }
}

/// What a call answered, nothing where there was no memory.
fn told<E>(alloc: Global, outcome: &Result<Outcome, E>, world: &World) -> Option<Seen> {
    match outcome {
        Ok(outcome) => Some(Seen {
            kind: kind_of(outcome),
            judged: proofs_of(alloc, outcome),
            x: world.get(0, 0, 0),
            y: world.get(0, 1, 0),
            size: world.size(0, 4),
        }),
        Err(_) => None,
    }
}

fn answer(alloc: Global, frame: &Frame, world: &mut World, seed: u64, budget: u64) -> Option<Seen>
    requires sound { IsSound (frame_term frame.now) }
    requires made { IsMade world.old 0 }
    requires budget { 1 ≤ budget }
{
    let opts = Options {
        seed,
        budget,
        size_cap: 16,
        proofs: false,
    };
    let outcome = randomize(alloc, world, 0, frame, 1, opts);
    let seen = told(alloc, &outcome, world);
    let_go(outcome);
    seen
}

/// The answer of a call to an object that is just made.
fn asked_of(alloc: Global, frame: &Frame, seed: u64, budget: u64) -> Option<Seen>
    requires sound { IsSound (frame_term frame.now) }
    requires budget { 1 ≤ budget }
{
    let mut made = world(alloc);
    let seen = match &mut made {
        Ok(world) => answer(alloc, frame, world, seed, budget),
        Err(_) => None,
    };
    let_go(made);
    seen
}

/// The answer of a call that asks a form, nothing where there was no memory.
fn asked(alloc: Global, form: Form, seed: u64, budget: u64) -> Option<Seen>
    requires { 1 ≤ budget }
{
    let made = sample(alloc, form);
    let seen = match &made {
        Ok(frame) => asked_of(alloc, frame, seed, budget),
        Err(_) => None,
    };
    let_go(made);
    seen
}

/// Whether the values add up to 300.
fn adds_up(seen: Option<Seen>) -> bool {
    match seen {
        Some(seen) => { seen.kind == Kind::One && u128::from(seen.x) + u128::from(seen.y) == 300 }
        None => false,
    }
}

#[test]
fn values_meet_the_items(rt: HostRuntime) {
    for seed in 0..20 {
        assert!(rt; adds_up(asked(rt.alloc(), Form::Sum, seed, 1000)));
    }
}

fn is_same(first: Seen, second: Seen) -> bool {
    first.kind == second.kind
        && first.judged.proofs == second.judged.proofs
        && first.judged.accepted == second.judged.accepted
        && first.x == second.x
        && first.y == second.y
        && first.size == second.size
}

/// Whether two answers were given, which are the same or not, as is told.
fn are_given(first: Option<Seen>, second: Option<Seen>, same: bool) -> bool {
    match first.zip(second) {
        Some((first, second)) => is_same(first, second) == same,
        None => false,
    }
}

/// Whether one seed gives the same values again, and another gives other ones.
fn are_the_words(alloc: Global) -> bool {
    let first = asked(alloc, Form::Free, 1, 1);
    are_given(first, asked(alloc, Form::Free, 1, 1), true)
        && are_given(first, asked(alloc, Form::Free, 2, 1), false)
}

// The two seeds give other words, so that other values are preferred.
#[test]
fn free_values_are_the_words(rt: HostRuntime) {
    assert!(rt; are_the_words(rt.alloc()));
}

/// A form, the budget of its call, the kind of its answer, and how many proofs that carries.
const ANSWERS: [(Form, u64, Kind, u64); 10] = [
    (Form::Never, 1000, Kind::Zero, 1),
    (Form::Product, 100_000, Kind::Zero, 1),
    (Form::Product, 1, Kind::GaveUp, 0),
    (Form::Heavy, 1, Kind::TooHeavy, 0),
    (Form::Soft, 1000, Kind::One, 0),
    (Form::Overruled, 1000, Kind::One, 1),
    (Form::Cyclic, 1000, Kind::One, 0),
    (Form::Sized, 1000, Kind::One, 0),
    (Form::NoSize, 1000, Kind::Zero, 1),
    (Form::Large, 1000, Kind::SizeCap, 1),
];

/// Whether a call answers so, with so many proofs, which the checker accepts.
fn is_so(alloc: Global, form: Form, budget: u64, kind: Kind, proofs: u64) -> bool {
    if budget == 0 {
        return false;
    }
    match asked(alloc, form, 7, budget) {
        Some(seen) => {
            seen.kind == kind && seen.judged.proofs == proofs && seen.judged.accepted == proofs
        }
        None => false,
    }
}

#[test]
fn answers_carry_their_proofs(rt: HostRuntime) {
    for (form, budget, kind, proofs) in &ANSWERS {
        assert!(rt; is_so(rt.alloc(), *form, *budget, *kind, *proofs));
    }
}

/// Whether a call leaves this number in `x`.
fn leaves_x(alloc: Global, form: Form, x: u64) -> bool {
    match asked(alloc, form, 3, 1000) {
        Some(seen) => seen.x == x,
        None => false,
    }
}

/// Whether a call leaves this size.
fn leaves_size(alloc: Global, form: Form, size: u32) -> bool {
    match asked(alloc, form, 3, 1000) {
        Some(seen) => seen.size == size,
        None => false,
    }
}

// The later of two soft items is kept, and the object has the size that was chosen.
#[test]
fn what_is_left(rt: HostRuntime) {
    let alloc = rt.alloc();
    assert!(rt;
        leaves_x(alloc, Form::Soft, 1)
            && leaves_x(alloc, Form::Overruled, 2)
            && leaves_size(alloc, Form::Sized, 3)
            && leaves_size(alloc, Form::Large, 0)
    );
}
