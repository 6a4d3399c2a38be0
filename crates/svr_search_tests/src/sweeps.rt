//! Small questions are answered within the least budget for which that is promised, and rightly.

ghost use Rattle.std.specs.Prelude.{◌≡◌, ◌<◌, ◌≤◌};

use crate::circuit::{Built, Gate, build, is_whole, settle};
use crate::clauses::{are_within, no_wishes};
use crate::memory::{added, let_go};
use std::alloc::Global;
use svr_chain::{Lit, have_opposites};
use svr_query::{Answer, NoMemory};

/// A signal with the value that is assumed of it.
#[derive(Clone, Copy)]
struct Wish {
    signal: usize,
    value: bool,
}

/// A next number of a sequence (D. H. Lehmer's, with the factor of D. E. Knuth's MMIX).
fn next(state: u64) -> u64 {
    state
        .wrapping_mul(6364136223846793005)
        .wrapping_add(1442695040888963407)
}

/// A number below `bound`, which is not 0.
fn below(state: u64, bound: usize) -> usize
    requires { 1 ≤ bound }
    ensures { result < bound }
{
    (state >> 33) as usize % bound
}

/// Gates with random tables over random earlier signals.
fn random_gates(gates: &mut Vec<Gate>, count: u32, size: usize, seed: u64) {
    let mut state = next(seed);
    let mut signals = count.max(1) as usize;
    for _ in 0..size {
        let first = below(state, signals.max(1));
        state = next(state);
        let second = below(state, signals.max(1));
        state = next(state);
        let table = below(state, 16) as u16;
        state = next(state);
        added(
            gates,
            Gate {
                table,
                first,
                second,
            },
        );
        signals = signals.saturating_add(1);
    }
}

/// A gate that tells whether its inputs differ.
fn differ(first: usize, second: usize) -> Gate {
    Gate {
        table: 6,
        first,
        second,
    }
}

/// The parity of the bits in two orders, and whether the two differ.
fn parity_gates(gates: &mut Vec<Gate>, count: u32) {
    let last = count.max(1) as usize - 1;
    let mut signals = last + 1;
    let mut up = 0;
    let mut down = last;
    for place in 1..count as usize {
        added(gates, differ(up, place));
        up = signals;
        added(gates, differ(down, last.saturating_sub(place)));
        down = signals.saturating_add(1);
        signals = signals.saturating_add(2);
    }
    added(gates, differ(up, down));
}

/// The literals that say that the signals have these values.
fn add_assumed(lits: &mut Vec<Lit>, signals: &[Lit], wishes: &[Wish]) {
    for wish in wishes {
        if let Some(lit) = signals.get(wish.signal) {
            added(lits, if wish.value { *lit } else { lit.flipped() });
        }
    }
}

/// Whether the assumed literals can be met; nothing where that is not told.
fn told(answer: &Result<Answer, NoMemory>) -> Option<bool> {
    match answer {
        Ok(Answer::Satisfied(_)) => Some(true),
        Ok(Answer::Refuted(_)) => Some(false),
        _ => None,
    }
}

/// Whether the literals can be met, as the solver tells within the budget; nothing where it does not tell.
fn answered(built: &mut Built, assume: &[Lit], budget: u64) -> Option<bool>
    requires { built.old.solver.vars ≡ built.old.vars }
    ensures { built.new.solver.vars ≡ built.new.vars }
{
    if have_opposites(assume) {
        return Some(false);
    }
    if built.vars > 64 || !are_within(built.vars, assume) || budget == 0 {
        return None;
    }
    let answer = built.solver.ask(assume, no_wishes(built.vars), budget);
    let told = told(&answer);
    let_go(answer);
    told
}

/// Whether the wishes can be met, as the solver tells within the budget; nothing where it does not tell, or a wish is left out.
fn asked(alloc: Global, built: &mut Built, wishes: &[Wish], budget: u64) -> Option<bool>
    requires { built.old.solver.vars ≡ built.old.vars }
    ensures { built.new.solver.vars ≡ built.new.vars }
{
    let mut assume = Vec::new(alloc);
    add_assumed(&mut assume, &built.signals, wishes);
    let are_all = assume.len() == wishes.len();
    let told = answered(built, &assume, budget);
    let_go(assume);
    if are_all { told } else { None }
}

/// Whether the signals have the values of the wishes.
fn are_met(wishes: &[Wish], values: &[bool]) -> bool {
    for wish in wishes {
        match values.get(wish.signal) {
            Some(value) if *value == wish.value => {}
            _ => return false,
        }
    }
    true
}

fn is_met_at_one(
    values: &mut Vec<bool>,
    count: u32,
    gates: &[Gate],
    wishes: &[Wish],
    rows: u64,
) -> bool {
    for row in 0..rows {
        settle(values, count, gates, row);
        if are_met(wishes, values.as_slice()) {
            return true;
        }
    }
    false
}

/// Whether the wishes can be met, as trying all values of the bits tells.
fn tried(alloc: Global, count: u32, gates: &[Gate], wishes: &[Wish], rows: u64) -> bool {
    let mut values = Vec::new(alloc);
    let is_met = is_met_at_one(&mut values, count, gates, wishes, rows);
    let_go(values);
    is_met
}

fn wish_from(state: u64, count: usize) -> Wish
    requires { 1 ≤ count }
{
    Wish {
        signal: below(state, count),
        value: state % 3 == 0,
    }
}

/// Three wishes for some of the signals, and the state behind them.
fn three_wishes(state: &mut u64, count: usize) -> [Wish; 3]
    requires { 1 ≤ count }
{
    let first = next(*state);
    let second = next(first);
    *state = next(second);
    [
        wish_from(first, count),
        wish_from(second, count),
        wish_from(*state, count),
    ]
}

fn is_told(told: Option<bool>, wanted: bool) -> bool {
    match told {
        Some(told) => told == wanted,
        None => false,
    }
}

/// Whether the solver answers eight times as trying tells.
fn agrees(
    alloc: Global,
    built: &mut Built,
    count: u32,
    gates: &[Gate],
    rows: u64,
    state: &mut u64,
) -> bool
    requires { built.old.solver.vars ≡ built.old.vars }
{
    for _ in 0..8 {
        let wishes = three_wishes(state, gates.len() + 1);
        let found = asked(alloc, built, &wishes, rows.saturating_mul(2));
        if !is_told(found, tried(alloc, count, gates, &wishes, rows)) {
            return false;
        }
    }
    true
}

/// Whether questions over random gates are answered as trying all of so many values of the bits tells.
fn is_answered(alloc: Global, count: u32, rows: u64, state: &mut u64) -> bool {
    let mut gates = Vec::new(alloc);
    random_gates(&mut gates, count, 4 * count as usize, count as u64);
    let mut made = build(alloc, count, &gates);
    let found = match &mut made {
        Ok(built) => {
            is_whole(built, count, &gates) && agrees(alloc, built, count, &gates, rows, state)
        }
        Err(_) => false,
    };
    let_go(made);
    let_go(gates);
    found
}

#[test]
fn answers_random_circuits(rt: HostRuntime) {
    let mut state = 1;
    for count in 1..11u32 {
        assert!(rt; is_answered(rt.alloc(), count, 1 << count, &mut state));
    }
}

/// Whether it is refuted that the last signal can be true.
fn is_denied(alloc: Global, built: &mut Built, budget: u64) -> bool
    requires { built.old.solver.vars ≡ built.old.vars }
{
    let wish = Wish {
        signal: built.signals.len().saturating_sub(1),
        value: true,
    };
    is_told(asked(alloc, built, &[wish], budget), false)
}

/// Whether it is refuted that the parities differ.
fn is_refuted(alloc: Global, count: u32, budget: u64) -> bool {
    let mut gates = Vec::new(alloc);
    parity_gates(&mut gates, count);
    let mut made = build(alloc, count, &gates);
    let found = match &mut made {
        Ok(built) => is_whole(built, count, &gates) && is_denied(alloc, built, budget),
        Err(_) => false,
    };
    let_go(made);
    let_go(gates);
    found
}

#[test]
fn refutes_that_two_parities_differ(rt: HostRuntime) {
    for count in 1..9u32 {
        assert!(rt; is_refuted(rt.alloc(), count, 2 << count));
    }
}
