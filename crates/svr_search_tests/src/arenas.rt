// An arena of one clause, and one of two.

ghost use Rattle.std.specs.Prelude.{◌≡◌, ◌<◌, ◌≤◌, true, [], Some, IfSome};
ghost use Rattle.svr_arena.specs.Layout.{names, watched, first, is_in};
ghost use Rattle.svr_arena.specs.Arena.{body};

use crate::memory::let_go;
use std::alloc::Global;
use svr_arena::Arena;

/// Whether an attached clause keeps its literals and is watched at the first two of them.
fn is_attached(arena: &mut Arena) -> bool
    requires codes { arena.old.codes ≡ 6 }
    requires names { names arena.old ≡ [] }
    requires spare { 11 ≤ arena.old.spare }
{
    let clause = arena.add(&[0, 2, 4]);
    let is_kept = arena.lits(clause) == [0, 2, 4].as_slice();
    arena.attach(clause);
    is_kept
        && arena.first_watch(0) == Some(clause)
        && arena.first_watch(2) == Some(clause)
        && arena.first_watch(4).is_none()
}

/// The first clause on the list of a literal.
fn first_on(arena: &Arena, lit: u64) -> Option<u64>
    requires { lit < arena.now.codes }
    ensures { IfSome result (λ c. is_in c (watched arena.now lit) ≡ true) }
{
    arena.first_watch(lit)
}

/// The clause behind one on the list of a literal.
fn next_on(arena: &Arena, clause: u64, lit: u64) -> Option<u64>
    requires lit { lit < arena.now.codes }
    requires on { is_in clause (watched arena.now lit) ≡ true }
    ensures { IfSome result (λ c. is_in c (watched arena.now lit) ≡ true) }
{
    arena.next_watch(clause, lit)
}

/// Whether just these clauses are on the list of a literal, in this order.
fn is_list(arena: &Arena, lit: u64, clauses: &[u64]) -> bool
    requires { lit < arena.now.codes }
{
    let mut at = first_on(arena, lit);
    for wanted in clauses {
        match at {
            Some(clause) => {
                if clause != *wanted {
                    return false;
                }
                at = next_on(arena, clause, lit);
            }
            None => return false,
        }
    }
    at.is_none()
}

/// Whether a clause has these literals, and stands first on the list of one.
#[tactic(auto, using(crate::proofs::Firsts::first_is_on))]
fn is_first(arena: &Arena, clause: u64, lit: u64, lits: &[u64]) -> bool
    requires lit { lit < arena.now.codes }
    requires name { is_in clause (names arena.now) ≡ true }
    ensures lits { result ≡ true → body arena.now clause ≡ lits.now }
    ensures first { result ≡ true → first (watched arena.now lit) ≡ Some clause }
    ensures on { result ≡ true → is_in clause (watched arena.now lit) ≡ true }
{
    arena.lits(clause) == lits && arena.first_watch(lit) == Some(clause)
}

/// Two attached clauses, which share a literal.
fn two_attached(arena: &mut Arena) -> (u64, u64)
    requires codes { arena.old.codes ≡ 6 }
    requires names { names arena.old ≡ [] }
    requires spare { 11 ≤ arena.old.spare }
    ensures codes { arena.new.codes ≡ 6 }
    ensures long { is_in result.0 (names arena.new) ≡ true }
    ensures short { is_in result.1 (names arena.new) ≡ true }
{
    let long = arena.add(&[0, 2, 4]);
    arena.attach(long);
    let short = arena.add(&[2, 5]);
    arena.attach(short);
    (long, short)
}

/// Whether both are on the lists of their first two literals, and on no other.
fn are_attached(arena: &Arena, long: u64, short: u64) -> bool
    requires { arena.now.codes ≡ 6 }
{
    is_list(arena, 0, &[long])
        && is_list(arena, 1, &[])
        && is_list(arena, 2, &[short, long])
        && is_list(arena, 3, &[])
        && is_list(arena, 4, &[])
        && is_list(arena, 5, &[short])
}

/// Whether the long clause gives its first literal for its last.
fn is_moved(arena: &mut Arena, long: u64) -> bool
    requires codes { arena.old.codes ≡ 6 }
    requires name { is_in long (names arena.old) ≡ true }
    ensures codes { arena.new.codes ≡ 6 }
    ensures names { names arena.new ≡ names arena.old }
{
    if !is_first(arena, long, 0, &[0, 2, 4]) {
        return false;
    }
    arena.move_watch(None, long, 0, 2);
    arena.lits(long) == [4, 2, 0].as_slice()
}

/// Whether the long clause is on the list of its new first literal, and no longer on that of the old one.
fn are_moved(arena: &Arena, long: u64, short: u64) -> bool
    requires { arena.now.codes ≡ 6 }
{
    is_list(arena, 0, &[])
        && is_list(arena, 2, &[short, long])
        && is_list(arena, 4, &[long])
        && is_list(arena, 5, &[short])
}

/// Whether the short clause could be taken off its lists.
#[tactic(auto, using(crate::proofs::Firsts::leads))]
fn is_detached(arena: &mut Arena, short: u64) -> bool
    requires codes { arena.old.codes ≡ 6 }
    requires name { is_in short (names arena.old) ≡ true }
    ensures { arena.new.codes ≡ 6 }
{
    if !is_first(arena, short, 2, &[2, 5]) {
        return false;
    }
    arena.detach(short);
    true
}

/// Whether the long clause alone is left.
fn is_alone(arena: &Arena, long: u64) -> bool
    requires { arena.now.codes ≡ 6 }
{
    is_list(arena, 2, &[long]) && is_list(arena, 4, &[long]) && is_list(arena, 5, &[])
}

/// Whether both clauses are watched at their first two literals, a watch that is moved goes from its old list to its new one, and a clause that is detached is on none.
fn are_watched(arena: &mut Arena) -> bool
    requires codes { arena.old.codes ≡ 6 }
    requires names { names arena.old ≡ [] }
    requires spare { 11 ≤ arena.old.spare }
{
    let (long, short) = two_attached(arena);
    are_attached(arena, long, short)
        && is_moved(arena, long)
        && are_moved(arena, long, short)
        && is_detached(arena, short)
        && is_alone(arena, long)
}

/// Whether an arena is right that is to have one clause, or two.
fn is_right(arena: &mut Arena, is_one: bool) -> bool
    requires codes { arena.old.codes ≡ 6 }
    requires names { names arena.old ≡ [] }
{
    match arena.reserve(11) {
        Ok(()) => {
            if is_one {
                is_attached(arena)
            } else {
                are_watched(arena)
            }
        }
        Err(_) => false,
    }
}

fn holds(alloc: Global, is_one: bool) -> bool {
    let mut made = Arena::new(alloc, 3);
    let is_so = match &mut made {
        Ok(arena) => is_right(arena, is_one),
        Err(_) => false,
    };
    let_go(made);
    is_so
}

#[test]
fn attaches_a_clause(rt: HostRuntime) {
    assert!(rt; holds(rt.alloc(), true));
}

#[test]
fn moves_and_detaches_watches(rt: HostRuntime) {
    assert!(rt; holds(rt.alloc(), false));
}
