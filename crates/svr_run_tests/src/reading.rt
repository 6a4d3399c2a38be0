// The printed text of a run, read back: the lines of its calls, and its proofs, each of which the checker judges.

use crate::held::{added, let_go};
use std::alloc::Global;
use svr_chain::{Clause, Cnf, Link, Lit, Refutation, Step, Verdict, check};

/// What was printed: the lines of calls, the calls that print one value each, how many proofs and logs there are, how many of them the checker accepts, and whether the run came to its end.
#[derive(Drop)]
pub(crate) struct Printed {
    pub(crate) lines: Vec<u8>,
    pub(crate) calls: Vec<Told>,
    pub(crate) proofs: u64,
    pub(crate) accepted: u64,
    pub(crate) ended: bool,
}

/// The first value on the line of a call, and how many words stand behind it.
#[derive(Clone, Copy)]
pub(crate) struct Told {
    pub(crate) value: u64,
    pub(crate) behind: usize,
}

/// A proof as it is read, or the log of a question that was given up, which has no goal.
#[derive(Drop)]
struct Proof {
    cnf: Cnf,
    assume: Vec<Lit>,
    log: Refutation,
    is_log: bool,
}

/// The line that is read: its first byte, which says what it is, its words as numbers with a sign, and the last word so far.
#[derive(Drop)]
struct Line {
    kind: u8,
    words: Vec<Lit>,
    word: Option<Lit>,
}

/// A word with one byte more. All but digits and the sign is left out.
fn with_byte(word: Lit, byte: u8) -> Lit {
    match byte {
        b'-' => Lit {
            var: word.var,
            neg: true,
        },
        b'0'..=b'9' => Lit {
            var: word
                .var
                .wrapping_mul(10)
                .wrapping_add(u64::from(byte.wrapping_sub(b'0'))),
            neg: word.neg,
        },
        _ => word,
    }
}

fn end_word(line: &mut Line) {
    if let Some(word) = line.word {
        added(&mut line.words, word);
    }
}

/// Takes one byte of a line.
fn take_byte(line: &mut Line, byte: u8) {
    if line.kind == 0 {
        line.kind = byte;
    } else if byte == b' ' {
        end_word(line);
        line.word = Some(Lit { var: 0, neg: false });
    } else if let Some(word) = line.word {
        line.word = Some(with_byte(word, byte));
    }
}

fn new_line(alloc: Global) -> Line {
    Line {
        kind: 0,
        words: Vec::new(alloc),
        word: None,
    }
}

fn new_proof(alloc: Global) -> Proof {
    Proof {
        cnf: Cnf {
            vars: 0,
            clauses: Vec::new(alloc),
        },
        assume: Vec::new(alloc),
        log: Refutation {
            steps: Vec::new(alloc),
            goal: None,
        },
        is_log: false,
    }
}

/// Begins a proof anew.
fn empty(proof: &mut Proof) {
    proof.cnf.clauses.clear();
    proof.assume.clear();
    proof.log.steps.clear();
    proof.log.goal = None;
    proof.is_log = false;
}

/// The literals of a line that ends with 0.
fn add_lits(words: &[Lit], lits: &mut Vec<Lit>) {
    for word in words {
        if word.var != 0 {
            added(lits, *word);
        }
    }
}

/// The literals of a line in the place of those that were there.
fn set_lits(words: &[Lit], lits: &mut Vec<Lit>) {
    lits.clear();
    add_lits(words, lits);
}

fn clause_of(alloc: Global, words: &[Lit]) -> Clause {
    let mut lits = Vec::new(alloc);
    add_lits(words, &mut lits);
    Clause::new(lits)
}

/// The links of a step: pairs of a pivot and the number of a clause, and 0 behind them.
fn add_links(words: &[Lit], links: &mut Vec<Link>) {
    let mut pivot: Option<Lit> = None;
    for word in words {
        match pivot {
            None => pivot = Some(*word),
            Some(lit) => {
                added(
                    links,
                    Link {
                        pivot: lit,
                        clause: word.var,
                    },
                );
                pivot = None;
            }
        }
    }
}

fn step_of(alloc: Global, words: &[Lit]) -> Step {
    let mut links = Vec::new(alloc);
    let start = match words {
        [first, rest @ ..] => {
            add_links(rest, &mut links);
            first.var
        }
        [] => 0,
    };
    Step { start, links }
}

fn goal_of(words: &[Lit]) -> Option<u64> {
    match words {
        [goal, ..] => Some(goal.var),
        [] => None,
    }
}

/// Whether a proof has a goal, and a log has none, and the checker accepts it.
fn is_accepted(alloc: Global, proof: &Proof) -> bool {
    if proof.log.goal.is_none() != proof.is_log {
        return false;
    }
    match check(alloc, &proof.cnf, proof.assume.as_slice(), &proof.log) {
        Ok(Verdict::Accepted) => true,
        Ok(Verdict::Rejected { .. }) => false,
        Err(_) => false,
    }
}

fn judge(alloc: Global, printed: &mut Printed, proof: &Proof) {
    printed.proofs = printed.proofs.wrapping_add(1);
    if is_accepted(alloc, proof) {
        printed.accepted = printed.accepted.wrapping_add(1);
    }
}

/// `#N p 1 a=V`, and what stands behind it.
fn call_told(words: &[Lit]) -> Option<Told> {
    match words {
        [_object, _answer, value, behind @ ..] => Some(Told {
            value: value.var,
            behind: behind.len(),
        }),
        _ => None,
    }
}

fn take_call(printed: &mut Printed, words: &[Lit]) {
    if let Some(call) = call_told(words) {
        added(&mut printed.calls, call);
    }
}

/// A line of a proof. It begins with `p` and ends with `e`.
fn take_line(alloc: Global, proof: &mut Proof, kind: u8, words: &[Lit]) {
    match kind {
        b'p' => empty(proof),
        b'a' => set_lits(words, &mut proof.assume),
        b'c' => added(&mut proof.cnf.clauses, clause_of(alloc, words)),
        b's' => added(&mut proof.log.steps, step_of(alloc, words)),
        b'g' => proof.log.goal = goal_of(words),
        b'f' => proof.is_log = true,
        _ => {}
    }
}

fn end_line(alloc: Global, printed: &mut Printed, proof: &mut Proof, kind: u8, words: &[Lit]) {
    match kind {
        b'#' => take_call(printed, words),
        b'e' => judge(alloc, printed, proof),
        _ => take_line(alloc, proof, kind, words),
    }
}

/// Begins a line anew.
fn begin_line(line: &mut Line) {
    line.kind = 0;
    line.words.clear();
    line.word = None;
}

/// Takes one byte of a text.
fn take(alloc: Global, printed: &mut Printed, proof: &mut Proof, line: &mut Line, byte: u8) {
    if byte == b'\n' {
        end_word(line);
        end_line(alloc, printed, proof, line.kind, line.words.as_slice());
    } else {
        take_byte(line, byte);
    }
    if line.kind == b'#' {
        added(&mut printed.lines, byte);
    }
    if byte == b'\n' {
        begin_line(line);
    }
}

/// What a text says that was printed.
pub(crate) fn read_back(alloc: Global, text: &[u8], ended: bool) -> Printed {
    let mut printed = Printed {
        lines: Vec::new(alloc),
        calls: Vec::new(alloc),
        proofs: 0,
        accepted: 0,
        ended,
    };
    let mut proof = new_proof(alloc);
    let mut line = new_line(alloc);
    for byte in text {
        take(alloc, &mut printed, &mut proof, &mut line, *byte);
    }
    let_go(proof);
    let_go(line);
    printed
}

/// How many proofs a text has, and how many of them are accepted.
pub(crate) fn counts_of(alloc: Global, text: &[u8]) -> (u64, u64) {
    let printed = read_back(alloc, text, true);
    let counts = (printed.proofs, printed.accepted);
    let_go(printed);
    counts
}
