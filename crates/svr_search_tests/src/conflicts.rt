// A conflict at the first level.

ghost use Rattle.std.specs.Prelude.{◌≡◌, [], IfOk, IfSome};
ghost use Rattle.svr_trail.specs.Trail.{IsFault};

use crate::clauses::{cnf, lits};
use crate::memory::let_go;
use std::alloc::Global;
use std::marker::Brand;
use std::sync::ledger::{Blank, Ledger};
use svr_cdcl::{NoMemory, Search};
use svr_chain::Clause;
use svr_watch::Steps;

fn count_visits<L: Ledger>(blank: Blank, search: &mut Search) -> Option<u64>
    requires name { blank.name ≡ L.name }
    requires parts { blank.parts ≡ L.parts }
    requires one { blank.parts ≡ 1 }
    ensures vars { search.new.vars ≡ search.old.vars }
    ensures ends { search.new.ends ≡ search.old.ends }
    ensures fault { IfSome result (IsFault search.new.clauses search.new.entries) }
{
    let mut steps: Steps<L> = Steps::new(blank);
    search.propagate(&mut steps)
}

fn propagate(search: &mut Search) -> Option<u64>
    ensures vars { search.new.vars ≡ search.old.vars }
    ensures ends { search.new.ends ≡ search.old.ends }
    ensures fault { IfSome result (IsFault search.new.clauses search.new.entries) }
{
    count_visits::<Brand>(Blank::new(1), search)
}

/// Whether no literal is needed to explain that the clauses conflict.
fn is_explained(search: &mut Search) -> bool {
    match propagate(search) {
        Some(number) => {
            let explained = search.explain(number, None);
            let is_so = match &explained {
                Ok(explained) => explained.lits.lits().is_empty(),
                Err(_) => false,
            };
            let_go(explained);
            is_so
        }
        None => false,
    }
}

/// Whether the negation of 1 is learned as the second clause.
fn is_learned(alloc: Global, search: &mut Search) -> Result<bool, NoMemory>
    requires vars { search.old.vars ≡ 1 }
    requires level { search.old.ends ≡ [] }
{
    let number = search.learn(Clause::new(lits(alloc, 1, &[-1])?))?;
    Ok(number == 2)
}

/// Whether nothing conflicts, until the negation of 1 is learned as the second clause.
fn conflicts(alloc: Global, search: &mut Search) -> bool
    requires vars { search.old.vars ≡ 1 }
    requires level { search.old.ends ≡ [] }
{
    if propagate(search).is_some() || search.level() != 0 {
        return false;
    }
    match is_learned(alloc, search) {
        Ok(is_learned) => is_learned && is_explained(search),
        Err(_) => false,
    }
}

/// A search over the clause of 1 alone.
fn search_of(alloc: Global) -> Result<Search, NoMemory>
    ensures vars { IfOk result (λ search. search.vars ≡ 1) }
    ensures level { IfOk result (λ search. search.ends ≡ []) }
{
    let cnf = cnf(alloc, 1, &[&[1]])?;
    let search = Search::new(alloc, &cnf);
    let_go(cnf);
    search
}

#[test]
fn explains_a_conflict_at_level_0(rt: HostRuntime) {
    let mut made = search_of(rt.alloc());
    let found = match &mut made {
        Ok(search) => conflicts(rt.alloc(), search),
        Err(_) => false,
    };
    let_go(made);
    assert!(rt; found);
}
