// One step of the search: a clause is learned from a false one.

ghost use Rattle.std.specs.Prelude.{◌≡◌, ◌+◌, ◌≤◌, ◌<◌, IfOk, length, take};
ghost use Rattle.svr_query.specs.Logged.{IsLogged};
ghost use Rattle.svr_trail.specs.Trail.{IsFault, IsGrown};

use crate::memory::NoMemory;
use crate::order::Order;
use svr_cdcl::Search;
use svr_chain::{Clause, Step};

/// Learns from a false clause above level 0, returns to the level at which the learned clause sets a literal, and puts the step that derives it behind the others. The answer is how many entries of the trail were kept.
pub fn learn_from(
    cnf: &[Clause],
    search: &mut Search,
    steps: &mut Vec<Step>,
    order: &mut Order,
    number: u64,
) -> Result<usize, NoMemory>
    requires fault { IsFault search.old.clauses search.old.entries number }
    requires above { 0 < length search.old.ends }
    requires logged { IsLogged cnf.now steps.old.items search.old }
    ensures vars { search.new.vars ≡ search.old.vars }
    ensures logged { IsLogged cnf.now steps.new.items search.new }
    ensures begins { take (length steps.old.items) steps.new.items ≡ steps.old.items }
    ensures few { length steps.new.items ≤ length steps.old.items + 1 }
    ensures more { IfOk result (λ _. length steps.new.items ≡ length steps.old.items + 1) }
    ensures kept { IfOk result (λ n. n ≤ length search.old.entries) }
    ensures grown { IfOk result (λ n. IsGrown search.new.clauses (take n search.old.entries) search.new.entries) }
{
    let present = search.level();
    order.fill()?;
    let learned = search.analyse(number)?;
    order.bump(&learned);
    order.put_back(search.entries(), present.saturating_sub(learned.level));
    search.backjump(learned.level);
    let kept = search.entries().len();
    steps.reserve(1)?;
    search.learn(learned.lits)?;
    steps.push_reserved(learned.step);
    Ok(kept)
}
