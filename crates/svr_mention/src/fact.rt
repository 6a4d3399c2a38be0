// What an item mentions in a phase.

ghost use Rattle.std.specs.Prelude.{◌≡◌, ◌++◌, OnOk, length, map, option_map};
ghost use Rattle.svr_typed.specs.ExprTerm.{expr_term};
ghost use Rattle.svr_typed.specs.ItemTerm.{dist_terms};
ghost use Rattle.svr_eval.specs.Reading.{reading_of};
ghost use Rattle.svr_eval.specs.Typed.{IsTyped, CanRead};
ghost use Rattle.svr_eval.specs.Holds.{MembersAreTyped, DistIsTyped, MembersCanRead, DistCanRead};
ghost use Rattle.svr_frame.specs.Occurrences as spec;
ghost use Rattle.svr_mention.specs.Mentioned.{mention_in, dist_reads_in, fact_reads_in};

use crate::gather::{add_mentions, add_mentions_of_range};
use crate::mention::Mention;
use crate::setting::Setting;
use sqlite_items::Items;
use std::alloc::Global;
use svr_eval::Env;
use svr_typed::{NoMemory, TDistItem, TExpr};

/// Adds what the members of a distribution and their weights mention.
#[tactic(auto, using(crate::proofs::Appended::then, crate::proofs::Appended::after))]
fn add_dist_mentions(
    alloc: Global,
    dist: &[TDistItem],
    env: &Env,
    set: &Setting<'_>,
    out: &mut Items<Mention>,
) -> Result<(), NoMemory>
    requires typed { MembersAreTyped (dist_terms dist.now) }
    requires reads { MembersCanRead (reading_of set.now.state.now) (length env.now) (dist_terms dist.now) }
    ensures { OnOk result (out.new ≡ out.old ++ map (mention_in set.now) (dist_reads_in set.now env.now (dist_terms dist.now))) }
{
    for d in dist {
        add_mentions_of_range(alloc, &d.range, env, set, out)?;
        if let Some((_, weight)) = &d.weight {
            add_mentions(alloc, weight, env, set, out)?;
        }
    }
    Ok(())
}

/// Adds what a plain item mentions.
#[tactic(auto, using(crate::proofs::Appended::then))]
pub fn add_fact_mentions(
    alloc: Global,
    expr: &TExpr,
    dist: &Option<Items<TDistItem>>,
    env: &Env,
    set: &Setting<'_>,
    out: &mut Items<Mention>,
) -> Result<(), NoMemory>
    requires typed { IsTyped (expr_term expr.now) }
    requires reads { CanRead (reading_of set.now.state.now) (length env.now) (expr_term expr.now) }
    requires dist_typed { DistIsTyped (option_map dist_terms dist.now) }
    requires dist_reads { DistCanRead (reading_of set.now.state.now) (length env.now) (option_map dist_terms dist.now) }
    ensures { OnOk result (out.new ≡ out.old ++ map (mention_in set.now) (fact_reads_in set.now env.now (spec.fact_of (expr_term expr.now) (option_map dist_terms dist.now)))) }
{
    add_mentions(alloc, expr, env, set, out)?;
    if let Some(members) = dist {
        add_dist_mentions(alloc, members.as_slice(), env, set, out)?;
    }
    Ok(())
}
