// The counters of groups over a design.

ghost use Rattle.std.specs.Prelude.{◌≡◌, ◌≤◌, ◌<◌, ◌^◌, List, length, IfOk, IfErr};
ghost use Rattle.svr_limits.specs.declared.limit.TheConstants.{TEXT_LIMIT};
ghost use Rattle.svr_token.specs.Names.{names_of};
ghost use Rattle.svr_typed.specs.StmtTerm.{design_term};
ghost use Rattle.svr_cover_checked.specs.declared.fault.CoverFault.{CoverFault as FaultType};
ghost use Rattle.svr_cover_checked.specs.Refusals.{IsFirst, refusals};
ghost use Rattle.svr_cover.specs.Cover.{unsampled};
ghost use Rattle.svr_coverage.specs.Counters as spec;

use crate::classes::named_classes;
use crate::fault::{CoverageFault, at_token};
use sqlite_items::Items;
use std::alloc::Global;
use svr_cover::Cover;
use svr_cover_checked::{CoverFault, check};
use svr_cover_made::{Made, make};
use svr_cover_report::GroupNames;
use svr_cover_text::GroupText;
use svr_token::{Names, Token};
use svr_typed::{Design, FlatClass, NoMemory, TClass};

/// The counters of groups before the first sample, and what their report names.
#[derive(Drop)]
pub struct Counters {
    pub cover: Cover,
    pub names: Items<GroupNames>,
}

/// Counters of which none has counted yet.
fn begun(alloc: Global, made: Made) -> Result<Counters, NoMemory>
    ensures cover { IfOk result (λ c. c.cover ≡ unsampled made.groups made.counters) }
    ensures names { IfOk result (λ c. c.names ≡ made.names) }
    ensures few { made.counters < 2 ^ 32 }
{
    let Made {
        groups,
        names,
        counters,
    } = made;
    let cover = Cover::new(alloc, groups, counters)?;
    Ok(Counters { cover, names })
}

/// The counters of groups in which nothing is refused.
fn counters_of(
    alloc: Global,
    names: Names<'_>,
    classes: &[TClass],
    flats: &[FlatClass],
    groups: &[GroupText],
) -> Result<Counters, CoverageFault>
    ensures counters { IfOk result (spec.AreMade (names_of names.entry) classes.now flats.now groups.now) }
    ensures memory { IfErr result (λ e. e ≡ CoverageFault.NoMemory) }
{
    let made = make(alloc, names, classes, flats, groups)?;
    let counters = begun(alloc, made)?;
    Ok(counters)
}

/// The first refusal of groups, at its place.
fn placed(text: &[u8], tokens: &[Token], fault: CoverFault) -> CoverageFault
    requires { length text.now ≤ TEXT_LIMIT }
    ensures { (rs : List FaultType) → IsFirst fault rs → spec.HaveFirst text.now tokens.now rs result }
{
    match fault {
        CoverFault::Refused { number, token } => at_token(text, tokens, token, number),
        CoverFault::NoMemory => CoverageFault::NoMemory,
    }
}

/// The counters of groups over classes, or their first refusal.
fn checked(
    alloc: Global,
    names: Names<'_>,
    classes: &[TClass],
    flats: &[FlatClass],
    groups: &[GroupText],
) -> Result<Counters, CoverageFault>
    requires { length names.text.now ≤ TEXT_LIMIT }
    ensures counters { IfOk result (spec.AreCounters (names_of names.entry) classes.now flats.now groups.now) }
    ensures refused { IfErr result (spec.HaveFirst names.entry.text.now names.entry.tokens.now (refusals (names_of names.entry) classes.now flats.now groups.now)) }
{
    match check(alloc, names, classes, flats, groups) {
        Ok(()) => counters_of(alloc, names, classes, flats, groups),
        Err(fault) => Err(placed(names.text, names.tokens, fault)),
    }
}

/// The counters of the groups of a text over the design of its script (IEEE 1800-2017, 19.5, 19.6 and 19.8).
///
/// Errors: the first refusal of the groups in the order of the text, at one place that of the lower number, from 32 to 35.
pub fn make_counters(
    alloc: Global,
    names: Names<'_>,
    design: &Design,
    groups: &[GroupText],
) -> Result<Counters, CoverageFault>
    requires { length names.text.now ≤ TEXT_LIMIT }
    ensures counters { IfOk result (spec.HasCounters (design_term design.now) (names_of names.entry) groups.now) }
    ensures refused { IfErr result (spec.AreRefused (design_term design.now) names.entry.text.now names.entry.tokens.now groups.now) }
{
    let classes = design.classes.as_slice();
    match named_classes(alloc, names, design, groups) {
        Ok(flats) => checked(alloc, names, classes, flats.as_slice(), groups),
        Err(NoMemory) => Err(CoverageFault::NoMemory),
    }
}
