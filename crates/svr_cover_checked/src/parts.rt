// Points and crosses (IEEE 1800-2017, 19.5 and 19.6).

ghost use Rattle.std.specs.Prelude.{◌≡◌, [], Some, MatchResult};
ghost use Rattle.svr_token.specs.Names.{names_of};
ghost use Rattle.svr_cover_checked.specs.Numbers.{first_of};
ghost use Rattle.svr_cover_checked.specs.Refusals as spec;
ghost use Rattle.svr_cover_checked.specs.Seen.{seen};
ghost use Rattle.svr_cover_checked.specs.Tables.{found_in};

use crate::bins::check_bins;
use crate::design::{is_same, prop_of};
use crate::fault::{CoverFault, unless};
use crate::limits::{MOST_ALL, MOST_PARTS, MOST_TUPLES};
use crate::names::is_at;
use indexmap::IndexMap;
use sqlite_items::at as item_at;
use std::alloc::Global;
use svr_cover_text::{BinsText, PartText};
use svr_refusal::Refusal;
use svr_token::Names;
use svr_typed::Prop;

/// What the parts of a group are about: what the tokens spell, where each name of a part stands first, the formal argument, the properties of its class, and of each part how many bins it has, if it is a point.
#[derive(Clone, Copy)]
pub struct About<'s, 'a> {
    pub names: Names<'a>,
    pub table: &'s IndexMap<&'a [u8], u32>,
    pub formal: u32,
    pub props: &'s [Prop],
    pub counts: &'s [Option<u64>],
}

/// The count at a place, if there is one.
fn count_at(counts: &[Option<u64>], place: u32) -> Option<u64>
    ensures { result ≡ spec.count_at counts.now place }
{
    match item_at(counts, place as usize) {
        Some(count) => *count,
        None => None,
    }
}

/// One factor more, up to one more than there may be tuples.
fn times(product: u64, factor: u64) -> u64
    ensures { result ≡ spec.times product factor }
{
    product.saturating_mul(factor).min(MOST_TUPLES + 1)
}

/// Whether so many tuples may come to those of the crosses before. Where they are not known, it is the name of a point that is refused.
fn tuples_fit(tuples: Option<u64>, total: u64) -> bool
    ensures { result ≡ spec.tuples_fit tuples total }
{
    match tuples {
        None => true,
        Some(tuples) => tuples <= MOST_TUPLES && total.saturating_add(tuples) <= MOST_ALL,
    }
}

/// With the tuples of a cross.
fn with_tuples(tuples: Option<u64>, total: u64) -> u64
    ensures { result ≡ spec.with_tuples tuples total }
{
    match tuples {
        None => total,
        Some(tuples) => total.saturating_add(tuples),
    }
}

impl About<'_, '_> {
    /// Where the first part of a name stands.
    #[tactic(auto, using(crate::proofs::Named::found))]
    pub fn place(&self, name: u32) -> Option<u32>
        ensures { result ≡ found_in self.now.table.now.entries (names_of self.now.names name) }
    {
        self.table.get(self.names.name(name)).copied()
    }

    /// How many bins the point of this name has that stands before a place.
    fn point_bins(&self, at: usize, name: u32) -> Option<u64>
        ensures { result ≡ spec.point_bins (seen self.now) at name }
    {
        match self.place(name) {
            None => None,
            Some(place) => {
                if (place as usize) < at {
                    count_at(self.counts, place)
                } else {
                    None
                }
            }
        }
    }

    /// How many tuples a cross has, if all its points are known.
    pub fn tuples(&self, at: usize, points: &[u32]) -> Option<u64>
        ensures { result ≡ spec.tuples_from (seen self.now) at 1 points.now }
    {
        let mut product: u64 = 1;
        let mut left = points;
        'points: while let Some((point, others)) = left.split_first() {
            match self.point_bins(at, *point) {
                None => return None,
                Some(bins) => product = times(product, bins),
            }
            left = others;
        }
        Some(product)
    }

    /// Errors: `UnknownCover` at the first name that is no earlier point.
    fn check_points(&self, at: usize, points: &[u32]) -> Result<(), CoverFault>
        ensures { let rs = spec.points_refusals (seen self.now) at points.now in MatchResult result (λ _. rs ≡ []) (λ e. first_of rs ≡ Some e) }
    {
        let mut left = points;
        'points: while let Some((point, others)) = left.split_first() {
            unless(
                self.point_bins(at, *point).is_some(),
                Refusal::UnknownCover,
                *point,
            )?;
            left = others;
        }
        Ok(())
    }

    /// Errors: `DoubleCover`, and `TooManyBins` at one part too many.
    fn check_head(&self, at: usize, name: u32) -> Result<(), CoverFault>
        ensures { let rs = spec.head_refusals (seen self.now) at name in MatchResult result (λ _. rs ≡ []) (λ e. first_of rs ≡ Some e) }
    {
        unless(is_at(self.place(name), at), Refusal::DoubleCover, name)?;
        unless(at < MOST_PARTS, Refusal::TooManyBins, name)
    }

    /// Errors: `UnknownCover` at the formal argument or the property of a point.
    fn check_names(&self, formal: u32, prop: u32) -> Result<(), CoverFault>
        ensures { let rs = spec.names_refusals (seen self.now) formal prop in MatchResult result (λ _. rs ≡ []) (λ e. first_of rs ≡ Some e) }
    {
        let names = self.names;
        unless(
            is_same(names.name(formal), names.name(self.formal)),
            Refusal::UnknownCover,
            formal,
        )?;
        unless(
            prop_of(self.props, names.name(prop)).is_some(),
            Refusal::UnknownCover,
            prop,
        )
    }

    fn check_point(
        &self,
        alloc: Global,
        at: usize,
        name: u32,
        formal: u32,
        prop: u32,
        bins: &[BinsText],
    ) -> Result<(), CoverFault>
        ensures { let rs = spec.point_refusals (seen self.now) at name formal prop bins.now in MatchResult result (λ _. rs ≡ []) (λ e. spec.IsFirst e rs) }
    {
        self.check_head(at, name)?;
        self.check_names(formal, prop)?;
        check_bins(alloc, self.names, bins)
    }

    fn check_cross(
        &self,
        at: usize,
        total: u64,
        name: u32,
        points: &[u32],
    ) -> Result<(), CoverFault>
        ensures { let rs = spec.cross_refusals (seen self.now) at total name points.now in MatchResult result (λ _. rs ≡ []) (λ e. first_of rs ≡ Some e) }
    {
        self.check_head(at, name)?;
        unless(
            tuples_fit(self.tuples(at, points), total),
            Refusal::TooManyBins,
            name,
        )?;
        self.check_points(at, points)
    }

    /// Errors: the first of the part at a place, where all crosses before have so many tuples together.
    pub(crate) fn check_part(
        &self,
        alloc: Global,
        at: usize,
        total: u64,
        part: &PartText,
    ) -> Result<(), CoverFault>
        ensures { let rs = spec.part_refusals (seen self.now) at total part.now in MatchResult result (λ _. rs ≡ []) (λ e. spec.IsFirst e rs) }
    {
        match part {
            PartText::Point {
                name,
                formal,
                prop,
                bins,
            } => self.check_point(alloc, at, *name, *formal, *prop, bins.as_slice()),
            PartText::Cross { name, points } => {
                self.check_cross(at, total, *name, points.as_slice())
            }
        }
    }

    /// With the tuples of a part.
    pub(crate) fn total_behind(&self, at: usize, total: u64, part: &PartText) -> u64
        ensures { result ≡ spec.total_behind (seen self.now) at total part.now }
    {
        match part {
            PartText::Point { .. } => total,
            PartText::Cross { points, .. } => with_tuples(
                self.tuples(at, points.as_slice()),
                total,
            ),
        }
    }
}
