// The targets of `disable soft` items, found by property and index (IEEE 1800-2017, 18.5.14.2).

ghost use Rattle.std.specs.Prelude.{◌≡◌, ◌==◌, ◌||◌, ◌&&◌, ℕ, ℤ, [], nat_eq, slice_index, OnOk};
ghost use Rattle.std.specs.List.{list_any};
ghost use Rattle.std.specs.HashSet.{contains};
ghost use Rattle.std.specs.Ordering.{int_eq};
ghost use Rattle.svr_expand.specs.Expanded.{has_place_below};
ghost use Rattle.svr_mention.specs.declared.mention.Mention.TheVariants as mentioned;
ghost use Rattle.svr_mention.specs.declared.mention.Spot.TheVariants as spot;
ghost use Rattle.svr_expand.specs.Targeted as spec;
ghost use Rattle.svr_expand.specs.Targeted.{HoldsTargets, AddsTarget};

use std::alloc::Global;
use std::collections::HashSet;
use svr_frame::size_at;
use svr_mention::{Mention, Spot};
use svr_typed::NoMemory;

/// The targets of the `disable soft` items behind a place.
#[derive(Drop)]
pub(crate) struct Targets {
    /// properties as a whole
    whole: HashSet<u32>,
    /// elements, by array and index
    elements: HashSet<(u32, i128)>,
    /// arrays of which an element that they have is a target
    placed: HashSet<u32>,
}

/// Whether an array has an element at the index.
fn has_place(sizes: &[u32], prop: u32, index: i128) -> bool
    ensures { result ≡ has_place_below (λ p. slice_index sizes.now p) prop index }
{
    0 <= index && index < i128::from(size_at(sizes, prop))
}

fn insert_property(set: &mut HashSet<u32>, prop: u32) -> Result<(), NoMemory>
    ensures { OnOk result ((q : ℕ) → contains nat_eq set.new q ≡ (contains nat_eq set.old q || (prop == q))) }
{
    match set.insert(prop) {
        Ok(_) => Ok(()),
        Err(_) => Err(NoMemory),
    }
}

fn insert_element(set: &mut HashSet<(u32, i128)>, prop: u32, index: i128) -> Result<(), NoMemory>
    ensures { OnOk result ((q : ℕ) (w : ℤ) → contains spec.same_element set.new (q, w) ≡ (contains spec.same_element set.old (q, w) || ((prop == q) && int_eq index w))) }
{
    match set.insert((prop, index)) {
        Ok(_) => Ok(()),
        Err(_) => Err(NoMemory),
    }
}

impl Targets {
    pub(crate) fn new(alloc: Global) -> Targets
        ensures { (size : ℕ → ℕ) → HoldsTargets size result [] }
    {
        Targets {
            whole: HashSet::new(alloc),
            elements: HashSet::new(alloc),
            placed: HashSet::new(alloc),
        }
    }

    /// Adds an element at an index.
    fn add_element(&mut self, prop: u32, index: i128, sizes: &[u32]) -> Result<(), NoMemory>
        ensures { OnOk result (AddsTarget (λ p. slice_index sizes.now p) self.old self.new (mentioned.Element prop (spot.At index))) }
    {
        insert_element(&mut self.elements, prop, index)?;
        if has_place(sizes, prop, index) {
            insert_property(&mut self.placed, prop)?;
        }
        Ok(())
    }

    /// Adds a target, where arrays have these sizes.
    pub(crate) fn add(&mut self, target: Mention, sizes: &[u32]) -> Result<(), NoMemory>
        ensures { OnOk result (AddsTarget (λ p. slice_index sizes.now p) self.old self.new target) }
    {
        match target {
            Mention::Scalar(prop) => insert_property(&mut self.whole, prop),
            Mention::Element(prop, Spot::At(index)) => self.add_element(prop, index, sizes),
            Mention::Element(_, Spot::Anywhere | Spot::Nowhere)
            | Mention::Elements(_)
            | Mention::Size(_) => Ok(()),
        }
    }

    /// Whether an element that is mentioned is a target.
    fn removes_element(&self, prop: u32, at: Spot) -> bool
        ensures { result ≡ spec.removes_element self.now prop at }
    {
        match at {
            Spot::Anywhere => self.placed.contains(&prop),
            Spot::At(index) => self.elements.contains(&(prop, index)),
            Spot::Nowhere => false,
        }
    }

    /// Whether what is mentioned is a target.
    fn removes_one(&self, mention: Mention) -> bool
        ensures { result ≡ spec.removes_one self.now mention }
    {
        match mention {
            Mention::Scalar(prop) | Mention::Size(prop) => self.whole.contains(&prop),
            Mention::Element(prop, at) => {
                self.whole.contains(&prop) || self.removes_element(prop, at)
            }
            Mention::Elements(prop) => { self.whole.contains(&prop) || self.placed.contains(&prop) }
        }
    }

    /// Whether a target is mentioned.
    pub(crate) fn removes(&self, mentions: &[Mention]) -> bool
        ensures { result ≡ list_any (spec.removes_one self.now) mentions.now }
    {
        for mention in mentions {
            if self.removes_one(*mention) {
                return true;
            }
        }
        false
    }
}
