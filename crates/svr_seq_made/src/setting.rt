// The names of a text and what they stand for.

ghost use Rattle.std.specs.Prelude.{◌≡◌, ◌<◌, ◌^◌, ◌∷◌, ◌++◌, [], Some, map, IfOk, IfErr, MatchResult, length};
ghost use Rattle.std.specs.List.{list_any};
ghost use Rattle.svr_token.specs.Names.{names_of};
ghost use Rattle.svr_seq_made.specs.Blocks.{value_of};
ghost use Rattle.svr_seq_made.specs.Refusals as spec;
ghost use Rattle.svr_seq_made.specs.Refusals.{first_of};
ghost use Rattle.svr_seq_made.specs.Tables.{entry_of, found_in};

use crate::fault::{SeqFault, refused, unless};
use crate::numbers::value;
use indexmap::IndexMap;
use std::alloc::Global;
use svr_refusal::Refusal;
use svr_seq::SEQUENCE_LIMIT;
use svr_seq_text::{ProdText, RuleText};
use svr_token::Names;

/// What the tokens spell, and the place of each production by its name.
#[derive(Clone, Copy)]
pub(crate) struct Setting<'s, 'a> {
    pub(crate) names: Names<'a>,
    pub(crate) places: &'s IndexMap<&'a [u8], u32>,
}

/// The names with one more, unless it is there.
fn and_name<'a>(
    places: IndexMap<&'a [u8], u32>,
    name: &'a [u8],
    place: u32,
) -> Result<IndexMap<&'a [u8], u32>, SeqFault>
    ensures table { IfOk result (λ m. map entry_of m.entries ≡ spec.and_entry (map entry_of places.entry.entries) name.now place) }
    ensures memory { IfErr result (λ e. e ≡ SeqFault.NoMemory) }
{
    let mut places = places;
    if places.get(name).is_some() {
        return Ok(places);
    }
    match places.insert(name, place) {
        Ok(_) => Ok(places),
        Err(_) => Err(SeqFault::NoMemory),
    }
}

/// The place of the first production of each name.
pub(crate) fn places_of<'a>(
    alloc: Global,
    names: Names<'a>,
    prods: &[ProdText],
) -> Result<IndexMap<&'a [u8], u32>, SeqFault>
    requires { length prods.now < 2 ^ 32 }
    ensures table { IfOk result (λ m. map entry_of m.entries ≡ spec.entries (names_of names.entry) [] 0 prods.now) }
    ensures memory { IfErr result (λ e. e ≡ SeqFault.NoMemory) }
{
    let mut places = IndexMap::new(alloc);
    let mut at: u32 = 0;
    let mut left = prods;
    'prods: while let Some((prod, others)) = left.split_first() {
        places = and_name(places, names.name(prod.name), at)?;
        left = others;
        at += 1;
    }
    Ok(places)
}

impl Setting<'_, '_> {
    /// The place of the production that a name names.
    #[tactic(auto, using(crate::proofs::Named::found))]
    pub(crate) fn place(&self, name: u32) -> Option<u32>
        ensures { result ≡ found_in self.now.places.now.entries (names_of self.now.names name) }
    {
        self.places.get(self.names.name(name)).copied()
    }

    /// The place of the production that a name names.
    ///
    /// Errors: `UnknownProduction` where no production has the name.
    pub(crate) fn known(&self, name: u32) -> Result<u32, SeqFault>
        ensures { let find = found_in self.now.places.now.entries in let text = names_of self.now.names in MatchResult result (λ n. (spec.unknown text find name ≡ []) × (find (text name) ≡ Some n)) (λ e. spec.unknown text find name ≡ e ∷ []) }
    {
        match self.place(name) {
            Some(place) => Ok(place),
            None => Err(refused(Refusal::UnknownProduction, name)),
        }
    }

    /// The number that the literal at a token writes.
    pub(crate) fn value(&self, at: u32) -> u32
        ensures { result ≡ value_of (names_of self.now.names at) }
    {
        value(self.names.name(at))
    }

    /// The weight of a rule, 1 where it has none.
    pub(crate) fn weight(&self, weight: Option<u32>) -> u32
        ensures { result ≡ spec.weight_of (names_of self.now.names) weight }
    {
        match weight {
            None => 1,
            Some(at) => self.value(at),
        }
    }

    /// Whether some rule has a weight above 0.
    fn have_weight(&self, rules: &[RuleText]) -> bool
        ensures { result ≡ list_any (spec.has_weight (names_of self.now.names)) rules.now }
    {
        rules.iter().any(|rule| self.weight(rule.weight) > 0)
    }

    /// Errors: `UnknownProduction` where the production is not the first of its name, `NoWeight` where all its rules have weight 0, `SequenceTooLarge` where it is one too many.
    pub(crate) fn head(&self, at: usize, prod: &ProdText) -> Result<(), SeqFault>
        ensures { let find = found_in self.now.places.now.entries in let rs = spec.head_refusals (names_of self.now.names) find at prod.now in MatchResult result (λ _. rs ≡ []) (λ e. first_of rs ≡ Some e) }
    {
        unless(
            is_at(self.place(prod.name), at),
            Refusal::UnknownProduction,
            prod.name,
        )?;
        unless(
            self.have_weight(prod.rules.as_slice()),
            Refusal::NoWeight,
            prod.name,
        )?;
        unless(at < SEQUENCE_LIMIT, Refusal::SequenceTooLarge, prod.name)
    }
}

/// Whether it is this place.
fn is_at(place: Option<u32>, at: usize) -> bool
    ensures { result ≡ spec.is_at place at }
{
    match place {
        None => false,
        Some(place) => place as usize == at,
    }
}
