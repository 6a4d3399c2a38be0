// The names of a text and where each stands first.

ghost use Rattle.std.specs.Prelude.{◌≡◌, ◌<◌, ◌^◌, ◌∷◌, [], map, length, IfOk, IfErr, MatchResult};
ghost use Rattle.svr_token.specs.Names.{names_of};
ghost use Rattle.svr_cover_checked.specs.Places as spec;
ghost use Rattle.svr_cover_checked.specs.Tables.{entry_of, found_in};

use crate::fault::{CoverFault, unless};
use indexmap::IndexMap;
use std::alloc::Global;
use svr_refusal::Refusal;
use svr_token::Names;

/// What the tokens spell, and where each name of a kind stands first.
#[derive(Clone, Copy)]
pub struct Places<'s, 'a> {
    pub names: Names<'a>,
    pub table: &'s IndexMap<&'a [u8], u32>,
}

/// The names with one more, unless it is there.
fn and_name<'a>(
    places: IndexMap<&'a [u8], u32>,
    name: &'a [u8],
    place: u32,
) -> Result<IndexMap<&'a [u8], u32>, CoverFault>
    ensures table { IfOk result (λ m. map entry_of m.entries ≡ spec.and_entry (map entry_of places.entry.entries) name.now place) }
    ensures memory { IfErr result (λ e. e ≡ CoverFault.NoMemory) }
{
    let mut places = places;
    if places.get(name).is_some() {
        return Ok(places);
    }
    match places.insert(name, place) {
        Ok(_) => Ok(places),
        Err(_) => Err(CoverFault::NoMemory),
    }
}

/// Where each of the names at these tokens, which 32 bits can number, stands first.
fn numbered<'a>(
    alloc: Global,
    names: Names<'a>,
    tokens: &[u32],
) -> Result<IndexMap<&'a [u8], u32>, CoverFault>
    requires { length tokens.now < 2 ^ 32 }
    ensures table { IfOk result (λ m. map entry_of m.entries ≡ spec.entries (names_of names.entry) [] 0 tokens.now) }
    ensures memory { IfErr result (λ e. e ≡ CoverFault.NoMemory) }
{
    let mut places = IndexMap::new(alloc);
    let mut at: u32 = 0;
    let mut left = tokens;
    'tokens: while let Some((token, others)) = left.split_first() {
        places = and_name(places, names.name(*token), at)?;
        left = others;
        at += 1;
    }
    Ok(places)
}

/// Where each of the names at these tokens stands first; those of more tokens than 32 bits can number are in no memory.
pub fn places_of<'a>(
    alloc: Global,
    names: Names<'a>,
    tokens: &[u32],
) -> Result<IndexMap<&'a [u8], u32>, CoverFault>
    ensures table { IfOk result (λ m. map entry_of m.entries ≡ spec.entries (names_of names.entry) [] 0 tokens.now) }
    ensures memory { IfErr result (λ e. e ≡ CoverFault.NoMemory) }
{
    if tokens.len() > u32::MAX as usize {
        return Err(CoverFault::NoMemory);
    }
    numbered(alloc, names, tokens)
}

/// Whether it is this place.
pub(crate) fn is_at(place: Option<u32>, at: usize) -> bool
    ensures { result ≡ spec.is_at place at }
{
    match place {
        None => false,
        Some(place) => place as usize == at,
    }
}

impl Places<'_, '_> {
    /// Where a name stands first.
    #[tactic(auto, using(crate::proofs::Named::found))]
    pub fn place(&self, name: u32) -> Option<u32>
        ensures { result ≡ found_in self.now.table.now.entries (names_of self.now.names name) }
    {
        self.table.get(self.names.name(name)).copied()
    }

    /// Errors: `DoubleCover` where the name at a place has stood before.
    pub(crate) fn first(&self, at: usize, name: u32) -> Result<(), CoverFault>
        ensures { let rs = spec.second (names_of self.now.names) (found_in self.now.table.now.entries) at name in MatchResult result (λ _. rs ≡ []) (λ e. rs ≡ e ∷ []) }
    {
        unless(is_at(self.place(name), at), Refusal::DoubleCover, name)
    }
}
