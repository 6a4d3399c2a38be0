// Texts of `randsequence` with their names resolved.

ghost use Rattle.std.specs.Prelude.{◌≡◌, ◌<◌, ◌^◌, [], length, MatchResult};
ghost use Rattle.svr_token.specs.Names.{names_of};
ghost use Rattle.svr_seq.specs.SeqTerm.{seq_term};
ghost use Rattle.svr_seq_made.specs.Making.{seq_made};
ghost use Rattle.svr_seq_made.specs.Making as made;
ghost use Rattle.svr_seq_made.specs.Refusals.{refusals, start_refusals, IsFirst};
ghost use Rattle.svr_seq_made.specs.Tables.{found_in};

use crate::fault::SeqFault;
use crate::rules::prods_of;
use crate::setting::{Setting, places_of};
use std::alloc::Global;
use svr_seq::Seq;
use svr_seq_text::SeqText;
use svr_token::Names;

/// The place of the start, the first production where none is named.
fn start_of(set: &Setting<'_, '_>, start: Option<u32>) -> Result<u32, SeqFault>
    ensures { let text = names_of set.now.names in let find = found_in set.now.places.now.entries in MatchResult result (λ n. (start_refusals text find start ≡ []) × (n ≡ made.start_made text find start)) (λ e. IsFirst e (start_refusals text find start)) }
{
    match start {
        None => Ok(0),
        Some(name) => set.known(name),
    }
}

/// A text with its names resolved.
///
/// Errors: the first refusal in the order of the text, at one place that of the lower number: `UnknownProduction`, a name that no production has, or a second production of a name;
/// `NoWeight`, a production all of whose rules have weight 0; `SequenceTooLarge`, over 1,024 productions, rules, parts, acts or branches, a count over 2,048, or `randcase` nested over 128 deep.
pub fn make(alloc: Global, names: Names<'_>, text: &SeqText) -> Result<Seq, SeqFault>
    requires few { length text.now.prods < 2 ^ 32 }
    ensures { MatchResult result (λ s. (refusals (names_of names.entry) text.now ≡ []) × (seq_term s ≡ seq_made (names_of names.entry) text.now)) (λ e. IsFirst e (refusals (names_of names.entry) text.now)) }
{
    let places = places_of(alloc, names, text.prods.as_slice())?;
    let set = Setting {
        names,
        places: &places,
    };
    let start = start_of(&set, text.start)?;
    let prods = prods_of(alloc, &set, text.prods.as_slice())?;
    Ok(Seq { start, prods })
}
