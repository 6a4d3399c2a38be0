// The values that a call prefers.

ghost use Rattle.std.specs.Prelude.{◌≡◌, IfOk};
ghost use Rattle.svr_eval.specs.Reading.{reading_of};
ghost use Rattle.svr_frame.specs.declared.part.Part.TheVariants.{All};
ghost use Rattle.svr_frame.specs.Frame.{frame_term};
ghost use Rattle.svr_frame.specs.Sound.{IsSound, SizesFit};
ghost use Rattle.svr_draw.specs.Words.{generator, word_of, after};
ghost use Rattle.svr_phase.specs.Sizes.{preferred_with};

use crate::chosen::with_chosen;
use std::alloc::Global;
use svr_draw::{Draws, preferred};
use svr_eval::Assign;
use svr_frame::{Frame, Part};
use svr_phase::Options;
use svr_typed::NoMemory;

/// The words of a call behind its first ones.
fn words_behind(seed: u64, number: u64, count: usize) -> Draws
    ensures { result ≡ after count (generator seed number) }
{
    let mut draws = Draws::new(seed, number);
    for _place in 0..count {
        // The word goes unused.
        let _ = draws.word();
    }
    draws
}

/// The values that the call of a number prefers in a phase, at these sizes: each chosen property has its chosen value, and each other unknown takes its word of the call, behind one word for each chosen value.
pub fn wanted_in(
    alloc: Global,
    frame: &Frame,
    part: Part,
    sizes: &[u32],
    chosen: &[(u32, u64)],
    number: u64,
    opts: Options,
) -> Result<Assign, NoMemory>
    requires sound { IsSound (frame_term frame.now) }
    requires fit { SizesFit (frame_term frame.now) sizes.now }
    ensures { IfOk result (λ a. reading_of a ≡ preferred_with (frame_term frame.now) part sizes.now opts.size_cap (word_of (generator opts.seed number)) chosen.now) }
{
    let mut draws = words_behind(opts.seed, number, chosen.len());
    let drawn = preferred(alloc, &mut draws, frame, part, sizes, opts.size_cap)?;
    let values = with_chosen(alloc, drawn, chosen)?;
    Ok(values)
}

/// The values that the call of a number prefers at these sizes: each chosen cyclic property has its chosen value, and each other unknown takes its word of the call, behind one word for each chosen value.
pub fn wanted(
    alloc: Global,
    frame: &Frame,
    sizes: &[u32],
    chosen: &[(u32, u64)],
    number: u64,
    opts: Options,
) -> Result<Assign, NoMemory>
    requires sound { IsSound (frame_term frame.now) }
    requires fit { SizesFit (frame_term frame.now) sizes.now }
    ensures { IfOk result (λ a. reading_of a ≡ preferred_with (frame_term frame.now) All sizes.now opts.size_cap (word_of (generator opts.seed number)) chosen.now) }
{
    wanted_in(alloc, frame, Part::All, sizes, chosen, number, opts)
}
