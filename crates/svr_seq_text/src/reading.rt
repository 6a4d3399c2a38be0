// A text on the way.

ghost use Rattle.std.specs.Prelude.{◌≡◌, ◌<◌, ◌≤◌, ◌+◌, IfOk, OnOk};
ghost use Rattle.svr_seq_text.specs.Machine as spec;

use crate::building::Building;
use crate::place::{Place, depth_behind, goes};
use crate::text::SeqText;
use crate::word::Word;
use std::alloc::{AllocError, Global};

/// Where the reader stands, in how many choices, and what it has read.
#[derive(Drop)]
pub(crate) struct Reading {
    place: Place,
    depth: usize,
    made: Building,
}

impl Reading {
    /// Before the first token.
    pub(crate) fn new(alloc: Global) -> Reading
        ensures { result ≡ spec.begin }
    {
        Reading {
            place: Place::Opening,
            depth: 0,
            made: Building::new(alloc),
        }
    }

    /// Goes on by one word, and tells whether it may stand here.
    pub(crate) fn take(&mut self, alloc: Global, word: Word) -> Result<bool, AllocError>
        requires { self.old.depth < usize.MAX }
        ensures is { IfOk result (λ moved. spec.step self.old word ≡ spec.if_moved moved self.new) }
        ensures near { OnOk result (self.new.depth ≤ self.old.depth + 1) }
    {
        let Some(next) = goes(self.place, self.depth, word) else {
            return Ok(false);
        };
        self.made.keep(alloc, next.deed, word.number())?;
        self.place = next.place;
        self.depth = depth_behind(self.depth, word);
        Ok(true)
    }

    pub(crate) fn into_text(self) -> SeqText
        ensures { result ≡ spec.text_in self.made }
    {
        self.made.into_text()
    }
}
