// Groups on the way.

ghost use Rattle.std.specs.Prelude.{◌≡◌, IfOk};
ghost use Rattle.svr_cover_text.specs.Machine as spec;

use crate::building::Building;
use crate::fault::GroupsFault;
use crate::place::{Place, goes};
use crate::text::GroupsText;
use crate::word::Word;
use std::alloc::{AllocError, Global};

/// Where the reader stands, and what it has read.
#[derive(Drop)]
pub(crate) struct Reading {
    place: Place,
    made: Building,
}

impl Reading {
    /// Before the first token.
    pub(crate) fn new(alloc: Global) -> Reading
        ensures { result ≡ spec.begin }
    {
        Reading {
            place: Place::Between,
            made: Building::new(alloc),
        }
    }

    /// Goes on by one word, and tells whether it may stand here.
    pub(crate) fn take(&mut self, alloc: Global, word: Word) -> Result<bool, AllocError>
        ensures { IfOk result (λ moved. spec.IsTaken moved self.old word self.new) }
    {
        let Some(next) = goes(self.place, word) else {
            return Ok(false);
        };
        self.made.keep(alloc, next.deed, word.number())?;
        self.place = next.place;
        Ok(true)
    }

    /// The groups, where the reader has come to their end with the token of this number.
    pub(crate) fn told(self, at: u32) -> Result<GroupsText, GroupsFault>
        ensures { result ≡ spec.told self at }
    {
        if self.place.is_between() {
            Ok(GroupsText {
                list: self.made.into_groups(),
                used: at,
            })
        } else {
            Err(GroupsFault::Unexpected { token: at })
        }
    }
}
