// Numbers at their places: of a header, of a list, of a line.

ghost use Rattle.std.specs.Prelude.{◌≡◌, MatchResult, Some, true};
ghost use Rattle.svr_lrat_text.specs.declared.limits.TheConstants.{MOST_COUNT, MOST_ID};
ghost use Rattle.svr_lrat_text.specs.declared.fault.LratFault.TheVariants as fault;
ghost use Rattle.svr_lrat_text.specs.Words.{is_zero};
ghost use Rattle.svr_lrat_text.specs.File.{is_form};
ghost use Rattle.svr_lrat_text.specs.Reading.{count_number, count_of, entry_number, entry_of, id_of, IsTokenFault};

use crate::cursor::Token;
use crate::fault::LratFault;
use crate::limits::{MOST_COUNT, MOST_ID};
use svr_lrat_file::Number;

/// Whether the number is 0.
fn is_zero(number: Number) -> bool
    ensures { result ≡ is_zero number }
{
    !number.negative && number.size == 0
}

/// Whether the number is not 0, and not negative unless signs may stand there.
fn is_form(number: Number, signed: bool) -> bool
    ensures { result ≡ is_form signed number }
{
    0 < number.size && (signed || !number.negative)
}

impl Token {
    pub(crate) fn bad(self) -> LratFault
        ensures { result ≡ fault.Bad self.at }
    {
        LratFault::Bad { at: self.at }
    }

    fn too_large(self) -> LratFault
        ensures { result ≡ fault.TooLarge self.at }
    {
        LratFault::TooLarge { at: self.at }
    }

    fn small_count(self, number: Number) -> Result<u64, LratFault>
        ensures { MatchResult result (λ n. count_number true number ≡ Some n) (λ e. IsTokenFault (λ limited word. count_number limited number) self e) }
    {
        if number.negative {
            return Err(self.bad());
        }
        if number.size > MOST_COUNT {
            return Err(self.too_large());
        }
        Ok(number.size)
    }

    /// A number of variables or of clauses.
    pub(crate) fn count(self) -> Result<u64, LratFault>
        ensures { MatchResult result (λ n. count_of true self.word ≡ Some n) (λ e. IsTokenFault count_of self e) }
    {
        match self.word.number() {
            None => Err(self.bad()),
            Some(number) => self.small_count(number),
        }
    }

    fn small_entry(
        self,
        number: Number,
        most: u64,
        signed: bool,
    ) -> Result<Option<Number>, LratFault>
        ensures { MatchResult result (λ o. entry_number true most signed number ≡ Some o) (λ e. IsTokenFault (λ limited word. entry_number limited most signed number) self e) }
    {
        if is_zero(number) {
            return Ok(None);
        }
        if !is_form(number, signed) {
            return Err(self.bad());
        }
        if number.size > most {
            return Err(self.too_large());
        }
        Ok(Some(number))
    }

    /// A number of a list, or nothing where the 0 behind the list stands.
    pub(crate) fn entry(self, most: u64, signed: bool) -> Result<Option<Number>, LratFault>
        ensures { MatchResult result (λ o. entry_of true most signed self.word ≡ Some o) (λ e. IsTokenFault (λ limited. entry_of limited most signed) self e) }
    {
        match self.word.number() {
            None => Err(self.bad()),
            Some(number) => self.small_entry(number, most, signed),
        }
    }

    /// The identifier of a line.
    pub(crate) fn id(self) -> Result<u64, LratFault>
        ensures { MatchResult result (λ n. id_of true self.word ≡ Some n) (λ e. IsTokenFault id_of self e) }
    {
        match self.entry(MOST_ID, false) {
            Ok(Some(number)) => Ok(number.size),
            Ok(None) => Err(self.bad()),
            Err(fault) => Err(fault),
        }
    }
}
