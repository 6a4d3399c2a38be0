// Where the reader stands in the groups, and what may come there.

ghost use Rattle.std.specs.Prelude.{◌≡◌};
ghost use Rattle.svr_cover_text.specs.Machine as spec;

use crate::word::{Key, Word};

/// What comes next.
#[derive(Clone, Copy, PartialEq, Eq)]
pub(crate) enum Place {
    /// `covergroup`, or the end of the groups
    Between,
    /// The name of a group
    GroupName,
    /// `with`
    With,
    /// `function`
    Function,
    /// `sample`
    Sample,
    /// `(` behind `sample`
    SampleOpen,
    /// The class that is sampled
    Class,
    /// The name of the formal argument
    Formal,
    /// `)` behind it
    SampleClose,
    /// `;` behind the head of a group
    HeadEnd,
    /// The name of a part, or `endgroup`
    NextPart,
    /// `:` behind the name of a part
    PartColon,
    /// `coverpoint` or `cross`
    PartKind,
    /// The formal argument of a point
    PointFormal,
    /// `.` behind it
    PointDot,
    /// The property of a point
    PointProp,
    /// `{` of a point
    PointOpen,
    /// The first `bins`
    FirstBins,
    /// Another `bins`, or `}` of the point
    NextBins,
    /// The name of a `bins`
    BinsName,
    /// `[` or `=` behind it
    BinsKind,
    /// `]` of `[]`
    EachClose,
    /// `=` behind `[]`
    BinsEqual,
    /// `{` of a `bins`
    BinsOpen,
    /// A range
    Range,
    /// The digits of a single negative number
    Digits,
    /// The lower bound of a range
    Low,
    LowDigits,
    /// `:` behind the lower bound
    RangeColon,
    /// The upper bound of a range
    High,
    HighDigits,
    /// `]` of a range
    RangeClose,
    /// `,` before another range, or `}` of the `bins`
    NextRange,
    /// `;` behind a `bins`
    BinsEnd,
    /// The first point of a cross
    CrossFirst,
    /// `,` behind it
    CrossComma,
    /// Another point of a cross
    CrossNext,
    /// `,` before another point, or `;`
    CrossMore,
}

/// What a word adds to the groups.
#[derive(Clone, Copy)]
pub(crate) enum Deed {
    Skip,
    /// The name of a group
    Group,
    Class,
    /// The formal argument of a group
    Formal,
    EndGroup,
    /// The name of a part
    Part,
    PointFormal,
    PointProp,
    EndPoint,
    CrossPoint,
    EndCross,
    /// The name of a `bins`
    Bins,
    /// `[]` behind it
    Each,
    EndBins,
    /// The first token of a range that has more
    OpenRange,
    Low,
    /// A lower bound behind `-`
    LowMinus,
    Single,
    /// A single number behind `-`
    SingleMinus,
    High,
    /// An upper bound behind `-`
    HighMinus,
}

/// Where a word leads, and what it adds.
#[derive(Clone, Copy)]
pub(crate) struct Move {
    pub(crate) place: Place,
    pub(crate) deed: Deed,
}

impl Place {
    pub(crate) fn is_between(self) -> bool
        ensures { result ≡ spec.is_between self }
    {
        matches!(self, Place::Between)
    }
}

fn to(place: Place, deed: Deed) -> Option<Move>
    ensures { result ≡ spec.to place deed }
{
    Some(Move { place, deed })
}

fn only(holds: bool, place: Place, deed: Deed) -> Option<Move>
    ensures { result ≡ spec.only holds place deed }
{
    if holds { to(place, deed) } else { None }
}

fn next_part(word: Word) -> Option<Move>
    ensures { result ≡ spec.next_part word }
{
    match word {
        Word::Name(_, _) => to(Place::PartColon, Deed::Part),
        Word::EndGroup => to(Place::Between, Deed::EndGroup),
        _ => None,
    }
}

fn kind_of(key: Key) -> Option<Move>
    ensures { result ≡ spec.kind_of key }
{
    match key {
        Key::CoverPoint => to(Place::PointFormal, Deed::Skip),
        Key::Cross => to(Place::CrossFirst, Deed::Skip),
        _ => None,
    }
}

fn part_kind(word: Word) -> Option<Move>
    ensures { result ≡ spec.part_kind word }
{
    match word {
        Word::Name(key, _) => kind_of(key),
        _ => None,
    }
}

fn cross_more(word: Word) -> Option<Move>
    ensures { result ≡ spec.cross_more word }
{
    match word {
        Word::Comma => to(Place::CrossNext, Deed::Skip),
        Word::Semicolon => to(Place::NextPart, Deed::EndCross),
        _ => None,
    }
}

fn next_bins(word: Word) -> Option<Move>
    ensures { result ≡ spec.next_bins word }
{
    match word {
        Word::CloseBrace => to(Place::NextPart, Deed::EndPoint),
        _ => only(word.is_bins(), Place::BinsName, Deed::Skip),
    }
}

fn bins_kind(word: Word) -> Option<Move>
    ensures { result ≡ spec.bins_kind word }
{
    match word {
        Word::OpenBracket(_) => to(Place::EachClose, Deed::Skip),
        Word::Equal => to(Place::BinsOpen, Deed::Skip),
        _ => None,
    }
}

fn range(word: Word) -> Option<Move>
    ensures { result ≡ spec.range word }
{
    match word {
        Word::Decimal(_) => to(Place::NextRange, Deed::Single),
        Word::Minus(_) => to(Place::Digits, Deed::OpenRange),
        Word::OpenBracket(_) => to(Place::Low, Deed::OpenRange),
        _ => None,
    }
}

fn low(word: Word) -> Option<Move>
    ensures { result ≡ spec.low word }
{
    match word {
        Word::Decimal(_) => to(Place::RangeColon, Deed::Low),
        Word::Minus(_) => to(Place::LowDigits, Deed::Skip),
        _ => None,
    }
}

fn high(word: Word) -> Option<Move>
    ensures { result ≡ spec.high word }
{
    match word {
        Word::Decimal(_) => to(Place::RangeClose, Deed::High),
        Word::Minus(_) => to(Place::HighDigits, Deed::Skip),
        _ => None,
    }
}

fn next_range(word: Word) -> Option<Move>
    ensures { result ≡ spec.next_range word }
{
    match word {
        Word::Comma => to(Place::Range, Deed::Skip),
        Word::CloseBrace => to(Place::BinsEnd, Deed::Skip),
        _ => None,
    }
}

/// Where the word leads from a place in a `bins`, if it may stand there.
fn in_bins(place: Place, word: Word) -> Option<Move>
    ensures { result ≡ spec.in_bins place word }
{
    match place {
        Place::BinsName => only(word.is_name(), Place::BinsKind, Deed::Bins),
        Place::BinsKind => bins_kind(word),
        Place::EachClose => only(word.is_close_bracket(), Place::BinsEqual, Deed::Each),
        Place::BinsEqual => only(word.is_equal(), Place::BinsOpen, Deed::Skip),
        Place::BinsOpen => only(word.is_open_brace(), Place::Range, Deed::Skip),
        Place::Range => range(word),
        Place::Digits => only(word.is_decimal(), Place::NextRange, Deed::SingleMinus),
        Place::Low => low(word),
        Place::LowDigits => only(word.is_decimal(), Place::RangeColon, Deed::LowMinus),
        Place::RangeColon => only(word.is_colon(), Place::High, Deed::Skip),
        Place::High => high(word),
        Place::HighDigits => only(word.is_decimal(), Place::RangeClose, Deed::HighMinus),
        Place::RangeClose => only(word.is_close_bracket(), Place::NextRange, Deed::Skip),
        Place::NextRange => next_range(word),
        Place::BinsEnd => only(word.is_semicolon(), Place::NextBins, Deed::EndBins),
        _ => None,
    }
}

/// Where the word leads from a place in a part, if it may stand there.
fn in_part(place: Place, word: Word) -> Option<Move>
    ensures { result ≡ spec.in_part place word }
{
    match place {
        Place::PartColon => only(word.is_colon(), Place::PartKind, Deed::Skip),
        Place::PartKind => part_kind(word),
        Place::PointFormal => only(word.is_name(), Place::PointDot, Deed::PointFormal),
        Place::PointDot => only(word.is_dot(), Place::PointProp, Deed::Skip),
        Place::PointProp => only(word.is_name(), Place::PointOpen, Deed::PointProp),
        Place::PointOpen => only(word.is_open_brace(), Place::FirstBins, Deed::Skip),
        Place::FirstBins => only(word.is_bins(), Place::BinsName, Deed::Skip),
        Place::NextBins => next_bins(word),
        Place::CrossFirst => only(word.is_name(), Place::CrossComma, Deed::CrossPoint),
        Place::CrossComma => only(word.is_comma(), Place::CrossNext, Deed::Skip),
        Place::CrossNext => only(word.is_name(), Place::CrossMore, Deed::CrossPoint),
        Place::CrossMore => cross_more(word),
        _ => in_bins(place, word),
    }
}

/// Where the word leads from a place, if it may stand there.
pub(crate) fn goes(place: Place, word: Word) -> Option<Move>
    ensures { result ≡ spec.goes place word }
{
    match place {
        Place::Between => only(word.is_covergroup(), Place::GroupName, Deed::Skip),
        Place::GroupName => only(word.is_name(), Place::With, Deed::Group),
        Place::With => only(word.is_with(), Place::Function, Deed::Skip),
        Place::Function => only(word.is_function(), Place::Sample, Deed::Skip),
        Place::Sample => only(word.is_sample(), Place::SampleOpen, Deed::Skip),
        Place::SampleOpen => only(word.is_open_paren(), Place::Class, Deed::Skip),
        Place::Class => only(word.is_name(), Place::Formal, Deed::Class),
        Place::Formal => only(word.is_name(), Place::SampleClose, Deed::Formal),
        Place::SampleClose => only(word.is_close_paren(), Place::HeadEnd, Deed::Skip),
        Place::HeadEnd => only(word.is_semicolon(), Place::NextPart, Deed::Skip),
        Place::NextPart => next_part(word),
        _ => in_part(place, word),
    }
}
