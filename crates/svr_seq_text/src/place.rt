// Where the reader stands in a text, and what may come there.

ghost use Rattle.std.specs.Prelude.{◌≡◌, ◌<◌, ◌≤◌, ◌+◌};
ghost use Rattle.svr_seq_text.specs.Machine as spec;

use crate::word::Word;

/// What comes next.
#[derive(Clone, Copy, PartialEq, Eq)]
pub(crate) enum Place {
    /// `randsequence`
    Opening,
    /// `(` of the start
    StartOpen,
    /// The name of the start, or `)`
    Start,
    /// `)` behind the name of the start
    StartClose,
    /// The name of the first production
    FirstProd,
    /// `:` behind the name of a production
    ProdColon,
    /// The first part of a rule
    FirstPart,
    /// Another part, `:=`, or the end of the rule
    NextPart,
    /// `(` behind `repeat`
    CountOpen,
    Count,
    /// `)` behind a count
    CountClose,
    /// The name behind `repeat ( count )`
    Repeated,
    /// In a block an act or `}`, in a choice a branch or `endcase`
    NextAct,
    /// The act of a branch
    Act,
    /// `;` behind a name that is printed
    ActEnd,
    /// The weight of the first branch
    BranchWeight,
    /// `:` behind the weight of a branch
    BranchColon,
    /// The weight of a rule
    RuleWeight,
    /// `|` or `;` behind the weight of a rule
    RuleEnd,
    /// Another production, or `endsequence`
    NextProd,
    /// The end of the text
    Last,
    /// Nothing
    Done,
}

/// What a word adds to the text.
#[derive(Clone, Copy)]
pub(crate) enum Deed {
    Skip,
    /// The name of the start
    Start,
    /// The name of a production
    Production,
    NamePart,
    /// `repeat` or `{`
    Open,
    /// The count of a `repeat`
    Count,
    /// The name behind a `repeat`, with which the part ends
    RepeatPart,
    Print,
    Choose,
    Branch,
    EndChoice,
    /// `}`
    BlockPart,
    /// The weight of a rule
    Weight,
    EndRule,
    EndProduction,
}

/// Where a word leads, and what it adds.
#[derive(Clone, Copy)]
pub(crate) struct Move {
    pub(crate) place: Place,
    pub(crate) deed: Deed,
}

fn to(place: Place, deed: Deed) -> Option<Move>
    ensures { result ≡ spec.to place deed }
{
    Some(Move { place, deed })
}

fn only(holds: bool, place: Place, deed: Deed) -> Option<Move>
    ensures { result ≡ spec.only holds place deed }
{
    if holds { to(place, deed) } else { None }
}

fn at_start(word: Word) -> Option<Move>
    ensures { result ≡ spec.at_start word }
{
    match word {
        Word::Name(_) => to(Place::StartClose, Deed::Start),
        Word::CloseParen => to(Place::FirstProd, Deed::Skip),
        _ => None,
    }
}

fn part(word: Word) -> Option<Move>
    ensures { result ≡ spec.part word }
{
    match word {
        Word::Name(_) => to(Place::NextPart, Deed::NamePart),
        Word::Repeat(_) => to(Place::CountOpen, Deed::Open),
        Word::OpenBrace(_) => to(Place::NextAct, Deed::Open),
        _ => None,
    }
}

fn rule_end(word: Word) -> Option<Move>
    ensures { result ≡ spec.rule_end word }
{
    match word {
        Word::Bar => to(Place::FirstPart, Deed::EndRule),
        Word::Semicolon => to(Place::NextProd, Deed::EndProduction),
        _ => None,
    }
}

fn next_part(word: Word) -> Option<Move>
    ensures { result ≡ spec.next_part word }
{
    match word {
        Word::ColonEqual => to(Place::RuleWeight, Deed::Skip),
        Word::Bar | Word::Semicolon => rule_end(word),
        _ => part(word),
    }
}

fn act(word: Word) -> Option<Move>
    ensures { result ≡ spec.act word }
{
    match word {
        Word::Name(_) => to(Place::ActEnd, Deed::Print),
        Word::RandCase(_) => to(Place::BranchWeight, Deed::Choose),
        _ => None,
    }
}

fn in_block(word: Word) -> Option<Move>
    ensures { result ≡ spec.in_block word }
{
    match word {
        Word::CloseBrace => to(Place::NextPart, Deed::BlockPart),
        _ => act(word),
    }
}

fn in_choice(word: Word) -> Option<Move>
    ensures { result ≡ spec.in_choice word }
{
    match word {
        Word::Decimal(_) => to(Place::BranchColon, Deed::Branch),
        Word::EndCase => to(Place::NextAct, Deed::EndChoice),
        _ => None,
    }
}

/// Behind an act that stands in so many choices.
fn next_act(depth: usize, word: Word) -> Option<Move>
    ensures { result ≡ spec.next_act depth word }
{
    if depth == 0 {
        in_block(word)
    } else {
        in_choice(word)
    }
}

fn next_prod(word: Word) -> Option<Move>
    ensures { result ≡ spec.next_prod word }
{
    match word {
        Word::Name(_) => to(Place::ProdColon, Deed::Production),
        Word::EndSequence => to(Place::Last, Deed::Skip),
        _ => None,
    }
}

/// Where the word leads from a place in so many choices, if it may stand there.
pub(crate) fn goes(place: Place, depth: usize, word: Word) -> Option<Move>
    ensures { result ≡ spec.goes place depth word }
{
    match place {
        Place::Opening => only(word.is_opening(), Place::StartOpen, Deed::Skip),
        Place::StartOpen => only(word.is_open_paren(), Place::Start, Deed::Skip),
        Place::Start => at_start(word),
        Place::StartClose => only(word.is_close_paren(), Place::FirstProd, Deed::Skip),
        Place::FirstProd => only(word.is_name(), Place::ProdColon, Deed::Production),
        Place::ProdColon => only(word.is_colon(), Place::FirstPart, Deed::Skip),
        Place::FirstPart => part(word),
        Place::NextPart => next_part(word),
        Place::CountOpen => only(word.is_open_paren(), Place::Count, Deed::Skip),
        Place::Count => only(word.is_decimal(), Place::CountClose, Deed::Count),
        Place::CountClose => only(word.is_close_paren(), Place::Repeated, Deed::Skip),
        Place::Repeated => only(word.is_name(), Place::NextPart, Deed::RepeatPart),
        Place::NextAct => next_act(depth, word),
        Place::Act => act(word),
        Place::ActEnd => only(word.is_semicolon(), Place::NextAct, Deed::Skip),
        Place::BranchWeight => only(word.is_decimal(), Place::BranchColon, Deed::Branch),
        Place::BranchColon => only(word.is_colon(), Place::Act, Deed::Skip),
        Place::RuleWeight => only(word.is_decimal(), Place::RuleEnd, Deed::Weight),
        Place::RuleEnd => rule_end(word),
        Place::NextProd => next_prod(word),
        Place::Last => only(word.is_end(), Place::Done, Deed::Skip),
        Place::Done => None,
    }
}

/// In how many choices what stands behind the word is.
pub(crate) fn depth_behind(depth: usize, word: Word) -> usize
    requires { depth < usize.MAX }
    ensures is { result ≡ spec.depth_behind depth word }
    ensures near { result ≤ depth + 1 }
{
    match word {
        Word::RandCase(_) => depth + 1,
        Word::EndCase => depth.saturating_sub(1),
        _ => depth,
    }
}
