// Why a text is refused.

ghost use Rattle.std.specs.Prelude.{◌≡◌};
ghost use Rattle.svr_refusal.specs.Numbers as spec;

/// Why a text is refused. Each says where it stands.
#[derive(Clone, Copy, PartialEq, Eq)]
pub enum Refusal {
    /// A byte that begins no lexeme and no gap, or `$` before a letter or `_` that is no system name: the byte.
    BadByte,
    /// `/*` without its `*/`: its first byte.
    OpenComment,
    /// A literal of size 0, a base letter without a digit, or a letter, digit, `_` or `$` directly behind a literal: the literal's first byte.
    BadLiteral,
    /// A literal that is too wide for its size, or a size over 64: the literal's first byte.
    LiteralTooWide,
    /// A token, or the end of the text, with which no script goes on.
    Unexpected,
    /// A token with which only scripts above the limit of height go on.
    TooDeep,
    /// A name that is not declared, or names nothing that may stand there; a closing label that differs: the name.
    UnknownName,
    /// A name that is declared twice in one scope, or listed twice in a call: the second.
    DoubleName,
    /// A type, a concatenation or a replication of over 64 bits: its first token.
    WiderThan64,
    /// What is to be constant, and is not: the first token of the expression.
    NotConstant,
    /// A dimension, a bound, a count or a pattern outside its range: the first token of the expression.
    BadRange,
    /// An enum member whose value its base type lacks, or that an earlier member has: the member.
    BadEnum,
    /// A `randc` property of over 8 bits, or of an enum of over 256 members: the name of the property.
    RandcTooWide,
    /// A soft item that mentions a `randc` property: `soft`.
    SoftOnRandc,
    /// A distribution whose left side mentions a `randc` property: `dist`.
    DistOnRandc,
    /// A distribution whose left side mentions nothing that can be random: `dist`.
    DistWithoutRand,
    /// Members of `unique` that differ in width or sign: the first that differs from the first member.
    UniqueTypes,
    /// A member of `unique` that is `randc`: the member.
    UniqueRandc,
    /// A property in `solve` that is `randc`, or not declared `rand`: the name.
    SolveRandc,
    /// Solve items up to this one that order a property before itself: `solve`.
    SolveCycle,
    /// The index of a bit-select, or of the target of `disable soft`, that mentions a property that can be random: the index's first token.
    RandomIndex,
    /// A weight of `dist`, or a guard over `disable soft`, that mentions a property that can be random, or the size of an array that can be: its first token.
    StateNeeded,
    /// Anything but a member or a variable of that enum for an enum property or variable: the first token of the expression.
    EnumAssign,
    /// A form that the language has and this program leaves out: the name or the range.
    LeftOut,
    /// A limit that is passed: the declaration, count, pattern or statement that passes it.
    TooMany,
    /// An object variable that is used before a `new` for it: the name of the variable.
    NullObject,
    /// A text that is longer than its command reads: a script of over 4,194,304 bytes, a hinted derivation of over 67,108,864. It has no place.
    TooLong,
    /// A token, or the end of the text, with which no hinted derivation goes on.
    NoDerivation,
    /// A number of a hinted derivation that is over its limit, or a variable that its header does not count: the number.
    DerivationTooLarge,
    /// A token, or the end of the text, with which no cover groups go on.
    NoGroups,
    /// A name in a cover group that is no class, no scalar property of that class, not the sample's formal argument, or no point before it: the name.
    UnknownCover,
    /// A second cover group of one name, a second part of a group of one name, or a second `bins` of a point of one name: the second.
    DoubleCover,
    /// A limit of cover groups that is passed: the name of the group, part, `bins` or cross that passes it.
    TooManyBins,
    /// A range of bins whose upper bound is below its lower one, or that has a value which stands before it in the same `bins` with `[]`: the range.
    BadBins,
    /// A token, or the end of the text, with which no `randsequence` text goes on.
    NoSequence,
    /// A name that no production has, where one is expanded or begun with; a second production of one name: the name.
    UnknownProduction,
    /// A production whose rules all have weight 0: its name.
    NoWeight,
    /// A limit of a `randsequence` text that is passed: the first token of what passes it.
    SequenceTooLarge,
}

impl Refusal {
    /// The number under which a refusal is printed: from 1 to 27 for a script, 29 and 30 for a hinted derivation, from 31 to 35 for cover groups, from 36 to 39 for a `randsequence` text.
    pub fn number(self) -> u8
        ensures { result ≡ spec.number_of self }
    {
        match self {
            Refusal::BadByte => 1,
            Refusal::OpenComment => 2,
            Refusal::BadLiteral => 3,
            Refusal::LiteralTooWide => 4,
            Refusal::Unexpected => 5,
            Refusal::TooDeep => 6,
            Refusal::UnknownName => 7,
            Refusal::DoubleName => 8,
            Refusal::WiderThan64 => 9,
            Refusal::NotConstant => 10,
            Refusal::BadRange => 11,
            Refusal::BadEnum => 12,
            Refusal::RandcTooWide => 13,
            Refusal::SoftOnRandc => 14,
            Refusal::DistOnRandc => 15,
            Refusal::DistWithoutRand => 16,
            Refusal::UniqueTypes => 17,
            Refusal::UniqueRandc => 18,
            Refusal::SolveRandc => 19,
            Refusal::SolveCycle => 20,
            Refusal::RandomIndex => 21,
            Refusal::StateNeeded => 22,
            Refusal::EnumAssign => 23,
            Refusal::LeftOut => 24,
            Refusal::TooMany => 25,
            Refusal::NullObject => 26,
            Refusal::TooLong => 27,
            Refusal::NoDerivation => 29,
            Refusal::DerivationTooLarge => 30,
            Refusal::NoGroups => 31,
            Refusal::UnknownCover => 32,
            Refusal::DoubleCover => 33,
            Refusal::TooManyBins => 34,
            Refusal::BadBins => 35,
            Refusal::NoSequence => 36,
            Refusal::UnknownProduction => 37,
            Refusal::NoWeight => 38,
            Refusal::SequenceTooLarge => 39,
        }
    }
}
