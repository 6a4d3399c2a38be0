// What an occurrence mentions, with the indexes of elements as numbers.

ghost use Rattle.std.specs.Prelude.{◌≡◌};
ghost use Rattle.std.specs.List.{list_any};
ghost use Rattle.svr_frame.specs.Frame.{frame_term};
ghost use Rattle.svr_mention.specs.Mentioned.{property_mentioned, is_element, is_random_one, is_other_random, is_random_element, belongs_by, counts_by};

use svr_frame::{Frame, Part};

/// Which element of an array is mentioned.
#[derive(Clone, Copy)]
pub enum Spot {
    /// Any of them: the value of an index is one of many.
    Anywhere,
    At(i128),
    /// Two indexes of which one is outside its dimension.
    Nowhere,
}

/// A property that an occurrence mentions.
#[derive(Clone, Copy)]
pub enum Mention {
    Scalar(u32),
    Element(u32, Spot),
    Elements(u32),
    Size(u32),
}

impl Mention {
    /// The property that is mentioned.
    pub fn property(self) -> u32
        ensures { result ≡ property_mentioned self }
    {
        match self {
            Mention::Scalar(prop) | Mention::Elements(prop) | Mention::Size(prop) => prop,
            Mention::Element(prop, _) => prop,
        }
    }

    /// Whether an element of an array is mentioned, or all of them.
    pub fn is_element(self) -> bool
        ensures { result ≡ is_element self }
    {
        match self {
            Mention::Element(..) | Mention::Elements(_) => true,
            Mention::Scalar(_) | Mention::Size(_) => false,
        }
    }
}

fn has_random(mentions: &[Mention], frame: &Frame) -> bool
    ensures { result ≡ list_any (is_random_one (frame_term frame.now)) mentions.now }
{
    for mention in mentions {
        if frame.is_random(mention.property()) {
            return true;
        }
    }
    false
}

/// Whether a random property is mentioned that is not cyclic.
fn has_other_random(mentions: &[Mention], frame: &Frame) -> bool
    ensures { result ≡ list_any (is_other_random (frame_term frame.now)) mentions.now }
{
    for mention in mentions {
        let prop = mention.property();
        if frame.is_random(prop) && !frame.is_cyclic(prop) {
            return true;
        }
    }
    false
}

fn has_random_element(mentions: &[Mention], frame: &Frame) -> bool
    ensures { result ≡ list_any (is_random_element (frame_term frame.now)) mentions.now }
{
    for mention in mentions {
        if mention.is_element() && frame.is_random(mention.property()) {
            return true;
        }
    }
    false
}

/// Whether an occurrence with these mentions counts in the phase.
fn belongs(frame: &Frame, part: Part, in_loop: bool, mentions: &[Mention]) -> bool
    ensures { result ≡ belongs_by (frame_term frame.now) part in_loop mentions.now }
{
    match part {
        Part::Randc => has_random(mentions, frame) && !has_other_random(mentions, frame),
        Part::Sizes => !has_random_element(mentions, frame) && !in_loop,
        Part::All => true,
    }
}

/// Whether a hard or soft occurrence with these mentions counts in the phase.
pub fn counts(frame: &Frame, part: Part, soft: bool, in_loop: bool, mentions: &[Mention]) -> bool
    ensures { result ≡ counts_by (frame_term frame.now) part soft in_loop mentions.now }
{
    match part {
        Part::Randc => !soft && belongs(frame, part, in_loop, mentions),
        Part::Sizes | Part::All => belongs(frame, part, in_loop, mentions),
    }
}
