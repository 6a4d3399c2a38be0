// What stands around an item as far as its weight needs it: the tests, and what they and the loops mention.

ghost use Rattle.std.specs.Prelude.{◌≡◌, ◌≤◌, ◌+◌, ◌-◌, ◌^◌, false};
ghost use Rattle.svr_typed.specs.ExprTerm.{expr_term};
ghost use Rattle.svr_typed.specs.ItemTerm.{dist_terms};
ghost use Rattle.svr_eval.specs.Typed.{IsTyped};
ghost use Rattle.svr_frame.specs.Frame.{frame_term};
ghost use Rattle.svr_frame.specs.Weight.{capped};
ghost use Rattle.svr_weight.specs.Weighing as spec;

use crate::cost::{add, own_cost};
use svr_frame::{Frame, Part, Sought, finds, finds_in_members, finds_size};
use svr_typed::{TDistItem, TExpr};

/// What is mentioned that decides whether an item counts in a phase: something that it has to mention there, and something that it may not.
#[derive(Clone, Copy)]
pub(crate) struct Mentions {
    pub(crate) wanted: bool,
    pub(crate) barred: bool,
}

/// The tests around an item, joined by `&&`: the width of the result in bits, and what it weighs.
#[derive(Clone, Copy)]
pub(crate) struct Tests {
    pub(crate) width: u8,
    pub(crate) weight: u128,
}

/// What stands around an item.
#[derive(Clone, Copy)]
pub(crate) struct Around {
    pub(crate) tests: Option<Tests>,
    pub(crate) mentions: Mentions,
    pub(crate) in_loop: bool,
}

impl Mentions {
    pub(crate) fn new(wanted: bool, barred: bool) -> Mentions
        ensures { result ≡ record { wanted = wanted; barred = barred } }
    {
        Mentions { wanted, barred }
    }

    pub(crate) fn joined(self, other: Mentions) -> Mentions
        ensures { result ≡ spec.joined self other }
    {
        Mentions {
            wanted: self.wanted || other.wanted,
            barred: self.barred || other.barred,
        }
    }
}

/// What an expression mentions.
pub(crate) fn mentioned_by(e: &TExpr, frame: &Frame, part: Part) -> Mentions
    ensures { result ≡ spec.mentioned_by (frame_term frame.now) part (expr_term e.now) }
{
    match part {
        Part::Randc => Mentions {
            wanted: finds(e, Sought::Random, frame),
            barred: finds(e, Sought::NotCyclic, frame),
        },
        Part::Sizes => Mentions {
            wanted: false,
            barred: finds(e, Sought::RandomElement, frame),
        },
        Part::All => Mentions {
            wanted: false,
            barred: false,
        },
    }
}

/// What the members of a distribution mention, their weights included (IEEE 1800-2017, 18.5.4).
pub(crate) fn members_mention(members: &[TDistItem], frame: &Frame, part: Part) -> Mentions
    ensures { result ≡ spec.members_mention (frame_term frame.now) part (dist_terms members.now) }
{
    match part {
        Part::Randc => Mentions {
            wanted: finds_in_members(members, Sought::Random, frame),
            barred: finds_in_members(members, Sought::NotCyclic, frame),
        },
        Part::Sizes => Mentions {
            wanted: false,
            barred: finds_in_members(members, Sought::RandomElement, frame),
        },
        Part::All => Mentions {
            wanted: false,
            barred: false,
        },
    }
}

/// What a loop over an array mentions: the size of the array.
fn size_mentions(array: u32, frame: &Frame, part: Part) -> Mentions
    ensures { result ≡ spec.size_mentions (frame_term frame.now) part array }
{
    match part {
        Part::Randc => Mentions {
            wanted: finds_size(array, Sought::Random, frame),
            barred: finds_size(array, Sought::NotCyclic, frame),
        },
        Part::Sizes => Mentions {
            wanted: false,
            barred: finds_size(array, Sought::RandomElement, frame),
        },
        Part::All => Mentions {
            wanted: false,
            barred: false,
        },
    }
}

fn is_counted(part: Part, soft: bool, in_loop: bool, mentions: Mentions) -> bool
    ensures { result ≡ spec.is_counted part soft in_loop mentions }
{
    match part {
        Part::Randc => !soft && mentions.wanted && !mentions.barred,
        Part::Sizes => !mentions.barred && !in_loop,
        Part::All => true,
    }
}

/// Tests with one more of this weight and width.
fn tested(tests: Option<Tests>, own: u128, width: u8) -> Tests
    ensures { result ≡ spec.tested tests own width }
{
    match tests {
        None => Tests { width, weight: own },
        Some(outer) => {
            let widths = u128::from(outer.width) + u128::from(width);
            Tests {
                width: 1,
                weight: add(add(widths, outer.weight), own),
            }
        }
    }
}

/// What an expression of this weight and width weighs under tests.
pub(crate) fn guarded_weight(tests: Option<Tests>, own: u128, width: u8) -> u128
    ensures { result ≡ capped (spec.guarded_weight tests own width) }
{
    match tests {
        None => own,
        Some(tests) => {
            let widths = u128::from(tests.width) + u128::from(width);
            add(add(widths, tests.weight), own)
        }
    }
}

impl Around {
    /// Around an item that stands in no other.
    pub(crate) fn everywhere() -> Around
        ensures { result ≡ spec.everywhere }
    {
        let mentions = Mentions {
            wanted: false,
            barred: false,
        };
        Around {
            tests: None,
            mentions,
            in_loop: false,
        }
    }

    pub(crate) fn in_loop_over(self, array: u32, frame: &Frame, part: Part) -> Around
        ensures { result ≡ spec.in_loop_over (frame_term frame.now) part self array }
    {
        Around {
            tests: self.tests,
            mentions: self.mentions.joined(size_mentions(array, frame, part)),
            in_loop: true,
        }
    }

    /// Under one more test, which is to be true or false.
    #[tactic(auto, using(crate::proofs::Caps::tested_capped))]
    pub(crate) fn with_test(
        self,
        test: &TExpr,
        wanted: bool,
        frame: &Frame,
        part: Part,
        sizes: &[u32],
    ) -> Around
        requires { IsTyped (expr_term test.now) }
        ensures { result ≡ spec.with_test (frame_term frame.now) part sizes.now self (expr_term test.now) wanted }
    {
        let own = own_cost(test, frame, part, sizes);
        let tests = if wanted {
            tested(self.tests, own, test.width)
        } else {
            tested(self.tests, add(u128::from(test.width), own), 1)
        };
        Around {
            tests: Some(tests),
            mentions: self.mentions.joined(mentioned_by(test, frame, part)),
            in_loop: self.in_loop,
        }
    }

    /// Whether a hard item counts here that mentions this.
    pub(crate) fn counts(self, mentions: Mentions, part: Part) -> bool
        ensures { result ≡ spec.is_counted part false self.in_loop (spec.joined self.mentions mentions) }
    {
        is_counted(part, false, self.in_loop, self.mentions.joined(mentions))
    }

    /// What an item of this weight and width weighs here, 0 where it does not count.
    pub(crate) fn leaf_weight(
        self,
        soft: bool,
        mentions: Mentions,
        own: u128,
        width: u8,
        part: Part,
    ) -> u128
        ensures { result ≡ capped (spec.leaf_weight part self soft mentions own width) }
    {
        let all = self.mentions.joined(mentions);
        if is_counted(part, soft, self.in_loop, all) {
            guarded_weight(self.tests, own, width)
        } else {
            0
        }
    }
}
