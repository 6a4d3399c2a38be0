// The preferred number of a scalar or an element (IEEE 1800-2017, 18.4), by weight where a distribution gives weights (18.5.4).

ghost use Rattle.std.specs.Prelude.{◌≡◌, ◌≤◌, ◌%◌, ◌^◌};
ghost use Rattle.svr_num.specs.Num.{residue};
ghost use Rattle.svr_typed.specs.ExprTerm.{expr_term};
ghost use Rattle.svr_typed.specs.ItemTerm.{item_term, item_terms, dist_terms};
ghost use Rattle.svr_eval.specs.Reading.{reading_of};
ghost use Rattle.svr_eval.specs.Holds.{MembersAreTyped, MembersCanRead, ItemIsTyped, ItemsAreTyped, ItemCanRead, ItemsCanRead};
ghost use Rattle.svr_frame.specs.Frame.{frame_term, width_of, members_of};
ghost use Rattle.svr_draw.specs.Preferred as spec;
ghost use Rattle.svr_draw.specs.Picking as pick;

use crate::share::{has_places, pick_at, ranges_vary, total_places};
use svr_eval::Assign;
use svr_frame::Frame;
use svr_typed::{TDistItem, TExpr, TItem, TNode};

/// A word cut to so many bits.
fn cut(word: u64, width: u8) -> u64
    requires { width ≤ 64 }
    ensures { result ≡ word % 2 ^ width }
{
    if width < 64 {
        word % (1 << width)
    } else {
        word
    }
}

/// A word as a member of an enum (IEEE 1800-2017, 6.19), or cut to the width of other types.
pub(crate) fn from_domain(word: u64, prop: u32, frame: &Frame) -> u64
    requires { width_of (frame_term frame.now) prop ≤ 64 }
    ensures { result ≡ spec.from_domain (frame_term frame.now) prop (members_of (frame_term frame.now) prop) word }
{
    match frame.enum_of(prop) {
        None => cut(word, frame.width(prop)),
        Some(at) => {
            let count = frame.enum_size(at) as u64;
            if count == 0 {
                0
            } else {
                frame.enum_value(at, (word % count) as usize)
            }
        }
    }
}

/// A whole number cut to so many bits, in two's complement (IEEE 1800-2017, 6.11.3).
fn cut_signed(number: i128, width: u8) -> u64
    requires { width ≤ 64 }
    ensures { result ≡ residue width number }
{
    let size = 1 << width;
    let value = if number >= 0 {
        number as u128 % size
    } else {
        size - 1 - (-1 - number) as u128 % size
    };
    value as u64
}

/// Whether an expression as a whole is the property.
fn is_property(e: &TExpr, prop: u32) -> bool
    ensures { result ≡ pick.is_property prop (expr_term e.now) }
{
    match &e.node {
        TNode::Prop(own) => prop == *own,
        TNode::Number { .. }
        | TNode::Element(..)
        | TNode::Cell(..)
        | TNode::Size(..)
        | TNode::Script(_)
        | TNode::Loop(_)
        | TNode::Reduce(..)
        | TNode::Of(..)
        | TNode::Select { .. }
        | TNode::Unary { .. }
        | TNode::Binary { .. }
        | TNode::Choice { .. }
        | TNode::Inside { .. }
        | TNode::Join { .. }
        | TNode::Copies { .. }
        | TNode::Sign { .. } => false,
    }
}

/// Whether an item is a hard distribution whose whole left side is the property (IEEE 1800-2017, 18.5.4).
fn is_dist_on(item: &TItem, prop: u32) -> bool
    ensures { result ≡ pick.is_dist_on prop (item_term item.now) }
{
    match item {
        TItem::Plain { soft, expr, dist } => {
            let has_dist = match dist {
                None => false,
                Some(_) => true,
            };
            has_dist && !*soft && is_property(expr, prop)
        }
        TItem::Unique { .. }
        | TItem::Branch { .. }
        | TItem::Foreach { .. }
        | TItem::Disable { .. }
        | TItem::Solve { .. }
        | TItem::Implies { .. } => false,
    }
}

/// Whether some item is one, under no test and in no loop.
fn has_dist_on(items: &[TItem], prop: u32) -> bool
    ensures { result ≡ pick.has_dist_on prop (item_terms items.now) }
{
    for item in items {
        if is_dist_on(item, prop) {
            return true;
        }
    }
    false
}

/// The number that a distribution picks: by weight where its ranges stand still and its places can be counted in a word.
fn from_dist(members: &[TDistItem], word: u64, prop: u32, frame: &Frame, here: &Assign) -> u64
    requires typed { MembersAreTyped (dist_terms members.now) }
    requires reads { MembersCanRead (reading_of here.now) 0 (dist_terms members.now) }
    requires low { 1 ≤ width_of (frame_term frame.now) prop }
    requires high { width_of (frame_term frame.now) prop ≤ 64 }
    ensures { result ≡ pick.from_dist (frame_term frame.now) (reading_of here.now) prop (dist_terms members.now) word }
{
    if ranges_vary(members, frame) {
        return from_domain(word, prop, frame);
    }
    let total = total_places(members, prop, frame, here);
    if !has_places(total) {
        return from_domain(word, prop, frame);
    }
    let at = u128::from(word) % total;
    cut_signed(pick_at(members, at, prop, frame, here), frame.width(prop))
}

/// The number of a property that one item picks.
fn from_item(item: &TItem, word: u64, prop: u32, frame: &Frame, here: &Assign) -> u64
    requires typed { ItemIsTyped (item_term item.now) }
    requires reads { ItemCanRead (reading_of here.now) 0 (item_term item.now) }
    requires low { 1 ≤ width_of (frame_term frame.now) prop }
    requires high { width_of (frame_term frame.now) prop ≤ 64 }
    ensures { result ≡ pick.from_item (frame_term frame.now) (reading_of here.now) prop (item_term item.now) word }
{
    match item {
        TItem::Plain { dist, .. } => match dist {
            None => from_domain(word, prop, frame),
            Some(members) => from_dist(members.as_slice(), word, prop, frame, here),
        },
        TItem::Unique { .. }
        | TItem::Implies { .. }
        | TItem::Branch { .. }
        | TItem::Foreach { .. }
        | TItem::Disable { .. }
        | TItem::Solve { .. } => from_domain(word, prop, frame),
    }
}

/// The preferred number of a scalar under a word: by weight where just one distribution is on it.
pub(crate) fn from_items(items: &[TItem], word: u64, prop: u32, frame: &Frame, here: &Assign) -> u64
    requires typed { ItemsAreTyped (item_terms items.now) }
    requires reads { ItemsCanRead (reading_of here.now) 0 (item_terms items.now) }
    requires low { 1 ≤ width_of (frame_term frame.now) prop }
    requires high { width_of (frame_term frame.now) prop ≤ 64 }
    ensures { result ≡ pick.from_items (frame_term frame.now) (reading_of here.now) prop (item_terms items.now) word }
{
    let mut left = items;
    while let [item, others @ ..] = left {
        if is_dist_on(item, prop) {
            if has_dist_on(others, prop) {
                return from_domain(word, prop, frame);
            }
            return from_item(item, word, prop, frame, here);
        }
        left = others;
    }
    from_domain(word, prop, frame)
}
