//! What each form of expression makes of what is known of its parts, with the first refusal (IEEE 1800-2017, clause 11).
//!
//! Contracts see a part as `specs/Elab.antt` of `svr_elab_part` defines it, with the first refusal in the place of all of them; `keeps_the_first` says that this loses nothing.
#![tactic(auto)]

mod law;
mod leaf;
mod list;
mod operator;
mod reduce;
mod select;

pub use law::keeps_the_first;
pub use leaf::{literal, path_part};
pub use list::{
    and_part, and_range, copies_part, dollar_bound, inside_part, join_part, no_parts, no_ranges,
    pushed, span_range, value_bound, value_range,
};
pub use operator::{
    binary_part, choice_part, paren_part, plain, sign_part, sole, unary_part, with_parens,
};
pub use reduce::{is_no_array, reduce_part};
pub use select::{index_part, slice_part};
