// Numbers that are to be constant (IEEE 1800-2017, 11.2.1).

ghost use Rattle.std.specs.Prelude.{◌≡◌, ◌<◌, ◌<ℤ◌, ◌≤ℤ◌, ◌^◌, pos, negsuc, length, IfOk, IfSome};
ghost use Rattle.svr_tree.specs.ExprTree.{expr_tree};
ghost use Rattle.svr_elab_fault.specs.Refusals.{first_one};
ghost use Rattle.svr_elab_names.specs.Tables.{space_of};
ghost use Rattle.svr_elab_part.specs.Seen.{part_of, HasValue};
ghost use Rattle.svr_elab_part.specs.Fits.{MembersFit, LiteralsFit, LoopsFit};
ghost use Rattle.svr_elab_type.specs.Types as types;
ghost use Rattle.svr_elab_type.specs.Seen.{constant_part};

use std::alloc::Global;
use svr_elab_expr::value;
use svr_elab_fault::{Fault, earlier, when};
use svr_elab_names::NameSpace;
use svr_elab_part::{Part, known};
use svr_refusal::Refusal;
use svr_tree::Expr;
use svr_typed::NoMemory;

/// A number that is to be constant, with its first token. It is not known where it is refused.
#[derive(Clone, Copy)]
pub struct Constant {
    pub at: u32,
    pub number: Option<i128>,
    pub fault: Option<Fault>,
}

fn constant_of(alloc: Global, part: &Part) -> Constant
    requires { HasValue (part_of part.now) }
    ensures value { constant_part result ≡ types.constant_of first_one (part_of part.now) }
    ensures low { IfSome result.number (λ n. negsuc (2 ^ 64) ≤ℤ n) }
    ensures high { IfSome result.number (λ n. n <ℤ pos (2 ^ 64)) }
{
    let not_constant = when(!part.reads.constant, part.at, Refusal::NotConstant);
    Constant {
        at: part.at,
        number: known(alloc, part),
        fault: earlier(part.fault, not_constant),
    }
}

/// Lets go what is known of an expression, so that no crate that calls this has to show how a tree is let go.
pub fn let_go(part: Part) {
    drop(part);
}

/// The number that an expression is to be.
#[tactic(auto, using(svr_elab_part::proofs::Valued::has_value))]
pub fn constant_at(alloc: Global, e: &Expr, names: &NameSpace<'_, '_>) -> Result<Constant, NoMemory>
    requires vars { length names.now.vars.now.entries < 2 ^ 32 }
    requires loops { LoopsFit (length names.now.loops.now) (expr_tree e.now) }
    requires members { MembersFit (space_of names.now) }
    requires literals { LiteralsFit (expr_tree e.now) }
    ensures value { IfOk result (λ c. constant_part c ≡ types.constant_at first_one (space_of names.now) (expr_tree e.now)) }
    ensures low { IfOk result (λ c. IfSome c.number (λ n. negsuc (2 ^ 64) ≤ℤ n)) }
    ensures high { IfOk result (λ c. IfSome c.number (λ n. n <ℤ pos (2 ^ 64))) }
{
    let part = value(alloc, e, names)?;
    let number = constant_of(alloc, &part);
    let_go(part);
    Ok(number)
}

/// The number of a bit, where the bound is one.
pub(crate) fn bit_number(bound: i128) -> Option<i64>
    ensures { result ≡ types.bit_number bound }
{
    if bound < 0 || 9_223_372_036_854_775_807 < bound {
        None
    } else {
        Some(bound as i64)
    }
}

pub(crate) fn lowest_bit(bound: Option<i128>) -> Option<i64>
    ensures { result ≡ types.lowest_bit bound }
{
    match bound {
        None => None,
        Some(bound) => bit_number(bound),
    }
}

/// Whether a bound is no bit number.
pub(crate) fn is_bad_bound(bound: Option<i128>) -> bool
    ensures { result ≡ types.is_bad_bound bound }
{
    match bound {
        None => false,
        Some(bound) => bit_number(bound).is_none(),
    }
}

/// Whether the first bound is below the last.
pub(crate) fn ascends(first: Option<i128>, last: Option<i128>) -> bool
    ensures { result ≡ types.ascends first last }
{
    let Some(first) = first else {
        return false;
    };
    match last {
        None => false,
        Some(last) => first < last,
    }
}

/// Whether a number is below the least that may stand there.
pub fn is_below(least: i128, number: Option<i128>) -> bool
    ensures { result ≡ types.is_below least number }
{
    match number {
        None => false,
        Some(number) => number < least,
    }
}

/// Whether a number is another than the only one that may stand there.
pub fn is_other(wanted: i128, number: Option<i128>) -> bool
    ensures { result ≡ types.is_other wanted number }
{
    match number {
        None => false,
        Some(number) => number < wanted || wanted < number,
    }
}

/// A count of elements. 2^32 and more, which are refused, count as 2^32 - 1.
pub fn elements(number: i128) -> u32
    ensures { result ≡ types.elements number }
{
    if number < 0 {
        0
    } else if 4_294_967_295 < number {
        4_294_967_295
    } else {
        number as u32
    }
}
