// The numbers that constants are (IEEE 1800-2017, 11.2.1).

ghost use Rattle.std.specs.Prelude.{◌≡◌, [], ◌≤◌, ◌<ℤ◌, ◌≤ℤ◌, ◌^◌, pos, negsuc, IfSome};
ghost use Rattle.svr_num.specs.Num.{read_of};
ghost use Rattle.svr_typed.specs.ExprTerm.{expr_term};
ghost use Rattle.svr_eval.specs.Reading.{blank};
ghost use Rattle.svr_eval.specs.Value.{alone, size_of};
ghost use Rattle.svr_eval.specs.Typed as eval;
ghost use Rattle.svr_eval.specs.Typed.{IsTyped, IsConstant};
ghost use Rattle.svr_elab_fault.specs.Refusals.{first_one};
ghost use Rattle.svr_elab_part.specs.Elab as spec;
ghost use Rattle.svr_elab_part.specs.Seen.{part_of, HasValue};

use crate::part::Part;
use sqlite_items::Items;
use std::alloc::Global;
use svr_eval::{Assign, Env, value};
use svr_num::Bits;
use svr_typed::TExpr;

/// The whole number that the bits read as: at least -2^63, and below 2^64.
#[tactic(auto, using(crate::proofs::Constants::read_low, crate::proofs::Constants::read_high))]
fn read(bits: Bits, signed: bool) -> i128
    requires { bits.width ≤ 64 }
    ensures value { result ≡ read_of signed bits.width bits.value }
    ensures low { negsuc (2 ^ 64) ≤ℤ result }
    ensures high { result <ℤ pos (2 ^ 64) }
{
    let number = bits.value();
    if signed {
        bits.signed()
    } else {
        i128::from(number)
    }
}

/// The value of an expression of numbers and operators alone, which reads nothing.
fn constant_bits(tree: &TExpr, nothing: &Assign, env: &Env) -> Bits
    requires typed { IsTyped (expr_term tree.now) }
    requires constant { IsConstant (expr_term tree.now) }
    ensures value { result.value ≡ alone blank [] (expr_term tree.now) }
    ensures width { result.width ≡ size_of (expr_term tree.now) }
{
    value(tree, nothing, env)
}

/// The number that an expression of numbers and operators alone is.
fn constant(alloc: Global, tree: &TExpr) -> i128
    requires typed { IsTyped (expr_term tree.now) }
    requires constant { IsConstant (expr_term tree.now) }
    ensures value { result ≡ eval.constant (expr_term tree.now) }
    ensures low { negsuc (2 ^ 64) ≤ℤ result }
    ensures high { result <ℤ pos (2 ^ 64) }
{
    let nothing = Assign {
        values: Items::new(alloc),
        sizes: Items::new(alloc),
        script: Items::new(alloc),
    };
    let env = Env::new();
    let bits = constant_bits(tree, &nothing, &env);
    read(bits, tree.signed)
}

/// The number of a constant in which nothing is refused.
pub fn known(alloc: Global, part: &Part) -> Option<i128>
    requires { HasValue (part_of part.now) }
    ensures value { result ≡ spec.known first_one (part_of part.now) }
    ensures low { IfSome result (λ n. negsuc (2 ^ 64) ≤ℤ n) }
    ensures high { IfSome result (λ n. n <ℤ pos (2 ^ 64)) }
{
    if !part.reads.constant || part.fault.is_some() {
        return None;
    }
    match &part.tree {
        None => None,
        Some(tree) => Some(constant(alloc, tree)),
    }
}
