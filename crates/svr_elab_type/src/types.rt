// Integral types (IEEE 1800-2017, 6.11 and 7.4.1).

ghost use Rattle.std.specs.Prelude.{◌≡◌, ◌<◌, ◌≤◌, ◌<ℤ◌, ◌≤ℤ◌, ◌-ℤ◌, ◌+ℤ◌, ◌^◌, ◌||◌, min, pos, negsuc, length, None, option_map, if◌then◌else◌, IfOk, IfSome};
ghost use Rattle.svr_tree.specs.DeclTree.{integer_tree, packed_tree};
ghost use Rattle.svr_elab_fault.specs.Refusals.{first_one};
ghost use Rattle.svr_elab_names.specs.Tables.{space_of};
ghost use Rattle.svr_elab_part.specs.Fits.{MembersFit, KindFits};
ghost use Rattle.svr_elab_part.specs.Shapes.{both_known, count_of};
ghost use Rattle.svr_elab_type.specs.Types as spec;
ghost use Rattle.svr_elab_type.specs.Fits.{PackedFits, IntegerFits, BaseFits};
ghost use Rattle.svr_elab_type.specs.Seen.{constant_part, type_part};

use crate::constant::{Constant, ascends, constant_at, is_bad_bound, lowest_bit};
use std::alloc::Global;
use svr_elab_fault::{Fault, earlier, when};
use svr_elab_names::{NameSpace, Vector};
use svr_refusal::Refusal;
use svr_tree::{AtomKind, IntegerType, PackedRange, Signing};
use svr_typed::{NoMemory, NumType};

/// What is known of a type.
#[derive(Clone, Copy)]
pub struct TypePart {
    pub kind: Option<Vector>,
    pub fault: Option<Fault>,
}

/// IEEE 1800-2017, table 6-8
fn atom_width(kind: AtomKind) -> u8
    ensures value { result ≡ spec.atom_width kind }
    ensures low { 1 ≤ result }
    ensures high { result ≤ 64 }
{
    match kind {
        AtomKind::Byte => 8,
        AtomKind::ShortInt => 16,
        AtomKind::Int | AtomKind::Integer => 32,
        AtomKind::LongInt => 64,
    }
}

fn is_signed(default: bool, signing: Option<Signing>) -> bool
    ensures { result ≡ spec.is_signed default signing }
{
    match signing {
        None => default,
        Some(Signing::Signed) => true,
        Some(Signing::Unsigned) => false,
    }
}

fn vector(width: u8, signed: bool, low: i64) -> Vector
    ensures { result ≡ spec.vector width signed low }
{
    Vector {
        kind: NumType {
            width,
            signed,
            members: None,
        },
        low,
    }
}

/// How many bits there are from one bound down to the other; below 0 where they ascend.
fn bits_down(msb: i128, lsb: i128) -> i128
    requires msb_low { negsuc (2 ^ 64) ≤ℤ msb }
    requires msb_high { msb <ℤ pos (2 ^ 64) }
    requires lsb_low { negsuc (2 ^ 64) ≤ℤ lsb }
    requires lsb_high { lsb <ℤ pos (2 ^ 64) }
    ensures { result ≡ msb -ℤ lsb +ℤ pos 1 }
{
    msb - lsb + 1
}

/// So many bits, where below 0 are none, and over 64 count as 65.
fn at_most_65(bits: i128) -> u8
    ensures { result ≡ min 65 (count_of bits) }
{
    if bits < 0 {
        0
    } else if 65 < bits {
        65
    } else {
        bits as u8
    }
}

/// How many bits lie between two bounds, where over 64 count as 65.
fn bits_between(msb: i128, lsb: i128) -> u8
    requires msb_low { negsuc (2 ^ 64) ≤ℤ msb }
    requires msb_high { msb <ℤ pos (2 ^ 64) }
    requires lsb_low { negsuc (2 ^ 64) ≤ℤ lsb }
    requires lsb_high { lsb <ℤ pos (2 ^ 64) }
    ensures { result ≡ spec.bits_between msb lsb }
{
    at_most_65(bits_down(msb, lsb))
}

fn range_width(msb: Option<i128>, lsb: Option<i128>) -> Option<u8>
    requires msb_low { IfSome msb (λ n. negsuc (2 ^ 64) ≤ℤ n) }
    requires msb_high { IfSome msb (λ n. n <ℤ pos (2 ^ 64)) }
    requires lsb_low { IfSome lsb (λ n. negsuc (2 ^ 64) ≤ℤ n) }
    requires lsb_high { IfSome lsb (λ n. n <ℤ pos (2 ^ 64)) }
    ensures { result ≡ spec.range_width msb lsb }
{
    let Some(msb) = msb else {
        return None;
    };
    match lsb {
        None => None,
        Some(lsb) => Some(bits_between(msb, lsb)),
    }
}

fn is_over_64(width: Option<u8>) -> bool
    ensures { result ≡ spec.is_over_64 width }
{
    match width {
        None => false,
        Some(width) => width > 64,
    }
}

fn range_kind(bad: bool, signed: bool, width: Option<u8>, lowest: Option<i64>) -> Option<Vector>
    ensures { result ≡ (if bad then None else both_known (λ w low. spec.vector w signed low) width lowest) }
{
    if bad {
        return None;
    }
    let Some(width) = width else {
        return None;
    };
    match lowest {
        None => None,
        Some(lowest) => Some(vector(width, signed, lowest)),
    }
}

fn range_fault(at: u32, bracket: u32, msb: Constant, lsb: Constant, wide: bool) -> Option<Fault>
    ensures { result ≡ spec.range_faults first_one at bracket (constant_part msb) (constant_part lsb) wide }
{
    let order = earlier(
        when(ascends(msb.number, lsb.number), bracket, Refusal::LeftOut),
        when(wide, at, Refusal::WiderThan64),
    );
    let bounds = earlier(
        when(is_bad_bound(msb.number), msb.at, Refusal::BadRange),
        earlier(
            when(is_bad_bound(lsb.number), lsb.at, Refusal::BadRange),
            order,
        ),
    );
    earlier(msb.fault, earlier(lsb.fault, bounds))
}

/// Whether two bounds give no range: one is no bit number, they ascend, or too many bits lie between them.
fn is_bad_range(msb: Option<i128>, lsb: Option<i128>, wide: bool) -> bool
    ensures { result ≡ (spec.is_bad_bound msb || (spec.is_bad_bound lsb || (spec.ascends msb lsb || wide))) }
{
    is_bad_bound(msb) || (is_bad_bound(lsb) || (ascends(msb, lsb) || wide))
}

/// A vector of the bits between two bounds. `at` is the first token of its type, `bracket` that of the range.
fn range_type(at: u32, signed: bool, bracket: u32, msb: Constant, lsb: Constant) -> TypePart
    requires msb_low { IfSome msb.number (λ n. negsuc (2 ^ 64) ≤ℤ n) }
    requires msb_high { IfSome msb.number (λ n. n <ℤ pos (2 ^ 64)) }
    requires lsb_low { IfSome lsb.number (λ n. negsuc (2 ^ 64) ≤ℤ n) }
    requires lsb_high { IfSome lsb.number (λ n. n <ℤ pos (2 ^ 64)) }
    ensures value { type_part result ≡ spec.range_type first_one at signed bracket (constant_part msb) (constant_part lsb) }
    ensures fits { KindFits result.kind }
{
    let width = range_width(msb.number, lsb.number);
    let wide = is_over_64(width);
    let bad = is_bad_range(msb.number, lsb.number, wide);
    TypePart {
        kind: range_kind(bad, signed, width, lowest_bit(lsb.number)),
        fault: range_fault(at, bracket, msb, lsb, wide),
    }
}

fn packed(
    alloc: Global,
    at: u32,
    signed: bool,
    range: &PackedRange,
    names: &NameSpace<'_, '_>,
) -> Result<TypePart, NoMemory>
    requires vars { length names.now.vars.now.entries < 2 ^ 32 }
    requires members { MembersFit (space_of names.now) }
    requires fits { PackedFits (length names.now.loops.now) (packed_tree range.now) }
    ensures value { IfOk result (λ t. type_part t ≡ spec.packed_type first_one (space_of names.now) at signed (packed_tree range.now)) }
    ensures fits { IfOk result (λ t. KindFits t.kind) }
{
    let msb = constant_at(alloc, &range.msb, names)?;
    let lsb = constant_at(alloc, &range.lsb, names)?;
    Ok(range_type(at, signed, range.at, msb, lsb))
}

/// The type of these bits, numbered from 0.
fn bits_wide(width: u8, signed: bool) -> TypePart
    requires low { 1 ≤ width }
    requires high { width ≤ 64 }
    ensures value { type_part result ≡ spec.bits_type first_one width signed }
    ensures fits { KindFits result.kind }
{
    TypePart {
        kind: Some(vector(width, signed, 0)),
        fault: None,
    }
}

/// A type that is written out.
pub fn integer_type(
    alloc: Global,
    kind: &IntegerType,
    names: &NameSpace<'_, '_>,
) -> Result<TypePart, NoMemory>
    requires vars { length names.now.vars.now.entries < 2 ^ 32 }
    requires members { MembersFit (space_of names.now) }
    requires fits { IntegerFits (length names.now.loops.now) (integer_tree kind.now) }
    ensures value { IfOk result (λ t. type_part t ≡ spec.integer_type first_one (space_of names.now) (integer_tree kind.now)) }
    ensures fits { IfOk result (λ t. KindFits t.kind) }
{
    match kind {
        IntegerType::Atom { kind, signing, .. } => {
            Ok(bits_wide(atom_width(*kind), is_signed(true, *signing)))
        }
        IntegerType::Vector {
            at,
            signing,
            range,
            ..
        } => match range {
            None => Ok(bits_wide(1, is_signed(false, *signing))),
            Some(range) => packed(alloc, *at, is_signed(false, *signing), range, names),
        },
    }
}

/// The base type of an enum, which is `int` where none is written (IEEE 1800-2017, 6.19).
pub fn base_type(
    alloc: Global,
    base: &Option<IntegerType>,
    names: &NameSpace<'_, '_>,
) -> Result<TypePart, NoMemory>
    requires vars { length names.now.vars.now.entries < 2 ^ 32 }
    requires members { MembersFit (space_of names.now) }
    requires fits { BaseFits (length names.now.loops.now) (option_map integer_tree base.now) }
    ensures value { IfOk result (λ t. type_part t ≡ spec.base_type first_one (space_of names.now) (option_map integer_tree base.now)) }
    ensures fits { IfOk result (λ t. KindFits t.kind) }
{
    match base {
        None => Ok(bits_wide(32, true)),
        Some(base) => integer_type(alloc, base, names),
    }
}
