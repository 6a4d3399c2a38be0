// Enums and their members (IEEE 1800-2017, 6.19).

ghost use Rattle.std.specs.Prelude.{◌≡◌, ◌<◌, ◌≤◌, ◌≤ℤ◌, ◌+◌, ◌^◌, ℕ, List, pos, length, map, option_map, IfOk, IfSome};
ghost use Rattle.svr_num.specs.Num.{residue};
ghost use Rattle.svr_token.specs.Names.{names_of};
ghost use Rattle.svr_elab_fault.specs.Refusals.{first_one};
ghost use Rattle.svr_tree.specs.ExprTree.{expr_tree};
ghost use Rattle.svr_tree.specs.DeclTree.{member_tree};
ghost use Rattle.svr_elab_names.specs.Names.{ClassName};
ghost use Rattle.svr_elab_names.specs.Tables.{space_of, global_of, class_of};
ghost use Rattle.svr_elab_part.specs.Fits.{KindFits, MembersFit};
ghost use Rattle.svr_elab_type.specs.Types as spec;
ghost use Rattle.svr_elab_type.specs.Fits.{ValueFits, EnumMembersFit};
ghost use Rattle.svr_elab_type.specs.Seen.{AreEmpty, constant_part, enum_part};

use crate::constant::{Constant, constant_at};
use crate::global::{NoNames, and_name, declaring, double};
use indexmap::{IndexMap, IndexSet};
use sqlite_items::Items;
use std::alloc::Global as Heap;
use svr_elab_expr::{beside, both};
use svr_elab_fault::{Fault, earlier, when};
use svr_elab_names::{ClassNames, Global, NameSpace, Vector};
use svr_limits::MEMBER_LIMIT;
use svr_refusal::Refusal;
use svr_token::Names;
use svr_tree::{Expr, MemberDecl};
use svr_typed::{EnumMember, NoMemory, NumType, Text};

/// What is known of an enum after some members: the number of the next one where it writes none, the different numbers so far, and the members.
#[derive(Drop)]
pub struct EnumPart<'a> {
    pub globals: IndexMap<&'a [u8], Global>,
    pub next: Option<i128>,
    pub numbers: IndexSet<i128>,
    pub members: Items<EnumMember>,
    pub fault: Option<Fault>,
}

/// How many numbers have so many bits.
fn count_of_width(width: u8) -> i128
    requires { width ≤ 64 }
    ensures { result ≡ pos (2 ^ width) }
{
    1 << width
}

fn least_of(kind: NumType) -> i128
    requires low { 1 ≤ kind.width }
    requires high { kind.width ≤ 64 }
    ensures { result ≡ spec.least_number kind }
{
    if kind.signed {
        0 - count_of_width(kind.width - 1)
    } else {
        0
    }
}

fn greatest_of(kind: NumType) -> i128
    requires low { 1 ≤ kind.width }
    requires high { kind.width ≤ 64 }
    ensures { result ≡ spec.greatest_number kind }
{
    if kind.signed {
        count_of_width(kind.width - 1) - 1
    } else {
        count_of_width(kind.width) - 1
    }
}

/// The bits of a whole number modulo 2 to the power of `width`.
fn low_bits(number: i128, width: u8) -> u64
    requires low { 1 ≤ width }
    requires high { width ≤ 64 }
    ensures { result ≡ residue width number }
{
    let size = 1u128 << width;
    let value = if number >= 0 {
        number as u128 % size
    } else {
        size - 1 - (-1 - number) as u128 % size
    };
    value as u64
}

fn stored_bits(base: Option<Vector>, number: Option<i128>) -> Option<u64>
    requires { KindFits base }
    ensures { result ≡ spec.stored_bits base number }
{
    let Some(base) = base else {
        return None;
    };
    match number {
        None => None,
        Some(number) => Some(low_bits(number, base.kind.width)),
    }
}

/// Whether a member is outside of the base type, or equal to an earlier one.
fn is_bad_member(base: Option<Vector>, number: Option<i128>, numbers: &IndexSet<i128>) -> bool
    requires { KindFits base }
    ensures { result ≡ spec.is_bad_member base number numbers.now.keys }
{
    let Some(base) = base else {
        return false;
    };
    match number {
        None => false,
        Some(number) => {
            number < least_of(base.kind)
                || (greatest_of(base.kind) < number || numbers.contains(&number))
        }
    }
}

fn with_number(number: Option<i128>, numbers: IndexSet<i128>) -> Result<IndexSet<i128>, NoMemory>
    ensures { IfOk result (λ s. s.keys ≡ spec.with_number number numbers.keys) }
{
    let mut numbers = numbers;
    match number {
        None => Ok(numbers),
        Some(number) => match numbers.insert(number) {
            Ok(_) => Ok(numbers),
            Err(_) => Err(NoMemory),
        },
    }
}

fn with_member(
    alloc: Heap,
    members: Items<EnumMember>,
    name: &[u8],
    value: Option<u64>,
) -> Result<Items<EnumMember>, NoMemory>
    ensures { IfOk result (λ ms. ms ≡ spec.with_member members name.now value) }
{
    let mut members = members;
    let name = Text::from_vec(Vec::from_slice(alloc, name)?);
    let value = match value {
        None => 0,
        Some(value) => value,
    };
    members.push(EnumMember { name, value })?;
    Ok(members)
}

fn following(number: Option<i128>, count: usize) -> Option<i128>
    requires { IfSome number (λ n. n ≤ℤ pos (2 ^ 64 + count)) }
    ensures value { result ≡ spec.following number }
    ensures limit { IfSome result (λ n. n ≤ℤ pos (2 ^ 64 + (count + 1))) }
{
    match number {
        None => None,
        Some(number) => Some(number + 1),
    }
}

/// One more member, with the number that it has.
fn and_member<'a>(
    alloc: Heap,
    names: &Names<'a>,
    base: Option<Vector>,
    name: u32,
    part: EnumPart<'a>,
    number: Constant,
) -> Result<EnumPart<'a>, NoMemory>
    requires base { KindFits base }
    requires limit { IfSome number.number (λ n. n ≤ℤ pos (2 ^ 64 + length part.members)) }
    ensures part { IfOk result (λ p. (cs : List ClassName) → enum_part (names_of names.now) cs p ≡ spec.and_member first_one base name (enum_part (names_of names.now) cs part.entry) (constant_part number)) }
    ensures limit { IfOk result (λ p. IfSome p.next (λ n. n ≤ℤ pos (2 ^ 64 + length p.members))) }
    ensures members { IfOk result (λ p. (cs : List ClassName) → MembersFit (spec.declaring (names_of names.now) (map global_of part.entry.globals.entries) cs) → MembersFit (spec.declaring (names_of names.now) (map global_of p.globals.entries) cs)) }
{
    let spelled = names.name(name);
    let value = stored_bits(base, number.number);
    let bad = is_bad_member(base, number.number, &part.numbers);
    let many = MEMBER_LIMIT <= part.members.len();
    let own = earlier(
        double(&part.globals, spelled, name),
        earlier(
            when(bad, name, Refusal::BadEnum),
            when(many, name, Refusal::TooMany),
        ),
    );
    let next = following(number.number, part.members.len());
    let globals = and_name(part.globals, spelled, Global::OfMember(value, base));
    let numbers = with_number(number.number, part.numbers);
    let members = with_member(alloc, part.members, spelled, value);
    let (globals, (numbers, members)) = both(globals, both(numbers, members))?;
    Ok(EnumPart {
        globals,
        next,
        numbers,
        members,
        fault: earlier(part.fault, earlier(number.fault, own)),
    })
}

/// The number of a member: what it writes, or else the one that follows.
fn member_number(
    alloc: Heap,
    next: Option<i128>,
    value: &Option<Expr>,
    names: &NameSpace<'_, '_>,
) -> Result<Constant, NoMemory>
    requires vars { length names.now.vars.now.entries < 2 ^ 32 }
    requires members { MembersFit (space_of names.now) }
    requires fits { ValueFits (length names.now.loops.now) (option_map expr_tree value.now) }
    ensures value { IfOk result (λ c. constant_part c ≡ spec.member_number first_one (space_of names.now) next (option_map expr_tree value.now)) }
    ensures limit { (count : ℕ) → IfSome next (λ n. n ≤ℤ pos (2 ^ 64 + count)) → IfOk result (λ c. IfSome c.number (λ n. n ≤ℤ pos (2 ^ 64 + count))) }
{
    match value {
        None => Ok(Constant {
            at: 0,
            number: next,
            fault: None,
        }),
        Some(e) => constant_at(alloc, e, names),
    }
}

/// The members of an enum, each after those before it.
pub fn enum_members<'s, 'a>(
    alloc: Heap,
    names: &Names<'a>,
    classes: &'s [ClassNames<'a>],
    none: &'s NoNames<'a>,
    base: Option<Vector>,
    start: EnumPart<'a>,
    list: &[MemberDecl],
) -> Result<EnumPart<'a>, NoMemory>
    requires none { AreEmpty none.now }
    requires base { KindFits base }
    requires limit { IfSome start.next (λ n. n ≤ℤ pos (2 ^ 64 + length start.members)) }
    requires members { MembersFit (spec.declaring (names_of names.now) (map global_of start.globals.entries) (map class_of classes.now)) }
    requires fits { EnumMembersFit 0 (map member_tree list.now) }
    ensures part { IfOk result (λ p. enum_part (names_of names.now) (map class_of classes.now) p ≡ spec.enum_members first_one base (enum_part (names_of names.now) (map class_of classes.now) start.entry) (map member_tree list.now)) }
    ensures members { IfOk result (λ p. MembersFit (spec.declaring (names_of names.now) (map global_of p.globals.entries) (map class_of classes.now))) }
{
    let mut part = start;
    for member in list {
        let number = member_number(
            alloc,
            part.next,
            &member.value,
            &declaring(*names, &part.globals, &*classes, &*none),
        );
        let (before, number) = beside(part, number)?;
        part = and_member(alloc, names, base, member.name, before, number)?;
    }
    Ok(part)
}
