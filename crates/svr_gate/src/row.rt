//! The clauses of one gate, each for some rows of its table.

ghost use Rattle.std.specs.Prelude.{◌≡◌, ◌==◌, ◌≤◌, ◌<◌, ◌%◌, ◌^◌, All, length, map, if◌then◌else◌, IfOk};
ghost use Rattle.svr_chain.specs.Clauses.{flip};
ghost use Rattle.svr_gate.specs.Covers.{cube_clause, rows_upto, clause_count, Defines};

use crate::cover::{Cube, short_cover};
use std::alloc::{AllocError, Global};
use svr_chain::{Clause, Lit};

/// The literal that is false just where the input is the lowest bit of `left`.
fn input_of_row(lit: Lit, left: u16) -> Lit
    ensures { result ≡ (if left % 2 == 1 then flip lit else lit) }
{
    if left % 2 == 1 { lit.flipped() } else { lit }
}

/// The clause of a cube: it is false just where the inputs are in the cube and the output is not
/// the table's value there.
fn clause(
    alloc: Global,
    table: u16,
    ins: &[Lit],
    out: u64,
    cube: Cube,
) -> Result<Clause, AllocError>
    requires few { length ins.now ≤ 4 }
    requires at { cube.row < 16 }
    ensures { IfOk result (λ c. c ≡ cube_clause table ins.now out cube) }
{
    let mut lits = Vec::with_capacity(alloc, ins.len() + 1)?;
    let mut row = cube.row;
    let mut mask = cube.mask;
    for lit in ins {
        if mask % 2 == 1 {
            lits.push_reserved(input_of_row(*lit, row));
        }
        row /= 2;
        mask /= 2;
    }
    let neg = (table >> cube.row) % 2 == 0;
    lits.push_reserved(Lit { var: out, neg });
    Ok(Clause::new(lits))
}

/// The clauses of these cubes.
fn cubes(
    alloc: Global,
    table: u16,
    ins: &[Lit],
    out: u64,
    cubes: &[Cube],
) -> Result<Vec<Clause>, AllocError>
    requires few { length ins.now ≤ 4 }
    requires rows { All (λ c. c.row < 16) cubes.now }
    ensures { IfOk result (λ cs. cs.items ≡ map (cube_clause table ins.now out) cubes.now) }
{
    let mut clauses = Vec::with_capacity(alloc, cubes.len())?;
    for cube in cubes {
        clauses.push_reserved(clause(alloc, table, ins, out, *cube)?);
    }
    Ok(clauses)
}

/// A clause for each of the first `count` rows.
fn rows(
    alloc: Global,
    table: u16,
    ins: &[Lit],
    out: u64,
    count: u16,
) -> Result<Vec<Clause>, AllocError>
    requires few { length ins.now ≤ 4 }
    requires rows { count ≤ 16 }
    ensures { IfOk result (λ cs. cs.items ≡ map (cube_clause table ins.now out) (rows_upto count)) }
{
    let mut clauses = Vec::with_capacity(alloc, count as usize)?;
    for row in 0..count {
        clauses.push_reserved(clause(alloc, table, ins, out, Cube { row, mask: 0xf })?);
    }
    Ok(clauses)
}

/// The clauses that hold just where the output is the table's value at the inputs: a short list
/// where one is known, else one clause for each row.
pub(crate) fn clauses(
    alloc: Global,
    table: u16,
    ins: &[Lit],
    out: u64,
) -> Result<Vec<Clause>, AllocError>
    requires { length ins.now ≤ 4 }
    ensures defines { IfOk result (λ cs. Defines table ins.now out cs.items) }
    ensures count { IfOk result (λ cs. length cs.items ≡ clause_count (length ins.now) table) }
{
    match short_cover(ins.len(), table) {
        Some(short) => cubes(alloc, table, ins, out, short),
        None => rows(alloc, table, ins, out, 1 << ins.len()),
    }
}
