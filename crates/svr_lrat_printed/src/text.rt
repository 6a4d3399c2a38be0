// The text of a file.

ghost use Rattle.std.specs.Prelude.{◌≡◌, ◌++◌, true, length, flat_map, codes, decimal, IfOk, OnOk};
ghost use Rattle.svr_lrat_text.specs.File.{is_file, unsigned};
ghost use Rattle.svr_lrat_text.specs.Faults.{IsFileOf};
ghost use Rattle.svr_lrat_printed.specs.Text as spec;

use itoa::Buffer;
use std::alloc::Global;
use svr_chain::{Clause, Lit, NoMemory};
use svr_lrat_file::{Line, LratFile, Number};

/// One more part.
fn put(text: &mut Vec<u8>, part: &[u8]) -> Result<(), NoMemory>
    ensures { OnOk result (text.new.items ≡ text.old.items ++ part.now) }
{
    text.extend_from_slice(part)?;
    Ok(())
}

fn put_digits(text: &mut Vec<u8>, number: u64) -> Result<(), NoMemory>
    ensures { OnOk result (text.new.items ≡ text.old.items ++ decimal number) }
{
    let mut buffer = Buffer::new();
    let digits = buffer.format(number).as_bytes();
    put(text, digits)?;
    Ok(())
}

fn sign(negative: bool) -> &'static [u8]
    ensures { result.now ≡ spec.sign_text negative }
{
    if negative { b"-".as_slice() } else { b"" }
}

/// A number, and a space.
fn put_item(text: &mut Vec<u8>, number: Number) -> Result<(), NoMemory>
    ensures { OnOk result (text.new.items ≡ text.old.items ++ spec.item_text number) }
{
    let minus = sign(number.negative);
    put(text, minus)?;
    put_digits(text, number.size)?;
    put(text, b" ")?;
    Ok(())
}

/// A number without a sign, and a space.
fn put_id(text: &mut Vec<u8>, id: u64) -> Result<(), NoMemory>
    ensures { OnOk result (text.new.items ≡ text.old.items ++ spec.item_text (unsigned id)) }
{
    let number = Number {
        negative: false,
        size: id,
    };
    put_item(text, number)
}

fn put_lit(text: &mut Vec<u8>, lit: Lit) -> Result<(), NoMemory>
    ensures { OnOk result (text.new.items ≡ text.old.items ++ spec.lit_text lit) }
{
    let number = Number {
        negative: lit.neg,
        size: lit.var,
    };
    put_item(text, number)
}

#[tactic(auto, using(crate::proofs::Parts::one_more))]
fn put_items(text: &mut Vec<u8>, numbers: &[Number]) -> Result<(), NoMemory>
    ensures { OnOk result (text.new.items ≡ text.old.items ++ flat_map spec.item_text numbers.now) }
{
    let mut left = numbers;
    while let [number, others @ ..] = left {
        put_item(text, *number)?;
        left = others;
    }
    Ok(())
}

#[tactic(auto, using(crate::proofs::Parts::one_more))]
fn put_lits(text: &mut Vec<u8>, lits: &[Lit]) -> Result<(), NoMemory>
    ensures { OnOk result (text.new.items ≡ text.old.items ++ flat_map spec.lit_text lits.now) }
{
    let mut left = lits;
    while let [lit, others @ ..] = left {
        put_lit(text, *lit)?;
        left = others;
    }
    Ok(())
}

/// A clause of the formula, up to the end of its line.
fn put_clause(text: &mut Vec<u8>, lits: &[Lit]) -> Result<(), NoMemory>
    ensures { OnOk result (text.new.items ≡ text.old.items ++ spec.clause_text lits.now) }
{
    put_lits(text, lits)?;
    put(text, b"0\n")?;
    Ok(())
}

/// The literals of a lemma, and the 0 behind them.
fn put_lemma_lits(text: &mut Vec<u8>, lits: &[Lit]) -> Result<(), NoMemory>
    ensures { OnOk result (text.new.items ≡ text.old.items ++ spec.lits_text lits.now) }
{
    put_lits(text, lits)?;
    put(text, b"0 ")?;
    Ok(())
}

/// Numbers up to the end of a line.
fn put_last(text: &mut Vec<u8>, numbers: &[Number]) -> Result<(), NoMemory>
    ensures { OnOk result (text.new.items ≡ text.old.items ++ spec.last_text numbers.now) }
{
    put_items(text, numbers)?;
    put(text, b"0\n")?;
    Ok(())
}

fn put_lemma(text: &mut Vec<u8>, id: u64, lits: &[Lit], hints: &[Number]) -> Result<(), NoMemory>
    ensures { OnOk result (text.new.items ≡ text.old.items ++ (spec.item_text (unsigned id) ++ (spec.lits_text lits.now ++ spec.last_text hints.now))) }
{
    put_id(text, id)?;
    put_lemma_lits(text, lits)?;
    put_last(text, hints)?;
    Ok(())
}

fn put_delete(text: &mut Vec<u8>, id: u64, ids: &[Number]) -> Result<(), NoMemory>
    ensures { OnOk result (text.new.items ≡ text.old.items ++ (spec.item_text (unsigned id) ++ (codes "d " ++ spec.last_text ids.now))) }
{
    put_id(text, id)?;
    put(text, b"d ")?;
    put_last(text, ids)?;
    Ok(())
}

fn put_line(text: &mut Vec<u8>, line: &Line) -> Result<(), NoMemory>
    ensures { OnOk result (text.new.items ≡ text.old.items ++ spec.line_text line.now) }
{
    match line {
        Line::Lemma { id, lits, hints } => put_lemma(text, *id, lits.lits(), hints.as_slice()),
        Line::Delete { id, ids } => put_delete(text, *id, ids.as_slice()),
    }
}

#[tactic(auto, using(crate::proofs::Parts::one_more))]
fn put_clauses(text: &mut Vec<u8>, clauses: &[Clause]) -> Result<(), NoMemory>
    ensures { OnOk result (text.new.items ≡ text.old.items ++ flat_map spec.clause_text clauses.now) }
{
    let mut left = clauses;
    while let [clause, others @ ..] = left {
        put_clause(text, clause.lits())?;
        left = others;
    }
    Ok(())
}

#[tactic(auto, using(crate::proofs::Parts::one_more))]
fn put_lines(text: &mut Vec<u8>, lines: &[Line]) -> Result<(), NoMemory>
    ensures { OnOk result (text.new.items ≡ text.old.items ++ flat_map spec.line_text lines.now) }
{
    let mut left = lines;
    while let [line, others @ ..] = left {
        put_line(text, line)?;
        left = others;
    }
    Ok(())
}

/// The numbers of variables and of clauses.
fn put_header(text: &mut Vec<u8>, vars: u64, count: u64) -> Result<(), NoMemory>
    ensures { OnOk result (text.new.items ≡ text.old.items ++ spec.header_text vars count) }
{
    put(text, b"p cnf ")?;
    put_id(text, vars)?;
    put_digits(text, count)?;
    put(text, b"\n")?;
    Ok(())
}

fn parts_text(
    alloc: Global,
    vars: u64,
    clauses: &[Clause],
    lines: &[Line],
) -> Result<Vec<u8>, NoMemory>
    ensures { IfOk result (λ t. t.items ≡ spec.text_of (record { vars = vars; clauses = clauses.now; lines = lines.now })) }
{
    let mut text = Vec::new(alloc);
    put_header(&mut text, vars, clauses.len() as u64)?;
    put_clauses(&mut text, clauses)?;
    put_lines(&mut text, lines)?;
    Ok(text)
}

/// The text of a file: its header, a line for each clause, and its lines. Each token of a line is followed by a space but the last, which is followed by a newline.
///
/// A file whose numbers are within the limits of the form is read back from it.
pub fn printed(alloc: Global, file: &LratFile) -> Result<Vec<u8>, NoMemory>
    ensures text { IfOk result (λ t. t.items ≡ spec.text_of file.now) }
    ensures read_back { is_file true file.now ≡ true → IfOk result (λ t. IsFileOf t.items file.now) }
{
    let clauses = file.clauses.as_slice();
    let lines = file.lines.as_slice();
    parts_text(alloc, file.vars, clauses, lines)
}
