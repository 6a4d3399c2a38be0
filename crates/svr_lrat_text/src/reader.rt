// Files from their text.

ghost use Rattle.svr_lrat_file.specs.Views.{FileView};
ghost use Rattle.std.specs.Prelude.{◌≡◌, ◌⊎◌, ◌≤◌, ◌<◌, ◌∷◌, ◌++◌, ◌&&◌, [], true, false, length, map, flat_map, IfOk, OnOk, IfErr, IfSome, IfNone, MatchResult, MatchOption, IsTrue, List, ℕ};
ghost use Rattle.std.specs.List.{list_all};
ghost use Rattle.svr_lrat_text.specs.declared.limits.TheConstants.{MOST_TEXT, MOST_ID, MOST_COUNT};
ghost use Rattle.svr_lrat_text.specs.declared.word.Word.TheVariants as w;
ghost use Rattle.svr_lrat_text.specs.declared.fault.LratFault.TheVariants as fault;
ghost use Rattle.svr_lrat_text.specs.Words.{tokens_of, words};
ghost use Rattle.svr_lrat_text.specs.File.{file_words, is_file, list_words, clause_words, line_words, plain, lit_number, is_entry, is_clause, is_line};
ghost use Rattle.svr_lrat_text.specs.Faults.{IsFileOf, IsFaultOf, IsBad, IsTooLarge};
ghost use Rattle.svr_lrat_text.specs.Reading.{after, reads, Took, at_problem, at_cnf, at_vars, at_clauses, at_line, at_second, at_end, in_list, in_delete, in_hints, IsStop, Place};

use crate::cursor::Cursor;
use crate::fault::LratFault;
use crate::limits::{MOST_ID, MOST_TEXT};
use sqlite_items::Items;
use std::alloc::Global;
use svr_chain::{Clause, Lit};
use svr_lrat_file::{Line, LratFile, Number};

/// One more item, or want of memory as the reader tells it.
fn keep<T: Drop>(items: &mut Vec<T>, item: T) -> Result<(), LratFault>
    ensures kept { OnOk result (items.new.items ≡ items.old.items ++ item ∷ []) }
    ensures memory { IfErr result (λ e. e ≡ fault.NoMemory) }
{
    match items.push(item) {
        Ok(()) => Ok(()),
        Err(_) => Err(LratFault::NoMemory),
    }
}

/// The numbers of a list, and the 0 behind it.
fn read_numbers(
    alloc: Global,
    cursor: &mut Cursor<'_>,
    most: u64,
    signed: bool,
) -> Result<Items<Number>, LratFault>
    ensures written { IfOk result (λ ns. words cursor.old ≡ list_words ns ++ words cursor.new) }
    ensures within { IfOk result (λ ns. list_all (is_entry true most signed) ns ≡ true) }
    ensures goes { (next : Place) → MatchResult result (λ ns. after (in_list most signed next) cursor.old ≡ after next cursor.new) (λ e. IsStop (in_list most signed next) cursor.old e) }
{
    let mut numbers = Vec::new(alloc);
    'entries: loop {
        let token = cursor.next();
        let found = token.entry(most, signed)?;
        match found {
            None => return Ok(Items::from_vec(numbers)),
            Some(number) => keep(&mut numbers, number)?,
        }
    }
}

/// The literal that the number writes.
fn lit_of(number: Number) -> Lit
    ensures { lit_number result ≡ number }
{
    Lit {
        var: number.size,
        neg: number.negative,
    }
}

/// The clause whose literals the numbers write.
fn clause_of(alloc: Global, numbers: &[Number]) -> Result<Clause, LratFault>
    ensures { MatchResult result (λ c. map lit_number c ≡ numbers.now) (λ e. e ≡ fault.NoMemory) }
{
    let mut lits = Vec::new(alloc);
    for number in numbers {
        keep(&mut lits, lit_of(*number))?;
    }
    Ok(Clause::new(lits))
}

/// The literals of a clause, and the 0 behind it.
fn read_clause(alloc: Global, cursor: &mut Cursor<'_>, vars: u64) -> Result<Clause, LratFault>
    ensures written { IfOk result (λ c. words cursor.old ≡ clause_words c ++ words cursor.new) }
    ensures within { IfOk result (λ c. is_clause true vars c ≡ true) }
    ensures goes { (next : Place) → MatchResult result (λ c. after (in_list vars true next) cursor.old ≡ after next cursor.new) (λ e. IsStop (in_list vars true next) cursor.old e) }
{
    let numbers = read_numbers(alloc, cursor, vars, true)?;
    clause_of(alloc, numbers.as_slice())
}

/// A lemma or a deletion, from behind its identifier on.
fn line_of(alloc: Global, cursor: &mut Cursor<'_>, id: u64, vars: u64) -> Result<Line, LratFault>
    ensures written { IfOk result (λ l. plain id ∷ words cursor.old ≡ line_words l ++ words cursor.new) }
    ensures within { is_entry true MOST_ID false (record { negative = false; size = id }) ≡ true → IfOk result (λ l. is_line true vars l ≡ true) }
    ensures goes { MatchResult result (λ l. after (at_second vars) cursor.old ≡ after (at_line vars) cursor.new) (λ e. IsStop (at_second vars) cursor.old e) }
{
    if cursor.takes_delete() {
        let ids = read_numbers(alloc, cursor, MOST_ID, false)?;
        return Ok(Line::Delete { id, ids });
    }
    let lits = read_clause(alloc, cursor, vars)?;
    let hints = read_numbers(alloc, cursor, MOST_ID, true)?;
    Ok(Line::Lemma { id, lits, hints })
}

/// The next line, or nothing at the end of the text.
fn read_line(alloc: Global, cursor: &mut Cursor<'_>, vars: u64) -> Result<Option<Line>, LratFault>
    ensures written { IfOk result (λ o. MatchOption o (words cursor.old ≡ w.End ∷ []) (λ l. words cursor.old ≡ line_words l ++ words cursor.new)) }
    ensures within { IfOk result (λ o. IfSome o (λ l. is_line true vars l ≡ true)) }
    ensures goes { MatchResult result (λ o. IfSome o (λ l. after (at_line vars) cursor.old ≡ after (at_line vars) cursor.new)) (λ e. IsStop (at_line vars) cursor.old e) }
{
    let token = cursor.next();
    if token.word.is_end() {
        return Ok(None);
    }
    let id = token.id()?;
    let line = line_of(alloc, cursor, id, vars)?;
    Ok(Some(line))
}

/// The clauses of the formula.
fn read_clauses(
    alloc: Global,
    cursor: &mut Cursor<'_>,
    vars: u64,
    count: u64,
) -> Result<Vec<Clause>, LratFault>
    ensures written { IfOk result (λ cs. words cursor.old ≡ flat_map clause_words cs.items ++ words cursor.new) }
    ensures count { IfOk result (λ cs. length cs.items ≡ count) }
    ensures within { IfOk result (λ cs. list_all (is_clause true vars) cs.items ≡ true) }
    ensures goes { MatchResult result (λ cs. after (at_clauses vars count) cursor.old ≡ after (at_line vars) cursor.new) (λ e. IsStop (at_clauses vars count) cursor.old e) }
{
    let mut clauses = Vec::new(alloc);
    for _ in 0..count {
        let next = read_clause(alloc, cursor, vars)?;
        keep(&mut clauses, next)?;
    }
    Ok(clauses)
}

/// The lines of the derivation, up to the end of the text.
fn read_lines(alloc: Global, cursor: &mut Cursor<'_>, vars: u64) -> Result<Vec<Line>, LratFault>
    ensures written { IfOk result (λ ls. words cursor.old ≡ flat_map line_words ls.items ++ w.End ∷ []) }
    ensures within { IfOk result (λ ls. list_all (is_line true vars) ls.items ≡ true) }
    ensures fault { IfErr result (λ e. IsStop (at_line vars) cursor.old e) }
{
    let mut lines = Vec::new(alloc);
    'lines: loop {
        let next = read_line(alloc, cursor, vars)?;
        match next {
            None => return Ok(lines),
            Some(line) => keep(&mut lines, line)?,
        }
    }
}

/// What the header says: the numbers of variables and of clauses.
#[derive(Clone, Copy)]
struct Header {
    vars: u64,
    count: u64,
}

fn take_problem(cursor: &mut Cursor<'_>) -> Result<(), LratFault>
    ensures { MatchResult result (λ _. Took at_problem at_cnf cursor.old cursor.new w.Problem) (λ e. IsStop at_problem cursor.old e) }
{
    let token = cursor.next();
    if token.word.is_problem() {
        Ok(())
    } else {
        Err(token.bad())
    }
}

fn take_cnf(cursor: &mut Cursor<'_>) -> Result<(), LratFault>
    ensures { MatchResult result (λ _. Took at_cnf at_vars cursor.old cursor.new w.Cnf) (λ e. IsStop at_cnf cursor.old e) }
{
    let token = cursor.next();
    if token.word.is_cnf() {
        Ok(())
    } else {
        Err(token.bad())
    }
}

fn read_header(cursor: &mut Cursor<'_>) -> Result<Header, LratFault>
    ensures written { IfOk result (λ h. words cursor.old ≡ w.Problem ∷ (w.Cnf ∷ (plain h.vars ∷ (plain h.count ∷ words cursor.new)))) }
    ensures within { IfOk result (λ h. (h.vars ≤ MOST_COUNT) × (h.count ≤ MOST_COUNT)) }
    ensures goes { MatchResult result (λ h. after at_problem cursor.old ≡ after (at_clauses h.vars h.count) cursor.new) (λ e. IsStop at_problem cursor.old e) }
{
    take_problem(cursor)?;
    take_cnf(cursor)?;
    let first = cursor.next();
    let vars = first.count()?;
    let second = cursor.next();
    let count = second.count()?;
    Ok(Header { vars, count })
}

fn read_file(alloc: Global, cursor: &mut Cursor<'_>) -> Result<LratFile, LratFault>
    ensures written { IfOk result (λ f. words cursor.old ≡ file_words f) }
    ensures within { IfOk result (λ f. is_file true f ≡ true) }
    ensures fault { IfErr result (λ e. IsStop at_problem cursor.old e) }
{
    let header = read_header(cursor)?;
    let clauses = read_clauses(alloc, cursor, header.vars, header.count)?;
    let lines = read_lines(alloc, cursor, header.vars)?;
    Ok(LratFile {
        vars: header.vars,
        clauses,
        lines,
    })
}

/// The formula and the derivation that a text of at most `MOST_TEXT` bytes writes.
///
/// Tokens stand between blanks (space, tab, newline, carriage return); lines whose first byte is `c` may stand before the header.
/// A file is `p cnf V C`, then C clauses, each a list of literals with a 0 behind, then lines. A line is an identifier, literals, 0, hints, 0; or
/// an identifier, `d`, identifiers, 0. V and C are at most `MOST_COUNT`, variables at most V, identifiers and hints at most `MOST_ID`.
///
/// A fault is the first in the order of the text: the first token with which the tokens so far begin no file, or with which they begin one, but none within the limits.
pub fn read_lrat(alloc: Global, text: &[u8]) -> Result<LratFile, LratFault>
    requires { length text.now ≤ MOST_TEXT }
    ensures file { IfOk result (λ f. IsFileOf text.now f) }
    ensures fault { IfErr result (λ e. IsFaultOf text.now e) }

    // Want of memory aside, a text that is a file is answered by it, and any other by its first fault.
    ensures only_file { (f : FileView) → IsFileOf text.now f → MatchResult result (λ r. r ≡ f) (λ e. e ≡ fault.NoMemory) }
    ensures only_bad { (at : ℕ) → IsBad text.now at → MatchResult result (λ r. ⊥) (λ e. (e ≡ fault.Bad at) ⊎ (e ≡ fault.NoMemory)) }
    ensures only_large { (at : ℕ) → IsTooLarge text.now at → MatchResult result (λ r. ⊥) (λ e. (e ≡ fault.TooLarge at) ⊎ (e ≡ fault.NoMemory)) }
{
    let mut cursor = Cursor::new(text);
    read_file(alloc, &mut cursor)
}
