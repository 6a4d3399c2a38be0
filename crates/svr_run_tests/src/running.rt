// A run of a text.

ghost use Rattle.std.specs.Prelude.{◌≡◌, ◌≤◌, ◌<◌, ◌^◌, length};
ghost use Rattle.std.specs.List.{All};
ghost use Rattle.svr_limits.specs.declared.limit.TheConstants.{TEXT_LIMIT};
ghost use Rattle.svr_token.specs.declared.Lexeme.{Lexeme as LexemeType};
ghost use Rattle.svr_token.specs.Tokens.{IsTokenOf};
ghost use Rattle.svr_tree.specs.ScriptTree.{script_tree};
ghost use Rattle.svr_typed.specs.StmtTerm.{design_term};
ghost use Rattle.svr_design.specs.Lawful.{IsLawful};
ghost use Rattle.svr_elab_fit_laws.specs.ReadScripts.{IsReadFrom};
ghost use Rattle.svr_run.specs.CanRun.{AreAllowed};

use crate::held::{joined, let_go};
use crate::reading::{Printed, read_back};
use std::alloc::Global;
use svr_edge::{MemSink, NullSink};
use svr_elaborate::elaborate;
use svr_lex::lex;
use svr_parse::parse;
use svr_phase::Options;
use svr_run::{End, run_script};
use svr_token::Token;
use svr_tree::Script;
use svr_typed::Design;

/// Whether a run came to its end, or to a call that met a limit.
fn has_ended(end: End) -> bool {
    match end {
        End::Ended(_) => true,
        End::Limit => true,
        End::Stopped(_) => false,
    }
}

fn run_design(alloc: Global, design: &Design, opts: Options, out: &mut MemSink) -> bool
    requires lawful { IsLawful (design_term design.now) }
    requires allowed { AreAllowed opts }
{
    let mut journal = NullSink::new();
    let end = run_script(alloc, design, opts, out, &mut journal);
    has_ended(end)
}

#[tactic(auto, using(crate::proofs::Runs::is_lawful))]
fn run_tree(
    alloc: Global,
    text: &[u8],
    tokens: &[Token],
    script: &Script,
    opts: Options,
    out: &mut MemSink,
) -> bool
    requires read { IsReadFrom text.now tokens.now (script_tree script.now) }
    requires allowed { AreAllowed opts }
{
    let made = elaborate(alloc, text, tokens, script);
    let ended = match &made {
        Ok(design) => run_design(alloc, design, opts, out),
        Err(_) => false,
    };
    let_go(made);
    ended
}

#[tactic(auto, using(crate::proofs::Read::read_from))]
fn run_tokens(
    alloc: Global,
    text: &[u8],
    tokens: &[Token],
    opts: Options,
    out: &mut MemSink,
) -> bool
    requires text { length text.now ≤ TEXT_LIMIT }
    requires spelled { All (λ t. (l : LexemeType) × IsTokenOf text.now t l) tokens.now }
    requires few { length tokens.now < 2 ^ 32 }
    requires allowed { AreAllowed opts }
{
    let parsed = parse(alloc, text, tokens);
    let ended = match &parsed {
        Ok(script) => run_tree(alloc, text, tokens, script, opts, out),
        Err(_) => false,
    };
    let_go(parsed);
    ended
}

/// Whether the script of a text is accepted and its run comes to an end; with what it prints.
fn run(alloc: Global, text: &[u8], opts: Options, out: &mut MemSink) -> bool
    requires allowed { AreAllowed opts }
{
    if text.len() > 1_000_000 {
        return false;
    }
    match lex(alloc, text) {
        Ok(tokens) => {
            let ended = run_tokens(alloc, text, &tokens, opts, out);
            let_go(tokens);
            ended
        }
        Err(_) => false,
    }
}

/// What the run of a text prints is added to a list; whether it comes to its end.
pub(crate) fn print(alloc: Global, text: &[u8], opts: Options, bytes: &mut Vec<u8>) -> bool
    requires allowed { AreAllowed opts }
{
    let mut sink = MemSink::new(alloc, 4_000_000, Vec::new(alloc));
    let ended = match &mut sink {
        Ok(out) => {
            let ended = run(alloc, text, opts, out);
            joined(bytes, out.bytes());
            ended
        }
        Err(_) => false,
    };
    let_go(sink);
    ended
}

/// What the run of a text prints, read back.
pub(crate) fn printed_of(alloc: Global, text: &[u8], opts: Options) -> Printed
    requires allowed { AreAllowed opts }
{
    let mut bytes = Vec::new(alloc);
    let ended = print(alloc, text, opts, &mut bytes);
    let printed = read_back(alloc, bytes.as_slice(), ended);
    let_go(bytes);
    printed
}

/// The options of a run whose sizes have the cap 16.
pub(crate) fn options(seed: u64, proofs: bool) -> Options
    ensures { AreAllowed result }
{
    Options {
        seed,
        budget: 100_000,
        size_cap: 16,
        proofs,
    }
}

/// The options of a run that prints its proofs and gives a question up after one step.
pub(crate) fn of_one_step() -> Options
    ensures { AreAllowed result }
{
    Options {
        seed: 1,
        budget: 1,
        size_cap: 16,
        proofs: true,
    }
}
