// The run of a text, or its refusal.

ghost use Rattle.std.specs.Prelude.{◌≡◌, ◌≤◌, ◌<◌, ◌^◌, length};
ghost use Rattle.std.specs.List.{All};
ghost use Rattle.svr_limits.specs.declared.limit.TheConstants.{TEXT_LIMIT};
ghost use Rattle.svr_token.specs.declared.Lexeme.{Lexeme as LexemeType};
ghost use Rattle.svr_token.specs.Tokens.{IsTokenOf};
ghost use Rattle.svr_tree.specs.ScriptTree.{script_tree};
ghost use Rattle.svr_typed.specs.StmtTerm.{design_term};
ghost use Rattle.svr_design.specs.Lawful.{IsLawful};
ghost use Rattle.svr_elab_fit_laws.specs.ReadScripts.{IsReadFrom};
ghost use Rattle.svr_run.specs.CanRun.{AreAllowed};

use crate::held::{joined, let_go};
use std::alloc::Global;
use svr_edge::{MemSink, NullSink};
use svr_elab_fault::ElabFault;
use svr_elaborate::elaborate;
use svr_lex::{LexFault, lex};
use svr_parse::{ParseFault, parse};
use svr_phase::Options;
use svr_refusal::Refusal;
use svr_run::{End, run_script};
use svr_token::Token;
use svr_tree::Script;
use svr_typed::Design;

/// What a text comes to: a run to its end or to a limit, a refusal of this number, or neither: memory was wanting, or a sink failed.
#[derive(Clone, Copy, PartialEq, Eq)]
pub(crate) enum Outcome {
    Ended,
    Refused(u8),
    Stopped,
}

fn outcome_of(end: End) -> Outcome {
    match end {
        End::Ended(_) => Outcome::Ended,
        End::Limit => Outcome::Ended,
        End::Stopped(_) => Outcome::Stopped,
    }
}

fn lexical(fault: LexFault) -> Outcome {
    match fault {
        LexFault::BadByte { .. } => Outcome::Refused(Refusal::BadByte.number()),
        LexFault::OpenComment { .. } => Outcome::Refused(Refusal::OpenComment.number()),
        LexFault::BadLiteral { .. } => Outcome::Refused(Refusal::BadLiteral.number()),
        LexFault::LiteralTooWide { .. } => Outcome::Refused(Refusal::LiteralTooWide.number()),
        LexFault::NoMemory => Outcome::Stopped,
    }
}

fn syntactic(fault: ParseFault) -> Outcome {
    match fault {
        ParseFault::Unexpected { .. } => Outcome::Refused(Refusal::Unexpected.number()),
        ParseFault::TooDeep { .. } => Outcome::Refused(Refusal::TooDeep.number()),
        ParseFault::NoMemory => Outcome::Stopped,
    }
}

fn run_design(alloc: Global, design: Design, opts: Options, out: &mut MemSink) -> Outcome
    requires lawful { IsLawful (design_term design) }
    requires allowed { AreAllowed opts }
{
    let mut journal = NullSink::new();
    let end = run_script(alloc, &design, opts, out, &mut journal);
    let_go(design);
    outcome_of(end)
}

#[tactic(auto, using(crate::proofs::Runs::is_lawful))]
fn run_tree(
    alloc: Global,
    text: &[u8],
    tokens: &[Token],
    script: &Script,
    opts: Options,
    out: &mut MemSink,
) -> Outcome
    requires read { IsReadFrom text.now tokens.now (script_tree script.now) }
    requires allowed { AreAllowed opts }
{
    match elaborate(alloc, text, tokens, script) {
        Ok(design) => run_design(alloc, design, opts, out),
        Err(ElabFault::Refused { number, .. }) => Outcome::Refused(number),
        Err(ElabFault::NoMemory) => Outcome::Stopped,
    }
}

#[tactic(auto, using(crate::proofs::Read::read_from))]
fn run_tokens(
    alloc: Global,
    text: &[u8],
    tokens: &[Token],
    opts: Options,
    out: &mut MemSink,
) -> Outcome
    requires text { length text.now ≤ TEXT_LIMIT }
    requires spelled { All (λ t. (l : LexemeType) × IsTokenOf text.now t l) tokens.now }
    requires few { length tokens.now < 2 ^ 32 }
    requires allowed { AreAllowed opts }
{
    let parsed = parse(alloc, text, tokens);
    let outcome = match &parsed {
        Ok(script) => run_tree(alloc, text, tokens, script, opts, out),
        Err(fault) => syntactic(*fault),
    };
    let_go(parsed);
    outcome
}

/// What a text of at most a million bytes comes to; with what it prints.
pub(crate) fn run(alloc: Global, text: &[u8], opts: Options, out: &mut MemSink) -> Outcome
    requires allowed { AreAllowed opts }
{
    if text.len() > 1_000_000 {
        return Outcome::Stopped;
    }
    match lex(alloc, text) {
        Ok(tokens) => run_tokens(alloc, text, &tokens, opts, out),
        Err(fault) => lexical(fault),
    }
}

/// The options of a run where nothing but the seed is asked.
pub(crate) fn options(seed: u64) -> Options
    ensures { AreAllowed result }
{
    Options {
        seed,
        budget: 131_072,
        size_cap: 256,
        proofs: false,
    }
}

/// Lines as one text, with a newline behind each.
pub(crate) fn text_of(alloc: Global, lines: &[&[u8]]) -> Vec<u8> {
    let mut text = Vec::new(alloc);
    for line in lines {
        joined(&mut text, line);
        joined(&mut text, b"\n");
    }
    text
}

/// What the script of these lines prints; nothing where its run does not come to an end.
pub(crate) fn printed(alloc: Global, lines: &[&[u8]], seed: u64) -> Vec<u8> {
    let text = text_of(alloc, lines);
    let mut said = Vec::new(alloc);
    if let Ok(sink) = MemSink::new(alloc, 100_000, Vec::new(alloc)) {
        let mut out = sink;
        if run(alloc, &text, options(seed), &mut out) == Outcome::Ended {
            joined(&mut said, out.bytes());
        }
    }
    said
}
