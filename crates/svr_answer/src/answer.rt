// The answer to a text that was read.
ghost use Rattle.std.specs.Prelude.{◌≤◌, ℕ, List, length};
ghost use Rattle.svr_limits.specs.declared.limit.TheConstants.{TEXT_LIMIT};
ghost use Rattle.svr_typed.specs.StmtTerm.{design_term};
ghost use Rattle.svr_design.specs.Lawful.{IsLawful};
ghost use Rattle.svr_words.specs.Taken.{AreInRange};
ghost use Rattle.svr_refused.specs.Texts.{HasDesign};
ghost use Rattle.svr_answer.specs.Parts.{Answered};

use crate::count::status_of;
use std::alloc::{AllocError, Global};
use svr_edge::Sink;
use svr_refused::{Reading, read};
use svr_run::{End, Extra, Stop, run_script_extra};
use svr_status::{Status, finish};
use svr_typed::Design;
use svr_words::Run;

/// The run of a design.
fn run_of<K: Sink, J: Sink>(
    alloc: Global,
    asked: Run,
    design: &Design,
    out: &mut K,
    journal: &mut J,
) -> Status
    requires lawful { IsLawful (design_term design.now) }
    requires ranges { AreInRange asked.opts }
    ensures { (text : List ℕ) → length text ≤ TEXT_LIMIT → HasDesign text (design_term design.now) → Answered asked text result
        (record { out = K.written out.old; journal = J.written journal.old; out_faults = K.faults out.old; journal_faults = J.faults journal.old })
        (record { out = K.written out.new; journal = J.written journal.new; out_faults = K.faults out.new; journal_faults = J.faults journal.new }) }
{
    let extra = Extra {
        conflicts: asked.conflicts,
        lrat: asked.lrat,
    };
    match run_script_extra(alloc, design, asked.opts, extra, out, journal) {
        End::Ended(counts) => status_of(counts),
        End::Limit => Status::Limited,
        End::Stopped(Stop::NoMemory) => Status::NoMemory,
        End::Stopped(Stop::WriteFault) => Status::WriteFault,
    }
}

/// The answer to a text of at most 4,194,304 bytes: what the calls of its script tell, or its refusal.
pub fn answer<K: Sink, J: Sink>(
    alloc: Global,
    asked: Run,
    text: &[u8],
    out: &mut K,
    journal: &mut J,
) -> Status
    requires small { length text.now ≤ TEXT_LIMIT }
    requires ranges { AreInRange asked.opts }
    ensures { Answered asked text.now result
        (record { out = K.written out.old; journal = J.written journal.old; out_faults = K.faults out.old; journal_faults = J.faults journal.old })
        (record { out = K.written out.new; journal = J.written journal.new; out_faults = K.faults out.new; journal_faults = J.faults journal.new }) }
{
    match read(alloc, text) {
        Ok(Reading::Accepted(design)) => {
            let status = run_of(alloc, asked, &design, out, journal);
            drop(design);
            status
        }
        Ok(Reading::Refused(line)) => finish(out, &line, Status::Refused),
        Err(AllocError) => Status::NoMemory,
    }
}
