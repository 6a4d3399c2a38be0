// A load: the run of a script that is made from a number.
ghost use Rattle.std.specs.Prelude.{◌≤◌};
ghost use Rattle.svr_load.specs.Script.{load_text};
ghost use Rattle.svr_typed.specs.StmtTerm.{design_term};
ghost use Rattle.svr_design.specs.Lawful.{IsLawful};
ghost use Rattle.svr_words.specs.declared.limits.TheConstants.{CLASS_LIMIT};
ghost use Rattle.svr_words.specs.Taken.{AreInRange};
ghost use Rattle.svr_refused.specs.Texts.{HasDesign};
ghost use Rattle.svr_answer.specs.Parts.{LoadAnswered, Told};

use crate::count::status_of;
use crate::line::load_line;
use std::alloc::{AllocError, Global};
use svr_edge::{NullSink, Sink};
use svr_load::{NoMemory, load_text as script};
use svr_refused::{Reading, read};
use svr_run::{Counts, End, Stop, run_script};
use svr_status::{Status, finish};
use svr_typed::Design;
use svr_words::Load;

/// What the calls of a load answered, in one line.
fn tell<K: Sink>(alloc: Global, count: u32, counts: Counts, out: &mut K) -> Status
    ensures { Told count counts result (K.written out.old) (K.faults out.old) (K.written out.new) (K.faults out.new) }
{
    match load_line(alloc, count, counts) {
        Ok(line) => finish(out, &line, status_of(counts)),
        Err(AllocError) => Status::NoMemory,
    }
}

/// The run of the design of a load. Its lines go nowhere.
fn load_design<K: Sink, J: Sink>(
    alloc: Global,
    asked: Load,
    design: &Design,
    out: &mut K,
    journal: &mut J,
) -> Status
    requires lawful { IsLawful (design_term design.now) }
    requires ranges { AreInRange asked.opts }
    ensures { HasDesign (load_text asked.count) (design_term design.now) → LoadAnswered asked.count asked.opts result
        (record { out = K.written out.old; journal = J.written journal.old; out_faults = K.faults out.old; journal_faults = J.faults journal.old })
        (record { out = K.written out.new; journal = J.written journal.new; out_faults = K.faults out.new; journal_faults = J.faults journal.new }) }
{
    match run_script(alloc, design, asked.opts, &mut NullSink::new(), journal) {
        End::Ended(counts) => tell(alloc, asked.count, counts, out),
        End::Limit => Status::Limited,
        End::Stopped(Stop::NoMemory) => Status::NoMemory,
        End::Stopped(Stop::WriteFault) => Status::WriteFault,
    }
}

/// The run of the script of a load, whose calls are counted and not printed.
pub fn load<K: Sink, J: Sink>(alloc: Global, asked: Load, out: &mut K, journal: &mut J) -> Status
    requires small { asked.count ≤ CLASS_LIMIT }
    requires ranges { AreInRange asked.opts }
    ensures { LoadAnswered asked.count asked.opts result
        (record { out = K.written out.old; journal = J.written journal.old; out_faults = K.faults out.old; journal_faults = J.faults journal.old })
        (record { out = K.written out.new; journal = J.written journal.new; out_faults = K.faults out.new; journal_faults = J.faults journal.new }) }
{
    let text = match script(alloc, asked.count) {
        Ok(text) => text,
        Err(NoMemory) => return Status::NoMemory,
    };
    match read(alloc, &text) {
        Ok(Reading::Accepted(design)) => {
            let status = load_design(alloc, asked, &design, out, journal);
            drop(design);
            status
        }
        Ok(Reading::Refused(line)) => finish(out, &line, Status::Refused),
        Err(AllocError) => Status::NoMemory,
    }
}
