// The commands as `clap` is told them.
ghost use Rattle.std.specs.Prelude.{◌≡◌, false, codes, IfOk};
ghost use Rattle.clap.specs.Walk.{rule_of};
ghost use Rattle.clap.specs.Simple.{app_of};
ghost use Rattle.svr_words.specs.Words as spec;

use crate::limits::{CLASS_LIMIT, LINE_LIMIT};
use clap::builder::ValueParser;
use clap::{Arg, ArgAction, Command};
use std::alloc::{AllocError, Global};
use svr_limits::{BUDGET_LIMIT, ELEMENT_LIMIT};

/// An option that takes one value.
fn option<'a>(alloc: Global, name: &'a str, parser: ValueParser<'a>) -> Arg<'a>
    ensures rule { rule_of result ≡ spec.option name.entry.now parser.entry }
    ensures local { result.global ≡ false }
{
    Arg::new(alloc, name)
        .long(name)
        .action(ArgAction::Set)
        .value_parser(parser)
}

fn flag<'a>(alloc: Global, name: &'a str) -> Arg<'a>
    ensures rule { rule_of result ≡ spec.flag name.entry.now }
    ensures local { result.global ≡ false }
{
    Arg::new(alloc, name)
        .long(name)
        .action(ArgAction::SetTrue)
        .value_parser(ValueParser::bool())
}

/// A command without options, and without help.
fn plain<'a>(alloc: Global, name: &'a str) -> Command<'a>
    ensures { app_of result ≡ spec.plain_command name.entry.now }
{
    Command::new(alloc, name).disable_help_flag(true)
}

/// A command with the options of a run.
fn with_options<'a>(alloc: Global, name: &'a str) -> Result<Command<'a>, AllocError>
    ensures { IfOk result (λ c. app_of c ≡ spec.with_options name.entry.now) }
{
    plain(alloc, name)
        .arg(option(alloc, "seed", ValueParser::unsigned(0, u64::MAX)))?
        .arg(option(alloc, "budget", ValueParser::unsigned(1, BUDGET_LIMIT)))?
        .arg(option(
            alloc,
            "size-cap",
            ValueParser::unsigned(1, ELEMENT_LIMIT as u64),
        ))?
        .arg(flag(alloc, "proofs"))
}

/// `run` with its options, and with the two flags that it alone has.
pub fn run_command<'a>(alloc: Global) -> Result<Command<'a>, AllocError>
    ensures { IfOk result (λ c. app_of c ≡ spec.run_command) }
{
    with_options(alloc, "run")?
        .arg(flag(alloc, "conflicts"))?
        .arg(flag(alloc, "lrat"))
}

/// `cover`, with the options of a run.
pub fn cover_command<'a>(alloc: Global) -> Result<Command<'a>, AllocError>
    ensures { IfOk result (λ c. app_of c ≡ spec.cover_command) }
{
    with_options(alloc, "cover")
}

/// How many classes the script of a load has.
fn class_count<'a>(alloc: Global) -> Arg<'a>
    ensures rule { rule_of result ≡ spec.class_count }
    ensures local { result.global ≡ false }
{
    Arg::new(alloc, "N")
        .action(ArgAction::Set)
        .value_parser(ValueParser::unsigned(1, CLASS_LIMIT))
        .required(true)
}

/// `load` with the options of a run and the number of classes.
pub fn load_command<'a>(alloc: Global) -> Result<Command<'a>, AllocError>
    ensures { IfOk result (λ c. app_of c ≡ spec.load_command) }
{
    let command = with_options(alloc, "load")?;
    command.arg(class_count(alloc))
}

/// `check`, which has no options.
pub fn check_command<'a>(alloc: Global) -> Command<'a>
    ensures { app_of result ≡ spec.check_command }
{
    plain(alloc, "check")
}

/// `seq`, with the seed and the number of lines.
pub fn seq_command<'a>(alloc: Global) -> Result<Command<'a>, AllocError>
    ensures { IfOk result (λ c. app_of c ≡ spec.seq_command) }
{
    plain(alloc, "seq")
        .arg(option(alloc, "seed", ValueParser::unsigned(0, u64::MAX)))?
        .arg(option(alloc, "count", ValueParser::unsigned(1, LINE_LIMIT)))
}
