// What `clap` took for the options of a command.
ghost use Rattle.std.specs.Prelude.{◌≡◌, ◌≤◌, ◌<◌, ◌^◌, ℕ, codes};
ghost use Rattle.clap.specs.Matches.{found_of};
ghost use Rattle.clap.specs.Walk.{one_of, rows_of};
ghost use Rattle.svr_words.specs.declared.limits.TheConstants.{CLASS_LIMIT};
ghost use Rattle.svr_words.specs.Words.{number_or, is_set, options_of, run_of};
ghost use Rattle.svr_words.specs.Taken.{IsNumber, IsTruth, AreTaken, AreInRange, RunIsTaken, LoadIsTaken, SeqIsTaken};

use crate::request::{Lines, Load, Run};
use clap::ArgMatches;
use svr_phase::Options;

/// The number of an option, where it was used.
fn number(matches: &ArgMatches<'_>, name: &str, default: u64) -> u64
    requires { (low : ℕ) × (high : ℕ) × IsNumber (found_of matches.now) name.now low high }
    ensures { result ≡ number_or default (one_of name.now (rows_of (found_of matches.now))) }
{
    matches.get_one::<u64>(name).unwrap_or(default)
}

/// Whether a flag was used.
fn is_set(matches: &ArgMatches<'_>, name: &str) -> bool
    requires { IsTruth (found_of matches.now) name.now }
    ensures { result ≡ is_set (one_of name.now (rows_of (found_of matches.now))) }
{
    matches.get_flag(name)
}

/// The options of a run.
pub fn options(matches: &ArgMatches<'_>) -> Options
    requires { AreTaken (found_of matches.now) }
    ensures options { result ≡ options_of (rows_of (found_of matches.now)) }
    ensures ranges { AreInRange result }
{
    let seed = number(matches, "seed", 0);
    let budget = number(matches, "budget", 131_072);
    let size_cap = number(matches, "size-cap", 256);
    Options {
        seed,
        budget,
        size_cap: size_cap as u32,
        proofs: is_set(matches, "proofs"),
    }
}

/// The options of a run, and the flags that were used.
pub fn run_of(matches: &ArgMatches<'_>) -> Run
    requires { RunIsTaken (found_of matches.now) }
    ensures run { result ≡ run_of (rows_of (found_of matches.now)) }
    ensures ranges { AreInRange result.opts }
{
    let opts = options(matches);
    let conflicts = is_set(matches, "conflicts");
    let lrat = is_set(matches, "lrat");
    Run {
        opts,
        conflicts,
        lrat,
    }
}

/// The number of classes of a load, and its options.
pub fn load_of(matches: &ArgMatches<'_>) -> Load
    requires { LoadIsTaken (found_of matches.now) }
    ensures count { result.count ≡ number_or 0 (one_of (codes "N") (rows_of (found_of matches.now))) }
    ensures options { result.opts ≡ options_of (rows_of (found_of matches.now)) }
    ensures small { result.count ≤ CLASS_LIMIT }
    ensures ranges { AreInRange result.opts }
{
    let count = number(matches, "N", 0);
    Load {
        count: count as u32,
        opts: options(matches),
    }
}

/// The seed of lines, and how many there are to be.
pub fn seq_of(matches: &ArgMatches<'_>) -> Lines
    requires { SeqIsTaken (found_of matches.now) }
    ensures seed { result.seed ≡ number_or 0 (one_of (codes "seed") (rows_of (found_of matches.now))) }
    ensures count { result.count ≡ number_or 1 (one_of (codes "count") (rows_of (found_of matches.now))) }
{
    let count = number(matches, "count", 1);
    Lines {
        seed: number(matches, "seed", 0),
        count: count as u32,
    }
}
