// What words ask for.
ghost use Rattle.std.specs.Prelude.{◌≡◌, ◌≤◌, ℕ, List, Some, true, false, codes, map, slice_get, IfOk, IfSome, IfNone, string_bytes};
ghost use Rattle.svr_phase.specs.declared.options.Options.{Options};
ghost use Rattle.svr_words.specs.declared.limits.TheConstants.{CLASS_LIMIT};
ghost use Rattle.svr_words.specs.declared.request.Run.{Run};
ghost use Rattle.svr_words.specs.Words.{IsCommand, IsLoad, IsCheck, IsSeq, IsCover, AskNothing};
ghost use Rattle.svr_words.specs.Taken.{AreInRange, Asks};

use crate::app::{check_command, cover_command, load_command, run_command, seq_command};
use crate::request::{Lines, Load, Request, Run};
use crate::take::{load_of, options, run_of, seq_of};
use clap::error::ErrorKind;
use std::alloc::{AllocError, Global};
use svr_phase::Options;

/// The run in words of which the first names the command, as `clap` takes them.
fn taken(alloc: Global, words: &[String]) -> Result<Option<Run>, AllocError>
    requires { slice_get (map (λ w. string_bytes w) words.now) 0 ≡ Some (codes "run") }
    ensures some { IfOk result (λ r. IfSome r (λ run. IsCommand (map (λ w. string_bytes w) words.now) run × AreInRange run.opts)) }
    ensures none { IfOk result (λ r. IfNone r ((run : Run) → IsCommand (map (λ w. string_bytes w) words.now) run → ⊥)) }
{
    let command = run_command(alloc)?;
    match command.try_get_matches_from(words) {
        Ok(matches) => Ok(Some(run_of(&matches))),
        Err(error) => {
            if error.kind() == ErrorKind::OutOfMemory {
                Err(AllocError)
            } else {
                Ok(None)
            }
        }
    }
}

/// The load in words of which the first names the command, as `clap` takes them.
fn load_taken(alloc: Global, words: &[String]) -> Result<Option<Load>, AllocError>
    requires { slice_get (map (λ w. string_bytes w) words.now) 0 ≡ Some (codes "load") }
    ensures some { IfOk result (λ r. IfSome r (λ load. IsLoad (map (λ w. string_bytes w) words.now) load.count load.opts × (load.count ≤ CLASS_LIMIT) × AreInRange load.opts)) }
    ensures none { IfOk result (λ r. IfNone r ((count : ℕ) (opts : Options) → IsLoad (map (λ w. string_bytes w) words.now) count opts → ⊥)) }
{
    let command = load_command(alloc)?;
    match command.try_get_matches_from(words) {
        Ok(matches) => Ok(Some(load_of(&matches))),
        Err(error) => {
            if error.kind() == ErrorKind::OutOfMemory {
                Err(AllocError)
            } else {
                Ok(None)
            }
        }
    }
}

#[tactic(auto, using(crate::proofs::Taking::nothing_for_run))]
fn run_asked(alloc: Global, words: &[String]) -> Result<Option<Request>, AllocError>
    requires { slice_get (map (λ w. string_bytes w) words.now) 0 ≡ Some (codes "run") }
    ensures some { IfOk result (λ r. IfSome r (Asks (map (λ w. string_bytes w) words.now))) }
    ensures none { IfOk result (λ r. IfNone r (AskNothing (map (λ w. string_bytes w) words.now))) }
{
    match taken(alloc, words)? {
        Some(run) => Ok(Some(Request::Run(run))),
        None => Ok(None),
    }
}

#[tactic(auto, using(crate::proofs::Taking::nothing_for_load))]
fn load_asked(alloc: Global, words: &[String]) -> Result<Option<Request>, AllocError>
    requires { slice_get (map (λ w. string_bytes w) words.now) 0 ≡ Some (codes "load") }
    ensures some { IfOk result (λ r. IfSome r (Asks (map (λ w. string_bytes w) words.now))) }
    ensures none { IfOk result (λ r. IfNone r (AskNothing (map (λ w. string_bytes w) words.now))) }
{
    match load_taken(alloc, words)? {
        Some(load) => Ok(Some(Request::Load(load))),
        None => Ok(None),
    }
}

/// Whether `clap` takes words of which the first names the command.
fn check_taken(alloc: Global, words: &[String]) -> Result<bool, AllocError>
    requires { slice_get (map (λ w. string_bytes w) words.now) 0 ≡ Some (codes "check") }
    ensures taken { IfOk result (λ b. b ≡ true → IsCheck (map (λ w. string_bytes w) words.now)) }
    ensures other { IfOk result (λ b. b ≡ false → IsCheck (map (λ w. string_bytes w) words.now) → ⊥) }
{
    let command = check_command(alloc);
    match command.try_get_matches_from(words) {
        Ok(_) => Ok(true),
        Err(error) => {
            if error.kind() == ErrorKind::OutOfMemory {
                Err(AllocError)
            } else {
                Ok(false)
            }
        }
    }
}

#[tactic(auto, using(crate::proofs::Taking::nothing_for_check))]
fn check_asked(alloc: Global, words: &[String]) -> Result<Option<Request>, AllocError>
    requires { slice_get (map (λ w. string_bytes w) words.now) 0 ≡ Some (codes "check") }
    ensures some { IfOk result (λ r. IfSome r (Asks (map (λ w. string_bytes w) words.now))) }
    ensures none { IfOk result (λ r. IfNone r (AskNothing (map (λ w. string_bytes w) words.now))) }
{
    if check_taken(alloc, words)? {
        Ok(Some(Request::Check))
    } else {
        Ok(None)
    }
}

/// The lines in words of which the first names the command, as `clap` takes them.
fn seq_taken(alloc: Global, words: &[String]) -> Result<Option<Lines>, AllocError>
    requires { slice_get (map (λ w. string_bytes w) words.now) 0 ≡ Some (codes "seq") }
    ensures some { IfOk result (λ r. IfSome r (λ lines. IsSeq (map (λ w. string_bytes w) words.now) lines.seed lines.count)) }
    ensures none { IfOk result (λ r. IfNone r ((seed count : ℕ) → IsSeq (map (λ w. string_bytes w) words.now) seed count → ⊥)) }
{
    let command = seq_command(alloc)?;
    match command.try_get_matches_from(words) {
        Ok(matches) => Ok(Some(seq_of(&matches))),
        Err(error) => {
            if error.kind() == ErrorKind::OutOfMemory {
                Err(AllocError)
            } else {
                Ok(None)
            }
        }
    }
}

#[tactic(auto, using(crate::proofs::Taking::nothing_for_seq))]
fn seq_asked(alloc: Global, words: &[String]) -> Result<Option<Request>, AllocError>
    requires { slice_get (map (λ w. string_bytes w) words.now) 0 ≡ Some (codes "seq") }
    ensures some { IfOk result (λ r. IfSome r (Asks (map (λ w. string_bytes w) words.now))) }
    ensures none { IfOk result (λ r. IfNone r (AskNothing (map (λ w. string_bytes w) words.now))) }
{
    match seq_taken(alloc, words)? {
        Some(lines) => Ok(Some(Request::Seq(lines))),
        None => Ok(None),
    }
}

/// The options of a run for coverage in words of which the first names the command, as `clap` takes them.
fn cover_taken(alloc: Global, words: &[String]) -> Result<Option<Options>, AllocError>
    requires { slice_get (map (λ w. string_bytes w) words.now) 0 ≡ Some (codes "cover") }
    ensures some { IfOk result (λ r. IfSome r (λ opts. IsCover (map (λ w. string_bytes w) words.now) opts × AreInRange opts)) }
    ensures none { IfOk result (λ r. IfNone r ((opts : Options) → IsCover (map (λ w. string_bytes w) words.now) opts → ⊥)) }
{
    let command = cover_command(alloc)?;
    match command.try_get_matches_from(words) {
        Ok(matches) => Ok(Some(options(&matches))),
        Err(error) => {
            if error.kind() == ErrorKind::OutOfMemory {
                Err(AllocError)
            } else {
                Ok(None)
            }
        }
    }
}

#[tactic(auto, using(crate::proofs::Taking::nothing_for_cover))]
fn cover_asked(alloc: Global, words: &[String]) -> Result<Option<Request>, AllocError>
    requires { slice_get (map (λ w. string_bytes w) words.now) 0 ≡ Some (codes "cover") }
    ensures some { IfOk result (λ r. IfSome r (Asks (map (λ w. string_bytes w) words.now))) }
    ensures none { IfOk result (λ r. IfNone r (AskNothing (map (λ w. string_bytes w) words.now))) }
{
    match cover_taken(alloc, words)? {
        Some(opts) => Ok(Some(Request::Cover(opts))),
        None => Ok(None),
    }
}

/// What the words ask for. None where no command is theirs.
pub fn command(alloc: Global, words: &[String]) -> Result<Option<Request>, AllocError>
    ensures some { IfOk result (λ r. IfSome r (Asks (map (λ w. string_bytes w) words.now))) }
    ensures none { IfOk result (λ r. IfNone r (AskNothing (map (λ w. string_bytes w) words.now))) }
{
    match words {
        [name, ..] => {
            if name.as_str() == "run" {
                run_asked(alloc, words)
            } else if name.as_str() == "load" {
                load_asked(alloc, words)
            } else if name.as_str() == "check" {
                check_asked(alloc, words)
            } else if name.as_str() == "seq" {
                seq_asked(alloc, words)
            } else if name.as_str() == "cover" {
                cover_asked(alloc, words)
            } else {
                Ok(None)
            }
        }
        [] => Ok(None),
    }
}
