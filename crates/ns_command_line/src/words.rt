//! The words that the program is started with.

mod alone;
mod pipe;
mod serve;
mod value;

ghost use Rattle.std.specs.Prelude.{◌≡◌, ◌≢◌, ◌⊎◌, ℕ, List, IfOk, IfErr};
ghost use Rattle.clap.specs.Words.{HasKind, app_of, fault_of, kind_of, subcommand_of, subcommand_rows_of};
ghost use Rattle.clap.specs.Walk.{texts};
ghost use Rattle.ns_api.specs.declared.following.Driven.{Driven};
ghost use Rattle.ns_pipe.specs.Asking.{IsHelp, IsMistake};
ghost use Rattle.ns_pipe.specs.declared.asked.WordsRead.{WordsRead};
ghost use Rattle.ns_pipe.specs.declared.printed.Printed.{Printed};
ghost use Rattle.ns_pipe.specs.declared.replay.replay.Replay.{Replay};
ghost use Rattle.ns_listener.specs.declared.service.Service.{Service};
ghost use Rattle.ns_command_line.specs.declared.wanted.Invocation.{Invocation};
ghost use Rattle.ns_command_line.specs.Words.{AreBad, AreTaken, AskHelp, Asks, AsksAlone, AsksServe, IsRefusal, IsWanted, IsWish, program_words};

use crate::command::command;
use crate::wanted::Invocation;
use crate::words::alone::alone_given;
use crate::words::pipe::pipe_given;
use crate::words::serve::serve_given;
use crate::words::value::given;
use clap::error::ErrorKind;
use clap::{ArgMatches, Command, Error};
use ns_pipe::WordsRead;
use std::alloc::Global;

/// What the named subcommand has to do, or the fault in its arguments.
fn wanted(alloc: Global, command: &mut Command, matches: &ArgMatches) -> Result<Invocation, Error>
    ensures gives { IfOk result (IsWanted (subcommand_rows_of matches.now)) }
    ensures good { (wanted : Invocation) → IsWanted (subcommand_rows_of matches.now) wanted
        → IfOk result (λ w. w ≡ wanted)
        × IfErr result (λ error. kind_of error ≡ ErrorKind.OutOfMemory) }
    ensures bad { IfErr result IsRefusal }
{
    if let Some(namespace) = given(matches, "alone", "namespace") {
        let replay = alone_given(alloc, command, matches, namespace)?;
        return Ok(Invocation::Run(WordsRead::Alone(replay)));
    }
    if let Some(address) = given(matches, "serve", "listen") {
        return Ok(Invocation::Serve(serve_given(alloc, command, matches, address)?));
    }
    let (secret, driven, printed) = pipe_given(alloc, command, matches)?;
    Ok(Invocation::Run(WordsRead::Pipe(secret, driven, printed)))
}

/// What the words ask for of the program with this command, or the fault in them.
fn asked_of<'a>(
    alloc: Global,
    command: &mut Command<'a>,
    words: &'a [&str],
) -> Result<Invocation, Error>
    requires program { app_of command.old ≡ program_words }
    ensures taken { IfOk result (λ _. AreTaken (texts words.entry.now)) }
    ensures gives { IfOk result (IsWanted (subcommand_of program_words (texts words.entry.now))) }
    ensures good { (wanted : Invocation) → AreTaken (texts words.entry.now)
        → IsWanted (subcommand_of program_words (texts words.entry.now)) wanted
        → IfOk result (λ w. w ≡ wanted)
        × IfErr result (λ error. kind_of error ≡ ErrorKind.OutOfMemory) }
    ensures bad { AreTaken (texts words.entry.now) → IfErr result IsRefusal }
    ensures faulty { (AreTaken (texts words.entry.now) → ⊥)
        → IfErr result (HasKind (fault_of program_words (texts words.entry.now))) }
{
    let matches = command.try_get_matches_from_mut(words)?;
    let wanted = wanted(alloc, command, &matches);
    drop(matches);
    wanted
}

/// What the words ask to be done, or the fault in them. The first word is the program's own name.
fn asked(alloc: Global, words: &[&str]) -> Result<Invocation, Error>
    ensures taken { IfOk result (λ _. AreTaken (texts words.entry.now)) }
    ensures gives { IfOk result (IsWanted (subcommand_of program_words (texts words.entry.now))) }
    ensures good { (wanted : Invocation) → AreTaken (texts words.entry.now)
        → IsWanted (subcommand_of program_words (texts words.entry.now)) wanted
        → IfOk result (λ w. w ≡ wanted)
        × IfErr result (λ error. kind_of error ≡ ErrorKind.OutOfMemory) }
    ensures bad { AreTaken (texts words.entry.now) → IfErr result IsRefusal }
    ensures faulty { (AreTaken (texts words.entry.now) → ⊥)
        → IfErr result (HasKind (fault_of program_words (texts words.entry.now))) }
{
    let mut command = command(alloc)?;
    let asked = asked_of(alloc, &mut command, words);
    drop(command);
    asked
}

/// What is written for words that are not carried out: help if they ask for it, or else what is
/// wrong with them.
fn help_or_mistake(alloc: Global, error: &Error) -> WordsRead
    ensures no_pipe { (secret : List ℕ) (driven : Driven) (printed : Printed)
        → result ≢ WordsRead.Pipe secret driven printed }
    ensures no_alone { (replay : Replay) → result ≢ WordsRead.Alone replay }
    ensures memory { kind_of error.now ≡ ErrorKind.OutOfMemory → result ≡ WordsRead.NoMemory }
    ensures help { IsWish (kind_of error.now)
        → ((text : List ℕ) × IsHelp result text) ⊎ (result ≡ WordsRead.NoMemory) }
    ensures mistake { (IsWish (kind_of error.now) → ⊥)
        → ((text : List ℕ) × IsMistake result text) ⊎ (result ≡ WordsRead.NoMemory) }
{
    if error.kind() == ErrorKind::OutOfMemory {
        return WordsRead::NoMemory;
    }
    let Ok(text) = format!(in alloc; "{error}") else {
        return WordsRead::NoMemory;
    };
    if error.use_stderr() {
        WordsRead::Mistake(text)
    } else {
        WordsRead::Help(text)
    }
}

/// What the words ask for. The first word is the program's own name.
pub fn read(alloc: Global, words: &[&str]) -> Invocation
    ensures gives { (secret : List ℕ) (driven : Driven) (printed : Printed)
        → result ≡ Invocation.Run (WordsRead.Pipe secret driven printed)
        → Asks (texts words.entry.now) secret driven printed }
    ensures good { (secret : List ℕ) (driven : Driven) (printed : Printed)
        → Asks (texts words.entry.now) secret driven printed
        → (result ≡ Invocation.Run (WordsRead.Pipe secret driven printed))
        ⊎ (result ≡ Invocation.Run WordsRead.NoMemory) }
    ensures gives_alone { (replay : Replay) → result ≡ Invocation.Run (WordsRead.Alone replay)
        → AsksAlone (texts words.entry.now) replay }
    ensures good_alone { (replay : Replay) → AsksAlone (texts words.entry.now) replay
        → (result ≡ Invocation.Run (WordsRead.Alone replay)) ⊎ (result ≡ Invocation.Run WordsRead.NoMemory) }
    ensures gives_serve { (service : Service) → result ≡ Invocation.Serve service
        → AsksServe (texts words.entry.now) service }
    ensures good_serve { (service : Service) → AsksServe (texts words.entry.now) service
        → (result ≡ Invocation.Serve service) ⊎ (result ≡ Invocation.Run WordsRead.NoMemory) }
    ensures bad { AreBad (texts words.entry.now) → (asked : WordsRead)
        × (result ≡ Invocation.Run asked)
        × (((text : List ℕ) × IsMistake asked text) ⊎ (asked ≡ WordsRead.NoMemory)) }
    ensures help { AskHelp (texts words.entry.now) → (asked : WordsRead)
        × (result ≡ Invocation.Run asked)
        × (((text : List ℕ) × IsHelp asked text) ⊎ (asked ≡ WordsRead.NoMemory)) }
{
    match asked(alloc, words) {
        Ok(wanted) => wanted,
        Err(error) => Invocation::Run(help_or_mistake(alloc, &error)),
    }
}
