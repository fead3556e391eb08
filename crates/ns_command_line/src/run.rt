//! A run of the program over any reader and writer.

ghost use Rattle.std.specs.Prelude.{◌≡◌, ◌⊎◌, ℕ, List};
ghost use Rattle.clap.specs.Walk.{texts};
ghost use Rattle.ns_api.specs.declared.following.Driven.{Driven};
ghost use Rattle.ns_pipe.specs.declared.printed.Printed.{Printed};
ghost use Rattle.ns_faults.specs.Lines.{TriesToWrite, line_of, status_of};
ghost use Rattle.ns_pipe.specs.declared.replay.replay.Replay.{Replay};
ghost use Rattle.ns_listener.specs.declared.service.Service.{Service};
ghost use Rattle.ns_command_line.specs.declared.outcome.RunEnd.{RunEnd};
ghost use Rattle.ns_command_line.specs.Outcome.{IfEnded, IsEnded, MatchOutcome};
ghost use Rattle.ns_command_line.specs.Running.{DoesAsked, EndsHelped, EndsPiped, EndsRefused, EndsReplayed, EndsUnserved, IsHandedOn, OrUnserved};
ghost use Rattle.ns_command_line.specs.Words.{AreBad, AskHelp, Asks, AsksAlone, AsksServe};

use crate::outcome::RunEnd;
use crate::wanted::Invocation;
use crate::words::read;
use ns_endpoints::Draws;
use ns_faults::status::SERVED;
use ns_http::{ConnFault, Counted};
use ns_pipe::run;
use std::alloc::Global;
use std::io::{Read, Write};

/// Runs the program with these words, of which the first is its own name. It serves a connection with the secret that they
/// give, or makes the replay that they ask for. If they ask for help or are bad, it writes the help or the mistake, and reads
/// no input. If they ask for a server over TCP, it returns the settings, and the caller runs the server.
pub fn run_words<D: Draws + Drop, R: Read + Drop, W: Write + Drop, E: Write>(
    alloc: Global,
    words: &[&str],
    draws: D,
    reader: R,
    writer: W,
    errors: &mut Counted<E>,
) -> RunEnd<R, W>
    ensures ended_or_served { MatchOutcome result
        (DoesAsked D.draws R.remaining W.contents E.contents
        (texts words.entry.now) draws reader writer errors.old errors.new)
        (IsHandedOn (texts words.entry.now) reader writer errors.old errors.new) }

    // Good words are carried out. The status says how far, and is that of want of memory where memory was missing.
    ensures served { (secret : List ℕ) (driven : Driven) (printed : Printed)
        → Asks (texts words.entry.now) secret driven printed → IsEnded result
        (EndsPiped D.draws R.remaining W.contents secret driven printed draws reader writer) }
    ensures replayed { (replay : Replay) → AsksAlone (texts words.entry.now) replay
        → IsEnded result (EndsReplayed R.remaining W.contents replay reader writer) }
    ensures to_serve { (service : Service) → AsksServe (texts words.entry.now) service
        → (result ≡ RunEnd.Serve service reader writer)
        ⊎ IsEnded result (EndsUnserved reader writer) }

    // For bad words, and for words that ask for help, a text is written before any input is read.
    ensures bad { AreBad (texts words.entry.now) → IsEnded result (OrUnserved reader writer
        (EndsRefused E.contents reader writer errors.old errors.new)) }
    ensures helped { AskHelp (texts words.entry.now) → IsEnded result (OrUnserved reader writer
        (EndsHelped W.contents reader writer)) }

    ensures silent { IfEnded result (λ ended. ended.status ≡ SERVED → errors.new ≡ errors.old) }
    ensures fault_line { IfEnded result (λ ended. (fault : ConnFault)
        → ended.status ≡ status_of fault
        → TriesToWrite E.contents errors.old errors.new (line_of fault)) }
{
    match read(alloc, words) {
        Invocation::Serve(service) => RunEnd::Serve(service, reader, writer),
        Invocation::Run(asked) => RunEnd::Ended(run(alloc, &asked, draws, reader, writer, errors)),
    }
}
