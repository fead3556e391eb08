//! Does what the words of the command line ask for.

ghost use Rattle.std.specs.Prelude.{◌≡◌, ℕ, List, ◌⊎◌};
ghost use Rattle.ns_http.specs.Output.{WritesAll};
ghost use Rattle.ns_types.specs.State.Names.{Name};
ghost use Rattle.ns_api.specs.declared.following.Driven.{Driven};
ghost use Rattle.ns_pipe.specs.Asking.{IsHelp, IsMistake, IsNoConnection, IsNoReplay};
ghost use Rattle.ns_pipe.specs.declared.printed.Printed.{Printed};
ghost use Rattle.ns_pipe.specs.Ending.{uncounted};
ghost use Rattle.ns_faults.specs.Lines.{FailsToWrite, TriesToWrite, line_of, status_of};
ghost use Rattle.ns_pipe.specs.Printing.{EndsPrinted};
ghost use Rattle.ns_pipe.specs.ReplayPrinting.{EndsAlone};
ghost use Rattle.ns_pipe.specs.declared.replay.replay.Replay.{Replay};

use crate::asked::WordsRead;
use crate::connection::pipe;
use crate::logging::pipe_log;
use crate::nowhere::Nowhere;
use crate::printed::Printed;
use crate::replay::{Replay, print_replay};
use ns_api::Driven;
use ns_endpoints::Draws;
use ns_faults::status::{BAD_WORDS, OUT_OF_MEMORY, SERVED, WRITE_FAULT};
use ns_faults::{print_fault, print_text};
use ns_http::{ConnFault, Counted, write_all};
use ns_types::name::Secret;
use std::alloc::Global;
use std::io::{Read, Write};

/// How a run ended, with its reader, its writer, and the writer of the replies that are not printed.
#[derive(Drop)]
pub struct EndedRun<R, W> {
    pub status: u8,
    pub reader: Counted<R>,
    pub writer: Counted<W>,
    pub unprinted: Counted<Nowhere>,
}

/// Writes the help, and returns the exit status.
fn show<W: Write, E: Write>(help: &str, writer: &mut Counted<W>, errors: &mut Counted<E>) -> u8
    ensures status { (result ≡ SERVED) ⊎ (result ≡ WRITE_FAULT) }
    ensures shown { result ≡ SERVED → WritesAll W.contents writer.old writer.new help.now }
    ensures failed { result ≡ WRITE_FAULT
        → FailsToWrite W.contents writer.old writer.new help.now }
    ensures silent { result ≡ SERVED → errors.new ≡ errors.old }
    ensures fault_line { result ≡ WRITE_FAULT
        → TriesToWrite E.contents errors.old errors.new (line_of ConnFault.Write) }
{
    match write_all(writer, help.as_bytes()) {
        Ok(()) => SERVED,
        Err(_) => print_fault(ConnFault::Write, errors),
    }
}

/// Serves one connection, and prints its replies or its log.
fn converse<D: Draws + Drop, R: Read + Drop, W: Write + Drop, E: Write>(
    alloc: Global,
    secret: &Secret,
    draws: D,
    driven: Driven,
    printed: Printed,
    reader: R,
    writer: W,
    errors: &mut Counted<E>,
) -> EndedRun<R, W>
    ensures ended { EndsPrinted D.draws R.remaining W.contents
        printed secret.now draws driven result.status
        (uncounted reader) result.reader result.unprinted (uncounted writer) result.writer }
    ensures silent { result.status ≡ SERVED → errors.new ≡ errors.old }
    ensures fault_line { (fault : ConnFault) → result.status ≡ status_of fault
        → TriesToWrite E.contents errors.old errors.new (line_of fault) }
{
    let mut reader = Counted::new(reader);
    let mut writer = Counted::new(writer);
    let mut unprinted = Counted::new(Nowhere);
    match printed {
        Printed::Replies => {
            let status = pipe(
                alloc,
                secret,
                draws,
                driven,
                &mut reader,
                &mut writer,
                errors,
            );
            EndedRun {
                status,
                reader,
                writer,
                unprinted,
            }
        }
        Printed::Log => {
            let status = pipe_log(
                alloc,
                secret,
                draws,
                driven,
                &mut reader,
                &mut unprinted,
                &mut writer,
                errors,
            );
            EndedRun {
                status,
                reader,
                writer,
                unprinted,
            }
        }
    }
}

/// Reads a log, and replays it for the namespace alone.
fn replay<R: Read + Drop, W: Write + Drop, E: Write>(
    alloc: Global,
    replay: &Replay,
    reader: R,
    writer: W,
    errors: &mut Counted<E>,
) -> EndedRun<R, W>
    ensures ended { EndsAlone R.remaining W.contents replay.now result.status
        (uncounted reader) result.reader (uncounted writer) result.writer }
    ensures silent { result.status ≡ SERVED → errors.new ≡ errors.old }
    ensures fault_line { (fault : ConnFault) → result.status ≡ status_of fault
        → TriesToWrite E.contents errors.old errors.new (line_of fault) }
{
    let mut reader = Counted::new(reader);
    let mut writer = Counted::new(writer);
    let status = print_replay(alloc, replay, &mut reader, &mut writer, errors);
    EndedRun {
        status,
        reader,
        writer,
        unprinted: Counted::new(Nowhere),
    }
}

/// Does what the words ask for, and returns how that ended. Only a connection and a replay read input.
pub fn run<D: Draws + Drop, R: Read + Drop, W: Write + Drop, E: Write>(
    alloc: Global,
    asked: &WordsRead,
    draws: D,
    reader: R,
    writer: W,
    errors: &mut Counted<E>,
) -> EndedRun<R, W>
    ensures pipe { (secret : Name) (driven : Driven) (printed : Printed)
        → asked.now ≡ WordsRead.Pipe secret driven printed
        → EndsPrinted D.draws R.remaining W.contents printed secret draws driven result.status
        (uncounted reader) result.reader result.unprinted (uncounted writer) result.writer }
    ensures help { (text : List ℕ) → IsHelp asked.now text
        → (result.status ≡ SERVED) ⊎ (result.status ≡ WRITE_FAULT) }
    ensures shown { (text : List ℕ) → IsHelp asked.now text → result.status ≡ SERVED
        → WritesAll W.contents (uncounted writer) result.writer text }
    ensures not_shown { (text : List ℕ) → IsHelp asked.now text → result.status ≡ WRITE_FAULT
        → FailsToWrite W.contents (uncounted writer) result.writer text }
    ensures mistake { (text : List ℕ) → IsMistake asked.now text
        → (result.status ≡ BAD_WORDS) × (result.writer ≡ uncounted writer)
        × TriesToWrite E.contents errors.old errors.new text }
    ensures alone { (replay : Replay) → asked.now ≡ WordsRead.Alone replay
        → EndsAlone R.remaining W.contents replay result.status
        (uncounted reader) result.reader (uncounted writer) result.writer }
    ensures no_memory { asked.now ≡ WordsRead.NoMemory
        → (result.status ≡ OUT_OF_MEMORY) × (result.writer ≡ uncounted writer) }
    ensures unread { IsNoConnection asked.now → IsNoReplay asked.now
        → result.reader ≡ uncounted reader }

    // The status decides what is written to `errors`.
    ensures silent { result.status ≡ SERVED → errors.new ≡ errors.old }
    ensures fault_line { (fault : ConnFault) → result.status ≡ status_of fault
        → TriesToWrite E.contents errors.old errors.new (line_of fault) }
{
    let mut output = Counted::new(writer);
    let status = match asked {
        WordsRead::Pipe(secret, driven, printed) => {
            let writer = output.into_inner();
            return converse(
                alloc, secret, draws, *driven, *printed, reader, writer, errors,
            );
        }
        WordsRead::Help(text) => show(text.as_str(), &mut output, errors),
        WordsRead::Mistake(text) => {
            print_text(errors, text.as_str().as_bytes());
            BAD_WORDS
        }
        WordsRead::Alone(wanted) => {
            let writer = output.into_inner();
            return replay(alloc, wanted, reader, writer, errors);
        }
        WordsRead::NoMemory => print_fault(ConnFault::Memory, errors),
    };
    EndedRun {
        status,
        reader: Counted::new(reader),
        writer: output,
        unprinted: Counted::new(Nowhere),
    }
}
