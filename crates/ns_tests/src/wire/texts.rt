// The texts for bad words and for requests for help, and the lines of faults.
use crate::wire::same_bits::SameBits;
use crate::wire::serving;
use ns_command_line::{RunEnd, run_words};
use ns_faults::{print_fault, print_no_random, print_no_words};
use ns_http::{ConnFault, Counted};
use ns_pipe::{WordsRead, run};
use std::alloc::Global;
use std::io::{self, ErrorKind};
use std::rt::HostRuntime;

const NO_INPUT: &[u8] = b"";

/// The exit status, and what was written.
#[derive(Drop)]
struct RunText {
    status: u8,
    output: Vec<u8>,
    errors: Vec<u8>,
}

fn run_with(alloc: Global, words: &[&str]) -> RunText {
    let mut errors = Counted::new(Vec::new(alloc));
    let outcome = run_words(
        alloc,
        words,
        SameBits,
        NO_INPUT,
        Vec::new(alloc),
        &mut errors,
    );
    let (status, output) = match outcome {
        RunEnd::Ended(ended) => (ended.status, ended.writer.into_inner()),
        RunEnd::Serve(..) => (u8::MAX, Vec::new(alloc)),
    };
    RunText {
        status,
        output,
        errors: errors.into_inner(),
    }
}

/// Whether the words are refused as bad, with this text.
pub(crate) fn are_bad(alloc: Global, words: &[&str], text: &str) -> bool {
    let ran = run_with(alloc, words);
    ran.status == 2 && ran.output.is_empty() && ran.errors.as_slice() == text.as_bytes()
}

const NO_COMMAND: &str = "error: 'nsd' requires a subcommand but one was not provided
  [subcommands: pipe, serve, alone, help]

Usage: nsd <COMMAND>

For more information, try '--help'.
";

const OTHER_COMMAND: &str = "error: unrecognized subcommand 'agent'

Usage: nsd <COMMAND>

For more information, try '--help'.
";

const NO_BOOTSTRAP: &str = "error: the following required arguments were not provided:
  --bootstrap <SECRET>

Usage: nsd pipe --bootstrap <SECRET>

For more information, try '--help'.
";

const BAD_SECRET: &str = "error: the bootstrap secret has 1 to 64 printable bytes without a space

Usage: nsd <COMMAND>

For more information, try '--help'.
";

const BAD_PRINT: &str = "error: what is printed is replies or log

Usage: nsd <COMMAND>

For more information, try '--help'.
";

const NO_NAMESPACE: &str = "error: the following required arguments were not provided:
  <NAMESPACE>

Usage: nsd alone <NAMESPACE>

For more information, try '--help'.
";

const BAD_NAMESPACE: &str = "error: the namespace has 1 to 128 letters, digits and hyphens

Usage: nsd <COMMAND>

For more information, try '--help'.
";

const NO_COUNT: &str = "error: a value is required for '--from <COUNT>' but none was supplied

For more information, try '--help'.
";

const BAD_COUNT: &str = "error: the count of entries is a decimal number below 2^64

Usage: nsd <COMMAND>

For more information, try '--help'.
";

const NO_POOL: &str = "error: a value is required for '--pool <NAME>' but none was supplied

For more information, try '--help'.
";

const BAD_POOL: &str = "error: a pool has 1 to 128 letters, digits, hyphens and underscores

Usage: nsd <COMMAND>

For more information, try '--help'.
";

const NO_QUOTA: &str = "error: a value is required for '--quota <NAME>' but none was supplied

For more information, try '--help'.
";

const BAD_QUOTA: &str = "error: a quota has 1 to 128 letters, digits, hyphens and underscores

Usage: nsd <COMMAND>

For more information, try '--help'.
";

#[test]
fn bad_words(rt: HostRuntime) {
    let alloc = rt.alloc();
    assert!(rt; are_bad(alloc, &["nsd"], NO_COMMAND));
    assert!(rt; are_bad(alloc, &["nsd", "agent"], OTHER_COMMAND));
    assert!(rt; are_bad(alloc, &["nsd", "help", "agent"], OTHER_COMMAND));
}

/// Whether `pipe` with this word after a good secret is refused as bad, with this text.
fn is_bad_pipe(alloc: Global, word: &str, text: &str) -> bool {
    are_bad(alloc, &["nsd", "pipe", "--bootstrap", "root", word], text)
}

#[test]
fn bad_words_of_pipe(rt: HostRuntime) {
    let alloc = rt.alloc();
    assert!(rt; are_bad(alloc, &["nsd", "pipe"], NO_BOOTSTRAP));
    assert!(rt; are_bad(alloc, &["nsd", "pipe", "--bootstrap", "a b"], BAD_SECRET));
    assert!(rt; are_bad(alloc, &["nsd", "pipe", "--bootstrap="], BAD_SECRET));
    assert!(rt; is_bad_pipe(alloc, "--print=Log", BAD_PRINT));
    assert!(rt; is_bad_pipe(alloc, "--print=", BAD_PRINT));
}

/// Whether `alone` with this word after a good name is refused as bad, with this text.
fn is_bad_alone(alloc: Global, word: &str, text: &str) -> bool {
    are_bad(alloc, &["nsd", "alone", "ta", word], text)
}

#[test]
fn bad_words_of_alone(rt: HostRuntime) {
    let alloc = rt.alloc();
    assert!(rt; are_bad(alloc, &["nsd", "alone"], NO_NAMESPACE));
    assert!(rt; are_bad(alloc, &["nsd", "alone", "t_a"], BAD_NAMESPACE));
    assert!(rt; are_bad(alloc, &["nsd", "alone", ""], BAD_NAMESPACE));
    assert!(rt; is_bad_alone(alloc, "--from", NO_COUNT));
    assert!(rt; is_bad_alone(alloc, "--from=", BAD_COUNT));
    assert!(rt; is_bad_alone(alloc, "--from=+1", BAD_COUNT));
    assert!(rt; is_bad_alone(alloc, "--from=18446744073709551616", BAD_COUNT));
}

#[test]
fn bad_pools_and_quotas_of_alone(rt: HostRuntime) {
    let alloc = rt.alloc();
    assert!(rt; is_bad_alone(alloc, "--pool", NO_POOL));
    assert!(rt; is_bad_alone(alloc, "--pool=", BAD_POOL));
    assert!(rt; is_bad_alone(alloc, "--pool=e*", BAD_POOL));
    assert!(rt; is_bad_alone(alloc, "--quota", NO_QUOTA));
    assert!(rt; is_bad_alone(alloc, "--quota=", BAD_QUOTA));
    assert!(rt; is_bad_alone(alloc, "--quota=q a", BAD_QUOTA));
    let second = ["nsd", "alone", "ta", "--pool=east", "--pool", ""];
    assert!(rt; are_bad(alloc, &second, BAD_POOL));
    let both = ["nsd", "alone", "ta", "--quota=q.a", "--pool=e.t"];
    assert!(rt; are_bad(alloc, &both, BAD_POOL));
}

const HELP: &str = "A scheduling server for many tenants

Usage: nsd <COMMAND>

Commands:
  pipe   Answers standard input as one HTTP/1.1 connection, with the replies on standard output
  serve  Runs the server on a TCP port: HTTP/1.1, many connections and workers at once
  alone  Replays a namespace's own steps of a log alone, and says whether each reply is the same
  help   Print this message or the help of the given subcommand(s)

Options:
  -h, --help  Print help

Exit statuses:
  0  pipe: served to the end; serve: served and settled; alone: same
  1  serve: mismatch; alone: differs, a premise fails, or not a run
  2  bad arguments; alone: or a bad log
  3  the input failed; pipe: or it ended inside a request; serve: no address or no connection
  4  the output failed
  5  out of memory; serve: or a thread could not be started
";

const ALONE_HELP: &str =
    "Replays a namespace's own steps of a log alone, and says whether each reply is the same

Usage: nsd alone [OPTIONS] <NAMESPACE>

Arguments:
  <NAMESPACE>  The namespace: 1 to 128 letters, digits and hyphens

Options:
      --from <COUNT>  Number of entries of the log that set up the server first (default: 0)
      --pool <NAME>   A pool that the namespace has to itself; repeat it for each (default without --quota: the pools that it may use after COUNT entries)
      --quota <NAME>  A quota that it has to itself; repeat it for each (default without --pool: the one that it names after COUNT entries)
  -h, --help          Print help

Standard input is a log, as `serve` and `pipe --print log` print it. The first COUNT entries set up the
server; from there on the namespace's own steps are repeated by a server that holds no other.

--pool and --quota name the pools and quotas that the namespace has to itself. Its own steps are the
requests in the namespace or for its pools, with any token; what workers did for it; and requests of
administrators for its record (within these pools and quotas), its pools, its quotas, or for policies
and tokens.

Promised: a namespace that has these pools and quotas to itself gets the same replies alone.
What must hold, from COUNT on:
  no other namespace may use one of the pools or names one of the quotas
  the namespace is confined to these pools and names no other quota
  none of its jobs runs or waits in another pool
  no put of its record, pools or quotas is refused because a table of the server is full
Administrators may change its record, its quotas, its pools, policies and tokens meanwhile.
Not promised: how long a step takes, replies to steps that are not its own, anything once one fails.

Printed: place in the log, status and body of each repeated step, and at the end
  same                each reply is the one in the log
  differs at P        alone, the reply at place P is a different one
  premise fails at P  one of the conditions above does not hold before or after place P
  not a run at P      no server gives the reply that stands at place P
  bad log line L      line L is no line of a log; nothing else is printed

Exit statuses:
  0  same
  1  differs at P, premise fails at P or not a run at P
  2  bad arguments, or bad log line L
  3  the input failed
  4  the output failed
  5  out of memory
";

/// Whether the words get this help, on the output.
fn is_helped(alloc: Global, words: &[&str], help: &str) -> bool {
    let ran = run_with(alloc, words);
    ran.status == 0 && ran.errors.is_empty() && ran.output.as_slice() == help.as_bytes()
}

#[test]
fn help_goes_to_the_output(rt: HostRuntime) {
    let alloc = rt.alloc();
    assert!(rt; is_helped(alloc, &["nsd", "--help"], HELP));
    assert!(rt; is_helped(alloc, &["nsd", "alone", "--help"], ALONE_HELP));
    assert!(rt; is_helped(alloc, &["nsd", "help", "alone"], ALONE_HELP));
    assert!(rt; is_helped(alloc, &["nsd", "serve", "--help"], serving::HELP));
}

/// Whether a run ended with this status and this line.
fn is_line(ran: (u8, Vec<u8>), status: u8, line: &[u8]) -> bool {
    let (given, errors) = ran;
    given == status && errors.as_slice() == line
}

fn fault(alloc: Global, fault: ConnFault) -> (u8, Vec<u8>) {
    let mut errors = Counted::new(Vec::new(alloc));
    let status = print_fault(fault, &mut errors);
    (status, errors.into_inner())
}

fn no_random(alloc: Global) -> (u8, Vec<u8>) {
    let mut errors = Counted::new(Vec::new(alloc));
    let status = print_no_random(&mut errors);
    (status, errors.into_inner())
}

fn no_words(alloc: Global, kind: ErrorKind) -> (u8, Vec<u8>) {
    let mut errors = Counted::new(Vec::new(alloc));
    let status = print_no_words(&io::Error::from(kind), &mut errors);
    (status, errors.into_inner())
}

fn no_memory(alloc: Global) -> (u8, Vec<u8>) {
    let mut errors = Counted::new(Vec::new(alloc));
    let ended = run(
        alloc,
        &WordsRead::NoMemory,
        SameBits,
        NO_INPUT,
        Vec::new(alloc),
        &mut errors,
    );
    (ended.status, errors.into_inner())
}

#[test]
fn lines_of_faults(rt: HostRuntime) {
    let alloc = rt.alloc();
    assert!(rt; is_line(fault(alloc, ConnFault::Read), 3, b"read fault\n"));
    assert!(rt; is_line(fault(alloc, ConnFault::Write), 4, b"write fault\n"));
    assert!(rt; is_line(fault(alloc, ConnFault::Memory), 5, b"out of memory\n"));
    assert!(rt; is_line(no_random(alloc), 3, b"read fault\n"));
    assert!(rt; is_line(no_memory(alloc), 5, b"out of memory\n"));
    assert!(rt;
        is_line(
            no_words(alloc, ErrorKind::OutOfMemory),
            5,
            b"out of memory\n"
        )
    );
    assert!(rt;
        is_line(
            no_words(alloc, ErrorKind::InvalidData),
            2,
            b"error: a word is no text\n"
        )
    );
}
