//! Prints a line for each packet of a capture.
//!
//! `packet_dump FILE` reads a file, and `packet_dump` or `packet_dump -` reads standard input. Words after FILE are a
//! filter expression. A line has the packet's number, its time since the first packet in seconds, its layers from the
//! outermost inwards, or why it is rejected, and the captured length if the packet is truncated. `packet_dump --help`
//! lists the options.
#![tactic(auto)]

ghost use Rattle.std.specs.Prelude.{◌≡◌, ◌≢◌, ◌^◌, ◌↔◌, if◌then◌else◌, [], false, true, Err, IfOk, List, OnErr};
ghost use Rattle.std.specs.Prelude.{OnOk, ℕ};
ghost use Rattle.std.specs.Io.KnownBytes.{Appends};
ghost use Rattle.std.specs.Option.{option_copied};
ghost use Rattle.std.specs.Process.{exit_status};
ghost use Rattle.line_io.specs.Transfers.{Transfers};
ghost use Rattle.line_io.specs.WatchedWords.{has_ended, has_failed, inner_of, reads_left};
ghost use Rattle.packet_dump.specs.Dumps.{BeginsDump};
ghost use Rattle.packet_dump.specs.ErrorTexts.{filter_status, hint_text, magic_hint, status_of, status_with};
ghost use Rattle.packet_dump.specs.ErrorTexts.{usage_status};
ghost use Rattle.packet_dump.specs.Saves.{BeginsSaved, IsCopy, asks, is_failed};
ghost use Rattle.packet_dump.specs.Sessions.{IsNew};
ghost use Rattle.packet_dump.specs.Summaries.{plain_of};
ghost use Rattle.packet_dump.specs.SummaryTexts.{IsSummedDump, summary_text};

mod decoded;
mod details;
pub mod dump_options;
pub mod ending;
pub mod engine;
mod eviction_lines;
mod explanation;
mod expression_error;
mod filters;
mod fragments;
pub mod laws;
mod options;
mod packet_lines;
mod pool_lines;
mod pooling;
pub mod saving;
pub mod session;
mod shown;
mod source;
pub mod summary;
mod target;

use crate::dump_options::DumpOptions;
use crate::ending::{Ending, error_text};
use crate::engine::{MOST_READS, run};
use crate::explanation::append_explanation;
use crate::expression_error::append_expression_error;
use crate::filters::{FilterFault, filter_of};
use crate::options::{FilterTexts, Request, UsageError, parse};
use crate::saving::{SaveFault, SaveState};
use crate::session::Session;
use crate::source::{LONG, Source};
use crate::summary::Summary;
use crate::target::{NoFile, Target};
use capture_reader::Refusal;
use line_io::{RunError, Watched};
use packet_filter::{Filter, FilterError};
use std::hash::RandomState;
use std::io::{IsTerminal, Read, Write};
use std::process::ExitCode;
use std::random::RandomSource;
use std::rt::{Env, Files};
use std::{env, fs, io};

/// Text that `--help` prints.
const HELP: &str = "usage: packet_dump [OPTION..] [FILE [WORD..]]

Prints a line for each packet of a capture (pcap or pcapng): its number, the
time since the first packet, its layers from the outside in, and how many of its
bytes were captured. Without FILE, or if FILE is -, standard input is read. The
words after FILE are a filter expression, as for tcpdump; only packets that
match it are shown: packet_dump FILE tcp port 443 and not host 10.0.0.1

Layers are read as far as possible. If a layer is truncated or malformed, the
line has the layers before it, then 'stopped' and the error; if it is the first
layer, the line has only 'refused' and the error. 'len 22 of 1448 incomplete':
a length field counts 1448 bytes, of which 22 were captured.

  -c, --count N      stop after N packets are read, shown or not; each value can
                     also be written as in --count=N
  --only KIND        only packets of this kind: udp, tcp, icmp, arp, refused or
                     stopped (the last --only applies; fragments are of no kind)
  --host A, --net N, --vlan V, --port P
                     the filters 'host A', 'net N', 'vlan V' and 'port P'; up to
                     six of these can be given, and packets have to match all of
                     them, and the filter expression
  --explain EXPR     print the filter options that are given and this expression
                     with all qualifiers and parentheses, and the steps in which
                     they are matched; no capture is read
  --time FORMAT      times since the first packet (relative), in seconds since
                     1970 (epoch), or as dates and times of day in UTC (utc)
  --strict           report each packet that is not one complete, valid frame as
                     refused
  --verbose          after the layers, further fields: TTL, identification, DF,
                     VLAN priorities, TCP window and options, the packet that an
                     ICMP error quotes, the interface number of pcapng; and
                     whether checksums are right (or left to the sending network
                     card, if the packet was captured before it was sent)
  --hex              payload bytes too, 16 a row, also as characters
  --hex=frame        all bytes of each packet, headers included
  --reassemble       reassemble IP payloads from their fragments: one more line
                     after the packet that completes a payload, or whose
                     fragment is rejected; the summary counts the payloads that
                     are never complete ('incomplete at the end')
  --timeout SECONDS  with --reassemble: drop a payload whose last accepted
                     fragment is older than this (30)
  --limit BYTES      with --reassemble: reject payloads longer than this (65535)
  --streams N        with --reassemble: keep at most N incomplete payloads; one
                     more evicts the one whose last accepted fragment is oldest
                     (256)
  --fragment-bytes N with --reassemble: use at most N bytes of memory for
                     incomplete payloads; more evicts the one whose last
                     accepted fragment is oldest
  --fragment-age SECONDS
                     with --reassemble: drop a payload whose first accepted
                     fragment is older than this
  --overlap POLICY   with --reassemble: if fragments overlap, keep the bytes of
                     the last one (last, the default) or of the first one
                     (first), or discard the payload if they contradict each
                     other (discard); with one of these three options, a line
                     reports each payload that expires, is evicted or discarded
                     (not with --quiet or another kind of --only)
  --write FILE       write the packets that are shown to a new file (pcap, with
                     nanoseconds), up to the first packet that has no time or
                     another link type
  --summary          after the lines, counts of packets, layers and errors, over
                     all packets that are read, shown or not
  --quiet            no lines; the summary then also counts how many refused and
                     stopped packets were truncated by the capture, and how many
                     are malformed
  -r FILE            the capture to read, whose name may begin with -; all words
                     are the filter expression
  -n, -nn            accepted for compatibility, and ignored: names are never
                     looked up
  --help             print this text
  --version          print the version

Supported link types: Ethernet (1), raw IP (12, 14, 101, 228, 229), BSD loopback
(0, 108) and Linux cooked captures (113, 276). A packet of another link type is
printed with the number of the type, as in: 7 1.500000 link 105 len 40

For the summary of a live capture, interrupt tcpdump alone:
tcpdump -U -w - | (trap '' INT; packet_dump --summary)

Exit status: 0 on success; 1 if the input is no capture or is truncated, a file
cannot be read, or a line or packet cannot be written; 2 for a wrong command
line.
";

/// Text that `--version` prints.
const VERSION: &str = "packet_dump 0.1.0\n";

fn main(rt: HostRuntime) -> ExitCode {
    let Ok(args) = env::args(&rt) else {
        let line = "packet_dump: an argument is not UTF-8; a file with such a name is read by \
            packet_dump < FILE";
        return print_error(&rt, line, 1);
    };
    let mut words = Vec::new(rt.alloc());
    for word in args {
        if words.push(word).is_err() {
            return print_error(&rt, "packet_dump: out of memory", 1);
        }
    }
    let arguments = match words.as_slice() {
        [_, arguments @ ..] => arguments,
        [] => &[],
    };
    match parse(rt.alloc(), arguments) {
        Ok(Request::Help) => printed(&mut Watched::new(rt.stdout(), 0), HELP.as_bytes()),
        Ok(Request::Version) => printed(&mut Watched::new(rt.stdout(), 0), VERSION.as_bytes()),
        Ok(
            Request::Dump {
                options,
                filter,
                path,
                words,
                explained,
                target,
                summary,
            },
        ) => match explained {
            Some(text) => explain(&rt, filter, text, unexpected(path, words.as_slice())),
            None => match command_filter(&rt, filter, words.as_slice()) {
                Ok(filter) => {
                    let options = DumpOptions { filter, ..options };
                    dump(&rt, options, path, target, summary)
                }
                Err(status) => status,
            },
        },
        Err(error) => print_usage_error(&rt, &error),
    }
}

/// Prints the canonical form of the filter options and a filter expression, and the steps of this filter (`--explain`).
/// `unexpected` is an argument besides these, or the name of an input file; it is an error. Returns the exit status.
fn explain(
    rt: &HostRuntime,
    options: FilterTexts<'_>,
    text: &str,
    unexpected: Option<&str>,
) -> ExitCode {
    if let Some(word) = unexpected {
        let _ = eprintln!(rt;
            "packet_dump: unexpected argument '{word}'; --explain takes one argument and reads no file"
        );
        return ExitCode::from(2);
    }
    let mut expression = String::new(rt.alloc());
    if expression.push_str(text).is_err() {
        return print_error(rt, "packet_dump: out of memory", 1);
    }
    let filter = match filter_of(rt.alloc(), options, expression) {
        Ok(filter) => filter,
        Err(fault) => return print_filter_fault(rt, &fault, false),
    };
    let mut output = Vec::new(rt.alloc());
    let appended = match &filter {
        Some(filter) => append_explanation(&mut output, filter),
        None => output.extend_from_slice(b"\n"),
    };
    if appended.is_err() {
        return print_error(rt, "packet_dump: out of memory", 1);
    }
    printed(&mut Watched::new(rt.stdout(), 0), output.as_slice())
}

/// Returns the name of the input file, or else the first word after it, if there is one.
fn unexpected<'a>(path: Option<&'a str>, words: &[&'a str]) -> Option<&'a str> {
    match (path, words) {
        (Some(word), _) => Some(word),
        (None, [word, ..]) => Some(*word),
        (None, []) => None,
    }
}

/// Parses the filter of the command line: its filter options, and `words`, which are joined to its filter expression.
/// If a text is wrong or an allocation fails, prints the error and returns the exit status.
fn command_filter(
    rt: &HostRuntime,
    options: FilterTexts<'_>,
    words: &[&str],
) -> Result<Option<Filter>, ExitCode> {
    let Ok(expression) = words.join(rt.alloc(), " ") else {
        return Err(print_error(rt, "packet_dump: out of memory", 1));
    };
    match filter_of(rt.alloc(), options, expression) {
        Ok(filter) => Ok(filter),
        Err(fault) => Err(print_filter_fault(rt, &fault, true)),
    }
}

/// Writes the text of `--help`, `--version` or `--explain`, and returns the exit status: 0, or 1 if writing failed.
fn printed<W: Write>(writer: &mut Watched<W>, text: &[u8]) -> ExitCode
    requires { has_failed writer.old ≡ false }
    ensures text { has_failed writer.new ≡ false →
        Appends (W.contents (inner_of writer.old)) (W.contents (inner_of writer.new)) text.now }
    ensures status { exit_status result ≡ (if has_failed writer.new then 1 else 0) }
{
    match writer.write_all(text) {
        Ok(()) => ExitCode::SUCCESS,
        Err(_) => ExitCode::from(1),
    }
}

/// Prints an error message to standard error, and returns the given exit status.
fn print_error(rt: &impl Eprint, line: &str, status: u8) -> ExitCode
    ensures { exit_status result ≡ status }
{
    let _ = rt.eprintln(line);
    ExitCode::from(status)
}

/// Prints the error of an invalid command line to standard error. Returns exit status 2, or 1 if the allocation failed.
fn print_usage_error(rt: &impl Eprint, error: &UsageError<'_>) -> ExitCode
    ensures { exit_status result ≡ usage_status error.now }
{
    let _ = match error {
        UsageError::UnknownOption(word) => eprintln!(rt; "packet_dump: unknown option '{word}'"),
        UsageError::NoValue(option) => eprintln!(rt; "packet_dump: {option} needs a value"),
        UsageError::NotACount(word) => {
            eprintln!(rt; "packet_dump: invalid packet count '{word}'; a whole number from 0")
        }
        UsageError::NotAKind(word) => {
            eprintln!(rt;
                "packet_dump: unknown packet kind '{word}'; one of udp, tcp, icmp, arp, refused, stopped"
            )
        }
        UsageError::NotATimeForm(word) => {
            eprintln!(rt; "packet_dump: unknown time format '{word}'; one of relative, epoch, utc")
        }
        UsageError::NotATimeout(word) => {
            eprintln!(rt; "packet_dump: invalid timeout '{word}'; seconds from 0 to 4294967295")
        }
        UsageError::NotALimit(word) => {
            eprintln!(rt; "packet_dump: invalid payload limit '{word}'; bytes from 0 to 65535")
        }
        UsageError::NotAStreamCount(word) => {
            eprintln!(rt; "packet_dump: invalid number of streams '{word}'; a whole number from 0")
        }
        UsageError::NotAByteCount(word) => {
            eprintln!(rt; "packet_dump: invalid number of bytes '{word}'; a whole number from 0")
        }
        UsageError::NotAnAge(word) => {
            eprintln!(rt;
                "packet_dump: invalid fragment age '{word}'; seconds from 0 to 4294967295"
            )
        }
        UsageError::NotAPolicy(word) => {
            eprintln!(rt;
                "packet_dump: unknown policy for overlaps '{word}'; one of last, first, discard"
            )
        }
        UsageError::CrowdedFilter => {
            eprintln!(rt;
                "packet_dump: too many filters; at most six of --host, --port, --net and --vlan"
            )
        }
        UsageError::SecondFile(word) => {
            eprintln!(rt; "packet_dump: unexpected argument '{word}'; only one file is read")
        }
        UsageError::OutOfMemory => {
            return print_error(rt, "packet_dump: out of memory", 1);
        }
    };
    print_error(rt, "packet_dump --help lists the options", 2)
}

/// Prints why a command line has no filter to standard error, and returns exit status 2; 1 if the allocation failed.
/// `reads` is whether a capture is read, so that the first word of an expression may be meant as a second file.
fn print_filter_fault(rt: &HostRuntime, fault: &FilterFault, reads: bool) -> ExitCode
    ensures { exit_status result ≡ filter_status fault.now }
{
    match fault {
        FilterFault::OutOfMemory => print_error(rt, "packet_dump: out of memory", 1),
        FilterFault::Wrong { text, error } => {
            print_expression_error(rt, text.as_str(), error, reads);
            ExitCode::from(2)
        }
    }
}

/// Prints the error of a filter expression to standard error.
fn print_expression_error(rt: &HostRuntime, text: &str, error: &FilterError, reads: bool) {
    let mut lines = Vec::new(rt.alloc());
    let _ = match append_expression_error(&mut lines, text.as_bytes(), error, reads) {
        Ok(()) => rt.stderr().write_all(lines.as_slice()),
        Err(_) => rt.eprintln("packet_dump: out of memory"),
    };
}

/// Runs `packet_dump` on a capture file or on standard input, with a summary (`--summary`) and a new capture file of
/// the selected packets (`--write`), if wanted. Returns the exit status.
fn dump(
    rt: &HostRuntime,
    options: DumpOptions,
    path: Option<&str>,
    target: Option<&str>,
    wanted: bool,
) -> ExitCode {
    let keys = match pool_keys(rt, options.reassemble) {
        Ok(keys) => keys,
        Err(error) => {
            let _ = eprintln!(rt; "packet_dump: no random numbers: {error}");
            return ExitCode::from(1);
        }
    };
    let Ok(mut session) = Session::new(rt.alloc(), options, keys, wanted, target.is_some()) else {
        return print_error(rt, "packet_dump: out of memory", 1);
    };
    let Some(path) = path else {
        let input = Source::new(rt.stdin(), rt, "standard input", None);
        return dump_input(rt, &mut session, None, input, target);
    };
    match fs::open(rt, path) {
        Ok(file) => {
            let len = shown_len(rt, &file);
            let input = Source::new(file, rt, path, len);
            dump_input(rt, &mut session, Some(path), input, target)
        }
        Err(error) => {
            let _ = eprintln!(rt; "packet_dump: {path}: {error}");
            ExitCode::from(1)
        }
    }
}

/// Returns the keys of the reassembly pool's hash: random ones with `--reassemble`, else zeros, as nothing is hashed.
fn pool_keys(rt: &HostRuntime, reassembles: bool) -> io::Result<RandomState> {
    if reassembles {
        RandomState::new(rt)
    } else {
        RandomState::new(&ZeroKeys)
    }
}

/// Source of keys that are 0.
#[derive(Drop)]
struct ZeroKeys;

impl RandomSource for ZeroKeys {
    fn fill_bytes(&self, bytes: &mut [u8]) -> io::Result<()> {
        bytes.fill(0);
        Ok(())
    }
}

/// Runs `packet_dump` on an opened input, with a summary and a new capture file of the selected packets (`--write`), if
/// wanted, and returns the exit status. The new file is created after the input was opened, and only if no file of that
/// name exists, so the input is never overwritten.
fn dump_input<R: Read + Drop>(
    rt: &HostRuntime,
    session: &mut Session,
    path: Option<&str>,
    input: R,
    target: Option<&str>,
) -> ExitCode
    requires { IsNew session.old }
{
    let Some(name) = target else {
        let mut file = Watched::new(NoFile, 0);
        let outcome = dump_into(rt, session, input, &mut file);
        return ended(rt, path, outcome);
    };
    match fs::File::create_new(rt, name) {
        Ok(created) => {
            let mut file = Watched::new(Target::new(created, rt, name), 0);
            let outcome = dump_into(rt, session, input, &mut file);
            saved(rt, path, outcome, name, session.saving.state)
        }
        Err(error) => {
            let _ = eprintln!(rt; "packet_dump: {name}: {error}");
            ExitCode::from(1)
        }
    }
}

/// Writes the lines of a capture's packets to standard output, then the summary, if wanted. Writes the selected packets
/// to a new capture file, if wanted (`--write`).
fn dump_into<R: Read + Drop, F: Write>(
    rt: &HostRuntime,
    session: &mut Session,
    input: R,
    file: &mut Watched<F>,
) -> Result<Ending, RunError>
    requires new { IsNew session.old }
    requires file_sound { has_failed file.old ≡ false }
{
    let mut reader = Watched::new(input, MOST_READS);
    let mut writer = Watched::new(rt.stdout(), 0);
    dump_reader(session, &mut reader, &mut writer, file)
}

/// Returns the length of the input file if progress is printed for it, or else `None`. Progress is printed if the file
/// has 100 MB or more, standard output is no terminal, and standard error is one.
fn shown_len(rt: &HostRuntime, file: &fs::File) -> Option<u64> {
    match file.metadata() {
        Ok(metadata) if metadata.len() >= LONG && rt.stderr().is_terminal() => {
            if rt.stdout().is_terminal() {
                None
            } else {
                Some(metadata.len())
            }
        }
        _ => None,
    }
}

/// Writes the lines of a capture's packets to a writer, then the summary, if wanted, and the selected packets to a new
/// capture file, if wanted. The contract requires that neither the session nor the reader was used before.
fn dump_reader<R: Read, W: Write, F: Write>(
    session: &mut Session,
    reader: &mut Watched<R>,
    writer: &mut Watched<W>,
    file: &mut Watched<F>,
) -> Result<Ending, RunError>
    requires new { IsNew session.old }
    requires reader_sound { has_failed reader.old ≡ false }
    requires reader_open { has_ended reader.old ≡ false }
    requires reads { reads_left reader.old ≡ 2 ^ 47 }
    requires writer_sound { has_failed writer.old ≡ false }
    requires file_sound { has_failed file.old ≡ false }
    ensures ok { IfOk result (λ ending. Transfers
        (IsSummedDump session.old.summary.wanted session.old.options (has_ended reader.new) ending)
        R.remaining reader.old reader.new W.contents writer.old writer.new) }
    ensures err { OnErr result (session.old.summary.wanted ≡ false → Transfers (BeginsDump session.old.options)
        R.remaining reader.old reader.new W.contents writer.old writer.new) }
    ensures saved { IfOk result (λ ending. Transfers
        (IsCopy session.old.options (asks session.old.saving.state) (has_ended reader.new) ending
        session.new.saving.state)
        R.remaining reader.old reader.new F.contents file.old file.new) }
    ensures begun { OnErr result (session.old.summary.wanted ≡ false →
        Transfers (BeginsSaved session.old.options (asks session.old.saving.state))
        R.remaining reader.old reader.new F.contents file.old file.new) }
    ensures failed { has_failed file.new ≡ is_failed session.new.saving.state }
    ensures read { (result ≡ Err RunError.Read) ↔ (has_failed reader.new ≡ true) }
    ensures write { (result ≡ Err RunError.Write) ↔ (has_failed writer.new ≡ true) }
{
    let wanted = session.summary.wanted;
    let ending = run(session, reader, writer, file)?;
    if wanted {
        summarized(&session.summary, writer)?;
    }
    Ok(ending)
}

/// Writes the text of a run's summary (`--summary`), with the counts of packets, layers and errors.
fn summarized<W: Write>(summary: &Summary, writer: &mut Watched<W>) -> Result<(), RunError>
    requires { has_failed writer.old ≡ false }
    ensures all { OnOk result (Appends (W.contents (inner_of writer.old)) (W.contents (inner_of writer.new))
        (summary_text (plain_of summary.now))) }
    ensures read { result ≢ Err RunError.Read }
    ensures write { (result ≡ Err RunError.Write) ↔ (has_failed writer.new ≡ true) }
{
    let text = summary.text()?;
    writer.write_all(text.as_bytes())
}

/// Prints the error of a failed run to standard error, and returns the exit status: 0, or 1 if the run failed. `path`
/// is the capture file, or `None` for standard input. A failed read is not printed: the reader already reported it.
fn ended(rt: &impl Eprint, path: Option<&str>, outcome: Result<Ending, RunError>) -> ExitCode
    ensures { exit_status result ≡ status_of outcome }
{
    match outcome {
        Ok(Ending::Complete | Ending::Enough) => ExitCode::SUCCESS,
        Ok(Ending::Broken { packets, error }) => {
            let _ = match path {
                Some(path) => {
                    eprintln!(rt; "packet_dump: {path}: {packets} packets were read; {error}")
                }
                None => eprintln!(rt; "packet_dump: {packets} packets were read; {error}"),
            };
            if let Some(line) = hint(error.refusal) {
                let _ = rt.eprintln(line);
            }
            ExitCode::from(1)
        }
        Err(RunError::Read) => ExitCode::from(1),
        Err(error) => print_error(rt, error_text(&error), 1),
    }
}

/// Prints to standard error why a run with `--write` failed, or why packets are missing in the new capture file
/// `name`. Returns the exit status: 0, or 1 if the run failed or packets are missing. A failed write to the new file is
/// not printed: the writer already reported it.
fn saved(
    rt: &impl Eprint,
    path: Option<&str>,
    outcome: Result<Ending, RunError>,
    name: &str,
    state: SaveState,
) -> ExitCode
    ensures { exit_status result ≡ status_with outcome state }
{
    let status = ended(rt, path, outcome);
    match state {
        SaveState::Unasked | SaveState::Open(_) => status,
        SaveState::Stopped(SaveFault::Failed) => ExitCode::from(1),
        SaveState::Stopped(SaveFault::Refused { number, refusal }) => {
            let _ = eprintln!(rt;
                "packet_dump: {name}: packet {number} and later packets are not written: {refusal}"
            );
            ExitCode::from(1)
        }
    }
}

/// Returns a hint for the user if an input was rejected as a capture because it is compressed (gzip or zstd), or else
/// `None`.
fn hint(refusal: Refusal) -> Option<&'static str>
    ensures { option_copied result ≡ hint_text refusal }
{
    match refusal {
        Refusal::UnknownMagic { magic } => magic_hint(magic),
        _ => None,
    }
}

/// Returns how to decompress an input whose first four bytes are `magic`, if they are those of gzip or zstd, or else
/// `None`.
fn magic_hint(magic: u32) -> Option<&'static str>
    ensures { option_copied result ≡ magic_hint magic }
{
    if magic / 65_536 == 0x1f8b {
        Some("packet_dump: it is compressed: gzip -dc FILE | packet_dump")
    } else if magic == 0x28b5_2ffd {
        Some("packet_dump: it is compressed: zstd -dc FILE | packet_dump")
    } else {
        None
    }
}
