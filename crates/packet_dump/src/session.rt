//! State of a `packet_dump` run between two chunks of the capture that are read.

ghost use Rattle.std.specs.Prelude.{◌≡◌, ◌≢◌, ◌<◌, ◌≤◌, ◌+◌, ◌^◌, ◌++◌, ℕ, List, IfNone, IfOk, IfSome, OnOk, OnSome, drop};
ghost use Rattle.std.specs.Prelude.{Some, take, vec_len};
ghost use Rattle.capture_reader.specs.Readers.{AnswersAhead, reader_offset, reader_unread, shown_of};
ghost use Rattle.packet_dump.specs.PacketCalls.{PoolHistory};
ghost use Rattle.packet_dump.specs.Saves.{is_failed, new_state};
ghost use Rattle.packet_dump.specs.Sessions.{Counts, Drains, HasParsed, HasProcessed, HoldsPooling, IsNew};
ghost use Rattle.packet_dump.specs.Sessions.{ProcessesPacket, Written, ending_of, ends_run, taken_by, with_lines};
ghost use Rattle.packet_dump.specs.Summaries.{CountsFragments, new_summary, plain_of};
ghost use Rattle.packet_dump.specs.declared.dump_options.DumpOptions.{DumpOptions};

use crate::decoded::{CapturedPacket, Decoded};
use crate::dump_options::DumpOptions;
use crate::ending::Ending;
use crate::packet_lines::append_line;
use crate::pooling::Pooling;
use crate::saving::Saving;
use crate::shown::{first_after, instant_in, latest_after};
use crate::summary::Summary;
use capture_reader::{Advance, CaptureError, CaptureReader, Shown};
use std::alloc::{AllocError, Global};
use std::hash::RandomState;
use std::mem::replace;

/// Reason why a run can process no further packet now: the bytes read so far contain no other complete packet, the
/// number of packets of `--count` is reached, or the capture is invalid.
#[derive(Clone, Copy)]
pub enum CaptureState {
    /// The bytes read so far are a complete capture, which may end here or go on.
    MayEnd,
    /// The number of packets given by `--count` was read.
    Enough,
    /// The bytes read so far end within a packet or block. If the capture ends here, this is the error to report.
    Cut(CaptureError),
    /// The capture is invalid with this error, whatever bytes follow.
    Refused(CaptureError),
}

impl CaptureState {
    /// Returns whether the run ends in this state; `ended` is whether the reader is at its end or no more reads are
    /// allowed.
    pub fn ends_run(self, ended: bool) -> bool
        ensures { result ≡ ends_run self ended }
    {
        match self {
            CaptureState::MayEnd | CaptureState::Cut(_) => ended,
            CaptureState::Enough | CaptureState::Refused(_) => true,
        }
    }
}

/// State of a run: the parser of the capture, the number of packets read, the first and the last timestamp, the
/// reassembly pool, the summary, and the lines and packets to write.
#[derive(Drop)]
pub struct Session {
    options: DumpOptions,
    capture: CaptureReader,
    number: u64,
    /// Timestamp of the first packet of the capture that has one, in nanoseconds since 2^63 seconds before 1970.
    first: Option<u128>,
    /// Timestamp of the last packet read that has one, in nanoseconds since 2^63 seconds before 1970; 0 if none has.
    latest: u128,
    pooling: Pooling,
    /// Counts for `--summary`, over all packets read; nothing is counted if no summary is wanted.
    pub summary: Summary,
    /// Capture file that `--write` creates, with the packets added to it that are not yet written.
    pub saving: Saving,
    /// Lines of packets that are built and not yet written.
    pub(crate) output: Vec<u8>,
}

impl Session {
    /// Returns the state of a run before any byte of the capture is read. `keys` are the secret keys of the reassembly
    /// pool's hash, `summary` is whether a summary is wanted (`--summary`), and `saves` whether a capture file is
    /// (`--write`).
    pub fn new(
        alloc: Global,
        options: DumpOptions,
        keys: RandomState,
        summary: bool,
        saves: bool,
    ) -> Result<Session, AllocError>
        ensures new { IfOk result (λ session. IsNew session) }
        ensures options { IfOk result (λ session. session.options ≡ options) }
        ensures summary { IfOk result (λ session. plain_of session.summary ≡ new_summary summary options.quiet) }
        ensures saves { IfOk result (λ session. session.saving.state ≡ new_state saves) }
    {
        let quiet = options.quiet;
        let pooling = Pooling::new(alloc, &options, keys)?;
        Ok(Session {
            options,
            capture: CaptureReader::new(alloc),
            number: 0,
            first: None,
            latest: 0,
            pooling,
            summary: Summary::new(alloc, summary, quiet),
            saving: Saving::new(alloc, saves),
            output: Vec::new(alloc),
        })
    }

    /// Passes the next chunk of the capture to its parser: the `count` bytes of `buffer` from index `start`. The parser
    /// may exchange `buffer` for another one of the same length. Packets in the chunk are not processed yet.
    pub fn take(
        &mut self,
        buffer: &mut Vec<u8>,
        start: usize,
        count: usize,
    ) -> Result<(), AllocError>
        requires fits { taken_by self.old + count < 2 ^ 64 }
        requires within { start + count ≤ vec_len buffer.old }
        ensures processed { OnOk result ((options : DumpOptions) (read : List ℕ) (written : Written) →
            HasProcessed options self.old read written →
            HasProcessed options self.new (read ++ take count (drop start buffer.old.items)) written) }
        ensures taken { OnOk result (taken_by self.new ≡ taken_by self.old + count) }
        ensures counts { Counts self.old → Counts self.new }
        ensures saving { self.new.saving ≡ self.old.saving }
        ensures len { vec_len buffer.new ≡ vec_len buffer.old }
    {
        self.capture.exchange(buffer, start, count)
    }

    /// Processes the complete packets in the bytes read so far, until `--count` packets are read: builds their lines,
    /// counts them in the summary, and adds the selected ones to the capture file (`--write`). Returns the state of the
    /// run after them.
    pub fn drain(&mut self) -> Result<CaptureState, AllocError>
        requires fits { taken_by self.old < 2 ^ 64 }
        requires counts { Counts self.old }
        ensures drains { IfOk result (λ capture_state. (options : DumpOptions) (read : List ℕ) (written : Written) →
            HasProcessed options self.old read written → Drains options self.new capture_state read written) }
        ensures failed { is_failed self.new.saving.state ≡ is_failed self.old.saving.state }
        ensures taken { OnOk result (taken_by self.new ≡ taken_by self.old) }
        ensures counts { OnOk result (Counts self.new) }
    {
        self.output.clear();
        'items: loop {
            if self.number == self.options.most {
                return Ok(CaptureState::Enough);
            }
            match self.capture.advance() {
                Ok(Advance::Packet) => {
                    self.process_packets()?;
                }
                Ok(Advance::Other) => {}
                Ok(Advance::MayEnd) => return Ok(CaptureState::MayEnd),
                Ok(Advance::Cut(error)) => return Ok(CaptureState::Cut(error)),
                Err(error) => return Ok(CaptureState::Refused(error)),
            }
        }
    }

    /// Returns the result of a run that ends in this state of the capture.
    pub fn ending(&self, capture_state: CaptureState) -> Ending
        ensures { result ≡ ending_of capture_state self.now.number }
    {
        match capture_state {
            CaptureState::MayEnd => Ending::Complete,
            CaptureState::Enough => Ending::Enough,
            CaptureState::Cut(error) | CaptureState::Refused(error) => Ending::Broken {
                packets: self.number,
                error,
            },
        }
    }

    /// Stores the counts of reassembled payloads and rejected fragments in the summary, with `--reassemble`.
    pub fn count_pool(&mut self)
        ensures counts { (history : PoolHistory) → HoldsPooling history self.old.pooling →
            CountsFragments self.old.options history (plain_of self.old.summary) (plain_of self.new.summary) }
        ensures saving { self.new.saving ≡ self.old.saving }
    {
        if self.options.reassemble {
            self.summary
                .count_fragments(self.pooling.fragments(&self.options));
        }
    }

    /// Processes the packet that was just parsed, and the packets after it that are complete in the bytes read so far,
    /// until `--count` packets are read. They are decoded into one value, since a new value would be filled with zeros
    /// for each packet. That value borrows from the parser, which therefore leaves the session meanwhile.
    fn process_packets(&mut self) -> Result<(), AllocError>
        requires fits { taken_by self.old < 2 ^ 64 }
        requires counts { self.old.number < reader_offset self.old.capture }
        requires fewer { self.old.number ≢ self.old.options.most }
        ensures processed { OnOk result ((options : DumpOptions) (read : List ℕ) (written : Written) →
            HasParsed options self.old read written →
            HasProcessed options self.new read (with_lines written self.new.output.items)) }
        ensures taken { OnOk result (taken_by self.new ≡ taken_by self.old) }
        ensures counts { OnOk result (Counts self.new) }
        ensures passes { OnOk result (reader_unread self.new.capture ≤ reader_unread self.old.capture) }
        ensures failed { is_failed self.new.saving.state ≡ is_failed self.old.saving.state }
    {
        let alloc = *self.output.allocator();
        let capture = replace(&mut self.capture, CaptureReader::new(alloc));
        let mut shown = capture.shown();
        let mut packet = Decoded::new(CapturedPacket {
            number: self.number,
            first: self.first,
            latest: self.latest,
            shown,
        });
        let mut ahead = 0;
        'packets: loop {
            self.process_packet(&mut packet, shown)?;
            match self.next_packet(&capture, &mut ahead) {
                Some(next) => shown = next,
                None => break,
            }
        }
        self.capture = capture;
        self.capture.advance_past(ahead);
        Ok(())
    }

    /// Returns the packet that starts in `capture` `ahead` bytes after the bytes that were parsed, and adds the length
    /// of its record or block to `ahead`. Returns `None` if it is not complete, or `--count` packets are read.
    #[inline(always)]
    fn next_packet<'a>(&self, capture: &'a CaptureReader, ahead: &mut usize) -> Option<Shown<'a>>
        requires { ahead.old ≤ reader_unread capture.now }
        ensures some { IfSome result (λ shown. AnswersAhead capture.now ahead.old ahead.new (Some shown)) }
        ensures fewer { OnSome result (self.now.number ≢ self.now.options.most) }
        ensures none { IfNone result (ahead.new ≡ ahead.old) }
    {
        if self.number == self.options.most {
            return None;
        }
        capture.next_packet(ahead)
    }

    /// Processes a packet of the capture, decoded into `packet`: adds it to the capture file (`--write`) if it is
    /// selected, counts it, and appends its line, if it is shown, to the pending output. With `--reassemble` further
    /// lines follow if the packet's IP fragment completes a payload or is rejected, or if evictions are reported.
    #[inline(always)]
    fn process_packet<'a>(
        &mut self,
        packet: &mut Decoded<'a>,
        shown: Shown<'a>,
    ) -> Result<(), AllocError>
        requires { self.old.number + 1 < 2 ^ 64 }
        ensures packet { OnOk result ((before : PoolHistory) → HoldsPooling before self.old.pooling →
            ProcessesPacket self.old self.new before (shown_of shown.entry)) }
        ensures capture { self.new.capture ≡ self.old.capture }
        ensures failed { is_failed self.new.saving.state ≡ is_failed self.old.saving.state }
        ensures counts { self.new.number ≤ self.old.number + 1 }
    {
        let this = instant_in(&shown);
        let first = first_after(self.first, this);
        let latest = latest_after(self.latest, this);
        self.number += 1;
        self.first = first;
        self.latest = latest;
        packet.captured = CapturedPacket {
            number: self.number,
            first,
            latest,
            shown,
        };
        packet.decode(&self.options);
        self.saving.save(packet)?;
        self.summary.count(packet)?;
        append_line(&mut self.output, &self.options, packet)?;
        self.pooling
            .reassemble(&mut self.output, &self.options, packet)
    }
}
