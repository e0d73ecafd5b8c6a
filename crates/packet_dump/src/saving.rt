//! Writing of the selected packets to a new capture file (`--write`).

ghost use Rattle.std.specs.Prelude.{◌≡◌, ◌<◌, ◌^◌, ◌++◌, [], ◌∷◌, false, ℕ, IfOk, List, OnErr, OnOk};
ghost use Rattle.capture_reader.specs.Readers.{shown_of};
ghost use Rattle.line_io.specs.WatchedWords.{has_failed, inner_of};
ghost use Rattle.packet_dump.specs.DecodedPackets.{DecodedPacket};
ghost use Rattle.packet_dump.specs.Decoding.{content_in, packet_with};
ghost use Rattle.packet_dump.specs.PacketContents.{is_wanted};
ghost use Rattle.packet_dump.specs.Saves.{Closes, Finishes, Flushes, GoesOn, Pushes, asks, file_header_bytes, is_empty};
ghost use Rattle.packet_dump.specs.Saves.{is_failed, is_idle, link_with, new_state};
ghost use Rattle.packet_dump.specs.declared.dump_options.DumpOptions.{DumpOptions};

use crate::decoded::Decoded;
use capture_reader::Shown;
use capture_writer::laws::read_back;
use capture_writer::{WriteError, WriteRefusal, push_heading, push_packet};
use line_io::Watched;
use std::alloc::{AllocError, Global};
use std::io::Write;

/// Link type in the header of a capture file if no packet is selected for it: Ethernet.
const ETHERNET: u16 = 1;

/// Reason why the remaining selected packets are not written to the capture file.
#[derive(Clone, Copy)]
pub enum SaveFault {
    /// A packet cannot be written to the capture file, since it has no timestamp, for example; it and all later packets
    /// are left out.
    Refused {
        /// Number of the packet that cannot be written, counted from 1.
        number: u64,
        /// Reason why the packet cannot be written to the capture file.
        refusal: WriteRefusal,
    },
    /// Writing to the capture file failed.
    Failed,
}

/// State of the capture file that `--write` creates.
#[derive(Clone, Copy)]
pub enum SaveState {
    /// No capture file is written: there is no option `--write`.
    Unasked,
    /// Packets are written to the capture file. The value is the link type of the first packet added, or `None` if no
    /// packet was added yet.
    Open(Option<u16>),
    /// No more packets are written to the capture file, for this reason.
    Stopped(SaveFault),
}

/// Writer of the selected packets to a capture file (`--write`).
#[derive(Drop)]
pub struct Saving {
    pub state: SaveState,
    /// Bytes of the capture file that are built and not yet written.
    pub bytes: Vec<u8>,
}

impl Saving {
    /// Returns the writer of a capture file before any packet; if `wanted` is false, it writes nothing.
    pub fn new(alloc: Global, wanted: bool) -> Saving
        ensures state { result.state ≡ new_state wanted }
        ensures fresh { result.state ≡ new_state (asks result.state) }
        ensures empty { result.bytes.items ≡ [] }
    {
        Saving {
            state: if wanted {
                SaveState::Open(None)
            } else {
                SaveState::Unasked
            },
            bytes: Vec::new(alloc),
        }
    }

    /// Adds a packet to the capture file, if there is one and the packet is selected.
    pub fn save(&mut self, packet: &Decoded<'_>) -> Result<(), AllocError>
        ensures saves { OnOk result ((options : DumpOptions) (packets : List DecodedPacket) (details : List ℕ) →
            packet.now.is_selected ≡ is_wanted options (shown_of packet.now.captured.shown) (content_in packet.now) →
            GoesOn options self.old self.new packets (packets ++ packet_with packet.now details ∷ [])) }
        ensures failed { is_failed self.new.state ≡ is_failed self.old.state }
    {
        match self.state {
            SaveState::Open(link) => {
                if packet.is_selected {
                    read_back();
                    self.push(link, packet.captured.number, &packet.captured.shown)
                } else {
                    Ok(())
                }
            }
            SaveState::Unasked => Ok(()),
            SaveState::Stopped(_) => Ok(()),
        }
    }

    /// Adds a packet to the pending bytes of the capture file, with the file header if it is the first one. If the
    /// packet cannot be written (such as without a timestamp), no later packet is written.
    fn push(&mut self, link: Option<u16>, number: u64, shown: &Shown<'_>) -> Result<(), AllocError>
        ensures pushes { OnOk result (Pushes link self.new.state number (shown_of shown.now) self.old.bytes.items
            self.new.bytes.items) }
        ensures failed { OnOk result (is_failed self.new.state ≡ false) }
        ensures err { OnErr result (self.new.state ≡ self.old.state) }
    {
        let link_type = self.begin(link, shown.link_type)?;
        match push_packet(&mut self.bytes, link_type, shown) {
            Ok(()) => {
                self.state = SaveState::Open(Some(link_type));
                Ok(())
            }
            Err(WriteError::Refused(refusal)) => {
                self.state = SaveState::Stopped(SaveFault::Refused { number, refusal });
                Ok(())
            }
            Err(WriteError::OutOfMemory) => Err(AllocError),
        }
    }

    /// Adds the file header to the pending bytes if the packet is the first of the capture file (`link` is `None`).
    /// Returns the link type of the file.
    fn begin(&mut self, link: Option<u16>, link_type: u16) -> Result<u16, AllocError>
        ensures fits { link_type < 2 ^ 16 }
        ensures link { IfOk result (λ found. found ≡ link_with link link_type) }
        ensures bytes { OnOk result (self.new.bytes.items ≡ self.old.bytes.items ++ file_header_bytes link link_type) }
        ensures state { self.new.state ≡ self.old.state }
    {
        match link {
            Some(first) => Ok(first),
            None => {
                push_heading(&mut self.bytes, link_type)?;
                Ok(link_type)
            }
        }
    }

    /// Writes the pending bytes to the capture file. If writing fails, no more packets are written.
    pub fn flush<F: Write>(&mut self, file: &mut Watched<F>)
        requires sound { has_failed file.old ≡ is_failed self.old.state }
        ensures flushes { Flushes self.old self.new (F.contents (inner_of file.old)) (F.contents (inner_of file.new)) }
        ensures bytes { self.new.bytes.items ≡ [] }
        ensures failed { has_failed file.new ≡ is_failed self.new.state }
    {
        if self.is_idle() {
            self.bytes.clear();
            return;
        }
        self.write(file);
        self.bytes.clear();
    }

    /// Writes the pending bytes to the capture file without clearing them. If writing fails, no more packets are
    /// written.
    fn write<F: Write>(&mut self, file: &mut Watched<F>)
        requires busy { is_idle self.old.state ≡ false }
        requires sound { has_failed file.old ≡ false }
        requires state { is_failed self.old.state ≡ false }
        ensures flushes { Flushes self.old self.new (F.contents (inner_of file.old)) (F.contents (inner_of file.new)) }
        ensures failed { has_failed file.new ≡ is_failed self.new.state }
    {
        match file.write_all(self.bytes.as_slice()) {
            Ok(()) => {}
            Err(_) => self.state = SaveState::Stopped(SaveFault::Failed),
        }
    }

    /// Writes the pending bytes to the capture file at the end of a run, with a file header if no packet was selected.
    /// No packet may be added afterwards.
    pub fn close<F: Write>(&mut self, file: &mut Watched<F>) -> Result<(), AllocError>
        requires sound { has_failed file.old ≡ is_failed self.old.state }
        ensures closes { OnOk result (Closes self.old self.new (F.contents (inner_of file.old))
            (F.contents (inner_of file.new))) }
        ensures err { OnErr result (F.contents (inner_of file.new) ≡ F.contents (inner_of file.old)) }
        ensures failed { has_failed file.new ≡ is_failed self.new.state }
    {
        self.finish()?;
        self.flush(file);
        Ok(())
    }

    /// Adds the file header (link type Ethernet) to the pending bytes if no packet was selected for the capture file.
    fn finish(&mut self) -> Result<(), AllocError>
        ensures finishes { OnOk result (Finishes self.old self.new) }
        ensures state { self.new.state ≡ self.old.state }
    {
        if self.is_empty() {
            push_heading(&mut self.bytes, ETHERNET)
        } else {
            Ok(())
        }
    }

    /// Returns whether nothing can be written to the capture file: there is none, or a write to it failed.
    fn is_idle(&self) -> bool
        ensures value { result ≡ is_idle self.now.state }
        ensures sound { result ≡ false → is_failed self.now.state ≡ false }
    {
        match self.state {
            SaveState::Unasked | SaveState::Stopped(SaveFault::Failed) => true,
            SaveState::Open(_) | SaveState::Stopped(SaveFault::Refused { .. }) => false,
        }
    }

    /// Returns whether there is a capture file, and neither its header nor a packet was added to it so far.
    fn is_empty(&self) -> bool
        ensures { result ≡ is_empty self.now.state }
    {
        match self.state {
            SaveState::Open(None) => true,
            SaveState::Unasked | SaveState::Open(Some(_)) | SaveState::Stopped(_) => false,
        }
    }
}
