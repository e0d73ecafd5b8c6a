//! Appends the file header and the packet records of a capture file.

ghost use Rattle.std.specs.Prelude.{◌≡◌, ◌+◌, ◌<◌, ◌≤◌, ◌^◌, ◌++◌, IfErr, IfOk, None, OnErr, OnOk, length};
ghost use Rattle.std.specs.Prelude.{vec_capacity, vec_len};
ghost use Rattle.ep_base.specs.Bytes.{AreBytes};
ghost use Rattle.ep_base.specs.Tables.{Refuses, first_row};
ghost use Rattle.capture_reader.specs.Classic.{heading_bytes, packet_of, record_bytes};
ghost use Rattle.capture_reader.specs.Numbers.{word16, word32};
ghost use Rattle.capture_reader.specs.Readers.{shown_of};
ghost use Rattle.capture_reader.specs.declared.byte_order.ByteOrder.TheVariants.{Little};
ghost use Rattle.capture_writer.specs.Written.{IsWriteError, IsWritten, packet_bytes, record_of, write_rows};
ghost use Rattle.capture_writer.specs.Written.{written_heading};

use crate::write_error::{WriteError, WriteRefusal};
use capture_reader::packet::MOST_KEPT;
use capture_reader::{Heading, Packet, Record, Shown};
use packet_times::{EPOCH, SECOND, instant_of};
use std::alloc::AllocError;

/// Appends the file header of a capture file (pcap) with this link type, 24 bytes. If the allocation fails, the output
/// is unchanged.
pub fn push_heading(output: &mut Vec<u8>, link_type: u16) -> Result<(), AllocError>
    ensures ok { OnOk result (output.new.items ≡ output.old.items ++ heading_bytes (written_heading link_type)) }
    ensures err { OnErr result (output.new.items ≡ output.old.items) }
    ensures full { OnErr result (vec_capacity output.old < vec_len output.old + 24) }
    ensures capacity { vec_capacity output.old ≤ vec_capacity output.new }
{
    output.reserve(Heading::LEN)?;
    push_word(output, 0xa1b2_3c4d);
    push_half(output, 2);
    push_half(output, 4);
    push_word(output, 0);
    push_word(output, 0);
    push_word(output, MOST_KEPT);
    push_word(output, u32::from(link_type));
    Ok(())
}

/// Appends the record of a packet (16 byte header and captured bytes) to a capture file whose link type is `link_type`.
/// On an error the output is unchanged.
pub fn push_packet(
    output: &mut Vec<u8>,
    link_type: u16,
    shown: &Shown<'_>,
) -> Result<(), WriteError>
    ensures ok { OnOk result (output.new.items ≡ output.old.items ++ packet_bytes (shown_of shown.now)) }
    ensures written { OnOk result (IsWritten link_type (shown_of shown.now)) }
    ensures refused { IfErr result (IsWriteError link_type (shown_of shown.now)) }
    ensures err { OnErr result (output.new.items ≡ output.old.items) }
    ensures full { result ≡ Err WriteError.OutOfMemory → vec_capacity output.old
        < vec_len output.old + (16 + length shown.now.bytes.now) }
    ensures capacity { vec_capacity output.old ≤ vec_capacity output.new }
{
    match record_of(link_type, shown) {
        Ok(packet) => {
            push_record(output, &packet)?;
            Ok(())
        }
        Err(refusal) => Err(WriteError::Refused(refusal)),
    }
}

/// Returns the pcap record of a packet in a capture file of this link type, or the reason why it cannot be written.
fn record_of<'a>(link_type: u16, shown: &Shown<'a>) -> Result<Packet<'a>, WriteRefusal>
    ensures ok { IfOk result (λ packet. packet_of packet ≡ record_of (shown_of shown.now)) }
    ensures written { OnOk result (IsWritten link_type (shown_of shown.now)) }
    ensures bytes { IfOk result (λ packet. packet.bytes.now ≡ shown.now.bytes.now) }
    ensures short { OnOk result (length shown.now.bytes.now ≤ 262144) }
    ensures err { IfErr result (Refuses (write_rows link_type (shown_of shown.now))) }
{
    if shown.link_type != link_type {
        return Err(WriteRefusal::LinkType {
            link_type: shown.link_type,
            wanted: link_type,
        });
    }
    let bytes = shown.bytes;
    if bytes.len() > MOST_KEPT as usize {
        return Err(WriteRefusal::TooLong { len: bytes.len() });
    }
    let Some(time) = shown.time else {
        return Err(WriteRefusal::NoTime);
    };
    let instant = instant_of(time);
    if instant < EPOCH {
        return Err(WriteRefusal::BeforeEpoch);
    }
    let since = instant - EPOCH;
    if since / SECOND >= 0x1_0000_0000 {
        return Err(WriteRefusal::TooLate);
    }
    value_fits(shown.original_len, bytes);
    Ok(Packet {
        seconds: (since / SECOND) as u32,
        fraction: (since % SECOND) as u32,
        original_len: shown.original_len,
        bytes,
    })
}

/// Proves that `original_len` is below 2^32 and that the elements of `bytes` are below 256, as their types guarantee.
/// It has no effect at run time.
#[inline]
fn value_fits(original_len: u32, bytes: &[u8])
    ensures original_len { original_len < 2 ^ 32 }
    ensures bytes { AreBytes bytes.now }
{
    let _ = original_len;
    let _ = bytes;
}

/// Appends a packet's record to a capture file: seconds, nanoseconds, captured length and original length, 4 bytes
/// each, and then the captured bytes. On an error the output is unchanged.
fn push_record(output: &mut Vec<u8>, packet: &Packet<'_>) -> Result<(), AllocError>
    requires { length packet.now.bytes.now ≤ 262144 }
    ensures ok { OnOk result (output.new.items
        ≡ output.old.items ++ record_bytes Little (packet_of packet.now)) }
    ensures err { OnErr result (output.new.items ≡ output.old.items) }
    ensures full { OnErr result (vec_capacity output.old
        < vec_len output.old + (16 + length packet.now.bytes.now)) }
    ensures capacity { vec_capacity output.old ≤ vec_capacity output.new }
{
    let bytes = packet.bytes;
    output.reserve(Record::LEN + bytes.len())?;
    push_word(output, packet.seconds);
    push_word(output, packet.fraction);
    push_word(output, bytes.len() as u32);
    push_word(output, packet.original_len);
    output.extend_from_slice(bytes).unwrap();
    Ok(())
}

/// Appends a 16 bit number in little-endian order to the output, which must have capacity for two more bytes.
#[inline]
#[tactic(auto, unfolding(capture_reader::specs::Numbers::word16))]
fn push_half(output: &mut Vec<u8>, half: u16)
    requires { vec_len output.old + 2 ≤ vec_capacity output.old }
    ensures items { output.new.items ≡ output.old.items ++ word16 Little half }
    ensures len { vec_len output.new ≡ vec_len output.old + 2 }
    ensures capacity { vec_capacity output.old ≤ vec_capacity output.new }
{
    output.extend_from_slice(&half.to_le_bytes()).unwrap();
}

/// Appends a 32 bit number in little-endian order to the output, which must have capacity for four more bytes.
#[inline]
#[tactic(auto, unfolding(capture_reader::specs::Numbers::word32))]
fn push_word(output: &mut Vec<u8>, word: u32)
    requires { vec_len output.old + 4 ≤ vec_capacity output.old }
    ensures items { output.new.items ≡ output.old.items ++ word32 Little word }
    ensures len { vec_len output.new ≡ vec_len output.old + 4 }
    ensures capacity { vec_capacity output.old ≤ vec_capacity output.new }
{
    output.extend_from_slice(&word.to_le_bytes()).unwrap();
}
