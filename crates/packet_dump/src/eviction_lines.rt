//! Further lines of `--reassemble`, for incomplete payloads that expire, are evicted or discarded.

ghost use Rattle.std.specs.Prelude.{◌≡◌, ◌++◌, OnOk, Some, ℕ};
ghost use Rattle.std.specs.Option.{option_map};
ghost use Rattle.etherparse.specs.BoundedAnswers.{plain_bounded};
ghost use Rattle.etherparse.specs.IpFragments.{IpFragment};
ghost use Rattle.etherparse.specs.LaxPackets.{lax_layers_of};
ghost use Rattle.etherparse.specs.Types.EvictionCause.TheVariants as cause;
ghost use Rattle.etherparse.specs.Types.IpFragId.{IpFragId};
ghost use Rattle.packet_dump.specs.CarriedFragments.{fragment_in, named_fragment};
ghost use Rattle.packet_dump.specs.Decoding.{packet_of};
ghost use Rattle.packet_dump.specs.EvictionLines.{cause_text, evicted_lines, eviction_line, moment_of, name_text};
ghost use Rattle.packet_dump.specs.EvictionLines.{tags_text, cleared_line, version_text};

use crate::decoded::Decoded;
use crate::dump_options::DumpOptions;
use crate::fragments::carried_fragment;
use crate::packet_lines::push_moment;
use etherparse::VlanId;
use etherparse::defrag::{
    BoundedDefragError, EvictedStream, EvictionCause, IpDefragPayloadVec, IpFragId,
    IpFragVersionSpecId,
};
use line_io::decimals;
use packet_text::addresses::{push_ipv4, push_ipv6};
use packet_text::push_protocol;
use std::alloc::AllocError;

/// Appends the lines of the streams (incomplete payloads) that the reassembly pool evicted or discarded at a packet, if
/// they are shown.
pub fn push_evictions(
    output: &mut Vec<u8>,
    options: &DumpOptions,
    packet: &Decoded<'_>,
    evicted: &[EvictedStream<u64>],
) -> Result<(), AllocError>
    ensures { OnOk result (output.new.items ≡ output.old.items
        ++ evicted_lines options.now (moment_of options.now (packet_of packet.now)) evicted.now) }
{
    for stream in evicted {
        push_eviction(output, options, packet, &stream.id, stream.cause)?;
    }
    Ok(())
}

/// Appends the line of a stream (an incomplete payload) that the reassembly pool evicted or discarded at a packet, if it
/// is shown: the number and the time of the packet, the identifier of the stream, and the cause.
pub fn push_eviction(
    output: &mut Vec<u8>,
    options: &DumpOptions,
    packet: &Decoded<'_>,
    name: &IpFragId<u64>,
    cause: EvictionCause,
) -> Result<(), AllocError>
    ensures { OnOk result (output.new.items ≡ output.old.items
        ++ eviction_line options.now (moment_of options.now (packet_of packet.now)) name.now cause) }
{
    if !options.shows_evictions() {
        return Ok(());
    }
    push_moment(output, options.time, &packet.captured)?;
    push_name(output, name)?;
    output.extend_from_slice(cause_text(cause))
}

/// Appends the line of the stream of a packet's fragment with `--streams 0`, which evicts it, if the line is shown.
/// `answer` is the reassembly pool's result for the fragment; appends nothing unless the payload is still incomplete.
pub fn push_cleared(
    output: &mut Vec<u8>,
    options: &DumpOptions,
    packet: &Decoded<'_>,
    answer: &Result<Option<IpDefragPayloadVec>, BoundedDefragError>,
) -> Result<(), AllocError>
    ensures { OnOk result ((name : IpFragId ℕ) (fragment : IpFragment) →
        Some (name, fragment) ≡ option_map named_fragment (fragment_in (lax_layers_of packet.now.read)) →
        output.new.items ≡ output.old.items ++ cleared_line options.now (moment_of options.now (packet_of packet.now))
        name (plain_bounded answer.now)) }
{
    match answer {
        Ok(None) => push_own_eviction(output, options, packet),
        Ok(Some(_)) | Err(_) => Ok(()),
    }
}

/// Appends the line of the stream of a packet's fragment, which is evicted since there are too many streams, if it is
/// shown.
fn push_own_eviction(
    output: &mut Vec<u8>,
    options: &DumpOptions,
    packet: &Decoded<'_>,
) -> Result<(), AllocError>
    ensures { OnOk result ((name : IpFragId ℕ) (fragment : IpFragment) →
        Some (name, fragment) ≡ option_map named_fragment (fragment_in (lax_layers_of packet.now.read)) →
        output.new.items ≡ output.old.items
        ++ eviction_line options.now (moment_of options.now (packet_of packet.now)) name cause.Streams) }
{
    if !options.shows_evictions() {
        return Ok(());
    }
    match carried_fragment(&packet.read) {
        Some(carried) => {
            push_eviction(
                output,
                options,
                packet,
                &carried.name,
                EvictionCause::Streams,
            )
        }
        None => Ok(()),
    }
}

/// Appends the identifier of a stream: its VLAN identifiers, its addresses, its identification, and the protocol of its
/// payload.
fn push_name(output: &mut Vec<u8>, name: &IpFragId<u64>) -> Result<(), AllocError>
    ensures { OnOk result (output.new.items ≡ output.old.items ++ name_text name.now) }
{
    push_tags(output, name.vlan_ids.as_slice())?;
    push_version(output, &name.ip)?;
    push_protocol(output, name.payload_ip_number)
}

/// Appends the VLAN identifiers of a stream, from the outermost inwards.
fn push_tags(output: &mut Vec<u8>, vlan_ids: &[VlanId]) -> Result<(), AllocError>
    ensures { OnOk result (output.new.items ≡ output.old.items ++ tags_text vlan_ids.now) }
{
    for vlan_id in vlan_ids {
        decimals::push_with_text(output, b" vlan:", u64::from(vlan_id.value()))?;
    }
    Ok(())
}

/// Appends the addresses and the identification of a stream.
fn push_version(output: &mut Vec<u8>, version: &IpFragVersionSpecId) -> Result<(), AllocError>
    ensures { OnOk result (output.new.items ≡ output.old.items ++ version_text version.now) }
{
    match version {
        IpFragVersionSpecId::Ipv4 {
            source,
            destination,
            identification,
        } => {
            output.extend_from_slice(b" ipv4 ")?;
            push_ipv4(output, *source)?;
            output.extend_from_slice(b" > ")?;
            push_ipv4(output, *destination)?;
            decimals::push_with_text(output, b" fragment id ", u64::from(*identification))
        }
        IpFragVersionSpecId::Ipv6 {
            source,
            destination,
            identification,
        } => {
            output.extend_from_slice(b" ipv6 ")?;
            push_ipv6(output, *source)?;
            output.extend_from_slice(b" > ")?;
            push_ipv6(output, *destination)?;
            decimals::push_with_text(output, b" fragment id ", u64::from(*identification))
        }
    }
}

/// Returns the end of the line of a stream that is evicted or discarded for this cause.
fn cause_text(cause: EvictionCause) -> &'static [u8]
    ensures { result.now ≡ cause_text cause }
{
    match cause {
        EvictionCause::Expired => b" expired\n",
        EvictionCause::Overlap => b" discarded: overlap\n",
        EvictionCause::Streams => b" evicted: too many streams\n",
        EvictionCause::Bytes => b" evicted: too many bytes\n",
    }
}
