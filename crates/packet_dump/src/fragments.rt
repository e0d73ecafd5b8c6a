//! IP fragments in packets that lax slicing read: offset and bytes of a fragment, and the identifier of its stream (the
//! fragments of one datagram).

ghost use Rattle.std.specs.Prelude.{◌≡◌, is_some};
ghost use Rattle.std.specs.Option.{option_and_then, option_map};
ghost use Rattle.etherparse.specs.FragmentHeaderSlices.{fragment_slice_header};
ghost use Rattle.etherparse.specs.FrameFragments.{first_fragment, ipv4_fragment as fragment_of_ipv4};
ghost use Rattle.etherparse.specs.FrameFragments.{ipv6_fragment as fragment_of_ipv6};
ghost use Rattle.etherparse.specs.Ipv6ExtensionSlices.{ipv6_slice_parts};
ghost use Rattle.etherparse.specs.LaxPackets.{lax_layers_of};
ghost use Rattle.etherparse.specs.LaxSlices.{lax_ipv4_slice_header, lax_ipv4_slice_payload, lax_ipv6_slice_extensions};
ghost use Rattle.etherparse.specs.LaxSlices.{lax_ipv6_slice_header, lax_ipv6_slice_payload};
ghost use Rattle.etherparse.specs.StrictFrames.{layers_in};
ghost use Rattle.etherparse.specs.Streams.{packet_fragment};
ghost use Rattle.etherparse.specs.VlanTags.{vlan_ids_in};
ghost use Rattle.packet_dump.specs.CarriedFragments.{fragment_in, named_fragment, plain_carried};

use etherparse::defrag::{Fragment, IpFragId, IpFragVersionSpecId};
use etherparse::{
    Ipv6ExtensionSlice, Ipv6ExtensionsSlice, Ipv6FragmentHeaderSlice, LaxIpv4Slice, LaxIpv6Slice,
    LaxNetSlice, LaxSlicedPacket,
};

/// An IP fragment in a packet, with the identifier of its stream.
#[derive(Drop)]
pub struct Carried<'a> {
    /// Identifier of the stream. All packets use channel 0.
    pub name: IpFragId<u64>,
    /// The fragment: its fragment offset, its more-fragments flag and its bytes.
    pub fragment: Fragment<'a>,
}

/// Returns whether a packet carries an IP fragment: an IP payload with an offset above 0 or with more fragments to come.
/// It is faster than `carried_fragment`, whose result is large.
pub fn carries_fragment(read: &LaxSlicedPacket<'_>) -> bool
    ensures { result ≡ is_some (fragment_in (lax_layers_of read.now)) }
{
    match &read.net {
        Some(LaxNetSlice::Ipv4(ip)) => ip.header().is_fragmenting_payload(),
        Some(LaxNetSlice::Ipv6(ip)) => match first_fragment_header(ip.extensions()) {
            Some(part) => part.is_fragmenting_payload(),
            None => false,
        },
        Some(LaxNetSlice::Arp(_)) | None => false,
    }
}

/// Returns the IP fragment in a packet, or `None` if its payload is not fragmented or it has no IP layer.
pub fn carried_fragment<'a>(read: &LaxSlicedPacket<'a>) -> Option<Carried<'a>>
    ensures { option_map plain_carried result ≡ option_map named_fragment (fragment_in (lax_layers_of read.now)) }
{
    match &read.net {
        Some(LaxNetSlice::Ipv4(ip)) => ipv4_fragment(read, ip),
        Some(LaxNetSlice::Ipv6(ip)) => ipv6_fragment(read, ip),
        Some(LaxNetSlice::Arp(_)) | None => None,
    }
}

/// Returns the fragment in an IPv4 packet, or `None` if its offset is 0 and its more-fragments flag is not set.
fn ipv4_fragment<'a>(read: &LaxSlicedPacket<'a>, ip: &LaxIpv4Slice<'a>) -> Option<Carried<'a>>
    ensures { option_map plain_carried result ≡ option_map named_fragment (option_map packet_fragment
        (fragment_of_ipv4 (vlan_ids_in (layers_in (lax_layers_of read.now)).link_exts)
        (lax_ipv4_slice_header ip.now) (lax_ipv4_slice_payload ip.now))) }
{
    let header = ip.header();
    if !header.is_fragmenting_payload() {
        return None;
    }
    let payload = ip.payload();
    Some(Carried {
        name: IpFragId {
            vlan_ids: read.vlan_ids(),
            ip: IpFragVersionSpecId::Ipv4 {
                source: header.source(),
                destination: header.destination(),
                identification: header.identification(),
            },
            payload_ip_number: payload.ip_number,
            channel_id: 0,
        },
        fragment: Fragment {
            offset: header.fragment_offset(),
            more_fragments: header.more_fragments(),
            payload: payload.payload,
        },
    })
}

/// Returns the fragment in an IPv6 packet. It returns `None` if the packet has no fragment header, or if the first one
/// has offset 0 and no more-fragments flag.
fn ipv6_fragment<'a>(read: &LaxSlicedPacket<'a>, ip: &LaxIpv6Slice<'a>) -> Option<Carried<'a>>
    ensures { option_map plain_carried result ≡ option_map named_fragment (option_map packet_fragment (option_and_then
        (fragment_of_ipv6 (vlan_ids_in (layers_in (lax_layers_of read.now)).link_exts)
        (lax_ipv6_slice_header ip.now) (lax_ipv6_slice_payload ip.now))
        (first_fragment (lax_ipv6_slice_extensions ip.now)))) }
{
    let part = first_fragment_header(ip.extensions())?;
    if !part.is_fragmenting_payload() {
        return None;
    }
    let header = ip.header();
    let payload = ip.payload();
    Some(Carried {
        name: IpFragId {
            vlan_ids: read.vlan_ids(),
            ip: IpFragVersionSpecId::Ipv6 {
                source: header.source(),
                destination: header.destination(),
                identification: part.identification(),
            },
            payload_ip_number: payload.ip_number,
            channel_id: 0,
        },
        fragment: Fragment {
            offset: part.fragment_offset(),
            more_fragments: part.more_fragments(),
            payload: payload.payload,
        },
    })
}

/// Returns the first fragment header among the IPv6 extension headers of a packet, or `None` if there is none.
fn first_fragment_header<'a>(
    extensions: Ipv6ExtensionsSlice<'a>,
) -> Option<Ipv6FragmentHeaderSlice<'a>>
    ensures { option_map fragment_slice_header result ≡ first_fragment (ipv6_slice_parts extensions.entry) }
{
    for extension in extensions {
        if let Ipv6ExtensionSlice::Fragment(header) = extension {
            return Some(header);
        }
    }
    None
}
