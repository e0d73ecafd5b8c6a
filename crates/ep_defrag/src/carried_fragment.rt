//! Extraction of the IP fragment that a sliced packet carries: its offset, flag and bytes, and the fields that identify
//! its datagram.

ghost use Rattle.std.specs.Prelude.{◌≡◌};
ghost use Rattle.std.specs.Option.{option_map, option_and_then};
ghost use Rattle.ep_ext.specs.FragmentHeaderSlices.{fragment_slice_header};
ghost use Rattle.ep_ext.specs.Ipv6ExtensionSlices.{ipv6_slice_parts};
ghost use Rattle.ep_ip.specs.Ipv4Slices.{ipv4_slice_header, ipv4_slice_payload};
ghost use Rattle.ep_ip.specs.Ipv6Slices.{ipv6_slice_extensions, ipv6_slice_header, ipv6_slice_payload};
ghost use Rattle.ep_packet.specs.FrameFragments.{first_fragment, ipv4_fragment as fragment_of_ipv4, ipv6_fragment as fragment_of_ipv6};
ghost use Rattle.ep_packet.specs.Layers.{layers_of};
ghost use Rattle.ep_packet.specs.VlanTags.{vlan_ids_in};
ghost use Rattle.ep_defrag.specs.Streams.{packet_fragment};
ghost use Rattle.ep_defrag.specs.Pools.{fragment_in, shown_fragment};

use crate::fragment::Fragment;
use crate::ip_frag_id::IpFragVersionSpecId;
use arrayvec::ArrayVec;
use ep_base::{IpNumber, VlanId};
use ep_ext::{Ipv6ExtensionSlice, Ipv6ExtensionsSlice, Ipv6FragmentHeaderSlice};
use ep_ip::{Ipv4Slice, Ipv6Slice};
use ep_packet::{NetSlice, SlicedPacket};

/// An IP fragment taken from a packet, together with the fields of the packet that identify the datagram the fragment
/// belongs to.
#[derive(Debug, Drop)]
pub(crate) struct CarriedFragment<'a> {
    /// VLAN identifiers of the packet that carries the fragment, at most three, outermost first.
    pub(crate) vlan_ids: ArrayVec<VlanId, 3>,
    /// IP version, source and destination address and fragment identification of the packet that carries the fragment.
    pub(crate) ip: IpFragVersionSpecId,
    /// IP protocol number of the fragmented payload: what the reassembled bytes contain (17 for UDP).
    pub(crate) payload_ip_number: IpNumber,
    /// The fragment itself: its fragment offset, its more-fragments flag and its bytes.
    pub(crate) fragment: Fragment<'a>,
}

/// Returns the fragment that a sliced packet carries, or `None` if the packet is not IP or its payload is not
/// fragmented.
pub(crate) fn carried_fragment<'a>(packet: &SlicedPacket<'a>) -> Option<CarriedFragment<'a>>
    ensures { option_map shown_fragment result ≡ fragment_in packet.now }
{
    match &packet.net {
        Some(NetSlice::Ipv4(ip)) => ipv4_fragment(packet, ip),
        Some(NetSlice::Ipv6(ip)) => ipv6_fragment(packet, ip),
        Some(NetSlice::Arp(_)) | None => None,
    }
}

/// Returns the fragment that an IPv4 packet carries, or `None` if its offset is 0 and its more-fragments flag is not
/// set.
fn ipv4_fragment<'a>(packet: &SlicedPacket<'a>, ip: &Ipv4Slice<'a>) -> Option<CarriedFragment<'a>>
    ensures { option_map shown_fragment result ≡ option_map packet_fragment
        (fragment_of_ipv4 (vlan_ids_in (layers_of packet.now).link_exts)
        (ipv4_slice_header ip.now) (ipv4_slice_payload ip.now)) }
{
    let header = ip.header();
    if !header.is_fragmenting_payload() {
        return None;
    }
    let payload = ip.payload();
    Some(CarriedFragment {
        vlan_ids: packet.vlan_ids(),
        ip: IpFragVersionSpecId::Ipv4 {
            source: header.source(),
            destination: header.destination(),
            identification: header.identification(),
        },
        payload_ip_number: payload.ip_number,
        fragment: Fragment {
            offset: header.fragment_offset(),
            more_fragments: header.more_fragments(),
            payload: payload.payload,
        },
    })
}

/// Returns the fragment that an IPv6 packet carries. It returns `None` if the packet has no fragment header, or if its
/// first fragment header has offset 0 and no more-fragments flag.
fn ipv6_fragment<'a>(packet: &SlicedPacket<'a>, ip: &Ipv6Slice<'a>) -> Option<CarriedFragment<'a>>
    ensures { option_map shown_fragment result ≡ option_map packet_fragment (option_and_then
        (fragment_of_ipv6 (vlan_ids_in (layers_of packet.now).link_exts)
        (ipv6_slice_header ip.now) (ipv6_slice_payload ip.now)) (first_fragment (ipv6_slice_extensions ip.now))) }
{
    let part = first_fragment_header(ip.extensions())?;
    if !part.is_fragmenting_payload() {
        return None;
    }
    let header = ip.header();
    let payload = ip.payload();
    Some(CarriedFragment {
        vlan_ids: packet.vlan_ids(),
        ip: IpFragVersionSpecId::Ipv6 {
            source: header.source(),
            destination: header.destination(),
            identification: part.identification(),
        },
        payload_ip_number: payload.ip_number,
        fragment: Fragment {
            offset: part.fragment_offset(),
            more_fragments: part.more_fragments(),
            payload: payload.payload,
        },
    })
}

/// Returns the first fragment header among the IPv6 extension headers of a packet, or `None` if there is no fragment
/// header.
fn first_fragment_header<'a>(
    extensions: Ipv6ExtensionsSlice<'a>,
) -> Option<Ipv6FragmentHeaderSlice<'a>>
    ensures { option_map fragment_slice_header result ≡ first_fragment (ipv6_slice_parts extensions.entry) }
{
    for extension in extensions {
        if let Ipv6ExtensionSlice::Fragment(header) = extension {
            return Some(header);
        }
    }
    None
}
