//! Whether strict slicing accepts a packet, by the layers that lax slicing read from it.

ghost use Rattle.std.specs.Prelude.{◌≡◌, ◌+◌, ℕ, Bool, true, false, List};
ghost use Rattle.std.specs.Option.{option_map};
ghost use Rattle.ep_base.specs.Bytes.{AreBytes};
ghost use Rattle.ep_transport.specs.TransportParts.{transport_layer_of};
ghost use Rattle.ep_packet.specs.declared.entry.Entry.{Entry};
ghost use Rattle.ep_packet.specs.declared.err.slice_error.SliceError.{SliceError};
ghost use Rattle.ep_packet.specs.Frame.{IsFrame};
ghost use Rattle.ep_packet.specs.FrameRefusals.{RefusesFrame};
ghost use Rattle.ep_lax.specs.Lax.{IsLax};
ghost use Rattle.ep_lax.specs.LaxPackets.{lax_layers_of, net_incomplete};
ghost use Rattle.ep_lax.specs.LaxViews.{lax_extensions_of, lax_net_layer_of};
ghost use Rattle.ep_lax.specs.StrictFrames.{layers_in};
ghost use Rattle.ep_lax.specs.WholeFrames.{are_complete, is_whole_frame, is_whole_net, is_whole_transport};

use crate::lax_link_ext_slice::LaxLinkExtSlice;
use crate::lax_net_slice::LaxNetSlice;
use crate::lax_sliced_packet::LaxSlicedPacket;
use ep_transport::{TransportSlice, UdpHeader};

impl<'a> LaxSlicedPacket<'a> {
    /// Returns true if strict slicing accepts the packet that lax slicing read into this value, with equal layers, and
    /// false if it rejects the packet. Strict slicing accepts a packet if lax slicing did not stop at an error, no byte
    /// of a payload is missing, and the length fields of IPv4 and UDP include their headers. It accepts a UDP length of
    /// 0, which states no length. Of the packet's bytes, only these two length fields are read.
    #[inline]
    pub fn is_frame(&self) -> bool
        ensures frame { (entry : Entry) (bytes : List ℕ) → IsLax entry bytes (lax_layers_of self.now) → result ≡ true
            → IsFrame entry bytes (layers_in (lax_layers_of self.now)) }
        ensures refused { (entry : Entry) (bytes : List ℕ) → AreBytes bytes → IsLax entry bytes (lax_layers_of self.now)
            → result ≡ false → (error : SliceError) × RefusesFrame entry bytes error }
    {
        self.is_whole_frame()
    }

    /// Returns true if lax slicing did not stop at an error, no byte of a payload is missing, and the length fields of
    /// IPv4 and UDP include their headers.
    #[inline(always)]
    fn is_whole_frame(&self) -> bool
        ensures { result ≡ is_whole_frame (lax_layers_of self.now) }
    {
        self.stop_err.is_none()
            && are_complete(self.link_exts.as_slice())
            && is_whole_net(&self.net)
            && is_whole_transport(&self.transport)
    }
}

/// Returns true if no byte of the payload of these VLAN and MACsec tags is missing.
#[inline(always)]
fn are_complete(extensions: &[LaxLinkExtSlice<'_>]) -> bool
    ensures { result ≡ are_complete (lax_extensions_of false extensions.now) }
{
    for extension in extensions {
        if extension.incomplete_in(false) {
            return false;
        }
    }
    true
}

/// Returns true if no byte of the IP payload is missing, and the total length of IPv4 includes the header; true for ARP
/// and without a network layer.
#[inline(always)]
fn is_whole_net(net: &Option<LaxNetSlice<'_>>) -> bool
    ensures { (outer : Bool) → result
        ≡ is_whole_net (option_map lax_net_layer_of net.now) (net_incomplete outer net.now) }
{
    match net {
        Some(LaxNetSlice::Ipv4(packet)) => {
            !packet.payload().incomplete
                && packet.header_len() <= usize::from(packet.header().total_len())
        }
        Some(LaxNetSlice::Ipv6(packet)) => !packet.payload().incomplete,
        Some(LaxNetSlice::Arp(_)) | None => true,
    }
}

/// Returns true if the UDP length is 0, or at least 8 and at most the number of available bytes of header and payload;
/// true for other transport layers, and without one.
#[inline(always)]
fn is_whole_transport(transport: &Option<TransportSlice<'_>>) -> bool
    ensures { result ≡ is_whole_transport (option_map transport_layer_of transport.now) }
{
    match transport {
        Some(TransportSlice::Udp(datagram)) => {
            let length = usize::from(datagram.length());
            length == 0
                || (UdpHeader::LEN <= length && length <= UdpHeader::LEN + datagram.payload().len())
        }
        _ => true,
    }
}
