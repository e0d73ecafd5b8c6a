//! Packet read by lax slicing: all layers with valid headers, from the outside in.

use crate::lax_link_ext_slice::LaxLinkExtSlice;
use crate::lax_net_slice::LaxNetSlice;
use crate::lax_sliced_packet_walk::{fill_inside, fill_ip};
use arrayvec::ArrayVec;
use ep_base::EtherType;
use ep_base::err::{Layer, LenError, ip, linux_sll};
use ep_link::LinkSlice;
use ep_packet::err::SliceError;
use ep_packet::{Entry, LinkPart};
use ep_transport::TransportSlice;

/// Packet read by lax slicing: its layers from the outside in, up to the first one whose header is invalid or
/// truncated. A length field above the available bytes is ignored, and so is an IPv4 or UDP length below that of its
/// own header. [`LaxSlicedPacket::is_incomplete`] returns whether bytes of the last payload are missing.
#[derive(Clone, Debug, PartialEq, Eq, Drop)]
pub struct LaxSlicedPacket<'a> {
    /// Link layer of the packet (such as Ethernet II), if any.
    pub link: Option<LinkSlice<'a>>,
    /// Link extensions of the packet (VLAN and MACsec tags), from the outside in, at most three.
    pub link_exts: ArrayVec<LaxLinkExtSlice<'a>, 3>,
    /// Network layer of the packet (IPv4, IPv6 or ARP); `None` if absent, of another type or rejected.
    pub net: Option<LaxNetSlice<'a>>,
    /// Transport layer of the packet (such as UDP or TCP); `None` if absent, of another type, rejected or in a
    /// fragment.
    pub transport: Option<TransportSlice<'a>>,
    /// Error at which lax slicing stopped, and the layer it is about; `None` if each header read is valid and complete,
    /// even if bytes of a payload are missing. The rejected layer comes after the last layer of this packet.
    pub stop_err: Option<(SliceError, Layer)>,
}

impl<'a> LaxSlicedPacket<'a> {
    ghost use Rattle.std.specs.Prelude.{◌≡◌, ◌+◌, ◌<◌, ◌^◌, [], length, IfOk, IfErr, IsOkAnd};
    ghost use Rattle.ep_link.specs.Ethernet2.{RefusesEthernet2};
    ghost use Rattle.ep_link.specs.LinuxSll.{RefusesLinuxSll};
    ghost use Rattle.ep_packet.specs.declared.entry.Entry.TheVariants.{Ethernet as ethernet, LinuxSll as linux_sll, EtherType as of_type, Ip as ip};
    ghost use Rattle.ep_lax.specs.Lax.{IsLax};
    ghost use Rattle.ep_lax.specs.LaxLayers.{LaxLayers, no_lax_layers};
    ghost use Rattle.ep_ip.specs.LaxIp.{RefusesIpHeader};
    ghost use Rattle.ep_lax.specs.LaxRefusals.{RefusesLax};
    ghost use Rattle.ep_lax.specs.LaxPackets.{ShowsLax, lax_layers_of};
    ghost use Rattle.ep_lax.specs.LaxWalk.{IsLaxAfterLink};

    /// Maximum number of link extensions (VLAN and MACsec tags) that lax slicing reads from a packet: 3. Further ones
    /// are left in the payload.
    pub const LINK_EXTS_CAP: usize = 3;

    /// Creates a packet without layers, as a value that [`LaxSlicedPacket::slice_into`] overwrites with the layers it
    /// reads.
    #[inline]
    pub fn new() -> LaxSlicedPacket<'a>
        ensures layers { lax_layers_of result ≡ no_lax_layers }
        ensures empty { result.link_exts.items ≡ [] }
    {
        LaxSlicedPacket {
            link: None,
            link_exts: ArrayVec::new(),
            net: None,
            transport: None,
            stop_err: None,
        }
    }

    /// Slices a packet that begins with an Ethernet II header, as far as its headers are valid. An error in an inner
    /// layer is stored in `stop_err`.
    ///
    /// # Errors
    ///
    /// Returns an error if the slice is too short for the Ethernet II header.
    #[inline]
    pub fn from_ethernet(slice: &'a [u8]) -> Result<LaxSlicedPacket<'a>, LenError>
        ensures ok { IfOk result (λ packet. IsLax ethernet slice.now (lax_layers_of packet)) }
        ensures only { (layers : LaxLayers) → IsLax ethernet slice.now layers
            → IsOkAnd result (λ packet. lax_layers_of packet ≡ layers) }
        ensures bytes { IfOk result (ShowsLax slice.now) }
        ensures err { IfErr result (RefusesEthernet2 slice.now) }
    {
        match LinkPart::ethernet(slice) {
            Ok(part) => Ok(LaxSlicedPacket::of_tag(part)),
            Err(error) => Err(error),
        }
    }

    /// Slices a packet that begins with the header of a Linux cooked capture (SLL v1), as far as its headers are valid.
    /// An error in an inner layer is stored in `stop_err`.
    ///
    /// # Errors
    ///
    /// Returns an error if the SLL header is invalid or truncated.
    #[inline]
    pub fn from_linux_sll(
        slice: &'a [u8],
    ) -> Result<LaxSlicedPacket<'a>, linux_sll::HeaderSliceError>
        ensures ok { IfOk result (λ packet. IsLax linux_sll slice.now (lax_layers_of packet)) }
        ensures only { (layers : LaxLayers) → IsLax linux_sll slice.now layers
            → IsOkAnd result (λ packet. lax_layers_of packet ≡ layers) }
        ensures bytes { IfOk result (ShowsLax slice.now) }
        ensures err { IfErr result (RefusesLinuxSll slice.now) }
    {
        match LinkPart::linux_sll(slice) {
            Ok(part) => Ok(LaxSlicedPacket::of_tag(part)),
            Err(error) => Err(error),
        }
    }

    /// Slices the bytes after a link header, given their ether type, as far as the headers in them are valid. This
    /// never fails; the first error is stored in `stop_err`.
    #[inline]
    pub fn from_ether_type(ether_type: EtherType, slice: &'a [u8]) -> LaxSlicedPacket<'a>
        ensures ok { IsLax (of_type ether_type) slice.now (lax_layers_of result) }
        ensures only { (layers : LaxLayers) → IsLax (of_type ether_type) slice.now layers
            → lax_layers_of result ≡ layers }
        ensures bytes { ShowsLax slice.now result }
    {
        LaxSlicedPacket::of_tag(LinkPart::ether_type(ether_type, slice))
    }

    /// Slices an IPv4 or IPv6 packet without a link layer, as far as its headers are valid. An error after the IP
    /// header is stored in `stop_err`.
    ///
    /// # Errors
    ///
    /// Returns an error if the IP header is invalid or truncated.
    #[inline]
    pub fn from_ip(slice: &'a [u8]) -> Result<LaxSlicedPacket<'a>, ip::LaxHeaderSliceError>
        ensures ok { IfOk result (λ packet. IsLax ip slice.now (lax_layers_of packet)) }
        ensures only { (layers : LaxLayers) → IsLax ip slice.now layers
            → IsOkAnd result (λ packet. lax_layers_of packet ≡ layers) }
        ensures bytes { IfOk result (ShowsLax slice.now) }
        ensures err { IfErr result (RefusesIpHeader slice.now) }
    {
        let mut packet = LaxSlicedPacket::new();
        match packet.fill_ip(slice) {
            Ok(()) => Ok(packet),
            Err(error) => Err(error),
        }
    }

    /// Slices a packet into this value, whose layers are all replaced. `entry` names the header that the bytes start
    /// with. Reusing one value in a hot loop avoids moving the layers. After an error the value has no layers.
    #[inline(always)]
    pub fn slice_into(&mut self, entry: Entry, bytes: &'a [u8]) -> Result<(), SliceError>
        ensures ok { IfOk result (λ _. IsLax entry bytes.now (lax_layers_of self.new)) }
        ensures only { (layers : LaxLayers) → IsLax entry bytes.now layers
            → IsOkAnd result (λ _. lax_layers_of self.new ≡ layers) }
        ensures bytes { IfOk result (λ _. ShowsLax bytes.now self.new) }
        ensures err { IfErr result (RefusesLax entry bytes.now) }
        ensures none { IfErr result (λ _. lax_layers_of self.new ≡ no_lax_layers) }
    {
        if !self.link_exts.is_empty() {
            self.link_exts.clear();
        }
        match self.fill(entry, bytes) {
            Ok(()) => Ok(()),
            Err(error) => {
                self.clear();
                Err(error)
            }
        }
    }

    /// Removes all layers of this packet. Not inlined, because otherwise the new value would be zeroed for each packet.
    #[inline(never)]
    fn clear(&mut self)
        ensures { lax_layers_of self.new ≡ no_lax_layers }
    {
        *self = LaxSlicedPacket::new();
    }

    /// Slices a packet into this value, which must have no link extensions; other layers are replaced. `entry` names
    /// the header that the bytes start with. Only the Ethernet case is inlined into the caller.
    #[inline(always)]
    fn fill(&mut self, entry: Entry, slice: &'a [u8]) -> Result<(), SliceError>
        requires { self.old.link_exts.items ≡ [] }
        ensures ok { IfOk result (λ _. IsLax entry slice.now (lax_layers_of self.new)) }
        ensures bytes { IfOk result (λ _. ShowsLax slice.now self.new) }
        ensures err { IfErr result (RefusesLax entry slice.now) }
    {
        match entry {
            Entry::Ethernet => match LinkPart::ethernet(slice) {
                Ok(part) => {
                    self.fill_from_link(part);
                    Ok(())
                }
                Err(error) => Err(SliceError::Len(error)),
            },
            Entry::LinuxSll => self.fill_linux_sll(slice),
            Entry::EtherType(ether_type) => {
                self.fill_ether_type(ether_type, slice);
                Ok(())
            }
            Entry::Ip => match self.fill_ip(slice) {
                Ok(()) => Ok(()),
                Err(ip::LaxHeaderSliceError::Len(error)) => Err(SliceError::Len(error)),
                Err(ip::LaxHeaderSliceError::Content(error)) => Err(SliceError::Ip(error)),
            },
        }
    }

    /// Slices a packet that begins with the header of a Linux cooked capture (SLL v1) into this value, which must have
    /// no link extensions.
    fn fill_linux_sll(&mut self, slice: &'a [u8]) -> Result<(), SliceError>
        requires { self.old.link_exts.items ≡ [] }
        ensures ok { IfOk result (λ _. IsLax linux_sll slice.now (lax_layers_of self.new)) }
        ensures bytes { IfOk result (λ _. ShowsLax slice.now self.new) }
        ensures err { IfErr result (RefusesLax linux_sll slice.now) }
    {
        match LinkPart::linux_sll(slice) {
            Ok(part) => {
                self.fill_from_link(part);
                Ok(())
            }
            Err(error) => Err(SliceError::from(error)),
        }
    }

    /// Slices the bytes after a link header, given their ether type, into this value, which must have no link
    /// extensions.
    fn fill_ether_type(&mut self, ether_type: EtherType, slice: &'a [u8])
        requires { self.old.link_exts.items ≡ [] }
        ensures ok { IsLax (of_type ether_type) slice.now (lax_layers_of self.new) }
        ensures bytes { ShowsLax slice.now self.new }
    {
        self.fill_from_link(LinkPart::ether_type(ether_type, slice));
    }

    /// Slices an IPv4 or IPv6 packet without a link layer into this value, which must have no link extensions.
    fn fill_ip(&mut self, slice: &'a [u8]) -> Result<(), ip::LaxHeaderSliceError>
        requires { self.old.link_exts.items ≡ [] }
        ensures ok { IfOk result (λ _. IsLax ip slice.now (lax_layers_of self.new)) }
        ensures bytes { IfOk result (λ _. ShowsLax slice.now self.new) }
        ensures err { IfErr result (RefusesIpHeader slice.now) }
    {
        self.link = None;
        fill_ip(
            &mut self.net,
            &mut self.transport,
            &mut self.stop_err,
            slice,
        )
    }

    /// Creates a packet from a parsed link layer, and slices the layers in its payload.
    #[inline(always)]
    fn of_tag(part: LinkPart<'a>) -> LaxSlicedPacket<'a>
        requires { part.offset + length part.slice.now < 2 ^ 64 }
        ensures { IsLaxAfterLink part.entry result }
    {
        let mut packet = LaxSlicedPacket::new();
        packet.fill_from_link(part);
        packet
    }

    /// Stores a parsed link layer in this value, which must have no link extensions, and slices the layers in its
    /// payload.
    #[inline(always)]
    fn fill_from_link(&mut self, part: LinkPart<'a>)
        requires place { part.offset + length part.slice.now < 2 ^ 64 }
        requires empty { self.old.link_exts.items ≡ [] }
        ensures { IsLaxAfterLink part.entry self.new }
    {
        self.link = Some(part.link);
        fill_inside(
            &mut self.link_exts,
            &mut self.net,
            &mut self.transport,
            &mut self.stop_err,
            part.offset,
            part.ether_type,
            part.slice,
        );
    }
}
