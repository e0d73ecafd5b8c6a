//! Laws of parsing link layers, of their constants, and of equality: each is a function whose contract states the law.

ghost use Rattle.std.specs.Prelude.{◌≡◌, ◌↔◌, ◌+◌, ◌++◌, ◌⊎◌, IsTrue, false, ℕ, List, [], length};
ghost use Rattle.std.specs.Ordering.{nat_cmp};
ghost use Rattle.ep_base.specs.Bytes.{AreBytes};
ghost use Rattle.ep_base.specs.NumberComparisons.{DecidesEquality, ClonesExactly};
ghost use Rattle.ep_base.specs.Missing.{ReportsTruncation, ReportsMissing, slice_end};
ghost use Rattle.ep_base.specs.declared.err.len_error.LenError.{LenError};
ghost use Rattle.ep_base.specs.declared.err.linux_sll.HeaderSliceError.TheVariants as sll_error;
ghost use Rattle.ep_base.specs.declared.err.macsec.HeaderSliceError.TheVariants as macsec_error;
ghost use Rattle.ep_base.specs.Tables.{IsDecided};
ghost use Rattle.ep_base.specs.declared.ether_type.EtherType.{EtherType};
ghost use Rattle.ep_base.specs.declared.err.macsec.HeaderSliceError.{HeaderSliceError};
ghost use Rattle.ep_link.specs.Arp.{IsArp, RefusesArp, arp_truncation_limit};
ghost use Rattle.ep_link.specs.Ethernet2.{IsEthernet2, RefusesEthernet2};
ghost use Rattle.ep_link.specs.LinuxSll.{IsLinuxSll, RefusesLinuxSll};
ghost use Rattle.ep_link.specs.LinkExtensions.{BeginsLinkExtension, EncodesTag, IsLinkExtension, LinkExtension};
ghost use Rattle.ep_link.specs.LinkExtensions.{RefusesLinkExtension, extension_header, extension_payload};
ghost use Rattle.ep_link.specs.LinkExtensions.{link_ext_header_len, link_extension_of, vlan};
ghost use Rattle.ep_link.specs.Macsec.{IsMacsecHeader, RefusesMacsecHeader, IsMacsec, RefusesMacsec};
ghost use Rattle.ep_link.specs.declared.link_ext.link_ext_header.LinkExtHeader.TheVariants as header;
ghost use Rattle.ep_link.specs.Vlan.{IsVlan, RefusesVlan, IsDoubleVlan, RefusesDoubleVlan};
ghost use Rattle.ep_link.specs.declared.arp.arp_packet_slice.ArpPacketSlice.{ArpPacketSlice};
ghost use Rattle.ep_link.specs.declared.link.ethernet2_slice.Ethernet2Slice.{Ethernet2Slice};
ghost use Rattle.ep_link.specs.declared.link.linux_sll_slice.LinuxSllSlice.{LinuxSllSlice};
ghost use Rattle.ep_link.specs.declared.link.linux_sll_payload_slice.LinuxSllPayloadSlice.{LinuxSllPayloadSlice};
ghost use Rattle.ep_link.specs.declared.link.link_slice.LinkSlice.{LinkSlice};
ghost use Rattle.ep_link.specs.declared.link_ext.single_vlan_slice.SingleVlanSlice.{SingleVlanSlice};
ghost use Rattle.ep_link.specs.declared.link_ext.double_vlan_slice.DoubleVlanSlice.{DoubleVlanSlice};
ghost use Rattle.ep_link.specs.declared.link_ext.vlan_slice.VlanSlice.{VlanSlice};
ghost use Rattle.ep_link.specs.declared.link_ext.macsec_header_slice.MacsecHeaderSlice.{MacsecHeaderSlice};
ghost use Rattle.ep_link.specs.declared.link_ext.macsec_payload_slice.MacsecPayloadSlice.{MacsecPayloadSlice};
ghost use Rattle.ep_link.specs.declared.link_ext.macsec_slice.MacsecSlice.{MacsecSlice};
ghost use Rattle.ep_link.specs.declared.link_ext.link_ext_slice.LinkExtSlice.{LinkExtSlice};
ghost use Rattle.ep_link.specs.ArpSlices.{arp_of, arp_slice_bytes};
ghost use Rattle.ep_link.specs.Ethernet2Slices.{ethernet2_slice_bytes};
ghost use Rattle.ep_link.specs.LinuxSllSlices.{ShowSameSllPayload, linux_sll_slice_bytes};
ghost use Rattle.ep_link.specs.LinkSlices.{ShowSameLink};
ghost use Rattle.ep_link.specs.LinkExtensions.{ShowSameExtension};
ghost use Rattle.ep_link.specs.MacsecSlices.{ShowSameMacsec, macsec_header_slice_bytes, macsec_payload_of};
ghost use Rattle.ep_link.specs.VlanSlices.{ShowSameDoubleVlan, ShowSameVlan, vlan_slice_bytes};

use crate::err::arp::{ArpHwAddrError, ArpNewError, ArpProtoAddrError};
use crate::{
    ArpHardwareId, ArpOperation, ArpPacket, ArpPacketSlice, DoubleVlanHeader, DoubleVlanSlice,
    Ethernet2Header, Ethernet2Slice, LinkExtHeader, LinkExtSlice, LinkHeader, LinkSlice,
    LinuxSllHeader, LinuxSllPacketType, LinuxSllPayloadSlice, LinuxSllProtocolType, LinuxSllSlice,
    MacsecHeader, MacsecHeaderSlice, MacsecPType, MacsecPayloadSlice, MacsecSlice,
    SingleVlanHeader, SingleVlanSlice, VlanHeader, VlanSlice,
};

/// States that any bytes either parse in exactly one way as an Ethernet II frame (header and payload), or are rejected
/// with exactly one error, and never both.
pub fn ethernet2()
    ensures { (bytes : List ℕ) → AreBytes bytes → IsDecided (IsEthernet2 bytes) (RefusesEthernet2 bytes) }
{}

/// States that any bytes either parse in exactly one way as a packet of a Linux cooked capture (SLL v1 header and
/// payload), or are rejected with exactly one error, and never both.
pub fn linux_sll()
    ensures { (bytes : List ℕ) → AreBytes bytes → IsDecided (IsLinuxSll bytes) (RefusesLinuxSll bytes) }
{}

/// States that any bytes either parse in exactly one way as a VLAN tag and its payload, or are rejected with exactly
/// one error, and never both.
pub fn vlan()
    ensures { (bytes : List ℕ) → AreBytes bytes → IsDecided (IsVlan bytes) (RefusesVlan bytes) }
{}

/// States that any bytes either parse in exactly one way as two successive VLAN tags and a payload, or are rejected
/// with exactly one error, and never both.
pub fn double_vlan()
    ensures { (bytes : List ℕ) → AreBytes bytes → IsDecided (IsDoubleVlan bytes) (RefusesDoubleVlan bytes) }
{}

/// States that any bytes either start with a MACsec tag, whose fields and length the bytes determine, or are rejected
/// with exactly one error, and never both.
pub fn macsec_header()
    ensures { (bytes : List ℕ) → AreBytes bytes → IsDecided (IsMacsecHeader bytes) (RefusesMacsecHeader bytes) }
{}

/// States that any bytes either parse in exactly one way as a MACsec tag, payload and trailing bytes, or are rejected
/// with exactly one error, and never both.
pub fn macsec()
    ensures { (bytes : List ℕ) → AreBytes bytes → IsDecided (IsMacsec bytes) (RefusesMacsec bytes) }
{}

/// States that each ether type either announces a link extension (VLAN or MACsec tag with its payload) or does not. If
/// it does, any bytes either parse in exactly one way as that extension and trailing bytes, or are rejected with
/// exactly one error, and never both. If it does not, no bytes are accepted or rejected as an extension.
pub fn link_extension()
    ensures cases { (type : EtherType) → BeginsLinkExtension type ⊎ (¬ BeginsLinkExtension type) }
    ensures decided { (type : EtherType) (bytes : List ℕ) → AreBytes bytes → BeginsLinkExtension type
        → IsDecided (IsLinkExtension type bytes) (RefusesLinkExtension type bytes) }
    ensures begins { (type : EtherType) (bytes : List ℕ) (part : LinkExtension × List ℕ)
        → IsLinkExtension type bytes part → BeginsLinkExtension type }
    ensures refused { (type : EtherType) (bytes : List ℕ) (error : HeaderSliceError)
        → RefusesLinkExtension type bytes error → BeginsLinkExtension type }
{}

/// States that bytes parsed as a link extension (VLAN or MACsec tag) consist of the tag, its payload and the trailing
/// bytes. The reserved bits of the tag may have any value.
pub fn link_extension_bytes()
    ensures { (type : EtherType) (bytes : List ℕ) (part : LinkExtension × List ℕ) → IsLinkExtension type bytes part
        → (tag : List ℕ) × EncodesTag part.0 tag × (bytes ≡ (tag ++ extension_payload part.0) ++ part.1) }
{}

/// States that the length of bytes parsed as a link extension (VLAN or MACsec tag) is the sum of three lengths: of the
/// tag, of its payload and of the trailing bytes. The fields of the tag determine the tag's length.
pub fn link_extension_len()
    ensures { (type : EtherType) (bytes : List ℕ) (part : LinkExtension × List ℕ) → IsLinkExtension type bytes part
        → length bytes
        ≡ link_ext_header_len (extension_header part.0) + length (extension_payload part.0) + length part.1 }
{}

/// States that a length error of a link layer, VLAN or MACsec tag or ARP packet reports exactly how many bytes are
/// available. Once at least the missing bytes (`required_len` minus `len`) are appended, the check that failed does not
/// fail again.
pub fn missing_bytes()
    ensures ethernet2 { ReportsMissing RefusesEthernet2 }
    ensures linux_sll { ReportsMissing (λ bytes error. RefusesLinuxSll bytes (sll_error.Len error)) }
    ensures vlan { ReportsMissing RefusesVlan }
    ensures macsec_header { ReportsMissing (λ bytes error. RefusesMacsecHeader bytes (macsec_error.Len error)) }
    ensures macsec { ReportsMissing (λ bytes error. RefusesMacsec bytes (macsec_error.Len error)) }
    ensures arp { ReportsMissing RefusesArp }
    ensures link_extension { (type : EtherType)
        → ReportsMissing (λ bytes error. RefusesLinkExtension type bytes (macsec_error.Len error)) }
{}

/// States for each link layer, VLAN and MACsec tags and ARP packets: if a prefix of valid bytes is rejected, the error
/// is a length error. Its offset plus `len` is the length of the prefix, `required_len` is greater than `len`, and
/// offset plus `required_len` is at most the length of the valid bytes. Its `len_source` is `ArpAddrLengths` if the
/// prefix is of an ARP packet and has at least 8 bytes, otherwise `Slice`.
pub fn truncation()
    ensures ethernet2 { ReportsTruncation IsEthernet2 RefusesEthernet2 (λ (error : LenError). error) (λ frame. slice_end) }
    ensures linux_sll { ReportsTruncation IsLinuxSll RefusesLinuxSll sll_error.Len (λ packet. slice_end) }
    ensures vlan { ReportsTruncation IsVlan RefusesVlan (λ (error : LenError). error) (λ tagged. slice_end) }
    ensures macsec_header { ReportsTruncation IsMacsecHeader RefusesMacsecHeader macsec_error.Len (λ read. slice_end) }
    ensures macsec { ReportsTruncation IsMacsec RefusesMacsec macsec_error.Len (λ packet. slice_end) }
    ensures arp { ReportsTruncation IsArp RefusesArp (λ (error : LenError). error) (λ read. arp_truncation_limit 0) }
    ensures link_extension { (type : EtherType)
        → ReportsTruncation (IsLinkExtension type) (RefusesLinkExtension type) macsec_error.Len (λ part. slice_end) }
{}

/// States that the constants for packet types, hardware types and ARP operations have the values that Linux and IANA
/// assign. Also states the lengths of headers in bytes (minimum and maximum for MACsec tags), and the maximum length of
/// an ARP packet.
pub fn constants()
    ensures ethernet2_len { Ethernet2Header.LEN ≡ 14 }

    ensures linux_sll_len { LinuxSllHeader.LEN ≡ 16 }
    ensures host { LinuxSllPacketType.HOST.0 ≡ 0 }
    ensures broadcast { LinuxSllPacketType.BROADCAST.0 ≡ 1 }
    ensures multicast { LinuxSllPacketType.MULTICAST.0 ≡ 2 }
    ensures otherhost { LinuxSllPacketType.OTHERHOST.0 ≡ 3 }
    ensures outgoing { LinuxSllPacketType.OUTGOING.0 ≡ 4 }
    ensures loopback { LinuxSllPacketType.LOOPBACK.0 ≡ 5 }
    ensures user { LinuxSllPacketType.USER.0 ≡ 6 }
    ensures kernel { LinuxSllPacketType.KERNEL.0 ≡ 7 }

    ensures arp_max_len { ArpPacket.MAX_LEN ≡ 1028 }
    ensures ethernet_hardware { ArpHardwareId.ETHERNET.0 ≡ 1 }
    ensures loopback_hardware { ArpHardwareId.LOOPBACK.0 ≡ 772 }
    ensures arp_request { ArpOperation.REQUEST.0 ≡ 1 }
    ensures arp_reply { ArpOperation.REPLY.0 ≡ 2 }

    ensures vlan { SingleVlanHeader.LEN ≡ 4 }
    ensures double_vlan { DoubleVlanHeader.LEN ≡ 8 }
    ensures macsec { (MacsecHeader.MIN_LEN ≡ 6) × (MacsecHeader.MAX_LEN ≡ 16) }
{}

/// States that ARP hardware types (ARPHRD) and ARP operations are ordered numerically.
pub fn comparisons()
    ensures hardware_types { (a b : ArpHardwareId) → ⟦<ArpHardwareId as Ord>⟧.cmp a b ≡ nat_cmp a.0 b.0 }
    ensures operations { (a b : ArpOperation) → ⟦<ArpOperation as Ord>⟧.cmp a b ≡ nat_cmp a.0 b.0 }
{}

/// States when `==` is true for the types of this crate. Headers and errors are equal exactly if all their parts are,
/// and ARP packets compare the bytes of their addresses. Slices are equal exactly if they have the same bytes,
/// including reserved bits. Payloads are equal exactly if their fields are.
pub fn equalities()
    ensures hardware_types { DecidesEquality ⟦<ArpHardwareId as PartialEq>⟧.eq }
    ensures operations { DecidesEquality ⟦<ArpOperation as PartialEq>⟧.eq }
    ensures arp_hw_addr_error { DecidesEquality ⟦<ArpHwAddrError as PartialEq>⟧.eq }
    ensures arp_proto_addr_error { DecidesEquality ⟦<ArpProtoAddrError as PartialEq>⟧.eq }
    ensures arp_new_error { DecidesEquality ⟦<ArpNewError as PartialEq>⟧.eq }
    ensures ethernet2_header { DecidesEquality ⟦<Ethernet2Header as PartialEq>⟧.eq }
    ensures packet_types { DecidesEquality ⟦<LinuxSllPacketType as PartialEq>⟧.eq }
    ensures protocol_types { DecidesEquality ⟦<LinuxSllProtocolType as PartialEq>⟧.eq }
    ensures linux_sll_header { DecidesEquality ⟦<LinuxSllHeader as PartialEq>⟧.eq }
    ensures link_header { DecidesEquality ⟦<LinkHeader as PartialEq>⟧.eq }
    ensures vlan_header { DecidesEquality ⟦<SingleVlanHeader as PartialEq>⟧.eq }
    ensures double_vlan_header { DecidesEquality ⟦<DoubleVlanHeader as PartialEq>⟧.eq }
    ensures vlan_tags { DecidesEquality ⟦<VlanHeader as PartialEq>⟧.eq }
    ensures macsec_ptype { DecidesEquality ⟦<MacsecPType as PartialEq>⟧.eq }
    ensures macsec_header { DecidesEquality ⟦<MacsecHeader as PartialEq>⟧.eq }
    ensures link_ext_header { DecidesEquality ⟦<LinkExtHeader as PartialEq>⟧.eq }
    ensures arp { (a b : ArpPacket) → IsTrue (⟦<ArpPacket as PartialEq>⟧.eq a b) ↔ (arp_of a ≡ arp_of b) }
    ensures arp_slice { (a b : ArpPacketSlice) → IsTrue (⟦<ArpPacketSlice<'static> as PartialEq>⟧.eq a b)
        ↔ (arp_slice_bytes a ≡ arp_slice_bytes b) }
    ensures ethernet2_slice { (a b : Ethernet2Slice) → IsTrue (⟦<Ethernet2Slice<'static> as PartialEq>⟧.eq a b)
        ↔ (ethernet2_slice_bytes a ≡ ethernet2_slice_bytes b) }
    ensures linux_sll_slice { (a b : LinuxSllSlice) → IsTrue (⟦<LinuxSllSlice<'static> as PartialEq>⟧.eq a b)
        ↔ (linux_sll_slice_bytes a ≡ linux_sll_slice_bytes b) }
    ensures linux_sll_payload { (a b : LinuxSllPayloadSlice) →
        IsTrue (⟦<LinuxSllPayloadSlice<'static> as PartialEq>⟧.eq a b) ↔ ShowSameSllPayload a b }
    ensures link_slice { (a b : LinkSlice) → IsTrue (⟦<LinkSlice<'static> as PartialEq>⟧.eq a b) ↔ ShowSameLink a b }
    ensures vlan_slice { (a b : SingleVlanSlice) → IsTrue (⟦<SingleVlanSlice<'static> as PartialEq>⟧.eq a b)
        ↔ (vlan_slice_bytes a ≡ vlan_slice_bytes b) }
    ensures double_vlan_slice { (a b : DoubleVlanSlice) → IsTrue (⟦<DoubleVlanSlice<'static> as PartialEq>⟧.eq a b)
        ↔ ShowSameDoubleVlan a b }
    ensures vlan_tags_slice { (a b : VlanSlice) → IsTrue (⟦<VlanSlice<'static> as PartialEq>⟧.eq a b)
        ↔ ShowSameVlan a b }
    ensures macsec_header_slice { (a b : MacsecHeaderSlice) →
        IsTrue (⟦<MacsecHeaderSlice<'static> as PartialEq>⟧.eq a b)
        ↔ (macsec_header_slice_bytes a ≡ macsec_header_slice_bytes b) }
    ensures macsec_payload { (a b : MacsecPayloadSlice) → IsTrue (⟦<MacsecPayloadSlice<'static> as PartialEq>⟧.eq a b)
        ↔ (macsec_payload_of a ≡ macsec_payload_of b) }
    ensures macsec_slice { (a b : MacsecSlice) → IsTrue (⟦<MacsecSlice<'static> as PartialEq>⟧.eq a b)
        ↔ ShowSameMacsec a b }
    ensures link_ext_slice { (a b : LinkExtSlice) → IsTrue (⟦<LinkExtSlice<'static> as PartialEq>⟧.eq a b)
        ↔ ShowSameExtension a b }
{
    ep_base::laws::equalities();
}

/// States that cloning a header, slice or error of a link layer, VLAN or MACsec tag or ARP packet never fails, and that
/// the clone is equal to its source.
pub fn clones()
    ensures hardware_types { ClonesExactly
        ⟦<ArpHardwareId as Clone>⟧.is_infallible ⟦<ArpHardwareId as Clone>⟧.is_clone }
    ensures operations { ClonesExactly ⟦<ArpOperation as Clone>⟧.is_infallible ⟦<ArpOperation as Clone>⟧.is_clone }
    ensures arp_hw_addr_error { ClonesExactly
        ⟦<ArpHwAddrError as Clone>⟧.is_infallible ⟦<ArpHwAddrError as Clone>⟧.is_clone }
    ensures arp_proto_addr_error { ClonesExactly
        ⟦<ArpProtoAddrError as Clone>⟧.is_infallible ⟦<ArpProtoAddrError as Clone>⟧.is_clone }
    ensures arp_new_error { ClonesExactly ⟦<ArpNewError as Clone>⟧.is_infallible ⟦<ArpNewError as Clone>⟧.is_clone }
    ensures ethernet2_header { ClonesExactly
        ⟦<Ethernet2Header as Clone>⟧.is_infallible ⟦<Ethernet2Header as Clone>⟧.is_clone }
    ensures packet_types { ClonesExactly
        ⟦<LinuxSllPacketType as Clone>⟧.is_infallible ⟦<LinuxSllPacketType as Clone>⟧.is_clone }
    ensures protocol_types { ClonesExactly
        ⟦<LinuxSllProtocolType as Clone>⟧.is_infallible ⟦<LinuxSllProtocolType as Clone>⟧.is_clone }
    ensures linux_sll_header { ClonesExactly
        ⟦<LinuxSllHeader as Clone>⟧.is_infallible ⟦<LinuxSllHeader as Clone>⟧.is_clone }
    ensures link_header { ClonesExactly ⟦<LinkHeader as Clone>⟧.is_infallible ⟦<LinkHeader as Clone>⟧.is_clone }
    ensures vlan_header { ClonesExactly
        ⟦<SingleVlanHeader as Clone>⟧.is_infallible ⟦<SingleVlanHeader as Clone>⟧.is_clone }
    ensures double_vlan_header { ClonesExactly
        ⟦<DoubleVlanHeader as Clone>⟧.is_infallible ⟦<DoubleVlanHeader as Clone>⟧.is_clone }
    ensures vlan_tags { ClonesExactly ⟦<VlanHeader as Clone>⟧.is_infallible ⟦<VlanHeader as Clone>⟧.is_clone }
    ensures macsec_ptype { ClonesExactly ⟦<MacsecPType as Clone>⟧.is_infallible ⟦<MacsecPType as Clone>⟧.is_clone }
    ensures macsec_header { ClonesExactly ⟦<MacsecHeader as Clone>⟧.is_infallible ⟦<MacsecHeader as Clone>⟧.is_clone }
    ensures link_ext_header { ClonesExactly
        ⟦<LinkExtHeader as Clone>⟧.is_infallible ⟦<LinkExtHeader as Clone>⟧.is_clone }
    ensures arp { ClonesExactly ⟦<ArpPacket as Clone>⟧.is_infallible ⟦<ArpPacket as Clone>⟧.is_clone }
    ensures arp_slice { ClonesExactly
        ⟦<ArpPacketSlice<'static> as Clone>⟧.is_infallible ⟦<ArpPacketSlice<'static> as Clone>⟧.is_clone }
    ensures ethernet2_slice { ClonesExactly
        ⟦<Ethernet2Slice<'static> as Clone>⟧.is_infallible ⟦<Ethernet2Slice<'static> as Clone>⟧.is_clone }
    ensures linux_sll_slice { ClonesExactly
        ⟦<LinuxSllSlice<'static> as Clone>⟧.is_infallible ⟦<LinuxSllSlice<'static> as Clone>⟧.is_clone }
    ensures linux_sll_payload { ClonesExactly
        ⟦<LinuxSllPayloadSlice<'static> as Clone>⟧.is_infallible ⟦<LinuxSllPayloadSlice<'static> as Clone>⟧.is_clone }
    ensures link_slice { ClonesExactly
        ⟦<LinkSlice<'static> as Clone>⟧.is_infallible ⟦<LinkSlice<'static> as Clone>⟧.is_clone }
    ensures vlan_slice { ClonesExactly
        ⟦<SingleVlanSlice<'static> as Clone>⟧.is_infallible ⟦<SingleVlanSlice<'static> as Clone>⟧.is_clone }
    ensures double_vlan_slice { ClonesExactly
        ⟦<DoubleVlanSlice<'static> as Clone>⟧.is_infallible ⟦<DoubleVlanSlice<'static> as Clone>⟧.is_clone }
    ensures vlan_tags_slice { ClonesExactly
        ⟦<VlanSlice<'static> as Clone>⟧.is_infallible ⟦<VlanSlice<'static> as Clone>⟧.is_clone }
    ensures macsec_header_slice { ClonesExactly
        ⟦<MacsecHeaderSlice<'static> as Clone>⟧.is_infallible ⟦<MacsecHeaderSlice<'static> as Clone>⟧.is_clone }
    ensures macsec_payload { ClonesExactly
        ⟦<MacsecPayloadSlice<'static> as Clone>⟧.is_infallible ⟦<MacsecPayloadSlice<'static> as Clone>⟧.is_clone }
    ensures macsec_slice { ClonesExactly
        ⟦<MacsecSlice<'static> as Clone>⟧.is_infallible ⟦<MacsecSlice<'static> as Clone>⟧.is_clone }
    ensures link_ext_slice { ClonesExactly
        ⟦<LinkExtSlice<'static> as Clone>⟧.is_infallible ⟦<LinkExtSlice<'static> as Clone>⟧.is_clone }
{}

/// Returns the default of `LinkExtHeader` and that of `LinkExtSlice`: both are a VLAN tag of four zero bytes, the
/// latter with an empty payload.
pub fn link_ext_defaults() -> (LinkExtHeader, LinkExtSlice<'static>)
    ensures header { result.0 ≡ header.Vlan
        (record { pcp = 0; drop_eligible_indicator = false; vlan_id = 0; ether_type = record { 0 = 0 } }) }
    ensures slice { link_extension_of result.1 ≡ vlan
        (record { pcp = 0; drop_eligible_indicator = false; vlan_id = 0; ether_type = record { 0 = 0 } }) [] }
{
    (LinkExtHeader::default(), LinkExtSlice::default())
}

/// States that any bytes either start with an ARP packet, whose fields and length the bytes determine, or are rejected
/// with exactly one error, and never both.
pub fn arp()
    ensures { (bytes : List ℕ) → AreBytes bytes → IsDecided (IsArp bytes) (RefusesArp bytes) }
{}
