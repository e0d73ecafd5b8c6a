//! Laws that compare the two parsers, `SlicedPacket` (slicing) and `PacketHeaders` (decoding into owned headers). Each
//! law is the contract of a function without effect.

ghost use Rattle.std.specs.Prelude.{◌≡◌, ◌⊎◌, ℕ, List};
ghost use Rattle.ep_base.specs.Bytes.{AreBytes};
ghost use Rattle.ep_base.specs.Readings.{headers};
ghost use Rattle.ep_packet.specs.Frame.{IsFrame, IsFrameIn, most_link_exts};
ghost use Rattle.ep_packet.specs.Layers.{Layers};
ghost use Rattle.ep_packet.specs.FrameRefusals.{RefusesFrame, RefusesFrameIn};
ghost use Rattle.ep_packet.specs.TwoParsers.{Agree, HasNoSecondKind, IsUdpLengthRefusal, StopsAtSecondKind};

use crate::entry::Entry;
use crate::err::SliceError;
use crate::packet_headers::PacketHeaders;

/// States that `PacketHeaders` accepts all bytes that `SlicedPacket` accepts, and decodes them to equal headers in all
/// layers, unless an IPv6 extension header of one kind occurs twice. The payload of the last layer is equal too, except
/// that only `SlicedPacket` limits a UDP payload by the UDP length field.
pub fn two_parsers()
    ensures { (entry : Entry) (bytes : List ℕ) (layers : Layers) → IsFrame entry bytes layers
        → HasNoSecondKind layers.net → (other : Layers) × IsFrameIn headers entry bytes other × Agree layers other }
{
    ep_ext::laws::chains::chain_without_second_kind();
}

/// States that `SlicedPacket` rejects all bytes that `PacketHeaders` rejects, with an equal error. If `SlicedPacket`
/// alone rejects bytes, its error is about the UDP length field, which `PacketHeaders` ignores, or there is a second
/// IPv6 extension header of one kind, before which `PacketHeaders` stops.
pub fn refuse_alike()
    ensures headers { (entry : Entry) (bytes : List ℕ) (error : SliceError) → RefusesFrameIn headers entry bytes error
        → RefusesFrame entry bytes error }
    ensures slices { (entry : Entry) (bytes : List ℕ) → AreBytes bytes → (error : SliceError)
        → RefusesFrame entry bytes error → (layers : Layers) → IsFrameIn headers entry bytes layers
        → IsUdpLengthRefusal error ⊎ StopsAtSecondKind layers.net }
{
    ep_ext::laws::chains::chain_of_headers();
    ep_transport::laws::transport_of_headers();
}

/// States that `PacketHeaders::LINK_EXTS_CAP` is 3, and equals the greatest number of link extensions in the
/// specification of frames.
pub fn constants()
    ensures value { PacketHeaders.LINK_EXTS_CAP ≡ 3 }
    ensures cap { PacketHeaders.LINK_EXTS_CAP ≡ most_link_exts }
{}
