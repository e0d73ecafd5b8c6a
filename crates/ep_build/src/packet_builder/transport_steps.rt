//! The builders of frames whose innermost header is a transport header, which the payload follows.

ghost use Rattle.std.specs.Prelude.{◌≡◌, ◌+◌, ◌<◌, ◌≤◌, ◌^◌, ◌++◌, ℕ, List, length, Err, IfErr, OnOk, OnErr, vec_len, vec_capacity};
ghost use Rattle.ep_build.specs.BuildErrors.{IsBuildable, IsBuildError};
ghost use Rattle.ep_build.specs.BuiltFrames.{built_frame, built_size};
ghost use Rattle.ep_build.specs.Placing.{FillsStart};
ghost use Rattle.ep_build.specs.Steps.{StepReadsBack, transport_step_frame};

use super::PacketBuilderStep;
use super::holds_headers::{HoldsHeaders, IsTransport};
use crate::err::{BuildSliceWriteError, BuildWriteError};
use crate::facts::link_fits;
use crate::ip_part::IpPart;
use crate::link_part::LinkPart;
use crate::placing::place_transport_step;
use crate::writing::append_transport_step;

impl<
    Transport: HoldsHeaders<Before = (LinkPart, IpPart), Last = Transport> + IsTransport,
> PacketBuilderStep<Transport> {
    /// Appends the frame (all headers, and the payload) to the buffer. It is an error if the IP packet is too long for
    /// its length field, if the transport header is ICMPv6 after IPv4, or if the buffer cannot grow; the buffer is then
    /// unchanged.
    ///
    /// `SlicedPacket` and `PacketHeaders` read the bytes of the transport header and the payload back from the frame,
    /// except in three cases: the packet is a fragment; it is an ICMPv4 timestamp message or reply that does not have
    /// exactly 20 bytes; or it has a Linux cooked capture header with an unknown packet type.
    #[inline(always)]
    pub fn write(self, buf: &mut Vec<u8>, payload: &[u8]) -> Result<(), BuildWriteError>
        ensures ok { let frame = transport_step_frame Transport.kind self in
            OnOk result (IsBuildable frame (length payload.now)
            × (buf.new.items ≡ buf.old.items ++ built_frame frame payload.now)) }
        ensures err { OnErr result (buf.new.items ≡ buf.old.items) }
        ensures refused { IfErr result
            (IsBuildError (transport_step_frame Transport.kind self) (length payload.now)) }
        ensures read_back { OnOk result (StepReadsBack Transport.kind self payload.now) }
        ensures full { result ≡ Err BuildWriteError.OutOfMemory → vec_capacity buf.old
            < vec_len buf.old + built_size (transport_step_frame Transport.kind self) (length payload.now) }
        ensures capacity { vec_capacity buf.old ≤ vec_capacity buf.new }
    {
        let transport = self.last.into_transport();
        let (link, ip) = self.before;
        append_transport_step(link, ip, transport, payload, buf)
    }

    /// Writes the frame (all headers, and the payload) to the start of the slice, and returns its length in bytes. The
    /// bytes after the frame are unchanged. It is an error if the slice is too short, if the IP packet is too long for
    /// its length field, or if ICMPv6 follows IPv4; the whole slice is then unchanged. It doesn't allocate.
    #[inline(always)]
    pub fn write_to_slice(
        self,
        slice: &mut [u8],
        payload: &[u8],
    ) -> Result<usize, BuildSliceWriteError>
        ensures filled { FillsStart (transport_step_frame Transport.kind self) payload.now slice.old slice.new result }
        ensures read_back { OnOk result (StepReadsBack Transport.kind self payload.now) }
    {
        let transport = self.last.into_transport();
        let (link, ip) = self.before;
        place_transport_step(link, ip, transport, payload, slice)
    }

    /// Length in bytes of the frame with a payload of `payload_size` bytes. The sum must fit a `usize`.
    #[inline(always)]
    pub fn size(&self, payload_size: usize) -> usize
        requires { built_size (transport_step_frame Transport.kind self.now) payload_size < 2 ^ 64 }
        ensures value { result ≡ built_size (transport_step_frame Transport.kind self.now) payload_size }
        ensures frame { (payload : List ℕ) → length payload ≡ payload_size
            → length (built_frame (transport_step_frame Transport.kind self.now) payload) ≡ result }
    {
        link_fits(&self.before.0);
        self.before.0.header_len()
            + self.before.1.header_len()
            + self.last.transport_len()
            + payload_size
    }
}
