//! The builder of a frame that ends with an ARP packet.

ghost use Rattle.std.specs.Prelude.{◌≡◌, ◌+◌, ◌<◌, ◌≤◌, ◌++◌, [], length, IfErr, OnOk, OnErr, vec_len, vec_capacity};
ghost use Rattle.ep_build.specs.BuiltFrames.{built_frame, built_size};
ghost use Rattle.ep_build.specs.Steps.{ArpStepReadsBack, arp_step_frame};

use super::PacketBuilderStep;
use crate::err::BuildWriteError;
use crate::facts::link_fits;
use crate::writing::write_arp;
use ep_link::ArpPacket;

impl PacketBuilderStep<ArpPacket> {
    /// Appends the frame (link header, VLAN tags and ARP packet) to the buffer. The only error is a failed allocation,
    /// if the buffer has to grow; the buffer is then unchanged. `SlicedPacket` and `PacketHeaders` read the ARP packet
    /// back from the frame, unless a Linux cooked capture header has an unknown packet type.
    pub fn write(self, buf: &mut Vec<u8>) -> Result<(), BuildWriteError>
        ensures ok { OnOk result (buf.new.items ≡ buf.old.items ++ built_frame (arp_step_frame self) []) }
        ensures err { OnErr result (buf.new.items ≡ buf.old.items) }
        ensures refused { IfErr result (λ error. error ≡ BuildWriteError.OutOfMemory) }
        ensures read_back { OnOk result (ArpStepReadsBack self) }
        ensures full { OnErr result (vec_capacity buf.old < vec_len buf.old + built_size (arp_step_frame self) 0) }
        ensures capacity { vec_capacity buf.old ≤ vec_capacity buf.new }
    {
        write_arp(&self.before, &self.last, buf)
    }

    /// Length in bytes of the frame that `write` appends: link header, VLAN tags and ARP packet.
    #[inline]
    pub fn size(&self) -> usize
        ensures value { result ≡ built_size (arp_step_frame self.now) 0 }
        ensures frame { length (built_frame (arp_step_frame self.now) []) ≡ result }
    {
        link_fits(&self.before);
        self.before.header_len() + self.last.packet_len()
    }
}
