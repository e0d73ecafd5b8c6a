//! Flags and options of the TCP header of a frame being built.

ghost use Rattle.std.specs.Prelude.{◌≡◌, ◌<◌, ◌≤◌, ◌^◌, ◌-◌, length, min, true, MatchResult};
ghost use Rattle.ep_transport.specs.TcpOptionBytes.{in_words, options_bytes};
ghost use Rattle.ep_transport.specs.declared.tcp_options.TcpOptionWriteError.TheVariants.{NotEnoughSpace};
ghost use Rattle.ep_build.specs.Steps.{SetsFlag, transport_header, with_header};

use super::PacketBuilderStep;
use ep_transport::{TcpHeader, TcpOptionElement, TcpOptionWriteError};

impl PacketBuilderStep<TcpHeader> {
    /// Sets the TCP flag NS (byte 12, bit 0): the nonce sum of explicit congestion notification (RFC 3540).
    #[inline(always)]
    pub fn ns(mut self) -> PacketBuilderStep<TcpHeader>
        ensures header { result ≡ with_header self (record (transport_header self) { ns = true }) }
        ensures wire { SetsFlag 12 1 (transport_header self) (transport_header result) }
    {
        self.last.ns = true;
        self
    }

    /// Sets the TCP flag FIN (byte 13, bit 0): no more data from the sender.
    #[inline(always)]
    pub fn fin(mut self) -> PacketBuilderStep<TcpHeader>
        ensures header { result ≡ with_header self (record (transport_header self) { fin = true }) }
        ensures wire { SetsFlag 13 1 (transport_header self) (transport_header result) }
    {
        self.last.fin = true;
        self
    }

    /// Sets the TCP flag SYN (byte 13, bit 1): synchronize sequence numbers.
    #[inline(always)]
    pub fn syn(mut self) -> PacketBuilderStep<TcpHeader>
        ensures header { result ≡ with_header self (record (transport_header self) { syn = true }) }
        ensures wire { SetsFlag 13 2 (transport_header self) (transport_header result) }
    {
        self.last.syn = true;
        self
    }

    /// Sets the TCP flag RST (byte 13, bit 2): reset the connection.
    #[inline(always)]
    pub fn rst(mut self) -> PacketBuilderStep<TcpHeader>
        ensures header { result ≡ with_header self (record (transport_header self) { rst = true }) }
        ensures wire { SetsFlag 13 4 (transport_header self) (transport_header result) }
    {
        self.last.rst = true;
        self
    }

    /// Sets the TCP flag PSH (byte 13, bit 3): push buffered data to the application.
    #[inline(always)]
    pub fn psh(mut self) -> PacketBuilderStep<TcpHeader>
        ensures header { result ≡ with_header self (record (transport_header self) { psh = true }) }
        ensures wire { SetsFlag 13 8 (transport_header self) (transport_header result) }
    {
        self.last.psh = true;
        self
    }

    /// Sets the TCP flag ACK (byte 13, bit 4) and the acknowledgment number: the next sequence number that the sender
    /// expects.
    #[inline(always)]
    pub fn ack(mut self, acknowledgment_number: u32) -> PacketBuilderStep<TcpHeader>
        ensures header { result ≡ with_header self (record (transport_header self) {
          ack = true;
          acknowledgment_number = acknowledgment_number;
        }) }
        ensures wire { let before = record (transport_header self) { acknowledgment_number = acknowledgment_number } in
            SetsFlag 13 16 before (transport_header result) }
    {
        self.last.ack = true;
        self.last.acknowledgment_number = acknowledgment_number;
        self
    }

    /// Sets the TCP flag URG (byte 13, bit 5) and the urgent pointer: the end of the urgent data, counted from the
    /// sequence number.
    #[inline(always)]
    pub fn urg(mut self, urgent_pointer: u16) -> PacketBuilderStep<TcpHeader>
        ensures header { result ≡ with_header self (record (transport_header self) {
          urg = true;
          urgent_pointer = urgent_pointer;
        }) }
        ensures wire { let before = record (transport_header self) { urgent_pointer = urgent_pointer } in
            SetsFlag 13 32 before (transport_header result) }
    {
        self.last.urg = true;
        self.last.urgent_pointer = urgent_pointer;
        self
    }

    /// Sets the TCP flag ECE (byte 13, bit 6): congestion was experienced (ECN-Echo, RFC 3168).
    #[inline(always)]
    pub fn ece(mut self) -> PacketBuilderStep<TcpHeader>
        ensures header { result ≡ with_header self (record (transport_header self) { ece = true }) }
        ensures wire { SetsFlag 13 64 (transport_header self) (transport_header result) }
    {
        self.last.ece = true;
        self
    }

    /// Sets the TCP flag CWR (byte 13, bit 7): congestion window reduced (RFC 3168).
    #[inline(always)]
    pub fn cwr(mut self) -> PacketBuilderStep<TcpHeader>
        ensures header { result ≡ with_header self (record (transport_header self) { cwr = true }) }
        ensures wire { SetsFlag 13 128 (transport_header self) (transport_header result) }
    {
        self.last.cwr = true;
        self
    }

    /// Sets the options of the TCP header from option elements: at most 40 bytes, padded with zero bytes to a multiple
    /// of 4. More bytes are an error, which drops the frame built so far.
    #[inline(always)]
    pub fn options(
        self,
        options: &[TcpOptionElement],
    ) -> Result<PacketBuilderStep<TcpHeader>, TcpOptionWriteError>
        ensures { MatchResult result
            (λ step. (length (options_bytes options.now) ≤ 40) × (step
            ≡ with_header self (record (transport_header self) { options = in_words (options_bytes options.now) })))
            (λ error. (40 < length (options_bytes options.now))
            × (error ≡ NotEnoughSpace (min (length (options_bytes options.now)) (2 ^ 64 - 1)))) }
    {
        // Only the header is borrowed, so that the step, with its space for any IP headers, need not be a value in
        // memory.
        let mut header = self.last;
        match header.set_options(options) {
            Ok(()) => Ok(PacketBuilderStep {
                before: self.before,
                last: header,
            }),
            Err(error) => Err(error),
        }
    }

    /// Sets the options of the TCP header from their bytes: at most 40, padded with zero bytes to a multiple of 4. More
    /// bytes are an error, which drops the frame built so far.
    #[inline(always)]
    pub fn options_raw(
        self,
        options: &[u8],
    ) -> Result<PacketBuilderStep<TcpHeader>, TcpOptionWriteError>
        ensures { MatchResult result
            (λ step. (length options.now ≤ 40)
            × (step ≡ with_header self (record (transport_header self) { options = in_words options.now })))
            (λ error. (40 < length options.now) × (error ≡ NotEnoughSpace (length options.now))) }
    {
        // Only the header is borrowed, so that the step, with its space for any IP headers, need not be a value in
        // memory.
        let mut header = self.last;
        match header.set_options_raw(options) {
            Ok(()) => Ok(PacketBuilderStep {
                before: self.before,
                last: header,
            }),
            Err(error) => Err(error),
        }
    }
}
