//! Transport layer in the payload of an IP packet, as lax slicing reads it.

ghost use Rattle.std.specs.Prelude.{◌<◌, ◌^◌, None, IfOk, IfErr, Option};
ghost use Rattle.ep_base.specs.Readings.{headers};
ghost use Rattle.ep_transport.specs.TransportParts.{TransportLayer, IsTransportPart, RefusesTransportPart};
ghost use Rattle.ep_packet.specs.ShownBytes.{ShowsTransport};
ghost use Rattle.ep_lax.specs.Lax.{IsLimitedLaxly, IsLaxTransport};
ghost use Rattle.ep_lax.specs.LaxPackets.{inside_of};
ghost use Rattle.ep_base.specs.IpPayload.{lax_ip_payload_of};
ghost use Rattle.ep_lax.specs.LaxWalk.{IsInIpPayload};

use crate::lax_stop::{clear_stop, error_with_layer};
use ep_base::err::{Layer, tcp};
use ep_base::{IpNumber, LaxIpPayloadSlice};
use ep_packet::err::SliceError;
use ep_transport::{TransportSlice, UdpSlice};

/// Slices the transport layer in an IP payload that starts at `offset` in the packet. Overwrites the transport layer
/// and the error at which slicing stopped. If `stop` is the error of an extension header, it is stored instead, and no
/// transport layer is read.
#[inline(always)]
pub(crate) fn fill_ip_payload<'a>(
    transport: &mut Option<TransportSlice<'a>>,
    stop_err: &mut Option<(SliceError, Layer)>,
    offset: usize,
    payload: &LaxIpPayloadSlice<'a>,
    stop: Option<SliceError>,
)
    requires { offset < 2 ^ 64 }
    ensures inside { IsInIpPayload offset payload.now.incomplete (lax_ip_payload_of payload.now) stop
        (inside_of payload.now.incomplete transport.new stop_err.new) }
    ensures bytes { ShowsTransport payload.now.payload.now transport.new }
{
    match stop {
        None => fill_transport(transport, stop_err, offset, payload),
        Some(error) => {
            *transport = None;
            *stop_err = Some(error_with_layer(error));
        }
    }
}

/// Slices the transport layer in an IP payload that starts at `offset` in the packet, if the payload is not a fragment
/// and its protocol is UDP, TCP, ICMPv4 or ICMPv6. Overwrites the transport layer and the error at which slicing
/// stopped.
#[inline(always)]
fn fill_transport<'a>(
    transport: &mut Option<TransportSlice<'a>>,
    stop_err: &mut Option<(SliceError, Layer)>,
    offset: usize,
    payload: &LaxIpPayloadSlice<'a>,
)
    requires { offset < 2 ^ 64 }
    ensures inside { IsLaxTransport offset payload.now.incomplete (lax_ip_payload_of payload.now)
        (inside_of payload.now.incomplete transport.new stop_err.new) }
    ensures bytes { ShowsTransport payload.now.payload.now transport.new }
{
    let error = match read_transport(payload) {
        Ok(found) => {
            *transport = found;
            return clear_stop(stop_err);
        }
        Err(tcp::HeaderSliceError::Len(error)) => {
            SliceError::Len(error.after_header(offset, payload.len_source))
        }
        Err(tcp::HeaderSliceError::Content(error)) => SliceError::Tcp(error),
    };
    *transport = None;
    *stop_err = Some(error_with_layer(error));
}

/// Parses the transport layer at the start of an IP payload. Returns `None` if the payload is a fragment, or its
/// protocol is not UDP, TCP, ICMPv4 or ICMPv6. An invalid UDP length field is no error.
#[inline(always)]
fn read_transport<'a>(
    payload: &LaxIpPayloadSlice<'a>,
) -> Result<Option<TransportSlice<'a>>, tcp::HeaderSliceError>
    ensures ok { IfOk result (λ part. (read : Option TransportLayer)
        × IsTransportPart headers payload.now.ip_number.0 payload.now.fragmented payload.now.payload.now read
        × IsLimitedLaxly payload.now.incomplete read (inside_of payload.now.incomplete part None)) }
    ensures bytes { IfOk result (ShowsTransport payload.now.payload.now) }
    ensures err { IfErr result
        (RefusesTransportPart headers payload.now.ip_number.0 payload.now.fragmented payload.now.payload.now) }
{
    if payload.fragmented {
        return Ok(None);
    }
    if payload.ip_number == IpNumber::UDP {
        return match UdpSlice::from_slice_lax(payload.payload) {
            Ok(datagram) => Ok(Some(TransportSlice::Udp(datagram))),
            Err(error) => Err(tcp::HeaderSliceError::Len(error)),
        };
    }
    TransportSlice::from_ip_number(payload.ip_number, false, payload.payload)
}
