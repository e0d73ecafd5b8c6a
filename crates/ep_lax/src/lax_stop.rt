//! Errors at which lax slicing of a packet stops, with the layer each is about.

ghost use Rattle.std.specs.Prelude.{◌≡◌, ◌+◌, ◌<◌, ◌^◌, None, Option};
ghost use Rattle.std.specs.Option.{ForSome, option_map};
ghost use Rattle.ep_base.specs.declared.err.ipv6_exts.HeaderSliceError.{HeaderSliceError};
ghost use Rattle.ep_ext.specs.Chains.{ipv4, ipv6, offset_of};
ghost use Rattle.ep_ext.specs.ExtensionParts.{auth_refusal};
ghost use Rattle.ep_ext.specs.ChainPrefixes.{chain_stop};
ghost use Rattle.ep_packet.specs.FrameRefusals.{extension_refusal};
ghost use Rattle.ep_lax.specs.Lax.{chain_refusal};
ghost use Rattle.ep_lax.specs.LaxLayers.{stop_layer, error_with_layer};
ghost use Rattle.ep_lax.specs.LaxWalk.{extension_start};

use ep_base::err::{Layer, ip_auth, ipv6_exts, macsec};
use ep_packet::err::SliceError;

/// Pairs an error at which lax slicing stopped with the layer that it is about.
#[inline]
pub(crate) fn error_with_layer(error: SliceError) -> (SliceError, Layer)
    ensures { result ≡ error_with_layer error }
{
    let layer = stop_layer(&error);
    (error, layer)
}

/// Sets the error at which lax slicing stopped to `None`, in a packet value that is reused. The field is written only
/// if it had an error, which is rare.
#[inline(always)]
pub(crate) fn clear_stop(stop_err: &mut Option<(SliceError, Layer)>)
    ensures { stop_err.new ≡ None }
{
    if stop_err.is_some() {
        *stop_err = None;
    }
}

/// Returns the layer that a packet error is about: the layer that a length error contains, otherwise the header of the
/// error's variant.
fn stop_layer(error: &SliceError) -> Layer
    ensures { result ≡ stop_layer error.now }
{
    match error {
        SliceError::Len(error) => error.layer.clone().unwrap(),
        SliceError::LinuxSll(_) => Layer::LinuxSllHeader,
        SliceError::Macsec(_) => Layer::MacsecHeader,
        SliceError::Ip(_) => Layer::IpHeader,
        SliceError::Ipv4(_) => Layer::Ipv4Header,
        SliceError::Ipv6(_) => Layer::Ipv6Header,
        SliceError::Ipv4Exts(_) => Layer::IpAuthHeader,
        SliceError::Ipv6Exts(ipv6_exts::HeaderError::HopByHopNotAtStart) => Layer::Ipv6ExtHeader,
        SliceError::Ipv6Exts(ipv6_exts::HeaderError::IpAuth(_)) => Layer::IpAuthHeader,
        SliceError::Tcp(_) => Layer::TcpHeader,
    }
}

/// Converts the error of a VLAN or MACsec tag that starts at `offset` in the packet into a packet error: `offset` is
/// added to the offset of a length error.
pub(crate) fn extension_stop(error: macsec::HeaderSliceError, offset: usize) -> SliceError
    requires { extension_start error + offset < 2 ^ 64 }
    ensures { result ≡ extension_refusal offset error }
{
    match error {
        macsec::HeaderSliceError::Len(error) => SliceError::Len(error.add_offset(offset)),
        macsec::HeaderSliceError::Content(error) => SliceError::Macsec(error),
    }
}

/// Converts the error of an authentication header, if any, into a packet error. The IPv4 packet of the header starts at
/// `offset`, which is added to the offset of a length error.
#[inline]
pub(crate) fn auth_stop(
    refused: Option<ip_auth::HeaderSliceError>,
    offset: usize,
) -> Option<SliceError>
    requires { ForSome refused (λ error. offset_of (auth_refusal error) + offset < 2 ^ 64) }
    ensures { result ≡ option_map (chain_refusal ipv4 offset) (option_map auth_refusal refused) }
{
    match refused {
        None => None,
        Some(error) => Some(authentication_stop(error, offset)),
    }
}

/// Converts the error of an authentication header into a packet error. The IPv4 packet of the header starts at
/// `offset`, which is added to the offset of a length error.
#[inline]
fn authentication_stop(error: ip_auth::HeaderSliceError, offset: usize) -> SliceError
    requires { offset_of (auth_refusal error) + offset < 2 ^ 64 }
    ensures { result ≡ chain_refusal ipv4 offset (auth_refusal error) }
{
    match error {
        ip_auth::HeaderSliceError::Len(error) => SliceError::Len(error.add_offset(offset)),
        ip_auth::HeaderSliceError::Content(error) => SliceError::Ipv4Exts(error),
    }
}

/// Converts the error of an IPv6 extension header, if any, into a packet error. The IPv6 packet of the header starts at
/// `offset`, which is added to the offset of a length error.
#[inline]
pub(crate) fn chain_stop(
    refused: Option<(ipv6_exts::HeaderSliceError, Layer)>,
    offset: usize,
) -> Option<SliceError>
    requires { ForSome refused (λ read. offset_of read.0 + offset < 2 ^ 64) }
    ensures { (stop : Option HeaderSliceError) → refused ≡ option_map chain_stop stop
        → result ≡ option_map (chain_refusal ipv6 offset) stop }
{
    match refused {
        None => None,
        Some(read) => Some(exts_stop(read.0, offset)),
    }
}

/// Converts the error of an IPv6 extension header into a packet error. The IPv6 packet of the header starts at
/// `offset`, which is added to the offset of a length error.
#[inline]
fn exts_stop(error: ipv6_exts::HeaderSliceError, offset: usize) -> SliceError
    requires { offset_of error + offset < 2 ^ 64 }
    ensures { result ≡ chain_refusal ipv6 offset error }
{
    match error {
        ipv6_exts::HeaderSliceError::Len(error) => SliceError::Len(error.add_offset(offset)),
        ipv6_exts::HeaderSliceError::Content(error) => SliceError::Ipv6Exts(error),
    }
}
