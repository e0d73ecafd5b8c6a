//! Conversions from the error of a single layer to `SliceError`, for `?`. The offset in a length error is kept: it is
//! not adjusted by the length of the layers before it.

use crate::err::SliceError;
use ep_base::err::{LenError, ip, ipv4, ipv6, linux_sll, macsec, tcp};

impl From<LenError> for SliceError {
    ghost use Rattle.std.specs.Prelude.{◌≡◌};
    ghost use Rattle.ep_packet.specs.declared.err.slice_error.SliceError.TheVariants.{Len};

    ghost from_gives = { λ error refusal. refusal ≡ Len error };

    fn from(error: LenError) -> SliceError {
        SliceError::Len(error)
    }
}

impl From<linux_sll::HeaderSliceError> for SliceError {
    ghost use Rattle.std.specs.Prelude.{◌≡◌};
    ghost use Rattle.ep_packet.specs.LayerErrors.{of_linux_sll};

    ghost from_gives = { λ error refusal. refusal ≡ of_linux_sll error };

    fn from(error: linux_sll::HeaderSliceError) -> SliceError {
        match error {
            linux_sll::HeaderSliceError::Len(error) => SliceError::Len(error),
            linux_sll::HeaderSliceError::Content(error) => SliceError::LinuxSll(error),
        }
    }
}

impl From<macsec::HeaderSliceError> for SliceError {
    ghost use Rattle.std.specs.Prelude.{◌≡◌};
    ghost use Rattle.ep_packet.specs.LayerErrors.{of_macsec};

    ghost from_gives = { λ error refusal. refusal ≡ of_macsec error };

    fn from(error: macsec::HeaderSliceError) -> SliceError {
        match error {
            macsec::HeaderSliceError::Len(error) => SliceError::Len(error),
            macsec::HeaderSliceError::Content(error) => SliceError::Macsec(error),
        }
    }
}

impl From<ip::SliceError> for SliceError {
    ghost use Rattle.std.specs.Prelude.{◌≡◌};
    ghost use Rattle.ep_packet.specs.LayerErrors.{of_ip};

    ghost from_gives = { λ error refusal. refusal ≡ of_ip error };

    fn from(error: ip::SliceError) -> SliceError {
        match error {
            ip::SliceError::Len(error) => SliceError::Len(error),
            ip::SliceError::IpHeaders(ip::HeadersError::Ip(error)) => SliceError::Ip(error),
            ip::SliceError::IpHeaders(ip::HeadersError::Ipv4Ext(error)) => {
                SliceError::Ipv4Exts(error)
            }
            ip::SliceError::IpHeaders(ip::HeadersError::Ipv6Ext(error)) => {
                SliceError::Ipv6Exts(error)
            }
        }
    }
}

impl From<ipv4::SliceError> for SliceError {
    ghost use Rattle.std.specs.Prelude.{◌≡◌};
    ghost use Rattle.ep_packet.specs.LayerErrors.{of_ipv4};

    ghost from_gives = { λ error refusal. refusal ≡ of_ipv4 error };

    fn from(error: ipv4::SliceError) -> SliceError {
        match error {
            ipv4::SliceError::Len(error) => SliceError::Len(error),
            ipv4::SliceError::Header(error) => SliceError::Ipv4(error),
            ipv4::SliceError::Exts(error) => SliceError::Ipv4Exts(error),
        }
    }
}

impl From<ipv6::SliceError> for SliceError {
    ghost use Rattle.std.specs.Prelude.{◌≡◌};
    ghost use Rattle.ep_packet.specs.LayerErrors.{of_ipv6};

    ghost from_gives = { λ error refusal. refusal ≡ of_ipv6 error };

    fn from(error: ipv6::SliceError) -> SliceError {
        match error {
            ipv6::SliceError::Len(error) => SliceError::Len(error),
            ipv6::SliceError::Header(error) => SliceError::Ipv6(error),
            ipv6::SliceError::Exts(error) => SliceError::Ipv6Exts(error),
        }
    }
}

impl From<tcp::HeaderSliceError> for SliceError {
    ghost use Rattle.std.specs.Prelude.{◌≡◌};
    ghost use Rattle.ep_packet.specs.LayerErrors.{of_tcp};

    ghost from_gives = { λ error refusal. refusal ≡ of_tcp error };

    fn from(error: tcp::HeaderSliceError) -> SliceError {
        match error {
            tcp::HeaderSliceError::Len(error) => SliceError::Len(error),
            tcp::HeaderSliceError::Content(error) => SliceError::Tcp(error),
        }
    }
}
