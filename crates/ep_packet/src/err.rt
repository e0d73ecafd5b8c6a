//! Errors of slicing or decoding a packet, of writing its IP headers, and of setting their next header.

mod headers_write_error;
mod layer_errors;
mod net_set_next_header_error;
mod slice_error;

pub use ep_base::err::{
    ip, ip_auth, ip_exts, ipv4, ipv4_exts, ipv6, ipv6_exts, linux_sll, macsec, tcp,
};
pub use headers_write_error::HeadersWriteError;
pub use net_set_next_header_error::NetSetNextHeaderError;
pub use slice_error::SliceError;
