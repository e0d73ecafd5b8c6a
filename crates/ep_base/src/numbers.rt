//! Header fields that are narrower than their integer type, as number types with a maximum.

mod ip_frag_offset;
mod ipv4_dscp;
mod ipv4_ecn;
mod ipv6_flow_label;
mod macsec_an;
mod macsec_short_len;
mod vlan_id;
mod vlan_pcp;

pub use ip_frag_offset::IpFragOffset;
pub use ipv4_dscp::Ipv4Dscp;
pub use ipv4_ecn::Ipv4Ecn;
pub use ipv6_flow_label::Ipv6FlowLabel;
pub use macsec_an::MacsecAn;
pub use macsec_short_len::MacsecShortLen;
pub use vlan_id::VlanId;
pub use vlan_pcp::VlanPcp;
