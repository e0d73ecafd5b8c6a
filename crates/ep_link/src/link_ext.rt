//! Link extensions: VLAN and MACsec tags between the link header and the network layer.

mod double_vlan_header;
mod double_vlan_slice;
mod link_ext_header;
mod link_ext_slice;
mod macsec_header;
mod macsec_header_slice;
mod macsec_payload_slice;
mod macsec_ptype;
mod macsec_slice;
mod single_vlan_header;
mod single_vlan_slice;
mod vlan_header;
mod vlan_slice;

pub use double_vlan_header::DoubleVlanHeader;
pub use double_vlan_slice::DoubleVlanSlice;
pub use link_ext_header::LinkExtHeader;
pub use link_ext_slice::LinkExtSlice;
pub use macsec_header::MacsecHeader;
pub use macsec_header_slice::MacsecHeaderSlice;
pub use macsec_payload_slice::MacsecPayloadSlice;
pub use macsec_ptype::MacsecPType;
pub use macsec_slice::MacsecSlice;
pub use single_vlan_header::SingleVlanHeader;
pub use single_vlan_slice::SingleVlanSlice;
pub use vlan_header::VlanHeader;
pub use vlan_slice::VlanSlice;
