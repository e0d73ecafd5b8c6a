//! Texts of fields of IPv4, IPv6 and VLAN headers besides their addresses.

ghost use Rattle.std.specs.Prelude.{◌≡◌, ◌++◌, OnOk};
ghost use Rattle.etherparse.specs.Ipv4Slices.{ipv4_header_slice_header};
ghost use Rattle.etherparse.specs.Ipv6Slices.{ipv6_header_slice_header};
ghost use Rattle.etherparse.specs.VlanSlices.{vlan_slice_header};
ghost use Rattle.packet_text.specs.HeaderDetails.{flag_details, ipv4_details, ipv4_fields_text, ipv6_details, ipv6_fields_text};
ghost use Rattle.packet_text.specs.HeaderDetails.{vlan_details, vlan_fields_text};

use etherparse::{Ipv4HeaderSlice, Ipv6HeaderSlice, SingleVlanSlice};
use line_io::decimals;
use std::alloc::AllocError;

/// Appends the time to live, the identification and the "don't fragment" flag of an IPv4 header as text.
pub fn push_ipv4_details(
    output: &mut Vec<u8>,
    header: &Ipv4HeaderSlice<'_>,
) -> Result<(), AllocError>
    ensures { OnOk result (output.new.items ≡ output.old.items ++ ipv4_details (ipv4_header_slice_header header.now)) }
{
    push_ipv4_fields(
        output,
        header.time_to_live(),
        header.identification(),
        header.dont_fragment(),
    )
}

/// Appends the time to live, the identification and, if set, the "don't fragment" flag of an IPv4 header, as ` ttl 64
/// id 7 df`.
#[tactic(auto, unfolding(crate::specs::HeaderDetails::ipv4_fields_text))]
fn push_ipv4_fields(
    output: &mut Vec<u8>,
    time_to_live: u8,
    identification: u16,
    dont_fragment: bool,
) -> Result<(), AllocError>
    ensures { OnOk result (output.new.items
        ≡ output.old.items ++ ipv4_fields_text time_to_live identification dont_fragment) }
{
    decimals::push_with_text(output, b" ttl ", u64::from(time_to_live))?;
    decimals::push_with_text(output, b" id ", u64::from(identification))?;
    push_flag_details(output, dont_fragment, b" df")
}

/// Appends the hop limit and the flow label of an IPv6 header as text.
pub fn push_ipv6_details(
    output: &mut Vec<u8>,
    header: &Ipv6HeaderSlice<'_>,
) -> Result<(), AllocError>
    ensures { OnOk result (output.new.items ≡ output.old.items ++ ipv6_details (ipv6_header_slice_header header.now)) }
{
    push_ipv6_fields(output, header.hop_limit(), header.flow_label().value())
}

/// Appends the hop limit and the flow label of an IPv6 header, as ` hop-limit 64 flow 0`.
#[tactic(auto, unfolding(crate::specs::HeaderDetails::ipv6_fields_text))]
fn push_ipv6_fields(output: &mut Vec<u8>, hop_limit: u8, flow_label: u32) -> Result<(), AllocError>
    ensures { OnOk result (output.new.items ≡ output.old.items ++ ipv6_fields_text hop_limit flow_label) }
{
    decimals::push_with_text(output, b" hop-limit ", u64::from(hop_limit))?;
    decimals::push_with_text(output, b" flow ", u64::from(flow_label))
}

/// Appends the priority (PCP) and the drop eligible indicator (DEI) of a VLAN tag as text.
pub fn push_vlan_details(output: &mut Vec<u8>, tag: &SingleVlanSlice<'_>) -> Result<(), AllocError>
    ensures { OnOk result (output.new.items ≡ output.old.items ++ vlan_details (vlan_slice_header tag.now)) }
{
    push_vlan_fields(output, tag.pcp().value(), tag.drop_eligible_indicator())
}

/// Appends the priority (PCP) and, if set, the drop eligible indicator (DEI) of a VLAN tag, as ` pcp 3 dei`.
#[tactic(auto, unfolding(crate::specs::HeaderDetails::vlan_fields_text))]
fn push_vlan_fields(
    output: &mut Vec<u8>,
    priority: u8,
    drop_eligible: bool,
) -> Result<(), AllocError>
    ensures { OnOk result (output.new.items ≡ output.old.items ++ vlan_fields_text priority drop_eligible) }
{
    decimals::push_with_text(output, b" pcp ", u64::from(priority))?;
    push_flag_details(output, drop_eligible, b" dei")
}

/// Appends `text` if a flag of a header is set, and nothing otherwise.
fn push_flag_details(output: &mut Vec<u8>, set: bool, text: &[u8]) -> Result<(), AllocError>
    ensures { OnOk result (output.new.items ≡ output.old.items ++ flag_details set text.now) }
{
    if set {
        output.extend_from_slice(text)?;
    }
    Ok(())
}
