//! Formatting of ICMPv4 and ICMPv6 messages as text of a packet's line.

ghost use Rattle.std.specs.Prelude.{◌≡◌, ◌++◌, OnOk};
ghost use Rattle.std.specs.Option.{option_copied};
ghost use Rattle.packet_text.specs.IcmpTexts.{code_text, echo_text, exceeded_name, icmpv4_code_name, icmpv4_content_text};
ghost use Rattle.packet_text.specs.IcmpTexts.{icmpv4_problem_name, icmpv4_redirect_name, icmpv4_text, icmpv4_type_name};
ghost use Rattle.packet_text.specs.IcmpTexts.{icmpv4_unreachable_name, icmpv6_code_name, icmpv6_content_text};
ghost use Rattle.packet_text.specs.IcmpTexts.{icmpv6_error_name, icmpv6_further_name, icmpv6_neighbor_name, icmpv6_problem_name};
ghost use Rattle.packet_text.specs.IcmpTexts.{icmpv6_text, icmpv6_type_name, icmpv6_unreachable_name, message_type_text};

use crate::addresses::push_ipv4;
use etherparse::{IcmpEchoHeader, Icmpv4Type, Icmpv6Type};
use line_io::decimals;
use std::alloc::AllocError;

/// Appends an ICMPv4 message to a packet's line: its type, its code, and further fields such as the identifier of an
/// echo.
pub fn push_icmpv4(output: &mut Vec<u8>, message: &Icmpv4Type) -> Result<(), AllocError>
    ensures { OnOk result (output.new.items ≡ output.old.items ++ icmpv4_text message.now) }
{
    let type_u8 = message.type_u8();
    let code_u8 = message.code_u8();
    output.extend_from_slice(b" icmpv4")?;
    push_message_type(output, icmpv4_type_name(type_u8), type_u8)?;
    push_code(output, icmpv4_code_name(type_u8, code_u8), code_u8)?;
    push_icmpv4_content(output, message)
}

/// Appends an ICMPv6 message to a packet's line: its type, its code, and further fields such as the identifier of an
/// echo.
pub fn push_icmpv6(output: &mut Vec<u8>, message: &Icmpv6Type) -> Result<(), AllocError>
    ensures { OnOk result (output.new.items ≡ output.old.items ++ icmpv6_text message.now) }
{
    let type_u8 = message.type_u8();
    let code_u8 = message.code_u8();
    output.extend_from_slice(b" icmpv6")?;
    push_message_type(output, icmpv6_type_name(type_u8), type_u8)?;
    push_code(output, icmpv6_code_name(type_u8, code_u8), code_u8)?;
    push_icmpv6_content(output, message)
}

/// Appends the name of an ICMP message type, or ` type N` if the type has no name.
fn push_message_type(
    output: &mut Vec<u8>,
    name: Option<&'static str>,
    type_u8: u8,
) -> Result<(), AllocError>
    ensures { OnOk result (output.new.items
        ≡ output.old.items ++ message_type_text (option_copied name.entry) type_u8) }
{
    match name {
        Some(name) => {
            output.push(b' ')?;
            output.extend_from_slice(name.as_bytes())
        }
        None => decimals::push_with_text(output, b" type ", u64::from(type_u8)),
    }
}

/// Appends the name of an ICMP message code, or ` code N` if the code has no name; code 0 without a name is left out.
fn push_code(
    output: &mut Vec<u8>,
    name: Option<&'static str>,
    code_u8: u8,
) -> Result<(), AllocError>
    ensures { OnOk result (output.new.items ≡ output.old.items ++ code_text (option_copied name.entry) code_u8) }
{
    match name {
        Some(name) => {
            output.push(b' ')?;
            output.extend_from_slice(name.as_bytes())
        }
        None if code_u8 == 0 => Ok(()),
        None => decimals::push_with_text(output, b" code ", u64::from(code_u8)),
    }
}

/// Returns the name of an ICMPv4 message type, such as `echo-request`, or `None` if it has none.
fn icmpv4_type_name(type_u8: u8) -> Option<&'static str>
    ensures { option_copied result ≡ icmpv4_type_name type_u8 }
{
    match type_u8 {
        0 => Some("echo-reply"),
        3 => Some("destination-unreachable"),
        4 => Some("source-quench"),
        5 => Some("redirect"),
        8 => Some("echo-request"),
        9 => Some("router-advertisement"),
        10 => Some("router-solicitation"),
        11 => Some("time-exceeded"),
        12 => Some("parameter-problem"),
        13 => Some("timestamp-request"),
        14 => Some("timestamp-reply"),
        17 => Some("address-mask-request"),
        18 => Some("address-mask-reply"),
        40 => Some("photuris"),
        42 => Some("extended-echo-request"),
        43 => Some("extended-echo-reply"),
        _ => None,
    }
}

/// Returns the name of a code of an ICMPv4 message type, or `None` if it has none.
fn icmpv4_code_name(type_u8: u8, code_u8: u8) -> Option<&'static str>
    ensures { option_copied result ≡ icmpv4_code_name type_u8 code_u8 }
{
    match type_u8 {
        3 => icmpv4_unreachable_name(code_u8),
        5 => icmpv4_redirect_name(code_u8),
        11 => exceeded_name(code_u8),
        12 => icmpv4_problem_name(code_u8),
        _ => None,
    }
}

/// Returns the name of a code of Destination Unreachable (ICMPv4 type 3), or `None` for an unknown code.
fn icmpv4_unreachable_name(code_u8: u8) -> Option<&'static str>
    ensures { option_copied result ≡ icmpv4_unreachable_name code_u8 }
{
    match code_u8 {
        0 => Some("network"),
        1 => Some("host"),
        2 => Some("protocol"),
        3 => Some("port"),
        4 => Some("fragmentation-needed"),
        5 => Some("source-route-failed"),
        6 => Some("network-unknown"),
        7 => Some("host-unknown"),
        8 => Some("source-isolated"),
        9 => Some("network-prohibited"),
        10 => Some("host-prohibited"),
        11 => Some("network-service"),
        12 => Some("host-service"),
        13 => Some("prohibited"),
        14 => Some("precedence-violation"),
        15 => Some("precedence-cutoff"),
        _ => None,
    }
}

/// Returns the name of a code of Redirect (ICMPv4 type 5), or `None` for an unknown code.
fn icmpv4_redirect_name(code_u8: u8) -> Option<&'static str>
    ensures { option_copied result ≡ icmpv4_redirect_name code_u8 }
{
    match code_u8 {
        0 => Some("network"),
        1 => Some("host"),
        2 => Some("network-service"),
        3 => Some("host-service"),
        _ => None,
    }
}

/// Returns the name of a code of Parameter Problem (ICMPv4 type 12), or `None` for an unknown code.
fn icmpv4_problem_name(code_u8: u8) -> Option<&'static str>
    ensures { option_copied result ≡ icmpv4_problem_name code_u8 }
{
    match code_u8 {
        0 => Some("pointer"),
        1 => Some("missing-option"),
        2 => Some("bad-length"),
        _ => None,
    }
}

/// Returns the name of a code of Time Exceeded (ICMPv4 type 11, ICMPv6 type 3), or `None` for an unknown code.
fn exceeded_name(code_u8: u8) -> Option<&'static str>
    ensures { option_copied result ≡ exceeded_name code_u8 }
{
    match code_u8 {
        0 => Some("in-transit"),
        1 => Some("reassembly"),
        _ => None,
    }
}

/// Returns the name of an ICMPv6 message type, such as `echo-request`, or `None` if it has none.
fn icmpv6_type_name(type_u8: u8) -> Option<&'static str>
    ensures { option_copied result ≡ icmpv6_type_name type_u8 }
{
    if type_u8 < 128 {
        icmpv6_error_name(type_u8)
    } else if type_u8 < 144 {
        icmpv6_neighbor_name(type_u8)
    } else {
        icmpv6_further_name(type_u8)
    }
}

/// Returns the name of an ICMPv6 error message type (below 128), or `None` if it has none.
fn icmpv6_error_name(type_u8: u8) -> Option<&'static str>
    ensures { option_copied result ≡ icmpv6_error_name type_u8 }
{
    match type_u8 {
        1 => Some("destination-unreachable"),
        2 => Some("packet-too-big"),
        3 => Some("time-exceeded"),
        4 => Some("parameter-problem"),
        _ => None,
    }
}

/// Returns the name of an ICMPv6 informational message type from 128 to 143, or `None` if it has none.
fn icmpv6_neighbor_name(type_u8: u8) -> Option<&'static str>
    ensures { option_copied result ≡ icmpv6_neighbor_name type_u8 }
{
    match type_u8 {
        128 => Some("echo-request"),
        129 => Some("echo-reply"),
        130 => Some("listener-query"),
        131 => Some("listener-report"),
        132 => Some("listener-done"),
        133 => Some("router-solicitation"),
        134 => Some("router-advertisement"),
        135 => Some("neighbor-solicitation"),
        136 => Some("neighbor-advertisement"),
        137 => Some("redirect"),
        141 => Some("inverse-neighbor-solicitation"),
        142 => Some("inverse-neighbor-advertisement"),
        143 => Some("listener-report-v2"),
        _ => None,
    }
}

/// Returns the name of an ICMPv6 informational message type from 144 on, or `None` if it has none.
fn icmpv6_further_name(type_u8: u8) -> Option<&'static str>
    ensures { option_copied result ≡ icmpv6_further_name type_u8 }
{
    match type_u8 {
        144 => Some("home-agent-address-request"),
        145 => Some("home-agent-address-reply"),
        146 => Some("mobile-prefix-solicitation"),
        147 => Some("mobile-prefix-advertisement"),
        148 => Some("certification-path-solicitation"),
        149 => Some("certification-path-advertisement"),
        151 => Some("multicast-router-advertisement"),
        152 => Some("multicast-router-solicitation"),
        153 => Some("multicast-router-termination"),
        160 => Some("extended-echo-request"),
        161 => Some("extended-echo-reply"),
        _ => None,
    }
}

/// Returns the name of a code of an ICMPv6 message type, or `None` if it has none.
fn icmpv6_code_name(type_u8: u8, code_u8: u8) -> Option<&'static str>
    ensures { option_copied result ≡ icmpv6_code_name type_u8 code_u8 }
{
    match type_u8 {
        1 => icmpv6_unreachable_name(code_u8),
        3 => exceeded_name(code_u8),
        4 => icmpv6_problem_name(code_u8),
        _ => None,
    }
}

/// Returns the name of a code of Destination Unreachable (ICMPv6 type 1), or `None` for an unknown code.
fn icmpv6_unreachable_name(code_u8: u8) -> Option<&'static str>
    ensures { option_copied result ≡ icmpv6_unreachable_name code_u8 }
{
    match code_u8 {
        0 => Some("no-route"),
        1 => Some("prohibited"),
        2 => Some("beyond-scope"),
        3 => Some("address"),
        4 => Some("port"),
        5 => Some("source-policy"),
        6 => Some("reject-route"),
        7 => Some("source-routing-header"),
        _ => None,
    }
}

/// Returns the name of a code of Parameter Problem (ICMPv6 type 4), or `None` for an unknown code.
fn icmpv6_problem_name(code_u8: u8) -> Option<&'static str>
    ensures { option_copied result ≡ icmpv6_problem_name code_u8 }
{
    match code_u8 {
        0 => Some("erroneous-header"),
        1 => Some("unrecognized-next-header"),
        2 => Some("unrecognized-option"),
        3 => Some("incomplete-header-chain"),
        _ => None,
    }
}

/// Appends the further fields of an ICMPv4 message: identifier and sequence number of an echo or timestamp message, MTU
/// of the next hop, gateway address of a redirect, or pointer to the byte with a parameter problem.
fn push_icmpv4_content(output: &mut Vec<u8>, message: &Icmpv4Type) -> Result<(), AllocError>
    ensures { OnOk result (output.new.items ≡ output.old.items ++ icmpv4_content_text message.now) }
{
    match message {
        Icmpv4Type::EchoReply(echo) | Icmpv4Type::EchoRequest(echo) => push_echo(output, echo),
        Icmpv4Type::DestinationUnreachable {
            code: 4,
            next_hop_mtu,
        } => decimals::push_with_text(output, b" mtu ", u64::from(*next_hop_mtu)),
        Icmpv4Type::Redirect { gateway, .. } => {
            output.extend_from_slice(b" to ")?;
            push_ipv4(output, *gateway)
        }
        Icmpv4Type::ParameterProblem { code: 0, pointer } => {
            decimals::push_with_text(output, b" ", u64::from(*pointer))
        }
        Icmpv4Type::TimestampRequest(times) | Icmpv4Type::TimestampReply(times) => {
            decimals::push_with_text(output, b" id ", u64::from(times.id))?;
            decimals::push_with_text(output, b" seq ", u64::from(times.seq))
        }
        Icmpv4Type::Unknown { .. }
        | Icmpv4Type::DestinationUnreachable { .. }
        | Icmpv4Type::TimeExceeded(_)
        | Icmpv4Type::ParameterProblem { .. } => Ok(()),
    }
}

/// Appends the further fields of an ICMPv6 message: identifier and sequence number of an echo, MTU of Packet Too Big,
/// or pointer to the byte with a parameter problem.
fn push_icmpv6_content(output: &mut Vec<u8>, message: &Icmpv6Type) -> Result<(), AllocError>
    ensures { OnOk result (output.new.items ≡ output.old.items ++ icmpv6_content_text message.now) }
{
    match message {
        Icmpv6Type::EchoRequest(echo) | Icmpv6Type::EchoReply(echo) => push_echo(output, echo),
        Icmpv6Type::PacketTooBig { mtu } => {
            decimals::push_with_text(output, b" mtu ", u64::from(*mtu))
        }
        Icmpv6Type::ParameterProblem { pointer, .. } => {
            decimals::push_with_text(output, b" pointer ", u64::from(*pointer))
        }
        Icmpv6Type::Unknown { .. }
        | Icmpv6Type::DestinationUnreachable { .. }
        | Icmpv6Type::TimeExceeded(_) => Ok(()),
    }
}

/// Appends the identifier and the sequence number of an ICMP echo message.
fn push_echo(output: &mut Vec<u8>, echo: &IcmpEchoHeader) -> Result<(), AllocError>
    ensures { OnOk result (output.new.items ≡ output.old.items ++ echo_text echo.now) }
{
    decimals::push_with_text(output, b" id ", u64::from(echo.id))?;
    decimals::push_with_text(output, b" seq ", u64::from(echo.seq))
}
