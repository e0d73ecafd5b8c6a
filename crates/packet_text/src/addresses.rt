//! Formatting of bytes, MAC addresses and IP addresses as text.

ghost use Rattle.std.specs.Prelude.{◌≡◌, ◌<◌, ◌≤◌, ◌+◌, ◌*◌, ◌++◌, OnOk, codes, drop, length, take};
ghost use Rattle.std.specs.Fmt.{decimal};
ghost use Rattle.std.specs.Net.Text.{groups_text, hex, hex_groups_text, longest_zero_run};
ghost use Rattle.packet_text.specs.Addresses.{further_octets_text, hex_pair, hex_text, ipv4_text, ipv6_text};
ghost use Rattle.packet_text.specs.Addresses.{mac_text, octets_text};

use std::alloc::AllocError;
use std::net::Ipv6Addr;

/// Table of the two hexadecimal digits of each byte value, from `00` to `ff`, one after the other.
static HEX_PAIRS: [u8; 512] = *b"\
    000102030405060708090a0b0c0d0e0f101112131415161718191a1b1c1d1e1f\
    202122232425262728292a2b2c2d2e2f303132333435363738393a3b3c3d3e3f\
    404142434445464748494a4b4c4d4e4f505152535455565758595a5b5c5d5e5f\
    606162636465666768696a6b6c6d6e6f707172737475767778797a7b7c7d7e7f\
    808182838485868788898a8b8c8d8e8f909192939495969798999a9b9c9d9e9f\
    a0a1a2a3a4a5a6a7a8a9aaabacadaeafb0b1b2b3b4b5b6b7b8b9babbbcbdbebf\
    c0c1c2c3c4c5c6c7c8c9cacbcccdcecfd0d1d2d3d4d5d6d7d8d9dadbdcdddedf\
    e0e1e2e3e4e5e6e7e8e9eaebecedeeeff0f1f2f3f4f5f6f7f8f9fafbfcfdfeff";

/// Appends a MAC address as text: two hexadecimal digits for each byte, separated by colons.
pub fn push_mac(output: &mut Vec<u8>, address: [u8; 6]) -> Result<(), AllocError>
    ensures { OnOk result (output.new.items ≡ output.old.items ++ mac_text address) }
{
    output.extend_from_slice(&mac_text(address))
}

/// Returns the text of a MAC address: two hexadecimal digits for each byte, separated by colons.
#[inline]
#[tactic(auto, unfolding(crate::specs::Addresses::mac_text))]
pub fn mac_text(address: [u8; 6]) -> [u8; 17]
    ensures { result ≡ mac_text address }
{
    let [a, b, c, d, e, f] = address;
    let [a0, a1] = hex_pair(a);
    let [b0, b1] = hex_pair(b);
    let [c0, c1] = hex_pair(c);
    let [d0, d1] = hex_pair(d);
    let [e0, e1] = hex_pair(e);
    let [f0, f1] = hex_pair(f);
    [
        a0, a1, b':', b0, b1, b':', c0, c1, b':', d0, d1, b':', e0, e1, b':', f0, f1,
    ]
}

/// Appends a hardware or protocol address of any length as text: two hexadecimal digits for each byte, separated by
/// colons.
pub fn push_octets(output: &mut Vec<u8>, address: &[u8]) -> Result<(), AllocError>
    ensures { OnOk result (output.new.items ≡ output.old.items ++ octets_text address.now) }
{
    let [first, rest @ ..] = address else {
        return Ok(());
    };
    push_pair(output, *first)?;
    push_further_octets(output, rest)
}

/// Appends the bytes of an address after its first one as text: a colon and two hexadecimal digits for each byte.
fn push_further_octets(output: &mut Vec<u8>, bytes: &[u8]) -> Result<(), AllocError>
    ensures { OnOk result (output.new.items ≡ output.old.items ++ further_octets_text bytes.now) }
{
    for byte in bytes {
        let [first, second] = hex_pair(*byte);
        output.extend_from_slice(&[b':', first, second])?;
    }
    Ok(())
}

/// Appends bytes as hexadecimal text: two digits for each byte, without separators.
pub fn push_hex(output: &mut Vec<u8>, bytes: &[u8]) -> Result<(), AllocError>
    ensures { OnOk result (output.new.items ≡ output.old.items ++ hex_text bytes.now) }
{
    for byte in bytes {
        push_pair(output, *byte)?;
    }
    Ok(())
}

/// Appends the two hexadecimal digits of a byte.
pub fn push_pair(output: &mut Vec<u8>, byte: u8) -> Result<(), AllocError>
    ensures { OnOk result (output.new.items ≡ output.old.items ++ hex_pair byte) }
{
    output.extend_from_slice(&hex_pair(byte))
}

/// Returns the two hexadecimal digits of a byte.
#[inline]
pub fn hex_pair(byte: u8) -> [u8; 2]
    ensures { result ≡ hex_pair byte }
{
    let at = 2 * usize::from(byte);
    [HEX_PAIRS[at], HEX_PAIRS[at + 1]]
}

/// Table of the octets of an IPv4 address as text, from `.0` to `.255`: four bytes for each, a dot and the decimal number,
/// followed by spaces.
static DOTTED_OCTETS: [u8; 1024] = *b"\
    .0  .1  .2  .3  .4  .5  .6  .7  .8  .9  .10 .11 .12 .13 .14 .15 \
    .16 .17 .18 .19 .20 .21 .22 .23 .24 .25 .26 .27 .28 .29 .30 .31 \
    .32 .33 .34 .35 .36 .37 .38 .39 .40 .41 .42 .43 .44 .45 .46 .47 \
    .48 .49 .50 .51 .52 .53 .54 .55 .56 .57 .58 .59 .60 .61 .62 .63 \
    .64 .65 .66 .67 .68 .69 .70 .71 .72 .73 .74 .75 .76 .77 .78 .79 \
    .80 .81 .82 .83 .84 .85 .86 .87 .88 .89 .90 .91 .92 .93 .94 .95 \
    .96 .97 .98 .99 .100.101.102.103.104.105.106.107.108.109.110.111\
    .112.113.114.115.116.117.118.119.120.121.122.123.124.125.126.127\
    .128.129.130.131.132.133.134.135.136.137.138.139.140.141.142.143\
    .144.145.146.147.148.149.150.151.152.153.154.155.156.157.158.159\
    .160.161.162.163.164.165.166.167.168.169.170.171.172.173.174.175\
    .176.177.178.179.180.181.182.183.184.185.186.187.188.189.190.191\
    .192.193.194.195.196.197.198.199.200.201.202.203.204.205.206.207\
    .208.209.210.211.212.213.214.215.216.217.218.219.220.221.222.223\
    .224.225.226.227.228.229.230.231.232.233.234.235.236.237.238.239\
    .240.241.242.243.244.245.246.247.248.249.250.251.252.253.254.255";

/// Length of the buffer for the text of an IPv4 address, in bytes: four numbers of up to three digits, with a dot
/// before each.
const DOTTED_LEN: usize = 16;

/// Appends an IPv4 address in dotted decimal notation. Its text is built in a local buffer and appended in one call,
/// which is faster than several.
#[tactic(auto, unfolding(crate::specs::Addresses::ipv4_text))]
pub fn push_ipv4(output: &mut Vec<u8>, address: [u8; 4]) -> Result<(), AllocError>
    ensures { OnOk result (output.new.items ≡ output.old.items ++ ipv4_text address) }
{
    let [a, b, c, d] = address;
    let mut text = [0; DOTTED_LEN];
    let first = put_octet(&mut text, 0, a);
    let second = put_octet(&mut text, first, b);
    let third = put_octet(&mut text, second, c);
    let end = put_octet(&mut text, third, d);
    output.extend_from_slice(&text[1..end])
}

/// Writes a dot and the decimal number of an octet of an IPv4 address at position `at` of the text, and returns the
/// position after it. It always writes four bytes, so that no branch depends on the octet; the spaces at the end are
/// overwritten by the next octet, or are not part of the text.
#[inline]
fn put_octet(text: &mut [u8; DOTTED_LEN], at: usize, octet: u8) -> usize
    requires { at ≤ 12 }
    ensures text { take result text.new ≡ take at text.old ++ (codes "." ++ decimal octet) }
    ensures grows { at < result }
    ensures bound { result ≤ at + 4 }
{
    let from = 4 * usize::from(octet);
    text[at..at + 4].copy_from_slice(&DOTTED_OCTETS[from..from + 4]);
    at + 2 + usize::from(octet >= 10) + usize::from(octet >= 100)
}

/// Length of the buffer for the text of an IPv6 address, in bytes: eight groups of up to four digits with a colon before
/// each, and two more colons.
const GROUPS_LEN: usize = 42;

/// Appends an IPv6 address in its recommended text form (RFC 5952). An IPv4-mapped address is `::ffff:` and the IPv4
/// address in dotted decimal notation.
pub fn push_ipv6(output: &mut Vec<u8>, address: [u8; 16]) -> Result<(), AllocError>
    ensures { OnOk result (output.new.items ≡ output.old.items ++ ipv6_text address) }
{
    let address = Ipv6Addr::from_octets(address);
    match address.to_ipv4_mapped() {
        Some(mapped) => {
            output.extend_from_slice(b"::ffff:")?;
            push_ipv4(output, mapped.octets())
        }
        None => push_groups(output, &address.segments()),
    }
}

/// Appends the eight 16-bit groups of an IPv6 address in hexadecimal, with `::` in place of the first longest run of
/// two or more zero groups.
fn push_groups(output: &mut Vec<u8>, groups: &[u16; 8]) -> Result<(), AllocError>
    ensures { OnOk result (output.new.items ≡ output.old.items ++ hex_groups_text groups.now) }
{
    let mut text = [0; GROUPS_LEN];
    let (run_start, run_len) = longest_run(groups);
    let start = if run_len > 1 {
        let tail = put_groups(&mut text, GROUPS_LEN, &groups[run_start + run_len..]);
        text[tail - 1] = b':';
        text[tail - 2] = b':';
        put_groups(&mut text, tail - 2, &groups[..run_start])
    } else {
        put_groups(&mut text, GROUPS_LEN, groups)
    };
    output.extend_from_slice(&text[start..])
}

/// Returns the index (0 to 7) of the first group and the number of groups of the longest run of zero groups of an IPv6
/// address, or of the first such run if several are equally long. The number is 0 if no group is 0. The groups are
/// visited from the last to the first, so a run of equal length replaces the longest run found so far.
fn longest_run(groups: &[u16; 8]) -> (usize, usize)
    ensures value { result ≡ longest_zero_run groups.now }
    ensures bound { result.0 + result.1 ≤ 8 }
{
    let mut longest = (8, 0);
    let mut zeros = 0;
    for at in (0..8).rev() {
        zeros = if groups[at] == 0 { zeros + 1 } else { 0 };
        if zeros >= longest.1 {
            longest = (at, zeros);
        }
    }
    longest
}

/// Writes 16-bit groups of an IPv6 address in hexadecimal, separated by colons, just before index `end` of the text, and
/// returns the index at which they start. The last group is written first.
fn put_groups(text: &mut [u8; GROUPS_LEN], end: usize, groups: &[u16]) -> usize
    requires space { 5 * length groups.now ≤ end }
    requires within { end ≤ 42 }
    ensures text { drop result text.new ≡ groups_text groups.now ++ drop end text.old }
    ensures bound { end ≤ result + 5 * length groups.now }
    ensures before { result ≤ end }
{
    let [first, rest @ ..] = groups else {
        return end;
    };
    let mut start = end;
    for at in (0..rest.len()).rev() {
        start = put_group(text, start, rest[at]) - 1;
        text[start] = b':';
    }
    put_group(text, start, *first)
}

/// Writes a 16-bit group of an IPv6 address in hexadecimal, without leading zeros, just before index `end` of the text,
/// and returns the index at which it starts. It always writes four digits, so that no branch depends on the group; the
/// leading zeros are overwritten by the group before, or are not part of the text.
#[inline]
fn put_group(text: &mut [u8; GROUPS_LEN], end: usize, group: u16) -> usize
    requires space { 4 ≤ end }
    requires within { end ≤ 42 }
    ensures text { drop result text.new ≡ hex group ++ drop end text.old }
    ensures bound { end ≤ result + 4 }
    ensures before { result < end }
{
    let [first, second] = hex_pair((group / 256) as u8);
    let [third, fourth] = hex_pair((group % 256) as u8);
    text[end - 4..end].copy_from_slice(&[first, second, third, fourth]);
    let kept = usize::from(group >= 0x1000)
        + usize::from(group >= 0x100)
        + usize::from(group >= 0x10);
    end - 1 - kept
}
