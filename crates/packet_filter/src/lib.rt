//! Filter expressions: the filters that people type for tcpdump, such as `tcp port 443 and not host 10.0.0.1`.
//!
//! # The language
//!
//! ```text
//! text       = [ expression ]                             the empty filter matches every packet
//! expression = operand { ("and" | "or") operand }         equal precedence, from the left
//! operand    = "not" operand | "(" expression ")" | bare | qualifiers values | value
//! values     = value | "not" values | "(" values { ("and" | "or") values } ")"
//! qualifiers = ["ip" | "ip6" | "arp"] ( side ["host" | "net"] | "host" | "net" )
//!            | "ether" ( side ["host"] | "host" | "proto" )
//!            | ["tcp" | "udp" | "sctp"] [side] ( "port" | "portrange" )
//!            | ["ip" | "ip6"] "proto"
//! side       = "src" | "dst" | "src" ("or" | "and") "dst" | "dst" ("or" | "and") "src"
//! bare       = "ip" | "ip6" | "arp" | "tcp" | "udp" | "sctp" | "icmp" | "icmp6" | "igmp" | "ah" | "esp"
//!            | ["ether"] ("broadcast" | "multicast") | ("ip" | "ip6") "multicast"
//!            | "vlan" [number] | ("less" | "greater") number | left relation right
//! left       = bytes | "(" left ")" | left "&" group      one "&" at most
//! bytes      = "len" | "length" | layer "[" constant [":" size] "]"
//! layer      = "ether" | "arp" | "ip" | "ip6" | "tcp" | "udp" | "sctp" | "icmp" | "icmp6"
//! group      = constant | "(" constant { "|" constant } ")"
//! right      = group { "|" group }
//! relation   = "=" | "==" | "!=" | "<" | "<=" | ">" | ">="
//! ```
//!
//! - A value without qualifiers has the qualifiers of the value before it: `tcp port 80 or 443`. After a closing
//!   parenthesis the qualifiers before the opening one hold again; a `bare` primitive leaves none. `&&`, `||` and `!` are
//!   `and`, `or` and `not`.
//! - A host is an address as std parses it. A network is an address, or the first one to three numbers of an IPv4 address
//!   (`10.1`; a single 0 is none), and then `/` and a decimal prefix length, or `mask` and an IPv4 mask of ones followed by
//!   zeros. Without both, the prefix is the whole address, or 8 bits for each number. No bit may be set after the prefix.
//!   `ip` and `arp` require IPv4 addresses, `ip6` IPv6 addresses.
//! - A MAC address (`ether`) is six numbers of one or two hexadecimal digits with `:` between.
//! - A port is a number up to 65535 or a name (ftp-data, ftp, ssh, telnet, smtp, domain, bootps, bootpc, tftp, http, pop3,
//!   ntp, imap, snmp, snmptrap, bgp, ldap, https, syslog, submission, imaps, sip, mdns). A range of ports is a decimal
//!   number, or two with `-` between, in either order.
//! - A protocol (`proto`) is a number up to 255, an ether type (`ether proto`) one from 1536, a VLAN identifier one up to
//!   4095, and a size 1, 2 or 4. Numbers are decimal without leading zeros, or hexadecimal after `0x` or `0X`.
//! - A constant of a byte test is a number or a name: `tcpflags` and `tcp-syn` (-fin, -rst, -push, -ack, -urg, -ece, -cwr),
//!   `icmptype`, `icmpcode`, `icmp6type`, `icmp6code`, and the types of ICMP messages (`icmp-echo`) as tcpdump names them.
//! - At most 64 `(` and `not` are open at a time; a `(` around constants does not count. A text has at most 65,536 bytes.
//!
//! An error is about the first token that is not allowed after the tokens before it ([`FilterError`]). Arithmetic, such
//! as `ip[2:2] - 4`, names of hosts, and layers that the library does not parse have errors of their own.
//!
//! # What a primitive matches
//!
//! - `ip`, `ip6`, `arp`, `ether proto N`: the ether type is that of the link layer, or of the payload of a tag; of raw IP
//!   it is that of the IP version.
//! - `tcp`, `udp`, `sctp`, `icmp`, `icmp6`, `igmp`, `ah`, `esp`, `proto N`: the number is that of the IP header, or of an
//!   extension header that was parsed. `icmp` is `ip proto 1`, `igmp` is `ip proto 2`, and `icmp6` is `ip6 proto 58`.
//! - `host`, `net`: the source or destination address of IP, or the sender or target address of ARP for IPv4. `ip multicast`
//!   is `ip dst net 224.0.0.0/3`, `ip6 multicast` is `ip6 dst net ff00::/8`.
//! - `ether host`: the source or destination address of Ethernet II. `broadcast` is `ether dst ff:ff:ff:ff:ff:ff`, and
//!   `multicast` is `ether[0] & 1 != 0`.
//! - `port`, `portrange`: the first four bytes of the payload of IP if its number is TCP, UDP or SCTP, also of a truncated
//!   header and of a first fragment; later fragments have no ports.
//! - `vlan`, `vlan N`: one of the VLAN tags.
//! - `less N`, `greater N`, `len`: the original length of the packet; `less` and `greater` include N.
//! - A byte test reads one, two or four bytes at an offset: of the frame (`ether`), of the bytes after the link layer and all
//!   tags (`ip`, `ip6`, `arp`), or of the payload of IP (`icmp` of IPv4, `icmp6` of IPv6).
//!
//! A primitive does not match if its layer is missing, and then its `not` matches.
#![tactic(auto)]

mod addresses;
mod fields;
pub mod filter;
mod host_set;
mod host_sets;
pub mod laws;
mod matching;
pub mod network;
pub mod step;
mod subject;

pub use crate::filter::Filter;
pub use crate::network::Network;
pub use filter_tokens::{FilterError, FilterErrorKind, Primitive, filter_error, primitive};
