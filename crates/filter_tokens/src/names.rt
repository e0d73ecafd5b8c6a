//! Names of numbers in filter expressions, and words that are not supported.

ghost use Rattle.std.specs.Prelude.{◌≡◌, map};
ghost use Rattle.std.specs.List.{list_any};
ghost use Rattle.filter_tokens.specs.Names.{constant_names, is_text, lookup_name, not_taken_words, port_names};

/// Names of ports.
static PORTS: [(&str, u16); 23] = [
    ("ftp-data", 20),
    ("ftp", 21),
    ("ssh", 22),
    ("telnet", 23),
    ("smtp", 25),
    ("domain", 53),
    ("bootps", 67),
    ("bootpc", 68),
    ("tftp", 69),
    ("http", 80),
    ("pop3", 110),
    ("ntp", 123),
    ("imap", 143),
    ("snmp", 161),
    ("snmptrap", 162),
    ("bgp", 179),
    ("ldap", 389),
    ("https", 443),
    ("syslog", 514),
    ("submission", 587),
    ("imaps", 993),
    ("sip", 5060),
    ("mdns", 5353),
];

/// Names of offsets and values in byte tests.
static CONSTANTS: [(&str, u32); 42] = [
    ("tcpflags", 13),
    ("tcp-fin", 1),
    ("tcp-syn", 2),
    ("tcp-rst", 4),
    ("tcp-push", 8),
    ("tcp-ack", 16),
    ("tcp-urg", 32),
    ("tcp-ece", 64),
    ("tcp-cwr", 128),
    ("icmptype", 0),
    ("icmp6type", 0),
    ("icmpcode", 1),
    ("icmp6code", 1),
    ("icmp-echoreply", 0),
    ("icmp-unreach", 3),
    ("icmp-sourcequench", 4),
    ("icmp-redirect", 5),
    ("icmp-echo", 8),
    ("icmp-routeradvert", 9),
    ("icmp-routersolicit", 10),
    ("icmp-timxceed", 11),
    ("icmp-paramprob", 12),
    ("icmp-tstamp", 13),
    ("icmp-tstampreply", 14),
    ("icmp-ireq", 15),
    ("icmp-ireqreply", 16),
    ("icmp-maskreq", 17),
    ("icmp-maskreply", 18),
    ("icmp6-destinationunreach", 1),
    ("icmp6-packettoobig", 2),
    ("icmp6-timeexceeded", 3),
    ("icmp6-parameterproblem", 4),
    ("icmp6-echo", 128),
    ("icmp6-echoreply", 129),
    ("icmp6-multicastlistenerquery", 130),
    ("icmp6-multicastlistenerreportv1", 131),
    ("icmp6-multicastlistenerdone", 132),
    ("icmp6-routersolicit", 133),
    ("icmp6-routeradvert", 134),
    ("icmp6-neighborsolicit", 135),
    ("icmp6-neighboradvert", 136),
    ("icmp6-redirect", 137),
];

/// Words of tcpdump that are not supported.
static NOT_TAKEN: [&str; 99] = [
    "rarp",
    "link",
    "ppp",
    "slip",
    "fddi",
    "tr",
    "wlan",
    "igrp",
    "pim",
    "vrrp",
    "carp",
    "radio",
    "atalk",
    "aarp",
    "decnet",
    "lat",
    "sca",
    "moprc",
    "mopdl",
    "iso",
    "esis",
    "es-is",
    "isis",
    "is-is",
    "l1",
    "l2",
    "iih",
    "lsp",
    "snp",
    "csnp",
    "psnp",
    "clnp",
    "stp",
    "ipx",
    "netbeui",
    "protochain",
    "gateway",
    "type",
    "subtype",
    "direction",
    "dir",
    "address1",
    "address2",
    "address3",
    "address4",
    "addr1",
    "addr2",
    "addr3",
    "addr4",
    "ra",
    "ta",
    "byte",
    "inbound",
    "outbound",
    "ifindex",
    "ifname",
    "on",
    "rset",
    "ruleset",
    "rnr",
    "rulenum",
    "srnr",
    "subrulenum",
    "reason",
    "action",
    "mpls",
    "pppoed",
    "pppoes",
    "geneve",
    "lane",
    "llc",
    "metac",
    "bcc",
    "oam",
    "oamf4",
    "oamf4ec",
    "oamf4sc",
    "sc",
    "ilmic",
    "vpi",
    "vci",
    "connectmsg",
    "metaconnect",
    "fisu",
    "lssu",
    "lsu",
    "msu",
    "hfisu",
    "hlssu",
    "hlsu",
    "hmsu",
    "sio",
    "opc",
    "dpc",
    "sls",
    "hsio",
    "hopc",
    "hdpc",
    "hsls",
];

/// Returns the value of the first name that equals a word.
pub(crate) fn find_name<V: Copy>(names: &[(&'static str, V)], word: &[u8]) -> Option<V>
    ensures { result ≡ lookup_name word.now (map (λ row. (row.0.now, row.1)) names.now) }
{
    for (name, value) in names {
        if word == name.as_bytes() {
            return Some(*value);
        }
    }
    None
}

/// Returns the port with this name.
pub(crate) fn named_port(word: &[u8]) -> Option<u16>
    ensures { result ≡ lookup_name word.now port_names }
{
    find_name(&PORTS, word)
}

/// Returns the constant of byte tests with this name.
pub(crate) fn named_constant(word: &[u8]) -> Option<u32>
    ensures { result ≡ lookup_name word.now constant_names }
{
    find_name(&CONSTANTS, word)
}

/// Returns true if the word is one of tcpdump that is not supported.
pub(crate) fn is_not_taken(word: &[u8]) -> bool
    ensures { result ≡ list_any (is_text word.now) not_taken_words }
{
    is_one_of(&NOT_TAKEN, word)
}

/// Returns true if a word is one of a list.
fn is_one_of(words: &[&'static str], word: &[u8]) -> bool
    ensures { result ≡ list_any (is_text word.now) (map (λ name. name.now) words.now) }
{
    for name in words {
        if word == name.as_bytes() {
            return true;
        }
    }
    false
}
