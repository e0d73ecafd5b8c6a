//! Keywords of filter expressions.

use crate::names::find_name;

/// Keyword of filter expressions.
#[derive(Clone, Copy)]
pub enum Keyword {
    /// `ip`
    Ip,
    /// `ip6`
    Ip6,
    /// `arp`
    Arp,
    /// `tcp`
    Tcp,
    /// `udp`
    Udp,
    /// `sctp`
    Sctp,
    /// `icmp`
    Icmp,
    /// `icmp6`
    Icmp6,
    /// `igmp`
    Igmp,
    /// `ah`
    Ah,
    /// `esp`
    Esp,
    /// `ether`
    Ether,
    /// `src`
    Src,
    /// `dst`
    Dst,
    /// `host`
    Host,
    /// `net`
    Net,
    /// `mask`
    Mask,
    /// `port`
    Port,
    /// `portrange`
    PortRange,
    /// `proto`
    Proto,
    /// `vlan`
    Vlan,
    /// `less`
    Less,
    /// `greater`
    Greater,
    /// `len` or `length`
    Len,
    /// `broadcast`
    Broadcast,
    /// `multicast`
    Multicast,
}

static KEYWORDS: [(&str, Keyword); 27] = [
    ("ip", Keyword::Ip),
    ("ip6", Keyword::Ip6),
    ("arp", Keyword::Arp),
    ("tcp", Keyword::Tcp),
    ("udp", Keyword::Udp),
    ("sctp", Keyword::Sctp),
    ("icmp", Keyword::Icmp),
    ("icmp6", Keyword::Icmp6),
    ("igmp", Keyword::Igmp),
    ("ah", Keyword::Ah),
    ("esp", Keyword::Esp),
    ("ether", Keyword::Ether),
    ("src", Keyword::Src),
    ("dst", Keyword::Dst),
    ("host", Keyword::Host),
    ("net", Keyword::Net),
    ("mask", Keyword::Mask),
    ("port", Keyword::Port),
    ("portrange", Keyword::PortRange),
    ("proto", Keyword::Proto),
    ("vlan", Keyword::Vlan),
    ("less", Keyword::Less),
    ("greater", Keyword::Greater),
    ("len", Keyword::Len),
    ("length", Keyword::Len),
    ("broadcast", Keyword::Broadcast),
    ("multicast", Keyword::Multicast),
];

impl Keyword {
    ghost use Rattle.std.specs.Prelude.{◌≡◌};
    ghost use Rattle.filter_tokens.specs.Names.{keyword_names, lookup_name};

    /// Returns the keyword with this text, or `None` if the word is no keyword.
    pub(crate) fn of_word(word: &[u8]) -> Option<Keyword>
        ensures { result ≡ lookup_name word.now keyword_names }
    {
        find_name(&KEYWORDS, word)
    }
}
