//! Errors of filter expressions.

ghost use Rattle.std.specs.Prelude.{◌≡◌};
ghost use Rattle.filter_tokens.specs.KindTexts.{kind_text};

use std::fmt;
use thiserror::Error;

/// Error of a filter expression: its first token that is not allowed after the tokens before it, and the reason.
#[derive(Clone, Copy, Debug, PartialEq, Eq, Error)]
#[error("at byte {start}: {kind}")]
pub struct FilterError {
    /// Reason for the error.
    pub kind: FilterErrorKind,
    /// Offset in bytes at which the token begins; the length of the text if the text ends too early or an allocation
    /// fails. For `Long` it is 65,536, which may be within a character (so use `get` to slice the text).
    pub start: usize,
    /// Offset in bytes at which the token ends.
    pub end: usize,
}

/// Reason why a token of a filter expression is an error.
#[derive(Clone, Copy, Debug, PartialEq, Eq)]
pub enum FilterErrorKind {
    /// A character that begins no token.
    Character,
    /// Arithmetic, which filter expressions do not have.
    Arithmetic,
    /// A keyword of tcpdump that is not supported, or a name after `\\`.
    NotTaken,
    /// The text ends before the expression does.
    End,
    /// A token that is not allowed after the tokens before it.
    Misplaced,
    /// A value without a primitive that says what it is a value of (such as `host` or `port`).
    Unqualified,
    /// A word that begins no primitive.
    Unknown,
    /// Not an IPv4 or IPv6 address.
    NotAnAddress,
    /// Not an address or the first numbers of an IPv4 address.
    NotANetwork,
    /// Not a MAC address.
    NotAStation,
    /// Not a number up to 65535, and not the name of a port.
    NotAPort,
    /// Not a decimal number up to 65535, and not two of them with `-` between.
    NotARange,
    /// Not a number up to 255.
    NotAProtocol,
    /// Not a number from 1536 to 65535.
    NotAnEtherType,
    /// Not a number up to 4095.
    NotAVlan,
    /// Not a number up to 4294967295.
    NotANumber,
    /// Not 1, 2 or 4.
    NotASize,
    /// An address of IPv4 where one of IPv6 is required, or the reverse.
    WrongFamily,
    /// Not a prefix length: a decimal number up to the number of bits of the address.
    NotALength,
    /// Not an IPv4 mask: ones, followed by zeros.
    NotAMask,
    /// A bit of the address after the prefix is 1.
    HostBits,
    /// A prefix length or mask after a host.
    NetOnly,
    /// The 65th `(` or `not` that is open.
    Deep,
    /// Bytes after the first 65,536, which may begin within a character.
    Long,
    /// Out of memory.
    Memory,
}

impl FilterErrorKind {
    /// Returns the description of the error, without the token.
    pub fn description(self) -> &'static str
        ensures { result.now ≡ kind_text self }
    {
        match self {
            FilterErrorKind::Character => "unexpected character",
            FilterErrorKind::Arithmetic => "arithmetic is not supported",
            FilterErrorKind::NotTaken => "a keyword of tcpdump that is not supported",
            FilterErrorKind::End => "the filter ends too early",
            FilterErrorKind::Misplaced => "not allowed here",
            FilterErrorKind::Unqualified => "a value without host, net, port or the like before it",
            FilterErrorKind::Unknown => "not a filter keyword",
            FilterErrorKind::NotAnAddress => "not an IP address (names are not looked up)",
            FilterErrorKind::NotANetwork => "not a network (such as 10.0.0.0/8 or 192.168)",
            FilterErrorKind::NotAStation => "not a MAC address (such as 02:00:00:00:00:01)",
            FilterErrorKind::NotAPort =>
                "not a port (a number up to 65535, or a name such as http)",
            FilterErrorKind::NotARange => "not a range of ports (such as 6000-6010)",
            FilterErrorKind::NotAProtocol => "not a protocol number (up to 255)",
            FilterErrorKind::NotAnEtherType => "not an ether type (1536 to 65535)",
            FilterErrorKind::NotAVlan => "not a VLAN identifier (up to 4095)",
            FilterErrorKind::NotANumber => "not a number (up to 4294967295)",
            FilterErrorKind::NotASize => "not a size (1, 2 or 4)",
            FilterErrorKind::WrongFamily => "an address of the other IP version",
            FilterErrorKind::NotALength => "not a prefix length of the address",
            FilterErrorKind::NotAMask => "not a mask (ones, followed by zeros)",
            FilterErrorKind::HostBits => "the address has bits set after the prefix",
            FilterErrorKind::NetOnly => "only networks have a prefix length or mask",
            FilterErrorKind::Deep => "more than 64 open parentheses and not",
            FilterErrorKind::Long => "the filter has more than 65536 bytes",
            FilterErrorKind::Memory => "out of memory",
        }
    }
}

impl fmt::Display for FilterErrorKind {
    fn fmt<W: fmt::Write>(&self, f: &mut fmt::Formatter<W>) -> fmt::Result {
        f.write_str(self.description())
    }
}
