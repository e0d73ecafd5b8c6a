//! A range of byte positions in a reassembled payload.

ghost use Rattle.std.specs.Prelude.{◌≡◌};
ghost use Rattle.ep_defrag.specs.Ranges.{touches, merges, hull, merge_of};
ghost use Rattle.ep_defrag.specs.BoundedOverlaps.{overlap, includes};

/// A range of byte positions in a payload that is reassembled, for example the range that a fragment fills.
#[derive(Clone, Copy, Debug, PartialEq, Eq, PartialOrd, Ord, Hash)]
pub struct IpFragRange {
    /// Position of the range's first byte, counted from the start of the payload.
    pub start: u16,
    /// Position after the range's last byte, counted from the start of the payload.
    pub end: u16,
}

impl IpFragRange {
    /// Returns whether a position is between the start and the end of the range, both included.
    fn touches(&self, position: u16) -> bool
        ensures { result ≡ touches position self.now }
    {
        self.start <= position && position <= self.end
    }

    /// Returns whether [`merge`](IpFragRange::merge) merges this range and `other`: a start or end of one range is
    /// between the start and the end of the other, both included.
    fn merges_with(&self, other: IpFragRange) -> bool
        ensures { result ≡ merges self.now other }
    {
        self.touches(other.start)
            || self.touches(other.end)
            || other.touches(self.start)
            || other.touches(self.end)
    }

    /// Returns whether this range and `other` have a byte at a common position.
    pub(crate) fn overlaps(&self, other: IpFragRange) -> bool
        ensures { result ≡ overlap self.now other }
    {
        self.start.max(other.start) < self.end.min(other.end)
    }

    /// Returns whether this range has each position of `other`.
    pub(crate) fn includes(&self, other: IpFragRange) -> bool
        ensures { result ≡ includes self.now other }
    {
        self.start <= other.start && other.end <= self.end
    }

    /// Returns the range from the lesser start to the greater end of two ranges, even if there is a gap between them.
    pub(crate) fn hull(&self, other: IpFragRange) -> IpFragRange
        ensures { result ≡ hull self.now other }
    {
        IpFragRange {
            start: self.start.min(other.start),
            end: self.end.max(other.end),
        }
    }

    /// Merges two ranges into one, from the lesser start to the greater end, or returns `None` if there is a gap
    /// between them. Ranges with start <= end merge exactly if they overlap or touch. In general, they merge if a start
    /// or end of one is between start and end of the other, both included.
    pub fn merge(&self, other: IpFragRange) -> Option<IpFragRange>
        ensures { result ≡ merge_of self.now other }
    {
        if self.merges_with(other) {
            Some(self.hull(other))
        } else {
            None
        }
    }
}
