//! Laws of filter expressions: theorems about the definitions in contracts. Each is the contract of a function that does
//! nothing.

ghost use Rattle.std.specs.Prelude.{◌≡◌, ℕ, List, Option};
ghost use Rattle.ep_packet.specs.declared.entry.Entry.{Entry};
ghost use Rattle.filter_language.specs.Trees.{Expr, steps_of_text, tree_of};
ghost use Rattle.packet_filter.specs.Laws.{HoldsOfMore, IsDecided, IsLessOrGreater, IsPortOfBytes, IsReadBack};
ghost use Rattle.packet_filter.specs.Packets.{Packet};

/// Each text is a filter or has an error, in one way, and never both.
pub fn texts()
    ensures { (text : List ℕ) → IsDecided text }
{}

/// The printed form of a filter is a text of the same filter.
pub fn read_back()
    ensures { (tree : Option Expr) → IsReadBack tree }
{}

/// The steps of a filter have its expression.
pub fn steps()
    ensures { (tree : Option Expr) → tree_of (steps_of_text tree) ≡ tree }
{}

/// `tcp src port n` is `tcp[0:2] = n`.
pub fn ports_are_bytes()
    ensures { (packet : Packet) (port : ℕ) → IsPortOfBytes packet port }
{}

/// `less n` is `not greater (n + 1)`.
pub fn less_or_greater()
    ensures { (packet : Packet) (number : ℕ) → IsLessOrGreater packet number }
{}

/// An expression without `not` that matches the first bytes of a packet matches the whole packet.
pub fn more_bytes()
    ensures { (e : Expr) (entry : Entry) (front others : List ℕ) → HoldsOfMore e entry front others }
{}
