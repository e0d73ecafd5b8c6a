//! Laws of the summary that `--summary` prints and of the reassembly pool, each stated as the contract of a function with
//! an empty body.

ghost use Rattle.std.specs.Prelude.{◌≡◌, ◌<◌, ◌^◌, true, Bool, List, length, map, ℕ};
ghost use Rattle.capture_reader.specs.Captures.{Item};
ghost use Rattle.etherparse.specs.BoundedSteps.{BoundedCall, Row};
ghost use Rattle.etherparse.specs.Types.DefragLimits.{DefragLimits};
ghost use Rattle.packet_dump.specs.DecodedPackets.{AreDecoded, DecodedPacket, none_read, packets_in};
ghost use Rattle.packet_dump.specs.StreamMemory.{EvictsNoneForMemory, granted_step, step_without_memory, without_memory};
ghost use Rattle.packet_dump.specs.Summaries.{AddsUp, counted_all, new_summary, parsed_count};
ghost use Rattle.packet_dump.specs.declared.dump_options.DumpOptions.{DumpOptions};

/// States that a summary counts every packet that was read, and that its counts add up. Packets with valid layers,
/// refused packets and packets of unsupported link types add up to all packets. The counts of the single errors add up
/// to all refused packets and to all stopped packets (with valid layers up to a truncated or invalid one).
pub fn sums()
    ensures packets { (options : DumpOptions) (items : List Item) (packets : List DecodedPacket) →
        AreDecoded options none_read items packets → length packets ≡ packets_in items }
    ensures rows { (packets : List DecodedPacket) (by_cause : Bool) → length packets < 2 ^ 64 →
        AddsUp (parsed_count packets) (counted_all packets (new_summary true by_cause))
        × ((counted_all packets (new_summary true by_cause)).packets ≡ length packets) }
{}

/// States that the memory that the allocator grants for the streams has no influence on the effect of a call on the
/// reassembly pool, apart from that memory itself, if no stream is evicted for its memory. So without
/// `--fragment-bytes`, call by call, what `--reassemble` prints is determined by the packets.
pub fn memory_changes_nothing()
    ensures { (limits : DefragLimits) (rows other_rows : List (Row ℕ)) (call : BoundedCall ℕ)
        (number room other_room : ℕ) → map without_memory rows ≡ map without_memory other_rows →
        EvictsNoneForMemory (granted_step limits rows call number room) →
        EvictsNoneForMemory (granted_step limits other_rows call number other_room) →
        step_without_memory (granted_step limits rows call number room)
        ≡ step_without_memory (granted_step limits other_rows call number other_room) }
{}
