//! Reassembly of IP fragments (`--reassemble`): the reassembly pool, and when its incomplete payloads expire.

ghost use Rattle.std.specs.Prelude.{◌≡◌, ◌++◌, IfOk, List, OnOk, Some, ℕ};
ghost use Rattle.std.specs.List.{list_any};
ghost use Rattle.std.specs.Option.{option_map};
ghost use Rattle.etherparse.specs.BoundedSteps.{is_for_bytes};
ghost use Rattle.etherparse.specs.LaxPackets.{lax_layers_of};
ghost use Rattle.packet_dump.specs.CarriedFragments.{fragment_in, named_fragment, plain_carried};
ghost use Rattle.packet_dump.specs.Decoding.{packet_of};
ghost use Rattle.packet_dump.specs.EvictionLines.{KeepsMemoryOf};
ghost use Rattle.packet_dump.specs.PacketCalls.{PoolHistory, new_pool};
ghost use Rattle.packet_dump.specs.PoolLines.{PassesPacket, expired_text, swept_at};
ghost use Rattle.packet_dump.specs.Sessions.{HoldsPooling, ProcessesFrame};
ghost use Rattle.packet_dump.specs.Summaries.{fragments_of};

use crate::decoded::Decoded;
use crate::dump_options::DumpOptions;
use crate::eviction_lines::{push_cleared, push_evictions};
use crate::fragments::{Carried, carried_fragment, carries_fragment};
use crate::pool_lines::push_answer;
use crate::summary::Fragments;
use etherparse::defrag::{BoundedDefragPool, EvictedStream, EvictionCause};
use packet_times::seconds_of;
use std::alloc::{AllocError, Global};
use std::hash::RandomState;

/// Reassembly pool of IP fragments, with the state to expire its streams (a stream is the fragments of one datagram).
#[derive(Drop)]
pub struct Pooling {
    /// Reassembly pool. Its timestamps are those of the packets, or the last known one if a packet has none, in
    /// nanoseconds since 2^63 seconds before 1970; 0 if none is known. All packets use channel 0.
    pool: BoundedDefragPool<u64>,
    /// Timestamp of the packet at which streams were last checked for expiry, in whole seconds since 2^63 seconds
    /// before 1970; 0 before the first check.
    swept: u128,
}

impl Pooling {
    /// Returns an empty reassembly pool with the limits of the options. `keys` are the secret keys of its hash.
    pub fn new(
        alloc: Global,
        options: &DumpOptions,
        keys: RandomState,
    ) -> Result<Pooling, AllocError>
        ensures { IfOk result (λ pooling. HoldsPooling (new_pool options.now) pooling) }
    {
        Ok(Pooling {
            pool: BoundedDefragPool::new(alloc, options.limits(), keys)?,
            swept: 0,
        })
    }

    /// Passes a packet to the reassembly pool if strict slicing accepts it, and appends the line of a reassembled
    /// payload or rejected fragment, if there is one. Before that, old streams (incomplete payloads) expire if a new
    /// second of the capture has begun. The lines of streams that expire, are evicted or discarded precede that line, if
    /// they are shown. Does nothing without `--reassemble`.
    pub fn reassemble(
        &mut self,
        output: &mut Vec<u8>,
        options: &DumpOptions,
        packet: &Decoded<'_>,
    ) -> Result<(), AllocError>
        ensures { OnOk result ((before : PoolHistory) → HoldsPooling before self.old →
            (text : List ℕ) × (after : PoolHistory)
            × PassesPacket options.now before (packet_of packet.now) text after
            × HoldsPooling after self.new × (output.new.items ≡ output.old.items ++ text)) }
    {
        if !packet.is_frame {
            return Ok(());
        }
        self.expire(output, options, packet)?;
        self.process_frame(output, options, packet)
    }

    /// Expires old streams (incomplete payloads) if a new second of the capture has begun since the last check, and
    /// appends their lines, if they are shown.
    #[inline(always)]
    fn expire(
        &mut self,
        output: &mut Vec<u8>,
        options: &DumpOptions,
        packet: &Decoded<'_>,
    ) -> Result<(), AllocError>
        ensures { OnOk result ((before : PoolHistory) → HoldsPooling before self.old →
            HoldsPooling (swept_at options.now before (packet_of packet.now)) self.new
            × (output.new.items ≡ output.old.items ++ expired_text options.now before (packet_of packet.now))) }
    {
        let second = seconds_of(packet.captured.latest);
        if self.swept < second {
            self.swept = second;
            self.pool.expire(packet.captured.latest, options.idle());
            return push_evictions(output, options, packet, self.pool.evicted());
        }
        Ok(())
    }

    /// Passes a packet to the reassembly pool if it carries an IP fragment, and appends the lines of what the pool does
    /// with it.
    #[inline(always)]
    fn process_frame(
        &mut self,
        output: &mut Vec<u8>,
        options: &DumpOptions,
        packet: &Decoded<'_>,
    ) -> Result<(), AllocError>
        ensures { OnOk result ((before : PoolHistory) → HoldsPooling before self.old →
            ProcessesFrame options.now packet.now before self.new output.old.items output.new.items) }
    {
        if !carries_fragment(&packet.read) {
            return Ok(());
        }
        match carried_fragment(&packet.read) {
            Some(carried) => self.process_fragment(output, options, packet, carried),
            None => Ok(()),
        }
    }

    /// Passes the IP fragment of a packet to the reassembly pool. Appends the lines of streams that are evicted or
    /// discarded, if they are shown, and the line of a reassembled payload or rejected fragment, if there is one. With
    /// `--streams 0` no stream stays.
    fn process_fragment(
        &mut self,
        output: &mut Vec<u8>,
        options: &DumpOptions,
        packet: &Decoded<'_>,
        carried: Carried<'_>,
    ) -> Result<(), AllocError>
        requires { Some (plain_carried carried)
            ≡ option_map named_fragment (fragment_in (lax_layers_of packet.now.read)) }
        ensures { OnOk result ((before : PoolHistory) → HoldsPooling before self.old →
            ProcessesFrame options.now packet.now before self.new output.old.items output.new.items) }
    {
        let now = packet.captured.latest;
        let answer = self
            .pool
            .process_fragment(carried.name, &carried.fragment, now);
        check_memory(options, self.pool.evicted())?;
        push_evictions(output, options, packet, self.pool.evicted())?;
        push_answer(output, options, packet, &answer)?;
        if options.streams == 0 {
            self.pool.clear();
            return push_cleared(output, options, packet, &answer);
        }
        Ok(())
    }

    /// Returns the counts of `--reassemble` for the summary: reassembled payloads, rejected fragments, streams that
    /// expired, were evicted or discarded, and streams that are still incomplete.
    pub fn fragments(&self, options: &DumpOptions) -> Fragments
        ensures { (history : PoolHistory) → HoldsPooling history self.now →
            result ≡ fragments_of options.now history }
    {
        Fragments::of(
            &self.pool.statistics(),
            options.reports_evictions(),
            self.pool.stream_count() as u64,
        )
    }
}

/// Returns an error if streams were evicted for their memory without `--fragment-bytes`: more memory than the greatest
/// number of bytes cannot be allocated. `evicted` are the streams that the last call on the reassembly pool evicted.
fn check_memory(options: &DumpOptions, evicted: &[EvictedStream<u64>]) -> Result<(), AllocError>
    ensures { OnOk result (KeepsMemoryOf options.now evicted.now) }
{
    if options.fragment_bytes.is_none() && evicts_for_bytes(evicted) {
        return Err(AllocError);
    }
    Ok(())
}

/// Returns whether one of these streams was evicted for its memory.
fn evicts_for_bytes(evicted: &[EvictedStream<u64>]) -> bool
    ensures { result ≡ list_any (λ one. is_for_bytes one.cause) evicted.now }
{
    evicted.iter().any(|stream| is_for_bytes(stream.cause))
}

/// Returns whether the cause of an eviction is the memory of the streams.
fn is_for_bytes(cause: EvictionCause) -> bool
    ensures { result ≡ is_for_bytes cause }
{
    matches!(cause, EvictionCause::Bytes)
}
