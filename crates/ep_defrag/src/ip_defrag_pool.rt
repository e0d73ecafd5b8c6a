//! The reassembly pool, which reassembles the payloads of many IP datagrams at once.

ghost use Rattle.std.specs.Prelude.{◌≡◌, ◌<◌, ◌↔◌, [], length, min, if◌then◌else◌, Bool, Option, None, IsTrue, IfOk, IfErr, OnOk};
ghost use Rattle.std.specs.Fn.{FnReturnsAt};
ghost use Rattle.std.specs.Option.{option_copied, option_map};
ghost use Rattle.ep_defrag.specs.IpFragments.{fragment_end};
ghost use Rattle.ep_defrag.specs.Streams.{same_stream, source_of};
ghost use Rattle.ep_defrag.specs.Calls.{Kept, kept_by};
ghost use Rattle.ep_defrag.specs.Pools.{limit_of, streams_of, stream_named, held_bytes_of, HoldsTable, LeavesAnswered, HoldsAnswered, IsAnsweredBy, TakesFragment, TakesFrame, fragment_in, plain_payload, payload_in, BufferTakes, BufferRefuses, IsWhetherComplete, ChangesStream};

use crate::MAX_IP_DEFRAG_LEN_U16;
use crate::carried_fragment::carried_fragment;
use crate::fragment::Fragment;
use crate::ip_defrag_buf::IpDefragBuf;
use crate::ip_defrag_error::IpDefragError;
use crate::ip_defrag_payload_vec::IpDefragPayloadVec;
use crate::ip_frag_id::IpFragId;
use crate::laws::names;
use crate::name_hasher::NameHasher;
use crate::spare_buffers::SpareBuffers;
use ep_packet::SlicedPacket;
use std::alloc::Global;
use std::collections::HashMap;
use std::hash::{BuildHasherDefault, Hash};
use std::marker::Model;
use std::mem::replace;

/// State of one IP datagram in a reassembly pool, as long as its payload is incomplete.
#[derive(Drop)]
struct OpenStream<Timestamp> {
    buffer: IpDefragBuf,
    /// Timestamp that came with the last accepted fragment of the datagram.
    timestamp: Timestamp,
}

/// Reassembles the fragmented payloads of many streams, each independently of the others. A stream is the fragments of
/// one IP datagram.
///
/// A stream is identified by an [`IpFragId`]. It begins with its first accepted fragment. It ends when its payload is
/// returned, or when [`retain`](IpDefragPool::retain) or [`remove`](IpDefragPool::remove) drops it.
///
/// A pool has a limit in bytes for the payload of each stream. A fragment that ends above the limit is rejected, so no
/// stream holds more bytes (law `data_within_limit`), and no stream has more than limit / 8 + 1 separate ranges of
/// received bytes (law `sections_within_limit`). The limit bounds the cost of a stream of hostile traffic. The number
/// of streams is bounded only by calls of [`retain`](IpDefragPool::retain) and [`remove`](IpDefragPool::remove).
///
/// Streams are found by their identifiers in a hash map. Its hash has a fixed seed, so a sender who chooses identifiers
/// can choose keys that collide, and a look-up takes time in proportion to their number.
///
/// The memory of a stream that ended is used again by later streams. For them the pool keeps vectors of two types,
/// payload bytes and byte ranges. Of each type it keeps at most the greatest number of streams that were open at once,
/// rounded up to the capacity of the list of these vectors, which grows by doubling (`Vec`). Only dropping the pool
/// frees them.
#[derive(Drop)]
pub struct IpDefragPool<Timestamp, CustomChannelId: Eq + Hash> {
    alloc: Global,
    /// Greatest allowed length of a reassembled payload, in bytes. A fragment that ends above it is rejected.
    limit: u16,
    streams: HashMap<
        IpFragId<CustomChannelId>,
        OpenStream<Timestamp>,
        BuildHasherDefault<NameHasher>,
    >,
    /// Vectors of datagrams that were completed or dropped, whose memory new datagrams use.
    spare: SpareBuffers,
}

impl<Timestamp, CustomChannelId: Eq + Hash> Model for IpDefragPool<Timestamp, CustomChannelId> {
    ghost use Rattle.std.specs.Prelude.{ℕ, List};
    ghost use Rattle.ep_defrag.specs.declared.ip_frag_id.IpFragId.{IpFragId};
    ghost use Rattle.ep_defrag.specs.declared.ip_defrag_pool.OpenStream.{OpenStream};

    ghost Value = { ℕ × List (IpFragId CustomChannelId × OpenStream Timestamp) };

    ghost view = { λ pool. (pool.limit, pool.streams.entries) };
}

impl<Timestamp: Drop, CustomChannelId: Eq + Hash + Drop> IpDefragPool<Timestamp, CustomChannelId> {
    /// Returns an empty reassembly pool that allocates from `alloc` and accepts payloads of up to 65535 bytes.
    pub fn new(alloc: Global) -> IpDefragPool<Timestamp, CustomChannelId>
        ensures holds { HoldsTable CustomChannelId.eq result (λ name. None) }
        ensures streams { streams_of result ≡ [] }
        ensures limit { limit_of result ≡ 65535 }
    {
        IpDefragPool::with_limit(alloc, MAX_IP_DEFRAG_LEN_U16)
    }

    /// Returns an empty reassembly pool that allocates from `alloc` and rejects each fragment that ends above `max`
    /// bytes, so no payload gets longer. If `max` is below 8, fragments that packets carry never complete a payload
    /// (law `small_limits_complete_nothing`).
    pub fn with_limit(alloc: Global, max: u16) -> IpDefragPool<Timestamp, CustomChannelId>
        ensures holds { HoldsTable CustomChannelId.eq result (λ name. None) }
        ensures streams { streams_of result ≡ [] }
        ensures limit { limit_of result ≡ max }
    {
        IpDefragPool {
            alloc,
            limit: max,
            streams: HashMap::with_hasher(alloc, BuildHasherDefault::new()),
            spare: SpareBuffers::new(alloc),
        }
    }

    /// Number of open streams of a reassembly pool: IP datagrams with accepted fragments that are still incomplete.
    #[inline]
    pub fn stream_count(&self) -> usize
        ensures { result ≡ length (streams_of self.now) }
    {
        self.streams.len()
    }

    /// Number of payload bytes that a reassembly pool holds for incomplete datagrams. For each datagram it counts the
    /// greatest end of the accepted fragments, gaps included. Payloads that were returned to the caller are not
    /// counted. It visits every datagram.
    pub fn held_bytes(&self) -> usize
        ensures { result ≡ min (held_bytes_of self.now) usize.MAX }
    {
        let mut total: usize = 0;
        for stream in self.streams.values() {
            total = total.saturating_add(stream.buffer.data().len());
        }
        total
    }

    /// Timestamp that came with the last accepted fragment of the stream `id`, or `None` if the pool holds no open
    /// stream of this identifier.
    pub fn timestamp(&self, id: &IpFragId<CustomChannelId>) -> Option<&Timestamp>
        ensures { option_copied result
            ≡ option_map (λ stream. stream.timestamp) (stream_named CustomChannelId.eq id.now self.now) }
    {
        // Keys are equal exactly if they identify the same stream.
        names::<CustomChannelId>();
        match self.streams.get(id) {
            Some(stream) => Some(&stream.timestamp),
            None => None,
        }
    }

    /// Adds the fragment that a sliced packet carries to its stream in the reassembly pool, and returns the payload if
    /// this fragment completes it. It returns `Ok(None)` if the payload is still incomplete, or if the packet carries
    /// no fragment, which changes nothing.
    ///
    /// Every open stream can still be completed, if the limit of the pool is at least 8 (law `two_frames_complete`).
    pub fn process_sliced_packet(
        &mut self,
        packet: &SlicedPacket<'_>,
        timestamp: Timestamp,
        channel_id: CustomChannelId,
    ) -> Result<Option<IpDefragPayloadVec>, IpDefragError>
        ensures { TakesFrame CustomChannelId.eq self.old self.new (fragment_in packet.now) timestamp channel_id
            result }
    {
        let Some(carried) = carried_fragment(packet) else {
            return Ok(None);
        };
        let id = IpFragId {
            vlan_ids: carried.vlan_ids,
            ip: carried.ip,
            payload_ip_number: carried.payload_ip_number,
            channel_id,
        };
        self.process_fragment(id, &carried.fragment, timestamp)
    }

    /// Adds a fragment to the stream `id` of the reassembly pool. It returns the reassembled payload if this fragment
    /// completes it, and `Ok(None)` if bytes are still missing.
    ///
    /// The first accepted fragment begins the stream. A rejected fragment changes nothing.
    ///
    /// # Errors
    ///
    /// The errors of [`IpDefragBuf::add`], with the limit of the pool in place of 65535. `AllocationFailure` is
    /// returned only if no other error holds, and it changes nothing either.
    pub fn process_fragment(
        &mut self,
        id: IpFragId<CustomChannelId>,
        fragment: &Fragment,
        timestamp: Timestamp,
    ) -> Result<Option<IpDefragPayloadVec>, IpDefragError>
        ensures { TakesFragment CustomChannelId.eq self.old self.new id fragment.now timestamp result }
    {
        // Keys are equal exactly if they identify the same stream.
        names::<CustomChannelId>();
        let Some(stream) = self.streams.get_mut(&id) else {
            return self.begin_stream(id, fragment, timestamp);
        };
        let payload_complete = match add(self.limit, &mut stream.buffer, fragment) {
            Ok(payload_complete) => payload_complete,
            Err(error) => return Err(error),
        };
        stream.timestamp = timestamp;
        if !payload_complete {
            return Ok(None);
        }
        Ok(self.complete_stream(&id))
    }

    /// Begins a stream with its first fragment. It returns the payload at once if this fragment alone is the complete
    /// payload, and `Ok(None)` otherwise.
    fn begin_stream(
        &mut self,
        id: IpFragId<CustomChannelId>,
        fragment: &Fragment,
        timestamp: Timestamp,
    ) -> Result<Option<IpDefragPayloadVec>, IpDefragError>
        requires { stream_named CustomChannelId.eq id self.old ≡ None }
        ensures { TakesFragment CustomChannelId.eq self.old self.new id fragment.now timestamp result }
    {
        // Keys are equal exactly if they identify the same stream.
        names::<CustomChannelId>();
        let mut buffer = self.spare.take(id.payload_ip_number);
        let payload_complete = match add(self.limit, &mut buffer, fragment) {
            Ok(payload_complete) => payload_complete,
            Err(error) => {
                self.spare.keep(buffer);
                return Err(error);
            }
        };
        let len = usize::from(fragment.offset.byte_offset()) + fragment.payload.len();
        if self.spare.reserve(self.streams.len() + 1).is_err() {
            self.spare.keep(buffer);
            return Err(IpDefragError::AllocationFailure { len });
        }
        if payload_complete {
            let (payload, sections) = buffer.take_bufs();
            self.spare.keep_sections(sections);
            return Ok(Some(payload_of(&id, payload)));
        }
        if let Err(refused) = self.streams.insert(id, OpenStream { buffer, timestamp }) {
            let (_, stream) = refused.value;
            self.spare.keep(stream.buffer);
            return Err(IpDefragError::AllocationFailure { len });
        }
        Ok(None)
    }

    /// Removes a stream from the reassembly pool and returns its bytes as the reassembled payload, or `None` if the
    /// pool has no such stream.
    fn complete_stream(&mut self, id: &IpFragId<CustomChannelId>) -> Option<IpDefragPayloadVec>
        ensures payload { option_map plain_payload result
            ≡ option_map (payload_in id.now) (stream_named CustomChannelId.eq id.now self.old) }
        ensures ends { ChangesStream CustomChannelId.eq self.old self.new id.now None }
    {
        // Keys are equal exactly if they identify the same stream.
        names::<CustomChannelId>();
        let stream = self.streams.remove(id)?;
        let (payload, sections) = stream.buffer.take_bufs();
        self.spare.keep_sections(sections);
        Some(payload_of(id, payload))
    }

    /// Keeps the streams (incomplete datagrams) of a reassembly pool for whose timestamp `keep` returns true, and drops
    /// all others. It calls `keep` once for each stream.
    pub fn retain<F: Fn(&Timestamp) -> bool + Drop>(&mut self, keep: F)
        requires { F.IsAlwaysCallable keep }
        ensures holds { (table : IpFragId CustomChannelId → Option (Kept Timestamp)) →
            HoldsTable CustomChannelId.eq self.old table → (answers : Timestamp → Bool) →
            IsAnsweredBy F.Fn keep answers →
            HoldsTable CustomChannelId.eq self.new (λ name. kept_by answers (table name)) }
        // For any `keep`, even if its answers are no function of the timestamp: one of its answers decides each entry
        // and each stream of the pool.
        ensures entries { (table : IpFragId CustomChannelId → Option (Kept Timestamp)) →
            HoldsTable CustomChannelId.eq self.old table →
            HoldsAnswered CustomChannelId.eq F.Fn keep table self.new }
        ensures answered { LeavesAnswered F.Fn keep self.old self.new }
    {
        let alloc = self.alloc;
        let spare = &mut self.spare;
        self.streams.retain(
            |_id: &IpFragId<CustomChannelId>, stream: &mut OpenStream<Timestamp>| -> bool
                requires { F.IsAlwaysCallable keep }
                ensures asked { FnReturnsAt F.Fn keep stream.old.timestamp result }
                ensures stays { IsTrue result → stream.new ≡ stream.old }
            {
                if keep(&stream.timestamp) {
                    return true;
                }
                let emptied = IpDefragBuf::new(
                    stream.buffer.ip_number(),
                    Vec::new(alloc),
                    Vec::new(alloc),
                );
                spare.keep(replace(&mut stream.buffer, emptied));
                false
            },
        );
    }

    /// Drops the stream `id` from the reassembly pool and returns the timestamp of its last accepted fragment, or
    /// `None` if it is not open. All other streams stay unchanged.
    pub fn remove(&mut self, id: &IpFragId<CustomChannelId>) -> Option<Timestamp>
        ensures timestamp { result
            ≡ option_map (λ stream. stream.timestamp) (stream_named CustomChannelId.eq id.now self.old) }
        ensures holds { (table : IpFragId CustomChannelId → Option (Kept Timestamp)) →
            HoldsTable CustomChannelId.eq self.old table → HoldsTable CustomChannelId.eq self.new
            (λ name. if same_stream CustomChannelId.eq id.now name then None else table name) }
        ensures ends { ChangesStream CustomChannelId.eq self.old self.new id.now None }
    {
        // Keys are equal exactly if they identify the same stream.
        names::<CustomChannelId>();
        let stream = self.streams.remove(id)?;
        self.spare.keep(stream.buffer);
        Some(stream.timestamp)
    }

    /// Takes back a reassembled payload that the pool returned earlier, so that a later stream can use its memory. The
    /// memory is freed if the pool already keeps as many vectors as it can. The open streams stay unchanged.
    pub fn return_buf(&mut self, buf: IpDefragPayloadVec)
        ensures holds { (table : IpFragId CustomChannelId → Option (Kept Timestamp)) →
            HoldsTable CustomChannelId.eq self.old table → HoldsTable CustomChannelId.eq self.new table }
        ensures streams { streams_of self.new ≡ streams_of self.old }
        ensures limit { limit_of self.new ≡ limit_of self.old }
    {
        self.spare.keep_bytes(buf.payload);
    }
}

/// Adds a fragment to a reassembly buffer, and returns whether the payload is now complete. A fragment that ends above
/// `limit` bytes is rejected with `SegmentTooBig`.
fn add(limit: u16, buffer: &mut IpDefragBuf, fragment: &Fragment) -> Result<bool, IpDefragError>
    ensures takes { OnOk result (BufferTakes limit buffer.old buffer.new fragment.now) }
    ensures complete { IfOk result (IsWhetherComplete buffer.new) }
    ensures refuses { IfErr result (BufferRefuses limit buffer.old buffer.new fragment.now) }
{
    if is_too_long(limit, fragment) {
        return Err(IpDefragError::SegmentTooBig {
            offset: fragment.offset,
            payload_len: fragment.payload.len(),
            max: limit,
        });
    }
    if let Err(error) = buffer.add(fragment.offset, fragment.more_fragments, fragment.payload) {
        return Err(error);
    }
    Ok(buffer.is_complete())
}

/// Returns whether a fragment ends above `limit` bytes from the start of the payload.
pub(crate) fn is_too_long(limit: u16, fragment: &Fragment) -> bool
    ensures { IsTrue result ↔ (limit < fragment_end fragment.now) }
{
    usize::from(limit) < usize::from(fragment.offset.byte_offset()) + fragment.payload.len()
}

/// Returns the reassembled payload with the bytes `payload`. Its protocol number and its length source (the length
/// field of the IP version) are taken from `id`, the identifier of its stream.
pub(crate) fn payload_of<CustomChannelId>(
    id: &IpFragId<CustomChannelId>,
    payload: Vec<u8>,
) -> IpDefragPayloadVec
    ensures { plain_payload result ≡ record {
      ip_number = id.now.payload_ip_number;
      len_source = source_of id.now.ip;
      bytes = payload.items;
    } }
{
    IpDefragPayloadVec {
        ip_number: id.payload_ip_number,
        len_source: id.ip.len_source(),
        payload,
    }
}
