//! Example program: reassembles the IP payloads that are fragmented over several Ethernet frames, within fixed memory,
//! whatever is sent. Each line of standard input is a time in seconds and a frame in hexadecimal.
#![tactic(auto)]

ghost use Rattle.std.specs.Prelude.{◌≡◌, IsErrAnd, IsOkAnd};
ghost use Rattle.etherparse.specs.Frame.{IsFrame};
ghost use Rattle.etherparse.specs.FrameRefusals.{RefusesFrame};
ghost use Rattle.etherparse.specs.Layers.{Layers};
ghost use Rattle.etherparse.specs.Types.Entry.TheVariants.{Ethernet as ethernet};
ghost use Rattle.example_reader.specs.Reading.{Takes, Expires};
ghost use Rattle.example_reader.specs.declared.TheConstants as constant;

use etherparse::defrag::{
    BoundedDefragError, BoundedDefragPool, DefragLimits, IpDefragPayloadVec, OverlapPolicy,
};
use etherparse::err::packet::SliceError;
use etherparse::{Entry, SlicedPacket};
use std::hash::RandomState;
use std::io;

/// Bounded pool, which collects the fragments of IP datagrams until their payloads are complete. All frames are from one
/// network, so no channel identifier (`()`) is needed to keep sources apart. Timestamps are in seconds.
pub type Pool = BoundedDefragPool<()>;

/// Result of adding a frame to the bounded pool: the payload if the frame's fragment completes it, `None` if it does not
/// or the frame has no fragment, or the error of the fragment.
pub type Answer = Result<Option<IpDefragPayloadVec>, BoundedDefragError>;

/// Limits of the pool: 1,000 datagrams and 16 MB, each datagram for at most 60 seconds (RFC 8200, 4.5). A datagram of
/// which two versions arrive is discarded.
const LIMITS: DefragLimits = DefragLimits {
    streams: 1000,
    bytes: 16_000_000,
    payload: u16::MAX,
    age: 60,
    overlap: OverlapPolicy::Discard,
};

/// Number of seconds for which the fragments of an incomplete IP payload are kept after the last of them was accepted.
const IDLE: u128 = 30;

fn main(rt: HostRuntime) -> io::Result<()> {
    let alloc = rt.alloc();
    // The keys are random, so that no sender can choose datagrams whose hashes collide.
    let mut pool = BoundedDefragPool::new(alloc, LIMITS, RandomState::new(&rt)?)?;
    let mut second = 0;
    for line in rt.lines(alloc) {
        let line = line?;
        let Some((time, text)) = line.as_str().split_once(' ') else {
            continue;
        };
        let (Ok(time), Ok(frame)) = (time.parse::<u128>(), hex::decode(alloc, text)) else {
            continue;
        };
        if time > second {
            second = time;
            expire(&mut pool, time);
            print_evicted(&rt, &pool)?;
        }
        match take(&mut pool, frame.as_slice(), time) {
            Ok(answer) => {
                print_answer(&rt, answer)?;
                print_evicted(&rt, &pool)?;
            }
            Err(error) => println!(rt; "{error}")?,
        }
    }
    Ok(())
}

/// Slices an Ethernet frame, and adds its IP fragment to the bounded pool at this time; a frame without a fragment
/// changes no datagram. Returns `Err` if the bytes are not a frame; the pool is then unchanged.
pub fn take(pool: &mut Pool, frame: &[u8], time: u128) -> Result<Answer, SliceError>
    ensures frames { (layers : Layers) → IsFrame ethernet frame.now layers
        → IsOkAnd result (Takes ⟦<() as PartialEq>⟧.eq layers time pool.old pool.new) }
    ensures others { ((layers : Layers) → ¬ IsFrame ethernet frame.now layers)
        → IsErrAnd result (RefusesFrame ethernet frame.now) × (pool.new ≡ pool.old) }
{
    let mut packet = SlicedPacket::new();
    match packet.slice_into(Entry::Ethernet, frame) {
        Ok(()) => Ok(pool.process_sliced_packet(&packet, time, ())),
        Err(error) => Err(error),
    }
}

/// Evicts the datagrams that are older than the age of the limits, or whose last accepted fragment arrived more than 30
/// seconds before this time.
pub fn expire(pool: &mut Pool, time: u128)
    ensures { Expires ⟦<() as PartialEq>⟧.eq time constant.IDLE pool.old pool.new }
{
    pool.expire(time, IDLE);
}

/// Prints a payload that is complete, with its IP protocol number, or the error of a fragment.
fn print_answer(rt: &(impl AllocGlobal + Print), answer: Answer) -> io::Result<()> {
    match answer {
        Ok(Some(payload)) => {
            let bytes = hex::encode(rt.alloc(), payload.payload.as_slice())?;
            println!(rt; "{} {bytes}", payload.ip_number.0)
        }
        Ok(None) => Ok(()),
        Err(error) => println!(rt; "{error}"),
    }
}

/// Prints a line for each datagram that the last call evicted or discarded: its cause, and the time of its first
/// fragment.
fn print_evicted(rt: &impl Print, pool: &Pool) -> io::Result<()> {
    for evicted in pool.evicted() {
        println!(rt; "{:?}, begun at {}", evicted.cause, evicted.first)?;
    }
    Ok(())
}
