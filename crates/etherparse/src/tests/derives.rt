//! Tests of derived traits of public types that no law and no other test uses: a call here does not compile if a derive
//! is missing.

use crate::defrag::*;
use crate::err::ip::HeadersWriteError;
use crate::err::net::NetSetNextHeaderError;
use crate::err::packet::{BuildSliceWriteError, BuildWriteError, SliceError};
use crate::*;
use std::error::Error;
use std::fmt::Debug;
use std::hash::Hash;

fn copies_and_orders<T: Copy + Clone + Debug + Hash + Ord>() {}

fn copies_and_hashes<T: Copy + Clone + Debug + Hash + Eq>() {}

fn clones_and_orders<T: Clone + Debug + Hash + Ord>() {}

fn clones_and_hashes<T: Clone + Debug + Hash + Eq>() {}

fn orders<T: Debug + Hash + Ord>() {}

fn hashes<T: Debug + Hash + Eq>() {}

fn copies<T: Copy + Clone + Debug + Eq>() {}

fn clones<T: Clone + Debug + Eq>() {}

fn compares<T: Debug + Eq>() {}

fn is_printed<T: Debug>() {}

fn is_error<T: Clone + Debug + Eq + Error>() {}

#[test]
fn derived_traits() {
    clones_and_orders::<PayloadSlice<'_>>();
    clones_and_hashes::<NetSetNextHeaderError>();
    copies::<Entry>();
    clones::<IpHeaders>();
    is_error::<SliceError>();
    is_error::<NetSetNextHeaderError>();
    is_error::<HeadersWriteError>();
    is_error::<BuildWriteError>();
    is_error::<BuildSliceWriteError>();
    copies_and_orders::<IpFragRange>();
    clones_and_orders::<IpDefragError>();
    clones_and_hashes::<IpFragVersionSpecId>();
    orders::<IpDefragBuf>();
    hashes::<IpFragId<u8>>();
    compares::<IpDefragPayloadVec>();
    copies_and_hashes::<DefragLimits>();
    copies_and_hashes::<OverlapPolicy>();
    copies_and_hashes::<EvictionCause>();
    copies::<DefragStatistics>();
    clones::<BoundedDefragError>();
    compares::<PoolAnswer>();
    compares::<FrameAnswer>();
    compares::<RunStop>();
    is_printed::<Fragment<'_>>();
    is_printed::<EvictedStream<u8>>();
    is_printed::<PoolCall<'_, u64, u8, u64>>();
    is_printed::<FrameCall<'_, u64, u8, u64>>();
}
