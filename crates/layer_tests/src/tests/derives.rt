//! Tests that the public types of the header crates (except `ip::LaxHeaderSliceError`) have their derived traits: a
//! derive that nothing uses could be removed unnoticed. The types are listed in tuples, which have a trait if all of
//! their elements have it.

use std::error::Error;
use std::fmt::Debug;
use std::hash::Hash;

mod base;
mod ip;
mod link;
mod transport;

fn are_copied_ordered_and_hashed<T: Copy + Debug + Eq + Ord + Hash>() {}

fn are_ordered_and_hashed<T: Clone + Debug + Eq + Ord + Hash>() {}

fn are_hashed<T: Clone + Debug + Eq + Hash>() {}

fn are_errors<A: Error, B: Error, C: Error>() {}

fn is_copied<T: Copy + Debug + Eq>() {}

fn are_compared<T: Clone + Debug + Eq>() {}

fn have_defaults<T: Default>() {}
