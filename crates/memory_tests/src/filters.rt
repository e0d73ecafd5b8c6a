//! Tests of filter expressions whose allocations fail: a filter allocates for its steps and for open levels, and for its
//! text while it is printed.

use crate::checks::*;
use packet_filter::{Filter, FilterErrorKind};
use std::alloc::Global;
use std::process::Abort;

/// Parses a filter. If an allocation fails, it prints so and asserts that a second try succeeds.
fn parsed(rt: &(impl Abort + Print), alloc: Global, text: &str) -> Filter {
    match Filter::parse(alloc, text) {
        Ok(filter) => filter,
        Err(error) => {
            same(rt, &error.kind, &FilterErrorKind::Memory);
            refused(rt, "Filter::parse");
            Filter::parse(alloc, text).expect(rt, "refused twice")
        }
    }
}

/// Combines two filters. If an allocation fails, it prints so and asserts that a second try succeeds.
fn combined(rt: &(impl Abort + Print), alloc: Global, left: &str, right: &str) -> Filter {
    match parsed(rt, alloc, left).both(parsed(rt, alloc, right)) {
        Ok(filter) => filter,
        Err(_) => {
            refused(rt, "Filter::both");
            let filter = parsed(rt, alloc, left);
            filter
                .both(parsed(rt, alloc, right))
                .expect(rt, "refused twice")
        }
    }
}

/// Returns the text of a filter. If an allocation fails, it prints so and asserts that a second try succeeds.
fn text_of(rt: &(impl Abort + Print), alloc: Global, filter: &Filter) -> Vec<u8> {
    let mut text = Vec::new(alloc);
    if filter.append_text(&mut text).is_err() {
        refused(rt, "append_text of Filter");
        text = Vec::new(alloc);
        filter.append_text(&mut text).expect(rt, "refused twice");
    }
    text
}

#[test]
fn expressions(rt: HostRuntime) {
    let filter = combined(
        &rt,
        rt.alloc(),
        "not (host 10.0.0.1 or ::1) and tcp[13] & 2 != 0 and (vlan or not arp)",
        "udp port 53 or 5353 or 80",
    );
    same(
        &rt,
        &text_of(&rt, rt.alloc(), &filter).as_slice(),
        &b"not (src or dst host 10.0.0.1 or src or dst host ::1) and tcp[13:1] & 2 != 0 and (vlan or not \
            ether proto 0x0806) and (udp src or dst port 53 or udp src or dst port 5353 or udp src or \
            dst port 80)"
            .as_slice(),
    );
}

/// Tests that errors of a text and the empty filter need no memory.
#[test]
fn errors(rt: HostRuntime) {
    let error = Filter::parse(rt.alloc(), "host 10.0.0")
        .err()
        .expect(&rt, "a filter");
    same(&rt, &error.kind, &FilterErrorKind::NotAnAddress);
    same(&rt, &parsed(&rt, rt.alloc(), "").is_empty(), &true);
    asks_once(&rt, rt.alloc());
}
