//! Tests of `ep_transport` (UDP, TCP and ICMP) for everything that its contracts don't cover: examples from standards,
//! error texts, and calls that have to succeed.

mod icmp;
mod icmp_types;
mod layers;
mod tcp;
mod tcp_options;
mod udp;
