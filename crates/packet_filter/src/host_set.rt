//! Sets of hosts: hosts in a filter that are joined by `or`, such as `host 10.0.0.1 or 10.0.0.2 or 10.0.0.3`.

ghost use Rattle.std.specs.Prelude.{◌≡◌, ◌≤◌, ◌*◌, ◌==◌, ◌||◌, length, true, IfSome, IsTrue};
ghost use Rattle.std.specs.List.Sorted.{IsSorted};
ghost use Rattle.std.specs.Ordering.{nat_cmp};
ghost use Rattle.filter_tokens.specs.declared.network.Network.{Network};
ghost use Rattle.filter_tokens.specs.declared.primitive.Primitive.TheVariants.{Address};
ghost use Rattle.filter_tokens.specs.Networks.{address_bytes};
ghost use Rattle.packet_filter.specs.HostRuns.{BeginsHost, IsHost, host_number};

use crate::addresses::{HasAddress, has_address};
use crate::subject::Subject;
use filter_language::step::{Step, split_steps};
use filter_tokens::network::{Network, number_of};
use filter_tokens::primitive::{AddressLayer, Primitive, Side};
use std::alloc::{AllocError, Global};

/// Least number of hosts in a set. Fewer hosts are compared one after the other.
const LEAST_HOSTS: usize = 4;

/// Set of hosts in the steps of a filter: pairs of a step that skips one step if the value is true, and the test of a
/// host.
#[derive(Drop)]
pub(crate) struct HostSet {
    /// Number of steps from the first pair to the end of the filter.
    pub left: usize,
    /// Number of steps of all pairs.
    pub len: usize,
    /// Network layer of the addresses.
    layer: AddressLayer,
    /// Which address of a packet is searched for: the source, the destination or either.
    side: Side,
    /// Length of each address in bytes: 4 or 16.
    width: usize,
    /// Addresses as big-endian numbers, in ascending order.
    numbers: Vec<u128>,
    ghost wide: { ((width == 4) || (width == 16)) ≡ true },
    ghost sorted: { IsSorted nat_cmp numbers.items },
}

impl HostSet {
    ghost use Rattle.std.specs.Prelude.{◌≡◌, ◌≢◌, ◌⊎◌, ◌||◌, IfOk, IfSome};
    ghost use Rattle.packet_filter.specs.HostSets.{BeginsHostSet, matches_set};
    ghost use Rattle.packet_filter.specs.Shown.{shown_packet};

    /// Reads the set of hosts that the steps begin with; `None` if there are fewer than four.
    pub fn read(alloc: Global, steps: &[Step]) -> Result<Option<HostSet>, AllocError>
        ensures { IfOk result (λ found. IfSome found (BeginsHostSet steps.now)) }
    {
        match steps {
            [_, Step::Test(Primitive::Address(_, Side::Both, _)), ..] => Ok(None),
            [_, Step::Test(Primitive::Address(layer, side, network)), ..] => {
                HostSet::read_hosts(alloc, steps, *layer, *side, network.width())
            }
            _ => Ok(None),
        }
    }

    /// Reads the hosts of this network layer, side and length in bytes that the steps begin with; `None` if there are
    /// fewer than four.
    fn read_hosts(
        alloc: Global,
        steps: &[Step],
        layer: AddressLayer,
        side: Side,
        width: usize,
    ) -> Result<Option<HostSet>, AllocError>
        requires side { side ≢ Side.Both }
        requires width { (width ≡ 4) ⊎ (width ≡ 16) }
        ensures { IfOk result (λ found. IfSome found (BeginsHostSet steps.now)) }
    {
        let mut numbers = Vec::new(alloc);
        let mut rest = steps;
        'hosts: while let Some(number) = host_at(rest, layer, side, width) {
            numbers.push(number)?;
            rest = split_steps(rest, 2).1;
        }
        if numbers.len() < LEAST_HOSTS {
            return Ok(None);
        }
        numbers.sort_unstable();
        Ok(Some(HostSet {
            left: steps.len(),
            len: steps.len() - rest.len(),
            layer,
            side,
            width,
            numbers,
        }))
    }

    /// Returns true if `holds`, or if a host of the set matches a packet.
    pub fn or_matches(&self, holds: bool, subject: &Subject<'_, '_>) -> bool
        ensures { result ≡ (holds || matches_set self.now (shown_packet subject.now)) }
    {
        holds || self.matches(subject)
    }

    /// Returns true if a host of the set matches a packet.
    fn matches(&self, subject: &Subject<'_, '_>) -> bool
        ensures { result ≡ matches_set self.now (shown_packet subject.now) }
    {
        match &subject.packet.net {
            Some(net) => has_address(self.layer, self.side, self, net),
            None => false,
        }
    }
}

impl HasAddress for HostSet {
    ghost use Rattle.packet_filter.specs.HostSets.{is_one_of};

    ghost holds = { is_one_of };

    fn has(&self, address: &[u8]) -> bool {
        address.len() == self.width
            && self
                .numbers
                .as_slice()
                .binary_search(&number_of(address))
                .is_ok()
    }
}

/// Returns the number of the host that the steps begin with, after a step that skips its test if the value is true;
/// `None` if they begin with others, or with a host of another layer, side or length in bytes.
fn host_at(steps: &[Step], layer: AddressLayer, side: Side, width: usize) -> Option<u128>
    ensures { IfSome result (BeginsHost layer side width steps.now) }
{
    match steps {
        [Step::SkipIfTrue(1), Step::Test(primitive), ..] => {
            tested_host(primitive, layer, side, width)
        }
        _ => None,
    }
}

/// Returns the number of the host that a primitive tests for; `None` if it tests for something else, or for a host of
/// another layer, side or length in bytes.
fn tested_host(primitive: &Primitive, layer: AddressLayer, side: Side, width: usize) -> Option<u128>
    ensures { IfSome result (λ number. (host : Network) × (primitive.now ≡ Address layer side host)
        × IsHost width host × (number ≡ host_number host)) }
{
    match primitive {
        Primitive::Address(of, at, network)
            if *of == layer && *at == side && is_host(network, width) => { Some(network.number()) }
        _ => None,
    }
}

/// Returns true if a network is one address of this length in bytes.
fn is_host(network: &Network, width: usize) -> bool
    ensures { IsTrue result → (length (address_bytes network.now.address) ≡ width)
        × (8 * width ≤ network.now.bits) }
{
    network.width() == width && width <= network.bits as usize / 8
}
