//! Keyed hashes of stream identifiers.

ghost use Rattle.std.specs.Prelude.{◌≡◌, ◌+◌, ◌<◌, ◌^◌, fold};
ghost use Rattle.std.specs.List.{flat_map};
ghost use Rattle.std.specs.Hash.{u64};
ghost use Rattle.ep_defrag.specs.KeyedHashes.{version_word, first_word, address_writes, name_hash};

use crate::ip_frag_id::{IpFragId, IpFragVersionSpecId};
use std::hash::{BuildHasher, Hash, Hasher, RandomState};

/// Returns the hash of an identifier under secret keys. It writes words of eight bytes, which SipHash takes fastest:
/// one for the protocol number, the version, the identification and the number of VLAN identifiers, one for each of
/// these, one for two IPv4 addresses or two for each IPv6 address, and the channel as it hashes itself.
pub(crate) fn hash_of<CustomChannelId: Hash>(
    keys: &RandomState,
    id: &IpFragId<CustomChannelId>,
) -> u64
    ensures { result ≡ name_hash CustomChannelId.hash_input keys.now id.now }
{
    let mut hasher = keys.build_hasher();
    hasher.write_u64(word_of(id));
    write_tags(&mut hasher, id);
    write_addresses(&mut hasher, &id.ip);
    id.channel_id.hash(&mut hasher);
    hasher.finish()
}

/// Returns the first word of an identifier: its protocol number, version, number of VLAN identifiers and
/// identification.
fn word_of<CustomChannelId>(id: &IpFragId<CustomChannelId>) -> u64
    ensures { result ≡ first_word id.now }
{
    let tags = id.vlan_ids.as_slice().len() as u64;
    header_word(&id.ip, id.payload_ip_number.0) + tags * 0x1_0000
}

/// Returns the part of the first word that comes from the IP headers: the protocol number, the version and the
/// identification.
fn header_word(ip: &IpFragVersionSpecId, protocol: u8) -> u64
    ensures shown { result ≡ version_word ip.now + protocol }
    ensures fits { result + 2 ^ 24 < 2 ^ 64 }
{
    match ip {
        IpFragVersionSpecId::Ipv4 { identification, .. } => {
            u64::from(*identification) * 0x1_0000_0000 + 0x400 + u64::from(protocol)
        }
        IpFragVersionSpecId::Ipv6 { identification, .. } => {
            u64::from(*identification) * 0x1_0000_0000 + 0x600 + u64::from(protocol)
        }
    }
}

/// Writes the VLAN identifiers of an identifier to a hasher, one word for each.
fn write_tags<CustomChannelId, H: Hasher>(hasher: &mut H, id: &IpFragId<CustomChannelId>)
    ensures { hasher.new ≡ fold H.write hasher.old (flat_map u64 id.now.vlan_ids.items) }
{
    for vlan_id in id.vlan_ids.as_slice() {
        hasher.write_u64(u64::from(vlan_id.value()));
    }
}

/// Writes the addresses of an identifier to a hasher: two IPv4 addresses as one word, each IPv6 address as 16 bytes.
fn write_addresses<H: Hasher>(hasher: &mut H, ip: &IpFragVersionSpecId)
    ensures { hasher.new ≡ fold H.write hasher.old (address_writes ip.now) }
{
    match ip {
        IpFragVersionSpecId::Ipv4 {
            source,
            destination,
            ..
        } => {
            let source = u32::from_le_bytes(*source);
            let destination = u32::from_le_bytes(*destination);
            hasher.write_u64(u64::from(source) * 0x1_0000_0000 + u64::from(destination));
        }
        IpFragVersionSpecId::Ipv6 {
            source,
            destination,
            ..
        } => {
            hasher.write(source);
            hasher.write(destination);
        }
    }
}
