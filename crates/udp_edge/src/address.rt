//! Addresses and ports by their words.
ghost use Rattle.std.specs.Prelude.{◌≡◌, ◌≤◌, IfSome};
ghost use Rattle.udp_edge.specs.Peers.{octet_of, address_of, port_of};

use roster_text::{number, split_field};

/// The most digits of a field of an address.
const MAX_DIGITS: usize = 3;

/// The greatest port: the one above it is for reports.
const GREATEST_PORT: u32 = 65_534;

/// The address that a word spells: four numbers up to 255, of 1 to 3 digits each, parted by dots.
pub(crate) fn address(word: &[u8]) -> Option<u32>
    ensures { result ≡ address_of word.now }
{
    let (a, fields) = split_field(word, b'.')?;
    let (b, fields) = split_field(fields, b'.')?;
    let (c, d) = split_field(fields, b'.')?;
    if let Some(_) = split_field(d, b'.') {
        return None;
    }
    let (a, b, c, d) = (octet(a)?, octet(b)?, octet(c)?, octet(d)?);
    Some(((a * 256 + b) * 256 + c) * 256 + d)
}

/// The number, up to 255, that 1 to 3 digits spell.
fn octet(field: &[u8]) -> Option<u32>
    ensures value { result ≡ octet_of field.now }
    ensures bound { IfSome result (λ n. n ≤ 255) }
{
    if field.len() > MAX_DIGITS {
        return None;
    }
    number(field, 255)
}

/// The port that a word spells: a number from 1 to 65,534.
pub(crate) fn port(word: &[u8]) -> Option<u16>
    ensures { result ≡ port_of word.now }
{
    match number(word, GREATEST_PORT)? {
        0 => None,
        port => Some(port as u16),
    }
}
