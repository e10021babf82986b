//! The words of a recording: an address, a query and a count.

ghost use Rattle.std.specs.Prelude.{◌≡◌, ◌≤◌, is_ok, option_map, IfSome};
ghost use Rattle.std.specs.List.{list_all};
ghost use Rattle.satip_base.specs.Numbers.{ip_of, number_of};
ghost use Rattle.satip_query.specs.Reading.{query_of};
ghost use Rattle.satip_tune.specs.Pieces.{pieces_left};
ghost use Rattle.satip_recorder.specs.Words.{address_of, at_port, is_query, is_seen, port_in, positive, wanted, wanted_by, wanted_of};

use satip_base::{Address, read_ip, read_number};
use satip_query::{Query, read};
use satip_tune::cut;

/// The port of an RTSP server if none is given (RFC 2326, section 3.2).
const RTSP_PORT: u16 = 554;

/// The stream to record and its server: the server's address as a text and as a value, the query of
/// the stream, and the number of packets.
#[derive(Clone, Copy)]
pub struct Recording<'w> {
    pub address: &'w [u8],
    pub to: Address,
    pub query: &'w [u8],
    pub count: u32,
}

impl<'w> Recording<'w> {
    /// Reads the three words. The address is an IPv4 address, and `:` and a port after it if that
    /// isn't 554. The query is one that a server reads, and has only bytes from 0x21 to 0x7E. The
    /// count is from 1 to 1000000.
    pub fn read(address: &'w [u8], query: &'w [u8], count: &[u8]) -> Option<Recording<'w>>
        ensures wanted { option_map wanted result ≡ wanted_of address.now query.now count.now }
        ensures some { IfSome result (λ recording. 1 ≤ recording.count) }
        ensures few { IfSome result (λ recording. recording.count ≤ 1000000) }
    {
        let Some(to) = read_address(address) else {
            return None;
        };
        if !is_wanted_query(query) {
            return None;
        }
        match read_positive(count, 1000000) {
            Some(count) => Some(Recording {
                address,
                to,
                query,
                count: count as u32,
            }),
            None => None,
        }
    }
}

fn read_address(text: &[u8]) -> Option<Address>
    ensures address { result ≡ address_of text.now }
{
    let (host, rest) = cut(text, b':');
    let Some(ip) = read_ip(host) else {
        return None;
    };
    match read_port(rest) {
        Some(port) => Some(Address { ip, port }),
        None => None,
    }
}

#[tactic(auto, using(crate::proofs::WordLemmas::two_ports))]
fn read_port(rest: Option<&[u8]>) -> Option<u16>
    ensures port { result ≡ port_in (pieces_left 58 rest.entry) }
{
    let Some(text) = rest else {
        return Some(RTSP_PORT);
    };
    match cut(text, b':') {
        (port, None) => match read_positive(port, 65535) {
            Some(port) => Some(port as u16),
            None => None,
        },
        (_, Some(_)) => None,
    }
}

#[tactic(auto, using(crate::proofs::WordLemmas::numbers_fit))]
fn read_positive(text: &[u8], max: u64) -> Option<u64>
    ensures number { result ≡ positive (number_of max text.now) }
    ensures some { IfSome result (λ number. 1 ≤ number) }
    ensures most { IfSome result (λ number. number ≤ max) }
{
    match read_number(text, max) {
        Some(number) => { if number == 0 { None } else { Some(number) } }
        None => None,
    }
}

fn is_wanted_query(text: &[u8]) -> bool
    ensures test { result ≡ is_query text.now }
{
    match text {
        [] => false,
        [_, ..] => is_all_seen(text) && is_read(text),
    }
}

fn is_all_seen(text: &[u8]) -> bool
    ensures test { result ≡ list_all is_seen text.now }
{
    text.iter().all(|byte| 0x21 <= *byte && *byte <= 0x7e)
}

fn is_read(text: &[u8]) -> bool
    ensures test { result ≡ is_ok (query_of text.now) }
{
    read(text, &mut Query::new()).is_ok()
}
