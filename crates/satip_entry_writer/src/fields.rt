//! The small parts of a record, each appended to a line in hexadecimal digits.

ghost use Rattle.std.specs.Prelude.{◌*◌, ◌≤◌, ◌<◌, ◌^◌, length};
ghost use Rattle.satip_plain.specs.Values.{IsId};
ghost use Rattle.satip_entry_writer.specs.Sheets.{WroteHex};
ghost use Rattle.satip_entry_writer.specs.Fields.{u8_text, u16_text, u32_text, bool_text, option_text, id_text, draw_text, ports_text, address_text, pol_text, roll_off_text, system_text, modulation_text, fec_text, key_text};

use crate::room::LineRoom;
use satip_base::{Address, Draw, Ports, SessionId};
use satip_tune::{Fec, Key, Modulation, Pol, RollOff, System};

/// Appends a bool: a byte, 1 if it is true, else 0.
#[tactic(auto, using(crate::proofs::Writing::writing_steps))]
pub fn encode_bool(value: bool, line: &mut LineRoom)
    requires room { 2 * length (bool_text value) ≤ line.old.spare }
    ensures wrote { WroteHex line.old (bool_text value) line.new }
{
    if value {
        line.encode_u8(1);
    } else {
        line.encode_u8(0);
    }
}

/// Appends a polarisation: a byte, 0 to 3 for H, V, L and R.
#[tactic(auto, using(crate::proofs::Writing::writing_steps))]
pub fn encode_pol(value: Pol, line: &mut LineRoom)
    requires room { 2 * length (pol_text value) ≤ line.old.spare }
    ensures wrote { WroteHex line.old (pol_text value) line.new }
{
    match value {
        Pol::H => line.encode_u8(0),
        Pol::V => line.encode_u8(1),
        Pol::L => line.encode_u8(2),
        Pol::R => line.encode_u8(3),
    }
}

/// Appends a roll-off: a byte, 0 to 2 for 0.35, 0.25 and 0.20.
#[tactic(auto, using(crate::proofs::Writing::writing_steps))]
pub fn encode_roll_off(value: RollOff, line: &mut LineRoom)
    requires room { 2 * length (roll_off_text value) ≤ line.old.spare }
    ensures wrote { WroteHex line.old (roll_off_text value) line.new }
{
    match value {
        RollOff::R35 => line.encode_u8(0),
        RollOff::R25 => line.encode_u8(1),
        RollOff::R20 => line.encode_u8(2),
    }
}

/// Appends a delivery system: a byte, 0 for DVB-S and 1 for DVB-S2.
#[tactic(auto, using(crate::proofs::Writing::writing_steps))]
pub fn encode_system(value: System, line: &mut LineRoom)
    requires room { 2 * length (system_text value) ≤ line.old.spare }
    ensures wrote { WroteHex line.old (system_text value) line.new }
{
    match value {
        System::Dvbs => line.encode_u8(0),
        System::Dvbs2 => line.encode_u8(1),
    }
}

/// Appends a modulation: a byte, 0 for QPSK and 1 for 8PSK.
#[tactic(auto, using(crate::proofs::Writing::writing_steps))]
pub fn encode_modulation(value: Modulation, line: &mut LineRoom)
    requires room { 2 * length (modulation_text value) ≤ line.old.spare }
    ensures wrote { WroteHex line.old (modulation_text value) line.new }
{
    match value {
        Modulation::Qpsk => line.encode_u8(0),
        Modulation::Psk8 => line.encode_u8(1),
    }
}

/// Appends a code rate: a byte, 0 to 8 for 1/2, 2/3, 3/4, 5/6, 7/8, 8/9, 3/5, 4/5 and 9/10.
#[tactic(auto, using(crate::proofs::Writing::writing_steps))]
pub fn encode_fec(value: Fec, line: &mut LineRoom)
    requires room { 2 * length (fec_text value) ≤ line.old.spare }
    ensures wrote { WroteHex line.old (fec_text value) line.new }
{
    match value {
        Fec::F12 => line.encode_u8(0),
        Fec::F23 => line.encode_u8(1),
        Fec::F34 => line.encode_u8(2),
        Fec::F56 => line.encode_u8(3),
        Fec::F78 => line.encode_u8(4),
        Fec::F89 => line.encode_u8(5),
        Fec::F35 => line.encode_u8(6),
        Fec::F45 => line.encode_u8(7),
        Fec::F910 => line.encode_u8(8),
    }
}

/// Appends a key of a query: a byte, its place in `Key`, from 0.
#[tactic(auto, using(crate::proofs::Writing::writing_steps))]
pub fn encode_key(value: Key, line: &mut LineRoom)
    requires room { 2 * length (key_text value) ≤ line.old.spare }
    ensures wrote { WroteHex line.old (key_text value) line.new }
{
    match value {
        Key::Fe => line.encode_u8(0),
        Key::Src => line.encode_u8(1),
        Key::Freq => line.encode_u8(2),
        Key::Pol => line.encode_u8(3),
        Key::Ro => line.encode_u8(4),
        Key::Msys => line.encode_u8(5),
        Key::Mtype => line.encode_u8(6),
        Key::Plts => line.encode_u8(7),
        Key::Sr => line.encode_u8(8),
        Key::Fec => line.encode_u8(9),
        Key::Pids => line.encode_u8(10),
        Key::Addpids => line.encode_u8(11),
        Key::Delpids => line.encode_u8(12),
    }
}

/// Appends an optional number of 8 bits: the byte 0, or the byte 1 and the number.
#[tactic(auto, using(crate::proofs::Writing::writing_steps))]
pub fn encode_option_u8(value: Option<u8>, line: &mut LineRoom)
    requires room { 2 * length (option_text u8_text value) ≤ line.old.spare }
    ensures wrote { WroteHex line.old (option_text u8_text value) line.new }
{
    match value {
        None => line.encode_u8(0),
        Some(number) => {
            line.encode_u8(1);
            line.encode_u8(number);
        }
    }
}

/// Appends an optional number of 16 bits: the byte 0, or the byte 1 and the number.
#[tactic(auto, using(crate::proofs::Writing::writing_steps))]
pub fn encode_option_u16(value: Option<u16>, line: &mut LineRoom)
    requires room { 2 * length (option_text u16_text value) ≤ line.old.spare }
    ensures wrote { WroteHex line.old (option_text u16_text value) line.new }
{
    match value {
        None => line.encode_u8(0),
        Some(number) => {
            line.encode_u8(1);
            line.encode_u16(number);
        }
    }
}

/// Appends an optional number of 32 bits: the byte 0, or the byte 1 and the number.
#[tactic(auto, using(crate::proofs::Writing::writing_steps))]
pub fn encode_option_u32(value: Option<u32>, line: &mut LineRoom)
    requires room { 2 * length (option_text u32_text value) ≤ line.old.spare }
    ensures wrote { WroteHex line.old (option_text u32_text value) line.new }
{
    match value {
        None => line.encode_u8(0),
        Some(number) => {
            line.encode_u8(1);
            line.encode_u32(number);
        }
    }
}

/// Appends an optional bool: the byte 0, or the byte 1 and the bool.
#[tactic(auto, using(crate::proofs::Writing::writing_steps))]
pub fn encode_option_bool(value: Option<bool>, line: &mut LineRoom)
    requires room { 2 * length (option_text bool_text value) ≤ line.old.spare }
    ensures wrote { WroteHex line.old (option_text bool_text value) line.new }
{
    match value {
        None => line.encode_u8(0),
        Some(value) => {
            line.encode_u8(1);
            encode_bool(value, line);
        }
    }
}

/// Appends an optional polarisation: the byte 0, or the byte 1 and the polarisation.
#[tactic(auto, using(crate::proofs::Writing::writing_steps))]
pub fn encode_option_pol(value: Option<Pol>, line: &mut LineRoom)
    requires room { 2 * length (option_text pol_text value) ≤ line.old.spare }
    ensures wrote { WroteHex line.old (option_text pol_text value) line.new }
{
    match value {
        None => line.encode_u8(0),
        Some(value) => {
            line.encode_u8(1);
            encode_pol(value, line);
        }
    }
}

/// Appends an optional roll-off: the byte 0, or the byte 1 and the roll-off.
#[tactic(auto, using(crate::proofs::Writing::writing_steps))]
pub fn encode_option_roll_off(value: Option<RollOff>, line: &mut LineRoom)
    requires room { 2 * length (option_text roll_off_text value) ≤ line.old.spare }
    ensures wrote { WroteHex line.old (option_text roll_off_text value) line.new }
{
    match value {
        None => line.encode_u8(0),
        Some(value) => {
            line.encode_u8(1);
            encode_roll_off(value, line);
        }
    }
}

/// Appends an optional delivery system: the byte 0, or the byte 1 and the delivery system.
#[tactic(auto, using(crate::proofs::Writing::writing_steps))]
pub fn encode_option_system(value: Option<System>, line: &mut LineRoom)
    requires room { 2 * length (option_text system_text value) ≤ line.old.spare }
    ensures wrote { WroteHex line.old (option_text system_text value) line.new }
{
    match value {
        None => line.encode_u8(0),
        Some(value) => {
            line.encode_u8(1);
            encode_system(value, line);
        }
    }
}

/// Appends an optional modulation: the byte 0, or the byte 1 and the modulation.
#[tactic(auto, using(crate::proofs::Writing::writing_steps))]
pub fn encode_option_modulation(value: Option<Modulation>, line: &mut LineRoom)
    requires room { 2 * length (option_text modulation_text value) ≤ line.old.spare }
    ensures wrote { WroteHex line.old (option_text modulation_text value) line.new }
{
    match value {
        None => line.encode_u8(0),
        Some(value) => {
            line.encode_u8(1);
            encode_modulation(value, line);
        }
    }
}

/// Appends an optional code rate: the byte 0, or the byte 1 and the code rate.
#[tactic(auto, using(crate::proofs::Writing::writing_steps))]
pub fn encode_option_fec(value: Option<Fec>, line: &mut LineRoom)
    requires room { 2 * length (option_text fec_text value) ≤ line.old.spare }
    ensures wrote { WroteHex line.old (option_text fec_text value) line.new }
{
    match value {
        None => line.encode_u8(0),
        Some(value) => {
            line.encode_u8(1);
            encode_fec(value, line);
        }
    }
}

/// Appends a session's identifier: its count and its drawn word, four bytes each.
#[tactic(auto, using(crate::proofs::Writing::writing_steps))]
pub fn encode_id(id: SessionId, line: &mut LineRoom)
    requires room { 2 * length (id_text id) ≤ line.old.spare }
    ensures wrote { WroteHex line.old (id_text id) line.new }
    ensures value { IsId id }
{
    line.encode_u32(id.count);
    line.encode_u32(id.word);
}

/// Appends a draw: its word and its SSRC, four bytes each, and its first sequence number, two.
#[tactic(auto, using(crate::proofs::Writing::writing_steps))]
pub fn encode_draw(draw: Draw, line: &mut LineRoom)
    requires room { 2 * length (draw_text draw) ≤ line.old.spare }
    ensures wrote { WroteHex line.old (draw_text draw) line.new }
{
    line.encode_u32(draw.word);
    line.encode_u32(draw.ssrc);
    line.encode_u16(draw.first);
}

/// Appends a pair of ports: those of RTP and RTCP, two bytes each.
#[tactic(auto, using(crate::proofs::Writing::writing_steps))]
pub fn encode_ports(ports: Ports, line: &mut LineRoom)
    requires room { 2 * length (ports_text ports) ≤ line.old.spare }
    ensures wrote { WroteHex line.old (ports_text ports) line.new }
{
    line.encode_u16(ports.rtp);
    line.encode_u16(ports.rtcp);
}

/// Appends an optional pair of ports: the byte 0, or the byte 1 and the pair of ports.
#[tactic(auto, using(crate::proofs::Writing::writing_steps))]
pub fn encode_option_ports(ports: Option<Ports>, line: &mut LineRoom)
    requires room { 2 * length (option_text ports_text ports) ≤ line.old.spare }
    ensures wrote { WroteHex line.old (option_text ports_text ports) line.new }
{
    match ports {
        None => line.encode_u8(0),
        Some(ports) => {
            line.encode_u8(1);
            encode_ports(ports, line);
        }
    }
}

/// Appends an address: its IPv4 address, four bytes, and its port, two.
#[tactic(auto, using(crate::proofs::Writing::writing_steps))]
pub fn encode_address(to: Address, line: &mut LineRoom)
    requires room { 2 * length (address_text to) ≤ line.old.spare }
    ensures wrote { WroteHex line.old (address_text to) line.new }
    ensures ip { to.ip < 2 ^ 32 }
    ensures port { to.port < 2 ^ 16 }
{
    line.encode_u32(to.ip);
    line.encode_u16(to.port);
}
