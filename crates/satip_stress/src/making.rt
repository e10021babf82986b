//! Makes the parts of a run: a configuration, requests and packets.

ghost use Rattle.std.specs.Prelude.{◌≡◌, ◌<◌, ◌∷◌, [], Some, None, IfOk};
ghost use Rattle.satip_stress.specs.Making.{stress_config, front_end, multiplex, setup, play, options, founding_query, packet_of, seed_bytes};
ghost use Rattle.satip_query.specs.Queries.{new_query};

use crate::clients::Client;
use satip_base::{Ports, Want};
use satip_config::Config;
use satip_pids::PidList;
use satip_query::{PidsGiven, Query};
use satip_rtsp::{Method, Request, SessionName};
use satip_ts::Packet;
use satip_tune::{Change, Front, Mux, Pol, System};
use std::alloc::Global;

/// Makes the configuration of a run: one front end and one multiplex.
pub(crate) fn make_config(alloc: Global) -> Result<Config, Want>
    ensures config { IfOk result (λ config. config ≡ stress_config) }
{
    let mut fronts = Vec::new(alloc);
    let mut muxes = Vec::new(alloc);
    let (Ok(()), Ok(())) = (fronts.push(make_front_end()), muxes.push(make_multiplex())) else {
        return Err(Want);
    };
    Ok(Config {
        address: 167772161,
        rtsp_port: 554,
        http_port: 8875,
        timeout: 60,
        workers: 8,
        fronts,
        muxes,
        files: Vec::new(alloc),
    })
}

fn make_front_end() -> Front
    ensures front { result ≡ front_end }
{
    let mut sources = [false; 256];
    sources[1] = true;
    Front {
        number: 1,
        sources,
        systems: [true, true],
    }
}

fn make_multiplex() -> Mux
    ensures mux { result ≡ multiplex }
{
    Mux {
        src: 1,
        freq: 11361750,
        pol: Pol::H,
        msys: System::Dvbs2,
        sr: 22000,
    }
}

/// Makes a SETUP of a stream, or of a new one if `stream` is None.
pub(crate) fn make_setup(cseq: u32, stream: Option<u16>, query: Query, port: u16) -> Request
    requires port { port < 65535 }
    ensures request { result ≡ setup cseq stream query port }
{
    Request {
        cseq: Some(cseq),
        refusal: None,
        method: Method::Setup,
        stream,
        session: SessionName::Absent,
        query,
        ports: Some(Ports {
            rtp: port,
            rtcp: port + 1,
        }),
    }
}

/// Makes a PLAY of stream 1.
pub(crate) fn make_play(cseq: u32, client: Client, query: Query) -> Request
    ensures request { result ≡ play cseq client query }
{
    Request {
        cseq: Some(cseq),
        refusal: None,
        method: Method::Play,
        stream: Some(1),
        session: SessionName::Named(client.session),
        query,
        ports: None,
    }
}

/// Makes an OPTIONS.
pub(crate) fn make_options(cseq: u32, client: Client) -> Request
    ensures request { result ≡ options cseq client }
{
    Request {
        cseq: Some(cseq),
        refusal: None,
        method: Method::Options,
        stream: None,
        session: SessionName::Named(client.session),
        query: Query::new(),
        ports: None,
    }
}

/// Makes the query of the SETUP that creates the stream.
pub(crate) fn make_founding_query() -> Query
    ensures query { result ≡ founding_query }
{
    Query {
        change: Change {
            fe: None,
            src: Some(1),
            freq: Some(11361750),
            pol: Some(Pol::H),
            ro: None,
            msys: Some(System::Dvbs2),
            mtype: None,
            plts: None,
            sr: Some(22000),
            fec: None,
        },
        pids: PidsGiven::List(founding_pids()),
        addpids: None,
        delpids: None,
    }
}

fn founding_pids() -> PidList
    ensures pids { result ≡ 0 ∷ 16 ∷ 100 ∷ [] }
{
    let mut pids = PidList::new();
    pids.push(0);
    pids.push(16);
    pids.push(100);
    pids
}

/// Makes the list of one PID.
pub(crate) fn one_pid(pid: u8) -> PidList
    ensures pids { result ≡ pid ∷ [] }
{
    let mut pids = PidList::new();
    pids.push(pid as u16);
    pids
}

/// Makes a packet of a PID below 128: a payload of zeros, and no adaptation field.
#[tactic(auto, unfolding(crate::specs::Making::packet_of))]
pub(crate) fn make_packet(pid: u8) -> Packet
    ensures packet { result ≡ packet_of pid }
{
    let mut bytes = [0; 188];
    bytes[0] = 0x47;
    bytes[2] = pid;
    bytes[3] = 0x10;
    match Packet::of(&bytes) {
        Some(packet) => packet,
        None => unreachable!(),
    }
}

/// Makes the seed of the generator: the number, low byte first, and zeros.
pub(crate) fn make_seed(seed: u64) -> [u8; 32]
    ensures seed { result ≡ seed_bytes seed }
{
    let mut bytes = [0; 32];
    bytes[..8].copy_from_slice(&seed.to_le_bytes());
    bytes
}
