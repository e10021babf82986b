//! The configuration of a server.

use crate::frontends::{Front, Mux};
use satip_base::Text;
use std::marker::Model;

/// The server's configuration. In contracts each of its vectors is a list.
#[derive(Drop)]
pub struct Config {
    /// The server's IPv4 address, in host order.
    pub address: u32,
    /// The TCP port for RTSP.
    pub rtsp_port: u16,
    /// The TCP port for HTTP.
    pub http_port: u16,
    /// The timeout of a session, in seconds.
    pub timeout: u32,
    /// The number of connections that are served at a time.
    pub workers: u16,
    /// The front ends, numbered from 1 in order.
    pub fronts: Vec<Front>,
    /// The multiplexes that can be received, numbered from 1 in order.
    pub muxes: Vec<Mux>,
    /// The name of each multiplex's recording.
    pub files: Vec<Text>,
}

impl Model for Config {
    ghost use Rattle.satip_tune.specs.Configuration.{Configuration};

    ghost Value = { Configuration };

    ghost view = { λ c. record {
      address = c.address;
      rtsp_port = c.rtsp_port;
      http_port = c.http_port;
      timeout = c.timeout;
      workers = c.workers;
      fronts = c.fronts.items;
      muxes = c.muxes.items;
      files = c.files.items;
    } };
}
