//! The kits, gears and memory of all jobs.

use crate::seat::Seat;
use satip_base::Out;

/// A kit for each worker, for each pump and for the ticker, and the gear of each one's caller.
#[derive(Drop)]
pub struct Posts<W, P, T, G> {
    pub workers: Vec<W>,
    pub worker_gears: Vec<G>,
    pub pumps: Vec<P>,
    pub pump_gears: Vec<G>,
    pub ticker: T,
    pub ticker_gear: G,
}

/// The memory of all jobs, in addition to their kits and gears: a room for each, empty lists for as
/// many seats as there are kits, and the output of caller 0's stop.
#[derive(Drop)]
pub struct Space<X, W, L, P, M, N> {
    pub worker_rooms: Vec<L>,
    pub workers: Vec<Seat<X, W, L>>,
    pub pump_rooms: Vec<M>,
    pub pumps: Vec<Seat<X, P, M>>,
    pub ticker_room: N,
    pub stop_out: Out,
}
