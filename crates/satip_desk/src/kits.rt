//! The kit of each job: the devices it uses. The kits of all jobs of a server.

use satip_world::{Clock, Doors, MuxStore, Outlet, Pacer};

/// The kinds of device that the jobs of a server use.
pub trait Devices {
    /// The source of connections.
    type Doors: Doors + Drop + Send;

    /// The sender of datagrams.
    type Outlet: Outlet + Drop + Send;

    /// The pauses of a job that has nothing to do.
    type Pacer: Pacer + Drop + Send;

    /// The recordings of the multiplexes.
    type Store: MuxStore + Drop + Send;

    /// The ticker's source of the time.
    type Clock: Clock + Drop + Send;
}

/// A worker's doors, its outlet, its pacer, and the key of its random draws.
#[derive(Drop)]
pub struct WorkerKit<D, O, P> {
    pub doors: D,
    pub outlet: O,
    pub pacer: P,
    pub key: [u8; 32],
}

/// A pump's store of recordings, its outlet and its pacer.
#[derive(Drop)]
pub struct PumpKit<M, O, P> {
    pub store: M,
    pub outlet: O,
    pub pacer: P,
}

/// The ticker's clock, its outlet and its pacer.
#[derive(Drop)]
pub struct TickKit<C, O, P> {
    pub clock: C,
    pub outlet: O,
    pub pacer: P,
}

/// A kit for each worker, one for the pump of each front end, and one for the ticker.
#[derive(Drop)]
pub struct JobKits<D, O, P, M, C> {
    pub workers: Vec<WorkerKit<D, O, P>>,
    pub pumps: Vec<PumpKit<M, O, P>>,
    pub tick: TickKit<C, O, P>,
}

/// The kits of a server's jobs, with these devices.
pub type Jobs<K> = JobKits<
    <K as Devices>::Doors,
    <K as Devices>::Outlet,
    <K as Devices>::Pacer,
    <K as Devices>::Store,
    <K as Devices>::Clock,
>;
