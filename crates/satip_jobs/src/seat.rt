//! Seats of jobs.

use crate::end::ServeEnd;

/// A job: its caller, its kit, the memory that it works in, its number among the jobs of its kind
/// from 1, and its end.
#[derive(Drop)]
pub struct Seat<X, K, M> {
    pub caller: X,
    pub kit: K,
    pub room: M,
    pub number: u16,
    pub end: ServeEnd,
}
