//! The knowledge of a seat at the cell's table, for proofs. No value of a view or a row is created.
use satip_base::{Entry, Served};
use std::collections::LinkedList;
use std::snapshot::Snapshot;

/// A caller's number with its entries.
pub struct Row<E, A, O> {
    pub number: u64,
    pub own: LinkedList<Entry<E, A, O>>,
}

/// The knowledge of a seat's holder.
pub struct View<E, A, O, C> {
    /// Whether the seat was joined into another, and has no number any more.
    pub spent: bool,
    /// The seat holds the turn.
    pub turn: bool,
    /// The setting of the cell; a spent seat has none.
    pub setting: Option<C>,
    pub number: u64,
    /// The prefix of the history that the seat has seen.
    pub seen: LinkedList<Entry<E, A, O>>,
    /// The whole history, as it was when the seat last held the turn.
    pub whole: LinkedList<Entry<E, A, O>>,
    /// The seat's own entries.
    pub own: LinkedList<Entry<E, A, O>>,
    /// A row of each seat that was joined into it.
    pub kept: LinkedList<Row<E, A, O>>,
    /// The numbers of the seats that were split off from it, or from a seat joined into it.
    pub made: LinkedList<u64>,
    /// A number that was drawn and not yet given to a new seat, as a row.
    pub drawn: LinkedList<Row<E, A, O>>,
    /// What two joined seats had seen, until a step shows that both are prefixes.
    pub heard: LinkedList<LinkedList<Entry<E, A, O>>>,
    /// The count of tries that found the turn taken.
    pub met: u64,
    /// How often the whole history was looked at.
    pub looks: u64,
    /// The whole history at the last look.
    pub looked: LinkedList<Entry<E, A, O>>,
}

/// The content of the cell's slot: the served value, or, while a seat has taken it, nothing or the
/// entry to be committed. The entry takes no memory, and the value lies in a box, so that an
/// exchange copies few words.
#[derive(Drop)]
pub enum Content<X, E, A, O> {
    Away,
    Home(X),
    Said(Snapshot<E>, Snapshot<A>, Snapshot<O>),
}

pub(crate) type Slot<S> = Content<
    Box<S>,
    <S as Served>::Event,
    <S as Served>::Answer,
    <S as Served>::Out,
>;

pub(crate) type Sight<S> = View<
    <S as Served>::Event,
    <S as Served>::Answer,
    <S as Served>::Out,
    <S as Served>::Setting,
>;
