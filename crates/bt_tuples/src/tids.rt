//! The TIDs of an index tuple.
ghost use Rattle.std.specs.Prelude.{◌≡◌, ◌+◌, ◌*◌, ◌<◌, ◌≤◌, Some, None, length, slice_get};
ghost use Rattle.bt_tuples.specs.Keys.{first_or, last_tid, no_tid};
ghost use Rattle.bt_tuples.specs.Rules.{are_not_rising, is_not_above, is_wrong};
ghost use Rattle.bt_tuples.specs.Tuples.{tid_at, tids_at};

use bt_meta::TID_LEN;
use key_orders::Tid;
use page_layout::{block_at, u16_at};
use std::marker::Model;

// The TID of no tuple.
const NO_TID: Tid = Tid { block: 0, item: 0 };

/// The TIDs of a posting tuple, where they lie. Contracts see the list of them.
#[derive(Drop)]
pub struct TidList<'p> {
    tuple: &'p [u8],
    at: usize,
    len: u16,
}

// The TID in the 6 bytes at a place.
#[inline]
#[tactic(auto, unfolding(crate::specs::Tuples::tid_at))]
pub(crate) fn tid_at(tuple: &[u8], at: usize) -> Tid
    requires { at + 6 ≤ length tuple.now }
    ensures { result ≡ tid_at tuple.now at }
{
    Tid {
        block: block_at(tuple, at),
        item: u16_at(tuple, at + 4),
    }
}

impl<'p> Model for TidList<'p> {
    ghost use Rattle.std.specs.Prelude.{◌+◌, ◌*◌, ◌≤◌, List, length};
    ghost use Rattle.key_orders.specs.declared.Tid.{Tid as Place};
    ghost use Rattle.bt_tuples.specs.Tuples.{tids_at};

    ghost Value = { List Place };

    ghost view = { λ l. tids_at l.tuple.now l.at l.len };

    ghost invariant = { λ l. l.at + 6 * l.len ≤ length l.tuple.now };
}

impl<'p> TidList<'p> {
    // So many TIDs from a place of a tuple on.
    #[inline]
    pub(crate) fn at(tuple: &'p [u8], at: usize, len: u16) -> TidList<'p>
        requires { at + 6 * len ≤ length tuple.now }
        ensures { result ≡ tids_at tuple.now at len }
    {
        TidList { tuple, at, len }
    }

    /// How many TIDs there are.
    #[inline]
    pub fn len(&self) -> u16
        ensures { result ≡ length self.now }
    {
        self.len
    }

    // The first of them.
    #[inline]
    pub(crate) fn first(&self) -> Tid
        ensures { result ≡ first_or no_tid self.now }
    {
        if self.len() == 0 {
            return NO_TID;
        }
        self.get(0)
    }

    // The last of them.
    #[inline]
    pub(crate) fn last(&self) -> Tid
        ensures { result ≡ last_tid no_tid self.now }
    {
        let count = self.len();
        if count == 0 {
            return NO_TID;
        }
        self.get(count - 1)
    }

    /// TID k, counted from 0.
    #[inline]
    pub fn get(&self, k: u16) -> Tid
        requires { k < length self.now }
        ensures { Some result ≡ slice_get self.now k }
    {
        tid_at(self.tuple, self.at + TID_LEN * k as usize)
    }
}

// A TID as one number, which rises as TIDs do.
#[inline]
fn number_of_tid(tid: Tid) -> u64
    ensures { result ≡ tid.block * 65536 + tid.item }
{
    u64::from(tid.block) * 65536 + u64::from(tid.item)
}

// Whether a TID isn't above the one before it, if there is one.
#[inline]
fn is_not_above(before: Option<Tid>, tid: Tid) -> bool
    ensures { result ≡ is_not_above before tid }
{
    match before {
        None => false,
        Some(before) => number_of_tid(tid) <= number_of_tid(before),
    }
}

// Whether a TID has item number 0, or isn't above the one before it.
#[inline]
fn is_wrong(before: Option<Tid>, tid: Tid) -> bool
    ensures { result ≡ is_wrong before tid }
{
    tid.item == 0 || is_not_above(before, tid)
}

// Whether one of so many TIDs from a place on has item number 0, or isn't above the one before it.
pub(crate) fn are_not_rising(tuple: &[u8], at: usize, len: u16) -> bool
    requires { at + 6 * len ≤ length tuple.now }
    ensures { result ≡ are_not_rising None (tids_at tuple.now at len) }
{
    let mut before = None;
    for k in 0..len {
        let tid = tid_at(tuple, at + TID_LEN * k as usize);
        if is_wrong(before, tid) {
            return true;
        }
        before = Some(tid);
    }
    false
}
