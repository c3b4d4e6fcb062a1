//! A list of any length in bounded memory: only its first members, and the count of all, are stored.
ghost use Rattle.std.specs.Prelude.{◌≡◌, ◌+◌, ◌<◌, ◌≤◌, ◌^◌, ◌++◌, [], ◌∷◌, length, take, vec_capacity, IsOk};
ghost use Rattle.std.specs.Prelude.{OnOk, OnErr};
ghost use Rattle.std.specs.Mem.{FitsInMemory};
ghost use Rattle.reports.specs.LongLists.{first_part};

use crate::ghost_list::GhostList;
use outside::NoMemory;
use std::alloc::Global;
use std::marker::Model;

// How many members are stored.
const STORED: usize = 1000;

/// Contracts see the whole list. Its memory is that of its first thousand members, taken at the
/// first one.
#[derive(Drop)]
pub struct LongList<T> {
    first: Vec<T>,
    count: u64,
    all: GhostList<T>,
}

impl<T> Model for LongList<T> {
    ghost use Rattle.std.specs.Prelude.{List, vec_capacity};
    ghost use Rattle.reports.specs.LongLists.{IsStored};

    ghost Value = { List T };

    ghost view = { λ l. l.all.items };

    ghost invariant = { λ l. IsStored l.first.items (vec_capacity l.first) l.count l.all.items };
}

impl<T: Copy> LongList<T> {
    // Of nothing.
    pub fn new(alloc: Global) -> LongList<T>
        ensures { result ≡ [] }
    {
        LongList {
            first: Vec::new(alloc),
            count: 0,
            all: GhostList::new(),
        }
    }

    // How many members there are.
    pub fn count(&self) -> u64
        ensures { result ≡ length self.now }
    {
        self.count
    }

    // The first thousand members, or all where there are fewer.
    pub fn first(&self) -> &[T]
        ensures { result.now ≡ first_part self.now }
    {
        &self.first
    }

    // Adds a member at the end; after `NoMemory` nothing changed. It answers `NoMemory` too where the
    // count has come to its end, 2^64 - 1.
    pub fn push(&mut self, x: T) -> Result<(), NoMemory>
        requires { FitsInMemory T.row }
        ensures ok { OnOk result (self.new ≡ self.old ++ x ∷ []) }
        ensures err { OnErr result (self.new ≡ self.old) }
    {
        if self.count == u64::MAX {
            return Err(NoMemory);
        }
        keep(&mut self.first, &[x])?;
        self.count += 1;
        self.all = self.all.pushed(&x);
        Ok(())
    }

    // Puts another list after this one. It takes no memory.
    pub fn append(&mut self, other: LongList<T>)
        requires { length self.old + length other < 2 ^ 64 }
        ensures { self.new ≡ self.old ++ other }
    {
        if self.count == 0 {
            *self = other;
            return;
        }
        keep(&mut self.first, &other.first).unwrap();
        self.count += other.count;
        self.all = self.all.joined(&other.all);
    }
}

// Puts as many more members after the first ones as are stored.
#[inline]
fn keep<T: Copy>(first: &mut Vec<T>, more: &[T]) -> Result<(), NoMemory>
    requires { length first.old.items ≤ 1000 }
    ensures ok { OnOk result (first.new.items ≡ first_part (first.old.items ++ more.now)) }
    ensures room { OnOk result (1000 ≤ vec_capacity first.new) }
    ensures err { OnErr result (first.new.items ≡ first.old.items) }
    ensures capacity { vec_capacity first.old ≤ vec_capacity first.new }
    ensures succeeds { 1000 ≤ vec_capacity first.old → IsOk result }
{
    if first.len() == STORED {
        return Ok(());
    }
    let room = STORED - first.len();
    first.reserve(room)?;
    first.extend_from_slice(first_of(more, room))?;
    Ok(())
}

// The first n, or all where there are fewer.
#[tactic(auto, using(std::proofs::lemmas::List::take_all))]
fn first_of<T>(all: &[T], n: usize) -> &[T]
    ensures { result.now ≡ take n all.now }
{
    if all.len() <= n { all } else { &all[..n] }
}
