//! The rows of the generated table.
ghost use Rattle.std.specs.Prelude.{◌≡◌, ◌<◌, ◌≤◌, ◌+◌, ◌*◌, length, vec_len, All, IfOk};
ghost use Rattle.rel_build.specs.Rows.{next_number, pages_for, part_of, rows_below};

use key_orders::Tid;
use outside::NoMemory;
use std::alloc::Global;

// The linear congruential generator of Knuth's MMIX.
const MULTIPLIER: u64 = 6364136223846793005;

const INCREMENT: u64 = 1442695040888963407;

// How many rows stand on a page of the table.
pub(crate) const ROWS_ON_PAGE: u32 = 185;

/// A row of the generated table.
#[derive(Clone, Copy, Debug, PartialEq, Eq)]
pub struct Row {
    /// The row's number, counted from 0: the column `id`.
    pub id: u32,
    /// One of 100 groups, counted from 0: the column `grp`.
    pub group: u32,
}

impl Row {
    ghost use Rattle.rel_build.specs.Rows.{tid_of};

    // Where the row stands in the table.
    pub(crate) fn tid(self) -> Tid
        ensures { result ≡ tid_of self }
    {
        Tid {
            block: self.id / ROWS_ON_PAGE,
            item: (self.id % ROWS_ON_PAGE + 1) as u16,
        }
    }
}

// The number after x in the sequence of pseudo-random numbers.
#[tactic(auto, unfolding(crate::specs::Rows::next_number))]
fn next_number(x: u64) -> u64
    ensures { result ≡ next_number x }
{
    x.wrapping_mul(MULTIPLIER).wrapping_add(INCREMENT)
}

// The rows in the order of their numbers.
pub(crate) fn rows_below(alloc: Global, seed: u64, count: u32) -> Result<Vec<Row>, NoMemory>
    ensures rows { IfOk result (λ rows. rows.items ≡ rows_below seed count) }
    ensures count { IfOk result (λ rows. vec_len rows ≡ count) }
    ensures small { IfOk result (λ rows. All (λ row. row.group < 100) rows.items) }
{
    let mut rows = Vec::new(alloc);
    let mut x = seed;
    for id in 0..count {
        x = next_number(x);
        let group = (x / 8589934592 % 100) as u32;
        rows.push(Row { id, group })?;
    }
    Ok(rows)
}

// How many pages so many rows fill, so many on each.
pub(crate) fn pages_for(each: usize, count: usize) -> usize
    requires each { 1 ≤ each }
    requires few { count + each ≤ 4294967296 }
    ensures { result ≡ pages_for each count }
{
    (count + (each - 1)) / each
}

// The rows on page k.
pub(crate) fn part_of(rows: &[Row], each: usize, k: usize) -> &[Row]
    requires { each * k ≤ length rows.now }
    ensures part { result.now ≡ part_of each rows.now k }
    ensures most { length result.now ≤ each }
{
    let rest = &rows[each * k..];
    &rest[..each.min(rest.len())]
}
