//! What is known of an item and of its transactions.
use page_layout::Rule;
use rel_files::{Cluster, Slru};
use tuple_head::HeapHead;

/// The logs that say what became of a tuple's transactions: the folders of pg_xact and of the two parts
/// of pg_multixact, and the cluster's numbers.
#[derive(Clone, Copy)]
pub struct Status3<'a> {
    /// pg_xact: whether a transaction committed.
    pub xact: &'a Slru,
    /// pg_multixact/offsets: where a multixact's members begin.
    pub offsets: &'a Slru,
    /// pg_multixact/members: its members.
    pub members: &'a Slru,
    /// Which transactions and multixacts were given out.
    pub cluster: Cluster,
}

/// Why it is left open whether a tuple is live.
#[derive(Clone, Copy, Debug, PartialEq, Eq)]
pub enum Doubt {
    /// It has the form of an old version: an OID in its header, or moved by VACUUM FULL.
    U1,
    /// Its multixact was given out and not written.
    U2,
    /// Its multixact has more than 65536 members.
    U3,
}

/// Whether a tuple is live.
#[derive(Clone, Copy, Debug, PartialEq, Eq)]
pub enum Life {
    /// It was inserted and not deleted.
    Live,
    /// It was never inserted, or it was deleted or updated.
    Dead,
    /// It can't be told.
    Unjudged(Doubt),
    /// It breaks one of the rules H9 to H13, so that it can't be told.
    Broken(Rule),
}

/// What is known of a tuple.
#[derive(Clone, Copy, Debug, PartialEq, Eq)]
pub struct Judged {
    /// Whether it is live.
    pub life: Life,
    /// The transaction that deleted or updated it, committed or not; 0 where there is none or the
    /// table of `life` doesn't come to it.
    pub update: u32,
}

/// An item of a heap page, as far as it is judged.
#[derive(Clone, Copy, Debug, PartialEq, Eq)]
pub enum ItemState {
    /// The line pointer isn't used.
    Unused,
    /// The line pointer is that of a tuple that is gone.
    Dead,
    /// The line pointer leads to the item of this number.
    Redirect(u16),
    /// A tuple.
    Tuple { head: HeapHead, judged: Judged },
}
