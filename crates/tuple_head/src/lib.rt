//! The header of a heap tuple: its fields, what its bits say, and the rules H4 to H8.
//!
//! Source: PostgreSQL's `access/htup_details.h`, and of the manual's section "Database Page
//! Layout" the part "Table Row Layout".
#![tactic(auto)]

ghost use Rattle.std.specs.Prelude.{◌≡◌, ◌<◌, ◌≤◌, length};
ghost use Rattle.tuple_head.specs.Head.{has_nulls, is_frozen, is_heap_only, is_hinted_invalid, is_hot_updated};
ghost use Rattle.tuple_head.specs.Head.{is_locked_only, is_moved, is_multi, is_old_form, is_updated};
ghost use Rattle.tuple_head.specs.Head.{is_xmax_committed, is_xmax_invalid, is_xmax_unfrozen, is_xmin_committed};
ghost use Rattle.tuple_head.specs.Head.{natts_of, needs_freezing, seen_xmin, tuple_head_of};

mod masks;
mod rules;

use key_orders::Tid;
pub use masks::HEAP_ONLY;
use page_layout::{FIRST_NORMAL_XID, block_at, has_bit, u16_at, u32_at};
pub use rules::kept_rules_place_attributes;

// The transaction that stands for the inserter of a frozen tuple.
const FROZEN: u32 = 2;

/// The fields of a heap tuple's header (`HeapTupleHeaderData`), as numbers.
#[derive(Clone, Copy, Debug, PartialEq, Eq)]
pub struct HeapHead {
    /// The transaction that inserted the tuple (`t_xmin`).
    pub xmin: u32,
    /// What deleted, updated or locked it: a transaction, or a multixact (`t_xmax`).
    pub xmax: u32,
    /// A command number, or the transaction of an old VACUUM FULL (`t_cid`, `t_xvac`).
    pub field3: u32,
    /// The tuple's own place, or that of the version after it (`t_ctid`).
    pub ctid: Tid,
    /// The number of attributes in the low 11 bits, and flags (`t_infomask2`).
    pub infomask2: u16,
    /// Flags (`t_infomask`).
    pub infomask: u16,
    /// How many bytes the header has, null bits and padding included (`t_hoff`).
    pub hoff: u8,
}

/// The header in a tuple's first 23 bytes. The tuple has at least 24 bytes, as the rule H1 says.
#[inline]
#[tactic(auto, unfolding(crate::specs::Head::tuple_head_of))]
pub fn heap_head(bytes: &[u8]) -> HeapHead
    requires { 24 ≤ length bytes.now }
    ensures { result ≡ tuple_head_of bytes.now }
{
    HeapHead {
        xmin: u32_at(bytes, 0),
        xmax: u32_at(bytes, 4),
        field3: u32_at(bytes, 8),
        ctid: Tid {
            block: block_at(bytes, 12),
            item: u16_at(bytes, 16),
        },
        infomask2: u16_at(bytes, 18),
        infomask: u16_at(bytes, 20),
        hoff: bytes[22],
    }
}

impl HeapHead {
    /// How many attributes are stored, 0 to 2047 (`HeapTupleHeaderGetNatts`).
    #[inline]
    #[tactic(auto, unfolding(crate::specs::Head::natts_of))]
    pub fn natts(self) -> u16
        ensures value { result ≡ natts_of self }
        ensures most { result < 2048 }
    {
        self.infomask2 & masks::NATTS
    }

    /// Whether the tuple has null bits (`HEAP_HASNULL`).
    #[inline]
    #[tactic(auto, unfolding(crate::specs::Head::has_nulls))]
    pub fn has_nulls(self) -> bool
        ensures { result ≡ has_nulls self }
    {
        has_bit(self.infomask, masks::HASNULL)
    }

    /// Whether the inserter is hinted to be committed (`HEAP_XMIN_COMMITTED`). It is so of a frozen
    /// tuple too.
    #[inline]
    #[tactic(auto, unfolding(crate::specs::Head::is_xmin_committed))]
    pub fn is_xmin_committed(self) -> bool
        ensures { result ≡ is_xmin_committed self }
    {
        has_bit(self.infomask, masks::XMIN_COMMITTED)
    }

    /// Whether the tuple is frozen: all transactions see its inserter as committed
    /// (`HeapTupleHeaderXminFrozen`).
    #[inline]
    #[tactic(auto, unfolding(crate::specs::Head::is_frozen))]
    pub fn frozen(self) -> bool
        ensures { result ≡ is_frozen self }
    {
        self.is_xmin_committed() && has_bit(self.infomask, masks::XMIN_INVALID)
    }

    /// Whether the inserter is hinted to have failed (`HeapTupleHeaderXminInvalid`).
    #[inline]
    #[tactic(auto, unfolding(crate::specs::Head::is_hinted_invalid))]
    pub fn xmin_hinted_invalid(self) -> bool
        ensures { result ≡ is_hinted_invalid self }
    {
        has_bit(self.infomask, masks::XMIN_INVALID) && !self.is_xmin_committed()
    }

    /// The inserter, or 2 where the tuple is frozen (`HeapTupleHeaderGetXmin`).
    #[inline]
    #[tactic(auto, unfolding(crate::specs::Head::seen_xmin))]
    pub fn xmin_seen(self) -> u32
        ensures { result ≡ seen_xmin self }
    {
        if self.frozen() { FROZEN } else { self.xmin }
    }

    /// Whether `xmax` is hinted to be committed (`HEAP_XMAX_COMMITTED`).
    #[inline]
    #[tactic(auto, unfolding(crate::specs::Head::is_xmax_committed))]
    pub fn is_xmax_committed(self) -> bool
        ensures { result ≡ is_xmax_committed self }
    {
        has_bit(self.infomask, masks::XMAX_COMMITTED)
    }

    /// Whether `xmax` doesn't count (`HEAP_XMAX_INVALID`).
    #[inline]
    #[tactic(auto, unfolding(crate::specs::Head::is_xmax_invalid))]
    pub fn is_xmax_invalid(self) -> bool
        ensures { result ≡ is_xmax_invalid self }
    {
        has_bit(self.infomask, masks::XMAX_INVALID)
    }

    /// Whether `xmax` is a multixact (`HEAP_XMAX_IS_MULTI`).
    #[inline]
    #[tactic(auto, unfolding(crate::specs::Head::is_multi))]
    pub fn is_multi(self) -> bool
        ensures { result ≡ is_multi self }
    {
        has_bit(self.infomask, masks::XMAX_IS_MULTI)
    }

    /// Whether `xmax` only locks the tuple (`HEAP_XMAX_IS_LOCKED_ONLY`). An old server told this by
    /// an exclusive lock of a single transaction, without a bit of its own.
    #[inline]
    #[tactic(auto, unfolding(crate::specs::Head::is_locked_only))]
    pub fn locked_only(self) -> bool
        ensures { result ≡ is_locked_only self }
    {
        has_bit(self.infomask, masks::XMAX_LOCK_ONLY)
            || self.infomask & masks::LOCKS == masks::XMAX_EXCL_LOCK
    }

    /// Whether the version after this one stands on the same page without index entries of its own
    /// (`HeapTupleHeaderIsHotUpdated`).
    #[inline]
    #[tactic(auto, unfolding(crate::specs::Head::is_hot_updated))]
    pub fn is_hot_updated(self) -> bool
        ensures { result ≡ is_hot_updated self }
    {
        has_bit(self.infomask2, masks::HOT_UPDATED)
            && !self.is_xmax_invalid()
            && !self.xmin_hinted_invalid()
    }

    /// Whether no index entry names this tuple: it is found along its chain alone
    /// (`HeapTupleHeaderIsHeapOnly`).
    #[inline]
    #[tactic(auto, unfolding(crate::specs::Head::is_heap_only))]
    pub fn heap_only(self) -> bool
        ensures { result ≡ is_heap_only self }
    {
        has_bit(self.infomask2, masks::HEAP_ONLY)
    }

    // Whether an update made the tuple.
    #[inline]
    #[tactic(auto, unfolding(crate::specs::Head::is_updated))]
    fn is_updated(self) -> bool
        ensures { result ≡ is_updated self }
    {
        has_bit(self.infomask, masks::UPDATED)
    }

    // Whether a VACUUM FULL of before PostgreSQL 9.0 moved the tuple.
    #[inline]
    #[tactic(auto, unfolding(crate::specs::Head::is_moved))]
    fn is_moved(self) -> bool
        ensures { result ≡ is_moved self }
    {
        has_bit(self.infomask, masks::MOVED_OFF) || has_bit(self.infomask, masks::MOVED_IN)
    }

    /// Whether the tuple has a form that no server writes since PostgreSQL 12: an OID before its
    /// attributes, or the mark of a VACUUM FULL that moved it.
    #[inline]
    #[tactic(auto, unfolding(crate::specs::Head::is_old_form))]
    pub fn old_form(self) -> bool
        ensures { result ≡ is_old_form self }
    {
        has_bit(self.infomask, masks::HASOID_OLD) || self.is_moved()
    }

    // Whether a freeze would take out xmax.
    #[inline]
    #[tactic(auto, unfolding(crate::specs::Head::is_xmax_unfrozen))]
    fn is_xmax_unfrozen(self) -> bool
        ensures { result ≡ is_xmax_unfrozen self }
    {
        if self.is_multi() {
            self.xmax != 0
        } else {
            FIRST_NORMAL_XID <= self.xmax
        }
    }

    /// Whether a later freeze would change the tuple: it names a normal transaction or a multixact,
    /// or was moved (`heap_tuple_needs_eventual_freeze`).
    #[inline]
    #[tactic(auto, unfolding(crate::specs::Head::needs_freezing))]
    pub fn needs_freezing(self) -> bool
        ensures { result ≡ needs_freezing self }
    {
        FIRST_NORMAL_XID <= self.xmin_seen() || self.is_xmax_unfrozen() || self.is_moved()
    }
}
