//! Which forms of tuples may stand where (rule B7).
ghost use Rattle.std.specs.Prelude.{◌≡◌};
ghost use Rattle.bt_tuples.specs.Rules.{breaks_form, is_pivot, is_plain, is_posting, keeps_wrong};

use crate::heads::{keeps_tid, number_of};
use crate::items::Spot3;
use bt_meta::{HeadKind, TreeHead};

#[inline]
fn is_pivot(kind: HeadKind) -> bool
    ensures { result ≡ is_pivot kind }
{
    matches!(kind, HeadKind::Pivot)
}

#[inline]
pub(crate) fn is_plain(kind: HeadKind) -> bool
    ensures { result ≡ is_plain kind }
{
    matches!(kind, HeadKind::Plain)
}

#[inline]
fn is_posting(kind: HeadKind) -> bool
    ensures { result ≡ is_posting kind }
{
    matches!(kind, HeadKind::Posting)
}

// Whether a separator keeps what none may keep in an index of so many key columns.
#[inline]
fn keeps_wrong(columns: usize, head: TreeHead) -> bool
    ensures { result ≡ keeps_wrong columns head }
{
    let number = usize::from(number_of(head));
    number == 0 || columns < number || keeps_tid(head) && number < columns
}

// Whether a tuple isn't of the form that its place asks for, in an index of so many key columns that
// includes others or not.
#[inline]
pub(crate) fn breaks_form(spot: Spot3, columns: usize, includes: bool, head: TreeHead) -> bool
    ensures { result ≡ breaks_form spot columns includes head }
{
    match spot {
        Spot3::HighKey | Spot3::Inner => !is_pivot(head.kind) || keeps_wrong(columns, head),
        Spot3::FirstInner => !is_pivot(head.kind) || number_of(head) != 0 || keeps_tid(head),
        Spot3::LeafItem => is_pivot(head.kind) || includes && is_posting(head.kind),
    }
}
