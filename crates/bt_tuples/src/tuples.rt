//! The bytes of an index tuple: which of the rules B6 to B9 they break, and the values of its key.
ghost use Rattle.std.specs.Prelude.{◌≡◌, ◌≢◌, ◌<◌, ◌≤◌, ◌+◌, ◌*◌, ◌++◌, [], Bool};
ghost use Rattle.std.specs.Prelude.{List, length, true, false, IfErr, IfOk, IfSome, Ok, Err};
ghost use Rattle.key_orders.specs.declared.more.MoreSpec.{MoreSpec as More};
ghost use Rattle.key_orders.specs.Keys.{fits_columns};
ghost use Rattle.bt_meta.specs.Heads.{tree_head_of};
ghost use Rattle.bt_tuples.specs.Items.{Item, meaning_of, outcome_by, tuple_outcome};
ghost use Rattle.bt_tuples.specs.Keys.{BeginsWithKey, key_count};
ghost use Rattle.bt_tuples.specs.Rules.{breaks_tids, breaks_tids_by, is_pivot};
ghost use Rattle.bt_tuples.specs.Plain.{IsPlainHead};
ghost use Rattle.bt_tuples.specs.Shown.{outcome_with};
ghost use Rattle.bt_tuples.specs.Tuples.{body_begin, body_end, keeps_tid, kept_tid, number_of, values_in};

use crate::forms::{breaks_form, is_plain};
use crate::heads::{
    body_begin, body_end, body_of, has_null_bits, keeps_tid, null_bits_of, number_of, size_of,
};
use crate::items::{ItemFault, Spot3};
use crate::tids::{are_not_rising, tid_at};
use bt_meta::{HeadKind, TID_LEN, TreeHead, tree_head};
use key_attrs::{IndexColumns, KeyFault, read_entry_attributes, read_key_attributes};
use key_orders::{KeyRefs, MoreRefs, Tid};
use page_layout::Rule;

// Why a tuple whose values can't be told has no meaning.
#[inline]
fn without_values(fault: KeyFault, breaks_tids: bool) -> ItemFault
    ensures { (meaning : Item) → Err result ≡ outcome_by (Err fault) breaks_tids meaning }
{
    match fault {
        KeyFault::PastEnd { .. } | KeyFault::BadHeader { .. } | KeyFault::External { .. } => {
            ItemFault::Broken(Rule::B8)
        }
        KeyFault::Packed { .. } => {
            if breaks_tids {
                ItemFault::Broken(Rule::B9)
            } else {
                ItemFault::Packed
            }
        }
    }
}

// The TID that a pivot keeps.
#[inline]
pub(crate) fn kept_tid(tuple: &[u8], head: TreeHead) -> Option<Tid>
    requires long { 8 ≤ length tuple.now }
    requires head { head ≡ tree_head_of tuple.now }
    ensures { result ≡ kept_tid tuple.now }
{
    if keeps_tid(head) {
        Some(tid_at(tuple, tuple.len() - TID_LEN))
    } else {
        None
    }
}

// Whether the list of a posting tuple isn't right.
#[inline]
fn breaks_list(tuple: &[u8], head: TreeHead) -> bool
    requires long { 8 ≤ length tuple.now }
    requires head { head ≡ tree_head_of tuple.now }
    ensures test { result ≡ breaks_tids_by HeadKind.Posting tuple.now }
    ensures within { result ≡ false → head.block + 6 * number_of head ≤ length tuple.now }
    ensures some { result ≡ false → 0 < number_of head }
{
    let at = head.block as usize;
    let number = number_of(head);
    at < body_begin(head)
        || tuple.len() < at + TID_LEN * usize::from(number)
        || number == 0
        || are_not_rising(tuple, at, number)
}

// Whether the TIDs of a tuple aren't right.
#[inline]
fn breaks_tids(tuple: &[u8], head: TreeHead) -> bool
    requires long { 8 ≤ length tuple.now }
    requires head { head ≡ tree_head_of tuple.now }
    ensures test { result ≡ breaks_tids tuple.now }
    ensures within { result ≡ false → head.kind ≡ HeadKind.Posting
        → head.block + 6 * number_of head ≤ length tuple.now }
    ensures some { result ≡ false → head.kind ≡ HeadKind.Posting → 0 < number_of head }
{
    match head.kind {
        HeadKind::Pivot => false,
        HeadKind::Plain => head.item == 0,
        HeadKind::Posting => breaks_list(tuple, head),
    }
}

// Reads the values of a pivot.
#[inline(always)]
#[tactic(auto, unfolding(crate::specs::Tuples::values_in))]
fn read_pivot_key<'p>(
    columns: &IndexColumns<'_>,
    tuple: &'p [u8],
    head: TreeHead,
    key: &mut KeyRefs<'p>,
) -> Result<(), KeyFault>
    requires long { 8 ≤ length tuple.now }
    requires head { head ≡ tree_head_of tuple.now }
    requires kind { head.kind ≡ HeadKind.Pivot }
    requires begins { body_begin head ≤ body_end head (length tuple.now) }
    requires kept { number_of head ≤ length columns.now.specs.now }
    ensures value { IfOk result (λ u. (more : List More) → values_in columns.now.specs.now more tuple.now
        ≡ Ok key.new) }
    ensures fault { IfErr result (λ e. (more : List More) → values_in columns.now.specs.now more tuple.now ≡ Err e) }
    ensures count { IfOk result (λ u. length key.new ≡ number_of head) }
    ensures fits { IfOk result (λ u. fits_columns columns.now.specs.now key.new ≡ true) }
{
    read_key_attributes(
        columns,
        body_of(tuple, head),
        null_bits_of(tuple, head),
        number_of(head),
        key,
    )
}

// Reads the values of a leaf's tuple in an index without included columns: those of the whole key.
#[inline(always)]
#[tactic(auto, unfolding(crate::specs::Tuples::values_in))]
fn read_whole_key<'p>(
    columns: &IndexColumns<'_>,
    tuple: &'p [u8],
    head: TreeHead,
    key: &mut KeyRefs<'p>,
) -> Result<(), KeyFault>
    requires long { 8 ≤ length tuple.now }
    requires head { head ≡ tree_head_of tuple.now }
    requires kind { is_pivot head.kind ≡ false }
    requires begins { body_begin head ≤ body_end head (length tuple.now) }
    ensures value { IfOk result (λ u. values_in columns.now.specs.now [] tuple.now ≡ Ok key.new) }
    ensures fault { IfErr result (λ e. values_in columns.now.specs.now [] tuple.now ≡ Err e) }
    ensures count { IfOk result (λ u. length key.new ≡ length columns.now.specs.now) }
    ensures fits { IfOk result (λ u. fits_columns columns.now.specs.now key.new ≡ true) }
{
    let count = columns.specs.len() as u16;
    read_key_attributes(
        columns,
        body_of(tuple, head),
        null_bits_of(tuple, head),
        count,
        key,
    )
}

// Reads the values of a leaf's tuple with those of included columns.
#[tactic(auto, unfolding(crate::specs::Tuples::values_in))]
pub(crate) fn read_covering<'p>(
    columns: &IndexColumns<'_>,
    tuple: &'p [u8],
    head: TreeHead,
    key: &mut KeyRefs<'p>,
) -> Result<MoreRefs<'p>, KeyFault>
    requires long { 8 ≤ length tuple.now }
    requires head { head ≡ tree_head_of tuple.now }
    requires kind { is_pivot head.kind ≡ false }
    requires begins { body_begin head ≤ body_end head (length tuple.now) }
    ensures value { IfOk result (λ rest. values_in columns.now.specs.now columns.now.more.now tuple.now
        ≡ Ok (key.new ++ rest)) }
    ensures fault { IfErr result (λ e. values_in columns.now.specs.now columns.now.more.now tuple.now ≡ Err e) }
    ensures count { IfOk result (λ rest. length key.new ≡ length columns.now.specs.now) }
    ensures fits { IfOk result (λ rest. fits_columns columns.now.specs.now key.new ≡ true) }
{
    read_entry_attributes(
        columns,
        body_of(tuple, head),
        null_bits_of(tuple, head),
        key,
    )
}

// Reads the values of such a tuple, of which those of the key are kept. It stays a call: in line the
// places of the others, 584 bytes, would be set to zero for each item of an index without included columns.
#[inline(never)]
fn read_covering_key<'p>(
    columns: &IndexColumns<'_>,
    tuple: &'p [u8],
    head: TreeHead,
    key: &mut KeyRefs<'p>,
) -> Result<(), KeyFault>
    requires long { 8 ≤ length tuple.now }
    requires head { head ≡ tree_head_of tuple.now }
    requires kind { is_pivot head.kind ≡ false }
    requires begins { body_begin head ≤ body_end head (length tuple.now) }
    requires some { columns.now.more.now ≢ [] }
    ensures value { IfOk result (λ u.
        BeginsWithKey columns.now.more.now head.kind
        (values_in columns.now.specs.now columns.now.more.now tuple.now) key.new) }
    ensures fault { IfErr result (λ e. values_in columns.now.specs.now columns.now.more.now tuple.now ≡ Err e) }
    ensures count { IfOk result (λ u. length key.new ≡ length columns.now.specs.now) }
    ensures fits { IfOk result (λ u. fits_columns columns.now.specs.now key.new ≡ true) }
{
    match read_covering(columns, tuple, head, key) {
        Err(fault) => Err(fault),
        Ok(_) => Ok(()),
    }
}

// Reads the values of a tuple, of which those of the key are kept.
#[inline(always)]
fn read_key<'p>(
    columns: &IndexColumns<'_>,
    tuple: &'p [u8],
    head: TreeHead,
    key: &mut KeyRefs<'p>,
) -> Result<(), KeyFault>
    requires long { 8 ≤ length tuple.now }
    requires head { head ≡ tree_head_of tuple.now }
    requires begins { body_begin head ≤ body_end head (length tuple.now) }
    requires kept { head.kind ≡ HeadKind.Pivot → number_of head ≤ length columns.now.specs.now }
    ensures value { IfOk result (λ u.
        BeginsWithKey columns.now.more.now head.kind
        (values_in columns.now.specs.now columns.now.more.now tuple.now) key.new) }
    ensures fault { IfErr result (λ e. values_in columns.now.specs.now columns.now.more.now tuple.now ≡ Err e) }
    ensures count { IfOk result (λ u. length key.new ≡ key_count head (length columns.now.specs.now)) }
    ensures fits { IfOk result (λ u. fits_columns columns.now.specs.now key.new ≡ true) }
{
    match head.kind {
        HeadKind::Pivot => read_pivot_key(columns, tuple, head, key),
        HeadKind::Plain | HeadKind::Posting => {
            if columns.more.is_empty() {
                return read_whole_key(columns, tuple, head, key);
            }
            read_covering_key(columns, tuple, head, key)
        }
    }
}

// The head of a plain tuple of a leaf without null bits that breaks none of the rules B6, B7 and B9.
#[inline(always)]
pub(crate) fn plain_head(tuple: &[u8]) -> Option<TreeHead>
    requires long { 8 ≤ length tuple.now }
    ensures { IfSome result (IsPlainHead tuple.now) }
{
    let head = tree_head(tuple);
    if !is_plain(head.kind) || has_null_bits(head) || head.item == 0 {
        return None;
    }
    if usize::from(size_of(head)) != tuple.len() {
        return None;
    }
    Some(head)
}

// Reads the values of a plain tuple of a leaf without null bits, in an index without included columns, where
// it breaks none of the rules B6 to B9 and has no compressed value. Then it answers its head. A second way
// to what `read_any_tuple` answers, for its speed alone: nearly all items of an index are such tuples.
#[inline(always)]
#[tactic(auto, unfolding(crate::specs::Items::tuple_outcome))]
fn read_plain_tuple<'p>(
    columns: &IndexColumns<'_>,
    tuple: &'p [u8],
    key: &mut KeyRefs<'p>,
) -> Option<TreeHead>
    requires long { 8 ≤ length tuple.now }
    ensures head { IfSome result (λ head. head ≡ tree_head_of tuple.now) }
    ensures kind { IfSome result (λ head. head.kind ≡ HeadKind.Plain) }
    ensures begins { IfSome result (λ head. body_begin head ≤ body_end head (length tuple.now)) }
    ensures outcome { IfSome result (λ head. (killed : Bool)
        → tuple_outcome columns.now.specs.now [] Spot3.LeafItem tuple.now killed
        ≡ Ok (meaning_of columns.now.specs.now [] tuple.now killed)) }
    ensures value { IfSome result (λ head. values_in columns.now.specs.now [] tuple.now ≡ Ok key.new) }
    ensures count { IfSome result (λ head. length key.new ≡ length columns.now.specs.now) }
    ensures fits { IfSome result (λ head. fits_columns columns.now.specs.now key.new ≡ true) }
{
    let head = plain_head(tuple)?;
    match read_whole_key(columns, tuple, head, key) {
        Err(_) => None,
        Ok(()) => Some(head),
    }
}

// Reads the values of the key of any tuple, as `read_tuple` does.
#[inline(never)]
#[tactic(auto, unfolding(crate::specs::Items::tuple_outcome))]
fn read_any_tuple<'p>(
    columns: &IndexColumns<'_>,
    spot: Spot3,
    tuple: &'p [u8],
    key: &mut KeyRefs<'p>,
) -> Result<TreeHead, ItemFault>
    requires long { 8 ≤ length tuple.now }
    ensures head { IfOk result (λ head. head ≡ tree_head_of tuple.now) }
    ensures begins { IfOk result (λ head. body_begin head ≤ body_end head (length tuple.now)) }
    ensures outcome { (killed : Bool)
        → outcome_with result (meaning_of columns.now.specs.now columns.now.more.now tuple.now killed)
        ≡ tuple_outcome columns.now.specs.now columns.now.more.now spot tuple.now killed }
    ensures value { IfOk result (λ head.
        BeginsWithKey columns.now.more.now head.kind
        (values_in columns.now.specs.now columns.now.more.now tuple.now) key.new) }
    ensures count { IfOk result (λ head. length key.new ≡ key_count head (length columns.now.specs.now)) }
    ensures fits { IfOk result (λ head. fits_columns columns.now.specs.now key.new ≡ true) }
    ensures whole { IfOk result (λ head. head.kind ≡ HeadKind.Pivot → keeps_tid head ≡ true
        → number_of head ≡ length columns.now.specs.now) }
    ensures some { IfOk result (λ head. head.kind ≡ HeadKind.Posting → 0 < number_of head) }
    ensures within { IfOk result (λ head. head.kind ≡ HeadKind.Posting
        → head.block + 6 * number_of head ≤ length tuple.now) }
{
    let head = tree_head(tuple);
    if usize::from(size_of(head)) != tuple.len() {
        return Err(ItemFault::Broken(Rule::B6));
    }
    if breaks_form(spot, columns.specs.len(), !columns.more.is_empty(), head) {
        return Err(ItemFault::Broken(Rule::B7));
    }
    if body_end(head, tuple.len()) < body_begin(head) {
        return Err(ItemFault::Broken(Rule::B8));
    }
    let broken = breaks_tids(tuple, head);
    match read_key(columns, tuple, head, key) {
        Err(fault) => Err(without_values(fault, broken)),
        Ok(()) => {
            if broken {
                return Err(ItemFault::Broken(Rule::B9));
            }
            Ok(head)
        }
    }
}

// Reads the values of the key of a tuple at a place of this kind, where the tuple breaks none of the
// rules B6 to B9 and has no compressed value. Then it answers its head.
#[inline(always)]
pub(crate) fn read_tuple<'p>(
    columns: &IndexColumns<'_>,
    spot: Spot3,
    tuple: &'p [u8],
    key: &mut KeyRefs<'p>,
) -> Result<TreeHead, ItemFault>
    requires long { 8 ≤ length tuple.now }
    ensures head { IfOk result (λ head. head ≡ tree_head_of tuple.now) }
    ensures begins { IfOk result (λ head. body_begin head ≤ body_end head (length tuple.now)) }
    ensures outcome { (killed : Bool)
        → outcome_with result (meaning_of columns.now.specs.now columns.now.more.now tuple.now killed)
        ≡ tuple_outcome columns.now.specs.now columns.now.more.now spot tuple.now killed }
    ensures value { IfOk result (λ head.
        BeginsWithKey columns.now.more.now head.kind
        (values_in columns.now.specs.now columns.now.more.now tuple.now) key.new) }
    ensures count { IfOk result (λ head. length key.new ≡ key_count head (length columns.now.specs.now)) }
    ensures fits { IfOk result (λ head. fits_columns columns.now.specs.now key.new ≡ true) }
    ensures whole { IfOk result (λ head. head.kind ≡ HeadKind.Pivot → keeps_tid head ≡ true
        → number_of head ≡ length columns.now.specs.now) }
    ensures some { IfOk result (λ head. head.kind ≡ HeadKind.Posting → 0 < number_of head) }
    ensures within { IfOk result (λ head. head.kind ≡ HeadKind.Posting
        → head.block + 6 * number_of head ≤ length tuple.now) }
{
    if columns.more.is_empty() && matches!(spot, Spot3::LeafItem) {
        if let Some(head) = read_plain_tuple(columns, tuple, key) {
            return Ok(head);
        }
    }
    read_any_tuple(columns, spot, tuple, key)
}
