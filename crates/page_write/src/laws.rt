//! The laws of what is laid, for whom reasons about it.
ghost use Rattle.std.specs.Prelude.{◌≡◌, ◌≢◌, ◌≤◌, ◌<◌, ◌+◌, ◌-◌, [], ◌∷◌, ◌++◌, Bool, ℕ, List, Option, None, Ok};
ghost use Rattle.std.specs.Prelude.{length, take, drop, false};
ghost use Rattle.page_layout.specs.declared.page.LineFlag.TheVariants.{Normal};
ghost use Rattle.page_layout.specs.declared.page.PageKind.TheVariants.{Heap, Meta, Tree};
ghost use Rattle.page_layout.specs.Page.{count_of, header_of, item_of, page_rule_of, piece_of};
ghost use Rattle.key_orders.specs.declared.columns.ColType.{ColType as Column};
ghost use Rattle.key_orders.specs.declared.columns.KeySpec.{KeySpec as Spec};
ghost use Rattle.key_orders.specs.declared.columns.Value.{Value};
ghost use Rattle.key_orders.specs.declared.more.MoreSpec.{MoreSpec as More};
ghost use Rattle.key_orders.specs.declared.Tid.{Tid as Place};
ghost use Rattle.tuple_head.specs.declared.HeapHead.{HeapHead as Head};
ghost use Rattle.tuple_head.specs.Head.{tuple_head_of};
ghost use Rattle.key_attrs.specs.Keyed.{key_types, key_values, more_types};
ghost use Rattle.bt_meta.specs.declared.records.Meta.{Meta as Numbers};
ghost use Rattle.bt_meta.specs.declared.records.Opaque.{Opaque as Special};
ghost use Rattle.bt_meta.specs.Pages.{meta_of, opaque_of};
ghost use Rattle.bt_tuples.specs.declared.items.Spot3.TheVariants.{FirstInner, HighKey, Inner, LeafItem};
ghost use Rattle.bt_tuples.specs.Items.{Pivot, Plain, Posting, tuple_outcome};
ghost use Rattle.bt_tuples.specs.Rules.{includes_some};
ghost use Rattle.page_write.specs.declared.index_tuples.BodyFlags.{BodyFlags as Flags};
ghost use Rattle.page_write.specs.Bodies.{MayAllStand, body_flags, index_body};
ghost use Rattle.page_write.specs.Fields.{IsBody, IsHeapHead, IsMeta, IsOpaque, IsTid, MayKeep};
ghost use Rattle.page_write.specs.Pages.{FitsBelow, header_with, heap_page, lower_for, meta_page, meta_special};
ghost use Rattle.page_write.specs.Pages.{page_with, room_for, room_of, tree_page};
ghost use Rattle.page_write.specs.Posting.{HasListRoom, IsTidList, posting_size, posting_tuple};
ghost use Rattle.page_write.specs.Tuples.{before_tid, fixed_width, heap_tuple, nulls_part, padded_body, pivot_tuple};
ghost use Rattle.page_write.specs.Tuples.{plain_tuple, values_part};

/// What is laid on a page is what the readers of pages read, where line pointers and storage meet at most.
///
/// - `length`: the page has as many bytes as its special space begins at, and those of the special space.
/// - `header`: its header says where things are.
/// - `heap_rules`, `laws_levels`: it breaks none of P1 to P4.
/// - `count`: it has as many items as were laid.
/// - `item`: the line pointer of each names its storage, right below that of the items before it.
/// - `bytes`: its bytes stand there.
/// - `special`: the special space of a tree page has the numbers that were laid, where they fit their fields.
pub fn laid_pages_read_back()
    ensures length { (place : ℕ) (items : List (List ℕ)) (tail : List ℕ) → FitsBelow place items
        → length (page_with place items tail) ≡ place + length tail }
    ensures header { (place : ℕ) (items : List (List ℕ)) (tail : List ℕ) → place ≤ 8192 → FitsBelow place items
        → header_of (page_with place items tail) ≡ header_with (lower_for items) (place - room_for items) place }
    ensures heap_rules { (items : List (List ℕ)) → FitsBelow 8192 items → page_rule_of Heap (heap_page items) ≡ None }
    ensures laws_levels { (items : List (List ℕ)) (special : Special) → FitsBelow 8176 items
        → page_rule_of Tree (tree_page items special) ≡ None }
    ensures count { (place : ℕ) (items : List (List ℕ)) (tail : List ℕ) → place ≤ 8192 → FitsBelow place items
        → count_of (page_with place items tail) ≡ length items }
    ensures item { (place : ℕ) (before after : List (List ℕ)) (item tail : List ℕ) → place ≤ 8192
        → FitsBelow place (before ++ item ∷ after)
        → item_of (page_with place (before ++ item ∷ after) tail) (length before + 1)
        ≡ record { flag = Normal; off = place - room_for before - room_of item; len = length item } }
    ensures bytes { (place : ℕ) (before after : List (List ℕ)) (item tail : List ℕ) → place ≤ 8192
        → FitsBelow place (before ++ item ∷ after)
        → piece_of (page_with place (before ++ item ∷ after) tail) (place - room_for before - room_of item)
        (length item) ≡ item }
    ensures special { (items : List (List ℕ)) (special : Special) → FitsBelow 8176 items → IsOpaque special
        → opaque_of (tree_page items special) ≡ special }
{}

/// A metapage that was laid is what its readers read.
///
/// - `length`: it has 8192 bytes.
/// - `numbers`: its numbers are those that were laid, where they fit their fields.
/// - `special`: its special space has the flag of a metapage alone.
/// - `rules`: it breaks none of P1 to P4.
pub fn metapages_read_back()
    ensures length { (meta : Numbers) → length (meta_page meta) ≡ 8192 }
    ensures numbers { (meta : Numbers) → IsMeta meta → meta_of (meta_page meta) ≡ meta }
    ensures special { (meta : Numbers) → opaque_of (meta_page meta) ≡ meta_special }
    ensures rules { (meta : Numbers) → page_rule_of Meta (meta_page meta) ≡ None }
{}

/// The bytes of a table's tuple are what the reader of its header reads, where each number fits its field.
///
/// - `head`: its header is the one that was given.
/// - `nulls`: its null bits stand after the header's 23 bytes.
/// - `body`: its attributes stand where the header says.
pub fn heap_tuples_read_back()
    ensures head { (head : Head) (nulls body : List ℕ) → IsHeapHead head
        → tuple_head_of (heap_tuple head nulls body) ≡ head }
    ensures nulls { (head : Head) (nulls body : List ℕ)
        → take (length nulls) (drop 23 (heap_tuple head nulls body)) ≡ nulls }
    ensures body { (head : Head) (nulls body : List ℕ) → 23 + length nulls ≤ head.hoff
        → drop head.hoff (heap_tuple head nulls body) ≡ body }
{}

/// The bytes of an index tuple mean what was laid, where each number fits its field, the values can be read
/// from the body, and the body has at most 8160 bytes, and at least 8 where it has null bits.
///
/// - `plain`: an entry of a leaf has the TID and the values that were laid; its item number isn't 0.
/// - `high_key`, `inner`: a separator has the values, the TID and the downlink that were laid; it keeps a value,
///   no more than there are key columns, and with a TID all of them.
/// - `first`: the first item of an internal page keeps nothing.
pub fn index_tuples_read_back()
    ensures plain { (specs : List Spec) (more : List More) (tid : Place) (flags : Flags) (body : List ℕ) (killed : Bool)
        (values : List Value) → IsTid tid → tid.item ≢ 0 → IsBody flags body
        → key_values (key_types specs ++ more_types more) (values_part flags (padded_body body))
        (nulls_part flags (padded_body body)) ≡ Ok values
        → tuple_outcome specs more LeafItem (plain_tuple tid flags body) killed
        ≡ Ok (Plain (take (length specs) values) (drop (length specs) values) tid killed) }
    ensures high_key { (specs : List Spec) (more : List More) (down kept : ℕ) (tid : Option Place) (flags : Flags)
        (body : List ℕ) (killed : Bool) (values : List Value) → down < 4294967296 → MayKeep (length specs) kept tid
        → IsBody flags body
        → key_values (key_types (take kept specs)) (values_part flags (before_tid tid body))
        (nulls_part flags (before_tid tid body)) ≡ Ok values
        → tuple_outcome specs more HighKey (pivot_tuple down kept tid flags body) killed
        ≡ Ok (Pivot (record { kept = values; tid = tid }) down) }
    ensures inner { (specs : List Spec) (more : List More) (down kept : ℕ) (tid : Option Place) (flags : Flags)
        (body : List ℕ) (killed : Bool) (values : List Value) → down < 4294967296 → MayKeep (length specs) kept tid
        → IsBody flags body
        → key_values (key_types (take kept specs)) (values_part flags (before_tid tid body))
        (nulls_part flags (before_tid tid body)) ≡ Ok values
        → tuple_outcome specs more Inner (pivot_tuple down kept tid flags body) killed
        ≡ Ok (Pivot (record { kept = values; tid = tid }) down) }
    ensures first { (specs : List Spec) (more : List More) (down : ℕ) (killed : Bool) → down < 4294967296
        → tuple_outcome specs more FirstInner (pivot_tuple down 0 None fixed_width []) killed
        ≡ Ok (Pivot (record { kept = []; tid = None }) down) }
{}

/// The bytes of a posting tuple mean what was laid, where its values can be read from the body, its TIDs are
/// a list that rises, and the index includes no columns beside its key.
///
/// - `size`: it has as many bytes as its size says.
/// - `means`: it has the values and the TIDs that were laid, and breaks none of B6 to B9.
pub fn posting_tuples_read_back()
    ensures size { (tids : List Place) (flags : Flags) (body : List ℕ)
        → length (posting_tuple tids flags body) ≡ posting_size (length body) (length tids) }
    ensures means { (specs : List Spec) (more : List More) (tids : List Place) (flags : Flags) (body : List ℕ)
        (killed : Bool) (values : List Value) → includes_some more ≡ false → IsTidList tids → IsBody flags body
        → HasListRoom (length body) (length tids)
        → key_values (key_types specs ++ more_types more) (values_part flags (padded_body body))
        (nulls_part flags (padded_body body)) ≡ Ok values
        → tuple_outcome specs more LeafItem (posting_tuple tids flags body) killed
        ≡ Ok (Posting (take (length specs) values) tids killed) }
{}

/// The values of a body that was laid are what the readers of index tuples read, where they may stand in their
/// columns and are at most 32.
///
/// - `entry`: in an entry of a leaf.
/// - `separator`: in a separator, whether it keeps a TID or not.
pub fn bodies_read_back()
    ensures entry { (types : List Column) (values : List Value) → MayAllStand types values → length values ≤ 32
        → key_values types (values_part (body_flags types values) (padded_body (index_body types values)))
        (nulls_part (body_flags types values) (padded_body (index_body types values))) ≡ Ok values }
    ensures separator { (types : List Column) (values : List Value) (tid : Option Place) → MayAllStand types values
        → length values ≤ 32
        → key_values types (values_part (body_flags types values) (before_tid tid (index_body types values)))
        (nulls_part (body_flags types values) (before_tid tid (index_body types values))) ≡ Ok values }
{}
