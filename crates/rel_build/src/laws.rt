//! The laws of what is generated, for whom reasons about it.
ghost use Rattle.std.specs.Prelude.{◌≡◌, ◌≤◌, ◌<◌, ◌+◌, ◌*◌, [], ◌∷◌, Bool, ℕ, List, AllPairs, None, Ok, Some, codes};
ghost use Rattle.std.specs.Prelude.{length, pos};
ghost use Rattle.std.specs.List.Sorted.{IsPermutation};
ghost use Rattle.outside.specs.declared.files.Part.TheVariants.{Segment, Slru};
ghost use Rattle.key_orders.specs.declared.columns.ColType.TheVariants.{Int4, Int8};
ghost use Rattle.key_orders.specs.declared.columns.Value.TheVariants.{Int};
ghost use Rattle.key_attrs.specs.Keyed.{key_values};
ghost use Rattle.bt_tuples.specs.declared.items.Spot3.TheVariants.{HighKey, Inner, LeafItem};
ghost use Rattle.bt_tuples.specs.Items.{Pivot, Plain, tuple_outcome};
ghost use Rattle.rel_build.specs.declared.rows.Row.{Row as Line};
ghost use Rattle.rel_build.specs.declared.trees.Key.{Key as IndexKey};
ghost use Rattle.rel_build.specs.declared.trees.Key.TheVariants.{Group, Id};
ghost use Rattle.rel_build.specs.Files.{built_files, commit_log};
ghost use Rattle.rel_build.specs.Rows.{IsRow, pages_for, row_body, rows_below, table_file, tid_of};
ghost use Rattle.rel_build.specs.Trees.{IsBelow, in_order, index_file, key_value, leaf_item, separator_item, spec_of};
ghost use Rattle.rel_build.specs.Trees.{tid_between, tree_blocks};

/// What is generated is what the readers of tuples read, where a row's numbers can stand in its columns.
///
/// - `row`: the columns of a row are its numbers.
/// - `entry`: the entry of a row has its key and its place in the table.
/// - `high_key`, `inner`: a separator has the key on the right, the TID on the left where both keys are one,
///   and its downlink.
pub fn generated_tuples_read_back()
    ensures row { (row : Line) → IsRow row
        → key_values (Int8 ∷ Int4 ∷ []) (row_body row) None ≡ Ok (Int (pos row.id) ∷ Int (pos row.group) ∷ []) }
    ensures entry { (key : IndexKey) (row : Line) (killed : Bool) → IsRow row
        → tuple_outcome (spec_of key ∷ []) [] LeafItem (leaf_item key row) killed
        ≡ Ok (Plain (key_value key row) [] (tid_of row) killed) }
    ensures high_key { (key : IndexKey) (down : ℕ) (left right : Line) (killed : Bool) → IsRow left → IsRow right
        → down < 4294967296
        → tuple_outcome (spec_of key ∷ []) [] HighKey (separator_item key down left right) killed
        ≡ Ok (Pivot (record { kept = key_value key right; tid = tid_between key left right }) down) }
    ensures inner { (key : IndexKey) (down : ℕ) (left right : Line) (killed : Bool) → IsRow left → IsRow right
        → down < 4294967296
        → tuple_outcome (spec_of key ∷ []) [] Inner (separator_item key down left right) killed
        ≡ Ok (Pivot (record { kept = key_value key right; tid = tid_between key left right }) down) }
{}

/// The entries of an index are in order, and each row has one.
///
/// - `each`: they are those of the table's rows, each once.
/// - `rise`: the key of an entry is below that of the next, or it is the same and its TID is lower.
pub fn entries_are_in_order()
    ensures each { (key : IndexKey) (seed count : ℕ) → IsPermutation (rows_below seed count)
        (in_order key (rows_below seed count)) }
    ensures rise { (key : IndexKey) (seed count : ℕ) → AllPairs (IsBelow key) (in_order key (rows_below seed count)) }
{}

/// The files that are built: each is held, of whole blocks, as many as `build_case` says, and of no file is there
/// another segment.
pub fn built_files_are_held()
    ensures table { (seed count : ℕ)
        → built_files seed count (codes "t") (Segment 0) ≡ Some (table_file (rows_below seed count)) }
    ensures by_id { (seed count : ℕ)
        → built_files seed count (codes "i1") (Segment 0) ≡ Some (index_file Id (rows_below seed count)) }
    ensures by_group { (seed count : ℕ)
        → built_files seed count (codes "i2") (Segment 0) ≡ Some (index_file Group (rows_below seed count)) }
    ensures log { (seed count : ℕ) → built_files seed count (codes "xact") (Slru 0) ≡ Some commit_log }
    ensures others { (seed count k : ℕ) (base : List ℕ) → built_files seed count base (Segment (k + 1)) ≡ None }
    ensures table_blocks { (seed count : ℕ) → count ≤ 20000
        → length (table_file (rows_below seed count)) ≡ 8192 * pages_for 185 count }
    ensures index_blocks { (key : IndexKey) (seed count : ℕ) → count ≤ 20000
        → length (index_file key (rows_below seed count)) ≡ 8192 * tree_blocks (rows_below seed count) }
{}
