//! The cases of tables.
use case_file::{Case, read_case};
use std::alloc::Global;

// The cluster, and the file of the heap.
const CLUSTER: &str = "[cluster]
next_xid = 1000
oldest_xid = 3
next_multi = 10
oldest_multi = 1
next_member = 100
xact = \"xact\"
offsets = \"offsets\"
members = \"members\"
[heap]
file = \"t\"
";

/// The case of a table whose text goes on like this after the file of its heap, `t`; `None` where it is refused.
pub fn case_with(alloc: Global, table: &str) -> Option<Case> {
    let text = format!(in alloc; "{CLUSTER}{table}").ok()?;
    read_case(alloc, text.as_bytes()).ok()
}

/// The case of a table of one column of this type, with an index on it in the file `i`.
pub fn indexed_case(alloc: Global, ctype: &str) -> Option<Case> {
    let column = format!(in alloc; "[[column]]\nname = \"a\"\ntype = \"{ctype}\"\n").ok()?;
    let index = "[[index]]\nname = \"t_a\"\nfile = \"i\"\n[[index.key]]\ncolumn = \"a\"\n";
    let table = format!(in alloc; "{column}{index}").ok()?;
    case_with(alloc, table.as_str())
}
