//! Writers of pages, of the tuples of a table and of those of an index.
#![tactic(auto)]

mod bodies;
mod heap_tuples;
mod index_tuples;
mod laws;
mod lengths;
mod meta;
mod page;
mod posting;
mod words;

pub use bodies::{body_flags, put_index_body};
pub use heap_tuples::put_heap_tuple;
pub use index_tuples::{BodyFlags, Kept, put_pivot_tuple, put_plain_tuple};
pub use laws::{
    bodies_read_back, heap_tuples_read_back, index_tuples_read_back, laid_pages_read_back,
    metapages_read_back, posting_tuples_read_back,
};
pub use lengths::index_body_length;
pub use meta::meta_page;
pub use page::PageWriter;
pub use posting::put_posting_tuple;
pub use words::{push_bytes, push_zeros};
