//! Pages of a relation: header, line pointers, the rules that a page alone may break, and the code
//! of every rule. Beside these, numbers and bits in bytes.
#![tactic(auto)]

mod bits;
mod items;
mod numbers;
mod page;
mod rules;
mod writers;

pub use bits::{is_set, make_room, set_bit};
pub use numbers::{block_at, has_bit, max_align, u16_at, u32_at};
pub use page::{
    FIRST_NORMAL_XID, LineFlag, LinePtr, MAX_ITEMS, PAGE_BYTES, PD_LOWER, PD_UPPER, PageHeader,
    PageKind, PageView, SIZE_OF_PAGE_HEADER,
};
pub use rules::Rule;
pub use writers::{put_block, put_header, put_u16, put_u32, writes_leave_the_rest};
