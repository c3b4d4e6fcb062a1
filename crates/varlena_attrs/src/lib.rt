//! The attributes of a tuple: where each column's value lies in a row of a table, and what form it
//! has there.
//!
//! Sources: the sections "Database Page Layout" and "TOAST" of the PostgreSQL manual, and the
//! server's headers `access/tupmacs.h` (alignment, null bits) and `varatt.h` (the forms of a
//! varlena).
#![tactic(auto)]

mod buffer;
mod fault;
mod forms;
mod in_turn;
mod inline;
mod places;
mod plain;
mod reading;

pub use buffer::AttrBuffer;
pub use fault::AttrFault;
pub use forms::{Cause, Found, attribute_at, is_null};
pub use in_turn::TupleColumns;
pub use inline::{ColumnLayout, column_start};
pub use places::{Attr, AttrPlace, ToastPointer, pointer_at};
pub use plain::{PlainPiece, plain_piece};
pub use reading::{Attrs, attributes, attributes_are_unique};
