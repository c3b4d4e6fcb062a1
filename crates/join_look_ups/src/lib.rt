//! Look-ups of a heap's rows in an index of it, one by one: whether the index has, for each live tuple, an entry under
//! the tuple's own key (X1, U6).
#![tactic(auto)]

mod joined;
mod probe;
mod row_judge;

pub use joined::LookUps;
pub use probe::probe_rows;
pub use row_judge::RowJudge;
