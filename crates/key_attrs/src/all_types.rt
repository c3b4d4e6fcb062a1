//! The types of all columns of an index, one after the other.
ghost use Rattle.std.specs.Prelude.{◌≡◌, ◌<◌, get_or, length};
ghost use Rattle.key_orders.specs.Types.{HasAlignment};
ghost use Rattle.key_orders.specs.declared.columns.ColType.{ColType as ColumnType};
ghost use Rattle.key_attrs.specs.Columns.{all_types};

use crate::columns::IndexColumns;
use key_orders::ColType;

impl IndexColumns<'_> {
    /// How many columns there are.
    #[inline]
    pub fn count(&self) -> usize
        ensures { result ≡ length (all_types self.now) }
    {
        self.specs.len() + self.more.len()
    }

    /// The type of column k, counted from 0; those of the key come first.
    #[inline]
    pub fn type_at(&self, k: usize) -> ColType
        requires { k < length (all_types self.now) }
        ensures place { (d : ColumnType) → result ≡ get_or (all_types self.now) k d }
        ensures known { HasAlignment result }
    {
        if k < self.specs.len() {
            self.specs[k].ctype
        } else {
            self.more[k - self.specs.len()].ctype
        }
    }
}
