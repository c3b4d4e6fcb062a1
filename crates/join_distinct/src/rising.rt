//! The keys of a leaf by the numbers of their first values, which mostly rise from item to item.
ghost use Rattle.std.specs.Prelude.{◌≤◌, ◌-◌, ℕ, IfSome, List};
ghost use Rattle.key_orders.specs.declared.Tid.{Tid as At};
ghost use Rattle.key_attrs.specs.Columns.{TreeColumns, tree_columns};
ghost use Rattle.bt_tuples.specs.Plain.{IsPlainEntry, LiesPlain};
ghost use Rattle.bt_image.specs.Image.{first_data};
ghost use Rattle.join_distinct.specs.Items.{RisesTo};

use key_attrs::{IndexColumns, plain_first_value};
use key_orders::key_prefix;

/// How the keys of a leaf stand to each other so far, item by item, as the numbers of their first values tell it
/// ([`key_prefix`](key_orders::key_prefix)): where a number is greater than another, the keys differ.
#[derive(Clone, Copy)]
pub enum Rise {
    /// No data item was taken yet.
    Begins,
    /// Each data item has one entry, with a greater number than the one before; this is the last.
    Rises { last: u64 },
    /// The numbers don't tell it.
    Untold,
}

// The number of the key in a tuple with this body, where it is told by the bytes as they lie.
#[inline(always)]
fn number_of(columns: &IndexColumns<'_>, body: &[u8]) -> Option<u64>
    ensures { IfSome result (λ number. (page : List ℕ) (i : ℕ) (tid : At) → LiesPlain page i tid body.now
        → IsPlainEntry columns.now.specs.now columns.now.more.now page i number) }
{
    let first = plain_first_value(columns, body)?;
    Some(key_prefix(columns.specs, &[first]))
}

impl Rise {
    // After one more entry, whose key has this number.
    #[inline(always)]
    fn after(self, number: u64) -> Rise
        ensures { (columns : TreeColumns) (page : List ℕ) (i : ℕ) → first_data page ≤ i
            → IsPlainEntry columns.specs columns.more page i number
            → RisesTo columns page (i - 1) self → RisesTo columns page i result }
    {
        match self {
            Rise::Begins => Rise::Rises { last: number },
            Rise::Rises { last } => {
                if number <= last {
                    return Rise::Untold;
                }
                Rise::Rises { last: number }
            }
            Rise::Untold => Rise::Untold,
        }
    }

    /// Takes the next data item of a leaf, which is one entry without null bits and has this body.
    #[inline(always)]
    pub fn add(&mut self, columns: &IndexColumns<'_>, body: &[u8])
        ensures { (page : List ℕ) (i : ℕ) (tid : At) → LiesPlain page i tid body.now → first_data page ≤ i
            → RisesTo (tree_columns columns.now) page (i - 1) self.old
            → RisesTo (tree_columns columns.now) page i self.new }
    {
        if let Rise::Untold = *self {
            return;
        }
        match number_of(columns, body) {
            Some(number) => *self = self.after(number),
            None => *self = Rise::Untold,
        }
    }
}
