//! The rules that a header alone may break.
ghost use Rattle.std.specs.Prelude.{◌≡◌, ◌↔◌, ℕ, false, IfSome, IsNone, IsTrue};
ghost use Rattle.tuple_head.specs.declared.HeapHead.{HeapHead};
ghost use Rattle.tuple_head.specs.Head.{KeepsHeadRules, PlacesAttributes, breaks_head_rule, expected_hoff};
ghost use Rattle.tuple_head.specs.Head.{has_misplaced_attributes, has_more_attributes_than_columns};
ghost use Rattle.tuple_head.specs.Head.{has_multixact_hinted_committed, head_rule_of, is_heap_only_without_update};
ghost use Rattle.tuple_head.specs.Head.{is_hot_updated_by_no_transaction, is_old_form};

use crate::HeapHead;
use page_layout::{Rule, max_align};

impl HeapHead {
    // Where the attributes begin, by the number of attributes and whether there are null bits.
    #[tactic(auto, unfolding(crate::specs::Head::expected_hoff))]
    fn expected_hoff(self) -> u16
        ensures { result ≡ expected_hoff self }
    {
        if self.has_nulls() {
            max_align(23 + (self.natts() + 7) / 8)
        } else {
            24
        }
    }

    fn has_more_attributes_than(self, columns: u16) -> bool
        ensures { result ≡ has_more_attributes_than_columns columns self }
    {
        columns < self.natts()
    }

    fn has_misplaced_attributes(self, len: u16) -> bool
        ensures { result ≡ has_misplaced_attributes len self }
    {
        let hoff = u16::from(self.hoff);
        hoff != self.expected_hoff() || len < hoff
    }

    fn has_multixact_hinted_committed(self) -> bool
        ensures { result ≡ has_multixact_hinted_committed self }
    {
        self.is_multi() && self.is_xmax_committed()
    }

    fn is_hot_updated_by_no_transaction(self) -> bool
        ensures { result ≡ is_hot_updated_by_no_transaction self }
    {
        self.is_hot_updated() && !self.is_multi() && self.xmax == 0
    }

    fn is_heap_only_without_update(self) -> bool
        ensures { result ≡ is_heap_only_without_update self }
    {
        self.heap_only() && !self.is_updated()
    }

    /// The first of the rules H4 to H8 that the header breaks, for a tuple of `len` bytes in a table
    /// of so many columns. None exactly where it breaks none of them.
    ///
    /// H4: it has more attributes than there are columns. H5: `hoff` isn't the place after the null
    /// bits, or is past the tuple's end. H6: a multixact is hinted to be committed. H7: it is
    /// hot-updated by no transaction. H8: it is heap-only and wasn't made by an update.
    #[tactic(auto, unfolding(crate::specs::Head::head_rule_of))]
    pub fn head_rule(self, columns: u16, len: u16) -> Option<Rule>
        requires { is_old_form self ≡ false }
        ensures value { result ≡ head_rule_of columns len self }
        ensures none { IsNone result ↔ KeepsHeadRules columns len self }
        ensures some { IfSome result (λ rule. IsTrue (breaks_head_rule columns len self rule)) }
    {
        if self.has_more_attributes_than(columns) {
            return Some(Rule::H4);
        }
        if self.has_misplaced_attributes(len) {
            return Some(Rule::H5);
        }
        if self.has_multixact_hinted_committed() {
            return Some(Rule::H6);
        }
        if self.is_hot_updated_by_no_transaction() {
            return Some(Rule::H7);
        }
        if self.is_heap_only_without_update() {
            return Some(Rule::H8);
        }
        None
    }
}

/// A header that keeps the rules H4 to H8 places the tuple's attributes: they are no more than the
/// columns, the header ends within the tuple, and from byte 23 on it has a bit for each attribute.
pub fn kept_rules_place_attributes()
    ensures { (columns len : ℕ) (head : HeapHead) →
        KeepsHeadRules columns len head → PlacesAttributes columns len head }
{}
