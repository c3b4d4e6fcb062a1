//! What the texts of heap pages and of tree pages have in common.
ghost use Rattle.std.specs.Prelude.{◌≡◌, ◌++◌, OnOk, codes};
ghost use Rattle.page_layout.specs.Rules.{code_of};
ghost use Rattle.reports.specs.Show.{places_text, storage_text};

use crate::fields::push_decimal_field;
use key_orders::Octets;
use outside::NoMemory;
use page_layout::{LinePtr, PageHeader, Rule};

// The line of a page that breaks a page rule.
pub fn push_page_rule(text: &mut Octets, rule: Rule) -> Result<(), NoMemory>
    ensures { OnOk result (text.new ≡ text.old ++ (codes "page rule " ++ code_of rule ++ codes "\n")) }
{
    text.push_slice(b"page rule ")?;
    text.push_slice(rule.code().as_bytes())?;
    text.push_slice(b"\n")
}

// The rule that an item breaks, in place of what it points to.
pub fn push_item_rule(text: &mut Octets, rule: Rule) -> Result<(), NoMemory>
    ensures { OnOk result (text.new ≡ text.old ++ (codes " rule " ++ code_of rule)) }
{
    text.push_slice(b" rule ")?;
    text.push_slice(rule.code().as_bytes())
}

// The places in a page's header.
#[tactic(auto, unfolding(crate::specs::Show::places_text))]
pub fn push_places(text: &mut Octets, header: PageHeader) -> Result<(), NoMemory>
    ensures { OnOk result (text.new ≡ text.old ++ places_text header) }
{
    push_decimal_field(text, b" lower ", header.lower as u32)?;
    push_decimal_field(text, b" upper ", header.upper as u32)?;
    push_decimal_field(text, b" special ", header.special as u32)
}

// Where a line pointer's storage is.
#[tactic(auto, unfolding(crate::specs::Show::storage_text))]
pub fn push_storage(text: &mut Octets, pointer: LinePtr) -> Result<(), NoMemory>
    ensures { OnOk result (text.new ≡ text.old ++ storage_text pointer) }
{
    push_decimal_field(text, b" off ", pointer.off as u32)?;
    push_decimal_field(text, b" len ", pointer.len as u32)
}
