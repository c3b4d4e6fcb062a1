//! The first rule that a document breaks, and where.
ghost use Rattle.std.specs.Prelude.{◌≡◌, find, option_map};
ghost use Rattle.toml.specs.View.{table_view};
ghost use Rattle.case_file.specs.Case.{first_broken};
ghost use Rattle.case_rules.specs.Rules.{breaks};
ghost use Rattle.case_rules.specs.Spots.{spot_view, spots_view};

use case_rules::{CaseRule, Spot, breaks};
use toml::Table;

// The first spot that breaks a rule.
#[tactic(auto, unfolding(case_rules::specs::Spots::spots_view))]
fn first_spot<'a>(top: &Table, rule: CaseRule, spots: &[Spot<'a>]) -> Option<Spot<'a>>
    ensures { option_map spot_view result ≡ find (breaks (table_view top.now) rule) (spots_view spots.now) }
{
    for spot in spots {
        if breaks(top, rule, *spot) {
            return Some(*spot);
        }
    }
    None
}

/// The first of the rules that a spot breaks, with the first spot that breaks it.
pub fn first_broken<'a>(
    top: &Table,
    spots: &[Spot<'a>],
    rules: &[CaseRule],
) -> Option<(CaseRule, Spot<'a>)>
    ensures { option_map (λ p. (p.0, spot_view p.1)) result
        ≡ first_broken (table_view top.now) (spots_view spots.now) rules.now }
{
    for rule in rules {
        if let Some(spot) = first_spot(top, *rule, spots) {
            return Some((*rule, spot));
        }
    }
    None
}
