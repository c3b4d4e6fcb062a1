//! A report: the findings, and the places that can't be judged.
ghost use Rattle.std.specs.Prelude.{◌≡◌, ◌+◌, ◌≤◌, ◌^◌, ◌⊎◌, ◌++◌, [], ◌∷◌, length, IfOk, OnOk, OnErr};
ghost use Rattle.outside.specs.Adds.{AddsIn};
ghost use Rattle.reports.specs.Added.{finding_at, report_lists};
ghost use Rattle.reports.specs.Texts.{report_text, verdict_of};

use crate::long_list::LongList;
use crate::places::{Finding, Place, Reason, UnjudgedPlace, Verdict};
use crate::texts::{push_counts, push_findings, push_unjudged_places, verdict_by};
use key_orders::Octets;
use outside::NoMemory;
use page_layout::Rule;
use std::alloc::Global;
use std::marker::Model;

/// All findings and all places that can't be judged, each in the order in which they came. Contracts
/// see the two lists. Of each it stores what is printed and the count, so its memory is bounded. It
/// keeps its allocator.
#[derive(Drop)]
pub struct Report {
    findings: LongList<Finding>,
    unjudged: LongList<UnjudgedPlace>,
}

impl Model for Report {
    ghost use Rattle.reports.specs.Lists.{Lists};

    ghost Value = { Lists };

    ghost view = { λ r. record { findings = r.findings; unjudged = r.unjudged } };
}

impl Report {
    /// A report of nothing.
    pub fn new(alloc: Global) -> Report
        ensures { result ≡ record { findings = []; unjudged = [] } }
    {
        Report {
            findings: LongList::new(alloc),
            unjudged: LongList::new(alloc),
        }
    }

    /// Adds a finding at the end; after `NoMemory` nothing changed.
    pub fn finding(&mut self, found: Finding) -> Result<(), NoMemory>
        ensures ok { OnOk result (self.new ≡ record self.old { findings = self.old.findings ++ found ∷ [] }) }
        ensures err { OnErr result (self.new ≡ self.old) }
    {
        self.findings.push(found)?;
        Ok(())
    }

    /// Adds a place that can't be judged at the end; after `NoMemory` nothing changed.
    pub fn unjudged(&mut self, reason: Reason, place: Place) -> Result<(), NoMemory>
        ensures ok { OnOk result (self.new ≡ record self.old {
          unjudged = self.old.unjudged ++ record { reason = reason; place = place } ∷ [];
        }) }
        ensures err { OnErr result (self.new ≡ self.old) }
    {
        self.unjudged.push(UnjudgedPlace { reason, place })?;
        Ok(())
    }

    /// Adds the finding of a rule at a place, if one is broken there; after `NoMemory` nothing changed.
    pub fn add_rule(&mut self, place: Place, rule: Option<Rule>) -> Result<(), NoMemory>
        ensures { AddsIn report_lists result self.old self.new (finding_at place rule) }
    {
        match rule {
            None => Ok(()),
            Some(rule) => self.finding(Finding { rule, place }),
        }
    }

    /// Puts all that another report holds after what is there, without taking memory. It answers
    /// `NoMemory` only where a count would pass 2^64 - 1, and then nothing changed.
    pub fn append(&mut self, other: Report) -> Result<(), NoMemory>
        ensures ok { OnOk result (self.new ≡ record {
          findings = self.old.findings ++ other.findings;
          unjudged = self.old.unjudged ++ other.unjudged;
        }) }
        ensures err { OnErr result (self.new ≡ self.old) }
        ensures full { OnErr result (
            (2 ^ 64 ≤ length self.old.findings + length other.findings)
            ⊎ (2 ^ 64 ≤ length self.old.unjudged + length other.unjudged)) }
    {
        let Report { findings, unjudged } = other;
        if self.findings.count() > u64::MAX - findings.count() {
            return Err(NoMemory);
        }
        if self.unjudged.count() > u64::MAX - unjudged.count() {
            return Err(NoMemory);
        }
        self.findings.append(findings);
        self.unjudged.append(unjudged);
        Ok(())
    }

    /// How many findings there are, and how many places can't be judged.
    pub fn counts(&self) -> (u64, u64)
        ensures { result ≡ record { 0 = length self.now.findings; 1 = length self.now.unjudged } }
    {
        (self.findings.count(), self.unjudged.count())
    }

    /// The verdict: findings come before what can't be judged.
    #[tactic(auto, using(crate::proofs::FirstParts::verdict_by_first_part))]
    pub fn verdict(&self) -> Verdict
        ensures { result ≡ verdict_of self.now.findings self.now.unjudged }
    {
        verdict_by(self.findings.first(), self.unjudged.first())
    }

    /// The text of the report: a line for each finding, then one for each place that can't be
    /// judged, of either at most the first thousand, and then the counts of all and the verdict.
    #[tactic(auto, unfolding(crate::specs::Texts::report_text))]
    pub fn text(&self, alloc: Global) -> Result<Octets, NoMemory>
        ensures { IfOk result (λ text. text ≡ report_text self.now.findings self.now.unjudged) }
    {
        let mut text = Octets::new(alloc);
        push_findings(&mut text, self.findings.first())?;
        push_unjudged_places(&mut text, self.unjudged.first())?;
        push_counts(&mut text, self.counts(), self.verdict())?;
        Ok(text)
    }
}
