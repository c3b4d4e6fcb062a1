//! The lines of a report, put at the end of a text piece by piece.
ghost use Rattle.std.specs.Prelude.{◌≡◌, ◌++◌, OnOk};
ghost use Rattle.std.specs.List.{flat_map};
ghost use Rattle.reports.specs.Texts.{counts_text, finding_line, item_text, place_text, reason_code, rel_text};
ghost use Rattle.reports.specs.Texts.{unjudged_line, verdict_of, verdict_word};

use crate::fields::{push_decimal_field, push_tid};
use crate::places::{Finding, Place, Reason, Rel, UnjudgedPlace, Verdict};
use key_orders::Octets;
use outside::NoMemory;

// The name of a relation.
#[tactic(auto, unfolding(crate::specs::Texts::rel_text))]
fn push_rel(text: &mut Octets, rel: Rel) -> Result<(), NoMemory>
    ensures { OnOk result (text.new ≡ text.old ++ rel_text rel) }
{
    match rel {
        Rel::Heap => text.push_slice(b"heap"),
        Rel::Map => text.push_slice(b"map"),
        Rel::Toast => text.push_slice(b"toast"),
        Rel::Index(n) => push_decimal_field(text, b"index ", n as u32),
    }
}

// The block and the item of a relation.
fn push_item(text: &mut Octets, rel: Rel, block: u32, item: u16) -> Result<(), NoMemory>
    ensures { OnOk result (text.new ≡ text.old ++ item_text rel block item) }
{
    push_rel(text, rel)?;
    push_decimal_field(text, b" block ", block)?;
    push_decimal_field(text, b" item ", item as u32)
}

// A place, from its relation to the smallest part that is meant.
#[tactic(auto, unfolding(crate::specs::Texts::place_text))]
fn push_place(text: &mut Octets, place: Place) -> Result<(), NoMemory>
    ensures { OnOk result (text.new ≡ text.old ++ place_text place) }
{
    match place {
        Place::Segment(rel, segment) => {
            push_rel(text, rel)?;
            push_decimal_field(text, b" segment ", segment)
        }
        Place::Block(rel, block) => {
            push_rel(text, rel)?;
            push_decimal_field(text, b" block ", block)
        }
        Place::Item(rel, block, item) => push_item(text, rel, block, item),
        Place::Column(block, item, column) => {
            push_item(text, Rel::Heap, block, item)?;
            push_decimal_field(text, b" column ", column as u32)
        }
        Place::Tuple(index, tid) => {
            push_rel(text, Rel::Index(index))?;
            text.push_slice(b" tuple ")?;
            push_tid(text, tid)
        }
        Place::Entry(index, block, item, tid) => {
            push_item(text, Rel::Index(index), block, item)?;
            text.push_slice(b" tid ")?;
            push_tid(text, tid)
        }
    }
}

#[tactic(auto, unfolding(crate::specs::Texts::reason_code))]
fn reason_code(reason: Reason) -> &'static [u8]
    ensures { result.now ≡ reason_code reason }
{
    match reason {
        Reason::U1 => b"U1",
        Reason::U2 => b"U2",
        Reason::U3 => b"U3",
        Reason::U4 => b"U4",
        Reason::U5 => b"U5",
        Reason::U6 => b"U6",
    }
}

#[tactic(auto, unfolding(crate::specs::Texts::verdict_word))]
fn verdict_word(verdict: Verdict) -> &'static [u8]
    ensures { result.now ≡ verdict_word verdict }
{
    match verdict {
        Verdict::Clean => b"clean",
        Verdict::Findings => b"findings",
        Verdict::Unjudged => b"unjudged",
    }
}

// The line of a finding.
#[tactic(auto, unfolding(crate::specs::Texts::finding_line))]
fn push_finding(text: &mut Octets, finding: &Finding) -> Result<(), NoMemory>
    ensures { OnOk result (text.new ≡ text.old ++ finding_line finding.now) }
{
    text.push_slice(b"finding ")?;
    text.push_slice(finding.rule.code().as_bytes())?;
    text.push_slice(b" ")?;
    push_place(text, finding.place)?;
    text.push_slice(b"\n")
}

// The line of a place that can't be judged.
#[tactic(auto, unfolding(crate::specs::Texts::unjudged_line))]
fn push_unjudged(text: &mut Octets, unjudged: &UnjudgedPlace) -> Result<(), NoMemory>
    ensures { OnOk result (text.new ≡ text.old ++ unjudged_line unjudged.now) }
{
    text.push_slice(b"unjudged ")?;
    text.push_slice(reason_code(unjudged.reason))?;
    text.push_slice(b" ")?;
    push_place(text, unjudged.place)?;
    text.push_slice(b"\n")
}

// The lines of the findings.
pub fn push_findings(text: &mut Octets, findings: &[Finding]) -> Result<(), NoMemory>
    ensures { OnOk result (text.new ≡ text.old ++ flat_map finding_line findings.now) }
{
    for finding in findings {
        push_finding(text, finding)?;
    }
    Ok(())
}

// The lines of the places that can't be judged.
pub fn push_unjudged_places(text: &mut Octets, places: &[UnjudgedPlace]) -> Result<(), NoMemory>
    ensures { OnOk result (text.new ≡ text.old ++ flat_map unjudged_line places.now) }
{
    for place in places {
        push_unjudged(text, place)?;
    }
    Ok(())
}

// The two lines of the counts, of findings and of places that can't be judged, and of the verdict.
#[tactic(auto, unfolding(crate::specs::Texts::counts_text))]
pub fn push_counts(text: &mut Octets, counts: (u64, u64), verdict: Verdict) -> Result<(), NoMemory>
    ensures { OnOk result (text.new ≡ text.old ++ counts_text counts.0 counts.1 verdict) }
{
    text.push_slice(b"findings ")?;
    text.push_decimal(counts.0)?;
    text.push_slice(b" unjudged ")?;
    text.push_decimal(counts.1)?;
    text.push_slice(b"\nverdict ")?;
    text.push_slice(verdict_word(verdict))?;
    text.push_slice(b"\n")
}

// The verdict on the two lists.
#[tactic(auto, unfolding(crate::specs::Texts::verdict_of))]
pub fn verdict_by(findings: &[Finding], unjudged: &[UnjudgedPlace]) -> Verdict
    ensures { result ≡ verdict_of findings.now unjudged.now }
{
    match (findings, unjudged) {
        ([_, ..], _) => Verdict::Findings,
        ([], [_, ..]) => Verdict::Unjudged,
        ([], []) => Verdict::Clean,
    }
}
