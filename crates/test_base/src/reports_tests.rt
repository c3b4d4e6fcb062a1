//! The texts of reports, line by line.
use crate::checks::{holds, same};
use key_orders::{Octets, Tid};
use outside::{Failed, NoMemory};
use page_layout::Rule;
use rel_files::{CheckFault, Which};
use reports::{Finding, Place, Reason, Rel, Report, Verdict};
use std::alloc::Global;
use std::process::Abort;
use std::test::Fail;

const TID: Tid = Tid { block: 0, item: 4 };

/// Ends the test unless these are the bytes of a text.
pub fn expect_text(rt: &impl Abort, text: &Octets, want: &str) {
    assert!(rt; text.as_slice() == want.as_bytes(), "not the text {want}");
}

const FINDINGS: [(Rule, Place); 8] = [
    (Rule::P4, Place::Block(Rel::Map, 0)),
    (Rule::S1, Place::Segment(Rel::Heap, 0)),
    (Rule::H9, Place::Item(Rel::Heap, 0, 1)),
    (Rule::P1, Place::Block(Rel::Toast, 16383)),
    (Rule::H21, Place::Column(0, 1, 1)),
    (Rule::L3, Place::Block(Rel::Index(1), 2)),
    (Rule::X1, Place::Tuple(1, TID)),
    (Rule::X2, Place::Entry(32, 1, 1, TID)),
];

const REASONS: [(Reason, Place); 6] = [
    (Reason::U1, Place::Item(Rel::Heap, 1, 2)),
    (Reason::U2, Place::Item(Rel::Heap, 1, 3)),
    (Reason::U3, Place::Item(Rel::Toast, 1, 4)),
    (Reason::U4, Place::Block(Rel::Index(1), 0)),
    (Reason::U5, Place::Item(Rel::Index(1), 1, 1)),
    (Reason::U6, Place::Tuple(2, TID)),
];

const EACH_PLACE: &str = "finding P4 map block 0\n\
    finding S1 heap segment 0\n\
    finding H9 heap block 0 item 1\n\
    finding P1 toast block 16383\n\
    finding H21 heap block 0 item 1 column 1\n\
    finding L3 index 1 block 2\n\
    finding X1 index 1 tuple 0 4\n\
    finding X2 index 32 block 1 item 1 tid 0 4\n\
    unjudged U1 heap block 1 item 2\n\
    unjudged U2 heap block 1 item 3\n\
    unjudged U3 toast block 1 item 4\n\
    unjudged U4 index 1 block 0\n\
    unjudged U5 index 1 block 1 item 1\n\
    unjudged U6 index 2 tuple 0 4\n\
    findings 8 unjudged 6\n\
    verdict findings\n";

fn expect_report(rt: &impl Abort, alloc: Global, report: &Report, want: &str) -> Result<(), Fail> {
    expect_text(rt, &report.text(alloc)?, want);
    Ok(())
}

// A report with each of these findings and reasons.
fn full_report(alloc: Global) -> Result<Report, NoMemory> {
    let mut report = Report::new(alloc);
    for (rule, place) in FINDINGS {
        report.finding(Finding { rule, place })?;
    }
    for (reason, place) in REASONS {
        report.unjudged(reason, place)?;
    }
    Ok(report)
}

#[test]
fn each_place(rt: HostRuntime) -> Result<(), Fail> {
    let report = full_report(rt.alloc())?;
    same(&rt, &report.counts(), &(8, 6), 0);
    expect_report(&rt, rt.alloc(), &report, EACH_PLACE)
}

// A report with a place that can't be judged, if there is to be one, and with a finding there, if there is to be one.
fn report_with(alloc: Global, unjudged: bool, found: bool) -> Result<Report, NoMemory> {
    let place = Place::Item(Rel::Index(1), 1, 1);
    let mut report = Report::new(alloc);
    if unjudged {
        report.unjudged(Reason::U5, place)?;
    }
    if found {
        report.finding(Finding {
            rule: Rule::B9,
            place,
        })?;
    }
    Ok(report)
}

fn expect_verdict(
    rt: &impl Abort,
    alloc: Global,
    report: &Report,
    (verdict, want): (Verdict, &str),
) -> Result<(), Fail> {
    same(rt, &report.verdict(), &verdict, 0);
    expect_report(rt, alloc, report, want)
}

// Whether there are such places, the verdict and the text.
const VERDICTS: [(bool, bool, Verdict, &str); 3] = [
    (
        false,
        false,
        Verdict::Clean,
        "findings 0 unjudged 0\nverdict clean\n",
    ),
    (
        true,
        false,
        Verdict::Unjudged,
        "unjudged U5 index 1 block 1 item 1\nfindings 0 unjudged 1\nverdict unjudged\n",
    ),
    (
        true,
        true,
        Verdict::Findings,
        "finding B9 index 1 block 1 item 1\nunjudged U5 index 1 block 1 item 1\n\
        findings 1 unjudged 1\nverdict findings\n",
    ),
];

#[test]
fn verdicts(rt: HostRuntime) -> Result<(), Fail> {
    for (unjudged, found, verdict, want) in VERDICTS {
        let report = report_with(rt.alloc(), unjudged, found)?;
        expect_verdict(&rt, rt.alloc(), &report, (verdict, want))?;
    }
    Ok(())
}

// A finding in so many blocks, and a place that can't be judged in one more.
fn long_report(alloc: Global, blocks: u32) -> Result<Report, NoMemory> {
    let mut report = Report::new(alloc);
    for block in 0..blocks {
        report.finding(Finding {
            rule: Rule::P1,
            place: Place::Block(Rel::Heap, block),
        })?;
        report.unjudged(Reason::U1, Place::Item(Rel::Heap, block, 1))?;
    }
    report.unjudged(Reason::U1, Place::Item(Rel::Heap, blocks, 1))?;
    Ok(report)
}

// How many lines a text has.
fn lines_of(text: &[u8]) -> u32 {
    let mut lines = 0u32;
    for byte in text {
        if *byte == b'\n' {
            lines = lines.wrapping_add(1);
        }
    }
    lines
}

#[test]
fn a_thousand_lines_are_printed(rt: HostRuntime) -> Result<(), Fail> {
    let report = long_report(rt.alloc(), 1001)?;
    same(&rt, &report.counts(), &(1001, 1002), 0);
    let text = report.text(rt.alloc())?;
    let bytes = text.as_slice();
    holds(&rt, lines_of(bytes) == 2002, 1);
    let last =
        b"\nunjudged U1 heap block 999 item 1\nfindings 1001 unjudged 1002\nverdict findings\n";
    holds(&rt, bytes.ends_with(last), 2);
    Ok(())
}

// Adds a finding at each block, and a place that can't be judged at every tenth.
fn add_blocks(report: &mut Report, blocks: u32) -> Result<(), NoMemory> {
    for block in 0..blocks {
        report.finding(Finding {
            rule: Rule::P1,
            place: Place::Block(Rel::Toast, block),
        })?;
        if block % 10 == 0 {
            report.unjudged(Reason::U1, Place::Item(Rel::Heap, block, 1))?;
        }
    }
    Ok(())
}

// Adds them to a report that is joined to a first one, and to a second one.
fn add_twice(
    alloc: Global,
    joined: &mut Report,
    whole: &mut Report,
    blocks: u32,
) -> Result<(), NoMemory> {
    let mut part = Report::new(alloc);
    add_blocks(&mut part, blocks)?;
    joined.append(part)?;
    add_blocks(whole, blocks)
}

// Whether two reports have the same text.
fn say_the_same(alloc: Global, a: &Report, b: &Report) -> Result<bool, NoMemory> {
    let (a, b) = (a.text(alloc)?, b.text(alloc)?);
    Ok(a.as_slice() == b.as_slice())
}

#[test]
fn reports_are_joined(rt: HostRuntime) -> Result<(), Fail> {
    let mut joined = Report::new(rt.alloc());
    let mut whole = Report::new(rt.alloc());
    for blocks in [0, 3, 0, 996, 2, 2000] {
        add_twice(rt.alloc(), &mut joined, &mut whole, blocks)?;
        same(&rt, &joined.counts(), &whole.counts(), blocks);
        holds(&rt, say_the_same(rt.alloc(), &joined, &whole)?, blocks);
    }
    same(&rt, &joined.counts(), &(3001, 302), 0);
    Ok(())
}

const FAULTS: [(CheckFault, &str); 3] = [
    (CheckFault::NoFile(Which::Toast), "a file isn't there"),
    (
        CheckFault::TooLarge {
            which: Which::Index(2),
            blocks: 16385,
            limit: 16384,
        },
        "a file has 16385 blocks, and the limit is 16384",
    ),
    (CheckFault::ReadFault, "a file couldn't be read"),
];

#[test]
fn faults(rt: HostRuntime) -> Result<(), Fail> {
    same(&rt, &CheckFault::from(Failed), &CheckFault::ReadFault, 0);
    same(&rt, &CheckFault::from(NoMemory), &CheckFault::NoMemory, 1);
    for (fault, want) in FAULTS {
        let text = format!(in rt.alloc(); "{fault}")?;
        assert!(rt; text.as_str() == want, "{want}");
    }
    Ok(())
}
