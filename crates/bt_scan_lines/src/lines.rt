//! The lines of a scan.
ghost use Rattle.std.specs.Prelude.{◌≡◌, ◌<◌, ◌+◌, ◌^◌, ◌++◌, [], IfOk, OnOk};
ghost use Rattle.outside.specs.Outside.{Asked, IfTold, Tells};
ghost use Rattle.key_orders.specs.Scans.{FitsKey};
ghost use Rattle.bt_levels.specs.Sound.{HoldsTree, specs_of};
ghost use Rattle.back_scan.specs.Texts.{entry_text};
ghost use Rattle.bt_scan_lines.specs.Lines.{AreLinesOf, in_direction};
ghost use Rattle.bt_scan_lines.specs.Wanted.{wanted_on};

use crate::backward::add_backward;
use crate::forward::add_forward;
use back_scan::push_entry_line;
use bt_levels::SoundTree;
use key_orders::{KeyRefs, Octets, Scan, ScanDirection, Tid};
use outside::{Files, NoMemory};
use rel_files::PageFault;
use std::alloc::Global;
use text_writer::TextWriter;

/// The lines of entries, and how many there are.
#[derive(Drop)]
pub struct ScanLines {
    pub text: Octets,
    pub count: u64,
}

/// Lines that are written one after another.
#[derive(Drop)]
pub(crate) struct LineWriter {
    pub(crate) text: TextWriter,
    pub(crate) count: u64,
}

impl LineWriter {
    // No lines.
    fn new(alloc: Global) -> LineWriter
        ensures text { result.text ≡ [] }
        ensures count { result.count ≡ 0 }
    {
        LineWriter {
            text: TextWriter::new(alloc),
            count: 0,
        }
    }

    /// Adds the line of an entry with this key and this TID.
    pub(crate) fn push(&mut self, key: &KeyRefs<'_>, tid: Tid) -> Result<(), NoMemory>
        requires { self.old.count + 1 < 2 ^ 64 }
        ensures text { OnOk result (self.new.text ≡ self.old.text ++ entry_text key.now tid) }
        ensures count { OnOk result (self.new.count ≡ self.old.count + 1) }
    {
        push_entry_line(&mut self.text, key, tid)?;
        self.count += 1;
        Ok(())
    }

    // All of them.
    fn finish(self) -> Result<ScanLines, NoMemory>
        ensures text { IfOk result (λ lines. lines.text ≡ self.text) }
        ensures count { IfOk result (λ lines. lines.count ≡ self.count) }
    {
        let LineWriter { text, count } = self;
        let text = text.finish()?;
        Ok(ScanLines { text, count })
    }
}

/// The lines of the entries that a scan of an index wants, in the order of the index or in the reverse of that.
/// `ReadFault` comes only where the files couldn't be read.
pub fn scan_lines<F: Files>(
    alloc: Global,
    files: &mut F,
    tree: &SoundTree,
    scan: &Scan,
    direction: ScanDirection,
) -> Result<ScanLines, PageFault>
    requires holds { IfTold F.seen files.old (λ names. HoldsTree names tree.now) }
    requires fits { FitsKey (specs_of tree.now) scan.now }
    ensures lines { Tells F.seen files.old result (λ lines names.
        AreLinesOf (in_direction direction (wanted_on names tree.now scan.now)) lines) }
    ensures asked { Asked F.seen files.old files.new result PageFault.ReadFault }
{
    let mut lines = LineWriter::new(alloc);
    let mut page = [0u8; 8192];
    match direction {
        ScanDirection::Forward => add_forward(files, tree, scan, &mut page, &mut lines)?,
        ScanDirection::Backward => add_backward(files, tree, scan, &mut page, &mut lines)?,
    }
    Ok(lines.finish()?)
}
