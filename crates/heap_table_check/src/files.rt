//! The files of a table that are judged.
ghost use Rattle.std.specs.Prelude.{◌≡◌, ◌≤◌, IfOk, IfSome, string_bytes};
ghost use Rattle.outside.specs.Outside.{Asked, IfTold, Tells};
ghost use Rattle.rel_files.specs.Relation.{FindsFront};
ghost use Rattle.vis_map.specs.Bits.{map_pages_for};
ghost use Rattle.rel_files.specs.Refusals.{IsNamed, TellsRefusal};
ghost use Rattle.heap_table_check.specs.Map.{map_name};
ghost use Rattle.heap_table_check.specs.Files.{IsToastIn, IsToastNamed, toast_refusal};

use crate::known::KnownBlocks;
use case_file::Case;
use heap_targets::RootSet;
use outside::{Files, NoMemory};
use rel_files::{CheckFault, PageFault, Relation, Which, attach_file};
use std::alloc::Global;
use toast_chunks::ToastMap;
use vis_map::map_pages_for;

/// The files of a case's table, whose names and lengths are known: its heap, its visibility map where
/// there is one, and its TOAST table where the case has one. It stores none of their bytes: it is used
/// with the files and the case that it was made with.
#[derive(Drop)]
pub struct HeapFiles {
    pub(crate) heap: Relation,
    pub(crate) map: Option<Relation>,
    pub(crate) toast: Option<Relation>,
}

/// The files of a case's table, in which nothing was found and nothing stayed unjudged, with the
/// chunks of the TOAST table, and what is known of the heap's blocks.
#[derive(Drop)]
pub struct SoundHeap {
    pub(crate) files: HeapFiles,
    pub(crate) chunks: ToastMap,
    pub(crate) known: KnownBlocks,
}

impl SoundHeap {
    ghost use Rattle.std.specs.Option.{option_copied};
    ghost use Rattle.heap_table_check.specs.Files.{chunks_in, heap_in, is_plain_in, targets_in, toast_in};

    /// The heap's relation.
    pub fn heap(&self) -> &Relation
        ensures { result.now ≡ heap_in self.now }
    {
        &self.files.heap
    }

    /// The TOAST table's relation, where the case has one.
    pub fn toast(&self) -> Option<&Relation>
        ensures { option_copied result ≡ toast_in self.now }
    {
        self.files.toast.as_ref()
    }

    /// The chunks of the TOAST table's live rows.
    pub fn chunks(&self) -> &ToastMap
        ensures { result.now ≡ chunks_in self.now }
    {
        &self.chunks
    }

    /// The line pointers of the heap that an index entry may name.
    pub fn targets(&self) -> &RootSet
        ensures { result.now ≡ targets_in self.now }
    {
        &self.known.targets
    }

    /// Whether the page of a block is known to be plain: line pointers alone tell which of its items are live tuples,
    /// and it has no chains. `false` says nothing.
    pub fn is_plain(&self, block: u32) -> bool
        ensures { result ≡ is_plain_in self.now block }
    {
        let plain = &self.known.plain;
        (block as usize) < plain.len() && plain[block as usize]
    }
}

// The base name of the visibility map of a heap.
fn map_name(alloc: Global, heap: &str) -> Result<String, NoMemory>
    ensures { IfOk result (λ name. string_bytes name ≡ map_name heap.now) }
{
    let name = format!(in alloc; "{heap}_vm")?;
    Ok(name)
}

// Attaches the pages of a heap's visibility map that have bits of so many blocks, if there is a map.
fn attach_map<F: Files>(
    alloc: Global,
    files: &mut F,
    heap: &str,
    segment_blocks: u32,
    blocks: u32,
) -> Result<Option<Relation>, PageFault>
    requires some { 1 ≤ segment_blocks }
    requires small { segment_blocks ≤ 131072 }
    ensures named { IfOk result (λ map. IfSome map (IsNamed (map_name heap.now) segment_blocks)) }
    ensures told { Tells F.seen files.old result (λ map names.
        FindsFront names (map_name heap.now) segment_blocks (map_pages_for blocks) map) }
    ensures asked { Asked F.seen files.old files.new result PageFault.ReadFault }
{
    let name = map_name(alloc, heap)?;
    let limit = map_pages_for(blocks);
    let map = Relation::attach_front(alloc, files, name.as_str(), segment_blocks, limit)?;
    Ok(map)
}

// Attaches the TOAST table of a case, if it has one.
fn attach_toast<F: Files>(
    alloc: Global,
    files: &mut F,
    case: &Case,
) -> Result<Option<Relation>, CheckFault>
    ensures named { IfOk result (IsToastNamed case.now.segment_blocks case.now.toast) }
    ensures told { Tells F.seen files.old result (λ toast names.
        IsToastIn names case.now.segment_blocks case.now.toast toast) }
    ensures refusal { IfTold F.seen files.old (λ names.
        TellsRefusal (toast_refusal names case.now.segment_blocks case.now.toast) result) }
    ensures asked { Asked F.seen files.old files.new result CheckFault.ReadFault }
{
    case.sound();
    match case.toast() {
        None => Ok(None),
        Some((file, _)) => Ok(Some(attach_file(
            alloc,
            files,
            Which::Toast,
            file,
            case.segment_blocks(),
        )?)),
    }
}

impl HeapFiles {
    ghost use Rattle.rel_files.specs.Refusals.{TellsRefusal};
    ghost use Rattle.heap_table_check.specs.Files.{AreFilesOf, BelongTo, refusal_of};

    /// Attaches the files of a case's table: its heap, its visibility map (the heap's name with `_vm`
    /// added), and its TOAST table, in this order.
    ///
    /// `NoFile` comes exactly where the first segment of the heap, or else of the TOAST table, isn't
    /// there, and `TooLarge` exactly where the heap has more than 4194304 blocks or the TOAST table more
    /// than 1048576, with the count at the first segment where it does. The map gives neither: where it
    /// isn't there it says nothing. `ReadFault` comes only where the count of the files' faults rose.
    pub fn attach<F: Files>(
        alloc: Global,
        files: &mut F,
        case: &Case,
    ) -> Result<HeapFiles, CheckFault>
        ensures told { Tells F.seen files.old result (λ at names. AreFilesOf case.now names at) }
        ensures belong { IfOk result (λ at. BelongTo case.now at) }
        ensures refusal { IfTold F.seen files.old (λ names. TellsRefusal (refusal_of case.now names) result) }
        ensures asked { Asked F.seen files.old files.new result CheckFault.ReadFault }
    {
        case.sound();
        let size = case.segment_blocks();
        let heap = attach_file(alloc, files, Which::Heap, case.heap_file(), size)?;
        let map = attach_map(alloc, files, case.heap_file(), size, heap.blocks())?;
        let toast = attach_toast(alloc, files, case)?;
        Ok(HeapFiles { heap, map, toast })
    }
}
