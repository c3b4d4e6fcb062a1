//! An index in which nothing was found.
ghost use Rattle.std.specs.Prelude.{◌≤◌, All, length};
ghost use Rattle.key_orders.specs.Types.{HasAlignment};
ghost use Rattle.key_attrs.specs.Keyed.{key_types, more_types};

use crate::files::TreeFile;
use bt_level_check::TreeShape;
use key_attrs::IndexColumns;
use key_orders::{KeySpec, MoreSpec};
use outside::Files;
use rel_files::{Ahead, ReadFault};

/// The file of an index, in which nothing was found and nothing stayed unjudged, with its columns and what
/// its levels have. It stores none of its bytes: it is used with the files and the case that it was made with.
#[derive(Drop)]
pub struct SoundTree {
    pub(crate) file: TreeFile,
    pub(crate) specs: Vec<KeySpec>,
    pub(crate) more: Vec<MoreSpec>,
    pub(crate) shape: TreeShape,
    ghost few: { length specs.items ≤ 8 },
    ghost few_more: { length more.items ≤ 24 },
    ghost aligned: { All HasAlignment (key_types specs.items) },
    ghost aligned_more: { All HasAlignment (more_types more.items) },
}

impl SoundTree {
    ghost use Rattle.std.specs.Prelude.{◌≡◌, ◌<◌, OnOk};
    ghost use Rattle.key_attrs.specs.Columns.{tree_columns};
    ghost use Rattle.outside.specs.Outside.{AskedAtMost, IfTold};
    ghost use Rattle.rel_files.specs.Ahead.{IsAheadOf, IsInHand, page_in_hand};
    ghost use Rattle.rel_files.specs.Blocks.{block_of};
    ghost use Rattle.rel_files.specs.Faults.{read_fault};
    ghost use Rattle.rel_files.specs.Relation.{IsAttached, base_of, count_of, size_of};
    ghost use Rattle.bt_levels.specs.Files.{number_of, relation_of};
    ghost use Rattle.bt_levels.specs.Sound.{fastlevel_of, fastroot_of, file_of, half_dead_of, right_halves_of};
    ghost use Rattle.bt_levels.specs.Sound.{index_columns, more_of, specs_of};

    /// The number of its blocks, the metapage among them.
    pub fn blocks(&self) -> u32
        ensures { result ≡ count_of (relation_of (file_of self.now)) }
    {
        self.file.relation.blocks()
    }

    /// The block where searches begin; 0 in an empty tree.
    pub fn fastroot(&self) -> u32
        ensures { result ≡ fastroot_of self.now }
    {
        self.shape.fastroot
    }

    /// The level of that block's page, 0 for a leaf.
    pub fn fastlevel(&self) -> u32
        ensures { result ≡ fastlevel_of self.now }
    {
        self.shape.fastlevel
    }

    /// How many of its pages, on all levels, are right halves, to which no downlink leads yet; 0 in an empty
    /// tree. A search goes to each by the link of its left sibling, which is one more visit.
    pub fn right_halves(&self) -> u32
        ensures { result ≡ right_halves_of self.now }
    {
        self.shape.right_halves
    }

    /// How many of its leaves, in the chain of the lowest level, are half-dead; 0 in an empty tree.
    pub fn half_dead(&self) -> u32
        ensures { result ≡ half_dead_of self.now }
    {
        self.shape.half_dead
    }

    /// Its columns: those of its key, and those that it includes.
    pub fn columns(&self) -> IndexColumns<'_>
        ensures lists { tree_columns result ≡ index_columns self.now }
        ensures specs { result.specs.now ≡ specs_of self.now }
        ensures more { result.more.now ≡ more_of self.now }
    {
        IndexColumns::new(&self.specs, &self.more)
    }

    /// The columns of its key, at most 8.
    pub fn specs(&self) -> &[KeySpec]
        ensures { result.now ≡ specs_of self.now }
    {
        &self.specs
    }

    /// The columns that it includes beside its key, at most 24.
    pub fn more(&self) -> &[MoreSpec]
        ensures { result.now ≡ more_of self.now }
    {
        &self.more
    }

    /// Its number in the case, counted from 1.
    pub fn index(&self) -> u16
        ensures { result ≡ number_of (file_of self.now) }
    {
        self.file.index
    }

    /// Reads a block of it into `out`; blocks count from 0. `ReadFault` comes only where the files
    /// couldn't be read, and `out` is then unspecified.
    pub fn read_block<F: Files>(
        &self,
        files: &mut F,
        b: u32,
        out: &mut [u8; 8192],
    ) -> Result<(), ReadFault>
        requires attached { IfTold F.seen files.old (λ names. IsAttached names (relation_of (file_of self.now))) }
        requires below { b < count_of (relation_of (file_of self.now)) }
        ensures bytes { OnOk result (IfTold F.seen files.old (λ names. out.new
            ≡ block_of names (base_of (relation_of (file_of self.now))) (size_of (relation_of (file_of self.now))) b)) }
        ensures asked { AskedAtMost 1 F.seen files.old files.new result read_fault }
    {
        self.file.relation.read_block(files, b, out)
    }

    /// Takes a block of it in hand, which is read together with some that follow it where it isn't there;
    /// blocks count from 0. `ReadFault` comes only where the files couldn't be read, and no block is then
    /// in hand.
    pub fn take_ahead<F: Files>(
        &self,
        files: &mut F,
        b: u32,
        ahead: &mut Ahead,
    ) -> Result<(), ReadFault>
        requires attached { IfTold F.seen files.old (λ names. IsAttached names (relation_of (file_of self.now))) }
        requires below { b < count_of (relation_of (file_of self.now)) }
        requires hand { IfTold F.seen files.old (λ names. IsAheadOf names (relation_of (file_of self.now)) ahead.old) }
        ensures hand { IfTold F.seen files.old (λ names. IsAheadOf names (relation_of (file_of self.now)) ahead.new) }
        ensures taken { OnOk result (IsInHand ahead.new b) }
        ensures bytes { OnOk result (IfTold F.seen files.old (λ names. page_in_hand ahead.new b
            ≡ block_of names (base_of (relation_of (file_of self.now))) (size_of (relation_of (file_of self.now))) b)) }
        ensures asked { AskedAtMost 1 F.seen files.old files.new result read_fault }
    {
        ahead.take(files, &self.file.relation, b)
    }
}
