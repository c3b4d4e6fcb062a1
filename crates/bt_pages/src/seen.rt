//! An index whose pages are judged, and what was seen of those that others link to.
ghost use Rattle.std.specs.Prelude.{◌≡◌, ◌<◌, IfOk};
ghost use Rattle.outside.specs.Outside.{AskedAtMost, IfTold, Names, Tells};
ghost use Rattle.page_layout.specs.View.{page_bytes};
ghost use Rattle.rel_files.specs.Faults.{read_fault};
ghost use Rattle.rel_files.specs.Relation.{IsAttached, count_of};
ghost use Rattle.bt_pages.specs.Seen.{HasSeen, StaysSeen};
ghost use Rattle.bt_pages.specs.Trees.{glance_of, tree_seen};

use crate::glance::Glance;
use crate::glances::Glances;
use crate::look::glance_at;
use crate::tree::TreeRules;
use bt_meta::{is_idle, opaque};
use outside::{Files, NoMemory};
use page_layout::PageView;
use rel_files::ReadFault;
use std::alloc::Global;

/// An index whose pages are judged. What was seen of a page is kept, so that each is looked at once,
/// however many pages link to it.
#[derive(Drop)]
pub struct SeenTree<'a> {
    /// What its rules need to know.
    pub rules: TreeRules<'a>,
    glances: Glances,
}

impl<'a> SeenTree<'a> {
    /// An index of which nothing was seen yet.
    pub fn new(alloc: Global, rules: TreeRules<'a>) -> Result<SeenTree<'a>, NoMemory>
        ensures rules { IfOk result (λ tree. tree.rules ≡ rules.entry) }
        ensures seen { (names : Names) → IfOk result (HasSeen names) }
    {
        let glances = Glances::new(alloc)?;
        Ok(SeenTree { rules, glances })
    }

    // Keeps what a page in hand shows.
    pub fn saw(&mut self, page: PageView<'_>, b: u32)
        ensures rules { self.new.rules ≡ self.old.rules }
        ensures seen { (names : Names) → HasSeen names self.old
            → page_bytes page.entry ≡ (tree_seen names self.old.rules).block b → HasSeen names self.new }
    {
        self.glances.keep(
            b,
            Glance {
                idle: is_idle(page),
                special: opaque(page),
            },
        );
    }

    // What a block shows: by two reads of 40 bytes together, unless it was seen before. `ReadFault` comes
    // only where the files couldn't be read.
    pub fn look<F: Files>(&mut self, files: &mut F, b: u32) -> Result<Glance, ReadFault>
        requires attached { IfTold F.seen files.old (λ names. IsAttached names self.old.rules.relation.now) }
        requires seen { IfTold F.seen files.old (λ names. HasSeen names self.old) }
        requires inside { b < count_of self.old.rules.relation.now }
        ensures told { Tells F.seen files.old result (λ glance names.
            glance ≡ glance_of ((tree_seen names self.old.rules).block b)) }
        ensures tree { StaysSeen F.seen files.old self.old self.new }
        ensures asked { AskedAtMost 2 F.seen files.old files.new result read_fault }
    {
        if let Some(glance) = self.glances.find(b) {
            return Ok(glance);
        }
        let glance = glance_at(files, self.rules.relation, b)?;
        self.glances.keep(b, glance);
        Ok(glance)
    }
}
