//! The rules that a file may break, by the codes that a report prints.
ghost use Rattle.std.specs.Prelude.{◌≡◌};
ghost use Rattle.page_layout.specs.Rules.{code_of};

/// A rule that the files of a table and its indexes keep, named by the code that a report prints.
/// Each variant says what is wrong where the rule is broken. S: segments; P: any page; H: heap and
/// TOAST pages and their tuples; V: the visibility map; M: an index's metapage; B: one tree page; L:
/// the levels of a tree; X: table against index.
#[derive(Clone, Copy, Debug, PartialEq, Eq)]
pub enum Rule {
    /// A segment of a relation has more blocks than a segment may have.
    S1,
    /// A page that was laid out doesn't carry the size 8192 and layout version 4 (`storage/bufpage.h`).
    P1,
    /// A page has a flag beyond the three that there are.
    P2,
    /// The places in a page's header are out of order, its special space isn't where the kind of page
    /// has it, or, where there are line pointers, their bytes are no multiple of 4.
    P3,
    /// A new page, which should be all zeros, has a byte that isn't 0.
    P4,
    /// A normal line pointer of a heap page points to no place where a tuple can be: not at a multiple
    /// of 8, below the page's upper place, past the page's end, or too short for a tuple's header.
    H1,
    /// A tuple's storage meets that of a normal item of a lower number whose place is right.
    H2,
    /// A redirect leads to no normal heap-only tuple.
    H3,
    /// A tuple has more attributes than the table has columns.
    H4,
    /// A tuple's attributes don't begin where its header's flags say, or begin past its end.
    H5,
    /// A tuple's deleter is a multixact and is hinted committed, which is never said of a multixact.
    H6,
    /// A tuple is hot-updated by no transaction.
    H7,
    /// A tuple is heap-only, and not marked as the new version of an update.
    H8,
    /// A tuple's inserter isn't a transaction that the cluster can still know.
    H9,
    /// A tuple's multixact isn't one that the cluster can still know.
    H10,
    /// A tuple's deleter or updater isn't a transaction that the cluster can still know.
    H11,
    /// The commit log doesn't hold the state of a transaction that a tuple asks for.
    H12,
    /// The multixact files don't hold what a tuple asks for.
    H13,
    /// A tuple's chain goes on to a tuple that isn't heap-only.
    H14,
    /// An item's chain goes on to one that a lower item's chain goes on to as well.
    H15,
    /// A live heap-only tuple is reached from no root of a chain.
    H16,
    /// An attribute of a live tuple passes the tuple's end.
    H17,
    /// An attribute of a live tuple has a length that is too short for its header, or a pointer of a
    /// kind that isn't on disk.
    H18,
    /// A live tuple has an external value, and its header doesn't say so, or the table has no TOAST
    /// table, or the value names another one.
    H19,
    /// The sizes in the pointer of a live tuple's external value can't be, or its compression method
    /// isn't known.
    H20,
    /// The chunks of an external value in the TOAST table aren't those of its size, each once.
    H21,
    /// A block is marked all-frozen in the visibility map, and not all-visible.
    V1,
    /// A block has a bit in the visibility map, and its page isn't marked all-visible.
    V2,
    /// A block is marked all-visible, in the map or on its page, and has a dead item or a tuple that
    /// isn't live.
    V3,
    /// A block is marked all-frozen, and a tuple of it has to be frozen some day.
    V4,
    /// An index has no metapage: its block 0 isn't there, is new, isn't marked as one, or has another
    /// magic number or a version outside 2 to 4.
    M1,
    /// The metapage names a root or a fast root outside the index, or only one of the two.
    M2,
    /// A tree page has a flag beyond the nine that there are.
    B1,
    /// A tree page other than block 0 is marked as the metapage, or is marked a leaf above level 0, or
    /// stands at level 0 and isn't marked a leaf.
    B2,
    /// A half-dead page isn't a leaf, or still has a data item.
    B3,
    /// A page with a right sibling lacks its high key, or an internal page has no data item.
    B4,
    /// A line pointer of a tree page points to no place where an index tuple can be.
    B5,
    /// The size in an index tuple isn't the length of its line pointer.
    B6,
    /// An index tuple isn't of the form of its place, or keeps a number of key values, or a TID, that it
    /// may not keep there.
    B7,
    /// The values of an index tuple begin past its end, can't be read there, or are external.
    B8,
    /// The TIDs of a leaf's index tuple aren't right: a posting list out of its place, without TIDs or
    /// out of order, or an item number 0.
    B9,
    /// An item of a tree page isn't above the item before it.
    B10,
    /// The last entry of a leaf is above the page's high key, or the last separator of an internal
    /// page isn't below it.
    B11,
    /// A sibling of a tree page is outside the index, isn't in use, is of another level, or doesn't link
    /// back.
    B12,
    /// A downlink leads outside the index, to a page that isn't in use, or not one level down.
    B13,
    /// The root or the fast root isn't in use, or isn't of the level that the metapage gives it, or the
    /// fast root is above the root.
    L1,
    /// The pages of a level form a circle.
    L2,
    /// A page of a level is neither linked from the level above, nor the right half of an unfinished
    /// split, nor about to be deleted.
    L3,
    /// The downlinks of the level above aren't the linked pages of a level, in order, or lead to a
    /// half-dead page.
    L4,
    /// The separator beside a page's downlink isn't the page's lower bound.
    L5,
    /// A page's high key, or its first entry, or the first separator after its leftmost one, isn't above
    /// the page's lower bound.
    L6,
    /// The last page of a level is about to be deleted, so nothing takes its keys.
    L7,
    /// The level of the fast root has a page before it, or one after it that isn't the right half of an
    /// unfinished split.
    L8,
    /// A page in use stands in the chain of no level.
    L9,
    /// A live tuple of the table isn't found in the index under its key and the TID of its chain's
    /// root.
    X1,
    /// An entry of the index names no item of the table, an unused one, or a heap-only tuple.
    X2,
    /// The index is unique, and a live tuple with a lower TID has an equal key.
    X3,
}

impl Rule {
    /// The code of the rule, as a report prints it: the variant's name.
    #[tactic(auto, unfolding(crate::specs::Rules::code_of))]
    pub fn code(self) -> &'static str
        ensures { result.now ≡ code_of self }
    {
        match self {
            Rule::S1 => "S1",
            Rule::P1 => "P1",
            Rule::P2 => "P2",
            Rule::P3 => "P3",
            Rule::P4 => "P4",
            Rule::H1 => "H1",
            Rule::H2 => "H2",
            Rule::H3 => "H3",
            Rule::H4 => "H4",
            Rule::H5 => "H5",
            Rule::H6 => "H6",
            Rule::H7 => "H7",
            Rule::H8 => "H8",
            Rule::H9 => "H9",
            Rule::H10 => "H10",
            Rule::H11 => "H11",
            Rule::H12 => "H12",
            Rule::H13 => "H13",
            Rule::H14 => "H14",
            Rule::H15 => "H15",
            Rule::H16 => "H16",
            Rule::H17 => "H17",
            Rule::H18 => "H18",
            Rule::H19 => "H19",
            Rule::H20 => "H20",
            Rule::H21 => "H21",
            Rule::V1 => "V1",
            Rule::V2 => "V2",
            Rule::V3 => "V3",
            Rule::V4 => "V4",
            Rule::M1 => "M1",
            Rule::M2 => "M2",
            Rule::B1 => "B1",
            Rule::B2 => "B2",
            Rule::B3 => "B3",
            Rule::B4 => "B4",
            Rule::B5 => "B5",
            Rule::B6 => "B6",
            Rule::B7 => "B7",
            Rule::B8 => "B8",
            Rule::B9 => "B9",
            Rule::B10 => "B10",
            Rule::B11 => "B11",
            Rule::B12 => "B12",
            Rule::B13 => "B13",
            Rule::L1 => "L1",
            Rule::L2 => "L2",
            Rule::L3 => "L3",
            Rule::L4 => "L4",
            Rule::L5 => "L5",
            Rule::L6 => "L6",
            Rule::L7 => "L7",
            Rule::L8 => "L8",
            Rule::L9 => "L9",
            Rule::X1 => "X1",
            Rule::X2 => "X2",
            Rule::X3 => "X3",
        }
    }
}
