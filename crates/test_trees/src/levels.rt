//! Levels of a few pages, by what a caller has seen of each.
use bt_level_step::{LevelWalk, PageMarks, PageRole, PageSeen};
use page_layout::Rule;

// What is seen of a leaf of a level, by a letter: `l` linked, `u` not linked, `s` linked with an incomplete split, `w`
// linked by a wrong separator, `k` linked with a low key, `d` half-dead, and `b` half-dead and linked.
fn leaf(block: u32, look: u8) -> PageSeen {
    PageSeen {
        block,
        marks: PageMarks {
            leaf: true,
            half_dead: look == b'd' || look == b'b',
            incomplete_split: look == b's',
            has_next: true,
            one_child: false,
        },
        linked: look != b'u' && look != b'd',
        wrong_separator: look == b'w',
        low_key: look == b'k',
    }
}

// What is found on a level of these three pages, whose entry page is block 2 and whose fast root is 9.
fn found(blocks: [u32; 3], looks: &[u8; 3]) -> Option<(Rule, u32)> {
    let mut walk = LevelWalk::new();
    for k in 0..3usize {
        walk = walk.pass(&leaf(blocks[k], looks[k]), 9);
    }
    walk.verdict(true, 2, false, 9)
}

// Levels on which no rule is broken.
const WHOLE: [&[u8; 3]; 2] = [b"sul", b"ldl"];

// The blocks of a level, what is seen of them, and the rule that is broken at a block.
const BROKEN: [([u32; 3], &[u8; 3], Rule, u32); 5] = [
    ([2, 3, 4], b"lul", Rule::L3, 3),
    ([2, 3, 4], b"lbl", Rule::L4, 2),
    ([2, 3, 4], b"lwl", Rule::L5, 3),
    ([2, 3, 4], b"lkl", Rule::L6, 3),
    ([2, 4, 3], b"lld", Rule::L7, 3),
];

#[test]
fn first_broken_rule_is_found(rt: HostRuntime) {
    for looks in WHOLE {
        assert!(rt; found([2, 3, 4], looks).is_none());
    }
    for (blocks, looks, rule, block) in BROKEN {
        assert_eq!(rt; found(blocks, looks), Some((rule, block)));
    }
}

// What is found on the level of the fast root, block 2, which has an incomplete split, if block 3 is behind it.
fn beside_fast_root(look: u8) -> Option<(Rule, u32)> {
    let begun = LevelWalk::new().pass(&leaf(2, b's'), 2);
    begun.pass(&leaf(3, look), 2).verdict(true, 2, true, 2)
}

#[test]
fn level_of_the_fast_root(rt: HostRuntime) {
    let walk = LevelWalk::new();
    let split = leaf(2, b's');
    assert!(rt; walk.role(&split.marks, true) == PageRole::Linked && PageRole::Linked.is_live());
    assert!(rt; beside_fast_root(b'u').is_none());
    assert_eq!(rt; beside_fast_root(b'l'), Some((Rule::L8, 2)));
    let begun = walk.pass(&split, 2);
    assert_eq!(rt; begun.verdict(false, 2, true, 2), Some((Rule::L4, 2)));
}
