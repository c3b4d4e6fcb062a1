//! The laws of `laws_search` and `laws_levels`, each called once.
use laws_levels as rules;
use laws_search as search;

#[test]
fn laws_can_be_called() {
    search::search_finds::<u64, u64>();
    search::keys_have_the_laws::<i64, u32>();
    rules::rules_are_exact::<u64, u64>();
    rules::walks_find_the_first::<u64, u64>();
    rules::chains_are_walked::<u64, u64>();
    rules::downlinks_are_met::<u64, u64>();
    rules::downlinks_are_read::<u64, u64>();
    rules::levels_are_judged::<u64, u64>();
    rules::parts_make_the_first::<u64, u64>();
    rules::blocks_are_asked::<u64, u64>();
    rules::keys_fit::<i64, u32>();
    bt_level_step::walks_carry_the_same::<u64, u64>();
    bt_levels::indexes_are_judged();
}
