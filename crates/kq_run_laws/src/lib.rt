//! Laws of definitions that are written near the code: for each a reader's own words, and that the two say the same. It has no work, and no crate
//! uses it.
#![tactic(auto)]

mod laws;

pub use laws::{
    dates_are_counted_by_years_and_months, groups_have_the_keys_of_their_rows,
    objects_keep_their_last_members, same_rows_are_permuted, sorted_arrays_are_in_order,
    sorts_are_in_order_of_their_keys, splits_are_leftmost, summaries_have_a_row_for_each_key,
    summaries_overflow_where_a_part_does,
};
