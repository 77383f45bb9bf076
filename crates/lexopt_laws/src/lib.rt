//! Laws of the definitions that the contracts of lexopt cite, and worked examples, which the
//! definitions compute.
//!
//! Some definitions compute what a rule only describes. A law here states that both agree: its
//! contract is the law, and its function has no body.
#![tactic(auto)]

mod call_examples;
mod examples;
mod laws;
mod line_examples;
mod option_examples;
mod option_laws;
mod rest_examples;
mod spell_examples;

pub use laws::{
    both_settings_have_one_form, calls_cut_short_are_a_part, clusters_are_read_by_pieces,
    each_call_has_one_answer, each_line_has_one_reading, first_piece_is_by_the_table,
    items_are_spelled_or_one_is_at_fault, items_make_the_call, lines_stay_lines, no_byte_is_lost,
    one_value_tables_agree, other_parts_stay, pieces_are_in_a_row,
    plain_words_are_the_longest_front, readings_mean_what_words_show,
    reasons_are_of_the_item_or_of_its_place, replies_are_bounded, some_calls_are_never_refused,
    views_agree, whole_names_are_spelled, words_show_one_list,
};
pub use option_laws::{
    each_line_asks_for_one_thing, each_line_means_something_or_stops,
    words_belong_to_one_positional, words_can_belong_to_one_list_of_positionals,
};
