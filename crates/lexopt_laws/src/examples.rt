//! Worked examples, which the definitions compute. Each clause is one example.
ghost use Rattle.std.specs.Prelude.{◌≡◌, ◌++◌, [], ◌∷◌, true, false, Some, None, codes};
ghost use Rattle.lexopt_spec.specs.Pieces.{first_piece, lossy, lossy_characters};
ghost use Rattle.lexopt_spec.specs.UnreadLine.{fresh, invoked, joined, long_option, no_option};
ghost use Rattle.lexopt_spec.specs.UnreadLine.{no_tail, pending, pending_in, rest, rest_of};
ghost use Rattle.lexopt_spec.specs.UnreadLine.{short_option, spelling};
ghost use Rattle.lexopt_spec.specs.Runs.{next, optional, set_short_equals, short_equals_after};
ghost use Rattle.lexopt_spec.specs.Text.{escaped, may_act, missing_message, non_unicode_message};
ghost use Rattle.lexopt_spec.specs.Text.{parsing_failed_message, quoted};
ghost use Rattle.lexopt_spec.specs.Text.{unexpected_argument_message, unexpected_option_message};
ghost use Rattle.lexopt_spec.specs.Text.{unexpected_value_message, visible};
ghost use Rattle.lexopt_line_spec.specs.Table as table;
ghost use Rattle.lexopt_line_spec.specs.ItemText.{bracketed, item_text};

#[tactic(auto, unfolding(lexopt_line_spec::proofs::Computing::computing))]
fn lossy_text_of_damaged_bytes()
    ensures between { lossy_characters (0x61 ∷ 0xFF ∷ 0x63 ∷ []) ≡ 0x61 ∷ 0xFFFD ∷ 0x63 ∷ [] }
    ensures cut { lossy_characters (0xC2 ∷ []) ≡ 0xFFFD ∷ [] }
    ensures cut_short { lossy_characters (0xC2 ∷ 0x61 ∷ []) ≡ 0xFFFD ∷ 0x61 ∷ [] }
    ensures two_bytes { lossy_characters (0xC2 ∷ 0xB5 ∷ []) ≡ 0xB5 ∷ [] }
    ensures one_of_four { lossy_characters (0xF0 ∷ []) ≡ 0xFFFD ∷ [] }
    ensures two_of_four { lossy_characters (0xF0 ∷ 0x9D ∷ []) ≡ 0xFFFD ∷ [] }
    ensures three_of_four { lossy_characters (0xF0 ∷ 0x9D ∷ 0x84 ∷ []) ≡ 0xFFFD ∷ [] }
    ensures two_of_four_first { lossy_characters (0xF0 ∷ 0x9D ∷ 0x61 ∷ []) ≡ 0xFFFD ∷ 0x61 ∷ [] }
    ensures three_of_four_first { lossy_characters (0xF0 ∷ 0x9D ∷ 0x84 ∷ 0x61 ∷ [])
        ≡ 0xFFFD ∷ 0x61 ∷ [] }
    ensures four_bytes { lossy_characters (0xF0 ∷ 0x9D ∷ 0x84 ∷ 0x9E ∷ []) ≡ 0x1D11E ∷ [] }
    ensures surrogate { lossy_characters (0xED ∷ 0xA0 ∷ 0x80 ∷ []) ≡ 0xFFFD ∷ 0xFFFD ∷ 0xFFFD ∷ [] }
    ensures replacement_itself { lossy_characters (0xEF ∷ 0xBF ∷ 0xBD ∷ []) ≡ 0xFFFD ∷ [] }
    ensures text { lossy (0x61 ∷ 0xFF ∷ []) ≡ 0x61 ∷ 0xEF ∷ 0xBF ∷ 0xBD ∷ [] }
{}

fn first_pieces_of_damaged_bytes()
    ensures damaged { first_piece (0xF0 ∷ 0x9D ∷ 0x61 ∷ []) ≡ record {
      bytes = 0xF0 ∷ 0x9D ∷ [];
      char = None;
    } }
    ensures surrogate { first_piece (0xED ∷ 0xA0 ∷ 0x80 ∷ []) ≡ record {
      bytes = 0xED ∷ [];
      char = None;
    } }
    ensures not_damaged { first_piece (0xEF ∷ 0xBF ∷ 0xBD ∷ []) ≡ record {
      bytes = 0xEF ∷ 0xBF ∷ 0xBD ∷ [];
      char = Some 0xFFFD;
    } }
{}

#[tactic(auto, unfolding(lexopt_line_spec::proofs::Computing::computing))]
fn options_are_spelled()
    ensures none { spelling no_option ≡ None }
    ensures short { spelling (short_option 0xB5) ≡ Some (0x2D ∷ 0xC2 ∷ 0xB5 ∷ []) }
    ensures long { spelling (long_option (codes "out")) ≡ Some (codes "--out") }
{}

#[tactic(auto, unfolding(lexopt_line_spec::proofs::Computing::computing))]
fn lines_have_binary_names()
    ensures damaged { invoked ((0x61 ∷ 0xFF ∷ []) ∷ codes "-x" ∷ [])
        ≡ record (fresh (codes "-x" ∷ [])) { bin_name = Some (0x61 ∷ 0xEF ∷ 0xBF ∷ 0xBD ∷ []) } }
    ensures empty { invoked ([] ∷ []) ≡ record (fresh []) { bin_name = Some [] } }
    ensures none { invoked [] ≡ fresh [] }
{}

fn values_are_pending()
    ensures nothing { pending (fresh (codes "a" ∷ [])) ≡ None }
    ensures joined { pending_in false (joined (codes "x")) ≡ Some (codes "x", true) }
    ensures after_equals { pending_in true (rest (codes "==b")) ≡ Some (codes "=b", true) }
    ensures switched_off { pending_in false (rest (codes "==b")) ≡ Some (codes "==b", false) }
    ensures attached { pending_in true (rest (codes "value")) ≡ Some (codes "value", false) }
    ensures empty_after_equals { pending_in true (rest (codes "=")) ≡ Some ([], true) }
    ensures rest_of_none { rest_of [] ≡ no_tail }
{}

// What `short_equals` is after a call.
fn one_call_sets_short_equals()
    ensures off { short_equals_after true (set_short_equals false) ≡ false }
    ensures on { short_equals_after false (set_short_equals true) ≡ true }
    ensures stays_off { short_equals_after false next ≡ false }
    ensures stays_on { short_equals_after true optional ≡ true }
{}

#[tactic(auto, unfolding(lexopt_line_spec::proofs::Computing::computing))]
fn quoted_forms()
    ensures empty { quoted [] ≡ codes "\"\"" }
    ensures control { quoted (0x1B ∷ []) ≡ codes "\"\\u{1b}\"" }
    ensures low_control { quoted (0x01 ∷ []) ≡ codes "\"\\u{1}\"" }
    ensures damage { quoted (0xF0 ∷ 0x9D ∷ []) ≡ codes "\"\\xF0\\x9D\"" }
    ensures apostrophe { quoted (0x27 ∷ []) ≡ codes "\"'\"" }
    ensures escapes { quoted (0x00 ∷ 0x0D ∷ 0x1F ∷ 0x0A ∷ 0x09 ∷ 0x7F ∷ 0x5C ∷ 0x22 ∷ [])
        ≡ codes "\"\\0\\r\\u{1f}\\n\\t\\u{7f}\\\\\\\"\"" }
    ensures past_ascii { quoted (0xC2 ∷ 0xB5 ∷ []) ≡ 0x22 ∷ 0xC2 ∷ 0xB5 ∷ 0x22 ∷ [] }
    ensures control_past_ascii { quoted (0xC2 ∷ 0x85 ∷ []) ≡ 0x22 ∷ 0xC2 ∷ 0x85 ∷ 0x22 ∷ [] }
    ensures bidi_control { quoted (0xE2 ∷ 0x80 ∷ 0xAE ∷ [])
        ≡ 0x22 ∷ 0xE2 ∷ 0x80 ∷ 0xAE ∷ 0x22 ∷ [] }
    ensures line_separator { quoted (0xE2 ∷ 0x80 ∷ 0xA8 ∷ [])
        ≡ 0x22 ∷ 0xE2 ∷ 0x80 ∷ 0xA8 ∷ 0x22 ∷ [] }
{}

// The first and the last of each range of characters that a terminal may act on.
fn a_terminal_may_act()
    ensures first_of_c0 { may_act 0x00 ≡ true }
    ensures last_of_c0 { may_act 0x1F ≡ true }
    ensures delete { may_act 0x7F ≡ true }
    ensures first_of_c1 { may_act 0x80 ≡ true }
    ensures last_of_c1 { may_act 0x9F ≡ true }
    ensures arabic_mark { may_act 0x61C ≡ true }
    ensures left_to_right_mark { may_act 0x200E ≡ true }
    ensures right_to_left_mark { may_act 0x200F ≡ true }
    ensures line_separator { may_act 0x2028 ≡ true }
    ensures paragraph_separator { may_act 0x2029 ≡ true }
    ensures first_embedding { may_act 0x202A ≡ true }
    ensures last_override { may_act 0x202E ≡ true }
    ensures first_isolate { may_act 0x2066 ≡ true }
    ensures last_isolate { may_act 0x2069 ≡ true }
{}

// Their neighbours.
fn a_terminal_only_shows()
    ensures blank { may_act 0x20 ≡ false }
    ensures tilde { may_act 0x7E ≡ false }
    ensures no_break_space { may_act 0xA0 ≡ false }
    ensures before_the_arabic_mark { may_act 0x61B ≡ false }
    ensures after_the_arabic_mark { may_act 0x61D ≡ false }
    ensures joiner { may_act 0x200D ≡ false }
    ensures hyphen { may_act 0x2010 ≡ false }
    ensures before_the_separators { may_act 0x2027 ≡ false }
    ensures narrow_space { may_act 0x202F ≡ false }
    ensures before_the_isolates { may_act 0x2065 ≡ false }
    ensures after_the_isolates { may_act 0x206A ≡ false }
    ensures byte_order_mark { may_act 0xFEFF ≡ false }
{}

#[tactic(auto, unfolding(lexopt_line_spec::proofs::Computing::computing))]
fn visible_forms()
    ensures empty { visible [] ≡ codes "\"\"" }
    ensures control { visible (0x1B ∷ []) ≡ codes "\"\\u{1b}\"" }
    ensures c1 { visible (0xC2 ∷ 0x9B ∷ []) ≡ codes "\"\\u{9b}\"" }
    ensures bidi_control { visible (0xE2 ∷ 0x80 ∷ 0xAE ∷ []) ≡ codes "\"\\u{202e}\"" }
    ensures line_separator { visible (0xE2 ∷ 0x80 ∷ 0xA8 ∷ []) ≡ codes "\"\\u{2028}\"" }
    ensures damage { visible (0x9B ∷ 0xF0 ∷ 0x9D ∷ []) ≡ codes "\"\\x9B\\xF0\\x9D\"" }
    ensures accent { visible (0xC3 ∷ 0xA9 ∷ []) ≡ 0x22 ∷ 0xC3 ∷ 0xA9 ∷ 0x22 ∷ [] }
    ensures apostrophe { visible (0x27 ∷ []) ≡ codes "\"'\"" }
    ensures escapes { visible (0x00 ∷ 0x0D ∷ 0x1F ∷ 0x0A ∷ 0x09 ∷ 0x7F ∷ 0x5C ∷ 0x22 ∷ [])
        ≡ codes "\"\\0\\r\\u{1f}\\n\\t\\u{7f}\\\\\\\"\"" }
{}

#[tactic(auto, unfolding(lexopt_line_spec::proofs::Computing::computing))]
fn characters_of_names()
    ensures letter { escaped 0x61 ≡ codes "a" }
    ensures accent { escaped 0xE9 ≡ 0xC3 ∷ 0xA9 ∷ [] }
    ensures quote { escaped 0x22 ≡ codes "\"" }
    ensures backslash { escaped 0x5C ≡ codes "\\" }
    ensures line_feed { escaped 0x0A ≡ codes "\\n" }
    ensures control { escaped 0x1B ≡ codes "\\u{1b}" }
    ensures c1 { escaped 0x9B ≡ codes "\\u{9b}" }
    ensures bidi_control { escaped 0x202E ≡ codes "\\u{202e}" }
    ensures paragraph_separator { escaped 0x2029 ≡ codes "\\u{2029}" }
{}

#[tactic(auto, unfolding(lexopt_line_spec::proofs::Computing::computing))]
fn messages()
    ensures missing { missing_message None ≡ codes "missing argument" }
    ensures missing_of { missing_message (Some (codes "-o"))
        ≡ codes "missing argument for option '-o'" }
    ensures short_option { unexpected_option_message (codes "-o") ≡ codes "invalid option '-o'" }
    ensures long_option { unexpected_option_message (codes "--opt")
        ≡ codes "invalid option '--opt'" }
    ensures argument { unexpected_argument_message (codes "foo")
        ≡ codes "unexpected argument \"foo\"" }
    ensures value { unexpected_value_message (codes "--foobar") (codes "qux=baz")
        ≡ codes "unexpected argument for option '--foobar': \"qux=baz\"" }
    ensures parse { parsing_failed_message (codes "foo") (codes "no number")
        ≡ codes "cannot parse argument \"foo\": no number" }
    ensures no_text { non_unicode_message (codes "foo" ++ 0xFF ∷ [])
        ≡ codes "argument is invalid unicode: \"foo\\xFF\"" }
{}

#[tactic(auto, unfolding(lexopt_line_spec::proofs::Computing::computing))]
fn items_are_written()
    ensures none { bracketed item_text [] ≡ codes "[]" }
    ensures values { bracketed item_text
        (table.option (table.short 0x76) None ∷ table.option (table.short 0x6F) (Some (codes "x"))
        ∷ table.option (table.long (codes "out")) (Some (codes "y"))
        ∷ table.positional (codes "-z") ∷ [])
        ≡ codes "[Short \"v\", Short \"o\" = \"x\", Long \"out\" = \"y\", Value \"-z\"]" }
    ensures several { bracketed item_text
        (table.many (table.short 0x64) (codes "1" ∷ codes "2" ∷ []) ∷ table.many
        (table.long (codes "cmd")) (codes "a" ∷ []) ∷ [])
        ≡ codes "[Short \"d\" = [\"1\", \"2\"], Long \"cmd\" = [\"a\"]]" }
{}
