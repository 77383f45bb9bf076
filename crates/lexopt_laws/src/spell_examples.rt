//! Worked examples of the words that spell items, and of the items that cannot be spelled.
ghost use Rattle.std.specs.Prelude.{◌≡◌, [], ◌∷◌, ◌++◌, true, false, Some, None, codes};
ghost use Rattle.lexopt_line_spec.specs.Table.{long, many, one_value, option, positional, short};
ghost use Rattle.lexopt_line_spec.specs.Speller.{past_separator, dash_without_flag, empty_name};
ghost use Rattle.lexopt_line_spec.specs.Speller.{empty_value, equals_in_name, missing_value};
ghost use Rattle.lexopt_line_spec.specs.Speller.{not_many, option_among_values};
ghost use Rattle.lexopt_line_spec.specs.Speller.{HasFault, SpelledAs, is_positional};
ghost use Rattle.lexopt_line_spec.specs.Speller.{unexpected_value, wants_many};

fn flags_and_options_of_one_value_have_these_words()
    ensures nothing { SpelledAs (one_value (codes "o") (codes "out" ∷ [] ∷ [])) true [] [] }
    ensures in_words { SpelledAs (one_value (codes "o") (codes "out" ∷ [] ∷ [])) true
        (option (short 0x76) None ∷ option (short 0x6F) (Some (codes "x")) ∷ positional (codes "f")
        ∷ [])
        (codes "-v" ∷ codes "-o" ∷ codes "x" ∷ codes "f" ∷ []) }
    ensures in_words_switched_off { SpelledAs (one_value (codes "o") (codes "out" ∷ [] ∷ [])) false
        (option (short 0x76) None ∷ option (short 0x6F) (Some (codes "x")) ∷ positional (codes "f")
        ∷ [])
        (codes "-v" ∷ codes "-o" ∷ codes "x" ∷ codes "f" ∷ []) }
    ensures value_like_an_option { SpelledAs (one_value (codes "o") (codes "out" ∷ [] ∷ [])) true
        (option (short 0x6F) (Some (codes "--")) ∷ [])
        (codes "-o" ∷ codes "--" ∷ []) }
    ensures empty_value_in_a_word { SpelledAs (one_value (codes "o") (codes "out" ∷ [] ∷ [])) true
        (option (short 0x6F) (Some []) ∷ [])
        (codes "-o" ∷ [] ∷ []) }
    ensures joined_to_a_name { SpelledAs (one_value (codes "o") (codes "out" ∷ [] ∷ [])) true
        (option (long (codes "v")) None ∷ option (long (codes "out")) (Some (codes "x")) ∷ option
        (long (codes "out")) (Some []) ∷ option (long []) (Some (codes "x")) ∷ [])
        (codes "--v" ∷ codes "--out=x" ∷ codes "--out=" ∷ codes "--=x" ∷ []) }
    ensures dash_after_a_flag { SpelledAs (one_value (codes "o") (codes "out" ∷ [] ∷ [])) true
        (option (short 0x76) None ∷ option (short 0x2D) None ∷ option (short 0x2D) None ∷ option
        (short 0x76) None ∷ [])
        (codes "-v--" ∷ codes "-v" ∷ []) }
    ensures equals_as_a_flag { SpelledAs (one_value (codes "o") (codes "out" ∷ [] ∷ [])) true
        (option (short 0x3D) None ∷ [])
        (codes "-=" ∷ []) }
{}

fn options_of_optional_values_have_these_words()
    ensures alone { SpelledAs (record (one_value [] []) {
      optional_shorts = codes "i";
      optional_longs = codes "color" ∷ [];
    }) true (option (short 0x69) None ∷ option (long (codes "color")) None ∷
        positional (codes "x") ∷ [])
        (codes "-i" ∷ codes "--color" ∷ codes "x" ∷ []) }
    ensures attached { SpelledAs (record (one_value [] []) {
      optional_shorts = codes "i";
      optional_longs = codes "color" ∷ [];
    }) true (option (short 0x69) (Some (codes "x")) ∷ option
        (long (codes "color")) (Some (codes "x")) ∷ [])
        (codes "-ix" ∷ codes "--color=x" ∷ []) }
    ensures attached_switched_off { SpelledAs (record (one_value [] []) {
      optional_shorts = codes "i";
      optional_longs = codes "color" ∷ [];
    }) false (option (short 0x69) (Some (codes "x")) ∷ option
        (long (codes "color")) (Some []) ∷ [])
        (codes "-ix" ∷ codes "--color=" ∷ []) }
    ensures empty { SpelledAs (record (one_value [] []) {
      optional_shorts = codes "i";
      optional_longs = codes "color" ∷ [];
    }) true (option (short 0x69) (Some []) ∷ [])
        (codes "-i=" ∷ []) }
    ensures after_a_mark { SpelledAs (record (one_value [] []) {
      optional_shorts = codes "i";
      optional_longs = codes "color" ∷ [];
    }) true (option (short 0x69) (Some (codes "=x")) ∷ [])
        (codes "-i==x" ∷ []) }
    ensures equals_switched_off { SpelledAs (record (one_value [] []) {
      optional_shorts = codes "i";
      optional_longs = codes "color" ∷ [];
    }) false (option (short 0x69) (Some (codes "=x")) ∷ [])
        (codes "-i=x" ∷ []) }
{}

fn options_of_several_values_have_these_words()
    ensures words { SpelledAs (record (one_value [] []) {
      several_shorts = codes "d";
      several_longs = codes "cmd" ∷ [];
    }) true (many (short 0x64) (codes "1" ∷ codes "2" ∷ []) ∷ option
        (short 0x76) None ∷ many (long (codes "cmd")) (codes "a" ∷ codes "b" ∷ []) ∷ [])
        (codes "-d" ∷ codes "1" ∷ codes "2" ∷ codes "-v" ∷ codes "--cmd" ∷ codes "a" ∷ codes
        "b" ∷ []) }
    ensures first_like_an_option { SpelledAs (record (one_value [] []) {
      several_shorts = codes "d";
      several_longs = codes "cmd" ∷ [];
    }) true (many (short 0x64) (codes "-1" ∷ codes "2" ∷ []) ∷ [])
        (codes "-d-1" ∷ codes "2" ∷ []) }
    ensures one { SpelledAs (record (one_value [] []) {
      several_shorts = codes "d";
      several_longs = codes "cmd" ∷ [];
    }) true (many (short 0x64) (codes "1" ∷ []) ∷ option (short 0x76) None ∷
        many (long (codes "cmd")) (codes "-a" ∷ []) ∷ [])
        (codes "-d" ∷ codes "1" ∷ codes "-v" ∷ codes "--cmd=-a" ∷ []) }
    ensures one_before_a_positional { SpelledAs (record (one_value [] []) {
      several_shorts = codes "d";
      several_longs = codes "cmd" ∷ [];
    }) true (many (short 0x64) (codes "1" ∷ []) ∷ positional (codes "f") ∷ [])
        (codes "-d" ∷ codes "1" ∷ codes "--" ∷ codes "f" ∷ []) }
    ensures one_before_positionals { SpelledAs (record (one_value [] []) {
      several_shorts = codes "d";
      several_longs = codes "cmd" ∷ [];
    }) true (many (short 0x64) (codes "1" ∷ []) ∷ positional (codes "f") ∷
        positional (codes "g") ∷ [])
        (codes "-d" ∷ codes "1" ∷ codes "--" ∷ codes "f" ∷ codes "g" ∷ []) }
    ensures one_joined { SpelledAs (record (one_value [] []) {
      several_shorts = codes "d";
      several_longs = codes "cmd" ∷ [];
    }) true (many (short 0x64) (codes "1" ∷ []) ∷ positional (codes "f") ∷
        option (short 0x76) None ∷ [])
        (codes "-d=1" ∷ codes "f" ∷ codes "-v" ∷ []) }
    ensures several_before_a_positional { SpelledAs (record (one_value [] []) {
      several_shorts = codes "d";
      several_longs = codes "cmd" ∷ [];
    }) false (many (long (codes "cmd")) (codes "a" ∷ codes "b" ∷ []) ∷
        positional (codes "f") ∷ [])
        (codes "--cmd" ∷ codes "a" ∷ codes "b" ∷ codes "--" ∷ codes "f" ∷ []) }
{}

fn positionals_have_these_words()
    ensures plain { SpelledAs (one_value (codes "o") (codes "out" ∷ [] ∷ [])) true
        (positional (codes "f") ∷ positional [] ∷ positional (codes "-") ∷ option (short 0x76) None
        ∷ [])
        (codes "f" ∷ [] ∷ codes "-" ∷ codes "-v" ∷ []) }
    ensures like_an_option { SpelledAs (one_value (codes "o") (codes "out" ∷ [] ∷ [])) true
        (positional (codes "f") ∷ positional (codes "-x") ∷ positional (codes "--") ∷ positional
        (codes "f") ∷ [])
        (codes "--" ∷ codes "f" ∷ codes "-x" ∷ codes "--" ∷ codes "f" ∷ []) }
    ensures like_an_option_further_on { SpelledAs (one_value (codes "o") (codes "out" ∷ [] ∷ []))
        true
        (positional (codes "f") ∷ option (short 0x76) None ∷ positional (codes "g") ∷ positional
        (codes "-x") ∷ [])
        (codes "f" ∷ codes "-v" ∷ codes "--" ∷ codes "g" ∷ codes "-x" ∷ []) }
{}

fn options_are_no_positionals()
    ensures option { is_positional (option (short 0x76) None) ≡ false }
    ensures several { is_positional (many (short 0x64) (codes "1" ∷ [])) ≡ false }
{}

// The option `-` of each kind after a flag, an empty name, and U+FFFD in a name.
fn odd_names_have_these_words()
    ensures dash_of_one { SpelledAs (one_value (codes "-") []) true
        (option (short 0x76) None ∷ option (short 0x2D) (Some (codes "x")) ∷ [])
        (codes "-v-" ∷ codes "x" ∷ []) }
    ensures dash_optional { SpelledAs (record (one_value [] []) { optional_shorts = codes "-" })
        true
        (option (short 0x76) None ∷ option (short 0x2D) (Some (codes "x")) ∷ [])
        (codes "-v-x" ∷ []) }
    ensures dash_of_several { SpelledAs (record (one_value [] []) { several_shorts = codes "-" })
        true
        (option (short 0x76) None ∷ many (short 0x2D) (codes "-1" ∷ []) ∷ positional (codes "f")
        ∷ [])
        (codes "-v--1" ∷ codes "--" ∷ codes "f" ∷ []) }
    ensures no_name_of_several { SpelledAs (record (one_value [] []) { several_longs = [] ∷ [] })
        true
        (many (long []) (codes "a" ∷ []) ∷ [])
        (codes "--=a" ∷ []) }
    ensures replacement { SpelledAs (one_value [] []) true (option (short 0xFFFD) None ∷ [])
        ((0x2D ∷ 0xEF ∷ 0xBF ∷ 0xBD ∷ []) ∷ []) }
    ensures damage_in_a_value { SpelledAs (one_value [] (codes "out" ∷ [])) true
        (option (long (codes "out")) (Some (0xFF ∷ [])) ∷ [])
        ((codes "--out=" ++ 0xFF ∷ []) ∷ []) }
{}

// If an item has two reasons, the first in this order: the name, the values, the empty name, the
// separator, the dash.
fn first_reasons_are_given()
    ensures name { HasFault (one_value [] []) true
        (option (long (codes "a=")) (Some (codes "x")) ∷ [])
        (record { index = 0; reason = equals_in_name }) }
    ensures values { HasFault (one_value (codes "o") []) true
        (positional (codes "-x") ∷ option (short 0x6F) None ∷ [])
        (record { index = 1; reason = missing_value }) }
    ensures empty { HasFault (one_value [] []) true
        (positional (codes "-x") ∷ option (long []) None ∷ [])
        (record { index = 1; reason = empty_name }) }
    ensures separator { HasFault (one_value [] []) true
        (positional (codes "-x") ∷ option (short 0x2D) None ∷ [])
        (record { index = 1; reason = past_separator }) }
{}

fn items_are_refused()
    ensures flag_with_a_value { HasFault (one_value (codes "o") (codes "out" ∷ [] ∷ [])) true
        (option (short 0x76) (Some (codes "x")) ∷ [])
        (record { index = 0; reason = unexpected_value }) }
    ensures no_value { HasFault (one_value (codes "o") (codes "out" ∷ [] ∷ [])) true
        (option (short 0x76) None ∷ option (short 0x6F) None ∷ [])
        (record { index = 1; reason = missing_value }) }
    ensures no_values { HasFault (record (one_value [] []) {
      several_shorts = codes "d";
      several_longs = codes "cmd" ∷ [];
    }) true (many (short 0x64) [] ∷ [])
        (record { index = 0; reason = missing_value }) }
    ensures values_as_one { HasFault (record (one_value [] []) {
      several_shorts = codes "d";
      several_longs = codes "cmd" ∷ [];
    }) true (option (long (codes "cmd")) (Some (codes "x")) ∷ [])
        (record { index = 0; reason = wants_many }) }
    ensures one_as_values { HasFault (one_value (codes "o") (codes "out" ∷ [] ∷ [])) true
        (many (short 0x6F) (codes "x" ∷ []) ∷ [])
        (record { index = 0; reason = not_many }) }
    ensures empty_attached { HasFault (record (one_value [] []) {
      optional_shorts = codes "i";
      optional_longs = codes "color" ∷ [];
    }) false (option (short 0x69) (Some []) ∷ [])
        (record { index = 0; reason = empty_value }) }
    ensures option_after_values { HasFault (record (one_value [] []) {
      several_shorts = codes "d";
      several_longs = codes "cmd" ∷ [];
    }) true (many (short 0x64) (codes "1" ∷ codes "-x" ∷ []) ∷ [])
        (record { index = 0; reason = option_among_values }) }
    ensures option_before_values { HasFault (record (one_value [] []) {
      several_shorts = codes "d";
      several_longs = codes "cmd" ∷ [];
    }) true (many (long (codes "cmd")) (codes "-x" ∷ codes "1" ∷ []) ∷ [])
        (record { index = 0; reason = option_among_values }) }
    ensures no_name { HasFault (one_value (codes "o") (codes "out" ∷ [])) true
        (option (long []) None ∷ []) (record { index = 0; reason = empty_name }) }
    ensures no_name_and_no_value { HasFault (one_value (codes "o") (codes "out" ∷ [] ∷ [])) true
        (option (long []) None ∷ [])
        (record { index = 0; reason = missing_value }) }
    ensures name_with_a_mark { HasFault (one_value (codes "o") (codes "out" ∷ [] ∷ [])) true
        (option (long (codes "a=b")) None ∷ [])
        (record { index = 0; reason = equals_in_name }) }
    ensures after_the_separator { HasFault (one_value (codes "o") (codes "out" ∷ [] ∷ [])) true
        (positional (codes "-x") ∷ positional (codes "f") ∷ option (short 0x76) None ∷ [])
        (record { index = 2; reason = past_separator }) }
    ensures values_before_a_positional { HasFault (record (one_value [] []) {
      several_shorts = codes "d";
      several_longs = codes "cmd" ∷ [];
    }) false (many (short 0x64) (codes "1" ∷ []) ∷ positional (codes "f") ∷
        option (short 0x76) None ∷ [])
        (record { index = 2; reason = past_separator }) }
    ensures after_a_row { HasFault (one_value (codes "o") (codes "out" ∷ [] ∷ [])) true
        (positional (codes "f") ∷ positional (codes "-x") ∷ option (short 0x76) None ∷ [])
        (record { index = 2; reason = past_separator }) }
    ensures dash_alone { HasFault (one_value (codes "o") (codes "out" ∷ [] ∷ [])) true
        (option (short 0x6F) (Some (codes "x")) ∷ option (short 0x2D) None ∷ [])
        (record { index = 1; reason = dash_without_flag }) }
{}
