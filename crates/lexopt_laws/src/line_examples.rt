//! Worked examples of whole lines: what words spell under a table, what they show, and words that
//! show nothing.
ghost use Rattle.std.specs.Prelude.{◌≡◌, ◌++◌, [], ◌∷◌, ℕ, List, true, false, Some, None};
ghost use Rattle.std.specs.Prelude.{codes};
ghost use Rattle.lexopt_line_spec.specs.Table.{Item, Table, long, many, one_value, option};
ghost use Rattle.lexopt_line_spec.specs.Table.{positional, short};
ghost use Rattle.lexopt_line_spec.specs.Spelling.{HaveWholeNames, Shows, Spells};
ghost use Rattle.lexopt_line_spec.specs.Readings.{IsReading, start};
ghost use Rattle.lexopt_spec.specs.Steps.{end, missing, unexpected};
ghost use Rattle.lexopt_laws.specs.OneValueSpelling.{OneValueShows, OneValueSpells, OneValueTable};

fn options_of_one_value_are_spelled()
    ensures no_words { Spells (one_value [] []) true [] [] }
    ensures every_form { Spells (one_value (codes "o") (codes "out" ∷ [])) true
        (codes "-vo=x" ∷ codes "--out" ∷ codes "y" ∷ codes "--" ∷ codes "-z" ∷ codes "--" ∷ [])
        (option (short 0x76) None ∷ option (short 0x6F) (Some (codes "x")) ∷ option
        (long (codes "out")) (Some (codes "y"))
        ∷ positional (codes "-z") ∷ positional (codes "--") ∷ []) }
    ensures plain_words { Spells (one_value (codes "n") []) true
        (codes "-n" ∷ codes "10" ∷ codes "foo" ∷ codes "-" ∷ codes "--" ∷ codes "baz" ∷ codes "-qux"
        ∷ [])
        (option (short 0x6E) (Some (codes "10")) ∷ positional (codes "foo") ∷ positional (codes "-")
        ∷ positional (codes "baz") ∷ positional (codes "-qux") ∷ []) }
    ensures empty_name { Spells (one_value [] ([] ∷ [])) true (codes "--=" ∷ [])
        (option (long []) (Some []) ∷ []) }
    ensures separator_as_value { Spells (one_value (codes "o") []) true
        (codes "-o" ∷ codes "--" ∷ []) (option (short 0x6F) (Some (codes "--")) ∷ []) }
    ensures separator_after_flag { Spells (one_value [] []) true (codes "-o" ∷ codes "--" ∷ [])
        (option (short 0x6F) None ∷ []) }
    ensures separator_as_positional { Spells (one_value [] []) true (codes "--" ∷ codes "--" ∷ [])
        (positional (codes "--") ∷ []) }
    ensures equals_as_option { Spells (one_value (codes "=") []) true (codes "-==v" ∷ [])
        (option (short 0x3D) (Some (codes "v")) ∷ []) }
    ensures equals_as_option_switched_off { Spells (one_value (codes "=") []) false
        (codes "-==v" ∷ []) (option (short 0x3D) (Some (codes "=v")) ∷ []) }
    ensures empty_value { Spells (one_value (codes "o") []) true (codes "-o=" ∷ [])
        (option (short 0x6F) (Some []) ∷ []) }
    ensures empty_value_switched_off { Spells (one_value (codes "o") []) false (codes "-o=" ∷ [])
        (option (short 0x6F) (Some (codes "=")) ∷ []) }
    ensures flags_switched_off { Spells (one_value [] []) false (codes "-a=b" ∷ [])
        (option (short 0x61) None ∷ option (short 0x3D) None ∷ option (short 0x62) None ∷ []) }
    ensures three_dashes { Spells (one_value [] []) true (codes "---" ∷ [])
        (option (long (codes "-")) None ∷ []) }
    ensures three_dashes_and_value { Spells (one_value [] (codes "-" ∷ [])) true
        (codes "---=x" ∷ []) (option (long (codes "-")) (Some (codes "x")) ∷ []) }
    ensures dash_in_cluster { Spells (one_value (codes "-") []) true (codes "-a-" ∷ codes "v" ∷ [])
        (option (short 0x61) None ∷ option (short 0x2D) (Some (codes "v")) ∷ []) }
    ensures attached_value { Spells (one_value (codes "xo") []) true (codes "-xo" ∷ [])
        (option (short 0x78) (Some (codes "o")) ∷ []) }
{}

// The options i and color may have a value, and o has one.
fn options_of_optional_values_are_spelled()
    ensures attached { Spells (record (one_value (codes "o") []) {
      optional_shorts = codes "i";
    }) true (codes "-vi.bak" ∷ codes "f" ∷ [])
        (option (short 0x76) None ∷ option (short 0x69) (Some (codes ".bak")) ∷ positional
        (codes "f") ∷ []) }
    ensures never_the_next_word { Spells (record (one_value (codes "o") []) {
      optional_shorts = codes "i";
    }) true (codes "-i" ∷ codes ".bak" ∷ [])
        (option (short 0x69) None ∷ positional (codes ".bak") ∷ []) }
    ensures joined { Spells (record (one_value (codes "o") []) {
      optional_shorts = codes "i";
    }) true (codes "-i=x" ∷ [])
        (option (short 0x69) (Some (codes "x")) ∷ []) }
    ensures joined_empty { Spells (record (one_value (codes "o") []) {
      optional_shorts = codes "i";
    }) true (codes "-i=" ∷ [])
        (option (short 0x69) (Some []) ∷ []) }
    ensures switched_off { Spells (record (one_value (codes "o") []) {
      optional_shorts = codes "i";
    }) false (codes "-i=x" ∷ [])
        (option (short 0x69) (Some (codes "=x")) ∷ []) }
    ensures before_an_option { Spells (record (one_value (codes "o") []) {
      optional_shorts = codes "i";
    }) true (codes "-io" ∷ codes "x" ∷ [])
        (option (short 0x69) (Some (codes "o")) ∷ positional (codes "x") ∷ []) }
    ensures after_an_option { Spells (record (one_value (codes "o") []) {
      optional_shorts = codes "i";
    }) true (codes "-oi" ∷ codes "x" ∷ [])
        (option (short 0x6F) (Some (codes "i")) ∷ positional (codes "x") ∷ []) }
    ensures long { Spells (record (one_value (codes "o") []) {
      optional_longs = codes "color" ∷ [];
    }) true
        (codes "--color" ∷ codes "--color=auto" ∷ codes "--color" ∷ codes "auto" ∷ [])
        (option (long (codes "color")) None ∷ option (long (codes "color")) (Some (codes "auto")) ∷
        option (long (codes "color")) None ∷ positional (codes "auto") ∷ []) }
    ensures empty_name { Spells (record (one_value [] []) {
      optional_longs = [] ∷ [];
    }) true (codes "--=" ∷ []) (option (long []) (Some []) ∷ []) }
    ensures separator_is_no_name { Spells (record (one_value [] []) {
      optional_longs = [] ∷ [];
    }) true (codes "--" ∷ []) [] }
{}

// The options d and cmd have several values.
fn options_of_several_values_are_spelled()
    ensures every_form { Spells (record (one_value [] []) { several_shorts = codes "d" }) true
        (codes "-d" ∷ codes "1" ∷ codes "2" ∷ codes "-d1" ∷ codes "2" ∷ codes "-d=1" ∷ codes "2" ∷
        codes "-d=" ∷ [])
        (many (short 0x64) (codes "1" ∷ codes "2" ∷ []) ∷ many (short 0x64)
        (codes "1" ∷ codes "2" ∷ []) ∷ many (short 0x64) (codes "1" ∷ [])
        ∷ positional (codes "2") ∷ many (short 0x64) ([] ∷ []) ∷ []) }
    ensures switched_off { Spells (record (one_value [] []) { several_shorts = codes "d" }) false
        (codes "-d" ∷ codes "1" ∷ codes "2" ∷ codes "-d1" ∷ codes "2" ∷ codes "-d=1" ∷ codes "2" ∷
        codes "-d=" ∷ [])
        (many (short 0x64) (codes "1" ∷ codes "2" ∷ []) ∷ many (short 0x64)
        (codes "1" ∷ codes "2" ∷ []) ∷ many (short 0x64) (codes "=1" ∷ codes "2" ∷ [])
        ∷ many (short 0x64) (codes "=" ∷ []) ∷ []) }
    ensures up_to_an_option { Spells (record (one_value [] []) {
      several_longs = codes "cmd" ∷ [];
    }) true
        (codes "--cmd" ∷ codes "a" ∷ codes "-" ∷ codes "-x" ∷ [])
        (many (long (codes "cmd")) (codes "a" ∷ codes "-" ∷ []) ∷ option (short 0x78) None ∷ []) }
    ensures up_to_the_separator { Spells (record (one_value [] []) {
      several_shorts = codes "d";
    }) true
        (codes "-d" ∷ codes "a" ∷ codes "--" ∷ codes "b" ∷ [])
        (many (short 0x64) (codes "a" ∷ []) ∷ positional (codes "b") ∷ []) }
    ensures joined_stands_alone { Spells (record (one_value [] []) {
      several_longs = codes "cmd" ∷ [];
    }) true
        (codes "--cmd=a" ∷ codes "b" ∷ [])
        (many (long (codes "cmd")) (codes "a" ∷ []) ∷ positional (codes "b") ∷ []) }
    ensures empty_word { Spells (record (one_value [] []) {
      several_shorts = codes "d";
    }) true (codes "-d" ∷ [] ∷ []) (many (short 0x64) ([] ∷ []) ∷ []) }
{}

// An option that is in the lists of two kinds.
fn the_first_kind_holds()
    ensures one_before_optional { Spells (record (one_value (codes "i") []) {
      optional_shorts = codes "i";
    }) true (codes "-i" ∷ codes "v" ∷ [])
        (option (short 0x69) (Some (codes "v")) ∷ []) }
    ensures one_before_several { Spells (record (one_value [] (codes "cmd" ∷ [])) {
      several_longs = codes "cmd" ∷ [];
    }) true (codes "--cmd" ∷ codes "a" ∷ codes "b" ∷ [])
        (option (long (codes "cmd")) (Some (codes "a")) ∷ positional (codes "b") ∷ []) }
    ensures optional_before_several { Spells (record (one_value [] []) {
      optional_shorts = codes "d";
      several_shorts = codes "d";
    }) true (codes "-d" ∷ codes "v" ∷ [])
        (option (short 0x64) None ∷ positional (codes "v") ∷ []) }
{}

fn some_words_show_no_list()
    ensures value_after_a_flag { (l : List Item)
        → Shows (one_value (codes "o") (codes "out" ∷ [])) true (codes "-v=1" ∷ []) l → ⊥ }
    ensures value_after_a_first_flag { (l : List Item)
        → Shows (one_value [] []) true (codes "-a=b" ∷ []) l → ⊥ }
    ensures value_after_a_long_flag { (l : List Item)
        → Shows (one_value [] []) true (codes "--=" ∷ []) l → ⊥ }
    ensures name_with_equals { (l : List Item)
        → Shows (one_value [] (codes "a=b" ∷ [])) true (codes "--a=b" ∷ []) l → ⊥ }
    ensures no_value { (l : List Item)
        → Shows (one_value (codes "o") (codes "out" ∷ [])) true (codes "-o" ∷ []) l → ⊥ }
    ensures no_value_of_dash { (l : List Item)
        → Shows (one_value (codes "-") []) true (codes "-a-" ∷ []) l → ⊥ }
    ensures no_plain_word { (l : List Item)
        → Shows (record (one_value [] []) {
          several_longs = codes "cmd" ∷ [];
        }) true (codes "--cmd" ∷ codes "--" ∷ codes "a" ∷ []) l → ⊥ }
    ensures no_word { (l : List Item)
        → Shows (record (one_value [] []) { several_shorts = codes "d" }) true (codes "-vd" ∷ []) l
        → ⊥ }
{}

fn damage_is_shown_and_not_spelled()
    ensures damaged_character { Shows (one_value [] []) true ((0x2D ∷ 0xFF ∷ []) ∷ [])
        (option (short 0xFFFD) None ∷ []) }
    ensures damaged_character_is_not_spelled { (l : List Item)
        → Spells (one_value [] []) true ((0x2D ∷ 0xFF ∷ []) ∷ []) l → ⊥ }
    ensures whole_character { Spells (one_value [] []) true ((0x2D ∷ 0xEF ∷ 0xBF ∷ 0xBD ∷ []) ∷ [])
        (option (short 0xFFFD) None ∷ []) }
    ensures surrogate { Shows (one_value [] []) true ((0x2D ∷ 0xED ∷ 0xA0 ∷ 0x80 ∷ []) ∷ [])
        (option (short 0xFFFD) None ∷ option (short 0xFFFD) None
        ∷ option (short 0xFFFD) None ∷ []) }
    ensures surrogate_is_no_character { Shows (one_value [] []) true
        ((0x2D ∷ 0xED ∷ 0xA0 ∷ 0x80 ∷ []) ∷ []) (option (short 0xD800) None ∷ []) → ⊥ }
    ensures damaged_name { Shows (one_value [] ((0xEF ∷ 0xBF ∷ 0xBD ∷ []) ∷ [])) true
        ((0x2D ∷ 0x2D ∷ 0xFF ∷ codes "=v") ∷ [])
        (option (long (0xEF ∷ 0xBF ∷ 0xBD ∷ [])) (Some (codes "v")) ∷ []) }
    ensures damaged_name_is_not_spelled { (l : List Item)
        → Spells (one_value [] ((0xEF ∷ 0xBF ∷ 0xBD ∷ []) ∷ [])) true
        ((0x2D ∷ 0x2D ∷ 0xFF ∷ codes "=v") ∷ []) l → ⊥ }
    ensures whole_name { Spells (one_value [] ((0xEF ∷ 0xBF ∷ 0xBD ∷ []) ∷ [])) true
        ((0x2D ∷ 0x2D ∷ 0xEF ∷ 0xBF ∷ 0xBD ∷ codes "=v") ∷ [])
        (option (long (0xEF ∷ 0xBF ∷ 0xBD ∷ [])) (Some (codes "v")) ∷ []) }
{}

// Some of these lines, by the rules for tables with options of one value only.
fn one_value_rules_spell_the_same()
    ensures every_form { let t : OneValueTable =
        record { shorts = codes "o"; longs = codes "out" ∷ [] } in
        OneValueSpells t true (codes "-vo=x" ∷ codes "--out" ∷ codes "y" ∷ codes "--"
        ∷ codes "-z" ∷ codes "--" ∷ [])
        (option (short 0x76) None ∷ option (short 0x6F) (Some (codes "x")) ∷ option
        (long (codes "out")) (Some (codes "y"))
        ∷ positional (codes "-z") ∷ positional (codes "--") ∷ []) }
    ensures plain_word { let t : OneValueTable = record { shorts = []; longs = [] } in
        OneValueSpells t true (codes "-" ∷ []) (positional (codes "-") ∷ []) }
    ensures damaged_character { let t : OneValueTable = record { shorts = []; longs = [] } in
        OneValueShows t true ((0x2D ∷ 0xFF ∷ []) ∷ []) (option (short 0xFFFD) None ∷ []) }
{}

// Readings, by their last reply and the items that were read before it.
fn lines_are_read()
    ensures to_the_end { IsReading (one_value (codes "o") [])
        (start false (codes "-o=" ∷ codes "f" ∷ [])) end
        (option (short 0x6F) (Some (codes "=")) ∷ positional (codes "f") ∷ []) }
    ensures to_a_refused_value { IsReading (one_value (codes "o") (codes "out" ∷ []))
        (start true (codes "-v=1" ∷ [])) (unexpected (codes "-v") (codes "1"))
        (option (short 0x76) None ∷ []) }
    ensures to_a_missing_value { IsReading (one_value (codes "o") (codes "out" ∷ []))
        (start true (codes "-o" ∷ [])) (missing (Some (codes "-o")))
        (option (short 0x6F) None ∷ []) }
    ensures optional_value { IsReading (record (one_value [] []) {
      optional_shorts = codes "i";
    }) (start true (codes "-i" ∷ codes "v" ∷ [])) end
        (option (short 0x69) None ∷ positional (codes "v") ∷ []) }
    ensures several_values { IsReading (record (one_value [] []) {
      several_shorts = codes "d";
    }) (start true (codes "-d1" ∷ codes "2" ∷ [])) end
        (many (short 0x64) (codes "1" ∷ codes "2" ∷ []) ∷ []) }
{}
