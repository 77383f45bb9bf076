//! Worked examples of the help, which the definitions compute.
ghost use Rattle.std.specs.Prelude.{◌≡◌, ◌∷◌, ◌++◌, [], None, Some, codes, false, true};
ghost use Rattle.lexopt_line_spec.specs.Table.{flag, one, optional, several};
ghost use Rattle.lexopt_options_spec.specs.Declaration.{any_number, at_least_once, at_most_once};
ghost use Rattle.lexopt_options_spec.specs.Declaration.{a_flag, brief, directories, files, full};
ghost use Rattle.lexopt_options_spec.specs.Declaration.{listed, negation, nothing, once};
ghost use Rattle.lexopt_options_spec.specs.Help.{below, chosen, columns, described, entered};
ghost use Rattle.lexopt_options_spec.specs.Help.{first_usage, heading_lines, help_column};
ghost use Rattle.lexopt_options_spec.specs.Help.{option_text, options_part, label_of, line_feed};
ghost use Rattle.lexopt_options_spec.specs.Help.{mark_of, option_mark, paragraph, set_apart};
ghost use Rattle.lexopt_options_spec.specs.Help.{shown_epilogue, with_default, with_list};
ghost use Rattle.lexopt_options_spec.specs.Help.{usage_words, words_of};
ghost use Rattle.lexopt_options_spec.specs.Examples.{declaration_of, demanded_option};
ghost use Rattle.lexopt_options_spec.specs.Examples.{exclusive_option, long_options};
ghost use Rattle.lexopt_options_spec.specs.Examples.{positional_of, option_of, other_form};
ghost use Rattle.lexopt_options_spec.specs.Examples.{voluntary_option};

/// The labels of options with one name and with both.
pub fn labels_look_so()
    ensures both { label_of nothing (Some 0x76) (Some (codes "verbose")) flag [] ≡ codes "-v, --verbose" }
    ensures both_one { label_of nothing (Some 0x6F) (Some (codes "output")) one (codes "FILE")
        ≡ codes "-o, --output=FILE" }
    ensures both_optional { label_of nothing (Some 0x62) (Some (codes "backup")) optional (codes "SUFFIX")
        ≡ codes "-b[SUFFIX], --backup[=SUFFIX]" }
    ensures both_several { label_of nothing (Some 0x78) (Some (codes "exclude")) several (codes "PATTERN")
        ≡ codes "-x, --exclude PATTERN..." }
    ensures long { label_of nothing None (Some (codes "quiet")) flag [] ≡ codes "    --quiet" }
    ensures long_one { label_of nothing None (Some (codes "tone")) one (codes "NAME")
        ≡ codes "    --tone=NAME" }
    ensures long_optional { label_of nothing None (Some (codes "color")) optional (codes "WHEN")
        ≡ codes "    --color[=WHEN]" }
    ensures long_several { label_of nothing None (Some (codes "with")) several (codes "PART")
        ≡ codes "    --with PART..." }
    ensures short { label_of nothing (Some 0x71) None flag [] ≡ codes "-q" }
    ensures short_one { label_of nothing (Some 0x6E) None one (codes "NUMBER") ≡ codes "-n NUMBER" }
    ensures short_optional { label_of nothing (Some 0x63) None optional (codes "WHEN") ≡ codes "-c[WHEN]" }
    ensures flag_beside { label_of (a_flag 0x46) None (Some (codes "classify")) optional
        (codes "WHEN") ≡ codes "-F, --classify[=WHEN]" }
    ensures negation { label_of negation None (Some (codes "color")) flag []
        ≡ codes "    --[no-]color" }
    ensures both_negated { label_of negation (Some 0x63) (Some (codes "color")) one (codes "WHEN")
        ≡ codes "-c, --[no-]color=WHEN" }
    ensures short_several { label_of nothing (Some 0x77) None several (codes "PART") ≡ codes "-w PART..." }
{}

/// Words are what is between blanks. The help text of an entry begins at column 24 at most.
pub fn words_are_in_columns()
    ensures words { words_of (codes " tell  more ") ≡ codes "tell" ∷ codes "more" ∷ [] }
    ensures none { words_of (codes "  ") ≡ [] }
    ensures lines { below 2 ((codes "tell" ∷ codes "me" ∷ []) ∷ (codes "more" ∷ []) ∷ [])
        ≡ codes "tell me" ++ line_feed ∷ codes "  more" }
    ensures wide { help_column 80 ≡ 24 }
    ensures narrow { help_column 40 ≡ 13 }
{}

/// The words of the usage line of a program without options, of one with an option, and of one
/// whose only option is hidden.
pub fn usage_lines_have_these_words()
    ensures positionals { usage_words (declaration_of [] (positional_of (codes "MODE") [] files
        ∷ record (positional_of (codes "TARGET") [] files) { count = at_most_once }
        ∷ record (positional_of (codes "FILE") [] files) { count = any_number } ∷ []))
        ≡ codes "pack" ∷ codes "MODE" ∷ codes "[TARGET]" ∷ codes "[FILE]..." ∷ [] }
    ensures options { usage_words (declaration_of (voluntary_option ∷ []) [])
        ≡ codes "pack" ∷ codes "[OPTION]..." ∷ [] }
    ensures hidden_option { usage_words (declaration_of
        (record voluntary_option { hidden = true } ∷ []) []) ≡ codes "pack" ∷ [] }
{}

/// The usage line shows options that exclude each other where the first of them is declared, without
/// those that are hidden.
pub fn usage_lines_show_what_is_exclusive()
    ensures words { usage_words (declaration_of (long_options (codes "format") (codes "order")) [])
        ≡ codes "pack" ∷ codes "[--json | --xml]" ∷ codes "[-v]" ∷ [] }
    ensures hidden { usage_words (declaration_of
        (record (exclusive_option (codes "format")) { hidden = true }
        ∷ long_options (codes "format") (codes "format")) [])
        ≡ codes "pack" ∷ codes "[--json | -v | --xml]" ∷ [] }
    ensures others { usage_words (declaration_of (exclusive_option (codes "format") ∷ voluntary_option
        ∷ demanded_option None (Some (codes "yes")) flag [] ∷ []) [])
        ≡ codes "pack" ∷ codes "[OPTION]..." ∷ codes "[-v]" ∷ codes "--yes" ∷ [] }
{}

/// The first text that a program gives for its usage replaces the words that are generated, even if
/// it is empty.
pub fn usage_lines_are_given()
    ensures none { first_usage (declaration_of (voluntary_option ∷ []) []) []
        ≡ codes "pack" ∷ codes "[OPTION]..." ∷ [] }
    ensures two { first_usage (declaration_of (voluntary_option ∷ []) [])
        (codes "SOURCE  DEST" ∷ codes "DEST" ∷ [])
        ≡ codes "pack" ∷ codes "SOURCE" ∷ codes "DEST" ∷ [] }
    ensures empty { first_usage (declaration_of (voluntary_option ∷ []) []) ([] ∷ [])
        ≡ codes "pack" ∷ [] }
{}

/// The usage line shows a required option by its long name or by its character; `[OPTION]...` is
/// for the other options. It does not show hidden options. A positional that occurs at least once
/// has dots after it.
pub fn usage_lines_show_what_is_required()
    ensures long { option_mark (demanded_option (Some 0x75) (Some (codes "user")) one (codes "NAME"))
        ≡ codes "--user=NAME" }
    ensures short { option_mark (demanded_option (Some 0x75) None one (codes "NAME"))
        ≡ codes "-u NAME" }
    ensures flag { option_mark (demanded_option None (Some (codes "yes")) flag [])
        ≡ codes "--yes" }
    ensures several { option_mark (demanded_option (Some 0x78) (Some (codes "exclude")) several
        (codes "GLOB")) ≡ codes "--exclude GLOB..." }
    ensures no_name { mark_of None None flag [] ≡ [] }
    ensures words { usage_words (declaration_of
        (demanded_option (Some 0x75) (Some (codes "user")) one (codes "NAME") ∷ [])
        (record (positional_of (codes "SOURCE") [] files) { count = at_least_once }
        ∷ positional_of (codes "DEST") [] files ∷ []))
        ≡ codes "pack" ∷ codes "--user=NAME" ∷ codes "SOURCE..." ∷ codes "DEST" ∷ [] }
    ensures every_one { usage_words (declaration_of
        (demanded_option (Some 0x75) (Some (codes "user")) one (codes "NAME")
        ∷ voluntary_option ∷ demanded_option (Some 0x78) None several (codes "GLOB") ∷ []) [])
        ≡ codes "pack" ∷ codes "[OPTION]..." ∷ codes "--user=NAME" ∷ codes "-x GLOB..." ∷ [] }
    ensures hidden { usage_words (declaration_of
        (record (demanded_option None (Some (codes "yes")) flag []) { hidden = true } ∷ []) [])
        ≡ codes "pack" ∷ [] }
{}

/// A positional has an entry if its help text has a word, or if the help shows its list.
pub fn positionals_are_described()
    ensures one_of_two { described (positional_of (codes "MODE") (codes " ") files
        ∷ positional_of (codes "FILE") (codes "to pack") files ∷ [])
        ≡ positional_of (codes "FILE") (codes "to pack") files ∷ [] }
    ensures list { described (positional_of (codes "MODE") [] (listed (codes "fast" ∷ [])) ∷ [])
        ≡ positional_of (codes "MODE") [] (listed (codes "fast" ∷ [])) ∷ [] }
    ensures hidden_list { described (record (positional_of (codes "MODE") []
        (listed (codes "fast" ∷ []))) { hides_list = true } ∷ []) ≡ [] }
{}

/// The list of an option comes after its help text, as a sentence of its own if the text ends with a
/// full stop, or alone if the text is empty. A character that a terminal may act on is escaped.
#[tactic(auto, unfolding(lexopt_line_spec::proofs::Computing::computing))]
pub fn lists_are_shown()
    ensures list { with_list (codes "how to pack") (listed (codes "fast" ∷ codes "slow" ∷ []))
        ≡ codes "how to pack: one of fast, slow" }
    ensures sentence { with_list (codes "How to pack.")
        (listed (codes "fast" ∷ codes "slow" ∷ []))
        ≡ codes "How to pack. One of fast, slow." }
    ensures full_stop_within { with_list (codes "pack .zip files")
        (listed (codes "fast" ∷ [])) ≡ codes "pack .zip files: one of fast" }
    ensures no_help { with_list [] (listed (codes "fast" ∷ codes "slow" ∷ []))
        ≡ codes "one of fast, slow" }
    ensures one_value { with_list [] (listed (codes "fast" ∷ [])) ≡ codes "one of fast" }
    ensures escaped { with_list [] (listed (codes "fast" ∷ (0xC2 ∷ 0x9B ∷ []) ∷ []))
        ≡ codes "one of fast, \\u{9b}" }
    ensures no_list { with_list (codes "where to") directories ≡ codes "where to" }
    ensures shown { option_text full (option_of None (listed (codes "fast" ∷ [])))
        ≡ codes "one of fast" }
    ensures hidden { option_text full (record (option_of None (listed (codes "fast" ∷ []))) {
      help = codes "how to pack";
      hides_list = true;
    }) ≡ codes "how to pack" }
{}

/// The full help shows the longer text of an option, if it has one. The default comes last.
#[tactic(auto, unfolding(lexopt_line_spec::proofs::Computing::computing))]
pub fn texts_are_chosen()
    ensures longer { chosen full (codes "how") (Some (codes "How to pack."))
        ≡ codes "How to pack." }
    ensures in_brief { chosen brief (codes "how") (Some (codes "How to pack.")) ≡ codes "how" }
    ensures no_longer { chosen full (codes "how") None ≡ codes "how" }
    ensures no_default { with_default (codes "how") None ≡ codes "how" }
    ensures a_default { with_default (codes "how") (Some (codes "fast"))
        ≡ codes "how [default: fast]" }
    ensures escaped { with_default [] (Some (0xC2 ∷ 0x9B ∷ []))
        ≡ codes " [default: \\u{9b}]" }
    ensures all { option_text full (record (option_of None (listed (codes "fast" ∷ []))) {
      help = codes "how";
      details = Some (codes "How to pack.");
      default = Some (codes "fast");
    }) ≡ codes "How to pack. One of fast. [default: fast]" }
    ensures no_epilogue { shown_epilogue brief (codes "See tar." ∷ []) ≡ [] }
    ensures epilogue { shown_epilogue full (codes "See tar." ∷ []) ≡ codes "See tar." ∷ [] }
{}

/// An option that the label of another shows has no entry of its own, unless that one is hidden.
pub fn flags_are_shown_beside()
    ensures flag { entered (voluntary_option ∷ other_form (a_flag 0x76) false ∷ [])
        ≡ other_form (a_flag 0x76) false ∷ [] }
    ensures hidden { entered (voluntary_option ∷ other_form (a_flag 0x76) true ∷ [])
        ≡ voluntary_option ∷ [] }
    ensures negation { entered (option_of (Some (codes "no-color")) files
        ∷ other_form negation false ∷ []) ≡ other_form negation false ∷ [] }
    ensures none { entered (voluntary_option ∷ other_form nothing false ∷ [])
        ≡ voluntary_option ∷ other_form nothing false ∷ [] }
    ensures another { entered (voluntary_option ∷ other_form (a_flag 0x77) false ∷ [])
        ≡ voluntary_option ∷ other_form (a_flag 0x77) false ∷ [] }
{}

/// A heading comes after an empty line. There is one empty line before the first option, whether it
/// has a heading or not.
pub fn headings_are_lines()
    ensures none { heading_lines None ≡ [] }
    ensures some { heading_lines (Some (codes "Output")) ≡ codes "\nOutput:\n" }
    ensures no_option { options_part [] ≡ [] }
    ensures no_heading { options_part (codes "  -v\n") ≡ codes "\n  -v\n" }
    ensures first_heading { options_part (codes "\nOutput:\n  -v\n") ≡ codes "\nOutput:\n  -v\n" }
{}

/// A paragraph with words has lines of its own.
pub fn paragraphs_are_laid_out()
    ensures none { paragraph [] ≡ [] }
    ensures lines { paragraph ((codes "Packs" ∷ codes "all" ∷ []) ∷ (codes "files." ∷ []) ∷ [])
        ≡ codes "Packs all" ++ line_feed ∷ codes "files." ++ line_feed ∷ [] }
{}

/// A part of the help comes after an empty line; an empty part is nothing.
pub fn parts_are_set_apart()
    ensures none { set_apart [] ≡ [] }
    ensures some { set_apart (codes "Packs." ++ line_feed ∷ [])
        ≡ line_feed ∷ codes "Packs." ++ line_feed ∷ [] }
{}

/// A grapheme cluster of several characters takes one column: `e` and an acute accent, in three
/// bytes.
pub fn clusters_are_columns()
    ensures letters { columns (codes "FILE") ≡ 4 }
    ensures accent { columns (0x65 ∷ 0xCC ∷ 0x81 ∷ []) ≡ 1 }
{}
