//! Worked examples of declared options: what the definitions mean for short lines and small
//! declarations, and what they exclude. Most have the options of `Sample`: v|verbose is a flag,
//! o|output has one value, b|backup has one or none, and x|exclude has several. With lists, m|mode
//! accepts fast and slow, b|backup old and bak, and x|exclude a and c. Of the positionals with
//! lists, MODE accepts fast and slow, OLD accepts a, and FORM accepts tar.
ghost use Rattle.std.specs.Prelude.{◌≡◌, ◌++◌, [], ◌∷◌, ℕ, List, Some, None, true, false};
ghost use Rattle.std.specs.Prelude.{codes, map};
ghost use Rattle.lexopt_spec.specs.UnreadLine.{BeginsWith, dash, joined, no_tail, rest};
ghost use Rattle.lexopt_line_spec.specs.Table as spec;
ghost use Rattle.lexopt_line_spec.specs.Table.{flag, long, many, one, short};
ghost use Rattle.lexopt_options_spec.specs.Asking.{AskFor, all_but_last, asked_at, asked_by};
ghost use Rattle.lexopt_options_spec.specs.Asking.{first_asked, parsed_before};
ghost use Rattle.lexopt_options_spec.specs.Completion.{AreOwners, AreOwnersIn, CanOwn};
ghost use Rattle.lexopt_options_spec.specs.Completion.{AreText, CanOccur, Completes, IsOpen};
ghost use Rattle.lexopt_options_spec.specs.Completion.{IsOption, IsText, spelling};
ghost use Rattle.lexopt_options_spec.specs.Completion.{EndsWith, Extends, HasRole, IsJoined};
ghost use Rattle.lexopt_options_spec.specs.Completion.{argument};
ghost use Rattle.lexopt_options_spec.specs.Completion.{role_of, spellings, texts, value_of};
ghost use Rattle.lexopt_options_spec.specs.Examples.{joined_after};
ghost use Rattle.lexopt_options_spec.specs.Completion.{value};
ghost use Rattle.lexopt_options_spec.specs.Declaration.{Asked, Declaration, names_of};
ghost use Rattle.lexopt_options_spec.specs.Declaration.{IsFirstFault, IsSecondRepeated, are_clear};
ghost use Rattle.lexopt_options_spec.specs.Declaration as declared;
ghost use Rattle.lexopt_options_spec.specs.Declaration.{accepts, bad_list, bad_placeholder};
ghost use Rattle.lexopt_options_spec.specs.Declaration.{dash_name, directories, listed, text};
ghost use Rattle.lexopt_options_spec.specs.Declaration.{blank_or_control_in_name};
ghost use Rattle.lexopt_options_spec.specs.Declaration.{empty_name, equals_in_name, index_of};
ghost use Rattle.lexopt_options_spec.specs.Declaration.{Reason, is_sound, replacement_in_name};
ghost use Rattle.lexopt_options_spec.specs.Declaration.{brief, for_help, for_version, full};
ghost use Rattle.lexopt_options_spec.specs.Declaration.{any_number, at_least_once, at_most_once};
ghost use Rattle.lexopt_options_spec.specs.Declaration.{has_to_occur, may_repeat, once};
ghost use Rattle.lexopt_options_spec.specs.Declaration.{a_flag, negation, nothing, same_name, table};
ghost use Rattle.lexopt_options_spec.specs.Legal.{Parsed, Means, MeansFront, accepts_at};
ghost use Rattle.lexopt_options_spec.specs.Legal.{are_accepted, is_required, most};
ghost use Rattle.lexopt_options_spec.specs.Places.{least};
ghost use Rattle.lexopt_options_spec.specs.Legal.{refused_value};
ghost use Rattle.lexopt_options_spec.specs.Legal.{occurs, option};
ghost use Rattle.lexopt_options_spec.specs.Legal.{positional, positional_count, parsed_item, several};
ghost use Rattle.lexopt_options_spec.specs.Legal.{with_defaults};
ghost use Rattle.lexopt_options_spec.specs.Places.{ArePlaces, AreShares, CanTake, owners};
ghost use Rattle.lexopt_options_spec.specs.States.{LeadsNowhere, Leaves, anything, due};
ghost use Rattle.lexopt_options_spec.specs.States.{ended, first, further};
ghost use Rattle.lexopt_options_spec.specs.Stops.{IsFirstMissing, Mistake, StopsAt};
ghost use Rattle.lexopt_options_spec.specs.Stops.{exclusive_options};
ghost use Rattle.lexopt_options_spec.specs.Stops.{invalid_argument, invalid_value};
ghost use Rattle.lexopt_options_spec.specs.Stops.{missing_argument, missing_option};
ghost use Rattle.lexopt_options_spec.specs.Stops.{missing_value, placeholder_at};
ghost use Rattle.lexopt_options_spec.specs.Stops.{required_placeholder, unexpected_argument};
ghost use Rattle.lexopt_options_spec.specs.Stops.{unexpected_value, unknown_option};
ghost use Rattle.lexopt_options_spec.specs.Help.{HasTextNames, IsEntry, IsHelp, IsParagraph};
ghost use Rattle.lexopt_options_spec.specs.Help.{IsUsage, LabelForm, Wraps};
ghost use Rattle.lexopt_options_spec.specs.Help.{beside, blanks, entry, gap, label, label_of};
ghost use Rattle.lexopt_options_spec.specs.Help.{line_columns, line_text};
ghost use Rattle.lexopt_laws.specs.Sample.{asking_sample, asks_for_help, asks_for_version, explained_mode};
ghost use Rattle.lexopt_laws.specs.Sample.{backup, described_files, exclude, exclusive_sample};
ghost use Rattle.lexopt_laws.specs.Sample.{files, form_in_list, mode, mode_in_list, output, sample};
ghost use Rattle.lexopt_options_spec.specs.Nearest.{IsDistance, IsHint, IsNearest, beginning};
ghost use Rattle.lexopt_options_spec.specs.Nearest.{ending, hinted_names, if_one, long_names};
ghost use Rattle.lexopt_laws.specs.Sample.{demanding_sample, dest, new, old, old_in_list, sources};
ghost use Rattle.lexopt_laws.specs.Sample.{demanding_listed, listed_mode, listed_options, user};
ghost use Rattle.lexopt_laws.specs.Sample.{hiding_options, hiding_sample, listed_sample};
ghost use Rattle.lexopt_laws.specs.Sample.{named, names_in_re, options_with_headings, sample_options};
ghost use Rattle.lexopt_laws.specs.Sample.{options_with_defaults};
ghost use Rattle.lexopt_laws.specs.Sample.{target, verbose};

// The index of the option with a name: the first, if two have the name. A name is typed whole.
fn options_have_names()
    ensures by_character { index_of sample_options (short 0x6F) ≡ Some 1 }
    ensures by_long_name { index_of sample_options (long (codes "output")) ≡ Some 1 }
    ensures no_character { index_of sample_options (short 0x7A) ≡ None }
    ensures no_long_name { index_of sample_options (long (codes "colour")) ≡ None }
    ensures not_a_front { index_of sample_options (long (codes "verb")) ≡ None }
    ensures not_a_part { index_of sample_options (long (codes "outputs")) ≡ None }
    ensures not_the_other { index_of sample_options (long (codes "o")) ≡ None }
    ensures no_character_for_a_long_name { index_of
        (record output { long_name = Some (codes "v") } ∷ []) (short 0x76) ≡ None }
    ensures first { index_of (output ∷ verbose ∷ output ∷ []) (short 0x6F) ≡ Some 0 }
    ensures without_a_character { index_of (record output { short_name = None } ∷ []) (short 0x6F)
        ≡ None }
    ensures without_a_long_name { index_of (record output { long_name = None } ∷ [])
        (long (codes "output")) ≡ None }
{}

// Flags are not in the table.
fn options_are_put_into_tables()
    ensures sample { table sample_options ≡ record {
      shorts = codes "o";
      longs = codes "output" ∷ [];
      optional_shorts = codes "b";
      optional_longs = codes "backup" ∷ [];
      several_shorts = codes "x";
      several_longs = codes "exclude" ∷ [];
    } }
    ensures several_of_a_kind { table (record output { short_name = None } ∷ verbose ∷ output
        ∷ record exclude { long_name = None } ∷ []) ≡ record {
          shorts = codes "o";
          longs = codes "output" ∷ codes "output" ∷ [];
          optional_shorts = [];
          optional_longs = [];
          several_shorts = codes "x";
          several_longs = [];
        } }
{}

// The first option that cannot be declared, and the reason.
#[tactic(auto, unfolding(lexopt_line_spec::proofs::Computing::computing))]
fn options_are_refused()
    ensures dash { IsFirstFault (record verbose { short_name = Some 0x2D } ∷ []) 0 dash_name }
    ensures character { IsFirstFault (record verbose { short_name = Some 0xFFFD } ∷ []) 0
        replacement_in_name }
    ensures no_name { IsFirstFault (record verbose { long_name = Some [] } ∷ []) 0 empty_name }
    ensures equals_sign { IsFirstFault (record verbose { long_name = Some (codes "a=b") } ∷ []) 0
        equals_in_name }
    ensures long_name { IsFirstFault (record verbose {
      long_name = Some (0x61 ∷ 0xEF ∷ 0xBF ∷ 0xBD ∷ []);
    } ∷ []) 0 replacement_in_name }
    ensures blank { IsFirstFault (record verbose { short_name = Some 0x20 } ∷ []) 0
        blank_or_control_in_name }
    ensures control { IsFirstFault (record verbose { short_name = Some 0x1B } ∷ []) 0
        blank_or_control_in_name }
    ensures delete { IsFirstFault (record verbose { short_name = Some 0x7F } ∷ []) 0
        blank_or_control_in_name }
    ensures blank_in_a_long_name { IsFirstFault
        (record verbose { long_name = Some (codes "dry run") } ∷ []) 0 blank_or_control_in_name }
    ensures no_placeholder { IsFirstFault (record output { placeholder = [] } ∷ []) 0
        bad_placeholder }
    ensures placeholder_with_dash { IsFirstFault
        (record backup { placeholder = codes "-n" } ∷ []) 0 bad_placeholder }
    ensures placeholder_with_equals { IsFirstFault
        (record exclude { placeholder = codes "=n" } ∷ []) 0 bad_placeholder }
    ensures same_character { IsFirstFault
        (verbose ∷ record output { short_name = Some 0x76 } ∷ []) 1 same_name }
    ensures same_long_name { IsFirstFault
        (verbose ∷ backup ∷ record output { long_name = Some (codes "verbose") } ∷ []) 2 same_name }
    ensures same_as_the_second { IsFirstFault
        (output ∷ verbose ∷ record backup { short_name = Some 0x76 } ∷ []) 2 same_name }
    ensures no_values { IsFirstFault (record listed_mode { words = listed [] } ∷ []) 0 bad_list }
    ensures empty_value { IsFirstFault (record listed_mode { words = listed ([] ∷ []) } ∷ []) 0
        bad_list }
    ensures value_with_dash { IsFirstFault
        (record listed_mode { words = listed (codes "fast" ∷ codes "-1" ∷ []) } ∷ []) 0 bad_list }
    ensures value_with_equals { IsFirstFault
        (record listed_mode { words = listed (codes "=1" ∷ []) } ∷ []) 0 bad_list }
    ensures value_with_blank { IsFirstFault
        (record listed_mode { words = listed (codes "very fast" ∷ []) } ∷ []) 0 bad_list }
    ensures value_with_control { IsFirstFault
        (record listed_mode { words = listed (codes "a\n" ∷ []) } ∷ []) 0 bad_list }
    ensures list_of_a_flag { IsFirstFault (record verbose { words = listed [] } ∷ []) 0 bad_list }
    ensures first_reason { IsFirstFault (verbose ∷ record output {
      short_name = Some 0x2D;
      long_name = Some [];
      placeholder = [];
    } ∷ []) 1 dash_name }
    ensures second_reason { IsFirstFault (verbose ∷ record output {
      short_name = Some 0x76;
      long_name = Some (codes "=");
      placeholder = [];
    } ∷ []) 1 equals_in_name }
    ensures third_reason { IsFirstFault (verbose ∷ record output {
      short_name = Some 0x76;
      placeholder = [];
      words = listed [];
    } ∷ []) 1 bad_placeholder }
    ensures fourth_reason { IsFirstFault (verbose ∷ record output {
      short_name = Some 0x76;
      words = listed [];
    } ∷ []) 1 bad_list }
    ensures not_the_second { (reason : Reason)
        → IsFirstFault (record verbose { short_name = Some 0x2D }
        ∷ record output { placeholder = [] } ∷ []) 1 reason → ⊥ }
    ensures no_fault { (reason : Reason) → IsFirstFault sample_options 1 reason → ⊥ }
    ensures none_past_the_end { (reason : Reason) → IsFirstFault sample_options 4 reason → ⊥ }
{}

// Options that can be declared together. A flag may have any placeholder.
#[tactic(auto, unfolding(lexopt_line_spec::proofs::Computing::computing))]
fn options_are_declared()
    ensures none { is_sound [] ≡ true }
    ensures sample { is_sound sample_options ≡ true }
    ensures flag { is_sound (record verbose { placeholder = codes "-" } ∷ []) ≡ true }
    ensures dash_inside { is_sound (record output { long_name = Some (codes "out-put") } ∷ []) ≡ true }
    ensures dash_in_placeholder { is_sound (record output { placeholder = codes "A-B=C" } ∷ [])
        ≡ true }
    ensures printed { is_sound (record verbose { short_name = Some 0x21 }
        ∷ record output { short_name = Some 0x7E } ∷ record backup { short_name = Some 0xE4 } ∷ [])
        ≡ true }
    ensures no_characters { is_sound (record verbose { short_name = None }
        ∷ record output { short_name = None } ∷ []) ≡ true }
    ensures no_long_names { is_sound (record verbose { long_name = None }
        ∷ record output { long_name = None } ∷ []) ≡ true }
    ensures a_character_is_no_long_name { is_sound (verbose
        ∷ record output { long_name = Some (codes "v") } ∷ []) ≡ true }
    ensures lists { is_sound listed_options ≡ true }
    ensures any_value { is_sound (record output { words = directories }
        ∷ record backup { words = text } ∷ []) ≡ true }
    ensures dash_in_a_value { is_sound
        (record output { words = listed (codes "a-b=c" ∷ codes "1" ∷ []) } ∷ []) ≡ true }
    ensures one_value_twice { is_sound
        (record output { words = listed (codes "a" ∷ codes "a" ∷ []) } ∷ []) ≡ true }
    ensures not_the_last { is_sound (verbose ∷ output ∷ verbose ∷ []) ≡ false }
{}

// Items, and what is read for them, by the index of their option.
fn items_are_parsed_by_index()
    ensures option { parsed_item sample_options (spec.option (short 0x6F) (Some (codes "f")))
        ≡ Some (option 1 (Some (codes "f"))) }
    ensures several { parsed_item sample_options
        (many (long (codes "exclude")) (codes "a" ∷ codes "b" ∷ []))
        ≡ Some (several 3 (codes "a" ∷ codes "b" ∷ [])) }
    ensures positional { parsed_item sample_options (spec.positional (codes "f"))
        ≡ Some (positional (codes "f")) }
    ensures not_declared { parsed_item sample_options (spec.option (short 0x7A) None) ≡ None }
    ensures several_not_declared { parsed_item sample_options
        (many (short 0x7A) (codes "a" ∷ [])) ≡ None }
{}

// How many positionals are in a list, and how many there may be.
fn positionals_are_counted()
    ensures count { positional_count (option 0 None ∷ positional (codes "a")
        ∷ several 3 (codes "b" ∷ codes "c" ∷ []) ∷ positional [] ∷ []) ≡ 2 }
    ensures none { positional_count [] ≡ 0 }
    ensures least { least (mode ∷ target ∷ files ∷ mode ∷ []) ≡ 2 }
    ensures most { most (mode ∷ target ∷ mode ∷ []) ≡ Some 3 }
    ensures no_limit { most (mode ∷ files ∷ target ∷ []) ≡ None }
    ensures nothing_declared { most [] ≡ Some 0 }
    ensures least_of_repeated { least (sources ∷ dest ∷ files ∷ []) ≡ 2 }
    ensures no_limit_of_repeated { most (sources ∷ dest ∷ []) ≡ None }
{}

// How often a positional may occur, and how many words can belong to it.
fn positionals_occur_by_their_counts()
    ensures once { (has_to_occur once ≡ true) × (may_repeat once ≡ false) }
    ensures at_most_once { (has_to_occur at_most_once ≡ false) × (may_repeat at_most_once ≡ false) }
    ensures any_number { (has_to_occur any_number ≡ false) × (may_repeat any_number ≡ true) }
    ensures at_least_once { (has_to_occur at_least_once ≡ true) × (may_repeat at_least_once ≡ true) }
    ensures one { CanTake once 1 }
    ensures not_none { CanTake once 0 → ⊥ }
    ensures one_alone { CanTake once 2 → ⊥ }
    ensures none_of_one { CanTake at_least_once 0 → ⊥ }
    ensures two { CanTake at_least_once 2 }
    ensures not_two { CanTake at_most_once 2 → ⊥ }
{}

// Positionals that can be declared together, and some that cannot.
fn positionals_are_declared()
    ensures none { are_clear [] ≡ true }
    ensures one { are_clear (mode ∷ files ∷ target ∷ []) ≡ true }
    ensures at_least_once { are_clear (sources ∷ dest ∷ []) ≡ true }
    ensures two { are_clear (files ∷ sources ∷ []) ≡ false }
    ensures two_apart { are_clear (mode ∷ sources ∷ target ∷ files ∷ []) ≡ false }
{}

// The second positional that may occur more than once.
fn positionals_are_refused()
    ensures last { IsSecondRepeated (mode ∷ files ∷ target ∷ sources ∷ []) 3 }
    ensures second_of_three { IsSecondRepeated (files ∷ files ∷ files ∷ []) 1 }
{}

// Positionals that are not the second one that may occur more than once.
fn no_other_positionals_are_refused()
    ensures not_the_first { IsSecondRepeated (files ∷ sources ∷ []) 0 → ⊥ }
    ensures not_the_third { IsSecondRepeated (files ∷ files ∷ files ∷ []) 2 → ⊥ }
    ensures not_one_that_occurs_once { IsSecondRepeated (files ∷ mode ∷ []) 1 → ⊥ }
    ensures none_past_the_end { IsSecondRepeated (files ∷ []) 1 → ⊥ }
{}

// How many words belong to each positional of `[OLD] NEW`, `SOURCE... DEST`,
// `MODE [TARGET] [FILE]...`, `[FILE]... [TARGET]`, `[OLD] SOURCE...`, and of two that may both
// occur any number of times.
fn words_belong_to_positionals()
    ensures last_first { AreShares (old ∷ new ∷ []) 1 (0 ∷ 1 ∷ []) }
    ensures both { AreShares (old ∷ new ∷ []) 2 (1 ∷ 1 ∷ []) }
    ensures all_but_the_last { AreShares (sources ∷ dest ∷ []) 3 (2 ∷ 1 ∷ []) }
    ensures required_alone { AreShares (mode ∷ target ∷ files ∷ []) 1 (1 ∷ 0 ∷ 0 ∷ []) }
    ensures every_one { AreShares (mode ∷ target ∷ files ∷ []) 4 (1 ∷ 1 ∷ 2 ∷ []) }
    ensures first_of_two { AreShares (files ∷ files ∷ []) 2 (2 ∷ 0 ∷ []) }
    ensures last_left_out { AreShares (files ∷ target ∷ []) 2 (2 ∷ 0 ∷ []) }
    ensures first_left_out { AreShares (old ∷ sources ∷ []) 1 (0 ∷ 1 ∷ []) }
    ensures nothing_declared { AreShares [] 0 [] }
{}

// Numbers of words that do not belong to them.
fn words_do_not_belong_elsewhere()
    ensures too_few { (shares : List ℕ) → AreShares (sources ∷ dest ∷ []) 1 shares → ⊥ }
    ensures too_many { (shares : List ℕ) → AreShares (old ∷ new ∷ []) 3 shares → ⊥ }
    ensures left_out { AreShares (old ∷ new ∷ []) 1 (1 ∷ 0 ∷ []) → ⊥ }
    ensures to_the_second { AreShares (mode ∷ target ∷ files ∷ []) 2 (1 ∷ 0 ∷ 1 ∷ []) → ⊥ }
    ensures to_the_last { AreShares (sources ∷ dest ∷ []) 3 (1 ∷ 2 ∷ []) → ⊥ }
    ensures to_the_second_of_two { AreShares (files ∷ files ∷ []) 2 (0 ∷ 2 ∷ []) → ⊥ }
    ensures one_to_each_of_two { AreShares (sources ∷ files ∷ []) 2 (1 ∷ 1 ∷ []) → ⊥ }
{}

// The index of the positional that each word belongs to. If `DEST` is missing, the word belongs to
// what it would belong to with `DEST` after it.
fn words_have_places()
    ensures last_first { ArePlaces (old ∷ new ∷ []) 1 (1 ∷ []) }
    ensures both { ArePlaces (old ∷ new ∷ []) 2 (0 ∷ 1 ∷ []) }
    ensures none { ArePlaces (old ∷ new ∷ []) 0 [] }
    ensures all_but_the_last { ArePlaces (sources ∷ dest ∷ []) 3 (0 ∷ 0 ∷ 1 ∷ []) }
    ensures last_is_missing { ArePlaces (sources ∷ dest ∷ []) 1 (0 ∷ []) }
    ensures every_one { ArePlaces (mode ∷ target ∷ files ∷ []) 4 (0 ∷ 1 ∷ 2 ∷ 2 ∷ []) }
{}

// Indices of positionals that words do not belong to.
fn words_have_no_other_places()
    ensures too_many { (places : List ℕ) → ArePlaces (old ∷ new ∷ []) 3 places → ⊥ }
    ensures not_the_first { ArePlaces (old ∷ new ∷ []) 1 (0 ∷ []) → ⊥ }
{}

// The positionals that words can belong to: the first word of `[OLD] NEW` belongs to `OLD` if
// another word comes after it, and to `NEW` if none does.
fn words_can_belong_to_positionals()
    ensures first { CanOwn (old ∷ new ∷ []) [] 0 }
    ensures second { CanOwn (old ∷ new ∷ []) [] 1 }
    ensures later { CanOwn (mode ∷ target ∷ []) (codes "a" ∷ []) 1 }
    ensures after_a_listed_word { CanOwn (mode_in_list ∷ files ∷ []) (codes "fast" ∷ []) 1 }
{}

// Positionals that words cannot belong to.
fn words_cannot_belong_elsewhere()
    ensures not_the_second { CanOwn (mode ∷ target ∷ []) [] 1 → ⊥ }
    ensures past_the_end { (i : ℕ) → CanOwn (mode ∷ []) (codes "a" ∷ []) i → ⊥ }
{}

// All positionals that a word can belong to.
fn words_can_belong_to_these()
    ensures two { AreOwners (old ∷ new ∷ []) [] (0 ∷ 1 ∷ []) }
    ensures one { AreOwners (mode ∷ target ∷ []) [] (0 ∷ []) }
    ensures none { AreOwners (mode ∷ []) (codes "a" ∷ []) [] }
    ensures after_a_refused_word { AreOwners (mode_in_list ∷ files ∷ []) (codes "fats" ∷ []) [] }
    ensures after_a_word_refused_by_one { AreOwners (old_in_list ∷ new ∷ dest ∷ []) (codes "b" ∷ []) (2 ∷ []) }
    ensures role { AreOwnersIn (mode ∷ target ∷ []) (Some (argument (codes "a" ∷ []))) (1 ∷ []) }
    ensures of_a_value { AreOwnersIn (mode ∷ target ∷ []) (Some (value 1)) [] }
    ensures of_nothing { AreOwnersIn (mode ∷ target ∷ []) None [] }
{}

// The indices of positionals to which these numbers of words belong.
fn positionals_have_indices()
    ensures three { owners 0 (1 ∷ 0 ∷ 2 ∷ []) ≡ 0 ∷ 2 ∷ 2 ∷ [] }
    ensures none { owners 3 [] ≡ [] }
{}

// The placeholder of an option, and of a required positional.
fn placeholders_are_for_values()
    ensures option { placeholder_at sample_options 3 ≡ codes "PATTERN" }
    ensures no_option { placeholder_at sample_options 4 ≡ [] }
    ensures positional { required_placeholder (target ∷ mode ∷ files
        ∷ record mode { placeholder = codes "KEY" } ∷ []) 1 ≡ codes "KEY" }
    ensures first { required_placeholder (target ∷ mode ∷ []) 0 ≡ codes "MODE" }
    ensures no_positional { required_placeholder (target ∷ mode ∷ []) 1 ≡ [] }
    ensures repeated { required_placeholder (target ∷ sources ∷ dest ∷ []) 0 ≡ codes "SOURCE" }
{}

// What lines mean.
fn lines_mean_these_lists()
    ensures every_item { Means (sample (files ∷ []) true)
        (codes "-vo=x" ∷ codes "--output" ∷ codes "y" ∷ codes "--" ∷ codes "file" ∷ [])
        (option 0 None ∷ option 1 (Some (codes "x")) ∷ option 1 (Some (codes "y"))
        ∷ positional (codes "file") ∷ []) }
    ensures several_values { Means (sample [] true) (codes "-x" ∷ codes "a" ∷ codes "b" ∷ [])
        (several 3 (codes "a" ∷ codes "b" ∷ []) ∷ []) }
    ensures optional_value { Means (sample [] true) (codes "-b" ∷ codes "--backup=z" ∷ [])
        (option 2 None ∷ option 2 (Some (codes "z")) ∷ []) }
    ensures under_its_setting { Means (sample [] false) (codes "-o=x" ∷ [])
        (option 1 (Some (codes "=x")) ∷ []) }
    ensures as_many_as_declared { Means (sample (mode ∷ target ∷ []) true)
        (codes "a" ∷ codes "b" ∷ []) (positional (codes "a") ∷ positional (codes "b") ∷ []) }
    ensures left_out { Means (sample (target ∷ []) true) [] [] }
    ensures any_number { Means (sample (files ∷ []) true) (codes "a" ∷ codes "b" ∷ [])
        (positional (codes "a") ∷ positional (codes "b") ∷ []) }
    ensures front { MeansFront (sample (mode ∷ []) true) (codes "-v" ∷ []) (option 0 None ∷ []) }
{}

// Which options are required, and which occur in a list.
fn options_are_required()
    ensures required { is_required (sample_options ++ user ∷ []) 4 ≡ true }
    ensures not_required { is_required (sample_options ++ user ∷ []) 3 ≡ false }
    ensures no_option { is_required (sample_options ++ user ∷ []) 5 ≡ false }
    ensures occurs { occurs 4 (option 0 None ∷ option 4 (Some (codes "me")) ∷ []) ≡ true }
    ensures several_occur { occurs 3 (several 3 (codes "a" ∷ []) ∷ []) ≡ true }
    ensures several_of_another { occurs 4 (several 3 (codes "a" ∷ []) ∷ []) ≡ false }
    ensures does_not_occur { occurs 4 (option 0 None ∷ positional (codes "--user=me") ∷ []) ≡ false }
    ensures first_missing { IsFirstMissing (user ∷ verbose ∷ user ∷ user ∷ [])
        (option 0 (Some (codes "me")) ∷ []) 2 }
    ensures not_the_second { IsFirstMissing (user ∷ verbose ∷ user ∷ user ∷ [])
        (option 0 (Some (codes "me")) ∷ []) 3 → ⊥ }
    ensures not_one_that_occurs { IsFirstMissing (user ∷ []) (option 0 (Some (codes "me")) ∷ []) 0
        → ⊥ }
    ensures not_one_that_may_be_left_out { IsFirstMissing (verbose ∷ []) [] 0 → ⊥ }
{}

// What lines mean if an option or a positional is required.
fn lines_say_what_is_required()
    ensures character { Means (demanding_sample [] true) (codes "-u" ∷ codes "me" ∷ [])
        (option 4 (Some (codes "me")) ∷ []) }
    ensures among_others { Means (demanding_sample (mode ∷ []) true)
        (codes "-v" ∷ codes "--user=me" ∷ codes "a" ∷ [])
        (option 0 None ∷ option 4 (Some (codes "me")) ∷ positional (codes "a") ∷ []) }
    ensures twice { Means (demanding_sample [] true) (codes "-ua" ∷ codes "-ub" ∷ [])
        (option 4 (Some (codes "a")) ∷ option 4 (Some (codes "b")) ∷ []) }
    ensures front { MeansFront (demanding_sample [] true) (codes "-v" ∷ []) (option 0 None ∷ []) }
    ensures at_least_once { Means (sample (sources ∷ []) true) (codes "a" ∷ codes "b" ∷ [])
        (positional (codes "a") ∷ positional (codes "b") ∷ []) }
{}

// The values that an option with a list accepts: those in the list, typed whole.
fn values_are_accepted()
    ensures in_the_list { accepts (listed (codes "fast" ∷ codes "slow" ∷ [])) (codes "slow")
        ≡ true }
    ensures not_in_the_list { accepts (listed (codes "fast" ∷ codes "slow" ∷ [])) (codes "medium")
        ≡ false }
    ensures not_a_front { accepts (listed (codes "fast" ∷ [])) (codes "fas") ≡ false }
    ensures no_more_than_one { accepts (listed (codes "fast" ∷ [])) (codes "faster") ≡ false }
    ensures not_in_capitals { accepts (listed (codes "fast" ∷ [])) (codes "Fast") ≡ false }
    ensures not_the_empty_word { accepts (listed (codes "fast" ∷ [])) [] ≡ false }
    ensures any { (value : List ℕ) → (accepts declared.files value ≡ true)
        × (accepts directories value ≡ true) × (accepts text value ≡ true) }
    ensures by_index { accepts_at listed_options 1 (codes "slow") ≡ true }
    ensures not_by_index { accepts_at listed_options 1 (codes "medium") ≡ false }
    ensures of_another_option { accepts_at listed_options 3 (codes "slow") ≡ false }
    ensures without_a_list { accepts_at sample_options 1 (codes "medium") ≡ true }
    ensures no_option { accepts_at listed_options 5 (codes "medium") ≡ true }
{}

// The first value that an option does not accept.
fn values_are_refused()
    ensures one_value { refused_value listed_options (option 1 (Some (codes "medium")))
        ≡ Some (codes "medium") }
    ensures accepted { refused_value listed_options (option 1 (Some (codes "fast"))) ≡ None }
    ensures optional_value { refused_value listed_options (option 2 (Some (codes "~")))
        ≡ Some (codes "~") }
    ensures left_out { refused_value listed_options (option 2 None) ≡ None }
    ensures first_of_several { refused_value listed_options
        (several 3 (codes "a" ∷ codes "b" ∷ codes "d" ∷ [])) ≡ Some (codes "b") }
    ensures none_of_several { refused_value listed_options
        (several 3 (codes "c" ∷ codes "a" ∷ codes "c" ∷ [])) ≡ None }
    ensures positional { refused_value listed_options (positional (codes "medium")) ≡ None }
    ensures each { are_accepted listed_options (option 0 None ∷ option 1 (Some (codes "slow"))
        ∷ option 2 None ∷ several 3 (codes "a" ∷ []) ∷ positional (codes "medium") ∷ []) ≡ true }
    ensures not_the_second { are_accepted listed_options (option 1 (Some (codes "slow"))
        ∷ option 1 (Some (codes "medium")) ∷ []) ≡ false }
    ensures not_one_of_several { are_accepted listed_options
        (several 3 (codes "a" ∷ codes "b" ∷ []) ∷ []) ≡ false }
    ensures nothing { are_accepted listed_options [] ≡ true }
{}

// What lines mean if options have lists. The front of a line may have any value.
fn lines_say_values_in_lists()
    ensures joined { Means (listed_sample [] true) (codes "--mode=fast" ∷ [])
        (option 1 (Some (codes "fast")) ∷ []) }
    ensures attached { Means (listed_sample [] true) (codes "-mslow" ∷ [])
        (option 1 (Some (codes "slow")) ∷ []) }
    ensures left_out { Means (listed_sample [] true) (codes "-b" ∷ codes "--backup=bak" ∷ [])
        (option 2 None ∷ option 2 (Some (codes "bak")) ∷ []) }
    ensures several_values { Means (listed_sample [] true) (codes "-x" ∷ codes "c" ∷ codes "a" ∷ [])
        (several 3 (codes "c" ∷ codes "a" ∷ []) ∷ []) }
    ensures positional { Means (listed_sample (files ∷ []) true) (codes "medium" ∷ [])
        (positional (codes "medium") ∷ []) }
    ensures required { Means (demanding_listed [] true) (codes "--mode=fast" ∷ [])
        (option 1 (Some (codes "fast")) ∷ []) }
    ensures front { MeansFront (listed_sample [] true) (codes "-mmedium" ∷ [])
        (option 1 (Some (codes "medium")) ∷ []) }
{}

// What lines mean if positionals have lists. The front of a line may have any word.
fn lines_mean_words_in_lists()
    ensures first { Means (sample (mode_in_list ∷ files ∷ []) true) (codes "fast" ∷ codes "a" ∷ [])
        (positional (codes "fast") ∷ positional (codes "a") ∷ []) }
    ensures last { Means (sample (sources ∷ form_in_list ∷ []) true) (codes "a" ∷ codes "tar" ∷ [])
        (positional (codes "a") ∷ positional (codes "tar") ∷ []) }
    ensures of_another_positional { Means (sample (mode_in_list ∷ files ∷ []) true)
        (codes "slow" ∷ codes "fats" ∷ []) (positional (codes "slow") ∷ positional (codes "fats")
        ∷ []) }
    ensures two_lists { Means (sample (mode_in_list ∷ form_in_list ∷ []) true)
        (codes "fast" ∷ codes "tar" ∷ []) (positional (codes "fast") ∷ positional (codes "tar")
        ∷ []) }
    ensures left_out { Means
        (sample (record mode_in_list { count = at_most_once } ∷ form_in_list ∷ []) true)
        (codes "tar" ∷ []) (positional (codes "tar") ∷ []) }
    ensures after_the_separator { Means (sample (mode_in_list ∷ files ∷ []) true)
        (codes "--" ∷ codes "fast" ∷ codes "-v" ∷ [])
        (positional (codes "fast") ∷ positional (codes "-v") ∷ []) }
    ensures front { MeansFront (sample (mode_in_list ∷ files ∷ []) true) (codes "fats" ∷ [])
        (positional (codes "fats") ∷ []) }
{}

// What lines do not mean.
fn lines_do_not_say_these()
    ensures not_declared { (l : List Parsed) → MeansFront (sample (files ∷ []) true)
        (codes "-z" ∷ []) l → ⊥ }
    ensures value_of_a_flag { (l : List Parsed) → MeansFront (sample (files ∷ []) true)
        (codes "--verbose=1" ∷ []) l → ⊥ }
    ensures one_too_many { (l : List Parsed) → MeansFront (sample (target ∷ []) true)
        (codes "a" ∷ codes "b" ∷ []) l → ⊥ }
    ensures one_too_few { (l : List Parsed) → Means (sample (mode ∷ mode ∷ []) true)
        (codes "a" ∷ []) l → ⊥ }
    ensures nothing_else { (l : List Parsed) → Means (sample (mode ∷ target ∷ []) true)
        (codes "a" ∷ codes "b" ∷ []) l
        → l ≡ positional (codes "a") ∷ positional (codes "b") ∷ [] }
{}

// Where the reading of lines stops.
fn lines_stop_at_these_mistakes()
    ensures unknown { StopsAt (sample (files ∷ []) true) (codes "-z" ∷ []) []
        (unknown_option (short 0x7A) no_tail) }
    ensures unknown_with_a_value { StopsAt (sample (files ∷ []) true)
        (codes "--colour=always" ∷ []) []
        (unknown_option (long (codes "colour")) (joined (codes "always"))) }
    ensures in_a_cluster { StopsAt (sample (files ∷ []) true) (codes "-verbose" ∷ [])
        (option 0 None ∷ []) (unknown_option (short 0x65) (rest (codes "rbose"))) }
    ensures damaged { StopsAt (sample (files ∷ []) true) ((0x2D ∷ 0xFF ∷ []) ∷ []) []
        (unknown_option (short 0xFFFD) no_tail) }
    ensures value_of_a_flag { StopsAt (sample (files ∷ []) true) (codes "--verbose=1" ∷ [])
        (option 0 None ∷ []) (unexpected_value (codes "--verbose") (codes "1")) }
    ensures value_of_a_character { StopsAt (sample (files ∷ []) true) (codes "-v=1" ∷ [])
        (option 0 None ∷ []) (unexpected_value (codes "-v") (codes "1")) }
    ensures under_its_setting { StopsAt (sample (files ∷ []) false) (codes "-v=1" ∷ [])
        (option 0 None ∷ []) (unknown_option (short 0x3D) (rest (codes "1"))) }
    ensures no_value { StopsAt (sample (files ∷ []) true) (codes "-o" ∷ []) []
        (missing_value 1 (codes "-o")) }
    ensures none_of_several { StopsAt (sample (files ∷ []) true) (codes "-x" ∷ codes "-v" ∷ []) []
        (missing_value 3 (codes "-x")) }
    ensures none_of_a_long_name { StopsAt (sample (files ∷ []) true) (codes "--output" ∷ []) []
        (missing_value 1 (codes "--output")) }
    ensures no_positional { StopsAt (sample [] true) (codes "a" ∷ []) []
        (unexpected_argument (codes "a")) }
    ensures one_too_many { StopsAt (sample (target ∷ []) true) (codes "a" ∷ codes "b" ∷ [])
        (positional (codes "a") ∷ []) (unexpected_argument (codes "b")) }
    ensures one_too_few { StopsAt (sample (mode ∷ mode ∷ []) true) (codes "a" ∷ [])
        (positional (codes "a") ∷ []) (missing_argument 1) }
    ensures another_mistake_first { StopsAt (sample (mode ∷ []) true) (codes "-z" ∷ []) []
        (unknown_option (short 0x7A) no_tail) }
{}

// Where the reading of lines stops if an option or a positional is required.
fn lines_stop_at_what_is_missing()
    ensures option { StopsAt (demanding_sample [] true) (codes "-v" ∷ []) (option 0 None ∷ [])
        (missing_option 4) }
    ensures no_words { StopsAt (demanding_sample [] true) [] [] (missing_option 4) }
    ensures after_a_positional { StopsAt (demanding_sample (mode ∷ []) true) (codes "a" ∷ [])
        (positional (codes "a") ∷ []) (missing_option 4) }
    ensures after_the_separator { StopsAt (demanding_sample (files ∷ []) true)
        (codes "--" ∷ codes "--user=me" ∷ []) (positional (codes "--user=me") ∷ [])
        (missing_option 4) }
    ensures first_of_two { StopsAt (record (sample [] true) {
      options = verbose ∷ record output { required = true } ∷ user ∷ [];
    }) (codes "-v" ∷ []) (option 0 None ∷ []) (missing_option 1) }
    ensures second_of_two { StopsAt (record (sample [] true) {
      options = verbose ∷ record output { required = true } ∷ user ∷ [];
    }) (codes "-o" ∷ codes "f" ∷ []) (option 1 (Some (codes "f")) ∷ []) (missing_option 2) }
    ensures both { StopsAt (demanding_sample (mode ∷ []) true) (codes "-v" ∷ [])
        (option 0 None ∷ []) (missing_argument 0) }
    ensures not_declared { StopsAt (demanding_sample [] true)
        (codes "-u" ∷ codes "me" ∷ codes "-z" ∷ []) (option 4 (Some (codes "me")) ∷ [])
        (unknown_option (short 0x7A) no_tail) }
    ensures not_declared_without_it { StopsAt (demanding_sample [] true) (codes "-z" ∷ []) []
        (unknown_option (short 0x7A) no_tail) }
    ensures no_value { StopsAt (demanding_sample [] true) (codes "--user" ∷ []) []
        (missing_value 4 (codes "--user")) }
    ensures none_of_one { StopsAt (sample (sources ∷ []) true) [] [] (missing_argument 0) }
    ensures one_of_two { StopsAt (sample (sources ∷ dest ∷ []) true) (codes "a" ∷ [])
        (positional (codes "a") ∷ []) (missing_argument 1) }
{}

// Where the reading of lines stops at a value that an option does not accept. This mistake comes
// before what is missing at the end of the line.
fn lines_stop_at_values()
    ensures attached { StopsAt (listed_sample [] true) (codes "-mmedium" ∷ []) []
        (invalid_value 1 (codes "medium")) }
    ensures after_a_flag { StopsAt (listed_sample [] true) (codes "-v" ∷ codes "--mode=medium" ∷ [])
        (option 0 None ∷ []) (invalid_value 1 (codes "medium")) }
    ensures after_a_value { StopsAt (listed_sample [] true) (codes "-mfast" ∷ codes "-mmedium" ∷ [])
        (option 1 (Some (codes "fast")) ∷ []) (invalid_value 1 (codes "medium")) }
    ensures front_of_one { StopsAt (listed_sample [] true) (codes "--mode=fas" ∷ []) []
        (invalid_value 1 (codes "fas")) }
    ensures optional_value { StopsAt (listed_sample [] true) (codes "-b~" ∷ []) []
        (invalid_value 2 (codes "~")) }
    ensures first_of_several { StopsAt (listed_sample [] true)
        (codes "-x" ∷ codes "a" ∷ codes "b" ∷ codes "d" ∷ []) [] (invalid_value 3 (codes "b")) }
    ensures before_the_help { StopsAt (listed_sample [] true)
        (codes "--mode=medium" ∷ codes "--help" ∷ []) [] (invalid_value 1 (codes "medium")) }
    ensures after_the_help { StopsAt (listed_sample [] true)
        (codes "--help" ∷ codes "--mode=medium" ∷ []) (option 4 None ∷ [])
        (invalid_value 1 (codes "medium")) }
    ensures before_another_mistake { StopsAt (listed_sample [] true)
        (codes "--mode=medium" ∷ codes "-z" ∷ []) [] (invalid_value 1 (codes "medium")) }
    ensures after_another_mistake { StopsAt (listed_sample [] true)
        (codes "-z" ∷ codes "--mode=medium" ∷ []) [] (unknown_option (short 0x7A) no_tail) }
    ensures required { StopsAt (demanding_listed [] true) (codes "--mode=medium" ∷ []) []
        (invalid_value 1 (codes "medium")) }
    ensures option_missing { StopsAt (record (sample [] true) {
      options = listed_mode ∷ user ∷ [];
    }) (codes "--mode=medium" ∷ []) [] (invalid_value 0 (codes "medium")) }
    ensures argument_missing { StopsAt (listed_sample (mode ∷ []) true)
        (codes "--mode=medium" ∷ []) [] (invalid_value 1 (codes "medium")) }
{}

// Where the reading of lines stops at a word that a positional does not accept. Every other mistake
// in the line comes before this one, and so does a missing positional, since the end of the line
// decides which positional a word belongs to. A missing required option comes after it.
fn lines_stop_at_words()
    ensures first { StopsAt (sample (mode_in_list ∷ files ∷ []) true)
        (codes "fats" ∷ codes "a" ∷ []) (positional (codes "fats") ∷ positional (codes "a") ∷ [])
        (invalid_argument 0 (codes "fats")) }
    ensures last { StopsAt (sample (sources ∷ form_in_list ∷ []) true)
        (codes "tar" ∷ codes "a" ∷ []) (positional (codes "tar") ∷ positional (codes "a") ∷ [])
        (invalid_argument 1 (codes "a")) }
    ensures front_of_one { StopsAt (sample (mode_in_list ∷ files ∷ []) true) (codes "fas" ∷ [])
        (positional (codes "fas") ∷ []) (invalid_argument 0 (codes "fas")) }
    ensures first_of_two { StopsAt (sample (mode_in_list ∷ form_in_list ∷ []) true)
        (codes "tar" ∷ codes "fast" ∷ [])
        (positional (codes "tar") ∷ positional (codes "fast") ∷ [])
        (invalid_argument 0 (codes "tar")) }
    ensures second_of_two { StopsAt (sample (mode_in_list ∷ form_in_list ∷ []) true)
        (codes "fast" ∷ codes "rar" ∷ [])
        (positional (codes "fast") ∷ positional (codes "rar") ∷ [])
        (invalid_argument 1 (codes "rar")) }
    ensures left_out { StopsAt
        (sample (record mode_in_list { count = at_most_once } ∷ form_in_list ∷ []) true)
        (codes "fast" ∷ []) (positional (codes "fast") ∷ []) (invalid_argument 1 (codes "fast")) }
    ensures option_missing { StopsAt (demanding_sample (mode_in_list ∷ files ∷ []) true)
        (codes "fats" ∷ codes "a" ∷ []) (positional (codes "fats") ∷ positional (codes "a") ∷ [])
        (invalid_argument 0 (codes "fats")) }
    ensures option_alone_missing { StopsAt (demanding_sample (mode_in_list ∷ files ∷ []) true)
        (codes "fast" ∷ codes "a" ∷ []) (positional (codes "fast") ∷ positional (codes "a") ∷ [])
        (missing_option 4) }
    ensures argument_missing { StopsAt (sample (mode_in_list ∷ new ∷ []) true)
        (codes "fats" ∷ []) (positional (codes "fats") ∷ []) (missing_argument 1) }
    ensures before_another_mistake { StopsAt (sample (mode_in_list ∷ files ∷ []) true)
        (codes "fats" ∷ codes "-z" ∷ []) (positional (codes "fats") ∷ [])
        (unknown_option (short 0x7A) no_tail) }
    ensures one_too_many { StopsAt (sample (mode_in_list ∷ []) true)
        (codes "fats" ∷ codes "a" ∷ []) (positional (codes "fats") ∷ [])
        (unexpected_argument (codes "a")) }
{}

// Where the reading of lines does not stop.
fn lines_do_not_stop_elsewhere()
    ensures nowhere { (l : List Parsed) (m : Mistake)
        → StopsAt (sample (mode ∷ target ∷ []) true) (codes "a" ∷ codes "b" ∷ []) l m → ⊥ }
    ensures at_the_first_mistake { (l : List Parsed) (m : Mistake)
        → StopsAt (sample (mode ∷ []) true) (codes "-z" ∷ codes "--verbose=1" ∷ []) l m
        → (l ≡ []) × (m ≡ unknown_option (short 0x7A) no_tail) }
    ensures in_a_cluster { (l : List Parsed) (m : Mistake)
        → StopsAt (sample (mode ∷ []) true) (codes "-zv" ∷ []) l m
        → (l ≡ []) × (m ≡ unknown_option (short 0x7A) (rest (codes "v"))) }
    ensures what_is_missing { (l : List Parsed) (m : Mistake)
        → StopsAt (sample (mode ∷ mode ∷ []) true) (codes "a" ∷ []) l m
        → (l ≡ positional (codes "a") ∷ []) × (m ≡ missing_argument 1) }
{}

// A line with a value that an option does not accept means nothing, and its reading stops only
// there.
fn lines_need_values_in_lists()
    ensures attached { (l : List Parsed) → Means (listed_sample [] true) (codes "-mmedium" ∷ []) l
        → ⊥ }
    ensures front_of_one { (l : List Parsed) → Means (listed_sample [] true) (codes "--mode=fas" ∷ [])
        l → ⊥ }
    ensures one_of_several { (l : List Parsed) → Means (listed_sample [] true)
        (codes "-x" ∷ codes "a" ∷ codes "b" ∷ codes "d" ∷ []) l → ⊥ }
    ensures not_the_last { (l : List Parsed) (m : Mistake) → StopsAt (listed_sample [] true)
        (codes "-x" ∷ codes "a" ∷ codes "b" ∷ codes "d" ∷ []) l m
        → (l ≡ []) × (m ≡ invalid_value 3 (codes "b")) }
    ensures not_what_is_missing { (l : List Parsed) (m : Mistake)
        → StopsAt (record (sample [] true) { options = listed_mode ∷ user ∷ [] })
        (codes "--mode=medium" ∷ []) l m → (l ≡ []) × (m ≡ invalid_value 0 (codes "medium")) }
    ensures not_the_argument { (l : List Parsed) (m : Mistake)
        → StopsAt (listed_sample (mode ∷ []) true) (codes "--mode=medium" ∷ []) l m
        → (l ≡ []) × (m ≡ invalid_value 1 (codes "medium")) }
    ensures nowhere { (l : List Parsed) (m : Mistake)
        → StopsAt (listed_sample [] true) (codes "--mode=fast" ∷ []) l m → ⊥ }
{}

// A line with a word that a positional does not accept means nothing, and its reading stops only
// there.
fn lines_need_words_in_lists()
    ensures first { (l : List Parsed) → Means (sample (mode_in_list ∷ files ∷ []) true)
        (codes "fats" ∷ codes "a" ∷ []) l → ⊥ }
    ensures last { (l : List Parsed) → Means (sample (sources ∷ form_in_list ∷ []) true)
        (codes "tar" ∷ codes "a" ∷ []) l → ⊥ }
    ensures not_the_second { (l : List Parsed) (m : Mistake)
        → StopsAt (sample (mode_in_list ∷ form_in_list ∷ []) true)
        (codes "tar" ∷ codes "fast" ∷ []) l m
        → (l ≡ positional (codes "tar") ∷ positional (codes "fast") ∷ [])
        × (m ≡ invalid_argument 0 (codes "tar")) }
    ensures not_the_option { (l : List Parsed) (m : Mistake)
        → StopsAt (demanding_sample (mode_in_list ∷ files ∷ []) true)
        (codes "fats" ∷ codes "a" ∷ []) l m
        → (l ≡ positional (codes "fats") ∷ positional (codes "a") ∷ [])
        × (m ≡ invalid_argument 0 (codes "fats")) }
    ensures not_before_the_end { (l : List Parsed) (m : Mistake)
        → StopsAt (sample (mode_in_list ∷ new ∷ []) true) (codes "fats" ∷ []) l m
        → (l ≡ positional (codes "fats") ∷ []) × (m ≡ missing_argument 1) }
    ensures nowhere { (l : List Parsed) (m : Mistake)
        → StopsAt (sample (mode_in_list ∷ files ∷ []) true) (codes "fast" ∷ codes "a" ∷ []) l m
        → ⊥ }
{}

// A line that lacks what is required means nothing, and its reading stops only for that. If the
// line has it, its reading does not stop.
fn lines_need_what_is_required()
    ensures without_it { (l : List Parsed) → Means (demanding_sample [] true) (codes "-v" ∷ []) l
        → ⊥ }
    ensures without_words { (l : List Parsed) → Means (demanding_sample [] true) [] l → ⊥ }
    ensures with_it { (l : List Parsed) (m : Mistake)
        → StopsAt (demanding_sample [] true) (codes "-u" ∷ codes "me" ∷ []) l m → ⊥ }
    ensures not_the_option { (l : List Parsed) (m : Mistake)
        → StopsAt (demanding_sample (mode ∷ []) true) (codes "-v" ∷ []) l m
        → (l ≡ option 0 None ∷ []) × (m ≡ missing_argument 0) }
    ensures not_another { (l : List Parsed) (m : Mistake)
        → StopsAt (demanding_sample [] true) (codes "-v" ∷ []) l m
        → (l ≡ option 0 None ∷ []) × (m ≡ missing_option 4) }
    ensures none_of_one { (l : List Parsed) → Means (sample (sources ∷ []) true) [] l → ⊥ }
{}

// A line has at most one of two options that exclude each other, and may have it twice. With both,
// its reading stops at the end, whichever comes first, and it means nothing.
fn lines_have_one_of_these()
    ensures first { Means exclusive_sample (codes "-v" ∷ []) (option 0 None ∷ []) }
    ensures second { Means exclusive_sample (codes "--quiet" ∷ []) (option 2 None ∷ []) }
    ensures twice { Means exclusive_sample (codes "-v" ∷ codes "-v" ∷ [])
        (option 0 None ∷ option 0 None ∷ []) }
    ensures both { StopsAt exclusive_sample (codes "-v" ∷ codes "--quiet" ∷ [])
        (option 0 None ∷ option 2 None ∷ []) (exclusive_options 0 2) }
    ensures in_the_other_order { StopsAt exclusive_sample (codes "--quiet" ∷ codes "-v" ∷ [])
        (option 2 None ∷ option 0 None ∷ []) (exclusive_options 0 2) }
    ensures nothing_meant { (l : List Parsed)
        → Means exclusive_sample (codes "-v" ∷ codes "--quiet" ∷ []) l → ⊥ }
    ensures no_other_mistake { (l : List Parsed) (m : Mistake)
        → StopsAt exclusive_sample (codes "-v" ∷ codes "--quiet" ∷ []) l m
        → (l ≡ option 0 None ∷ option 2 None ∷ []) × (m ≡ exclusive_options 0 2) }
{}

// What is read of lists, where `-o` has the default f and `--mode` the default slow.
fn defaults_come_before_what_was_read()
    ensures both { with_defaults options_with_defaults (option 1 None ∷ positional (codes "a") ∷ [])
        ≡ option 0 (Some (codes "f")) ∷ option 2 (Some (codes "slow")) ∷ option 1 None
        ∷ positional (codes "a") ∷ [] }
    ensures one { with_defaults options_with_defaults (option 0 (Some (codes "g")) ∷ [])
        ≡ option 2 (Some (codes "slow")) ∷ option 0 (Some (codes "g")) ∷ [] }
    ensures twice { with_defaults options_with_defaults
        (option 2 (Some (codes "fast")) ∷ option 0 (Some (codes "f")) ∷ option 2 (Some (codes "slow"))
        ∷ [])
        ≡ option 2 (Some (codes "fast")) ∷ option 0 (Some (codes "f"))
        ∷ option 2 (Some (codes "slow")) ∷ [] }
    ensures no_words { with_defaults options_with_defaults []
        ≡ option 0 (Some (codes "f")) ∷ option 2 (Some (codes "slow")) ∷ [] }
    ensures none_declared { with_defaults sample_options (option 0 None ∷ []) ≡ option 0 None ∷ [] }
{}

// What the option at an index asks for, and what the first option that asks for anything asks for.
fn options_ask()
    ensures help { asked_at (asks_for_version ∷ asks_for_help ∷ []) 1 ≡ Some for_help }
    ensures version { asked_at (asks_for_version ∷ asks_for_help ∷ []) 0
        ≡ Some (for_version (codes "1.0")) }
    ensures nothing { asked_at (asks_for_help ∷ verbose ∷ []) 1 ≡ None }
    ensures no_option { asked_at (asks_for_help ∷ []) 1 ≡ None }
    ensures with_a_value { asked_by (record output { asks = Some for_help } ∷ [])
        (option 0 (Some (codes "f"))) ≡ Some for_help }
    ensures with_several_values { asked_by (record exclude { asks = Some for_help } ∷ [])
        (several 0 (codes "a" ∷ [])) ≡ Some for_help }
    ensures positional { asked_by (asks_for_help ∷ []) (positional (codes "-h")) ≡ None }
    ensures none { first_asked (asks_for_help ∷ []) [] ≡ None }
    ensures first { first_asked (asks_for_version ∷ asks_for_help ∷ [])
        (option 1 None ∷ option 0 None ∷ []) ≡ Some for_help }
    ensures later { first_asked (asks_for_help ∷ verbose ∷ [])
        (option 1 None ∷ positional (codes "a") ∷ option 0 None ∷ []) ≡ Some for_help }
{}

// What was read before a mistake. An option with an unexpected value is the mistake, and not part
// of it.
fn options_are_read_before_mistakes()
    ensures all_but_none { all_but_last [] ≡ [] }
    ensures all_but_one { all_but_last (option 0 None ∷ []) ≡ [] }
    ensures all_but_the_last { all_but_last (option 0 None ∷ option 1 None ∷ option 2 None ∷ [])
        ≡ option 0 None ∷ option 1 None ∷ [] }
    ensures given_a_value { parsed_before (unexpected_value (codes "-v") (codes "1"))
        (option 1 None ∷ option 0 None ∷ []) ≡ option 1 None ∷ [] }
    ensures not_declared { parsed_before (unknown_option (short 0x7A) no_tail) (option 0 None ∷ [])
        ≡ option 0 None ∷ [] }
    ensures no_value { parsed_before (missing_value 1 (codes "-o")) (option 0 None ∷ [])
        ≡ option 0 None ∷ [] }
    ensures not_accepted { parsed_before (invalid_value 1 (codes "medium")) (option 0 None ∷ [])
        ≡ option 0 None ∷ [] }
    ensures one_too_many { parsed_before (unexpected_argument (codes "a")) (option 0 None ∷ [])
        ≡ option 0 None ∷ [] }
    ensures word_not_accepted { parsed_before (invalid_argument 0 (codes "fats"))
        (option 0 None ∷ []) ≡ option 0 None ∷ [] }
    ensures one_too_few { parsed_before (missing_argument 0) (option 0 None ∷ [])
        ≡ option 0 None ∷ [] }
    ensures option_missing { parsed_before (missing_option 4) (option 0 None ∷ [])
        ≡ option 0 None ∷ [] }
    ensures options_excluded { parsed_before (exclusive_options 0 2) (option 2 None ∷ option 0 None ∷ [])
        ≡ option 2 None ∷ option 0 None ∷ [] }
{}

// Lines that ask for something.
fn lines_ask()
    ensures by_a_long_name { AskFor (asking_sample (files ∷ []) true) (codes "--help" ∷ [])
        for_help }
    ensures by_a_character { AskFor (asking_sample (files ∷ []) false) (codes "-h" ∷ [])
        for_help }
    ensures in_a_cluster { AskFor (asking_sample (files ∷ []) true) (codes "-vh" ∷ []) for_help }
    ensures where_an_argument_is_missing { AskFor (asking_sample (mode ∷ []) true)
        (codes "--help" ∷ []) for_help }
    ensures where_an_option_is_missing { AskFor
        (record (sample [] true) { options = user ∷ asks_for_help ∷ [] }) (codes "--help" ∷ [])
        for_help }
    ensures before_a_mistake { AskFor (asking_sample [] true) (codes "--help" ∷ codes "a" ∷ [])
        for_help }
    ensures before_a_value { AskFor (listed_sample [] true)
        (codes "--help" ∷ codes "--mode=medium" ∷ []) for_help }
    ensures after_a_value { AskFor (listed_sample [] true)
        (codes "--mode=fast" ∷ codes "--help" ∷ []) for_help }
    ensures for_the_version { AskFor (asking_sample (files ∷ []) true)
        (codes "--version" ∷ codes "-h" ∷ []) (for_version (codes "1.0")) }
    ensures under_its_setting { AskFor (asking_sample (files ∷ []) false)
        (codes "-h=1" ∷ []) for_help }
{}

// What lines do not ask for.
fn lines_do_not_ask()
    ensures with_a_value { (a : Asked) → AskFor (asking_sample (files ∷ []) true)
        (codes "--help=1" ∷ []) a → ⊥ }
    ensures in_a_cluster_with_a_value { (a : Asked) → AskFor (asking_sample (files ∷ []) true)
        (codes "-h=1" ∷ []) a → ⊥ }
    ensures for_the_second { (a : Asked) → AskFor (asking_sample (files ∷ []) true)
        (codes "--version" ∷ codes "-h" ∷ []) a → a ≡ for_version (codes "1.0") }
    ensures after_a_mistake { (a : Asked) → AskFor (asking_sample [] true)
        (codes "-z" ∷ codes "--help" ∷ []) a → ⊥ }
    ensures after_a_value { (a : Asked) → AskFor (listed_sample [] true)
        (codes "--mode=medium" ∷ codes "--help" ∷ []) a → ⊥ }
    ensures by_a_refused_value { (a : Asked) → AskFor (record (sample [] true) {
      options = record listed_mode { asks = Some for_help } ∷ [];
    }) (codes "-mmedium" ∷ []) a → ⊥ }
    ensures after_the_separator { (a : Asked) → AskFor (asking_sample (files ∷ []) true)
        (codes "--" ∷ codes "--help" ∷ []) a → ⊥ }
{}

// The distance of two lists of characters. A swap is one edit, and what was swapped is not edited
// again.
fn texts_are_so_far_apart()
    ensures swapped { IsDistance (codes "verbsoe") (codes "verbose") 1 }
    ensures not_edited_again { IsDistance (codes "ca") (codes "abc") 3 }
    ensures replaced { IsDistance (codes "kitten") (codes "sitting") 3 }
    ensures left_out { IsDistance (codes "outtput") (codes "output") 1 }
    ensures inserted { IsDistance (codes "outpt") (codes "output") 1 }
    ensures from_nothing { IsDistance [] (codes "abc") 3 }
    ensures same { IsDistance (codes "abc") (codes "abc") 0 }
    ensures no_more { IsDistance (codes "verbsoe") (codes "verbose") 2 → ⊥ }
{}

// The name nearest to one that was typed. It is near up to a third of the number of characters
// typed, and of two at the same distance it is the first. C3 A9 is one character.
fn names_are_near()
    ensures of_four { IsNearest (long_names sample_options) (codes "verbsoe") (Some 0) }
    ensures tie { IsNearest (codes "bar" ∷ codes "baz" ∷ []) (codes "bax") (Some 0) }
    ensures nearer { IsNearest (codes "outputs" ∷ codes "output" ∷ []) (codes "ouptut") (Some 1) }
    ensures a_third { IsNearest (codes "abd" ∷ []) (codes "abc") (Some 0) }
    ensures more_than_a_third { IsNearest (codes "abc" ∷ []) (codes "ab") None }
    ensures characters { IsNearest ((0xC3 ∷ 0xA9 ∷ codes "ab") ∷ []) (codes "eab") (Some 0) }
    ensures typed_characters { IsNearest (codes "eab" ∷ []) (0xC3 ∷ 0xA9 ∷ codes "ab") (Some 0) }
    ensures far { IsNearest (long_names sample_options) (codes "colour") None }
    ensures no_long_name { IsNearest (long_names (record verbose { long_name = None } ∷ []))
        (codes "verbose") None }
    ensures not_the_second { IsNearest (codes "bar" ∷ codes "baz" ∷ []) (codes "bax") (Some 1)
        → ⊥ }
    ensures not_the_farther { IsNearest (codes "outputs" ∷ codes "output" ∷ []) (codes "ouptut")
        (Some 0) → ⊥ }
    ensures not_none { IsNearest (long_names sample_options) (codes "verbsoe") None → ⊥ }
{}

// The names that begin or end with what was typed.
fn names_begin_or_end_so()
    ensures all { long_names sample_options
        ≡ codes "verbose" ∷ codes "output" ∷ codes "backup" ∷ codes "exclude" ∷ [] }
    ensures no_name { long_names (record verbose { long_name = None } ∷ []) ≡ [] }
    ensures no_hidden_option { long_names hiding_options ≡ codes "verbose" ∷ [] }
    ensures third { beginning (long_names sample_options) (codes "back") ≡ codes "backup" ∷ [] }
    ensures two { beginning (codes "outer" ∷ long_names sample_options) (codes "out")
        ≡ codes "outer" ∷ codes "output" ∷ [] }
    ensures five_of_six { beginning names_in_re (codes "re") ≡ codes "recursive"
        ∷ codes "reference" ∷ codes "regexp" ∷ codes "remove" ∷ codes "replace" ∷ [] }
    ensures sixth { beginning names_in_re (codes "rev") ≡ codes "reverse" ∷ [] }
    ensures inside { beginning (long_names sample_options) (codes "put") ≡ [] }
    ensures shorter { beginning (codes "verb" ∷ []) (codes "verbose") ≡ [] }
    ensures nothing { beginning (long_names sample_options) [] ≡ [] }
    ensures none_of_none { if_one [] ≡ [] }
    ensures one_of_one { if_one (codes "a" ∷ []) ≡ codes "a" ∷ [] }
    ensures none_of_two { if_one (codes "a" ∷ codes "b" ∷ []) ≡ [] }
    ensures ends { ending (long_names sample_options) (codes "put") ≡ codes "output" ∷ [] }
    ensures begins { ending (long_names sample_options) (codes "out") ≡ [] }
    ensures ends_shorter { ending (codes "bose" ∷ []) (codes "verbose") ≡ [] }
    ensures two_end { ending (codes "input" ∷ long_names sample_options) (codes "put") ≡ [] }
    ensures near { hinted_names (long_names sample_options) (codes "back") (Some 1)
        ≡ codes "output" ∷ [] }
    ensures not_near { hinted_names (long_names sample_options) (codes "back") None
        ≡ codes "backup" ∷ [] }
{}

// The long names that the hint has.
fn names_are_hinted_at()
    ensures near { IsHint sample_options (long (codes "verbsoe")) no_tail (codes "verbose" ∷ []) }
    ensures far { IsHint sample_options (long (codes "colour")) no_tail [] }
    ensures not_far { IsHint sample_options (long (codes "colour")) no_tail (codes "output" ∷ [])
        → ⊥ }
    ensures exactly_one { IsHint sample_options (long (codes "verb")) no_tail
        (codes "verbose" ∷ []) }
    ensures several { IsHint (named (codes "outer") ∷ sample_options) (long (codes "out")) no_tail
        (codes "outer" ∷ codes "output" ∷ []) }
    ensures not_the_first_alone { IsHint (named (codes "outer") ∷ sample_options)
        (long (codes "out")) no_tail (codes "outer" ∷ []) → ⊥ }
    ensures in_no_other_order { IsHint (named (codes "outer") ∷ sample_options)
        (long (codes "out")) no_tail (codes "output" ∷ codes "outer" ∷ []) → ⊥ }
    ensures more_than_five { IsHint (map named names_in_re) (long (codes "re")) no_tail
        (codes "recursive" ∷ codes "reference" ∷ codes "regexp" ∷ codes "remove"
        ∷ codes "replace" ∷ []) }
    ensures not_the_sixth { IsHint (map named names_in_re) (long (codes "re")) no_tail names_in_re
        → ⊥ }
    ensures empty_name { IsHint sample_options (long []) no_tail [] }
    ensures empty_name_of_one { IsHint (named (codes "verbose") ∷ []) (long []) no_tail
        (codes "verbose" ∷ []) → ⊥ }
    ensures near_before_longer { IsHint (named (codes "outputs") ∷ sample_options)
        (long (codes "outpu")) no_tail (codes "output" ∷ []) }
    ensures nearest_alone { IsHint (named (codes "outputs") ∷ sample_options)
        (long (codes "outpu")) no_tail (codes "outputs" ∷ codes "output" ∷ []) → ⊥ }
    ensures hidden_option { IsHint hiding_options (long (codes "ouptut")) no_tail [] }
    ensures not_the_hidden_option { IsHint hiding_options (long (codes "ouptut")) no_tail
        (codes "output" ∷ []) → ⊥ }
    ensures beside_a_hidden_option { IsHint hiding_options (long (codes "verbsoe")) no_tail
        (codes "verbose" ∷ []) }
    ensures character { IsHint sample_options (short 0x65) no_tail [] }
    ensures no_character { IsHint sample_options (short 0x65) no_tail (codes "verbose" ∷ [])
        → ⊥ }
    ensures cluster { IsHint sample_options (short 0x76) (rest (codes "erbose"))
        (codes "verbose" ∷ []) }
    ensures cluster_later { IsHint sample_options (short 0x65) (rest (codes "rbose"))
        (codes "verbose" ∷ []) }
    ensures cluster_of_a_hidden_option { IsHint hiding_options (short 0x75) (rest (codes "tput"))
        [] }
    ensures cluster_of_the_rest { IsHint sample_options (short 0x7A) (rest (codes "erbose")) [] }
    ensures cluster_of_two_bytes { IsHint (named (0xC3 ∷ 0xA9 ∷ codes "t") ∷ []) (short 0xE9)
        (rest (codes "t")) ((0xC3 ∷ 0xA9 ∷ codes "t") ∷ []) }
    ensures cluster_with_a_value { IsHint sample_options (short 0x65) (rest (codes "=rbose")) [] }
    ensures damaged_cluster { IsHint sample_options (short 0x65) (rest (0xFF ∷ codes "rbose")) [] }
    ensures cluster_of_two { IsHint (named (codes "re-verbose") ∷ sample_options) (short 0x76)
        (rest (codes "erbose")) [] }
{}

// The spellings of options, and the options that they spell.
#[tactic(auto, unfolding(lexopt_line_spec::proofs::Computing::computing))]
fn spellings_are_listed()
    ensures character { spelling (short 0x76) ≡ codes "-v" }
    ensures two_bytes { spelling (short 0xE9) ≡ 0x2D ∷ 0xC3 ∷ 0xA9 ∷ [] }
    ensures long_name { spelling (long (codes "verbose")) ≡ codes "--verbose" }
    ensures both { names_of verbose ≡ short 0x76 ∷ long (codes "verbose") ∷ [] }
    ensures long_name_alone { names_of (named (codes "quiet")) ≡ long (codes "quiet") ∷ [] }
    ensures character_alone { names_of (record verbose { long_name = None }) ≡ short 0x76 ∷ [] }
    ensures all { texts (spellings sample_options) ≡ codes "-v" ∷ codes "--verbose" ∷ codes "-o"
        ∷ codes "--output" ∷ codes "-b" ∷ codes "--backup" ∷ codes "-x" ∷ codes "--exclude" ∷ [] }
    ensures option { IsOption 1 (option 1 (Some (codes "x"))) }
    ensures several { IsOption 3 (several 3 (codes "a" ∷ [])) }
    ensures not_another { IsOption 1 (option 2 None) → ⊥ }
    ensures several_of_another { IsOption 1 (several 3 (codes "a" ∷ [])) → ⊥ }
    ensures no_positional { IsOption 1 (positional (codes "a")) → ⊥ }
{}

// Names that are text, and some that are not: U+D800 is not a character, and FF is not UTF-8.
fn names_are_text()
    ensures character { IsText (short 0xE9) }
    ensures no_character { IsText (short 0xD800) → ⊥ }
    ensures long_name { IsText (long (0xC3 ∷ 0xA9 ∷ [])) }
    ensures no_text { IsText (long (0xFF ∷ [])) → ⊥ }
    ensures sample { AreText sample_options }
    ensures not_the_second { AreText (verbose ∷ named (0xFF ∷ []) ∷ []) → ⊥ }
{}

// Words after which an option can come, and options that can come after them.
fn options_can_occur()
    ensures at_the_start { IsOpen (sample [] true) [] [] }
    ensures after_a_flag { IsOpen (sample [] true) (codes "-v" ∷ []) (option 0 None ∷ []) }
    ensures after_an_optional_value { IsOpen (sample [] true) (codes "-b" ∷ [])
        (option 2 None ∷ []) }
    ensures after_a_value { IsOpen (sample [] true) (codes "-o" ∷ codes "f" ∷ [])
        (option 1 (Some (codes "f")) ∷ []) }
    ensures after_several_values { IsOpen (sample [] true) (codes "-x" ∷ codes "a" ∷ [])
        (several 3 (codes "a" ∷ []) ∷ []) }
    ensures before_a_positional { IsOpen (sample (mode ∷ []) true) [] [] }
    ensures first { CanOccur (sample (mode ∷ []) true) [] (codes "--output") }
    ensures again { CanOccur (sample [] true) (codes "-v" ∷ []) (codes "-v") }
    ensures another { CanOccur (sample [] true) (codes "-b" ∷ []) (codes "-x") }
    ensures past_values { CanOccur (sample [] true) (codes "-x" ∷ codes "a" ∷ [])
        (codes "--verbose") }
    ensures hidden { CanOccur hiding_sample [] (codes "--output") }
    ensures without_a_required_option { IsOpen (demanding_sample [] true) (codes "-v" ∷ [])
        (option 0 None ∷ []) }
    ensures before_a_required_option { CanOccur (demanding_sample [] true) (codes "-v" ∷ [])
        (codes "--output") }
    ensures required { CanOccur (demanding_sample [] true) (codes "-v" ∷ []) (codes "--user") }
    ensures required_character { CanOccur (demanding_sample [] true) (codes "-v" ∷ [])
        (codes "-u") }
    ensures required_with_a_positional { CanOccur (demanding_sample (mode ∷ []) true) []
        (codes "--user") }
    ensures after_a_word { CanOccur (sample (mode_in_list ∷ files ∷ []) true) (codes "fast" ∷ [])
        (codes "--verbose") }
    ensures before_words { CanOccur (sample (sources ∷ form_in_list ∷ []) true) (codes "a" ∷ [])
        (codes "--verbose") }
{}

// Words after which no option can come, and options that cannot come.
fn options_cannot_occur()
    ensures not_declared { CanOccur (sample [] true) [] (codes "-z") → ⊥ }
    ensures cluster { CanOccur (sample [] true) [] (codes "-vo") → ⊥ }
    ensures joined_value { CanOccur (sample [] true) [] (codes "--output=f") → ⊥ }
    ensures separator { CanOccur (sample [] true) [] (codes "--") → ⊥ }
    ensures value_due { (s : List ℕ) → CanOccur (sample [] true) (codes "-o" ∷ []) s → ⊥ }
    ensures first_value_due { (s : List ℕ) → CanOccur (sample [] true) (codes "-x" ∷ []) s → ⊥ }
    ensures after_the_separator { (s : List ℕ)
        → CanOccur (sample (files ∷ []) true) (codes "--" ∷ []) s → ⊥ }
    ensures past_the_separator { (s : List ℕ)
        → CanOccur (sample (files ∷ []) true) (codes "--" ∷ codes "a" ∷ []) s → ⊥ }
    ensures after_a_mistake { (s : List ℕ) → CanOccur (sample [] true) (codes "-z" ∷ []) s → ⊥ }
    ensures after_a_refused_value { (s : List ℕ)
        → CanOccur (listed_sample [] true) (codes "-mmedium" ∷ []) s → ⊥ }
    ensures after_a_refused_word { (s : List ℕ)
        → CanOccur (sample (mode_in_list ∷ files ∷ []) true) (codes "fats" ∷ []) s → ⊥ }
    ensures not_open { (l : List Parsed) → IsOpen (sample (files ∷ []) true) (codes "--" ∷ []) l
        → ⊥ }
    ensures not_open_to_an_option { (l : List Parsed) → IsOpen (sample [] true) (codes "-o" ∷ []) l
        → ⊥ }
{}

// What was typed, and what can come there. C3 begins a character of two bytes.
fn what_is_typed_is_completed()
    ensures front { Completes (sample [] true) [] (codes "--out") (codes "--output") }
    ensures whole { Completes (sample [] true) [] (codes "-v") (codes "-v") }
    ensures nothing { Completes (sample [] true) (codes "-v" ∷ []) [] (codes "--backup") }
    ensures required { Completes (demanding_sample [] true) (codes "-v" ∷ []) (codes "--us")
        (codes "--user") }
    ensures beside_a_hidden_option { Completes hiding_sample [] (codes "--") (codes "--verbose") }
    ensures hidden_option { Completes hiding_sample [] (codes "--") (codes "--output") → ⊥ }
    ensures front_of_a_hidden_option { Completes hiding_sample [] (codes "--outpu")
        (codes "--output") → ⊥ }
    ensures whole_hidden_option { Completes hiding_sample [] (codes "-o") (codes "-o") }
    ensures another { Completes (sample [] true) [] (codes "--in") (codes "--output") → ⊥ }
    ensures no_option { Completes (sample [] true) [] (codes "-z") (codes "-z") → ⊥ }
    ensures again_beside_an_exclusive_option { Completes exclusive_sample (codes "-v" ∷ [])
        (codes "--verb") (codes "--verbose") }
    ensures excluded { Completes exclusive_sample (codes "-v" ∷ []) (codes "--q") (codes "--quiet")
        → ⊥ }
    ensures excluded_whole { Completes exclusive_sample (codes "-v" ∷ []) (codes "--quiet")
        (codes "--quiet") → ⊥ }
    ensures part_of_a_character { (d : Declaration) (words : List (List ℕ))
        → Completes d words (0x2D ∷ 0xC3 ∷ []) (0x2D ∷ 0xC3 ∷ 0xA9 ∷ []) → ⊥ }
{}

// What a word is, by what is read of it, and the value of an option.
fn roles_are_by_the_last_parsed()
    ensures of_an_option { role_of [] (option 1 (Some (codes "x"))) ≡ value 1 }
    ensures of_several { role_of (option 0 None ∷ []) (several 3 (codes "a" ∷ [])) ≡ value 3 }
    ensures positional { role_of [] (positional (codes "a")) ≡ argument [] }
    ensures second_positional { role_of (option 0 None ∷ positional (codes "a") ∷ option 0 None
        ∷ []) (positional (codes "b")) ≡ argument (codes "a" ∷ []) }
    ensures one_value { value_of (option 1 (Some (codes "x"))) ≡ Some (codes "x") }
    ensures without_a_value { value_of (option 1 None) ≡ None }
    ensures first_of_several { value_of (several 3 (codes "a" ∷ codes "b" ∷ []))
        ≡ Some (codes "a") }
    ensures word { value_of (positional (codes "a")) ≡ None }
{}

// Values that are typed in the word of their option.
fn values_are_joined()
    ensures after_no_words { IsJoined (sample [] true) [] (codes "--output=fi")
        (joined_after 1 (codes "--output=")) }
    ensures after_a_flag { IsJoined (sample [] true) (codes "-v" ∷ []) (codes "--output=fi")
        (joined_after 1 (codes "--output=")) }
    ensures in_a_cluster { IsJoined (sample [] true) [] (codes "-vofi")
        (joined_after 1 (codes "-vo")) }
    ensures after_a_sign { IsJoined (sample [] true) [] (codes "-o=fi") (joined_after 1 (codes "-o=")) }
    ensures without_the_setting { IsJoined (sample [] false) [] (codes "-o=fi")
        (joined_after 1 (codes "-o")) }
    ensures one_of_several { IsJoined (sample [] true) [] (codes "-xa") (joined_after 3 (codes "-x")) }
    ensures flag { IsJoined (sample [] true) [] (codes "--verbose=fi") None }
    ensures after_the_separator { IsJoined (sample (files ∷ []) true) (codes "--" ∷ [])
        (codes "--output=fi") None }
    ensures value_due { IsJoined (sample [] true) (codes "-o" ∷ []) (codes "--output=fi") None }
    ensures no_value { IsJoined (sample [] true) [] (codes "-b") None }
{}

// What is not such a value, or not of that option, or not after that text.
fn values_are_not_joined()
    ensures not_none { IsJoined (sample [] true) [] (codes "--output=fi") None → ⊥ }
    ensures not_another { IsJoined (sample [] true) [] (codes "--output=fi")
        (joined_after 2 (codes "--output=")) → ⊥ }
    ensures not_more_before { IsJoined (sample [] true) [] (codes "--output=fi")
        (joined_after 1 (codes "--output=f")) → ⊥ }
    ensures flag { IsJoined (sample [] true) [] (codes "--verbose=fi")
        (joined_after 0 (codes "--verbose=")) → ⊥ }
    ensures after_the_separator { IsJoined (sample (files ∷ []) true) (codes "--" ∷ [])
        (codes "--output=fi") (joined_after 1 (codes "--output=")) → ⊥ }
    ensures no_value { IsJoined (sample [] true) [] (codes "-b") (joined_after 2 (codes "-b")) → ⊥ }
{}

// What the next word is after words, and words that no line begins with.
fn words_leave_states()
    ensures after_a_flag { Leaves (sample (files ∷ []) true) (codes "-v" ∷ [])
        (option 0 None ∷ []) anything }
    ensures after_a_positional { Leaves (sample (files ∷ []) true) (codes "a" ∷ [])
        (positional (codes "a") ∷ []) anything }
    ensures no_more_positionals { Leaves (sample [] true) (codes "-v" ∷ []) (option 0 None ∷ [])
        anything }
    ensures after_an_optional_value { Leaves (sample (files ∷ []) true) (codes "-b" ∷ [])
        (option 2 None ∷ []) anything }
    ensures value_due { Leaves (sample [] true) (codes "-o" ∷ []) [] (due 1) }
    ensures first_value_due { Leaves (sample [] true) (codes "-x" ∷ []) [] (first 3) }
    ensures one_more_value { Leaves (sample [] true) (codes "-x" ∷ codes "a" ∷ [])
        (several 3 (codes "a" ∷ []) ∷ []) (further 3) }
    ensures after_the_separator { Leaves (sample (files ∷ []) true) (codes "--" ∷ []) [] ended }
    ensures after_a_mistake { LeadsNowhere (sample (files ∷ []) true) (codes "-z" ∷ []) }
{}

// What a word is that is not an option, where no dash was typed first.
fn plain_words_have_roles()
    ensures after_a_flag { (typed : List ℕ) → (¬ BeginsWith dash typed)
        → HasRole (sample (files ∷ []) true) (codes "-v" ∷ []) typed (Some (argument [])) }
    ensures after_a_positional { (typed : List ℕ) → (¬ BeginsWith dash typed)
        → HasRole (sample (files ∷ []) true) (codes "a" ∷ []) typed
        (Some (argument (codes "a" ∷ []))) }
    ensures no_more_positionals { (typed : List ℕ) → (¬ BeginsWith dash typed)
        → HasRole (sample [] true) (codes "-v" ∷ []) typed None }
    ensures after_an_optional_value { (typed : List ℕ) → (¬ BeginsWith dash typed)
        → HasRole (sample (files ∷ []) true) (codes "-b" ∷ []) typed (Some (argument [])) }
    ensures value_due { (typed : List ℕ) → (¬ BeginsWith dash typed)
        → HasRole (sample [] true) (codes "-o" ∷ []) typed (Some (value 1)) }
    ensures first_value_due { (typed : List ℕ) → (¬ BeginsWith dash typed)
        → HasRole (sample [] true) (codes "-x" ∷ []) typed (Some (value 3)) }
    ensures one_more_value { (typed : List ℕ) → (¬ BeginsWith dash typed)
        → HasRole (sample [] true) (codes "-x" ∷ codes "a" ∷ []) typed (Some (value 3)) }
    ensures after_the_separator { (typed : List ℕ) → (¬ BeginsWith dash typed)
        → HasRole (sample (files ∷ []) true) (codes "--" ∷ []) typed (Some (argument [])) }
    ensures after_a_mistake { (typed : List ℕ) → (¬ BeginsWith dash typed)
        → HasRole (sample (files ∷ []) true) (codes "-z" ∷ []) typed None }
{}

// What it is where a dash was typed first.
fn dashed_words_have_roles()
    ensures after_a_flag { (typed : List ℕ) → BeginsWith dash typed
        → HasRole (sample (files ∷ []) true) (codes "-v" ∷ []) typed None }
    ensures after_an_optional_value { (typed : List ℕ) → BeginsWith dash typed
        → HasRole (sample (files ∷ []) true) (codes "-b" ∷ []) typed None }
    ensures value_due { (typed : List ℕ) → BeginsWith dash typed
        → HasRole (sample [] true) (codes "-o" ∷ []) typed (Some (value 1)) }
    ensures first_value_due { (typed : List ℕ) → BeginsWith dash typed
        → HasRole (sample [] true) (codes "-x" ∷ []) typed None }
    ensures one_more_value { (typed : List ℕ) → BeginsWith dash typed
        → HasRole (sample [] true) (codes "-x" ∷ codes "a" ∷ []) typed None }
    ensures after_the_separator { (typed : List ℕ) → BeginsWith dash typed
        → HasRole (sample (files ∷ []) true) (codes "--" ∷ []) typed (Some (argument [])) }
    ensures after_a_mistake { (typed : List ℕ) → BeginsWith dash typed
        → HasRole (sample (files ∷ []) true) (codes "-z" ∷ []) typed None }
{}

// Words that are longer than what was typed, and not an option.
fn words_are_longer()
    ensures anything { Extends [] (codes "a") }
    ensures more_of_it { Extends (codes "f") (codes "fi") }
    ensures a_dash_alone { Extends [] (codes "-") }
    ensures dashed { Extends (codes "-") (codes "-x") }
    ensures not_shorter { Extends (codes "fi") (codes "f") → ⊥ }
    ensures not_the_same { Extends (codes "f") (codes "f") → ⊥ }
    ensures not_another { Extends (codes "f") (codes "a") → ⊥ }
    ensures not_an_option { Extends [] (codes "-x") → ⊥ }
{}

// What ends with a word.
fn what_is_read_ends_with_words()
    ensures value { EndsWith (codes "a") (option 1 (Some (codes "a"))) }
    ensures last_of_several { EndsWith (codes "b") (several 3 (codes "a" ∷ codes "b" ∷ [])) }
    ensures positional { EndsWith (codes "a") (positional (codes "a")) }
    ensures not_without_a_value { EndsWith (codes "a") (option 1 None) → ⊥ }
    ensures not_another_value { EndsWith (codes "-oa") (option 1 (Some (codes "a"))) → ⊥ }
    ensures not_the_first_of_several { EndsWith (codes "a") (several 3 (codes "a" ∷ codes "b" ∷ [])) → ⊥ }
    ensures not_another_positional { EndsWith (codes "a") (positional (codes "b")) → ⊥ }
{}

// The forms that labels show.
fn forms_are_shown()
    ensures short_flag { LabelForm verbose (codes "-v") (codes "-v" ∷ []) (spec.option (short 0x76) None) }
    ensures short_one { LabelForm output (codes "-o") (codes "-o" ∷ codes "FILE" ∷ [])
        (spec.option (short 0x6F) (Some (codes "FILE"))) }
    ensures short_optional { LabelForm backup (codes "-b[SUFFIX]") (codes "-b" ∷ []) (spec.option (short 0x62) None) }
    ensures short_optional_value { LabelForm backup (codes "-b[SUFFIX]") (codes "-bSUFFIX" ∷ [])
        (spec.option (short 0x62) (Some (codes "SUFFIX"))) }
    ensures short_several { LabelForm exclude (codes "-x") (codes "-x" ∷ codes "PATTERN" ∷ [])
        (many (short 0x78) (codes "PATTERN" ∷ [])) }
    ensures long_flag { LabelForm verbose (codes "--verbose") (codes "--verbose" ∷ [])
        (spec.option (long (codes "verbose")) None) }
    ensures long_one { LabelForm output (codes "--output=FILE") (codes "--output=FILE" ∷ [])
        (spec.option (long (codes "output")) (Some (codes "FILE"))) }
    ensures long_optional { LabelForm backup (codes "--backup[=SUFFIX]") (codes "--backup" ∷ [])
        (spec.option (long (codes "backup")) None) }
    ensures long_optional_value { LabelForm backup (codes "--backup[=SUFFIX]") (codes "--backup=SUFFIX" ∷ [])
        (spec.option (long (codes "backup")) (Some (codes "SUFFIX"))) }
    ensures long_several { LabelForm exclude (codes "--exclude PATTERN...")
        (codes "--exclude" ∷ codes "PATTERN" ∷ [])
        (many (long (codes "exclude")) (codes "PATTERN" ∷ [])) }
    ensures flag_beside { LabelForm (record (named (codes "quiet")) { beside = a_flag 0x71 })
        (codes "-q") (codes "-q" ∷ []) (spec.option (short 0x71) None) }
    ensures negated_flag { LabelForm (record verbose { beside = negation })
        (codes "--[no-]verbose") (codes "--no-verbose" ∷ [])
        (spec.option (long (codes "no-verbose")) None) }
    ensures negated { LabelForm (record verbose { beside = negation })
        (codes "--[no-]verbose") (codes "--verbose" ∷ []) (spec.option (long (codes "verbose")) None) }
    ensures text_names { HasTextNames verbose }
    ensures no_character { HasTextNames (record verbose { short_name = Some 0xD800 }) → ⊥ }
    ensures no_text { HasTextNames (named (0xFF ∷ [])) → ⊥ }
{}

// Labels and help texts in columns. A label of 20 columns leaves room for two blanks before column
// 24.
fn texts_are_laid_out()
    ensures label_of_verbose { label verbose ≡ codes "-v, --verbose" }
    ensures label_of_output { label output ≡ codes "-o, --output=FILE" }
    ensures no_label { label_of nothing None None flag [] ≡ [] }
    ensures line { line_text (codes "tell" ∷ codes "me" ∷ codes "more" ∷ [])
        ≡ codes "tell me more" }
    ensures columns_of_a_line { line_columns (codes "tell" ∷ (0x65 ∷ 0xCC ∷ 0x81 ∷ []) ∷ []) ≡ 6 }
    ensures no_columns { line_columns [] ≡ 0 }
    ensures three_blanks { blanks 3 ≡ codes "   " }
    ensures next_to_it { gap 24 (codes "-v, --verbose") ≡ codes "         " }
    ensures two_blanks { gap 24 (codes "-x, --exclude=ABCDEF") ≡ codes "  " }
    ensures on_the_next_line { gap 24 (codes "-x, --exclude=ABCDEFG")
        ≡ codes "\n                        " }
    ensures nothing_beside { beside 24 (codes "-v") [] ≡ [] }
    ensures two_lines { beside 6 (codes "-v") ((codes "tell" ∷ []) ∷ (codes "more" ∷ []) ∷ [])
        ≡ codes "  tell\n      more" }
    ensures entry { entry 6 (codes "-v") ((codes "tell" ∷ []) ∷ []) ≡ codes "  -v  tell\n" }
    ensures label_alone { entry 6 (codes "-v") [] ≡ codes "  -v\n" }
{}

// How words are wrapped, and how they are not.
fn words_are_put_on_lines()
    ensures two_lines { Wraps 8 (codes "tell" ∷ codes "me" ∷ codes "more" ∷ [])
        ((codes "tell" ∷ codes "me" ∷ []) ∷ (codes "more" ∷ []) ∷ []) }
    ensures exactly { Wraps 7 (codes "tell" ∷ codes "me" ∷ [])
        ((codes "tell" ∷ codes "me" ∷ []) ∷ []) }
    ensures long_word { Wraps 3 (codes "leave" ∷ codes "me" ∷ [])
        ((codes "leave" ∷ []) ∷ (codes "me" ∷ []) ∷ []) }
    ensures no_words { Wraps 8 [] [] }
    ensures not_full { Wraps 7 (codes "tell" ∷ codes "me" ∷ [])
        ((codes "tell" ∷ []) ∷ (codes "me" ∷ []) ∷ []) → ⊥ }
    ensures room_for_one_word { Wraps 8 (codes "tell" ∷ codes "me" ∷ codes "more" ∷ [])
        ((codes "tell" ∷ []) ∷ (codes "me" ∷ codes "more" ∷ []) ∷ []) → ⊥ }
    ensures not_full_later { Wraps 4
        (codes "tell" ∷ codes "me" ∷ codes "a" ∷ [])
        ((codes "tell" ∷ []) ∷ (codes "me" ∷ []) ∷ (codes "a" ∷ []) ∷ []) → ⊥ }
    ensures too_wide { Wraps 6 (codes "tell" ∷ codes "me" ∷ [])
        ((codes "tell" ∷ codes "me" ∷ []) ∷ []) → ⊥ }
    ensures too_wide_later { Wraps 6 (codes "leave" ∷ codes "tell" ∷ codes "me" ∷ [])
        ((codes "leave" ∷ []) ∷ (codes "tell" ∷ codes "me" ∷ []) ∷ []) → ⊥ }
    ensures empty_line { Wraps 8 [] ([] ∷ []) → ⊥ }
    ensures out_of_order { Wraps 8 (codes "me" ∷ codes "tell" ∷ [])
        ((codes "tell" ∷ codes "me" ∷ []) ∷ []) → ⊥ }
{}

// Entries at 80 columns; at 40, where the help text begins at column 13; and at 36, where it begins
// at column 12.
fn entries_are_written()
    ensures next_to_it { IsEntry 80 (label verbose) verbose.help
        (codes "  -v, --verbose         tell more\n") }
    ensures below_it { IsEntry 80 (label backup) backup.help (codes "  -b[SUFFIX], --backup[=SUFFIX]\n                        keep an archive that is there, with this suffix\n") }
    ensures narrow { IsEntry 40 (codes "-v") (codes "tell more of what is done")
        (codes "  -v         tell more of what is done\n") }
    ensures two_lines { IsEntry 36 (codes "-v") (codes "tell more of what is done")
        (codes "  -v        tell more of what is\n            done\n") }
    ensures nothing_to_say { IsEntry 80 (label verbose) (codes "  ") (codes "  -v, --verbose\n") }
{}

// Usages: a generated line, on one line and on as many as a narrow width needs, and two lines of
// the program's own.
fn usage_lines_are_written()
    ensures one_line { IsUsage 80 (sample (mode ∷ target ∷ files ∷ []) true)
        (codes "Usage: example_archive [OPTION]... MODE [TARGET] [FILE]...\n") }
    ensures three_lines { IsUsage 30 (sample (mode ∷ target ∷ files ∷ []) true)
        (codes "Usage: example_archive\n       [OPTION]... MODE\n       [TARGET] [FILE]...\n") }
    ensures no_room { IsUsage 0 (sample [] true)
        (codes "Usage: example_archive\n       [OPTION]...\n") }
    ensures own { IsUsage 30 (record (sample (mode ∷ []) true) {
      usage = codes "SOURCE DEST" ∷ codes "SOURCE... DIRECTORY" ∷ [];
    })
        (codes "Usage: example_archive SOURCE\n       DEST\n  or:  example_archive\n       SOURCE... DIRECTORY\n") }
{}

// Paragraphs: on one line, on two, and without words.
fn paragraphs_are_written()
    ensures one_line { IsParagraph 24 (codes "Prints what it has read.")
        (codes "Prints what it has read.\n") }
    ensures two_lines { IsParagraph 12 (codes "Prints what it has read.")
        (codes "Prints what\nit has read.\n") }
    ensures nothing { IsParagraph 80 (codes " ") [] }
{}

// Whole helps: the sample of `docs/formats.md`, one with every part, and some with few parts.
fn helps_are_written()
    ensures sample { IsHelp full
        (record (sample (files ∷ []) true) { options = sample_options ++ asks_for_help ∷ [] }) 80
        (codes "Usage: example_archive [OPTION]... [FILE]...\nPrints what it has read.\n\n  -v, --verbose         tell more\n  -o, --output=FILE     the archive\n  -b[SUFFIX], --backup[=SUFFIX]\n                        keep an archive that is there, with this suffix\n  -x, --exclude PATTERN...\n                        leave these out: all words up to the next option\n  -h, --help            print this help and exit\n") }
    ensures nothing { IsHelp full (record (sample [] true) { options = []; about = [] }) 80
        (codes "Usage: example_archive\n") }
    ensures about_alone { IsHelp full (record (sample [] true) { options = [] }) 80
        (codes "Usage: example_archive\nPrints what it has read.\n") }
    ensures positionals { IsHelp full
        (record (sample (mode ∷ target ∷ files ∷ []) true) { options = []; about = [] }) 80
        (codes "Usage: example_archive MODE [TARGET] [FILE]...\n") }
    ensures every_part { IsHelp full (record (sample (mode ∷ described_files ∷ []) true) {
      options = hiding_options;
      epilogue = codes "Each file is read once." ∷ codes " " ∷ codes "No file is changed." ∷ [];
    }) 80
        (codes "Usage: example_archive [OPTION]... MODE [FILE]...\nPrints what it has read.\n\n  FILE                  a file to read\n\n  -v, --verbose         tell more\n\nEach file is read once.\n\nNo file is changed.\n") }
    ensures hidden_option { IsHelp full
        (record (sample [] true) { options = record output { hidden = true } ∷ []; about = [] }) 80
        (codes "Usage: example_archive\n") }
    ensures list { IsHelp full
        (record (sample [] true) { options = listed_mode ∷ []; about = [] }) 80
        (codes "Usage: example_archive [OPTION]...\n\n  -m, --mode=MODE       how to pack: one of fast, slow\n") }
    ensures list_of_a_positional { IsHelp full
        (record (sample (mode_in_list ∷ []) true) { options = []; about = [] }) 80
        (codes "Usage: example_archive MODE\n\n  MODE                  one of fast, slow\n") }
    ensures headings { IsHelp full
        (record (sample [] true) { options = options_with_headings; about = [] }) 80
        (codes "Usage: example_archive [OPTION]...\n\nTelling:\n  -v, --verbose         tell more\n  -o, --output=FILE     the archive\n\nOther:\n  -h, --help            print this help and exit\n") }
    ensures hidden_list { IsHelp full (record (sample [] true) {
      options = record listed_mode { hides_list = true } ∷ [];
      about = [];
    }) 80
        (codes "Usage: example_archive [OPTION]...\n\n  -m, --mode=MODE       how to pack\n") }
    ensures in_brief { IsHelp brief (record (sample [] true) {
      options = explained_mode ∷ [];
      about = [];
      epilogue = codes "No file is changed." ∷ [];
    }) 80
        (codes "Usage: example_archive [OPTION]...\n\n  -m, --mode=MODE       how to pack: one of fast, slow [default: fast]\n") }
    ensures in_full { IsHelp full (record (sample [] true) {
      options = explained_mode ∷ [];
      about = [];
      epilogue = codes "No file is changed." ∷ [];
    }) 80
        (codes "Usage: example_archive [OPTION]...\n\n  -m, --mode=MODE       How to pack. One of fast, slow. [default: fast]\n\nNo file is changed.\n") }
{}
