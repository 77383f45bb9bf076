//! Worked examples of the further names of options, and of what is wrong with an option, which the
//! definitions compute.
ghost use Rattle.std.specs.Prelude.{◌≡◌, ◌∷◌, [], None, Some, codes, false, true};
ghost use Rattle.lexopt_line_spec.specs.Table.{long, one, optional, short};
ghost use Rattle.lexopt_options_spec.specs.Completion.{offered, spellings};
ghost use Rattle.lexopt_options_spec.specs.Declarable.{fault_beside};
ghost use Rattle.lexopt_options_spec.specs.Declaration.{a_flag, bad_default, bad_exclusive};
ghost use Rattle.lexopt_options_spec.specs.Declaration.{bad_label, has};
ghost use Rattle.lexopt_options_spec.specs.Declaration.{bad_placeholder, dash_name, empty_name};
ghost use Rattle.lexopt_options_spec.specs.Declaration.{equals_in_name, files, index_of, negation};
ghost use Rattle.lexopt_options_spec.specs.Declaration.{same_name, table};
ghost use Rattle.lexopt_options_spec.specs.Examples.{also, color, other_form, voluntary_option};
ghost use Rattle.lexopt_options_spec.specs.Examples.{exclusive_option, exclusive_options};
ghost use Rattle.lexopt_options_spec.specs.Examples.{with_default_of};
ghost use Rattle.lexopt_options_spec.specs.Help.{label};
ghost use Rattle.lexopt_options_spec.specs.Legal.{clash, exclude};
ghost use Rattle.lexopt_options_spec.specs.Nearest.{long_names};

/// An option has its further names like its own.
pub fn further_names_are_read()
    ensures own { index_of (voluntary_option ∷ color ∷ []) (long (codes "color")) ≡ Some 1 }
    ensures name { index_of (voluntary_option ∷ color ∷ []) (long (codes "colour")) ≡ Some 1 }
    ensures character { index_of (voluntary_option ∷ color ∷ []) (short 0x43) ≡ Some 1 }
    ensures front { index_of (voluntary_option ∷ color ∷ []) (long (codes "colou")) ≡ None }
    ensures table { table (voluntary_option ∷ color ∷ []) ≡ record {
      shorts = [];
      longs = [];
      optional_shorts = 0x43 ∷ [];
      optional_longs = codes "color" ∷ codes "colour" ∷ [];
      several_shorts = [];
      several_longs = [];
    } }
{}

/// Nothing shows them, but they are offered where they are typed whole.
pub fn further_names_are_not_shown()
    ensures help { label color ≡ codes "    --color[=WHEN]" }
    ensures completion { offered (codes "--col") (spellings (color ∷ []))
        ≡ (codes "--color", []) ∷ [] }
    ensures whole { offered (codes "--colour") (spellings (color ∷ [])) ≡ (codes "--colour", []) ∷ [] }
    ensures whole_character { offered (codes "-C") (spellings (color ∷ [])) ≡ (codes "-C", []) ∷ [] }
    ensures dash { offered (codes "-") (spellings (color ∷ [])) ≡ (codes "--color", []) ∷ [] }
    ensures hints { long_names (color ∷ []) ≡ codes "color" ∷ [] }
{}

/// What is wrong with them is what is wrong with a name.
pub fn further_names_are_checked()
    ensures dash { fault_beside [] (also (short 0x2D ∷ []) voluntary_option) ≡ Some dash_name }
    ensures second { fault_beside [] (also (long (codes "v") ∷ long [] ∷ []) voluntary_option)
        ≡ Some empty_name }
    ensures equals_sign { fault_beside [] (also (long (codes "a=b") ∷ []) voluntary_option)
        ≡ Some equals_in_name }
    ensures of_another { fault_beside (color ∷ []) (also (long (codes "color") ∷ []) voluntary_option)
        ≡ Some same_name }
    ensures own { fault_beside (also (long (codes "color") ∷ []) voluntary_option ∷ []) color
        ≡ Some same_name }
    ensures further { fault_beside (color ∷ []) (also (short 0x43 ∷ []) voluntary_option)
        ≡ Some same_name }
    ensures first { fault_beside (color ∷ []) (record (also (short 0x2D ∷ []) color) { placeholder = [] })
        ≡ Some dash_name }
    ensures last { fault_beside (color ∷ []) (record (also [] color) { placeholder = [] })
        ≡ Some bad_placeholder }
    ensures twice { fault_beside [] (also (short 0x76 ∷ []) voluntary_option) ≡ None }
{}

/// Only an option of one value that is not required has a default, which it accepts.
pub fn defaults_are_checked()
    ensures listed { fault_beside [] (with_default_of (codes "fast")) ≡ None }
    ensures another { fault_beside [] (with_default_of (codes "slower")) ≡ Some bad_default }
    ensures required { fault_beside [] (record (with_default_of (codes "fast")) { required = true })
        ≡ Some bad_default }
    ensures optional { fault_beside [] (record (with_default_of (codes "fast")) { kind = optional })
        ≡ Some bad_default }
    ensures flag { fault_beside [] (record voluntary_option { default = Some (codes "fast") })
        ≡ Some bad_default }
    ensures any { fault_beside [] (record (with_default_of (codes "- =")) { words = files })
        ≡ None }
{}

/// A label shows only a flag before the option, whose own label shows no other: by a character, if
/// the option has none, or its negation.
pub fn labels_are_checked()
    ensures flag { fault_beside (voluntary_option ∷ []) (other_form (a_flag 0x76) false) ≡ None }
    ensures missing { fault_beside [] (other_form (a_flag 0x76) false) ≡ Some bad_label }
    ensures with_a_value { fault_beside
        (record voluntary_option { kind = one; placeholder = codes "NAME" } ∷ [])
        (other_form (a_flag 0x76) false) ≡ Some bad_label }
    ensures two_characters { fault_beside (voluntary_option ∷ [])
        (record (other_form (a_flag 0x76) false) { short_name = Some 0x63 }) ≡ Some bad_label }
    ensures no_long_name { fault_beside (voluntary_option ∷ [])
        (record voluntary_option { short_name = Some 0x63; beside = negation }) ≡ Some bad_label }
    ensures negation { fault_beside
        (record voluntary_option { long_name = Some (codes "no-color") } ∷ [])
        (other_form negation false) ≡ None }
    ensures no_negation { fault_beside
        (record voluntary_option { long_name = Some (codes "nocolor") } ∷ [])
        (other_form negation false) ≡ Some bad_label }
    ensures beside_another { fault_beside
        (record voluntary_option { long_name = Some (codes "no-color"); beside = negation } ∷ [])
        (other_form negation false) ≡ Some bad_label }
{}

/// An option that other options exclude is not required.
pub fn exclusive_options_are_checked()
    ensures voluntary { fault_beside [] (exclusive_option (codes "format")) ≡ None }
    ensures required { fault_beside []
        (record (exclusive_option (codes "format")) { required = true }) ≡ Some bad_exclusive }
{}

/// Two options with the same text exclude each other, and no option excludes itself.
pub fn options_with_one_text_exclude_each_other()
    ensures second { exclude exclusive_options 0 2 ≡ true }
    ensures first { exclude exclusive_options 2 0 ≡ true }
    ensures itself { exclude exclusive_options 0 0 ≡ false }
    ensures another_text { exclude exclusive_options 0 1 ≡ false }
    ensures no_text { exclude exclusive_options 3 3 ≡ false }
    ensures without_texts { exclude exclusive_options 3 4 ≡ false }
    ensures not_declared { exclude exclusive_options 5 6 ≡ false }
    ensures both_there { clash exclusive_options (λ i. has i (2 ∷ 0 ∷ [])) 0 2 ≡ true }
    ensures one_there { clash exclusive_options (λ i. has i (2 ∷ 1 ∷ [])) 0 2 ≡ false }
{}
