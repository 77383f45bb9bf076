//! Worked examples of lists of values, which the definitions compute.
ghost use Rattle.std.specs.Prelude.{◌≡◌, ◌∷◌, [], None, Some, codes, false, true};
ghost use Rattle.lexopt_options_spec.specs.Completion.{argument, offered, offered_values, spellings};
ghost use Rattle.lexopt_options_spec.specs.Completion.{value};
ghost use Rattle.lexopt_options_spec.specs.Declaration.{IsFirstBadList, accepts, are_listable};
ghost use Rattle.lexopt_options_spec.specs.Declaration.{bad_list};
ghost use Rattle.lexopt_options_spec.specs.Declaration.{directories, files, list_fault, listed, text};
ghost use Rattle.lexopt_options_spec.specs.Examples.{explained_options, hidden_options};
ghost use Rattle.lexopt_options_spec.specs.Examples.{joined_after};
ghost use Rattle.lexopt_options_spec.specs.Examples.{listed_positionals, lists};
ghost use Rattle.lexopt_options_spec.specs.Examples.{positional_of};
ghost use Rattle.lexopt_options_spec.specs.Places.{refused_word};

/// With a list, exactly the values in it are accepted; without a list, all values are.
pub fn values_are_accepted()
    ensures first { accepts (listed (codes "fast" ∷ codes "slow" ∷ [])) (codes "fast") ≡ true }
    ensures last { accepts (listed (codes "fast" ∷ codes "slow" ∷ [])) (codes "slow") ≡ true }
    ensures another { accepts (listed (codes "fast" ∷ codes "slow" ∷ [])) (codes "low") ≡ false }
    ensures front { accepts (listed (codes "fast" ∷ codes "slow" ∷ [])) (codes "fas") ≡ false }
    ensures more { accepts (listed (codes "fast" ∷ codes "slow" ∷ [])) (codes "faster") ≡ false }
    ensures files { accepts files (codes "low") ≡ true }
    ensures directories { accepts directories (codes "low") ≡ true }
    ensures text { accepts text [] ≡ true }
{}

/// Lists that can be declared.
pub fn lists_are_declared()
    ensures one { list_fault (listed (codes "fast" ∷ [])) ≡ None }
    ensures same_twice { list_fault (listed (codes "fast" ∷ codes "fast" ∷ [])) ≡ None }
    ensures dash_inside { list_fault (listed (codes "a-b=c" ∷ [])) ≡ None }
    ensures accent { list_fault (listed (codes "größe" ∷ [])) ≡ None }
    ensures files { list_fault files ≡ None }
    ensures directories { list_fault directories ≡ None }
    ensures text { list_fault text ≡ None }
{}

/// Lists that cannot be declared.
pub fn lists_are_refused()
    ensures none { list_fault (listed []) ≡ Some bad_list }
    ensures empty { list_fault (listed ([] ∷ [])) ≡ Some bad_list }
    ensures dash { list_fault (listed (codes "-a" ∷ [])) ≡ Some bad_list }
    ensures equals_sign { list_fault (listed (codes "=a" ∷ [])) ≡ Some bad_list }
    ensures blank { list_fault (listed (codes "very fast" ∷ [])) ≡ Some bad_list }
    ensures control { list_fault (listed (codes "fast\n" ∷ [])) ≡ Some bad_list }
    ensures second { list_fault (listed (codes "fast" ∷ codes "-" ∷ [])) ≡ Some bad_list }
{}

/// The values in the list of the option that a word is a value of.
pub fn values_in_lists_are_offered()
    ensures all { offered_values lists [] (Some (value 1)) [] None
        ≡ codes "fast" ∷ codes "slow" ∷ codes "slower" ∷ [] }
    ensures begun { offered_values lists (codes "slow") (Some (value 1)) [] None
        ≡ codes "slow" ∷ codes "slower" ∷ [] }
    ensures inside { offered_values lists (codes "low") (Some (value 1)) [] None ≡ [] }
    ensures more { offered_values lists (codes "fasts") (Some (value 1)) [] None ≡ [] }
    ensures another_list { offered_values lists [] (Some (value 2)) [] None
        ≡ codes "tar" ∷ [] }
    ensures no_list { offered_values lists [] (Some (value 0)) [] None ≡ [] }
    ensures no_option { offered_values lists [] (Some (value 3)) [] None ≡ [] }
    ensures positional { offered_values lists [] (Some (argument [])) [] None ≡ [] }
    ensures nothing { offered_values lists [] None [] None ≡ [] }
{}

/// The spellings that are offered where something is typed, each with the help text of its option.
pub fn spellings_are_offered()
    ensures all { offered [] (spellings explained_options) ≡ (codes "-m", codes "how fast")
        ∷ (codes "--mode", codes "how fast") ∷ (codes "-m", codes "what else") ∷ [] }
    ensures none { offered [] (spellings []) ≡ [] }
    ensures front { offered (codes "--m") (spellings explained_options)
        ≡ (codes "--mode", codes "how fast") ∷ [] }
    ensures hidden { offered [] (spellings hidden_options) ≡ (codes "-m", []) ∷ [] }
    ensures front_of_a_hidden_option { offered (codes "--mod") (spellings hidden_options) ≡ [] }
    ensures hidden_option { offered (codes "--mode") (spellings hidden_options)
        ≡ (codes "--mode", codes "how fast") ∷ [] }
    ensures more { offered (codes "--mode2") (spellings hidden_options) ≡ [] }
{}

/// The words that have a value in a list after what was typed before it.
pub fn joined_values_are_offered()
    ensures all { offered_values lists (codes "--mode=") None [] (joined_after 1 (codes "--mode="))
        ≡ codes "--mode=fast" ∷ codes "--mode=slow" ∷ codes "--mode=slower" ∷ [] }
    ensures begun { offered_values lists (codes "--mode=f") None [] (joined_after 1 (codes "--mode="))
        ≡ codes "--mode=fast" ∷ [] }
    ensures inside { offered_values lists (codes "--mode=low") None [] (joined_after 1 (codes "--mode="))
        ≡ [] }
    ensures in_a_cluster { offered_values lists (codes "-vms") None [] (joined_after 1 (codes "-vm"))
        ≡ codes "-vmslow" ∷ codes "-vmslower" ∷ [] }
    ensures no_list { offered_values lists (codes "--out=") None [] (joined_after 0 (codes "--out="))
        ≡ [] }
    ensures no_option { offered_values lists (codes "--mode=") None [] (joined_after 3 (codes "--mode="))
        ≡ [] }
    ensures after_values { offered_values lists [] (Some (value 2)) [] (joined_after 1 (codes "-m"))
        ≡ codes "tar" ∷ codes "-mfast" ∷ codes "-mslow" ∷ codes "-mslower" ∷ [] }
{}

/// The words in the lists of the positionals that a word can belong to.
pub fn words_in_lists_are_offered()
    ensures one { offered_values lists [] (Some (argument [])) (0 ∷ []) None
        ≡ codes "fast" ∷ codes "slow" ∷ [] }
    ensures two { offered_values lists [] (Some (argument (codes "a" ∷ []))) (0 ∷ 1 ∷ []) None
        ≡ codes "fast" ∷ codes "slow" ∷ codes "tar" ∷ codes "zip" ∷ [] }
    ensures begun { offered_values lists (codes "z") (Some (argument (codes "a" ∷ [])))
        (0 ∷ 1 ∷ []) None ≡ codes "zip" ∷ [] }
    ensures no_positional { offered_values lists [] (Some (argument (codes "a" ∷ [])))
        (2 ∷ []) None ≡ [] }
    ensures before_options { offered_values lists [] (Some (argument [])) (0 ∷ [])
        (joined_after 1 (codes "--mode=")) ≡ codes "fast" ∷ codes "slow" ∷ codes "--mode=fast"
        ∷ codes "--mode=slow" ∷ codes "--mode=slower" ∷ [] }
{}

/// The first word that its positional does not accept.
pub fn words_are_refused()
    ensures first { refused_word listed_positionals (0 ∷ 1 ∷ []) (codes "low" ∷ codes "tar" ∷ [])
        ≡ Some (0, codes "low") }
    ensures second { refused_word listed_positionals (0 ∷ 1 ∷ []) (codes "slow" ∷ codes "rar" ∷ [])
        ≡ Some (1, codes "rar") }
    ensures both { refused_word listed_positionals (0 ∷ 1 ∷ []) (codes "low" ∷ codes "rar" ∷ [])
        ≡ Some (0, codes "low") }
    ensures neither { refused_word listed_positionals (0 ∷ 1 ∷ []) (codes "slow" ∷ codes "tar" ∷ [])
        ≡ None }
    ensures another_list { refused_word listed_positionals (1 ∷ []) (codes "slow" ∷ [])
        ≡ Some (1, codes "slow") }
    ensures no_positional { refused_word listed_positionals (2 ∷ []) (codes "low" ∷ []) ≡ None }
    ensures fewer { refused_word listed_positionals (0 ∷ 1 ∷ []) (codes "fast" ∷ []) ≡ None }
{}

/// Positionals whose lists can be declared, and positionals one of whose lists cannot.
pub fn lists_of_positionals_are_declared()
    ensures all { are_listable listed_positionals ≡ true }
    ensures none { are_listable (positional_of (codes "FILE") [] files ∷ []) ≡ true }
    ensures empty { are_listable (positional_of (codes "HOW") [] (listed []) ∷ []) ≡ false }
    ensures last { are_listable (positional_of (codes "FILE") [] files
        ∷ positional_of (codes "HOW") [] (listed (codes "-" ∷ [])) ∷ []) ≡ false }
{}

/// The first positional whose list cannot be declared.
pub fn bad_lists_are_found()
    ensures first { IsFirstBadList (positional_of (codes "HOW") [] (listed []) ∷ []) 0 }
    ensures last { IsFirstBadList (positional_of (codes "FILE") [] files
        ∷ positional_of (codes "HOW") [] (listed (codes "-" ∷ [])) ∷ []) 1 }
{}

/// Positionals that are not the first whose list cannot be declared.
pub fn no_other_list_is_bad()
    ensures not_one_that_can_be_declared { IsFirstBadList
        (positional_of (codes "HOW") [] (listed (codes "fast" ∷ [])) ∷ []) 0 → ⊥ }
    ensures not_the_second { IsFirstBadList (positional_of (codes "HOW") [] (listed [])
        ∷ positional_of (codes "FORM") [] (listed []) ∷ []) 1 → ⊥ }
    ensures none_past_the_end { IsFirstBadList (positional_of (codes "FILE") [] files ∷ []) 1
        → ⊥ }
{}
