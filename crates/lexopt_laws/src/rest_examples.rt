//! Worked examples of lines that go on with words which are not read, under the options of `Sample`:
//! v|verbose is a flag and x|exclude has several values.
ghost use Rattle.std.specs.Prelude.{◌∷◌, [], codes, true};
ghost use Rattle.lexopt_options_spec.specs.Rest.{HaveNoRest, IsSplit, separated, surplus};
ghost use Rattle.lexopt_laws.specs.Sample.{mode, sample};

/// The rest begins with the first positional that is not declared, or after the separator. The
/// separator ends the options and is not part of the rest. An option of several values takes the words
/// that it takes in a whole line.
pub fn words_are_split_so()
    ensures before_a_word { IsSplit surplus (sample [] true) (codes "-v" ∷ codes "a" ∷ codes "-x" ∷ [])
        (codes "-v" ∷ []) (codes "a") (codes "-x" ∷ []) }
    ensures after_the_separator { IsSplit surplus (sample [] true)
        (codes "-v" ∷ codes "--" ∷ codes "-x" ∷ []) (codes "-v" ∷ codes "--" ∷ []) (codes "-x") [] }
    ensures several_values { IsSplit surplus (sample [] true)
        (codes "-x" ∷ codes "a" ∷ codes "-v" ∷ codes "c" ∷ [])
        (codes "-x" ∷ codes "a" ∷ codes "-v" ∷ []) (codes "c") [] }
    ensures no_option { IsSplit surplus (sample [] true) (codes "a" ∷ codes "--bogus" ∷ []) [] (codes "a")
        (codes "--bogus" ∷ []) }
    ensures behind_the_separator { IsSplit separated (sample (mode ∷ []) true)
        (codes "a" ∷ codes "-v" ∷ codes "--" ∷ codes "-x" ∷ codes "b" ∷ [])
        (codes "a" ∷ codes "-v" ∷ codes "--" ∷ []) (codes "-x") (codes "b" ∷ []) }
    ensures after_a_positional { IsSplit surplus (sample (mode ∷ []) true)
        (codes "a" ∷ codes "-v" ∷ codes "b" ∷ codes "-x" ∷ []) (codes "a" ∷ codes "-v" ∷ [])
        (codes "b") (codes "-x" ∷ []) }
{}

/// The rest does not begin among the values of an option, nor with the separator, nor with an
/// option.
pub fn words_are_not_split_so()
    ensures with_the_separator { IsSplit surplus (sample [] true)
        (codes "-v" ∷ codes "--" ∷ codes "-x" ∷ []) (codes "-v" ∷ []) (codes "--")
        (codes "-x" ∷ []) → ⊥ }
    ensures with_an_option { IsSplit surplus (sample [] true) (codes "-v" ∷ codes "a" ∷ codes "-x" ∷ []) []
        (codes "-v") (codes "a" ∷ codes "-x" ∷ []) → ⊥ }
    ensures before_the_separator { IsSplit separated (sample (mode ∷ []) true)
        (codes "a" ∷ codes "-v" ∷ codes "--" ∷ codes "-x" ∷ codes "b" ∷ []) [] (codes "a")
        (codes "-v" ∷ codes "--" ∷ codes "-x" ∷ codes "b" ∷ []) → ⊥ }
    ensures among_values { HaveNoRest surplus (sample [] true)
        (codes "-x" ∷ codes "a" ∷ codes "b" ∷ []) }
    ensures separator_alone { HaveNoRest surplus (sample [] true) (codes "--" ∷ []) }
{}
