//! Worked examples of scripts: the meanings of lines, bad lines, and output.
ghost use Rattle.std.specs.Prelude.{◌≡◌, ◌++◌, [], ◌∷◌, ℕ, List, true, false, Some, None, codes};
ghost use Rattle.std.specs.List.{flat_map};
ghost use Rattle.lexopt_spec.specs.Runs.{next, optional, raw, set_short_equals, try_raw, value};
ghost use Rattle.lexopt_spec.specs.Runs.{values};
ghost use Rattle.lexopt_spec.specs.Steps.{busy, done, end, items, long, maybe, missing, no_memory};
ghost use Rattle.lexopt_spec.specs.Steps.{positional, short, taken, unexpected};
ghost use Rattle.lexopt_line_spec.specs.Table.{one_value};
ghost use Rattle.lexopt_calls.specs.Script.{IsOutput, WholeLineText, Written, bad_line, call};
ghost use Rattle.lexopt_calls.specs.Script.{calls_of, commands_of, hexadecimal, most_bytes, number};
ghost use Rattle.lexopt_calls.specs.Script.{reply_text, table_of, unescaped, whole_line};
ghost use Rattle.lexopt_calls.specs.Script.{with_newline, words_of};

fn texts_are_unescaped()
    ensures plain { unescaped (codes "a b") ≡ Some (codes "a b") }
    ensures backslash { unescaped (codes "\\\\") ≡ Some (0x5C ∷ []) }
    ensures newline { unescaped (codes "\\n") ≡ Some (0x0A ∷ []) }
    ensures byte { unescaped (codes "a\\xfFb") ≡ Some (0x61 ∷ 0xFF ∷ 0x62 ∷ []) }
    ensures digits { unescaped (codes "\\x41") ≡ Some (codes "A") }
    ensures no_digits { unescaped (codes "\\x") ≡ None }
    ensures other { unescaped (codes "\\q") ≡ None }
    ensures cut { unescaped (codes "\\x4") ≡ None }
    ensures nothing_after { unescaped (codes "\\") ≡ None }
{}

// The bounds of numbers and of scripts.
fn numbers_and_digits_are_read()
    ensures nine_digits { number (codes "012345678") ≡ Some 12345678 }
    ensures ten_digits { number (codes "0000000001") ≡ None }
    ensures no_digit { number [] ≡ None }
    ensures no_number { number (codes "1a") ≡ None }
    ensures sign { number (codes "+1") ≡ None }
    ensures first_digits { (hexadecimal 0x30 ≡ Some 0) × (hexadecimal 0x41 ≡ Some 10)
        × (hexadecimal 0x61 ≡ Some 10) }
    ensures last_digits { (hexadecimal 0x39 ≡ Some 9) × (hexadecimal 0x46 ≡ Some 15)
        × (hexadecimal 0x66 ≡ Some 15) }
    ensures before_digits { (hexadecimal 0x2F ≡ None) × (hexadecimal 0x40 ≡ None)
        × (hexadecimal 0x60 ≡ None) }
    ensures after_digits { (hexadecimal 0x3A ≡ None) × (hexadecimal 0x47 ≡ None)
        × (hexadecimal 0x67 ≡ None) }
    ensures most { most_bytes ≡ 1048576 }
{}

fn scripts_have_bad_lines()
    ensures bad_escape { bad_line (codes "w a\\q") ≡ Some 1 }
    ensures word_after_a_call { bad_line (codes "w a\nnext\nw b") ≡ Some 3 }
    ensures no_such_call { bad_line (codes "\nvalues") ≡ Some 2 }
    ensures space_after { bad_line (codes "next ") ≡ Some 1 }
    ensures space_before { bad_line (codes " next") ≡ Some 1 }
    ensures two_spaces { bad_line (codes "values  3") ≡ Some 1 }
    ensures empty { bad_line [] ≡ None }
    ensures empty_lines { bad_line (codes "\n\nnext\n") ≡ None }
    ensures carriage_return { bad_line (codes "next\r") ≡ Some 1 }
    ensures word_after_a_switch { bad_line (codes "off\nw a\non\nw b\noptional") ≡ None }
    ensures word_after_optional { bad_line (codes "optional\nw a") ≡ Some 2 }
    ensures word_after_an_empty_line { bad_line (codes "\nw a") ≡ None }
{}

fn a_script_has_words_and_calls()
    ensures words { words_of (codes "w --out=x\nw\nw \n\nw \\x2D\nnext\nvalue")
        ≡ codes "--out=x" ∷ [] ∷ [] ∷ codes "-" ∷ [] }
    ensures spaces { words_of (codes "w a  b\nw  c") ≡ codes "a  b" ∷ codes " c" ∷ [] }
    ensures calls { calls_of (codes "w --out=x\nw\nw \n\nw \\x2D\nnext\nvalue")
        ≡ next ∷ value ∷ [] }
    ensures views { calls_of (codes "values 1\nraw 2\ntry 3") ≡ values 1 ∷ raw 2 ∷ try_raw 3 ∷ [] }
    ensures switches { calls_of (codes "off\nw -a=b\nnext\non\noptional")
        ≡ set_short_equals false ∷ next ∷ set_short_equals true ∷ optional ∷ [] }
{}

#[tactic(auto, unfolding(lexopt_line_spec::proofs::Computing::computing))]
fn lines_name_options()
    ensures two_characters { bad_line (codes "t --a\nt -ab") ≡ Some 2 }
    ensures no_character { bad_line (codes "t -") ≡ Some 1 }
    ensures one_character { bad_line (codes "t -b") ≡ None }
    ensures no_option { bad_line (codes "t a") ≡ Some 1 }
    ensures no_dash { bad_line (codes "t ab") ≡ Some 1 }
    ensures no_text { bad_line (codes "t") ≡ Some 1 }
    ensures damaged_character { bad_line (codes "t -" ++ 0xC2 ∷ []) ≡ Some 1 }
    ensures damaged_name { bad_line (codes "t --" ++ 0xFF ∷ []) ≡ Some 1 }
    ensures empty_name { bad_line (codes "t --") ≡ None }
    ensures two_bytes { bad_line (codes "topt -" ++ 0xC2 ∷ 0xB5 ∷ []) ≡ None }
    ensures after_items { bad_line (codes "items\nt -a") ≡ Some 2 }
    ensures after_the_whole_line { bad_line (codes "items\nw a") ≡ Some 2 }
    ensures after_a_call { bad_line (codes "tmany -a\nnext\ntmany -b") ≡ Some 3 }
    ensures after_a_switch { bad_line (codes "off\nt -a\nitems\non\nitems") ≡ None }
{}

#[tactic(auto, unfolding(lexopt_line_spec::proofs::Computing::computing))]
fn a_script_has_a_table_and_commands()
    ensures table { table_of (codes
        "t -o\ntopt --color\nt -v\ntmany -d\nt --\ntopt -i\ntmany --cmd\nitems")
        ≡ record {
          shorts = 0x6F ∷ 0x76 ∷ [];
          longs = [] ∷ [];
          optional_shorts = 0x69 ∷ [];
          optional_longs = codes "color" ∷ [];
          several_shorts = 0x64 ∷ [];
          several_longs = codes "cmd" ∷ [];
        } }
    ensures commands { commands_of (codes "w a\nitems\noff\nitems\nnext")
        ≡ whole_line ∷ call (set_short_equals false) ∷ whole_line ∷ call next ∷ [] }
    ensures calls { calls_of (codes "w a\nitems\noff\nitems\nnext")
        ≡ set_short_equals false ∷ next ∷ [] }
{}

#[tactic(auto, unfolding(lexopt_line_spec::proofs::Computing::computing))]
fn replies_are_written()
    ensures first_script { flat_map (λ r. with_newline (reply_text r))
        (long (codes "out") ∷ taken (codes "x") ∷ positional (codes "file") ∷ positional
        (codes "-y") ∷ end ∷ [])
        ≡ codes "Long \"out\"\n\"x\"\nValue \"file\"\nValue \"-y\"\nNone\n" }
    ensures errors { flat_map (λ r. with_newline (reply_text r))
        (missing None ∷ unexpected (codes "-a") (codes "b") ∷ no_memory ∷ [])
        ≡ codes "error: missing argument\nerror: unexpected argument for option '-a': \"b\"\nerror: out of memory\n" }
    ensures short { flat_map (λ r. with_newline (reply_text r)) (short 0x61 ∷ [])
        ≡ codes "Short \"a\"\n" }
    ensures views { flat_map (λ r. with_newline (reply_text r))
        (items [] ∷ items (codes "a" ∷ codes "b c" ∷ []) ∷ maybe None ∷ maybe (Some (codes "x")) ∷
        busy ∷ done ∷ [])
        ≡ codes "[]\n[\"a\", \"b c\"]\nNone\n\"x\"\nNone\nok\n" }
{}

// Texts that may be written for a whole line, and texts that may not.
fn whole_lines_have_these_texts()
    ensures items { WholeLineText (one_value (codes "o") (codes "out" ∷ [])) true
        (codes "-ox" ∷ codes "f" ∷ [])
        (codes "[Short \"o\" = \"x\", Value \"f\"]") }
    ensures no_words { WholeLineText (one_value (codes "o") (codes "out" ∷ [])) true []
        (codes "[]") }
    ensures missing_value { WholeLineText (one_value (codes "o") (codes "out" ∷ [])) true
        (codes "-o" ∷ []) (codes "error: missing argument for option '-o'") }
    ensures out_of_memory { WholeLineText (one_value (codes "o") (codes "out" ∷ [])) true
        (codes "-o" ∷ []) (codes "error: out of memory") }
    ensures no_items_of_an_error { WholeLineText (one_value (codes "o") (codes "out" ∷ [])) true
        (codes "-o" ∷ []) (codes "[]") → ⊥ }
    ensures no_item_left_out { WholeLineText (one_value (codes "o") (codes "out" ∷ [])) true
        (codes "-v" ∷ []) (codes "[]") → ⊥ }
    ensures under_its_setting { WholeLineText (one_value [] []) false (codes "-a=" ∷ [])
        (codes "error: unexpected argument for option '-a': \"\"") → ⊥ }
    ensures no_other_error { WholeLineText (one_value (codes "o") (codes "out" ∷ [])) true
        (codes "-v" ∷ []) (codes "error: missing argument") → ⊥ }
{}

// Lists of commands and replies that do not match.
fn lines_are_written_for_replies()
    ensures no_reply { Written (one_value [] []) [] true (call next ∷ []) [] [] → ⊥ }
    ensures no_command { Written (one_value [] []) [] true [] (end ∷ []) [] → ⊥ }
    ensures nothing { Written (one_value [] []) [] true [] [] [] }
    ensures something { Written (one_value [] []) [] true [] [] (codes "a") → ⊥ }
{}

// Texts that may be written for a script, and texts that may not.
fn scripts_have_these_outputs()
    ensures replies { IsOutput (codes "w -x\nnext\nnext") (codes "Short \"x\"\nNone\n") }
    ensures whole_line { IsOutput (codes "w a\nitems") (codes "[Value \"a\"]\n") }
    ensures off_for_a_whole_line { IsOutput (codes "w -a=\noff\nitems")
        (codes "ok\n[Short \"a\", Short \"=\"]\n") }
    ensures on_at_the_start { IsOutput (codes "w -a=b\nitems")
        (codes "error: unexpected argument for option '-a': \"b\"\n") }
    ensures with_its_table { IsOutput (codes "t -o\nw -ox\nitems")
        (codes "[Short \"o\" = \"x\"]\n") }
    ensures out_of_memory { IsOutput (codes "w a\nitems") (codes "error: out of memory\n") }
    ensures no_output_of_a_bad_line { (text : List ℕ) → IsOutput (codes "w a\nnex") text → ⊥ }
    ensures no_line_left_out { IsOutput (codes "next") [] → ⊥ }
    ensures no_other_reply { IsOutput (codes "next") (codes "ok\n") → ⊥ }
{}
