//! Worked examples of names and placeholders in messages, which the definitions compute.
ghost use Rattle.std.specs.Prelude.{◌≡◌, ◌∷◌, [], codes};
ghost use Rattle.lexopt_options_spec.specs.Help.{escaped_text};

/// A character that a terminal may act on is escaped; every other character is written as it is,
/// even a quote, a backslash or one past ASCII.
#[tactic(auto, unfolding(lexopt_line_spec::proofs::Computing::computing))]
fn names_are_written_so()
    ensures none { escaped_text [] ≡ [] }
    ensures plain { escaped_text (codes "FILE") ≡ codes "FILE" }
    ensures line_feed { escaped_text (codes "A\nB") ≡ codes "A\\nB" }
    ensures tab { escaped_text (codes "\t") ≡ codes "\\t" }
    ensures escape { escaped_text (0x1B ∷ codes "[1m") ≡ codes "\\u{1b}[1m" }
    ensures delete { escaped_text (0x7F ∷ []) ≡ codes "\\u{7f}" }
    ensures c1 { escaped_text (0xC2 ∷ 0x9B ∷ codes "2J") ≡ codes "\\u{9b}2J" }
    ensures bidi_control { escaped_text (0x61 ∷ 0xE2 ∷ 0x80 ∷ 0xAE ∷ []) ≡ codes "a\\u{202e}" }
    ensures line_separator { escaped_text (0xE2 ∷ 0x80 ∷ 0xA8 ∷ []) ≡ codes "\\u{2028}" }
    ensures marks { escaped_text (codes "\" \\") ≡ codes "\" \\" }
    ensures accent { escaped_text (0xC3 ∷ 0xA9 ∷ []) ≡ 0xC3 ∷ 0xA9 ∷ [] }
{}
