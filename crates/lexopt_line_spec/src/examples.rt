//! Worked examples of the definitions of whole lines: what they mean, and what they rule out.
ghost use Rattle.std.specs.Prelude.{◌≡◌, [], ◌∷◌, ℕ, List, false, true, Some, None, codes};
ghost use Rattle.lexopt_line_spec.specs.Clusters.{ReadsPieces};
ghost use Rattle.lexopt_line_spec.specs.Readings.{items_of_replies};
ghost use Rattle.lexopt_line_spec.specs.Bound.{bound};
ghost use Rattle.lexopt_line_spec.specs.Spelling.{HaveWholeNames};
ghost use Rattle.lexopt_line_spec.specs.Table as table;
ghost use Rattle.lexopt_line_spec.specs.Table.{long, many, one_value, option, positional};
ghost use Rattle.lexopt_spec.specs.Runs.{next};
ghost use Rattle.lexopt_spec.specs.Steps.{Reply, end, maybe, no_memory, short};
ghost use Rattle.lexopt_spec.specs.UnreadLine.{UnreadLine, fresh, joined, long_option, no_tail};
ghost use Rattle.lexopt_spec.specs.UnreadLine.{rest, short_option};

// On the words `-ab c`, on `-a=` with `short_equals` false, and on `-a` and the byte FF.
fn clusters_are_read_to_their_end()
    ensures two_letters { (replies : List Reply) (v : UnreadLine)
        → ReadsPieces (fresh (codes "-ab" ∷ codes "c" ∷ [])) (next ∷ next ∷ []) replies v
        → (replies ≡ short 0x61 ∷ short 0x62 ∷ []) × (v.tail ≡ no_tail)
        × (v.words ≡ codes "c" ∷ []) }
    ensures equals_sign { (replies : List Reply) (v : UnreadLine)
        → ReadsPieces (record (fresh (codes "-a=" ∷ [])) { short_equals = false })
        (next ∷ next ∷ []) replies v → replies ≡ short 0x61 ∷ short 0x3D ∷ [] }
    ensures damage { (replies : List Reply) (v : UnreadLine)
        → ReadsPieces (fresh ((0x2D ∷ 0x61 ∷ 0xFF ∷ []) ∷ [])) (next ∷ next ∷ []) replies v
        → replies ≡ short 0x61 ∷ short 0xFFFD ∷ [] }
    ensures nothing_of_a_tail { (replies : List Reply) (v : UnreadLine)
        → ReadsPieces (record (fresh (codes "-ab" ∷ [])) {
          tail = rest (codes "x");
          last = short_option 0x61;
        }) (next ∷ next ∷ []) replies v }
    ensures nothing_after_the_separator { (replies : List Reply) (v : UnreadLine)
        → ReadsPieces (record (fresh (codes "-ab" ∷ [])) { ended = true }) (next ∷ next ∷ [])
        replies v }
    ensures no_other_replies { (v : UnreadLine)
        → ReadsPieces (fresh (codes "-ab" ∷ [])) (next ∷ next ∷ []) (short 0x61 ∷ no_memory ∷ []) v
        → ⊥ }
{}

// Names with and without U+FFFD. A damaged name has it. C2 B5 is another character, and EF BF BD is
// U+FFFD itself.
fn names_are_whole()
    ensures no_items { HaveWholeNames [] }
    ensures short { HaveWholeNames (option (table.short 0x78) None ∷ []) }
    ensures short_of_two_bytes { HaveWholeNames (option (table.short 0xB5) None ∷ []) }
    ensures short_replacement { HaveWholeNames (option (table.short 0xFFFD) None ∷ []) → ⊥ }
    ensures several_replacement { HaveWholeNames
        (many (table.short 0xFFFD) (codes "1" ∷ []) ∷ []) → ⊥ }
    ensures long { HaveWholeNames
        (option (long (codes "x")) None ∷ option (long (codes "out")) (Some (codes "f")) ∷ option
        (long (codes "exclude")) None ∷ many (long (codes "cmd")) (codes "a" ∷ []) ∷ []) }
    ensures long_of_two_bytes { HaveWholeNames (option (long (0xC2 ∷ 0xB5 ∷ [])) None ∷ []) }
    ensures empty { HaveWholeNames (option (long []) (Some []) ∷ []) }
    ensures long_replacement { HaveWholeNames
        (option (long (0x61 ∷ 0xEF ∷ 0xBF ∷ 0xBD ∷ [])) None ∷ []) → ⊥ }
    ensures damaged { HaveWholeNames (option (long (0x61 ∷ 0xFF ∷ [])) None ∷ []) → ⊥ }
    ensures several_damaged { HaveWholeNames (many (long (0xFF ∷ [])) (codes "a" ∷ []) ∷ []) → ⊥ }
    ensures not_the_first { HaveWholeNames
        (option (table.short 0x78) None ∷ positional (codes "f")
        ∷ option (table.short 0xFFFD) None ∷ []) → ⊥ }
    ensures damage_elsewhere { HaveWholeNames
        (positional (0xFF ∷ []) ∷ option (table.short 0x6F) (Some (0xFF ∷ []))
        ∷ many (table.short 0x64) ((0xEF ∷ 0xBF ∷ 0xBD ∷ []) ∷ []) ∷ []) }
{}

// The bounds of lines without words.
fn tails_are_bounded()
    ensures cluster { bound (record (fresh []) {
      tail = rest (codes "bc");
      last = short_option 0x61;
    }) ≡ 2 }
    ensures value { bound (record (fresh []) {
      tail = joined (codes "bc");
      last = long_option (codes "a");
    }) ≡ 1 }
    ensures nothing { bound (fresh []) ≡ 0 }
{}

// The options of a table, and the items that replies mean.
fn tables_and_replies_are_told_apart()
    ensures one_value { one_value (codes "o") (codes "out" ∷ []) ≡ record {
      shorts = codes "o";
      longs = codes "out" ∷ [];
      optional_shorts = [];
      optional_longs = [];
      several_shorts = [];
      several_longs = [];
    } }
    ensures last_option { items_of_replies (short 0x61 ∷ []) ≡ option (table.short 0x61) None ∷ [] }
    ensures value_left_out { items_of_replies (short 0x61 ∷ maybe None ∷ end ∷ [])
        ≡ option (table.short 0x61) None ∷ [] }
{}
