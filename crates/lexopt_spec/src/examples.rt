//! Worked examples of the definitions of words and of the parser: what they mean, and what they
//! rule out.
ghost use Rattle.std.specs.Prelude.{◌≡◌, [], ◌∷◌, true, false, None, Some, codes};
ghost use Rattle.lexopt_spec.specs.Account.{NamesOption, damage, given, given_of, handed_items};
ghost use Rattle.lexopt_spec.specs.Account.{mark};
ghost use Rattle.lexopt_spec.specs.Pieces.{BeginsWellFormed, IsWellFormed};
ghost use Rattle.lexopt_spec.specs.Runs.{AccountedRun, next, optional, raw, raw_if};
ghost use Rattle.lexopt_spec.specs.Runs.{set_short_equals, try_raw, up_to, value, values};
ghost use Rattle.lexopt_spec.specs.Steps.{busy, done, end, items, long, maybe, missing, no_memory};
ghost use Rattle.lexopt_spec.specs.Steps.{positional, short, taken, unexpected};
ghost use Rattle.lexopt_spec.specs.UnreadLine.{BeginsWith, IsLine, dash, fresh, joined};
ghost use Rattle.lexopt_spec.specs.UnreadLine.{long_option, no_option, no_tail, pending_in, rest};
ghost use Rattle.lexopt_spec.specs.UnreadLine.{short_option};

// Unread lines that a parser can have, and lines that it never has.
fn lines_are_told_apart()
    ensures nothing_read { fresh (codes "a" ∷ []) ≡ record {
      tail = no_tail;
      words = codes "a" ∷ [];
      ended = false;
      last = no_option;
      short_equals = true;
      bin_name = None;
    } }
    ensures joined { IsLine (record (fresh []) {
      tail = joined [];
      last = long_option [];
    }) }
    ensures rest { IsLine (record (fresh []) {
      tail = rest (codes "b");
      last = short_option 0x61;
    }) }
    ensures ended { IsLine (record (fresh []) { ended = true }) }
    ensures joined_to_no_option { IsLine (record (fresh []) { tail = joined [] }) → ⊥ }
    ensures joined_after_the_separator { IsLine (record (fresh []) {
      tail = joined [];
      last = long_option [];
      ended = true;
    }) → ⊥ }
    ensures rest_of_no_option { IsLine (record (fresh []) { tail = rest (codes "b") }) → ⊥ }
    ensures rest_after_the_separator { IsLine (record (fresh []) {
      tail = rest (codes "b");
      last = short_option 0x61;
      ended = true;
    }) → ⊥ }
    ensures empty_rest { IsLine (record (fresh []) {
      tail = rest [];
      last = short_option 0x61;
    }) → ⊥ }
    ensures empty_rest_is_no_value { pending_in false (rest []) ≡ None }
    ensures dash_first { BeginsWith dash (codes "-x") }
    ensures dash_second { BeginsWith dash (codes "x-") → ⊥ }
    ensures no_byte { BeginsWith dash [] → ⊥ }
    ensures option { NamesOption (short 0x61) × NamesOption (long (codes "a")) }
    ensures value { NamesOption (taken (codes "-a")) → ⊥ }
    ensures error { NamesOption (missing (Some (codes "-a"))) → ⊥ }
    ensures unexpected { NamesOption (unexpected (codes "-a") (codes "b")) → ⊥ }
{}

// A call limited to at most n items never takes more items than before.
fn fewer_items_are_asked()
    ensures values { up_to 5 (values 2) ≡ values 2 }
    ensures fewer_values { up_to 1 (values 2) ≡ values 1 }
    ensures no_values { up_to 0 (values 2) ≡ values 0 }
    ensures raw { up_to 5 (raw 2) ≡ raw 2 }
    ensures fewer_raw { up_to 1 (raw 2) ≡ raw 1 }
    ensures no_raw { up_to 0 (raw 2) ≡ raw 0 }
    ensures try_raw { up_to 5 (try_raw 2) ≡ try_raw 2 }
    ensures fewer_try_raw { up_to 1 (try_raw 2) ≡ try_raw 1 }
    ensures no_try_raw { up_to 0 (try_raw 2) ≡ try_raw 0 }
    ensures next { up_to 0 next ≡ next }
    ensures value { up_to 0 value ≡ value }
    ensures optional { up_to 0 optional ≡ optional }
    ensures raw_if { up_to 0 (raw_if (codes "a")) ≡ raw_if (codes "a") }
    ensures on { up_to 0 (set_short_equals true) ≡ set_short_equals true }
    ensures off { up_to 0 (set_short_equals false) ≡ set_short_equals false }
{}

// The values and words of the line that a reply has. Names are not among them.
fn items_are_handed_out()
    ensures positional { handed_items (positional (codes "a")) ≡ codes "a" ∷ [] }
    ensures value { handed_items (taken (codes "a")) ≡ codes "a" ∷ [] }
    ensures value_of_some { handed_items (maybe (Some (codes "a"))) ≡ codes "a" ∷ [] }
    ensures items { handed_items (items (codes "a" ∷ codes "b" ∷ [])) ≡ codes "a" ∷ codes "b" ∷ [] }
    ensures unexpected_value { handed_items (unexpected (codes "-a") (codes "b"))
        ≡ codes "b" ∷ [] }
    ensures given { given_of (mark (codes "-") ∷ damage (0xFF ∷ []) ∷ given (codes "a") ∷ [])
        ≡ codes "a" ∷ [] }
    ensures names { (handed_items (short 0x61) ≡ []) × (handed_items (long (codes "a")) ≡ []) }
    ensures no_value { (handed_items (maybe None) ≡ []) × (handed_items (missing None) ≡ []) }
    ensures no_item { (handed_items end ≡ [])
        × (handed_items busy ≡ []) × (handed_items done ≡ [])
        × (handed_items no_memory ≡ []) }
{}

// Well-formed sequences by the table, and bytes that begin one.
fn sequences_are_well_formed()
    ensures one_byte { IsWellFormed (codes "a") }
    ensures two_bytes { IsWellFormed (0xC2 ∷ 0xB5 ∷ []) }
    ensures two_sequences { IsWellFormed (codes "ab") → ⊥ }
    ensures no_bytes { IsWellFormed [] → ⊥ }
    ensures cut { IsWellFormed (0xC2 ∷ []) → ⊥ }
    ensures begins_itself { BeginsWellFormed (codes "a") }
{}

// Bytes that begin a well-formed sequence, but are not one.
fn sequences_are_begun()
    ensures { BeginsWellFormed (0xC2 ∷ []) }
{}

// A list of no calls reads no segments.
fn no_other_segments()
    ensures nothing_read { AccountedRun (fresh []) [] [] (given [] ∷ []) (fresh []) → ⊥ }
    ensures no_segments { AccountedRun (fresh []) [] [] [] (fresh []) }
{}
