//! Worked examples of calls: what they return, what becomes of each byte, and what is left if they
//! are cut short.
ghost use Rattle.std.specs.Prelude.{◌≡◌, [], ◌∷◌, Bool, List, true, false, Some, None};
ghost use Rattle.std.specs.Prelude.{codes};
ghost use Rattle.lexopt_spec.specs.Account.{damage, given, mark};
ghost use Rattle.lexopt_line_spec.specs.Bound.{bound, next_replies, replies_count};
ghost use Rattle.lexopt_line_spec.specs.Clusters.{ReadsPieces};
ghost use Rattle.lexopt_spec.specs.Runs.{AccountedRun, Part, Run, next, optional, raw, raw_if};
ghost use Rattle.lexopt_spec.specs.Runs.{set_short_equals, try_raw, up_to, value, values};
ghost use Rattle.lexopt_spec.specs.Steps.{Reply, busy, done, end, items, long, maybe, missing};
ghost use Rattle.lexopt_spec.specs.Steps.{no_memory};
ghost use Rattle.lexopt_spec.specs.Steps.{positional, short, taken, unexpected};
ghost use Rattle.lexopt_spec.specs.UnreadLine.{UnreadLine, fresh, joined, long_option, no_tail};
ghost use Rattle.lexopt_spec.specs.UnreadLine.{rest, short_option};
ghost use Rattle.lexopt_spec.specs.Views.{TakesIf, ValueItem, ValueItems, WordItems, at_end};
ghost use Rattle.lexopt_spec.specs.Views.{going_on};

fn calls_have_these_replies()
    ensures options_and_words { (v : UnreadLine)
        × Run (fresh (codes "--out=x" ∷ codes "file" ∷ codes "--" ∷ codes "-y" ∷ []))
        (next ∷ value ∷ next ∷ next ∷ next ∷ [])
        (long (codes "out") ∷ taken (codes "x") ∷ positional (codes "file") ∷ positional
        (codes "-y") ∷ end ∷ []) v }
    ensures memory_refused { (v : UnreadLine)
        × Run (fresh (codes "--out=x" ∷ codes "file" ∷ codes "--" ∷ codes "-y" ∷ []))
        (next ∷ value ∷ next ∷ next ∷ next ∷ [])
        (no_memory ∷ taken (codes "--out=x") ∷ positional (codes "file") ∷ positional (codes "-y") ∷
        end ∷ []) v }
    ensures memory_refused_twice { (v : UnreadLine)
        × Run (fresh (codes "-a=b" ∷ [])) (next ∷ next ∷ next ∷ value ∷ value ∷ [])
        (short 0x61 ∷ no_memory ∷ unexpected (codes "-a") (codes "b") ∷ no_memory ∷ missing
        (Some (codes "-a")) ∷ []) v }
    ensures damaged_name { (v : UnreadLine)
        × Run (fresh ((0x2D ∷ 0x2D ∷ 0xF0 ∷ 0x9D ∷ 0x84 ∷ []) ∷ [])) (next ∷ value ∷ [])
        (long (0xEF ∷ 0xBF ∷ 0xBD ∷ []) ∷ missing (Some (0x2D ∷ 0x2D ∷ 0xEF ∷ 0xBF ∷ 0xBD ∷ [])) ∷
        []) v }
    ensures separator_as_value { (v : UnreadLine)
        × Run (fresh (codes "-x" ∷ codes "--" ∷ codes "-y" ∷ [])) (next ∷ value ∷ next ∷ next ∷ [])
        (short 0x78 ∷ taken (codes "--") ∷ short 0x79 ∷ end ∷ []) v }
    ensures no_value { (v : UnreadLine)
        × Run (fresh (codes "-o" ∷ [])) (next ∷ value ∷ [])
        (short 0x6F ∷ missing (Some (codes "-o")) ∷ []) v }
    ensures no_words { (v : UnreadLine)
        × Run (fresh []) (value ∷ next ∷ []) (missing None ∷ end ∷ []) v }
    ensures value_in_a_cluster { (v : UnreadLine)
        × Run (fresh (codes "-a=" ∷ [])) (next ∷ next ∷ next ∷ [])
        (short 0x61 ∷ unexpected (codes "-a") [] ∷ end ∷ []) v }
    ensures value_of_a_name { (v : UnreadLine)
        × Run (fresh (codes "--n=x" ∷ [])) (next ∷ next ∷ next ∷ [])
        (long (codes "n") ∷ unexpected (codes "--n") (codes "x") ∷ end ∷ []) v }
    ensures first_equals_ends_the_name { (v : UnreadLine)
        × Run (fresh (codes "--n=x=y" ∷ [])) (next ∷ value ∷ [])
        (long (codes "n") ∷ taken (codes "x=y") ∷ []) v }
    ensures set_short_equals { (v : UnreadLine)
        × Run (fresh (codes "-a=b" ∷ []))
        (next ∷ set_short_equals false ∷ next ∷ set_short_equals true ∷ next ∷ next ∷ [])
        (short 0x61 ∷ done ∷ short 0x3D ∷ done ∷ short 0x62 ∷ end ∷ []) v }
    ensures optional { (v : UnreadLine)
        × Run (fresh (codes "-d" ∷ codes "v" ∷ [])) (next ∷ optional ∷ next ∷ [])
        (short 0x64 ∷ maybe None ∷ positional (codes "v") ∷ []) v }
{}

fn views_have_these_replies()
    ensures values_in_turn { (v : UnreadLine)
        × Run (fresh (codes "-ab" ∷ codes "c" ∷ [])) (next ∷ values 1 ∷ values 1 ∷ values 1 ∷ [])
        (short 0x61 ∷ items (codes "b" ∷ []) ∷ items (codes "c" ∷ []) ∷ missing (Some (codes "-a"))
        ∷ []) v }
    ensures joined_value { (v : UnreadLine)
        × Run (fresh (codes "-a=b" ∷ codes "c" ∷ [])) (next ∷ values 9 ∷ next ∷ [])
        (short 0x61 ∷ items (codes "b" ∷ []) ∷ positional (codes "c") ∷ []) v }
    ensures values_before_the_separator { (v : UnreadLine)
        × Run (fresh (codes "-a" ∷ codes "--" ∷ codes "b" ∷ [])) (next ∷ values 9 ∷ next ∷ [])
        (short 0x61 ∷ missing (Some (codes "-a")) ∷ positional (codes "b") ∷ []) v }
    ensures values_after_the_separator { (v : UnreadLine)
        × Run (fresh (codes "--" ∷ codes "-x" ∷ codes "--" ∷ [])) (next ∷ values 9 ∷ next ∷ [])
        (positional (codes "-x") ∷ items (codes "--" ∷ []) ∷ end ∷ []) v }
    ensures pending_is_refused { (v : UnreadLine)
        × Run (fresh (codes "-ab" ∷ codes "c" ∷ codes "d" ∷ []))
        (next ∷ try_raw 9 ∷ raw 9 ∷ try_raw 9 ∷ next ∷ [])
        (short 0x61 ∷ busy ∷ unexpected (codes "-a") (codes "b") ∷ items
        (codes "c" ∷ codes "d" ∷ []) ∷ end ∷ []) v }
    ensures raw_separator { (v : UnreadLine)
        × Run (fresh (codes "--" ∷ codes "-x" ∷ [])) (raw 1 ∷ next ∷ [])
        (items (codes "--" ∷ []) ∷ short 0x78 ∷ []) v }
{}

// After `next` on the words `-ab c -d` and on the words `-a=b c`. The line of the fourth example is
// one that no parser can be.
fn items_come_one_by_one()
    ensures values { ValueItems 4 going_on (record (fresh (codes "c" ∷ codes "-d" ∷ [])) {
      tail = rest (codes "b");
      last = short_option 0x61;
    })
        (codes "b" ∷ codes "c" ∷ []) (record (fresh (codes "-d" ∷ [])) {
          last = short_option 0x61;
        }) at_end }
    ensures joined_value { ValueItems 2 going_on (record (fresh (codes "c" ∷ [])) {
      tail = rest (codes "=b");
      last = short_option 0x61;
    })
        (codes "b" ∷ []) (record (fresh (codes "c" ∷ [])) { last = short_option 0x61 }) at_end }
    ensures words { WordItems 3 (fresh (codes "a" ∷ codes "--" ∷ [])) (codes "a" ∷ codes "--" ∷ [])
        (fresh []) }
{}

// On the words `a b`, and on none: the next word is taken if and only if the condition returns
// `true` for it.
fn words_are_taken_on_a_condition()
    ensures taken { TakesIf (λ word answer. answer ≡ true) (fresh (codes "a" ∷ codes "b" ∷ []))
        (Some (codes "a")) (fresh (codes "b" ∷ [])) }
    ensures left { TakesIf (λ word answer. answer ≡ false) (fresh (codes "a" ∷ codes "b" ∷ [])) None
        (fresh (codes "a" ∷ codes "b" ∷ [])) }
    ensures nothing_asked { (answer : Bool) → TakesIf (λ word parsed. parsed ≡ answer) (fresh []) None
        (fresh []) }
    ensures not_left { TakesIf (λ word answer. answer ≡ true) (fresh (codes "a" ∷ codes "b" ∷ []))
        None (fresh (codes "a" ∷ codes "b" ∷ [])) → ⊥ }
    ensures not_taken { TakesIf (λ word answer. answer ≡ false)
        (fresh (codes "a" ∷ codes "b" ∷ [])) (Some (codes "a")) (fresh (codes "b" ∷ [])) → ⊥ }
    ensures no_other_word { TakesIf (λ word answer. answer ≡ true)
        (fresh (codes "a" ∷ codes "b" ∷ [])) (Some (codes "b")) (fresh (codes "a" ∷ [])) → ⊥ }
{}

// The segments of runs with these replies.
fn bytes_are_accounted_for()
    ensures words { (v : UnreadLine)
        × AccountedRun (fresh (codes "a" ∷ codes "--" ∷ codes "-b" ∷ []))
        (raw_if (codes "x") ∷ raw_if (codes "a") ∷ raw 0 ∷ next ∷ raw_if (codes "-b") ∷ next ∷ [])
        (maybe None ∷ maybe (Some (codes "a")) ∷ items [] ∷ positional (codes "-b") ∷ maybe None ∷
        end ∷ [])
        (given (codes "a") ∷ mark (codes "--") ∷ given (codes "-b") ∷ []) v }
    ensures options { (v : UnreadLine)
        × AccountedRun (fresh (codes "-a=b" ∷ codes "--n=x" ∷ [])) (next ∷ value ∷ next ∷ next ∷ [])
        (short 0x61 ∷ taken (codes "b") ∷ long (codes "n") ∷ unexpected (codes "--n") (codes "x") ∷
        [])
        (mark (codes "-") ∷ given (codes "a") ∷ mark (codes "=") ∷ given (codes "b")
        ∷ mark (codes "--") ∷ given (codes "n") ∷ mark (codes "=") ∷ given (codes "x") ∷ []) v }
    ensures damaged { (v : UnreadLine)
        × AccountedRun (fresh ((0x2D ∷ 0xF0 ∷ 0x9D ∷ 0x61 ∷ []) ∷ [])) (next ∷ optional ∷ [])
        (short 0xFFFD ∷ maybe (Some (codes "a")) ∷ [])
        (mark (codes "-") ∷ damage (0xF0 ∷ 0x9D ∷ []) ∷ given (codes "a") ∷ []) v }
{}

// What is left after `next` on the words `-ab c d e`, and a call that is cut short.
fn calls_are_cut_short()
    ensures at_once { let u : UnreadLine =
        record (fresh (codes "c" ∷ codes "d" ∷ codes "e" ∷ [])) {
          tail = rest
              (codes "b");
          last = short_option 0x61;
        } in
        Part u (values 3 ∷ raw 9 ∷ []) u }
    ensures after_an_item { let u : UnreadLine =
        record (fresh (codes "c" ∷ codes "d" ∷ codes "e" ∷ [])) {
          tail = rest
              (codes "b");
          last = short_option 0x61;
        } in
        Part u (values 3 ∷ raw 9 ∷ []) (record u { tail = no_tail }) }
    ensures after_a_call { let u : UnreadLine =
        record (fresh (codes "c" ∷ codes "d" ∷ codes "e" ∷ [])) {
          tail = rest
              (codes "b");
          last = short_option 0x61;
        } in
        Part u (values 2 ∷ raw 9 ∷ []) (record u { tail = no_tail; words = codes "e" ∷ [] }) }
{}

// On the words `a b`: a call for one item may take the first word, and never takes both.
fn no_item_more_is_taken()
    ensures one_value { Part (fresh (codes "a" ∷ codes "b" ∷ [])) (values 1 ∷ [])
        (fresh (codes "b" ∷ [])) }
    ensures two_values { Part (fresh (codes "a" ∷ codes "b" ∷ [])) (values 1 ∷ []) (fresh []) → ⊥ }
    ensures one_word { Part (fresh (codes "a" ∷ codes "b" ∷ [])) (raw 1 ∷ [])
        (fresh (codes "b" ∷ [])) }
    ensures two_words { Part (fresh (codes "a" ∷ codes "b" ∷ [])) (raw 1 ∷ []) (fresh []) → ⊥ }
    ensures one_word_tried { Part (fresh (codes "a" ∷ codes "b" ∷ [])) (try_raw 1 ∷ [])
        (fresh (codes "b" ∷ [])) }
    ensures two_words_tried { Part (fresh (codes "a" ∷ codes "b" ∷ [])) (try_raw 1 ∷ []) (fresh [])
        → ⊥ }
{}

// The bound of a line, and the replies of a run that reaches the end of the line.
#[tactic(auto, unfolding(lexopt_line_spec::proofs::Computing::computing))]
fn replies_are_counted()
    ensures cluster { bound (fresh (codes "-abc" ∷ [])) ≡ 3 }
    ensures cluster_replies { replies_count (short 0x61 ∷ short 0x62 ∷ short 0x63 ∷ end ∷ []) ≡ 3 }
    ensures joined_name { bound (fresh (codes "--=" ∷ [])) ≡ 2 }
    ensures joined_name_replies { replies_count (long [] ∷ unexpected (codes "--") [] ∷ end ∷ [])
        ≡ 2 }
    ensures joined_name_read { bound (record (fresh []) {
      tail = joined [];
      last = long_option [];
    }) ≡ 1 }
    ensures all_kinds_of_words { bound
        (fresh ([] ∷ codes "--=" ∷ codes "--=3" ∷ codes "-" ∷ codes "-x" ∷ codes "--" ∷ codes "-" ∷
        codes "-x" ∷ codes "--" ∷ [] ∷ codes "-" ∷ codes "-x" ∷ [])) ≡ 15 }
    ensures views { replies_count
        (items (codes "b" ∷ codes "c" ∷ []) ∷ items [] ∷ maybe None ∷ maybe (Some []) ∷ taken [] ∷
        positional [] ∷ []) ≡ 5 }
    ensures nothing_given { replies_count (end ∷ busy ∷ done ∷ missing None ∷ no_memory ∷ []) ≡ 0 }
    ensures replies_to_next { next_replies (next ∷ value ∷ next ∷ next ∷ optional ∷ next ∷ [])
        (short 0x61 ∷ taken (codes "b") ∷ no_memory ∷ positional (codes "c") ∷ maybe None ∷ end ∷
        [])
        ≡ short 0x61 ∷ positional (codes "c") ∷ end ∷ [] }
    ensures no_reply_to_next { next_replies (value ∷ next ∷ []) (no_memory ∷ no_memory ∷ []) ≡ [] }
{}
