//! Laws of the definitions that all of lexopt shares. `option_laws.rt` has those of declared
//! options.
ghost use Rattle.std.specs.Prelude.{◌≡◌, ◌≢◌, ◌⊎◌, ◌<◌, ◌≤◌, ◌+◌, ◌∷◌, ◌++◌, [], ℕ, Bool, true};
ghost use Rattle.std.specs.Prelude.{false, List, Option, None, Some, Ok, Err, drop, length, map};
ghost use Rattle.std.specs.Prelude.{take};
ghost use Rattle.std.specs.Char.{IsScalar};
ghost use Rattle.std.specs.List.{Contains, IsAmong, cons_option, flat_map};
ghost use Rattle.lexopt_spec.specs.Account.{NamesOption, bytes_of, flat, given_of};
ghost use Rattle.lexopt_spec.specs.Account.{bytes_handed_out, handed_items, shown_of};
ghost use Rattle.lexopt_line_spec.specs.Bound.{bound, next_replies, replies_count};
ghost use Rattle.lexopt_spec.specs.Pieces.{IsFirstPiece, after_first_piece, first_piece};
ghost use Rattle.lexopt_spec.specs.Pieces.{lossy_characters, pieces};
ghost use Rattle.lexopt_spec.specs.Runs.{StepWithMemory, Call, Part, Run, account};
ghost use Rattle.lexopt_spec.specs.Runs.{account_with_memory};
ghost use Rattle.lexopt_spec.specs.Runs.{Step, next, optional, raw, raw_if, segments};
ghost use Rattle.lexopt_spec.specs.Runs.{set_short_equals, short_equals_after, try_raw, up_to};
ghost use Rattle.lexopt_spec.specs.Runs.{values};
ghost use Rattle.lexopt_spec.specs.Steps.{Reply, busy, end, items, long, maybe, missing, no_memory};
ghost use Rattle.lexopt_spec.specs.Steps.{short, unexpected};
ghost use Rattle.lexopt_spec.specs.UnreadLine.{IsLine, IsNormalIn, IsPlain, IsPlainFront};
ghost use Rattle.lexopt_spec.specs.UnreadLine.{UnreadLine, dash, equals, fresh, invoked};
ghost use Rattle.lexopt_spec.specs.UnreadLine.{is_plain, long_option, no_tail, pending, short_option};
ghost use Rattle.lexopt_line_spec.specs.Table as table;
ghost use Rattle.lexopt_line_spec.specs.Table.{Item, Table, flag, kind};
ghost use Rattle.lexopt_line_spec.specs.Readings.{IsReading, start};
ghost use Rattle.lexopt_line_spec.specs.Spelling.{HaveWholeNames, Shows, Spells};
ghost use Rattle.lexopt_line_spec.specs.Speller.{Fault, IsAtFault, past_separator, is_of_the_place};
ghost use Rattle.lexopt_line_spec.specs.Speller.{HasFault, SpelledAs, is_positional};
ghost use Rattle.lexopt_laws.specs.OneValueSpelling.{OneValueShows, OneValueSpells, OneValueTable};
ghost use Rattle.lexopt_laws.specs.OneValueSpelling.{widened};
ghost use Rattle.lexopt_spec.specs.Views.{Stage, TakesIf, ValueItem, ValueItems, WordItem};
ghost use Rattle.lexopt_spec.specs.Views.{WordItems, at_end, available, going_on, plain_front};
ghost use Rattle.lexopt_spec.specs.Views.{values_left};

/// The first piece of some bytes, which the definitions compute, is one that table 3-7 of the
/// Unicode Standard allows, if there is at least one byte. The table allows no other: not with
/// other bytes, and not with another character.
pub fn first_piece_is_by_the_table(bytes: &[u8])
    ensures by_the_table { 0 < length bytes.now
        → IsFirstPiece bytes.now (length (first_piece bytes.now).bytes)
        (first_piece bytes.now).char }
    ensures only_one { (size : ℕ) (char : Option ℕ) → IsFirstPiece bytes.now size char
        → (take size bytes.now ≡ (first_piece bytes.now).bytes)
        × (char ≡ (first_piece bytes.now).char) }
{}

/// If there are no bytes, there are no pieces. The pieces of any other bytes are the first piece
/// and then the pieces of the bytes after it.
pub fn pieces_are_in_a_row(bytes: &[u8])
    ensures none { bytes.now ≡ [] → pieces bytes.now ≡ [] }
    ensures more { 0 < length bytes.now
        → pieces bytes.now ≡ first_piece bytes.now ∷ pieces (after_first_piece bytes.now) }
{}

/// If memory does not run out, each call on a line that a parser can have gives exactly one reply
/// and leaves exactly one line. The same holds for each list of calls.
pub fn each_call_has_one_answer()
    ensures some_answer { (call : Call) (u : UnreadLine) → IsLine u → (r : Reply) × (v : UnreadLine)
        × StepWithMemory call u r v }
    ensures no_other { (call : Call) (u v w : UnreadLine) (r s : Reply) → StepWithMemory call u r v
        → StepWithMemory call u s w → (r ≡ s) × (v ≡ w) }
    ensures some_run { (calls : List Call) (u : UnreadLine) → IsLine u → (replies : List Reply)
        × (v : UnreadLine) × Run u calls replies v
        × ¬ IsAmong replies no_memory }
    ensures no_other_run { (calls : List Call) (u v w : UnreadLine) (replies others : List Reply)
        → Run u calls replies v → Run u calls others w
        → ¬ IsAmong replies no_memory → ¬ IsAmong others no_memory → (replies ≡ others) × (v ≡ w) }
{}

/// A call that runs out of memory leaves the line as it was. With enough memory, the same call
/// returns a long option, or an error that names an option. `optional_value`, `try_raw_args` and
/// `set_short_equals` never run out of memory. Nor does `raw_args` if no value is pending, or
/// `values` if at least one value is available.
pub fn some_calls_are_never_refused()
    ensures only { (call : Call) (u v : UnreadLine) → Step call u no_memory v → (v ≡ u)
        × ((r : Reply) × (w : UnreadLine) × StepWithMemory call u r w
        × (((name : List ℕ) × (r ≡ long name)) ⊎ (((option : List ℕ) × (r ≡ missing (Some option)))
        ⊎ ((option : List ℕ) × (value : List ℕ) × (r ≡ unexpected option value))))) }
    ensures optional { (u v : UnreadLine) → Step optional u no_memory v → ⊥ }
    ensures try_raw { (n : ℕ) (u v : UnreadLine) → Step (try_raw n) u no_memory v → ⊥ }
    ensures set_short_equals { (on : Bool) (u v : UnreadLine)
        → Step (set_short_equals on) u no_memory v → ⊥ }
    ensures raw { (n : ℕ) (u v : UnreadLine) → pending u ≡ None → Step (raw n) u no_memory v → ⊥ }
    ensures raw_if { (w : List ℕ) (u v : UnreadLine) → pending u ≡ None
        → Step (raw_if w) u no_memory v → ⊥ }
    ensures values { (n : ℕ) (u v : UnreadLine) → available u ≢ [] → Step (values n) u no_memory v
        → ⊥ }
{}

/// A line that a parser can have has a tail only if it has a last option and its separator has not
/// been read, and a tail that is the rest of a cluster is not empty. A new line is such a line,
/// under either setting of `short_equals`. A line stays one after each call, each list of calls,
/// each item of a view and each `next_if`, even if memory runs out.
pub fn lines_stay_lines()
    ensures start { (words : List (List ℕ)) (on : Bool)
        → IsLine (record (fresh words) { short_equals = on }) }
    ensures invoked { (words : List (List ℕ)) (on : Bool)
        → IsLine (record (invoked words) { short_equals = on }) }
    ensures step { (call : Call) (u v : UnreadLine) (r : Reply) → IsLine u → Step call u r v
        → IsLine v }
    ensures run { (u v : UnreadLine) (calls : List Call) (replies : List Reply) → IsLine u
        → Run u calls replies v → IsLine v }
    ensures value_item { (stage now : Stage) (u v : UnreadLine) (item : Option (List ℕ)) → IsLine u
        → ValueItem stage u item v now → IsLine v }
    ensures word_item { (u v : UnreadLine) (item : Option (List ℕ)) → IsLine u → WordItem u item v
        → IsLine v }
    ensures next_if { (answer : Bool) (u v : UnreadLine) (item : Option (List ℕ)) → IsLine u
        → TakesIf (λ word parsed. parsed ≡ answer) u item v → IsLine v }
{}

/// No call changes the binary name. `set_short_equals` sets `short_equals`, and no other call
/// changes it. A call whose reply is not an option does not change the last option; if `next`
/// returns an option, that is the last option from then on. Once the separator has been read, it
/// stays read. Only `next` reads it.
pub fn other_parts_stay()
    ensures bin_name { (call : Call) (u v : UnreadLine) (r : Reply) → Step call u r v
        → v.bin_name ≡ u.bin_name }
    ensures short_equals { (call : Call) (u v : UnreadLine) (r : Reply) → Step call u r v
        → v.short_equals ≡ short_equals_after u.short_equals call }
    ensures last { (call : Call) (u v : UnreadLine) (r : Reply) → Step call u r v
        → ¬ NamesOption r → v.last ≡ u.last }
    ensures short { (u v : UnreadLine) (c : ℕ) → Step next u (short c) v
        → v.last ≡ short_option c }
    ensures long { (u v : UnreadLine) (name : List ℕ) → Step next u (long name) v
        → v.last ≡ long_option name }
    ensures ended { (call : Call) (u v : UnreadLine) (r : Reply) → Step call u r v
        → u.ended ≡ true → v.ended ≡ true }
    ensures only_next { (call : Call) (u v : UnreadLine) (r : Reply) → Step call u r v
        → call ≢ next → v.ended ≡ u.ended }
{}

/// The test whether a word is plain, which the definitions compute, is true for exactly the plain
/// words. The words that `values` can take are the longest prefix of the unread words in which each
/// word is plain. There is only one such prefix.
pub fn plain_words_are_the_longest_front()
    ensures test { (ended : Bool) (w : List ℕ) → (is_plain ended w ≡ true → IsPlain ended w)
        × (IsPlain ended w → is_plain ended w ≡ true) }
    ensures front { (ended : Bool) (words : List (List ℕ)) → (after : List (List ℕ))
        × IsPlainFront ended words (plain_front ended words) after }
    ensures no_other { (ended : Bool) (words front after : List (List ℕ))
        → IsPlainFront ended words front after → plain_front ended words ≡ front }
{}

/// A view that is asked for an item has exactly one result, and leaves exactly one line. A value
/// that a view yields is the first of the values that were left, and the others are left after it.
/// If a view of values yields nothing, the line stays as it was, and the view never yields anything
/// again. If a view is asked for n items one by one, these are the items of one call with n items,
/// and the line after them is the same, provided that `values` has a value available, or that
/// nothing is pending for `raw_args` and `try_raw_args`. If `values` with n items gives fewer than
/// n, it has given all values that were available.
pub fn items_make_the_call()
    ensures some_value { (stage : Stage) (u : UnreadLine) → (item : Option (List ℕ))
        × (v : UnreadLine) × (now : Stage) × ValueItem stage u item v now }
    ensures no_other_value { (stage now then : Stage) (u v w : UnreadLine)
        (item other : Option (List ℕ)) → ValueItem stage u item v now
        → ValueItem stage u other w then → (item ≡ other) × (v ≡ w) × (now ≡ then) }
    ensures some_word { (u : UnreadLine) → (item : Option (List ℕ)) × (v : UnreadLine)
        × WordItem u item v }
    ensures no_other_word { (u v w : UnreadLine) (item other : Option (List ℕ)) → WordItem u item v
        → WordItem u other w → (item ≡ other) × (v ≡ w) }
    ensures first { (stage now : Stage) (u v : UnreadLine) (item : Option (List ℕ))
        → ValueItem stage u item v now
        → values_left stage u ≡ cons_option item (values_left now v) }
    ensures none { (stage now : Stage) (u v : UnreadLine) → ValueItem stage u None v now → (v ≡ u)
        × (now ≡ at_end) }
    ensures ever { (now : Stage) (u v : UnreadLine) (item : Option (List ℕ))
        → ValueItem at_end u item v now → (item ≡ None) × (v ≡ u) × (now ≡ at_end) }
    ensures values { (n : ℕ) (u v : UnreadLine) (came : List (List ℕ)) (now : Stage)
        → available u ≢ []
        → ValueItems n going_on u came v now → StepWithMemory (values n) u (items came) v }
    ensures all { (n : ℕ) (u v : UnreadLine) (came : List (List ℕ))
        → StepWithMemory (values n) u (items came) v → length came < n → came ≡ available u }
    ensures raw { (n : ℕ) (u v : UnreadLine) (came : List (List ℕ)) → pending u ≡ None
        → WordItems n u came v → StepWithMemory (raw n) u (items came) v }
    ensures try_raw { (n : ℕ) (u v : UnreadLine) (came : List (List ℕ)) → pending u ≡ None
        → WordItems n u came v → StepWithMemory (try_raw n) u (items came) v }
{}

/// `try_raw_args` returns no view if and only if `optional_value` would return a value. After
/// `raw_args` has refused a value, none is pending. A view of `values` or of `try_raw_args` that is
/// asked for nothing leaves the line as it was. `values` has a value available if and only if a
/// value is pending or the next word is plain. In that case the first item that its view yields is
/// a value.
pub fn views_agree()
    ensures busy { (n : ℕ) (u v : UnreadLine) → StepWithMemory (try_raw n) u busy v
        → (value : List ℕ)
        × StepWithMemory optional u (maybe (Some value)) (record u { tail = no_tail }) }
    ensures found { (n : ℕ) (u v : UnreadLine) (value : List ℕ)
        → StepWithMemory optional u (maybe (Some value)) v → StepWithMemory (try_raw n) u busy u }
    ensures refused_once { (n : ℕ) (u v : UnreadLine) (option value : List ℕ)
        → StepWithMemory (raw n) u (unexpected option value) v → pending v ≡ None }
    ensures values_untouched { (u v : UnreadLine) (r : Reply) → StepWithMemory (values 0) u r v
        → v ≡ u }
    ensures words_untouched { (u v : UnreadLine) (r : Reply) → StepWithMemory (try_raw 0) u r v
        → v ≡ u }
    ensures values_found { (u : UnreadLine)
        → (available u ≢ [] → (pending u ≢ None) ⊎ IsNormalIn u.ended u.words)
        × ((pending u ≢ None) ⊎ IsNormalIn u.ended u.words → available u ≢ []) }
    ensures first_item { (u v : UnreadLine) (now : Stage) → available u ≢ []
        → ValueItem going_on u None v now → ⊥ }
{}

/// These hold for each list of calls, under either setting of `short_equals`, and even if memory
/// runs out. The bytes of the line at the start are those of the segments that the calls read, in
/// order, followed by the unread bytes. The bytes that the replies hand out are those that the
/// segments show. The words left are a suffix of the words at the start. If the reply to a call is
/// not an option, its values and words are exactly the given segments of that call. With enough
/// memory, a call on a line has only one list of segments.
pub fn no_byte_is_lost()
    ensures bytes { (u v : UnreadLine) (calls : List Call) (replies : List Reply)
        (run : Run u calls replies v)
        → flat u ≡ bytes_of (segments u calls replies v run) ++ flat v }
    ensures handed_out { (u v : UnreadLine) (calls : List Call) (replies : List Reply)
        (run : Run u calls replies v)
        → flat_map bytes_handed_out replies ≡ shown_of (segments u calls replies v run) }
    ensures as_they_are { (call : Call) (u v : UnreadLine) (r : Reply) (step : Step call u r v)
        → ¬ NamesOption r
        → given_of (account call u r v step) ≡ handed_items r }
    ensures one_account { (call : Call) (u v w : UnreadLine) (r s : Reply)
        (one : StepWithMemory call u r v) (other : StepWithMemory call u s w)
        → account_with_memory call u r v one ≡ account_with_memory call u s w other }
    ensures words { (u v : UnreadLine) (calls : List Call) (replies : List Reply)
        → Run u calls replies v
        → (gone : List (List ℕ)) × (u.words ≡ gone ++ v.words) }
{}

/// The line that a part of a list of calls leaves is the one that some prefix of the calls leaves,
/// or the one that the prefix and then the next call leave, where the next call may be asked for
/// fewer items than the list says, and never gives more. Each line of that sort is the line that a
/// part leaves. The words left after a part are a suffix of the words at the start.
pub fn calls_cut_short_are_a_part()
    ensures front { (u v : UnreadLine) (calls more : List Call) (replies : List Reply)
        → Run u calls replies v → Part u (calls ++ more) v }
    ensures cut { (u v w : UnreadLine) (calls more : List Call) (replies : List Reply) (call : Call)
        (m : ℕ) (reply : Reply)
        → Run u calls replies v → Step (up_to m call) v reply w → Part u (calls ++ call ∷ more) w }
    ensures fewer { (m n : ℕ) → m ≤ n → (up_to m (values n) ≡ values m) × (up_to m (raw n) ≡ raw m)
        × (up_to m (try_raw n) ≡ try_raw m) }
    ensures no_more { (m n : ℕ) (u v : UnreadLine) (came : List (List ℕ))
        → Step (up_to m (values n)) u (items came) v ⊎ (Step (up_to m (raw n)) u (items came) v
        ⊎ Step (up_to m (try_raw n)) u (items came) v)
        → (length came ≤ m) × (length came ≤ n) }
    ensures nothing_else { (u v : UnreadLine) (calls : List Call) → Part u calls v
        → (front : List Call) × (more : List Call) × (replies : List Reply) × (w : UnreadLine)
        × Run u front replies w × (calls ≡ front ++ more)
        × ((v ≡ w) ⊎ ((call : Call) × (others : List Call) × (m : ℕ) × (reply : Reply)
        × (more ≡ call ∷ others) × Step (up_to m call) w reply v)) }
    ensures words { (u v : UnreadLine) (calls : List Call) → Part u calls v → (gone : List (List ℕ))
        × (u.words ≡ gone ++ v.words) }
{}

/// Whatever is called, the options, positionals, values and words in the replies are at most as
/// many as the bound of the line at the start, less the bound of the line at the end. An option
/// that an error names is not counted. If `next` is called more often than the bound at the start,
/// not counting calls that run out of memory, one of these calls returns the end of the line.
pub fn replies_are_bounded()
    ensures bounded { (u v : UnreadLine) (calls : List Call) (replies : List Reply)
        → Run u calls replies v
        → replies_count replies + bound v ≤ bound u }
    ensures ends { (u v : UnreadLine) (calls : List Call) (replies : List Reply)
        → Run u calls replies v → bound u < length (next_replies calls replies)
        → IsAmong (next_replies calls replies) end }
{}

/// Let nothing be pending, let the separator not have been read, and let the next word be a
/// cluster. If `short_equals` is false, or the cluster has no `=` after its first byte, then one
/// call of `next` for each piece of the cluster returns the lossy character of that piece as a
/// short option, and no such call runs out of memory. After these calls nothing is pending, and
/// exactly that word is gone. There are as many lossy characters as pieces, whatever the bytes are.
pub fn clusters_are_read_by_pieces()
    ensures run { (u v : UnreadLine) (b : ℕ) (bs : List ℕ) (words : List (List ℕ))
        (replies : List Reply)
        → u.tail ≡ no_tail → u.ended ≡ false → u.words ≡ (dash ∷ b ∷ bs) ∷ words → b ≢ dash
        → (u.short_equals ≡ false) ⊎ ¬ Contains bs equals
        → Run u (map (λ piece. next) (pieces (b ∷ bs))) replies v
        → (replies ≡ map short (lossy_characters (b ∷ bs))) × (v.tail ≡ no_tail)
        × (v.words ≡ words) }
    ensures as_many { (bytes : List ℕ) → length (lossy_characters bytes) ≡ length (pieces bytes) }
{}

/// If a reading of some words by a table reaches the end of the line, the words show the items that
/// it gives. If words show a list of items, some reading gives that list, and every reading reaches
/// the end and gives that list. So no reading of such words ends in an error.
pub fn readings_mean_what_words_show()
    ensures parsed { (t : Table) (short_equals : Bool) (words : List (List ℕ)) (l : List Item)
        → IsReading t (start short_equals words) end l → Shows t short_equals words l }
    ensures shown { (t : Table) (short_equals : Bool) (words : List (List ℕ)) (l m : List Item)
        (final : Reply)
        → Shows t short_equals words l → IsReading t (start short_equals words) final m
        → (final ≡ end) × (l ≡ m) }
    ensures read { (t : Table) (short_equals : Bool) (words : List (List ℕ)) (l : List Item)
        → Shows t short_equals words l → IsReading t (start short_equals words) end l }
{}

/// Under each table, each line that a parser can have has a reading, which ends at the end of the
/// line or in an error. All readings of a line end in the same way and give the same items.
pub fn each_line_has_one_reading()
    ensures some_reading { (t : Table) (u : UnreadLine) → IsLine u
        → (final : Reply) × (l : List Item) × IsReading t u final l }
    ensures no_other { (t : Table) (u : UnreadLine) (final other : Reply) (l m : List Item)
        → IsReading t u final l → IsReading t u other m → (final ≡ other) × (l ≡ m) }
{}

/// Under each table and each setting of `short_equals`, words show at most one list of items.
pub fn words_show_one_list()
    ensures { (t : Table) (short_equals : Bool) (words : List (List ℕ)) (l m : List Item)
        → Shows t short_equals words l → Shows t short_equals words m → l ≡ m }
{}

/// Words show every list of items that they spell. They spell every list that they show, if no
/// option in the list has U+FFFD in its name.
pub fn whole_names_are_spelled()
    ensures shows { (t : Table) (short_equals : Bool) (words : List (List ℕ)) (l : List Item)
        → Spells t short_equals words l → Shows t short_equals words l }
    ensures spells { (t : Table) (short_equals : Bool) (words : List (List ℕ)) (l : List Item)
        → Shows t short_equals words l → HaveWholeNames l → Spells t short_equals words l }
{}

/// `lexopt_laws` has rules of its own for tables in which each option is a flag or has one value.
/// By these rules, words spell the same lists of items as by the rules for all tables, and show the
/// same lists.
pub fn one_value_tables_agree()
    ensures spelled { (t : OneValueTable) (short_equals : Bool) (words : List (List ℕ))
        (l : List Item)
        → (OneValueSpells t short_equals words l → Spells (widened t) short_equals words l)
        × (Spells (widened t) short_equals words l → OneValueSpells t short_equals words l) }
    ensures shown { (t : OneValueTable) (short_equals : Bool) (words : List (List ℕ))
        (l : List Item)
        → (OneValueShows t short_equals words l → Shows (widened t) short_equals words l)
        × (Shows (widened t) short_equals words l → OneValueShows t short_equals words l) }
{}

/// Each list of items has exactly one result: either the words that the rules of `spell` choose, or
/// an item that cannot be spelled and a reason.
pub fn items_have_one_answer()
    ensures some { (t : Table) (short_equals : Bool) (l : List Item)
        → ((words : List (List ℕ)) × SpelledAs t short_equals l words)
        ⊎ ((f : Fault) × HasFault t short_equals l f) }
    ensures words { (t : Table) (short_equals : Bool) (l : List Item) (words others : List (List ℕ))
        → SpelledAs t short_equals l words → SpelledAs t short_equals l others → words ≡ others }
    ensures fault { (t : Table) (short_equals : Bool) (l : List Item) (f g : Fault)
        → HasFault t short_equals l f → HasFault t short_equals l g → f ≡ g }
    ensures not_both { (t : Table) (short_equals : Bool) (l : List Item) (words : List (List ℕ))
        (f : Fault) → SpelledAs t short_equals l words → HasFault t short_equals l f → ⊥ }
{}

/// The words that the rules of `spell` choose for some items spell these items. If any words show
/// the items, the rules choose words for them. If the rules name an item, it is the item at fault:
/// some words spell the items before it, and no words spell these items and it. At most one item is
/// at fault, and if one is, no words spell the whole list.
pub fn items_are_spelled_or_one_is_at_fault()
    ensures spells { (t : Table) (short_equals : Bool) (words : List (List ℕ)) (l : List Item)
        → SpelledAs t short_equals l words → Spells t short_equals words l }
    ensures shown { (t : Table) (short_equals : Bool) (words : List (List ℕ)) (l : List Item)
        → Shows t short_equals words l
        → (others : List (List ℕ)) × SpelledAs t short_equals l others
        × Spells t short_equals others l }
    ensures fault { (t : Table) (short_equals : Bool) (l : List Item) (f : Fault)
        → HasFault t short_equals l f → IsAtFault t short_equals l f.index }
    ensures one_fault { (t : Table) (short_equals : Bool) (l : List Item) (i j : ℕ)
        → IsAtFault t short_equals l i → IsAtFault t short_equals l j → i ≡ j }
    ensures none { (t : Table) (short_equals : Bool) (words : List (List ℕ)) (l : List Item) (i : ℕ)
        → IsAtFault t short_equals l i → Spells t short_equals words l → ⊥ }
{}

/// If there are words that spell the items under both settings of `short_equals`, the rules of
/// `spell` choose the same words for the items under both settings.
pub fn both_settings_have_one_form()
    ensures { (t : Table) (words : List (List ℕ)) (l : List Item) → Spells t true words l
        → Spells t false words l
        → (others : List (List ℕ)) × SpelledAs t true l others × SpelledAs t false l others }
{}

/// The reasons `PastSeparator` and `DashWithoutFlag` are about the place of the item at fault: some
/// words spell the item right after a flag of one character, whichever flag other than `-` that is.
/// Every other reason is about the item itself: no words spell any list that has the item in it. If
/// the reason is `PastSeparator`, no words spell the items before the one at fault and then an
/// option, whichever option that is.
pub fn reasons_are_of_the_item_or_of_its_place()
    ensures item { (t : Table) (short_equals : Bool) (l : List Item) (f : Fault) (it : Item)
        (others : List Item) → HasFault t short_equals l f
        → is_of_the_place f.reason ≡ false → drop f.index l ≡ it ∷ others
        → (words : List (List ℕ)) (before after : List Item)
        → Spells t short_equals words (before ++ it ∷ after) → ⊥ }
    ensures place { (t : Table) (short_equals : Bool) (l : List Item) (f : Fault) (it : Item)
        (others : List Item) → HasFault t short_equals l f
        → is_of_the_place f.reason ≡ true → drop f.index l ≡ it ∷ others
        → (c : ℕ) → IsScalar c → c ≢ dash → kind t (table.short c) ≡ flag
        → (words : List (List ℕ))
        × Spells t short_equals words (table.option (table.short c) None ∷ it ∷ []) }
    ensures past_separator { (t : Table) (short_equals : Bool) (l : List Item) (f : Fault)
        → HasFault t short_equals l f → f.reason ≡ past_separator
        → (it : Item) → is_positional it ≡ false → (words : List (List ℕ))
        → Spells t short_equals words (take f.index l ++ it ∷ []) → ⊥ }
{}
