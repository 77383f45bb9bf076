//! Laws of declared options. `laws.rt` has those that all of lexopt shares.
ghost use Rattle.std.specs.Prelude.{◌≡◌, ◌≢◌, ◌≤◌, ◌⊎◌, ◌∷◌, ℕ, List, Contains, slice_get};
ghost use Rattle.std.specs.Prelude.{[], Option, None, Some, false, filter, true};
ghost use Rattle.std.specs.List.{All};
ghost use Rattle.lexopt_line_spec.specs.Table.{Name};
ghost use Rattle.lexopt_options_spec.specs.Asking.{AskFor, first_asked, parsed_before};
ghost use Rattle.lexopt_options_spec.specs.Completion.{AreOwners, AreOwnersIn, AreText};
ghost use Rattle.lexopt_options_spec.specs.Completion.{HasRole, Role};
ghost use Rattle.lexopt_options_spec.specs.Declaration.{Asked, Declaration, Declared, Positional};
ghost use Rattle.lexopt_options_spec.specs.Declaration.{accepts, has_name, index_of, is_sound};
ghost use Rattle.lexopt_options_spec.specs.Declaration.{are_listable, listed};
ghost use Rattle.lexopt_options_spec.specs.Rest.{HaveNoRest, IsSplit, RestStart, surplus};
ghost use Rattle.lexopt_options_spec.specs.Legal.{IsWithin, Parsed, Means, MeansFront};
ghost use Rattle.lexopt_options_spec.specs.Legal.{are_accepted, is_option, most, occurs};
ghost use Rattle.lexopt_options_spec.specs.Legal.{positional_count, positional_words};
ghost use Rattle.lexopt_options_spec.specs.Legal.{option, refused_value, with_defaults};
ghost use Rattle.lexopt_options_spec.specs.Places.{ArePlaces, AreShares, IsNotTaken, least};
ghost use Rattle.lexopt_options_spec.specs.Places.{refused_word, takes_at};
ghost use Rattle.lexopt_options_spec.specs.States.{LeadsNowhere, Leaves, State};
ghost use Rattle.lexopt_options_spec.specs.Stops.{IsOfOption, Mistake, StopsAt};
ghost use Rattle.lexopt_options_spec.specs.Stops.{invalid_argument};
ghost use Rattle.lexopt_laws.specs.ListedValues.{IsFirstOutside, IsFirstRefused, values_of};

/// By a declaration, words mean at most one list. There is at most one mistake at which the reading
/// of the words stops, and at most one list that is read before it. Words that mean a list have no
/// such mistake. If the options can be declared together, words either mean a list or have such a
/// mistake.
pub fn each_line_means_something_or_stops()
    ensures some { (d : Declaration) (words : List (List ℕ)) → is_sound d.options ≡ true
        → ((l : List Parsed) × Means d words l)
        ⊎ ((l : List Parsed) × (m : Mistake) × StopsAt d words l m) }
    ensures one_list { (d : Declaration) (words : List (List ℕ)) (l k : List Parsed) → Means d words l
        → Means d words k → l ≡ k }
    ensures one_stop { (d : Declaration) (words : List (List ℕ)) (l k : List Parsed) (m n : Mistake)
        → StopsAt d words l m → StopsAt d words k n → (l ≡ k) × (m ≡ n) }
    ensures not_both { (d : Declaration) (words : List (List ℕ)) (l k : List Parsed) (m : Mistake)
        → Means d words l → StopsAt d words k m → ⊥ }
{}

/// What is read of a list that a line means: an option that is in the list is read as it is there; one
/// that is not has its default, once, if it has one; and the words of positionals stay.
pub fn options_have_their_defaults()
    ensures given { (options : List Declared) (l : List Parsed) (i : ℕ) → occurs i l ≡ true
        → filter (is_option i) (with_defaults options l) ≡ filter (is_option i) l }
    ensures default { (options : List Declared) (l : List Parsed) (i : ℕ) (o : Declared)
        (value : List ℕ) → slice_get options i ≡ Some o → o.default ≡ Some value
        → occurs i l ≡ false
        → filter (is_option i) (with_defaults options l) ≡ option i (Some value) ∷ [] }
    ensures none { (options : List Declared) (l : List Parsed) (i : ℕ) (o : Declared)
        → slice_get options i ≡ Some o → o.default ≡ None
        → filter (is_option i) (with_defaults options l) ≡ filter (is_option i) l }
    ensures positionals { (options : List Declared) (l : List Parsed)
        → positional_words (with_defaults options l) ≡ positional_words l }
{}

/// At most one role is that of every word that begins with what was typed, is longer, and is not an
/// option: a value of one and the same option, or a positional after the same others.
pub fn each_place_has_one_role()
    ensures { (d : Declaration) (words : List (List ℕ)) (typed : List ℕ) (r s : Option Role)
        → HasRole d words typed r → HasRole d words typed s → r ≡ s }
{}

/// By a declaration, words leave at most one state, with at most one list that was read. This holds
/// for lists with at most as many positionals as the declaration allows.
pub fn words_leave_one_state()
    ensures { (d : Declaration) (words : List (List ℕ)) (l m : List Parsed) (s t : State)
        → Leaves d words l s → IsWithin (positional_count l) (most d.positionals)
        → Leaves d words m t → IsWithin (positional_count m) (most d.positionals)
        → (l ≡ m) × (s ≡ t) }
{}

/// No words both leave a state and lead nowhere. This holds if what was read has at most as many
/// positionals as the declaration allows.
pub fn states_lead_somewhere()
    ensures { (d : Declaration) (words : List (List ℕ)) (l : List Parsed) (s : State)
        → Leaves d words l s → IsWithin (positional_count l) (most d.positionals)
        → LeadsNowhere d words → ⊥ }
{}

/// A line asks for at most one thing, such as the help. If the line means a list, it can only ask
/// for what the first option in that list that asks for anything asks for. If its reading stops at
/// a mistake, it can only ask for what the first such option before the mistake asks for, where an
/// option with an unexpected value does not count.
pub fn each_line_asks_for_one_thing()
    ensures one_asked { (d : Declaration) (words : List (List ℕ)) (a b : Asked)
        → AskFor d words a → AskFor d words b → a ≡ b }
    ensures of_a_list { (d : Declaration) (words : List (List ℕ)) (l : List Parsed) (a : Asked)
        → Means d words l → AskFor d words a → first_asked d.options l ≡ Some a }
    ensures before_a_mistake { (d : Declaration) (words : List (List ℕ)) (l : List Parsed)
        (m : Mistake) (a : Asked) → StopsAt d words l m → AskFor d words a
        → first_asked d.options (parsed_before m l) ≡ Some a }
{}

/// If some options can be declared together, each of them accepts some value. If, besides, each
/// option has a name, the names are text, and the lists of the positionals can be declared, then
/// for each name of an option there is a legal line in which the first option with that name
/// occurs, whichever options are required.
pub fn each_option_can_occur()
    ensures value { (options : List Declared) (o : Declared) → is_sound options ≡ true
        → Contains options o → (value : List ℕ) × (accepts o.words value ≡ true) }
    ensures line { (d : Declaration) (name : Name) (i : ℕ) → is_sound d.options ≡ true
        → are_listable d.positionals ≡ true → AreText d.options
        → ((o : Declared) → Contains d.options o → (n : Name) × (has_name n o ≡ true))
        → index_of d.options name ≡ Some i
        → (words : List (List ℕ)) × (l : List Parsed) × Means d words l × (occurs i l ≡ true) }
{}

/// If an option that was read has a list, the value that it refuses is the first of its values that
/// is not in the list. It refuses no value if and only if each of its values is in the list. An
/// option without a list refuses no value.
pub fn the_first_value_outside_a_list_is_refused()
    ensures refused { (options : List Declared) (o : Declared) (i : ℕ) (list : List (List ℕ))
        (s : Parsed) (value : List ℕ) → slice_get options i ≡ Some o → o.words ≡ listed list
        → is_option i s ≡ true → refused_value options s ≡ Some value
        → IsFirstOutside list (values_of s) value }
    ensures no_other { (options : List Declared) (o : Declared) (i : ℕ) (list : List (List ℕ))
        (s : Parsed) (value : List ℕ) → slice_get options i ≡ Some o → o.words ≡ listed list
        → is_option i s ≡ true → IsFirstOutside list (values_of s) value
        → refused_value options s ≡ Some value }
    ensures none { (options : List Declared) (o : Declared) (i : ℕ) (list : List (List ℕ))
        (s : Parsed) → slice_get options i ≡ Some o → o.words ≡ listed list → is_option i s ≡ true
        → refused_value options s ≡ None → All (Contains list) (values_of s) }
    ensures each { (options : List Declared) (o : Declared) (i : ℕ) (list : List (List ℕ))
        (s : Parsed) → slice_get options i ≡ Some o → o.words ≡ listed list → is_option i s ≡ true
        → All (Contains list) (values_of s) → refused_value options s ≡ None }
    ensures no_list { (options : List Declared) (o : Declared) (i : ℕ) (s : Parsed)
        → slice_get options i ≡ Some o → ((list : List (List ℕ)) → o.words ≢ listed list)
        → is_option i s ≡ true → refused_value options s ≡ None }
{}

/// If words belong to certain positionals, the word that is refused is the first that its
/// positional does not accept. No word is refused if and only if each positional accepts its words.
/// A positional that refuses a word has a list, and the word is not in that list.
pub fn the_first_word_outside_a_list_is_refused()
    ensures first { (ps : List Positional) (places : List ℕ) (words : List (List ℕ)) (i : ℕ)
        (word : List ℕ) → refused_word ps places words ≡ Some (i, word)
        → IsFirstRefused ps places words i word }
    ensures no_other { (ps : List Positional) (places : List ℕ) (words : List (List ℕ)) (i : ℕ)
        (word : List ℕ) → IsFirstRefused ps places words i word
        → refused_word ps places words ≡ Some (i, word) }
    ensures outside { (ps : List Positional) (words : List (List ℕ)) (i : ℕ) (word : List ℕ)
        → IsNotTaken ps words i word → (p : Positional) × (list : List (List ℕ))
        × (slice_get ps i ≡ Some p) × (p.words ≡ listed list) × (¬ Contains list word) }
    ensures none { (ps : List Positional) (places : List ℕ) (words : List (List ℕ)) (n i : ℕ)
        (word : List ℕ) → refused_word ps places words ≡ None → slice_get words n ≡ Some word
        → slice_get places n ≡ Some i → takes_at ps i word ≡ true }
    ensures each { (ps : List Positional) (places : List ℕ) (words : List (List ℕ))
        → ((n i : ℕ) (word : List ℕ) → slice_get words n ≡ Some word
        → slice_get places n ≡ Some i → takes_at ps i word ≡ true)
        → refused_word ps places words ≡ None }
{}

/// In a legal line each word that belongs to a positional with a list is in that list, so no word
/// is refused. The reading of a line stops at the first word that is refused, if the options can be
/// declared together, the words spell declared options that accept their values, and there are
/// neither too few nor too many positionals. This holds even if required options are missing.
pub fn legal_lines_have_words_in_lists()
    ensures in_lists { (d : Declaration) (words : List (List ℕ)) (l : List Parsed)
        (places : List ℕ) (n i : ℕ) (word : List ℕ) (p : Positional) (list : List (List ℕ))
        → Means d words l → ArePlaces d.positionals (positional_count l) places
        → slice_get (positional_words l) n ≡ Some word → slice_get places n ≡ Some i
        → slice_get d.positionals i ≡ Some p → p.words ≡ listed list → Contains list word }
    ensures none_refused { (d : Declaration) (words : List (List ℕ)) (l : List Parsed) (i : ℕ)
        (word : List ℕ) → Means d words l → IsNotTaken d.positionals (positional_words l) i word
        → ⊥ }
    ensures stops { (d : Declaration) (words : List (List ℕ)) (l : List Parsed) (i : ℕ)
        (word : List ℕ) → is_sound d.options ≡ true → MeansFront d words l
        → are_accepted d.options l ≡ true → least d.positionals ≤ positional_count l
        → IsNotTaken d.positionals (positional_words l) i word
        → StopsAt d words l (invalid_argument i word) }
{}

/// If there are at least as many words as the positionals require, and at most as many as they
/// allow, there is exactly one way to say how many of the words belong to each positional. If there
/// are at most as many words as the positionals allow, there is exactly one way to say which
/// positional each word belongs to, even if required ones are missing.
pub fn words_belong_to_one_positional()
    ensures some { (ps : List Positional) (n : ℕ) → least ps ≤ n → IsWithin n (most ps)
        → (shares : List ℕ) × AreShares ps n shares }
    ensures no_other { (ps : List Positional) (n : ℕ) (shares others : List ℕ)
        → AreShares ps n shares → AreShares ps n others → shares ≡ others }
    ensures places { (ps : List Positional) (n : ℕ) → IsWithin n (most ps)
        → (places : List ℕ) × ArePlaces ps n places }
    ensures no_other_places { (ps : List Positional) (n : ℕ) (places others : List ℕ)
        → ArePlaces ps n places → ArePlaces ps n others → places ≡ others }
{}

/// There is at most one list of the positionals that a word after certain words can belong to, and
/// at most one list of those that a word with a certain role can belong to.
pub fn words_can_belong_to_one_list_of_positionals()
    ensures no_other { (ps : List Positional) (words : List (List ℕ)) (owners others : List ℕ)
        → AreOwners ps words owners → AreOwners ps words others → owners ≡ others }
    ensures role { (ps : List Positional) (role : Option Role) (owners others : List ℕ)
        → AreOwnersIn ps role owners → AreOwnersIn ps role others → owners ≡ others }
{}

/// There is at most one way to split words into a front and a rest that starts so. Words that are a
/// front themselves have no surplus positional. If an option of the words has a mistake, they have no
/// rest after a front that is a legal line.
pub fn words_have_one_rest()
    ensures one { (start : RestStart) (d : Declaration) (words front other : List (List ℕ))
        (word first : List ℕ) (more left : List (List ℕ)) → IsSplit start d words front word more
        → IsSplit start d words other first left → (front ≡ other) × (word ∷ more ≡ first ∷ left) }
    ensures alone { (d : Declaration) (words : List (List ℕ)) (l : List Parsed)
        → MeansFront d words l → HaveNoRest surplus d words }
    ensures none { (start : RestStart) (d : Declaration) (words front : List (List ℕ))
        (word : List ℕ) (more : List (List ℕ)) (l m : List Parsed) (mistake : Mistake)
        → StopsAt d words m mistake → IsOfOption mistake → IsSplit start d words front word more
        → Means d front l → ⊥ }
{}
