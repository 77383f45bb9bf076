//! Laws of these definitions, on which nothing depends. `lexopt_laws` has laws of reading lines.
ghost use Rattle.std.specs.Prelude.{◌≡◌, ◌≤◌, ◌<◌, ◌⊎◌, ◌+◌, ◌∷◌, ◌++◌, [], Bool, Contains, List};
ghost use Rattle.std.specs.Prelude.{ℕ, codes, false, length, true};
ghost use Rattle.lexopt_line_spec.specs.Table.{Item, long, short};
ghost use Rattle.lexopt_line_spec.specs.Spelling.{Spells};
ghost use Rattle.lexopt_options_spec.specs.Completion.{AreText};
ghost use Rattle.lexopt_options_spec.specs.Declarable.{first_fault};
ghost use Rattle.lexopt_options_spec.specs.Declaration.{Declaration, Declared, Detail};
ghost use Rattle.lexopt_options_spec.specs.Declaration.{IsFirstFault, Reason, is_sound, table};
ghost use Rattle.lexopt_options_spec.specs.Help.{HasTextNames, IsEntry, IsHelp, IsParagraph};
ghost use Rattle.lexopt_options_spec.specs.Help.{IsUsage, IsUsageLine, LabelForm, Line, ShowsName};
ghost use Rattle.lexopt_options_spec.specs.Help.{before_alone, blanks, columns, entered, gap};
ghost use Rattle.lexopt_options_spec.specs.Help.{help_column, shows};
ghost use Rattle.lexopt_options_spec.specs.Help.{label, line_columns, line_feed, usage_column};

/// The prover computes the first fault of the options that `Options::new` is given. If the names of
/// the options are text, as each `char` and each `&str` is, it finds none if and only if the
/// options can be declared together, and otherwise it finds the first option that cannot be
/// declared after those before it, and the reason.
#[tactic(auto, using(crate::proofs::Declarable::both_ways))]
pub fn declarable_options_are_sound()
    ensures sound { (options : List Declared) → AreText options → first_fault options ≡ None
        → is_sound options ≡ true }
    ensures no_other { (options : List Declared) → AreText options → is_sound options ≡ true
        → first_fault options ≡ None }
    ensures first { (options : List Declared) (index : ℕ) (reason : Reason) → AreText options
        → first_fault options ≡ Some (index, reason) → IsFirstFault options index reason }
{}

/// What the help shows can be typed. If the options can be declared together, and the names of an
/// option are text, then the words of each form that its label shows, with the placeholder as the
/// value, legally spell that form's item and nothing else, under either setting of `short_equals`.
/// The item is the option, with the placeholder as its value unless the form has no value.
#[tactic(auto, using(crate::proofs::Labels::form_spelled))]
pub fn labels_are_spelled()
    ensures { (options : List Declared) (o : Declared) (short_equals : Bool)
        (shown : List ℕ) (words : List (List ℕ)) (item : Item)
        → is_sound options ≡ true → Contains options o → HasTextNames o
        → LabelForm o shown words item → Spells (table options) short_equals words (item ∷ []) }
{}

/// The text by which a label shows a form is part of that label.
#[tactic(auto, using(crate::proofs::LabelTexts::form_occurs))]
pub fn labels_show_forms()
    ensures { (o : Declared) (shown : List ℕ) (words : List (List ℕ)) (item : Item)
        → LabelForm o shown words item
        → (before : List ℕ) × (after : List ℕ) × (label o ≡ before ++ shown ++ after) }
{}

/// The label of an option with a character alone is the text for the character. With a long name
/// alone, it is four blanks, or the flag that the label shows, a comma and a blank, and then the text
/// for that name. With both, it is the text for the character, a comma, a blank, and the text for
/// the long name. The text for a name shows all that the option can spell by that name without a
/// value, or with the placeholder as its only value.
pub fn labels_show_their_names()
    ensures short { (o : Declared) (c : ℕ) → o.short_name ≡ Some c → o.long_name ≡ None
        → ShowsName o (short c) (label o) }
    ensures long { (o : Declared) (name : List ℕ) → o.short_name ≡ None
        → o.long_name ≡ Some name → (shown : List ℕ) × ShowsName o (long name) shown
        × (label o ≡ before_alone o.beside ++ shown) }
    ensures both { (o : Declared) (c : ℕ) (name : List ℕ) → o.short_name ≡ Some c
        → o.long_name ≡ Some name → (first : List ℕ) × (second : List ℕ)
        × ShowsName o (short c) first × ShowsName o (long name) second
        × (label o ≡ first ++ codes ", " ++ second) }
{}

/// If the options can be declared together, the help has each that is not hidden: it has an entry of
/// its own, or the label of an option that has an entry shows it.
pub fn options_are_in_the_help()
    ensures { (options : List Declared) (o : Declared) → is_sound options ≡ true
        → Contains options o → o.hidden ≡ false → Contains (entered options) o
        ⊎ ((p : Declared) × Contains (entered options) p × (shows p o ≡ true)) }
{}

/// For each width, a declaration has exactly one usage, exactly one brief help and exactly one full
/// help.
pub fn each_declaration_has_one_help()
    ensures some_usage { (d : Declaration) (width : ℕ) → (text : List ℕ) × IsUsage width d text }
    ensures no_other_usage { (d : Declaration) (width : ℕ) (text other : List ℕ)
        → IsUsage width d text → IsUsage width d other → text ≡ other }
    ensures some { (detail : Detail) (d : Declaration) (width : ℕ)
        → (text : List ℕ) × IsHelp detail d width text }
    ensures no_other { (detail : Detail) (d : Declaration) (width : ℕ) (text other : List ℕ)
        → IsHelp detail d width text → IsHelp detail d width other → text ≡ other }
{}

/// The words on a line of a usage line end within the width, if they begin at column 7, and so do
/// those on a line of a paragraph, if they begin at column 0, and those on a line of a help text,
/// if they begin at the column of help texts. A line that is one word may be wider. A help text
/// begins at its column: on the line of its label if at least two blanks then come between them,
/// and otherwise on the next line. A line feed inside a word is not counted as the end of a line.
pub fn lines_are_in_columns()
    ensures usage { (width : ℕ) (words : List (List ℕ)) (text : List ℕ)
        (u : IsUsageLine width words text) (line : Line) → Contains u.lines line
        → (usage_column + line_columns line ≤ width) ⊎ (length line ≡ 1) }
    ensures paragraph { (width : ℕ) (content text : List ℕ) (p : IsParagraph width content text)
        (line : Line) → Contains p.lines line
        → (line_columns line ≤ width) ⊎ (length line ≡ 1) }
    ensures entry { (width : ℕ) (shown help text : List ℕ) (e : IsEntry width shown help text)
        (line : Line) → Contains e.lines line
        → (help_column width + line_columns line ≤ width) ⊎ (length line ≡ 1) }
    ensures beside { (column : ℕ) (text : List ℕ) → columns text + 4 ≤ column → (n : ℕ) × (2 ≤ n)
        × (gap column text ≡ blanks n) × (2 + columns text + n ≡ column) }
    ensures below { (column : ℕ) (text : List ℕ) → column < columns text + 4
        → gap column text ≡ line_feed ∷ blanks column }
{}
