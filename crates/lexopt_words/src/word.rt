//! The kind of one word before the separator: an option, the separator or a positional. `Kind` of
//! `lexopt_items` is how many values an option has.
ghost use Rattle.std.specs.Prelude.{◌↔◌, false, IsTrue};
ghost use Rattle.lexopt_spec.specs.UnreadLine.{IsPlain};
ghost use Rattle.lexopt_words.specs.WordKinds.{IsOfKind};

/// The kind of a word, if the separator has not been read.
#[derive(Clone, Copy)]
pub enum WordKind {
    /// `--`
    Separator,
    /// `--name` or `--name=value`
    Long,
    /// `-abc`: a cluster of short options
    Shorts,
    /// `-`, or a word that does not begin with a dash
    Positional,
}

/// Returns the kind of this word, if the separator has not been read.
pub fn kind_of(word: &[u8]) -> WordKind
    ensures { IsOfKind word.now result }
{
    match word {
        [b'-', b'-', name @ ..] => {
            if name.is_empty() {
                WordKind::Separator
            } else {
                WordKind::Long
            }
        }
        [b'-', _, ..] => WordKind::Shorts,
        _ => WordKind::Positional,
    }
}

/// Returns whether this word is neither an option nor the separator, if that has not been read.
pub fn is_positional(word: &[u8]) -> bool
    ensures { IsTrue result ↔ IsPlain false word.now }
{
    matches!(kind_of(word), WordKind::Positional)
}
