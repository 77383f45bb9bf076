//! Callers of whole lines and of lists of calls. Their clauses are proved from the clauses of the
//! public calls alone, and state the same by the grammar.
ghost use Rattle.std.specs.Prelude.{◌≡◌, ◌⊎◌, ◌+◌, ◌++◌, ◌≤◌, ℕ, List, Some, map, IfOk, IfErr};
ghost use Rattle.std.specs.Prelude.{Bool, Err, IfSome, OnErr};
ghost use Rattle.std.specs.List.{flat_map};
ghost use Rattle.lexopt_spec.specs.Account.{Segment, bytes_handed_out, bytes_of, flat, shown_of};
ghost use Rattle.lexopt_spec.specs.Runs.{AccountedRun, Part, Run};
ghost use Rattle.lexopt_spec.specs.Steps.{Reply as Answer, end};
ghost use Rattle.lexopt_spec.specs.UnreadLine.{UnreadLine};
ghost use Rattle.lexopt_line_spec.specs.Bound.{bound, replies_count};
ghost use Rattle.lexopt_line_spec.specs.Clusters.{ReadsPieces};
ghost use Rattle.lexopt_line_spec.specs.Readings.{IsReading, start};
ghost use Rattle.lexopt_calls.specs.Script.{IsOutput};
ghost use Rattle.lexopt_line_spec.specs.Speller.{HasFault, IsAtFault, SpelledAs};
ghost use Rattle.lexopt_line_spec.specs.Spelling.{HaveWholeNames, Shows, Spells};
ghost use Rattle.lexopt_line_spec.specs.Table as spec;
ghost use Rattle.lexopt_base.specs.Replies.{error_reply};
ghost use Rattle.lexopt_calls.specs.Lists.{Replays};
ghost use Rattle.lexopt_calls.specs.Replies.{call_view, reply_view};
ghost use Rattle.lexopt_items.specs.Items.{item_view, table_view};
ghost use Rattle.lexopt_items.specs.Lines.{IsAnswered, ShowsNothing};
ghost use Rattle.lexopt_spell.specs.Lines.{NoWordsShow};
ghost use Rattle.lexopt_spell.specs.Models.{reason_view};

use lexopt::replay::{Call, Item, Reply, RunError, Table, read_items, replay, run};
use lexopt::spell::{Reason, SpellError, spell};
use lexopt::{Error, OsString, Parser};
use std::alloc::Global;

/// Makes calls. The clauses account for each byte of the line.
pub fn account(alloc: Global, parser: &mut Parser, calls: &[Call]) -> Result<Vec<Reply>, Error>
    ensures bytes { IfOk result (λ replies. (segments : List Segment)
        × AccountedRun parser.old (map call_view calls.now) (map reply_view replies.items) segments
        parser.new
        × (flat parser.old ≡ bytes_of segments ++ flat parser.new)
        × (flat_map bytes_handed_out (map reply_view replies.items) ≡ shown_of segments)) }
    ensures pieces { IfOk result (λ replies.
        ReadsPieces parser.old (map call_view calls.now) (map reply_view replies.items)
        parser.new) }
    ensures count { IfOk result (λ replies.
        replies_count (map reply_view replies.items) + bound parser.new ≤ bound parser.old) }
    ensures part { OnErr result (Part parser.old (map call_view calls.now) parser.new) }
{
    replay(alloc, parser, calls)
}

/// Spells items, and reads the words. Returns `None` if no words spell the items, or memory runs
/// out.
pub fn read_back(
    alloc: Global,
    items: &[Item],
    short_equals: bool,
    table: &Table,
) -> Option<Vec<Item>>
    ensures { IfSome result (λ back. map item_view back.items ≡ map item_view items.now) }
{
    let Ok(words) = spell(alloc, items, short_equals, table) else {
        return None;
    };
    match read_items(alloc, words, short_equals, table) {
        Ok(back) => Some(back),
        Err(Error::OutOfMemory) => None,
        Err(_) => unreachable!(),
    }
}

/// Reads words, and spells their items. Returns `None` if the words are refused, or memory runs
/// out.
pub fn spelled_again(
    alloc: Global,
    words: Vec<OsString>,
    short_equals: bool,
    table: &Table,
) -> Option<Vec<OsString>>
    ensures end { IfSome result (λ again. (final : Answer) (l : List spec.Item)
        → IsReading (table_view table.now) (start short_equals again.items) final l
        → final ≡ end) }
    ensures same { IfSome result (λ again. (final : Answer) (l : List spec.Item)
        → IsReading (table_view table.now) (start short_equals again.items) final l
        → IsReading (table_view table.now) (start short_equals words.items) end l) }
{
    let Ok(items) = read_items(alloc, words, short_equals, table) else {
        return None;
    };
    match spell(alloc, &items, short_equals, table) {
        Ok(again) => Some(again),
        Err(SpellError::OutOfMemory) => None,
        Err(SpellError::AtFault { .. }) => unreachable!(),
    }
}

/// Reads a whole line.
pub fn read_line(
    alloc: Global,
    words: Vec<OsString>,
    short_equals: bool,
    table: &Table,
) -> Result<Vec<Item>, Error>
    ensures reading { IfOk result (λ items.
        IsReading (table_view table.now) (start short_equals words.items) end
        (map item_view items.items)) }
    ensures refused { IfErr result (λ e. (e ≡ Error.OutOfMemory)
        ⊎ ((final : Answer) × (l : List spec.Item)
        × IsReading (table_view table.now) (start short_equals words.items) final l
        × (error_reply e ≡ Some final))) }
    ensures shown { IfOk result (λ items.
        Shows (table_view table.now) short_equals words.items (map item_view items.items)) }
    ensures spelled { IfOk result (λ items. HaveWholeNames (map item_view items.items)
        → Spells (table_view table.now) short_equals words.items (map item_view items.items)) }
    ensures spellable { IfOk result (λ items. (others : List (List ℕ))
        × Spells (table_view table.now) short_equals others (map item_view items.items)) }
    ensures one_list { (l m : List spec.Item)
        → Shows (table_view table.now) short_equals words.items l
        → Shows (table_view table.now) short_equals words.items m → l ≡ m }
    ensures answered { (l : List spec.Item)
        → Shows (table_view table.now) short_equals words.items l
        → IfOk result (λ items. map item_view items.items ≡ l)
        × IfErr result (λ e. e ≡ Error.OutOfMemory) }
    ensures answered_spelled { (l : List spec.Item)
        → Spells (table_view table.now) short_equals words.items l
        → IfOk result (λ items. map item_view items.items ≡ l)
        × IfErr result (λ e. e ≡ Error.OutOfMemory) }
    ensures no_list { IfErr result (λ e. (e ≡ Error.OutOfMemory) ⊎ ((l : List spec.Item)
        → Shows (table_view table.now) short_equals words.items l → ⊥)) }
{
    read_items(alloc, words, short_equals, table)
}

/// Spells items. The error is the place of the item at fault and the reason, or `None` if memory
/// runs out.
pub fn spell_line(
    alloc: Global,
    items: &[Item],
    short_equals: bool,
    table: &Table,
) -> Result<Vec<OsString>, Option<(usize, Reason)>>
    ensures form { IfOk result (λ words.
        SpelledAs (table_view table.now) short_equals (map item_view items.now) words.items) }
    ensures spelled { IfOk result (λ words.
        Spells (table_view table.now) short_equals words.items (map item_view items.now)) }
    ensures fault { IfErr result (λ e. IfSome e (λ fault.
        HasFault (table_view table.now) short_equals (map item_view items.now)
        (record { index = fault.0; reason = reason_view fault.1 }))) }
    ensures at_fault { IfErr result (λ e. IfSome e (λ fault.
        IsAtFault (table_view table.now) short_equals (map item_view items.now) fault.0)) }
    ensures none { IfErr result (λ e. IfSome e (λ _. (words : List (List ℕ))
        → Shows (table_view table.now) short_equals words (map item_view items.now) → ⊥)) }
{
    match spell(alloc, items, short_equals, table) {
        Ok(words) => Ok(words),
        Err(SpellError::AtFault { index, reason }) => Err(Some((index, reason))),
        Err(SpellError::OutOfMemory) => Err(None),
    }
}

/// The output of a script in memory.
pub fn output_of(alloc: Global, script: &[u8]) -> Result<Vec<u8>, RunError>
    ensures { IfOk result (λ text. IsOutput script.now text.items) }
{
    let mut rest = script;
    let mut text = Vec::new(alloc);
    run(alloc, &mut rest, &mut text)?;
    Ok(text)
}

/// For the prover alone: clauses of `replay`, `read_items` and `spell` that follow from their other
/// clauses, by the grammar.
pub fn clauses_say_the_grammar()
    ensures run { (u v : UnreadLine) (calls : List Call) (replies : List Reply)
        → Replays u calls replies v
        → Run u (map call_view calls) (map reply_view replies) v }
    ensures error { (l : List spec.Item) (e : Error) → IsAnswered l (Err e)
        → e ≡ Error.OutOfMemory }
    ensures no_list { (table : Table) (on : Bool) (words : List (List ℕ)) (l : List spec.Item)
        → ShowsNothing table on words → Shows (table_view table) on words l → ⊥ }
    ensures no_words { (table : Table) (on : Bool) (words : List (List ℕ)) (items : List Item)
        → NoWordsShow table on items
        → Shows (table_view table) on words (map item_view items) → ⊥ }
{}
