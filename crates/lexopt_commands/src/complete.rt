//! What can come where a word is typed in a line of a program with commands. The file of this name
//! in `lexopt_options` has the same for declared options.
ghost use Rattle.std.specs.Prelude.{◌≡◌, ◌++◌, IfOk, OnOk, string_bytes};
ghost use Rattle.std.specs.List.{flat_map};
ghost use Rattle.lexopt_commands.specs.Completions.{begun_line, name_line, place, place_at_help};
ghost use Rattle.lexopt_commands.specs.Views.{place_view};

use crate::answer::Step;
use crate::call::Call;
use crate::command::{Command, Runs};
use crate::commands::Commands;
use crate::read::{command_of, take_first};
use lexopt_declaration::message::push_help;
use lexopt_options::{Request, RestCompletion, RestStart, complete_rest};
use lexopt_words::os_string::OsString;
use std::alloc::{AllocError, Global};

// Where a word is typed, by the words after the general options.
#[derive(Drop)]
pub(crate) enum Place<'a, C> {
    // After the name of a command, with its key, and these words after the name.
    Command(&'a str, C, Vec<OsString>),
    // Right after a name that asks for the help.
    Help,
    // After words that begin no line.
    Nowhere,
}

// Where a word is typed, by the words after a name that asks for the help.
fn place_at_help<'a, C: Copy>(commands: &[Command<'a, C>], words: Vec<OsString>) -> Place<'a, C>
    ensures { place_view result ≡ place_at_help commands.now words.items }
{
    let mut words = words;
    let Some(word) = take_first(&mut words) else {
        return Place::Help;
    };
    let Some(helped) = command_of(commands, word.as_bytes()) else {
        return Place::Nowhere;
    };
    match helped.runs {
        Runs::Command(key) => Place::Command(helped.name, key, words),
        Runs::Help => Place::Nowhere,
    }
}

// Where a word is typed, by the words after the general options, of which there is one at least.
fn place_after<'a, C: Copy>(commands: &[Command<'a, C>], words: Vec<OsString>) -> Place<'a, C>
    ensures { place_view result ≡ place commands.now words.items }
{
    let mut words = words;
    let Some(word) = take_first(&mut words) else {
        return Place::Nowhere;
    };
    let Some(command) = command_of(commands, word.as_bytes()) else {
        return Place::Nowhere;
    };
    match command.runs {
        Runs::Command(key) => Place::Command(command.name, key, words),
        Runs::Help => place_at_help(commands, words),
    }
}

// Adds the line for a command: `+`, its name, a tab, and its help text.
fn push_name<C>(text: &mut String, command: &Command<'_, C>) -> Result<(), AllocError>
    ensures { OnOk result
        (string_bytes text.new ≡ string_bytes text.old ++ name_line command.now) }
{
    text.push('+')?;
    text.push_str(command.name)?;
    text.push('\t')?;
    push_help(text, command.help)?;
    text.push('\n')
}

// Adds the line for a command if its name begins with what was typed.
fn push_begun<C>(
    text: &mut String,
    command: &Command<'_, C>,
    typed: &OsString,
) -> Result<(), AllocError>
    ensures { OnOk result
        (string_bytes text.new ≡ string_bytes text.old ++ begun_line typed.now command.now) }
{
    if command.name.as_bytes().starts_with(typed.as_bytes()) {
        push_name(text, command)
    } else {
        Ok(())
    }
}

// The lines for the commands whose names begin with what was typed.
fn begun_names<C>(
    alloc: Global,
    commands: &[Command<'_, C>],
    typed: &OsString,
) -> Result<String, AllocError>
    ensures { IfOk result (λ text.
        string_bytes text ≡ flat_map (begun_line typed.now) commands.now) }
{
    let mut text = String::new(alloc);
    for command in commands {
        push_begun(&mut text, command, typed)?;
    }
    Ok(text)
}

impl<'a, C: Copy, F: Copy, V: Copy, M: Copy, S: Copy> Commands<'a, C, F, V, M, S> {
    ghost use Rattle.std.specs.Prelude.{◌≡◌, IfOk, string_bytes};
    ghost use Rattle.lexopt_commands.specs.Completions.{IsCompletionStep, IsPlaced, names_if, place};

    // The lines for the commands whose names begin with what was typed, if a name can come.
    fn names_if(
        &self,
        alloc: Global,
        can_come: bool,
        typed: &OsString,
    ) -> Result<String, AllocError>
        ensures { IfOk result (λ text.
            string_bytes text ≡ names_if self.now typed.now can_come) }
    {
        if can_come {
            begun_names(alloc, self.commands(), typed)
        } else {
            Ok(String::new(alloc))
        }
    }

    // What to do where a word is typed after the general options and this rest of the words.
    fn placed_step(
        &self,
        alloc: Global,
        rest: Vec<OsString>,
        typed: OsString,
    ) -> Result<Step<'a, C, F, V, M, S>, AllocError>
        ensures { IfOk result (λ step. IsPlaced self.now typed
            (place self.now.commands.now rest.items) step) }
    {
        match place_after(self.commands(), rest) {
            Place::Command(name, key, own) => {
                let general = Vec::new(alloc);
                let request = Request::Completion(own, typed);
                let path = self.path_of(alloc, name)?;
                Ok(Step::Command(key, path, Call { general, request }))
            }
            Place::Help => Ok(Step::Text(begun_names(alloc, self.commands(), &typed)?)),
            Place::Nowhere => Ok(Step::Text(String::new(alloc))),
        }
    }

    // What to do where `typed` is typed after these words.
    pub(crate) fn completion_step(
        &self,
        alloc: Global,
        words: Vec<OsString>,
        typed: OsString,
    ) -> Result<Step<'a, C, F, V, M, S>, AllocError>
        ensures { IfOk result (λ step. IsCompletionStep self.now words.items typed step) }
    {
        match complete_rest(alloc, &self.options(), RestStart::Surplus, words, &typed)? {
            RestCompletion::Rest(rest) => self.placed_step(alloc, rest, typed),
            RestCompletion::Text { text, begins_rest } => {
                let mut all = self.names_if(alloc, begins_rest, &typed)?;
                all.push_str(text.as_str())?;
                Ok(Step::Text(all))
            }
        }
    }
}
