//! A call, made by itself and by `replay`.
use lexopt_base::{Arg, Error, Parser};
use lexopt_calls::replay::replay;
use lexopt_calls::reply::{Call, Reply};
use std::alloc::Global;

// More values than a list has words.
const ALL: usize = 4;

/// A call that a sequence makes.
#[derive(Clone, Copy)]
pub enum Step {
    Next,
    Value,
    Optional,
    Values,
}

pub static STEPS: [Step; 4] = [Step::Next, Step::Value, Step::Optional, Step::Values];

fn long_name(alloc: Global, name: &str) -> Result<Reply, Error> {
    Ok(Reply::LongName(String::from_str(alloc, name)?))
}

fn made_next(alloc: Global, parser: &mut Parser) -> Result<Reply, Error> {
    match parser.next()? {
        Some(Arg::Short(option)) => Ok(Reply::Short(option)),
        Some(Arg::Long(name)) => long_name(alloc, name),
        Some(Arg::Value(word)) => Ok(Reply::Positional(word)),
        None => Ok(Reply::End),
    }
}

/// The reply of a call that is made by itself, or its error.
pub fn made(alloc: Global, parser: &mut Parser, step: Step) -> Result<Reply, Error> {
    match step {
        Step::Next => made_next(alloc, parser),
        Step::Value => Ok(Reply::Taken(parser.value()?)),
        Step::Optional => Ok(Reply::Maybe(parser.optional_value())),
        Step::Values => Ok(Reply::Items(parser.values()?.collect(alloc)?)),
    }
}

// Whether `replay` has this reply for a call that was made so.
fn agree(made: &Result<Reply, Error>, reply: &Reply) -> bool {
    match (made, reply) {
        (Ok(made), _) => made == reply,
        (Err(Error::MissingValue { option }), Reply::Missing(name)) => option == name,
        (Err(Error::UnexpectedValue { option, value }), Reply::Unexpected(name, word)) => {
            option == name && value == word
        }
        _ => false,
    }
}

/// Whether `replay` makes the same call so.
pub fn is_replayed(
    alloc: Global,
    parser: &mut Parser,
    step: Step,
    made: &Result<Reply, Error>,
) -> Result<bool, Error> {
    let call = match step {
        Step::Next => Call::Next,
        Step::Value => Call::Value,
        Step::Optional => Call::Optional,
        Step::Values => Call::Values(ALL),
    };
    match replay(alloc, parser, &[call])?.as_slice() {
        [reply] => Ok(agree(made, reply)),
        _ => Ok(false),
    }
}

/// Whether a sequence ends after this call.
pub fn is_last(made: &Result<Reply, Error>) -> bool {
    match made {
        Ok(Reply::End | Reply::Maybe(None)) | Err(Error::MissingValue { .. }) => true,
        _ => false,
    }
}
