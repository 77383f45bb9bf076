//! Environments with the words and the variables that a test chooses.
ghost use Rattle.std.specs.Io.{WritesAtMost};

use lexopt_base::OsString;
use std::env::{Env, FillError};

// Copies a value into a buffer, or as much of it as fits.
fn fill(buf: &mut [u8], value: &[u8]) -> Result<usize, FillError>
    ensures bound { WritesAtMost result buf.new }
{
    if value.len() > buf.len() {
        buf.copy_from_slice(&value[..buf.len()]);
        return Err(FillError::TooLong);
    }
    buf[..value.len()].copy_from_slice(value);
    Ok(value.len())
}

/// An environment with these words, and without variables. If a word is longer than the buffer, its
/// first bytes are copied, as the runtime does.
#[derive(Drop)]
pub struct Arguments<'a> {
    pub words: &'a [OsString],
}

impl Env for Arguments<'_> {
    fn arg(&self, i: usize, buf: &mut [u8]) -> Result<usize, FillError> {
        match self.words.get(i) {
            Some(word) => fill(buf, word.as_bytes()),
            None => Err(FillError::NotPresent),
        }
    }

    fn var(&self, _name: &str, _buf: &mut [u8]) -> Result<usize, FillError> {
        Err(FillError::NotPresent)
    }

    fn var_at(&self, _i: usize, _buf: &mut [u8]) -> Result<usize, FillError> {
        Err(FillError::NotPresent)
    }
}

/// The same with one variable, if it is set.
#[derive(Drop)]
pub struct Variable<'a> {
    pub arguments: Arguments<'a>,
    pub name: &'a str,
    pub value: Option<&'a [u8]>,
}

impl Env for Variable<'_> {
    fn arg(&self, i: usize, buf: &mut [u8]) -> Result<usize, FillError> {
        self.arguments.arg(i, buf)
    }

    fn var(&self, name: &str, buf: &mut [u8]) -> Result<usize, FillError> {
        match self.value {
            Some(value) if name == self.name => fill(buf, value),
            _ => Err(FillError::NotPresent),
        }
    }

    fn var_at(&self, _i: usize, _buf: &mut [u8]) -> Result<usize, FillError> {
        Err(FillError::NotPresent)
    }
}
