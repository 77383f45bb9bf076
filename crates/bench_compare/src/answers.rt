//! The text of results: a letter, and then bytes in hexadecimal digits.
use lexopt_base::{Error, OsString};
use std::alloc::Global;

const DIGITS: [u8; 16] = *b"0123456789abcdef";

#[derive(Drop)]
pub struct Answers {
    text: Vec<u8>,
}

impl Answers {
    pub fn new(alloc: Global) -> Answers {
        Answers {
            text: Vec::new(alloc),
        }
    }

    /// The results so far.
    pub fn text(&self) -> &[u8] {
        self.text.as_slice()
    }

    /// A result without bytes, the first letter of a result, or a separator of results.
    pub fn letter(&mut self, letter: u8) -> Result<(), Error> {
        self.text.push(letter)?;
        Ok(())
    }

    /// A result with these bytes.
    pub fn bytes(&mut self, letter: u8, bytes: &[u8]) -> Result<(), Error> {
        self.letter(letter)?;
        self.field(b':', bytes)
    }

    /// A word, if there is one.
    pub fn word(&mut self, word: Option<OsString>) -> Result<(), Error> {
        match word {
            Some(word) => self.bytes(b'V', word.as_bytes()),
            None => self.letter(b'-'),
        }
    }

    /// A result with all these words.
    pub fn words(&mut self, words: &[OsString]) -> Result<(), Error> {
        self.letter(b'W')?;
        for word in words {
            self.field(b':', word.as_bytes())?;
        }
        Ok(())
    }

    /// The parts of an error, and its message.
    pub fn error(&mut self, error: &Error) -> Result<(), Error> {
        self.parts(error)?;
        let message = error.to_string(*self.text.allocator())?;
        self.field(b'"', message.as_bytes())
    }

    // The parts of an error.
    fn parts(&mut self, error: &Error) -> Result<(), Error> {
        match error {
            Error::MissingValue { option: None } => self.letter(b'M'),
            Error::MissingValue {
                option: Some(option),
            } => self.bytes(b'M', option.as_bytes()),
            Error::UnexpectedOption(option) => self.bytes(b'O', option.as_bytes()),
            Error::UnexpectedArgument(value) => self.bytes(b'A', value.as_bytes()),
            Error::UnexpectedValue { option, value } => {
                self.bytes(b'U', option.as_bytes())?;
                self.field(b':', value.as_bytes())
            }
            Error::ParsingFailed { value, .. } => self.bytes(b'F', value.as_bytes()),
            Error::NonUnicodeValue(value) => self.bytes(b'N', value.as_bytes()),
            Error::Custom(_) => self.letter(b'C'),
            Error::OutOfMemory => self.letter(b'X'),
        }
    }

    fn field(&mut self, mark: u8, bytes: &[u8]) -> Result<(), Error> {
        self.text.push(mark)?;
        for byte in bytes {
            self.text.push(DIGITS[usize::from(*byte >> 4)])?;
            self.text.push(DIGITS[usize::from(*byte & 15)])?;
        }
        Ok(())
    }
}
