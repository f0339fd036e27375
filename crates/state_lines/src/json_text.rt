use itoa::Buffer;
use std::alloc::{AllocError, Global};

/// A text of JSON objects. All numbers go through one buffer of digits.
#[derive(Drop)]
pub(crate) struct JsonText {
    text: String,
    digits: Buffer,
}

impl JsonText {
    /// An empty text.
    pub(crate) fn new(alloc: Global) -> JsonText {
        JsonText {
            text: String::new(alloc),
            digits: Buffer::new(),
        }
    }

    pub(crate) fn len(&self) -> usize {
        self.text.len()
    }

    pub(crate) fn as_bytes(&self) -> &[u8] {
        self.text.as_bytes()
    }

    /// Empties it, and keeps its room.
    pub(crate) fn clear(&mut self) {
        self.text.clear();
    }

    /// Signs of JSON, or a word that needs no escapes.
    pub(crate) fn push(&mut self, signs: &str) -> Result<(), AllocError> {
        self.text.push_str(signs)
    }

    /// A number behind these signs.
    pub(crate) fn push_number(&mut self, signs: &str, value: u64) -> Result<(), AllocError> {
        self.text.push_str(signs)?;
        self.text.push_str(self.digits.format(value))
    }

    /// A signed number behind these signs.
    pub(crate) fn push_signed(&mut self, signs: &str, value: i64) -> Result<(), AllocError> {
        self.text.push_str(signs)?;
        self.text.push_str(self.digits.format(value))
    }

    /// A number behind these signs, if there is one.
    pub(crate) fn push_if(&mut self, signs: &str, value: Option<u64>) -> Result<(), AllocError> {
        match value {
            Some(value) => self.push_number(signs, value),
            None => Ok(()),
        }
    }

    /// A word that needs no escapes behind these signs, in quotes.
    pub(crate) fn push_word(&mut self, signs: &str, word: &str) -> Result<(), AllocError> {
        self.text.push_str(signs)?;
        self.text.push_str(word)?;
        self.text.push_str("\"")
    }
}
