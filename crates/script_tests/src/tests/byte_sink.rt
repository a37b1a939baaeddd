//! Bytes that are put one behind another, where no step of putting can fail.
use std::alloc::Global;

/// Bytes that are put one behind another. What memory did not suffice for is told at the end alone.
#[derive(Drop)]
pub struct ByteSink {
    alloc: Global,
    bytes: Vec<u8>,
    lacks_memory: bool,
}

impl ByteSink {
    pub fn new(alloc: Global) -> ByteSink {
        ByteSink {
            alloc,
            bytes: Vec::new(alloc),
            lacks_memory: false,
        }
    }

    pub fn put(&mut self, bytes: &[u8]) {
        if self.bytes.extend_from_slice(bytes).is_err() {
            self.lacks_memory = true;
        }
    }

    /// Puts a word behind a blank.
    pub fn put_word(&mut self, word: &[u8]) {
        self.put(b" ");
        self.put(word);
    }

    /// Puts the digits of a number.
    pub fn put_digits(&mut self, number: i64) {
        match format!(in self.alloc; "{number}") {
            Ok(digits) => self.put(digits.as_bytes()),
            Err(_) => self.lacks_memory = true,
        }
    }

    /// Puts a number behind a blank.
    pub fn put_number(&mut self, number: i64) {
        self.put(b" ");
        self.put_digits(number);
    }

    /// All bytes, or none where memory ran out.
    pub fn bytes(&self) -> Option<&[u8]> {
        if self.lacks_memory {
            None
        } else {
            Some(self.bytes.as_slice())
        }
    }
}
