//! Texts that are put together part by part, where no step of putting can fail. Depends on tsdb_base.
use std::alloc::Global;
use tsdb_base::Memory;

/// A text that is put together part by part. Where memory did not suffice for a part, that is told at the end.
#[derive(Drop)]
pub struct Text {
    alloc: Global,
    bytes: Vec<u8>,
    lacks_memory: bool,
}

impl Text {
    pub fn new(alloc: Global) -> Text {
        Text {
            alloc,
            bytes: Vec::new(alloc),
            lacks_memory: false,
        }
    }

    pub fn put_bytes(&mut self, bytes: &[u8]) {
        if self.bytes.extend_from_slice(bytes).is_err() {
            self.lacks_memory = true;
        }
    }

    pub fn put(&mut self, parts: &[&str]) {
        for part in parts {
            self.put_bytes(part.as_bytes());
        }
    }

    /// Puts the digits of a number.
    pub fn put_number(&mut self, number: u64) {
        match format!(in self.alloc; "{number}") {
            Ok(digits) => self.put_bytes(digits.as_bytes()),
            Err(_) => self.lacks_memory = true,
        }
    }

    /// Whether it is whole, and these are its bytes.
    pub fn is(&self, bytes: &[u8]) -> bool {
        !self.lacks_memory && self.bytes.as_slice() == bytes
    }

    /// Whether it is whole, and these bytes end with it.
    pub fn ends(&self, bytes: &[u8]) -> bool {
        !self.lacks_memory && bytes.ends_with(self.bytes.as_slice())
    }

    pub fn into_bytes(self) -> Result<Vec<u8>, Memory> {
        let Text {
            alloc: _,
            bytes,
            lacks_memory,
        } = self;
        if lacks_memory {
            return Err(Memory);
        }
        Ok(bytes)
    }
}
