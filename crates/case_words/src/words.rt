use ic_base::{Args, ComId};
use std::alloc::{AllocError, Global};
use std::str::SplitWhitespace;

/// The words of a line that aren't yet read.
#[derive(Drop)]
pub struct Words<'a> {
    rest: SplitWhitespace<'a>,
}

impl<'a> Words<'a> {
    /// All words of a line.
    pub fn of(line: &'a str) -> Words<'a> {
        Words {
            rest: line.split_whitespace(),
        }
    }

    /// The next word; none is empty.
    pub fn word(&mut self) -> &'a str {
        match self.rest.next() {
            Some(word) => word,
            None => "",
        }
    }

    /// The next word as a number. What isn't one is 0.
    pub fn number(&mut self) -> u64 {
        self.word().parse::<u64>().unwrap_or(0)
    }

    /// The next word as a number of 32 bits. What isn't one is 0.
    pub fn medium(&mut self) -> u32 {
        self.word().parse::<u32>().unwrap_or(0)
    }

    /// The next word as a place or a key. What isn't one is 0.
    pub fn place(&mut self) -> u16 {
        self.word().parse::<u16>().unwrap_or(0)
    }

    /// The next word as a byte. What isn't one is 0.
    pub fn byte(&mut self) -> u8 {
        self.word().parse::<u8>().unwrap_or(0)
    }

    /// The next word as a value. What isn't one is 0.
    pub fn value(&mut self) -> i64 {
        self.word().parse::<i64>().unwrap_or(0)
    }

    /// The next word as the number of a component.
    pub fn com(&mut self) -> ComId {
        ComId(self.byte())
    }

    /// Whether the next word is 1.
    pub fn flag(&mut self) -> bool {
        self.byte() == 1
    }

    /// The words that are left as values, eight at most.
    pub fn args(&mut self, alloc: Global) -> Result<Option<Args>, AllocError> {
        let mut values = Vec::new(alloc);
        for word in &mut self.rest {
            values.push(word.parse::<i64>().unwrap_or(0))?;
        }
        Ok(Args::of(values.as_slice()))
    }

    /// Values behind their count.
    pub fn values(&mut self, alloc: Global) -> Result<Vec<i64>, AllocError> {
        let mut values = Vec::new(alloc);
        for _ in 0..self.place() {
            values.push(self.value())?;
        }
        Ok(values)
    }

    /// The words that are left as numbers.
    pub fn numbers(&mut self, alloc: Global) -> Result<Vec<u64>, AllocError> {
        let mut numbers = Vec::new(alloc);
        for word in &mut self.rest {
            numbers.push(word.parse::<u64>().unwrap_or(0))?;
        }
        Ok(numbers)
    }

    /// The next word as bytes; `-` is none. What isn't hexadecimal is none.
    pub fn bytes(&mut self, alloc: Global) -> Result<Vec<u8>, AllocError> {
        bytes_of(alloc, self.word())
    }
}

/// The bytes for which hexadecimal digits stand. Other text stands for none.
pub fn bytes_of(alloc: Global, digits: &str) -> Result<Vec<u8>, AllocError> {
    match hex::decode(alloc, digits) {
        Ok(bytes) => Ok(bytes),
        Err(_) => Ok(Vec::new(alloc)),
    }
}
