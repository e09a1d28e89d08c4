use std::hash::RandomState;
use std::io;
use std::random::RandomSource;

/// The keys for the tables of names.
pub(crate) fn hash_keys(first: u64, second: u64) -> io::Result<RandomState> {
    RandomState::new(&Keys { first, second })
}

/// Two keys, as the bytes that are drawn for them.
#[derive(Drop)]
struct Keys {
    first: u64,
    second: u64,
}

impl RandomSource for Keys {
    fn fill_bytes(&self, bytes: &mut [u8]) -> io::Result<()> {
        let first = self.first.to_le_bytes();
        let second = self.second.to_le_bytes();
        for (byte, key) in bytes.iter_mut().zip(first.iter().chain(&second)) {
            *byte = *key;
        }
        Ok(())
    }
}
