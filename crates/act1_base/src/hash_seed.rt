use std::hash::{BuildHasher, DefaultHasher, Hasher};

/// What the tables of names hash by: SipHash-1-3, fed with some bytes before each name.
///
/// Where nobody who writes a text knows the bytes, no names can be chosen that fall together in a table. What a table answers
/// doesn't depend on them, only how long it takes.
#[derive(Clone, Copy)]
pub struct HashSeed {
    start: DefaultHasher,
}

impl HashSeed {
    /// The seed of these bytes.
    pub fn new(bytes: [u8; 16]) -> HashSeed {
        let mut start = DefaultHasher::new();
        start.write(&bytes);
        HashSeed { start }
    }
}

impl BuildHasher for HashSeed {
    type Hasher = DefaultHasher;

    ghost build_hasher = { λ seed. seed.start };

    fn build_hasher(&self) -> DefaultHasher {
        self.start
    }
}
