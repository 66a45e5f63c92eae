//! The hash of names: SipHash under a key, of four units a word.
ghost use Rattle.std.specs.Prelude.{◌≡◌};
ghost use Rattle.jser_names.specs.Hashing.{finished, keyed_by, with_unit, written};

use std::hash::{BuildHasher, DefaultHasher, Hasher};

/// A key under which names are hashed. Whoever knows it, and writes a stream, can choose names whose count takes a time that grows
/// with the square of their number: take one from a source of random numbers.
#[derive(Clone, Copy)]
pub struct Keyed {
    /// SipHash behind the key.
    begun: DefaultHasher,
}

impl Keyed {
    /// A key that everybody knows.
    pub fn fixed() -> Keyed
        ensures { result ≡ keyed_by 0 }
    {
        Keyed::new(0)
    }

    /// This key.
    pub fn new(key: u64) -> Keyed
        ensures { result ≡ keyed_by key }
    {
        let mut begun = DefaultHasher::new();
        begun.write_u64(key);
        Keyed { begun }
    }
}

impl BuildHasher for Keyed {
    type Hasher = NameHasher;

    ghost build_hasher = { λ keyed. record { words = keyed.begun; waiting = 1 } };

    fn build_hasher(&self) -> NameHasher {
        NameHasher {
            words: self.begun,
            waiting: 1,
        }
    }
}

/// What hashes a name.
#[derive(Clone, Copy)]
pub struct NameHasher {
    words: DefaultHasher,
    /// The units that make no word yet, up to three, behind a 1.
    waiting: u64,
}

impl NameHasher {
    /// One unit more.
    fn unit(&mut self, unit: u16)
        ensures { self.new ≡ with_unit self.old unit }
    {
        if self.waiting < 1 << 48 {
            self.waiting = self.waiting * 65536 + u64::from(unit);
        } else {
            self.words
                .write_u64(self.waiting % (1 << 48) * 65536 + u64::from(unit));
            self.waiting = 1;
        }
    }
}

impl Hasher for NameHasher {
    ghost write = { written };

    ghost finish = { finished };

    fn write(&mut self, bytes: &[u8]) {
        match bytes {
            [low, high] => self.unit(u16::from(*high) * 256 + u16::from(*low)),
            _ => self.words.write(bytes),
        }
    }

    fn finish(&self) -> u64 {
        let mut words = self.words;
        words.write_u64(self.waiting);
        words.finish()
    }
}
