// Sets of numbers below 65,536, one bit each: bit n / 2048 of word n % 2048 says whether n is in the set. Neighbouring numbers are in
// different words, so that marking one does not wait until the word of the other is stored.
#![tactic(auto)]

ghost use Rattle.std.specs.Prelude.{◌≡◌};
ghost use Rattle.flags.specs.parts.Flags.{no_numbers, is_set, with_number};

// A set has this many words of 32 bits.
const WORDS: usize = 2048;

// The last number that has a bit.
const LAST_NUMBER: usize = 65535;

// A set of numbers.
#[derive(Clone, Copy)]
pub struct Flags {
    pub words: [u32; WORDS],
}

impl Flags {
    // The empty set.
    pub fn none() -> Flags
        ensures { result.words ≡ no_numbers }
    {
        Flags { words: [0; WORDS] }
    }

    // Puts n into the set, and returns whether it was there before. A number above 65,535 is never there.
    pub fn mark(&mut self, n: usize) -> bool
        ensures before { result ≡ is_set self.old.words n }
        ensures after { self.new.words ≡ with_number self.old.words n }
    {
        if LAST_NUMBER < n {
            return false;
        }
        let place = n % WORDS;
        let bit = n / WORDS;
        let word = self.words[place];
        self.words[place] = word | (1 << bit);
        (word >> bit) % 2 == 1
    }
}
