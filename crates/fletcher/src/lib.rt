// Fletcher64 over 32-bit words, and the checksum of an info block.
#![tactic(auto)]

pub mod claims;
mod columns;

ghost use Rattle.std.specs.Prelude.{◌≡◌, ◌+◌, ◌*◌, ◌≤◌, length};
ghost use Rattle.words.specs.Word.{words_from};
ghost use Rattle.fletcher.specs.Fletcher.{added, added_all, value_of, fletcher64, block_checksum};
ghost use Rattle.fletcher.specs.Columns.{joined_run};

use crate::columns::Columns;
use words::{join, word_at};

// The two running sums, each modulo 2^32.
#[derive(Clone, Copy)]
pub struct Sums {
    pub low: u32,
    pub high: u32,
}

impl Sums {
    // The sums of no words.
    pub fn new() -> Self
        ensures { result ≡ record { low = 0; high = 0 } }
    {
        Sums { low: 0, high: 0 }
    }

    // The sums with one word more.
    #[tactic(auto, unfolding(crate::specs::Fletcher::added))]
    pub fn add(self, word: u32) -> Self
        ensures { result ≡ added self word }
    {
        let low = self.low.wrapping_add(word);
        let high = self.high.wrapping_add(low);
        Sums { low, high }
    }

    // The sums with n words more, from word i of a on, one after the other.
    #[tactic(auto, using(crate::proofs::Laws::added_all_from), unfolding(crate::specs::Fletcher::added_all, words::specs::Word::words_from))]
    fn add_singly(self, a: &[u8], i: usize, n: usize) -> Self
        requires { 4 * (i + n) ≤ length a.now }
        ensures { result ≡ added_all self (words_from a.now i n) }
    {
        let mut sums = self;
        for k in 0..n {
            sums = sums.add(word_at(a, i + k));
        }
        sums
    }

    // The sums with a run of n words more, given the sums of that run alone: high also grows by n times the low before.
    #[tactic(auto, using(crate::proofs::Turns::often), unfolding(crate::specs::Columns::joined_run))]
    fn add_run(self, n: usize, run: Sums) -> Self
        ensures { result ≡ joined_run self n run }
    {
        let before = (n % 4294967296) as u64 * u64::from(self.low);
        let high = u64::from(self.high) + before % 4294967296 + u64::from(run.high);
        Sums {
            low: self.low.wrapping_add(run.low),
            high: (high % 4294967296) as u32,
        }
    }

    // The sums with n words more, from word i of a on: turns of eight, and the rest singly.
    #[tactic(auto, using(crate::proofs::Turns::run_and_rest))]
    pub fn add_words(self, a: &[u8], i: usize, n: usize) -> Self
        requires { 4 * (i + n) ≤ length a.now }
        ensures { result ≡ added_all self (words_from a.now i n) }
    {
        let turned = 8 * (n / 8);
        let run = Columns::of_turns(a, i, n / 8).sums();
        self.add_run(turned, run).add_singly(a, i + turned, n % 8)
    }

    // The checksum: high x 2^32 + low.
    pub fn value(self) -> u64
        ensures { result ≡ value_of self }
    {
        join(self.low, self.high)
    }
}

// Fletcher64 of the n words from word i of a on.
#[tactic(auto, unfolding(crate::specs::Fletcher::fletcher64))]
pub fn fletcher64_of(a: &[u8], i: usize, n: usize) -> u64
    requires { 4 * (i + n) ≤ length a.now }
    ensures { result ≡ fletcher64 (words_from a.now i n) }
{
    Sums::new().add_words(a, i, n).value()
}

// The checksum of an info block: its 1,024 words, those of the checksum field counted as zero.
#[tactic(auto, using(crate::proofs::Laws::block_checksum_is))]
pub fn block_checksum(block: &[u8]) -> u64
    requires { 4088 ≤ length block.now }
    ensures { result ≡ block_checksum block.now }
{
    Sums::new().add_words(block, 0, 1022).add(0).add(0).value()
}
