// Sums in eight columns: word k of a run goes to column k modulo 8, so that of the sums of a turn none waits for another.
ghost use Rattle.std.specs.Prelude.{◌≡◌, ◌+◌, ◌*◌, ◌≤◌, length};
ghost use Rattle.words.specs.Word.{words_from};
ghost use Rattle.fletcher.specs.Fletcher.{added_all};
ghost use Rattle.fletcher.specs.Columns.{plus, sums_of};

use crate::Sums;
use words::word_at;

// Of each column, modulo 2^32, the sum of its words, and the sum of what that was before each turn.
#[derive(Clone, Copy)]
pub struct Columns {
    pub lows: [u32; 8],
    pub befores: [u32; 8],
}

// The eight words from word i of a on.
fn eight_words(a: &[u8], i: usize) -> [u32; 8]
    requires { 4 * (i + 8) ≤ length a.now }
    ensures { result ≡ words_from a.now i 8 }
{
    let mut words = [0u32; 8];
    for j in 0..8 {
        words[j] = word_at(a, i + j);
    }
    words
}

// Two rows added column by column, modulo 2^32.
fn plus_row(x: [u32; 8], y: [u32; 8]) -> [u32; 8]
    ensures { result ≡ plus x y }
{
    let mut row = [0u32; 8];
    for j in 0..8 {
        row[j] = x[j].wrapping_add(y[j]);
    }
    row
}

impl Columns {
    // The columns after a turn: what each has is added to its befores, and then it gets one word more, of the eight from word i of a on.
    #[tactic(auto, using(crate::proofs::Rows::turn_columns))]
    fn turn(self, a: &[u8], i: usize) -> Self
        requires { 4 * (i + 8) ≤ length a.now }
        ensures { sums_of result ≡ added_all (sums_of self) (words_from a.now i 8) }
    {
        let lows = plus_row(self.lows, eight_words(a, i));
        let befores = plus_row(self.befores, self.lows);
        Columns { lows, befores }
    }

    // The columns of n turns, from word i of a on.
    pub fn of_turns(a: &[u8], i: usize, n: usize) -> Self
        requires { 4 * (i + 8 * n) ≤ length a.now }
        ensures { sums_of result ≡ added_all (record { low = 0; high = 0 }) (words_from a.now i (8 * n)) }
    {
        let mut columns = Columns {
            lows: [0u32; 8],
            befores: [0u32; 8],
        };
        for k in 0..n {
            columns = columns.turn(a, i + 8 * k);
        }
        columns
    }

    // The sums of all the words: high has what was in the columns before each turn eight times, and what column j has now 8 - j times.
    pub fn sums(self) -> Sums
        ensures { result ≡ sums_of self }
    {
        let Columns { lows, befores } = self;
        let mut low: u64 = 0;
        let mut high: u64 = 0;
        for j in 0..8 {
            let own = u64::from(lows[j]);
            low += own;
            high += 8 * u64::from(befores[j]) + (8 - j) as u64 * own;
        }
        Sums {
            low: (low % 4294967296) as u32,
            high: (high % 4294967296) as u32,
        }
    }
}
