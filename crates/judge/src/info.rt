// The info block that counts: which of the two it is, and its bytes as the caller's own.
ghost use Rattle.std.specs.Prelude.{◌≡◌, ◌-◌, length, take, drop, true, false, [], MatchOption, IfSome};
ghost use Rattle.layout.specs.Figures.{length_allowed};
ghost use Rattle.infoblock.specs.Info.{counts_number, info_block_of};
ghost use Rattle.judge.specs.Judge.{info_part_of};

use infoblock::{Part, counting, which_counts};
use layout::length_allowed;

// The first and the last 4,096 bytes of an arena; none where the length is not allowed.
fn both_blocks<'a>(arena: &'a [u8]) -> Option<(&'a [u8], &'a [u8])>
    ensures allowed { MatchOption result (length_allowed (length arena.now) ≡ false) (λ blocks. length_allowed (length arena.now) ≡ true) }
    ensures main { IfSome result (λ blocks. blocks.0.now ≡ take 4096 arena.now) }
    ensures copy { IfSome result (λ blocks. blocks.1.now ≡ drop (length arena.now - 4096) arena.now) }
{
    let n = arena.len();
    if length_allowed(n) {
        Some((&arena[0..4096], &arena[n - 4096..]))
    } else {
        None
    }
}

// Which of an arena's two info blocks counts; none where the length is not allowed.
pub fn info_part(arena: &[u8]) -> Option<Part>
    ensures { counts_number result ≡ info_part_of arena.now }
{
    let (main, copy) = both_blocks(arena)?;
    which_counts(main, copy)
}

// The info block that counts in an arena; none where the length is not allowed or neither block is sound.
pub fn info_block<'a>(arena: &'a [u8]) -> Option<&'a [u8]>
    ensures bytes { MatchOption result (info_block_of arena.now ≡ []) (λ b. b.now ≡ info_block_of arena.now) }
    ensures whole { IfSome result (λ b. length b.now ≡ 4096) }
{
    let (main, copy) = both_blocks(arena)?;
    counting(main, copy)
}
