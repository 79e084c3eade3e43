// Map words and flog pairs in document 01's numbers: each claim the contract of a function that does nothing.
ghost use Rattle.format.specs.Claims.{MapWordsClaim, FlogClaim};

// What a map word reads as and which block it stands for, by plain intervals of the word.
pub fn map_words()
    ensures map_words { MapWordsClaim }
{}

// The successors, the newer half of any two numbers, and a half's words by byte.
pub fn flog_pairs()
    ensures flog_pairs { FlogClaim }
{}
