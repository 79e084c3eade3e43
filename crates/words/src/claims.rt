// Words and 64-bit numbers in document 01's bytes: the contract of a function that does nothing.
ghost use Rattle.words.specs.Claims.{WordsClaim};

// The definitions by word number are those of little-endian numbers by byte offset.
pub fn words_in_bytes()
    ensures words_in_bytes { WordsClaim }
{}
