// The claims about the transcript, each the contract of a function that does nothing.
ghost use Rattle.replay.specs.Claims.{TranscriptClaim, WorkSuffices, TableSuffices};

// No opening is refused with 5.
pub fn work_suffices()
    ensures work_suffices { WorkSuffices }
{}

// No opening is refused with 21.
pub fn table_suffices()
    ensures table_suffices { TableSuffices }
{}

// What is written of an arena that is too long, of one that does not open, and of a replay.
pub fn transcripts()
    ensures transcripts { TranscriptClaim }
{}
