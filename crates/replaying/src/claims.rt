// The claims about a replay, each the contract of a function that does nothing.
ghost use Rattle.replaying.specs.Claims.{StepsClaim, ReplayClaim};
ghost use Rattle.replaying.specs.Exhibit.{ReplayExhibited};

// A step lends a sector of which word k is its record's index plus k.
pub fn steps()
    ensures steps { StepsClaim }
{}

// A replay is a history of calls and openings, and its sectors are told word by word.
pub fn replays()
    ensures replays { ReplayClaim }
{}

// A replay that meets the premise: a write that a cut finishes, and a record that is refused.
pub fn exhibited()
    ensures exhibited { ReplayExhibited }
{}
