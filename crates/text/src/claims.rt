// The claims about texts, each the contract of a function that does nothing.
ghost use Rattle.text.specs.Claims.{DecimalClaim, TextClaim, ReportTextClaim};

// What a number's digits stand for.
pub fn decimals()
    ensures decimals { DecimalClaim }
{}

// The text of a replay, line by line.
pub fn replay_texts()
    ensures replay_texts { TextClaim }
{}

// A report, line by line, and that on document 01's fresh arena.
pub fn report_text()
    ensures report_text { ReportTextClaim }
{}
