// The claims about records and logs, each the contract of a function that does nothing.
ghost use Rattle.runlog.specs.Claims.{RecordClaim, LogClaim};

// A record is found exactly where its bytes stand.
pub fn records()
    ensures records { RecordClaim }
{}

// A log is the bytes of its records, one after another, up to its end or to where no record stands.
pub fn logs()
    ensures logs { LogClaim }
{}
