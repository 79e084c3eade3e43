// A reader of a run log, which keeps hold of the lent log and its place: the work is done by `taken_at`, on a plain slice and an offset.
ghost use Rattle.std.specs.Prelude.{◌≡◌};
ghost use Rattle.runlog.specs.Record.{taken_at};

use crate::record::{Taken, taken_at};

#[derive(Clone, Copy, Debug)]
pub struct LogReader<'a> {
    pub log: &'a [u8],
    pub at: usize,
}

impl<'a> LogReader<'a> {
    // A reader of a log, at a place.
    pub fn new(log: &'a [u8], at: usize) -> Self
        ensures { (result.log ≡ log.entry) × (result.at ≡ at) }
    {
        LogReader { log, at }
    }

    // The record at the reader's place, and the place after it.
    pub fn next(self) -> Option<Taken>
        ensures { result ≡ taken_at self.entry.log.now self.entry.at }
    {
        taken_at(self.log, self.at)
    }

    // The reader, past a record that was taken.
    pub fn past(self, after: usize) -> Self
        ensures { (result.log ≡ self.entry.log) × (result.at ≡ after) }
    {
        LogReader::new(self.log, after)
    }
}

// The next record of a log from a place on: taken through a reader that is made there.
pub fn take(log: &[u8], at: usize) -> Option<Taken>
    ensures { result ≡ taken_at log.now at }
{
    LogReader::new(log, at).next()
}
