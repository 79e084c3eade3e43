// The report on an arena, as text in a lent buffer.
ghost use Rattle.std.specs.Counts.{IsPrefixLen};
ghost use Rattle.report.specs.Report.{report_of, Reported};

use arena::open::open;
use layout::NEAR;
use text::{put_opened, put_refused};

// The longest input that is opened.
const LIMIT: usize = 65536;

// The records of a table that has one for each lane that there may be; opening goes by their number alone.
const RECORDS: usize = 256;

// Opens an arena in memory and writes the report to the start of out: how many bytes of it are the text.
pub fn report(input: &mut [u8], out: &mut [u8; 4096]) -> usize
    ensures reported { Reported (report_of input.old) result input.new out.old out.new }
    ensures prefix_len { IsPrefixLen result out.new }
{
    if LIMIT < input.len() {
        return put_refused(out, 1);
    }
    let mut work = [0u8; 128];
    match open(input, &mut work, NEAR, RECORDS) {
        Ok(opened) => put_opened(out, &input[..], opened.handle, opened.mended),
        Err(refusal) => put_refused(out, refusal.number()),
    }
}
