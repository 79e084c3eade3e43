// The text of a replay, put into a lent buffer line by line.
ghost use Rattle.std.specs.Prelude.{◌≡◌, ◌++◌, ◌+◌, ◌*◌, ◌≤◌, length, drop, is_some, unwrap_or};
ghost use Rattle.text.specs.Put.{Put};
ghost use Rattle.text.specs.Replay.{record_text, records_text, replay_text, max_records};

use crate::{put_digits, put_line, put_text};

// The line of a record.
fn put_record(out: &mut [u8], at: usize, n: u32, number: u8) -> usize
    requires { at + 30 ≤ length out.old }
    ensures { Put out.old out.new at result (record_text n number) × (result ≤ at + 30) }
{
    let a = put_digits(out, at, n, 10);
    let b = put_text(out, a, b" ");
    if number == 0 {
        return put_text(out, b, b"ok\n");
    }
    put_line(out, b, b"refused ", u32::from(number))
}

// The lines of the records.
fn put_records(out: &mut [u8], numbers: &[u8]) -> usize
    requires { (length numbers.now ≤ max_records) × (30 * max_records ≤ length out.old) }
    ensures { Put out.old out.new 0 result (records_text 0 numbers.now) × (result ≤ 30 * max_records) }
{
    let mut next = 0;
    for (i, number) in numbers.iter().enumerate() {
        next = put_record(out, next, i as u32, *number);
    }
    next
}

// The text of a replay: the first opening's number, those of the records that ran, and where it stopped with 20, if it did.
pub fn put_replay(out: &mut [u8; 65536], first: u32, numbers: &[u8], stopped: Option<u32>) -> usize
    requires { length numbers.now ≤ max_records }
    ensures { let text = replay_text first numbers.now (is_some stopped) (unwrap_or stopped 0) in
        (result ≡ length text) × (out.new ≡ text ++ drop (length text) out.old) }
{
    if first != 0 {
        return put_line(out, 0, b"refused ", first);
    }
    let next = put_records(out, numbers);
    match stopped {
        Some(at) => put_line(out, next, b"stopped 20 at ", at),
        None => next,
    }
}
