// Replays a run log on a lent arena: the first opening, then one call of the library for each record that the log's reader gives. The
// table of lane records that it lends to each is its own.
#![tactic(auto)]

ghost use Rattle.std.specs.Prelude.{◌≡◌, ◌≤◌, length, set, Ok};
ghost use Rattle.machine.specs.state.Answer.{number_of};
ghost use Rattle.runlog.specs.Log.{max_log, log_from};
ghost use Rattle.replaying.specs.Replay.{replay_from, replay_of};
ghost use Rattle.replaying.specs.Gave.{point_at, gave, into};

use crate::run::run_record;
use arena::open::open;
use layout::NEAR;
use machine::handle::Handle;
use machine::lane::Lane;
use machine::refusal::{Refusal, number_of};
use runlog::reader::LogReader;
use runlog::record::MAX_LOG;
use table::fill;

pub mod claims;
mod run;

// What a replay whose first opening is accepted gives beside the lent bytes.
#[derive(Clone, Copy, Debug, PartialEq, Eq)]
pub struct Replayed {
    // How many records ran.
    pub records: u32,
    // The offset at which no record stands, and 0 of a log that is too long; none where the log ends where a record does.
    pub stopped: Option<u32>,
}

// Puts what a record answers into the lent buffer, as its number; past its end, nowhere.
fn put_answer(answers: &mut [u8], index: usize, answer: Result<(), Refusal>)
    ensures { answers.new ≡ set answers.old index (number_of answer) }
{
    if index < answers.len() {
        answers[index] = number_of(answer) as u8;
    }
}

// Runs every record of a log, up to the log's end or to where no record stands.
fn run_records(
    arena: &mut [u8],
    work: &mut [u8],
    log: &[u8],
    answers: &mut [u8],
    table: &mut [Lane],
    opened: Handle,
) -> Replayed
    requires { length log.now ≤ max_log }
    ensures { gave (Ok result) arena.new work.new answers.new
        ≡ into (replay_from (log_from log.now 0) (point_at arena.old work.old opened table.old)) answers.old }
{
    let mut handle = opened;
    let mut reader = LogReader::new(log, 0);
    let mut records: u32 = 0;
    while let Some(taken) = reader.next() {
        let answer = run_record(arena, work, table, &mut handle, taken.found, records);
        put_answer(answers, records as usize, answer);
        records += 1;
        reader = reader.past(taken.after);
    }
    Replayed {
        records,
        stopped: (reader.at < log.len()).then_some(reader.at as u32),
    }
}

// Replays a log: opens the arena in the near layout, and runs the log's records on it. A log of more than 8,192 bytes is refused at 0.
pub fn replay(
    arena: &mut [u8],
    work: &mut [u8],
    log: &[u8],
    answers: &mut [u8],
) -> Result<Replayed, Refusal>
    ensures { gave result arena.new work.new answers.new
        ≡ into (replay_of arena.old work.old log.now) answers.old }
{
    let mut table = [Lane::none(); 256];
    let opened = open(arena, work, NEAR, table.len())?;
    if MAX_LOG < log.len() {
        return Ok(Replayed {
            records: 0,
            stopped: Some(0),
        });
    }
    fill(&mut table, &arena[..], opened.handle);
    Ok(run_records(arena, work, log, answers, &mut table, opened.handle))
}
