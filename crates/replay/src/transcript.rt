// What is written of a replay, as text in a lent buffer.
ghost use Rattle.std.specs.Counts.{IsPrefixLen};
ghost use Rattle.replay.specs.Transcript.{transcript_of, Transcribed};

use machine::refusal::Refusal;
use replaying::replay;
use text::replay::put_replay;

// The longest arena that is opened.
const LIMIT: usize = 49152;

// Replays a log on an arena in memory and writes the transcript to the start of out: how many bytes of it are the text.
pub fn transcript(arena: &mut [u8], log: &[u8], out: &mut [u8; 65536]) -> usize
    ensures transcribed { Transcribed (transcript_of arena.old log.now) result arena.new
        out.old out.new }
    ensures prefix_len { IsPrefixLen result out.new }
{
    if LIMIT < arena.len() {
        return put_replay(out, Refusal::WrongLength.number(), b"", None);
    }
    let mut work = [0u8; 128];
    let mut answers = [0u8; 2048];
    match replay(arena, &mut work, log, &mut answers) {
        Ok(done) => put_replay(out, 0, &answers[..done.records as usize], done.stopped),
        Err(refusal) => put_replay(out, refusal.number(), b"", None),
    }
}
