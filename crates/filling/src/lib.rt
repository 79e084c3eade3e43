// Reads a stream into a slice that is lent.
#![tactic(auto)]

ghost use Rattle.std.specs.Counts.{IsPrefixLen};
ghost use Rattle.std.specs.Prelude.{take};
ghost use Rattle.std.specs.Io.KnownBytes.{Consumes};

use std::io::Read;

// Reads once: how many bytes stand at the start of the room, none where the read failed.
fn read_once<R: Read>(stream: &mut R, room: &mut [u8]) -> usize
    ensures prefix_len { IsPrefixLen result room.new }
    ensures bytes { Consumes (R.remaining stream.old) (R.remaining stream.new) (take result room.new) }
{
    stream.read(room).unwrap_or(0)
}

// Reads until the room is full, the stream ends or a read fails: how many bytes stand at the start of the room. They are the stream's next ones.
pub fn fill<R: Read>(stream: &mut R, room: &mut [u8]) -> usize
    ensures prefix_len { IsPrefixLen result room.new }
    ensures bytes { Consumes (R.remaining stream.old) (R.remaining stream.new) (take result room.new) }
{
    let mut done = 0; // The stream says how far each turn goes.
    while done < room.len() {
        let n = read_once(stream, &mut room[done..]);
        if n == 0 {
            break;
        }
        done += n;
    }
    done
}
