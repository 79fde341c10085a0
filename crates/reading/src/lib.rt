// For programs that read an input into a room of fixed length.
#![tactic(auto)]

ghost use Rattle.std.specs.Prelude.{◌≤◌, ◌<◌, length, take, IfOk, OnErr};
ghost use Rattle.std.specs.Io.KnownBytes.{Consumes, IsAtEnd};
ghost use Rattle.reading.specs.Front.{ConsumesFront};

use std::io::{self, Read};

// Reads until the room is full or the input ends; how many bytes stand at the room's front.
pub fn read_full<R: Read>(input: &mut R, room: &mut [u8]) -> io::Result<usize>
    ensures within { IfOk result (λ n. n ≤ length room.new) }
    ensures bytes { IfOk result (λ n. Consumes (R.remaining input.old) (R.remaining input.new) (take n room.new)) }
    ensures err { OnErr result (ConsumesFront (R.remaining input.old) (R.remaining input.new) room.new) }
    ensures end { IfOk result (λ n. n < length room.new → IsAtEnd (R.remaining input.new)) }
{
    let mut done = 0;
    // Stays: the new form is no plainer. A turn goes on by what its read gave, which no range or iterator knows; `read_exact` fails at a short input.
    while done < room.len() {
        let n = input.read(&mut room[done..])?;
        if n == 0 {
            break;
        }
        done += n;
    }
    Ok(done)
}

#[cfg(test)]
mod tests {
    use super::*;
    use std::test::Fail;

    // Two readers behind one another, of which each read gives bytes of one.
    #[test]
    fn reads_on_behind_a_short_read(rt: HostRuntime) -> Result<(), Fail> {
        let first: &[u8] = b"abc";
        let second: &[u8] = b"de";
        let mut input = first.chain(second);
        let mut room = [0u8; 4];
        let n = read_full(&mut input, &mut room)?;
        assert_eq!(rt; n, 4);
        assert_eq!(rt; room, *b"abcd");
        let rest = read_full(&mut input, &mut room)?;
        assert_eq!(rt; rest, 1);
        assert_eq!(rt; room[0], b'e');
        Ok(())
    }
}
