// Standard input, or any other reader, into a lent buffer.
#![tactic(auto)]

ghost use Rattle.std.specs.Io.{ReadsAtMost};

use std::io::{Read, Result};

// Reads until the buffer is full or the input ends, and gives how many bytes now stand at its start.
pub fn read_full<R: Read>(reader: &mut R, buf: &mut [u8]) -> Result<usize>
    ensures { ReadsAtMost result buf.new }
{
    // Each read says how far it came. std's read_exact gives no count at the input's end; its copy has a buffer of 8 KiB.
    let mut done = 0;
    while done < buf.len() {
        let n = reader.read(&mut buf[done..])?;
        if n == 0 {
            break;
        }
        done += n;
    }
    Ok(done)
}
