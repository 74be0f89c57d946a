// The next line of standard input.
use std::io;
use std::io::Read;
use words::Input;
use words::taken::{Taken, stand, take};

// More of the input, where all that was read is used.
fn refill(input: &mut impl Read, chunk: &mut [u8], i: Input) -> io::Result<Input> {
    if i.at < i.end {
        return Ok(i);
    }
    let end = input.read(chunk)?;
    Ok(Input {
        at: 0,
        end,
        len: i.len,
        kind: i.kind,
    })
}

// The next line: one of more than 65,536 characters breaks the rules, since `line` has room for no more. After an Err the line is incomplete.
pub(crate) fn next_line(
    input: &mut impl Read,
    chunk: &mut [u8],
    line: &mut [u8],
    i: Input,
) -> io::Result<Input> {
    let mut q = stand(i, i.at, 0, Taken::More);
    for _ in 0..65537 {
        q = refill(input, chunk, q)?;
        q = take(chunk, line, q);
        if q.kind != Taken::More {
            break;
        }
    }
    Ok(q)
}
