// The transcript's buffer, of which n bytes are used. It is written out between lines, where the next answer might not fit into the rest.
use byte_copy::least;
use std::io;

// Used at most before an answer: 81,920 bytes of the buffer's 131,072 are left. The longest answers are a line of 65,536 digits and some
// words, a burst's 64 frames with 65,536 digits of HEX in all, and the lines of a state with 2,048 pieces.
const FULL: usize = 49152;

// What is in the buffer is written out.
pub(crate) fn flush(rt: &impl Print, t: &[u8], n: usize) -> io::Result<()> {
    let k = least(n, t);
    rt.write_all(&t[..k])
}

// Room for the next answer: how much is used then.
pub(crate) fn room(rt: &impl Print, t: &[u8], n: usize) -> io::Result<usize> {
    if n <= FULL {
        return Ok(n);
    }
    flush(rt, t, n)?;
    Ok(0)
}
