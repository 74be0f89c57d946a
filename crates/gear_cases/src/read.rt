// The input, and the stored numbers: low byte first, floats by their bits.
ghost use Rattle.std.specs.Prelude.{◌+◌, ◌≤◌, length, IfOk};

use byte_copy::Little;
use float_bits::Pattern;
use std::io;
use std::io::Read;

// kept: read_exact gives an Err at a short input, and this says how much was read.
// Reads until `out` is full or the input ends, and says how many bytes it put at the start of `out`. After an Err some of `out` may be written.
pub(crate) fn read_full(input: &mut impl Read, out: &mut [u8]) -> io::Result<usize>
    ensures { IfOk result (λ n. n ≤ length out.new) }
{
    let mut done = 0;
    while done < out.len() {
        let n = input.read(&mut out[done..])?;
        if n == 0 {
            break;
        }
        done += n;
    }
    Ok(done)
}

pub(crate) fn f64_at(a: &[u8], at: usize) -> f64
    requires { at + 8 ≤ length a.now }
{
    f64::of_bits(u64::load(a, at))
}

pub(crate) fn f32_at(a: &[u8], at: usize) -> f32
    requires { at + 4 ≤ length a.now }
{
    f32::of_bits(u32::load(a, at))
}

// A profile's numbers, of 8 bytes each.
pub(crate) fn table_of(a: &[u8; 1172]) -> [u64; 146] {
    let mut v = [0u64; 146];
    for k in 0..146usize {
        v[k] = u64::load(a, 8 * k);
    }
    v
}
