// frame.rs: a data frame is written.
#![tactic(auto)]

ghost use Rattle.std.specs.Prelude.{◌≡◌, ◌+◌, ◌≤◌, ◌<◌, length};
ghost use Rattle.laws.specs.Bytes.{overwrite};
ghost use Rattle.frame.specs.Table.{table_of};
ghost use Rattle.frame.specs.Frame.{max_payload, head_of, frame_of};

use crate::crc::crc32_by;
use byte_copy::{Little, copy_in, fill};
use limits::MAX_PAYLOAD;

pub mod crc;

// The most payload bytes of a frame.
pub fn max_payload(size: usize) -> usize
    requires { 10 ≤ size }
    ensures { result ≡ max_payload size }
{
    let room = size - 10;
    room.min(MAX_PAYLOAD)
}

// The six bytes before a payload of n bytes.
fn head(off: u32, n: usize) -> [u8; 6]
    requires { n < 256 }
    ensures { result ≡ head_of off n }
{
    let [low, middle, high, _] = off.to_le_bytes();
    [3, 0, low, middle, high, n as u8]
}

// Writes the data frame of `payload` into `out` at `at`. `t` are crc's tables.
pub fn encode(t: &[u32; 256], out: &mut [u8], at: usize, size: usize, off: u32, payload: &[u8])
    requires { (t.now ≡ table_of) × (at + size ≤ length out.old) × (10 ≤ size) × (length payload.now ≤ max_payload size) }
    ensures { out.new ≡ overwrite out.old at (frame_of size off payload.now) }
{
    let n = payload.len();
    let h = head(off, n);
    let end = at + size - 4;
    copy_in(out, at, &h);
    copy_in(out, at + 6, payload);
    fill(out, at + 6 + n, size - 10 - n, 0);
    let c = crc32_by(t, &out[at..end]);
    u32::store(out, end, c);
}
