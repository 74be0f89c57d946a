// What bench/ measures, as functions for C: a slice is a pointer and a length.
#![tactic(auto)]

ghost use Rattle.std.specs.Prelude.{◌≡◌, ◌*◌, ◌≤◌, length};
ghost use Rattle.frame.specs.V42.{fcs, number};
ghost use Rattle.frame.specs.Frame.{max_payload};
ghost use Rattle.bench_abi.specs.Burst.{bench_frames};

use frame::encode;

#[unsafe(no_mangle)]
pub extern "C" fn vanitycrow_crc32(bytes: &[u8]) -> u32
    ensures { result ≡ number (fcs bytes.now) }
{
    frame::crc::crc32(bytes)
}

// Frames of one payload, one after the other.
#[unsafe(no_mangle)]
pub extern "C" fn vanitycrow_frames(out: &mut [u8], count: usize, size: usize, payload: &[u8])
    requires { (count ≤ 64) × (10 ≤ size) × (count * size ≤ length out.old) × (length payload.now ≤ max_payload size) }
    ensures { out.new ≡ bench_frames out.old count size payload.now }
{
    let t = frame::crc::table();
    let n = payload.len();
    for i in 0..count {
        encode(&t, out, i * size, size, (i * n) as u32, payload);
    }
}
