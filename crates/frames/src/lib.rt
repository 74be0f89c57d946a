// The frames of a burst, written back to back.
#![tactic(auto)]

ghost use Rattle.std.specs.Prelude.{◌≡◌, ◌≤◌, length};
ghost use Rattle.laws.specs.Bytes.{overwrite};
ghost use Rattle.frame.specs.Table.{table_of};
ghost use Rattle.frames.specs.Slots.{slots_from};
ghost use Rattle.frames.specs.Frames.{frames_written, SlotsFit};
ghost use Rattle.limits.specs.Limits.{max_slots};

use crate::slots::Slots;
use frame::encode;

pub mod slots;

// Writes the frames of `s`, each of `size` bytes, with the pieces' bytes out of `a`. `t` are crc's tables.
pub fn put_frames(t: &[u32; 256], out: &mut [u8], a: &[u8], s: Slots, size: usize)
    requires { (t.now ≡ table_of) × (s.n ≤ max_slots) × (10 ≤ size) × (length (frames_written size (slots_from s 0 s.n) a.now) ≤ length out.old) × SlotsFit size (length a.now) (slots_from s 0 s.n) }
    ensures { out.new ≡ overwrite out.old 0 (frames_written size (slots_from s 0 s.n) a.now) }
{
    let n = s.n;
    let mut at = 0;
    for i in 0..n {
        let off = s.off[i];
        let start = s.start[i] as usize;
        let end = start + s.len[i] as usize;
        encode(t, out, at, size, off, &a[start..end]);
        at += size;
    }
}
