// The sound record of document 01, tested.
#![tactic(auto)]

ghost use Rattle.std.specs.Prelude.{◌≡◌};
ghost use Rattle.config.specs.Ranged.{Ranged};
ghost use Rattle.soundness.specs.Soundness.{sound_ok};

use crate::fields::{gear_ok, link_ok};
use crate::lists::{counts_ok, lists_ok};
use area_check::rows::table_ok;
use config::Profile;
use limits::AREA_BYTES;
use record::Sender;

pub mod fields;
pub mod lists;

// Refusal 3: whether the work area is large enough and the record is sound.
pub fn is_sound(p: Profile, s: Sender, a: &[u8]) -> bool
    requires { Ranged p }
    ensures { result ≡ sound_ok p s a.now }
{
    let c = s.counts;
    let rows = c.pieces;
    let next = c.next_offset;
    let flying = c.flying;
    let short = frame::max_payload(p.short_bytes as usize) as u32;
    let long = frame::max_payload(p.long_bytes as usize) as u32;
    let top = p.codes.h_max();
    if a.len() < AREA_BYTES {
        return false;
    }
    if !counts_ok(s) {
        return false;
    }
    if !table_ok(a, rows, short, long, next, flying) {
        return false;
    }
    if !lists_ok(s, a, long, top) {
        return false;
    }
    gear_ok(s.gear) & link_ok(s.link)
}
