// The gear's own numbers: a burst's duration, with and without its cue, a burst's loss, a level's share.
ghost use Rattle.std.specs.Prelude.{◌≡◌, ◌≤◌};
ghost use Rattle.float.specs.Gear.{duration as duration_of, cue_seconds, data_seconds, loss_of, share as share_of};

// pre + bits / rate, each operation rounded once.
pub fn duration(pre: f64, rate: f64, bits: u64) -> f64
    ensures { result ≡ duration_of pre rate bits }
{
    pre + std::num::nearest_u64_to_f64(bits) / rate
}

// The seconds of a cue, if one goes.
pub fn cue_s(cue: bool, s: f64) -> f64
    ensures { result ≡ cue_seconds cue s }
{
    if cue { s } else { 0.0 }
}

// data_s: a burst's seconds behind its cue, whose seconds are 0 where none goes.
pub fn data_s(pre: f64, rate: f64, bits: u64, cue: f64) -> f64
    ensures { result ≡ data_seconds pre rate bits cue }
{
    duration(pre, rate, bits) + cue
}

// The share of `sent` frames that did not come through.
pub fn loss(got: u64, sent: u64) -> f32
    requires fact_1 { got ≤ sent }
    requires fact_2 { sent ≤ 64 }
    ensures { result ≡ loss_of got sent }
{
    1.0 - (got as f32) / (sent as f32)
}

// The share of a level that had p, after a burst of which `ok` came through.
pub fn share(p: f32, ok: f32) -> f32
    ensures { result ≡ share_of p ok }
{
    p + 0.3 * (ok - p)
}
