// What the gear remembers of each level: shares, failures, holds; and the last three reports.
ghost use Rattle.std.specs.Prelude.{◌≡◌, ◌+◌, ◌<◌, min, slice_index, slice_index_or};
ghost use Rattle.std.specs.Float.{nan};
ghost use Rattle.levels.specs.Memory.{pushed, aim_of, share_after, noted, failed, cleared, faded, hits, marked, channel_failed};

// Per level: whether it was tried, the share of its frames that came through, the time of that, and the bursts lost whole.
#[repr(C)]
#[derive(Clone, Copy)]
pub struct Tries {
    pub tried: [bool; 17],
    pub success: [f32; 17],
    pub success_at: [f64; 17],
    pub fails: [u8; 17],
}

// The last three reports: how many there are; c is the newest, b the one before it, a the oldest.
// kept: the C interface, as the parallel arrays of Tries and Holds.
#[repr(C)]
#[derive(Clone, Copy)]
pub struct Reports {
    pub count: u8,
    pub a: f32,
    pub b: f32,
    pub c: f32,
}

impl Reports {
    // The newest report pushes out the oldest of three.
    pub fn push(self, db: f32) -> Reports
        ensures { result ≡ pushed self db }
    {
        Reports {
            count: self.count.saturating_add(1).min(3),
            a: self.b,
            b: self.c,
            c: db,
        }
    }

    // aim_snr: the newest report, or with smooth_target the lower of it and the median of three.
    pub fn aim(self, smooth: bool) -> f32
        ensures { result ≡ aim_of self smooth }
    {
        if smooth & (self.count >= 3) {
            return float::pick::min(self.c, float::order::median32(self.a, self.b, self.c));
        }
        self.c
    }
}

// A level's share after a burst of which `ok` came through.
fn share_after(tried: bool, p: f32, ok: f32) -> f32
    ensures { result ≡ share_after tried p ok }
{
    if tried { float::gear::share(p, ok) } else { ok }
}

impl Tries {
    // A burst at level k, of which `ok` came through, is noted.
    pub fn note(mut self, k: usize, ok: f32, now: f64) -> Tries
        requires { k < 17 }
        ensures { result ≡ noted self k ok now }
    {
        let share = share_after(self.tried[k], self.success[k], ok);
        self.tried[k] = true;
        self.success[k] = share;
        self.success_at[k] = now;
        self
    }

    // The share of level k.
    pub fn share(self, k: usize) -> f32
        requires { k < 17 }
        ensures { result ≡ slice_index_or self.success k nan }
    {
        self.success[k]
    }

    // The failures of level k with one more.
    pub fn next_fails(self, k: usize) -> u8
        requires { k < 17 }
        ensures { result ≡ min (slice_index self.fails k + 1) 255 }
    {
        self.fails[k].saturating_add(1)
    }

    // One more burst lost whole at level k.
    pub fn fail(mut self, k: usize) -> Tries
        requires { k < 17 }
        ensures { result ≡ failed self k }
    {
        self.fails[k] = self.fails[k].saturating_add(1);
        self
    }

    // A clean burst at level k.
    pub fn clear(mut self, k: usize) -> Tries
        requires { k < 17 }
        ensures { result ≡ cleared self k }
    {
        self.fails[k] = 0;
        self
    }

    // The level's part of channel_failed: a share of 0.7 of what it was, or 0, and one failure more.
    fn mark(mut self, k: usize, at: usize, now: f64) -> Tries
        requires fact_1 { k < 17 }
        requires fact_2 { at < 17 }
        ensures { result ≡ marked at now self k }
    {
        if hits(k, at) {
            let share = faded(self.tried[k], self.success[k]);
            self.tried[k] = true;
            self.success[k] = share;
            self.success_at[k] = now;
            self.fails[k] = self.fails[k].saturating_add(1);
            return self;
        }
        self
    }

    // A whole burst at level `at` lost by the channel counts at the other levels that the channel breaks too.
    pub fn channel_failed(self, at: usize, now: f64) -> Tries
        requires { at < 17 }
        ensures { result ≡ channel_failed self at now }
    {
        let mut t = self;
        for k in 0..17usize {
            t = t.mark(k, at, now);
        }
        t
    }
}

fn faded(tried: bool, p: f32) -> f32
    ensures { result ≡ faded tried p }
{
    if tried { p * (1.0 - 0.3) } else { 0.0 }
}

// Another OFDM level in the same waveform, or a faster one whose guard is no longer.
fn hits(k: usize, at: usize) -> bool
    requires fact_1 { k < 17 }
    requires fact_2 { at < 17 }
    ensures { result ≡ hits at k }
{
    let w = level::wave_rank(k);
    let v = level::wave_rank(at);
    (w >= 3) & (k != at) & ((w == v) | ((k > at) & (level::guard_ms(w) <= level::guard_ms(v))))
}
