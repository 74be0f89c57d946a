// report.rs: the channel class and the channel report of a long ack.
#![tactic(auto)]

ghost use Rattle.std.specs.Prelude.{◌≡◌, ◌+◌, ◌≤◌, length};
ghost use Rattle.report.specs.Report.{snr_from_q, class_bits, class_from_bits, spread_of, slot_of, report_at};

pub mod ack;

// The two class bits (report.rs).
#[repr(C)]
#[derive(Clone, Copy)]
pub struct ChanClass {
    // Echoes beyond the 4 ms guard.
    pub echo: bool,
    // Fading too fast for OFDM.
    pub doppler: bool,
}

// What a long ack carries beyond the short one's fields (report.rs).
#[derive(Clone, Copy)]
pub struct ChanReport {
    pub class: ChanClass,
    pub eff_snr_db: f32,
    pub delay_ms: f32,
    pub doppler_hz: f32,
    pub slot: u8,
}

impl ChanClass {
    pub fn bits(self) -> u8
        ensures { result ≡ class_bits self }
    {
        u8::from(self.echo) + 2 * u8::from(self.doppler)
    }

    pub fn from_bits(b: u8) -> ChanClass
        ensures { result ≡ class_from_bits b }
    {
        ChanClass {
            echo: b % 2 == 1,
            doppler: b / 2 % 2 == 1,
        }
    }
}

// The dB that a byte stands for.
pub fn snr_from_q(q: u8) -> f32
    ensures { result ≡ snr_from_q q }
{
    (q as f32) - 24.0
}

// The ms or Hz that a byte stands for.
fn spread(x: u8) -> f32
    ensures { result ≡ spread_of x }
{
    if x == 255 {
        0.0 / 0.0
    } else {
        (x as f32) / 4.0
    }
}

fn slot(s: u8) -> u8
    ensures { result ≡ slot_of s }
{
    if s == 3 { 0 } else { s }
}

impl ChanReport {
    // What ChanReport::from_bytes reads from the four bytes at `at`.
    pub fn at(b: &[u8], at: usize) -> ChanReport
        requires { at + 4 ≤ length b.now }
        ensures { result ≡ report_at b.now at }
    {
        ChanReport {
            class: ChanClass::from_bits(b[at]),
            eff_snr_db: snr_from_q(b[at + 1]),
            delay_ms: spread(b[at + 2]),
            doppler_hz: spread(b[at + 3]),
            slot: slot(b[at] / 4 % 4),
        }
    }
}
