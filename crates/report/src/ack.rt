// AckInfo of frame.rs: a long ack is read.
ghost use Rattle.std.specs.Prelude.{◌≡◌, ◌≤◌, length};
ghost use Rattle.report.specs.Ack.{no_report, ack_with, ack_of, report_of};

use crate::{ChanClass, ChanReport, snr_from_q};
use byte_copy::Little;

// A long ack.
#[derive(Clone, Copy)]
pub struct AckInfo {
    pub burst: u8,
    pub bitmap: u64,
    pub snr_db: f32,
    pub delivered: u32,
    pub report: Option<ChanReport>,
}

// Stands where an ack has no report.
fn no_report() -> ChanReport
    ensures { result ≡ no_report }
{
    ChanReport {
        class: ChanClass {
            echo: false,
            doppler: false,
        },
        eff_snr_db: 0.0,
        delay_ms: 0.0 / 0.0,
        doppler_hz: 0.0 / 0.0,
        slot: 0,
    }
}

impl AckInfo {
    // The first 13 bytes, with a report. The delivered offset, bytes 10 to 12, is the upper part of the four bytes from 9 on.
    fn with(b: &[u8], report: Option<ChanReport>) -> AckInfo
        requires { 13 ≤ length b.now }
        ensures { result ≡ ack_with b.now report }
    {
        AckInfo {
            burst: b[0] % 4,
            bitmap: u64::load(b, 1),
            snr_db: snr_from_q(b[9]),
            delivered: u32::load(b, 9) / 256,
            report,
        }
    }

    // None under 13 bytes.
    pub fn from_bytes(b: &[u8]) -> Option<AckInfo>
        ensures { result ≡ ack_of b.now }
    {
        if b.len() < 13 {
            return None;
        }
        if b.len() < 17 {
            return Some(AckInfo::with(b, None));
        }
        Some(AckInfo::with(b, Some(ChanReport::at(b, 13))))
    }

    // The report, or what stands where there is none.
    pub fn report_or_none(self) -> ChanReport
        ensures { result ≡ report_of self }
    {
        self.report.unwrap_or(no_report())
    }
}
