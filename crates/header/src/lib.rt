// What the PHY header of a data burst shows: air_code and user_bits of station.rs, the burst number of sender.rs.
#![tactic(auto)]

ghost use Rattle.std.specs.Prelude.{◌≡◌, ◌<◌};
ghost use Rattle.header.specs.Header.{air_code, user_bits, next_burst_id};

// The 4-bit code that level l goes out with.
pub fn air_code(l: usize) -> u16
    requires { l < 17 }
    ensures { result ≡ air_code l }
{
    if l < 5 {
        return l as u16;
    }
    (l - 5 + 2) as u16
}

// For the PHY header of a data burst: its number and check bits are `hi`.
pub fn user_bits(l: usize, session: u8, hi: u8) -> u16
    requires { l < 17 }
    ensures { result ≡ user_bits l session hi }
{
    let code = air_code(l);
    code + 16 * (session as u16) + 4096 * ((hi % 16) as u16)
}

// The number of the burst after burst_id: never the one that the far station last showed it heard.
pub fn next_burst_id(burst_id: u8, heard: bool, peer_heard: u8) -> u8
    ensures { result ≡ next_burst_id burst_id heard peer_heard }
{
    let n = (burst_id % 4 + 1) % 4;
    if heard & (n == peer_heard) {
        return (n + 1) % 4;
    }
    n
}
