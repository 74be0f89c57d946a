// Check sums of frames, reckoned bit by bit by V.42's rule (8.1.1.6.2), against those that frame reckons and writes.
// The rule: the ones complement of the sum modulo 2 of the remainders of x^k (x^31 + .. + 1), k the number of bits, and of x^32 times the
// bits, divided by the generator. A polynomial is an array of coefficients, 0 or 1, the highest power's first.
// The values in the file stdout were reckoned apart from this program, by the function crc32 of Python's zlib, from frames laid out there anew.
#![tactic(auto)]

ghost use Rattle.std.specs.Prelude.{◌≡◌, ◌+◌, ◌*◌, ◌≤◌, ◌<◌, length};
ghost use Rattle.frame.specs.Table.{table_of};
ghost use Rattle.frame.specs.Frame.{max_payload};

use byte_copy::Little;
use frame::encode;
use std::io;

// x^32 + x^26 + x^23 + x^22 + x^16 + x^12 + x^11 + x^10 + x^8 + x^7 + x^5 + x^4 + x^2 + x + 1, from x^31 down.
const GENERATOR: [u8; 32] = [
    0, 0, 0, 0, 0, 1, 0, 0, 1, 1, 0, 0, 0, 0, 0, 1, 0, 0, 0, 1, 1, 1, 0, 1, 1, 0, 1, 1, 0, 1, 1, 1,
];

// Adds the generator to the 32 coefficients from `at` on.
fn add_generator(p: &mut [u8; 4128], at: usize)
    requires { at + 32 ≤ 4128 }
{
    let g = GENERATOR;
    for j in 0..32 {
        p[at + j] ^= g[j];
    }
}

// n steps of the long division. The remainder is the 32 coefficients from n on.
fn divide(p: &mut [u8; 4128], n: usize)
    requires { n + 32 ≤ 4128 }
{
    for i in 0..n {
        if p[i] == 1 {
            add_generator(p, i + 1);
        }
    }
}

// The bits of a byte, the lowest first.
fn put_byte(p: &mut [u8; 4128], at: usize, b: u8)
    requires { at + 8 ≤ 4128 }
{
    let mut rest = b;
    for j in 0..8 {
        p[at + j] = rest % 2;
        rest /= 2;
    }
}

// The bits of all bytes.
fn put_bytes(p: &mut [u8; 4128], bytes: &[u8])
    requires { length bytes.now ≤ 512 }
{
    for (i, &b) in bytes.iter().enumerate() {
        put_byte(p, 8 * i, b);
    }
}

// The complement of the sum of two remainders as a number: the first coefficient is the lowest bit.
fn number(p: &[u8; 4128], q: &[u8; 4128], n: usize) -> u32
    requires { n + 32 ≤ 4128 }
{
    let mut r: u32 = 0;
    for j in 0..32 {
        r = r / 2 + 0x80000000 * u32::from(p[n + j] == q[n + j]);
    }
    r
}

// The check sum of at most 512 bytes by the rule.
fn by_rule(bytes: &[u8]) -> u32
    requires { length bytes.now ≤ 512 }
{
    let k = 8 * bytes.len();
    let mut ones = [0u8; 4128];
    put_bytes(&mut ones, &[255; 4]);
    divide(&mut ones, k);
    let mut content = [0u8; 4128];
    put_bytes(&mut content, bytes);
    divide(&mut content, k);
    number(&ones, &content, k)
}

fn print(rt: &impl Print, name: &str, value: u32) -> io::Result<()> {
    print!(rt; "{name}{value:08x}")
}

// The payloads: byte i is 7 i + 3 modulo 256.
fn pattern() -> [u8; 254]
    ensures { 254 ≡ length result }
{
    let mut p = [0u8; 254];
    for i in 0..254 {
        p[i] = ((7 * i + 3) % 256) as u8;
    }
    p
}

// A frame's check sum by the rule, by crc, and as it stands in the frame.
fn print_sums(rt: &impl Print, name: &str, frame: &[u8]) -> io::Result<()>
    requires { (10 ≤ length frame.now) × (length frame.now ≤ 512) }
{
    let end = frame.len() - 4;
    let body = &frame[..end];
    print(rt, name, by_rule(body))?;
    print(rt, ", crc32 ", frame::crc::crc32(body))?;
    print(rt, ", in the frame ", u32::load(frame, end))?;
    println!(rt; "")
}

// The frame of a payload of n bytes.
fn frame_case(
    rt: &impl Print,
    t: &[u32; 256],
    name: &str,
    n: usize,
    size: usize,
    off: u32,
) -> io::Result<()>
    requires { (t.now ≡ table_of) × (10 ≤ size) × (size ≤ 512) × (n ≤ max_payload size) }
{
    let p = pattern();
    let mut out = [0u8; 512];
    encode(t, &mut out, 0, size, off, &p[..n]);
    print_sums(rt, name, &out[..size])
}

fn frame_cases(rt: &impl Print, t: &[u32; 256]) -> io::Result<()>
    requires { t.now ≡ table_of }
{
    frame_case(
        rt,
        t,
        "no payload in 32 bytes, offset 0: by the rule ",
        0,
        32,
        0,
    )?;
    frame_case(
        rt,
        t,
        "22 bytes in 32, offset 1000: by the rule ",
        22,
        32,
        1000,
    )?;
    frame_case(
        rt,
        t,
        "170 bytes in 180, offset 65536: by the rule ",
        170,
        180,
        65536,
    )?;
    frame_case(
        rt,
        t,
        "100 bytes in 180, offset 16777215: by the rule ",
        100,
        180,
        16777215,
    )?;
    frame_case(
        rt,
        t,
        "254 bytes in 512, offset 4294967295: by the rule ",
        254,
        512,
        4294967295,
    )?;
    frame_case(
        rt,
        t,
        "8 bytes in 18, offset 16777217: by the rule ",
        8,
        18,
        16777217,
    )?;
    Ok(())
}

fn main(rt: HostRuntime) -> io::Result<()> {
    print(&rt, "123456789: by the rule ", by_rule(b"123456789"))?;
    print(&rt, ", crc32 ", frame::crc::crc32(b"123456789"))?;
    println!(rt; "")?;
    let t = frame::crc::table();
    frame_cases(&rt, &t)
}
