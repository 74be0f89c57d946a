// The examples of pieces cut and merged, over a work area of zeros with the pieces as its table's rows.
ghost use Rattle.std.specs.Prelude.{◌≤◌, length};
ghost use Rattle.area.specs.Layout.{area_bytes};

use area::merging::merge_table;
use area::removal::{HASHES, hash};
use area::splitting::split_table;
use area::table::{Row, load_row, store_row};
use std::io;

// The first n rows, and at most four, as the paper writes pieces: offset/length.
fn say_rows(rt: &impl Print, a: &[u8], n: usize) -> io::Result<()>
    requires { area_bytes ≤ length a.now }
{
    for i in 0..n.min(4) {
        let r = load_row(a, i);
        let off = r.off;
        let len = r.len;
        print!(rt; " {off}/{len}")?;
    }
    println!(rt; "")
}

fn split_case(rt: &impl Print, a: &mut [u8]) -> io::Result<()>
    requires { area_bytes ≤ length a.old }
{
    print!(rt; "P7 50 bytes at 100, payload 22:")?;
    store_row(a, 0, Row { off: 100, len: 50 });
    let n = split_table(a, 1, 22);
    say_rows(rt, a, n)
}

fn merge_case(rt: &impl Print, a: &mut [u8], held: &[u32]) -> io::Result<()>
    requires { area_bytes ≤ length a.old }
{
    let mut hashes = [0u8; HASHES];
    hash(&mut hashes, held);
    store_row(a, 0, Row { off: 0, len: 40 });
    store_row(a, 1, Row { off: 40, len: 40 });
    store_row(a, 2, Row { off: 80, len: 40 });
    let n = merge_table(a, 3, 100, &hashes, held);
    say_rows(rt, a, n)
}

pub(crate) fn area_cases(rt: &impl Print) -> io::Result<()> {
    let mut area = [0u8; 49152];
    split_case(rt, &mut area)?;
    let held = [40u32; 1];
    print!(rt; "P8 0/40, 40/40, 80/40, at most 100:")?;
    merge_case(rt, &mut area, &held[..0])?;
    print!(rt; "P9 with 40 held:")?;
    merge_case(rt, &mut area, &held)
}
