// Lookup of a piece by its offset.
ghost use Rattle.std.specs.Prelude.{◌≡◌, ◌≤◌, length};
ghost use Rattle.area.specs.Layout.{area_bytes, stream_bytes};
ghost use Rattle.area.specs.Table.{rows_from, total};
ghost use Rattle.area.specs.Find.{find_from};
ghost use Rattle.limits.specs.Limits.{max_pieces};
ghost use Rattle.area.specs.FindCode.{bytes_at};

use crate::table::load_row;

// Whether there is a piece, and where its bytes lie in the stream.
#[derive(Clone, Copy)]
pub struct Found {
    pub here: bool,
    pub start: usize,
    pub len: usize,
}

// Where the bytes of the piece at `off` lie, among n rows.
pub fn find(a: &[u8], n: usize, off: u32) -> Found
    requires { (n ≤ max_pieces) × (area_bytes ≤ length a.now) }
    ensures { result ≡ find_from off 0 (rows_from a.now 0 n) }
{
    let mut start: usize = 0;
    for i in 0..n {
        let r = load_row(a, i);
        let len = r.len as usize;
        if off == r.off {
            return Found {
                here: true,
                start,
                len,
            };
        }
        start += len;
    }
    Found {
        here: false,
        start: 0,
        len: 0,
    }
}

// The bytes of the piece at `off`: the part of the work area that holds them. Empty where there is none.
pub fn piece(a: &[u8], n: usize, off: u32) -> &[u8]
    requires { (n ≤ max_pieces) × (area_bytes ≤ length a.now) × (total (rows_from a.now 0 n) ≤ stream_bytes) }
    ensures { result.now ≡ bytes_at a.now (find_from off 0 (rows_from a.now 0 n)) }
{
    let f = find(a, n, off);
    let start = f.start;
    let len = f.len;
    &a[start..start + len]
}
