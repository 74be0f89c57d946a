// Rows of the table of pieces in the work area.
ghost use Rattle.std.specs.Prelude.{◌≡◌, ◌∷◌, [], ◌≤◌, ◌<◌, length};
ghost use Rattle.laws.specs.Bytes.{overwrite};
ghost use Rattle.area.specs.Layout.{place, area_bytes};
ghost use Rattle.area.specs.Table.{row_at, table_bytes};
ghost use Rattle.limits.specs.Limits.{max_pieces};

use byte_copy::Little;
use limits::STREAM_BYTES;

const ROW_BYTES: usize = 8;

// A piece in flight: its offset, and how many bytes it has.
#[derive(Clone, Copy)]
pub struct Row {
    pub off: u32,
    pub len: u32,
}

// Row i of the table.
pub fn load_row(a: &[u8], i: usize) -> Row
    requires { (i < max_pieces) × (area_bytes ≤ length a.now) }
    ensures { result ≡ row_at a.now i }
{
    let at = STREAM_BYTES + ROW_BYTES * i;
    Row {
        off: u32::load(a, at),
        len: u32::load(a, at + 4),
    }
}

// Stores row i.
pub fn store_row(a: &mut [u8], i: usize, r: Row)
    requires { (i < max_pieces) × (area_bytes ≤ length a.old) }
    ensures { a.new ≡ overwrite a.old (place i) (table_bytes (r ∷ [])) }
{
    let at = STREAM_BYTES + ROW_BYTES * i;
    u32::store(a, at, r.off);
    u32::store(a, at + 4, r.len);
}
