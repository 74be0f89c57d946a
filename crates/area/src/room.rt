// Whether there is room for bytes to be queued. The bytes themselves are one copy behind those in use (`byte_copy::copy_in`).
ghost use Rattle.std.specs.Prelude.{◌≡◌};
ghost use Rattle.area.specs.Room.{room_number, queue_refusal};

use limits::{MAX_TAKEN, MAX_WAITING};

// Why there is no room for bytes more: too many would wait, or too many would be taken in all.
#[derive(Clone, Copy, PartialEq, Eq)]
pub enum NoRoom {
    QueueFull,
    AllTaken,
}

// Whether there is room for n bytes more, of which `waiting` wait and `taken` were taken in all. Refusal 8 comes before 9.
pub fn queue_refusal(waiting: u32, taken: u32, n: usize) -> Result<(), NoRoom>
    ensures { room_number result ≡ queue_refusal waiting taken n }
{
    if MAX_WAITING < waiting {
        return Err(NoRoom::QueueFull);
    }
    if ((MAX_WAITING - waiting) as usize) < n {
        return Err(NoRoom::QueueFull);
    }
    if ((MAX_TAKEN - taken) as usize) < n {
        return Err(NoRoom::AllTaken);
    }
    Ok(())
}
