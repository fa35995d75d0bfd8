//! Reading a list from a given place on.
ghost use Rattle.std.specs.Prelude.{◌≡◌, ◌+◌, ◌<◌, ◌≤◌, ◌^◌, length, find, drop, All};
ghost use Rattle.trade_line.specs.Inner.Reads.{is_marked, reads, skipped};

// The result of reading a list: the first remaining room, the place of that room on the list, and the number of
// entries read. If no room remains, the place is the list's end.
#[derive(Clone, Copy)]
pub(crate) struct Found {
    pub(crate) room: Option<usize>,
    pub(crate) place: usize,
    pub(crate) looks: usize,
}

// Reads the list from the place `from` up to the first remaining room, or to the end if no room remains.
pub(crate) fn read_on(list: &[usize], from: usize, remaining: &[bool]) -> Found
    requires from { from ≤ length list.now }
    requires known { All (λ r. r < length remaining.now) list.now }
    ensures room { result.room ≡ find (is_marked remaining.now) (drop from list.now) }
    ensures place { result.place ≡ from + skipped (is_marked remaining.now) (drop from list.now) }
    ensures looks { result.looks ≡ reads (is_marked remaining.now) (drop from list.now) }
    ensures few { result.looks < 2 ^ 63 }
{
    let mut looks = 0;
    for place in from..list.len() {
        looks += 1;
        let room = list[place];
        if remaining[room] {
            return Found {
                room: Some(room),
                place,
                looks,
            };
        }
    }
    Found {
        room: None,
        place: list.len(),
        looks,
    }
}
