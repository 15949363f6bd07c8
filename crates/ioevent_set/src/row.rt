//! A row of ioeventfds, and what it is to other rows and to a write.
ghost use Rattle.std.specs.Prelude.{◌≡◌};
ghost use Rattle.ioevent_set.specs.Rows.{same_space, same_want, wants_meet, accepts, is_same, do_collide, does_fit};

use irq_base::Space;

/// A counter that guest writes ring: those at the address, of that length (any where it is 0), and with the wanted value
/// where there is one.
#[derive(Clone, Copy, Debug, PartialEq, Eq)]
pub struct IoRow {
    pub space: Space,
    pub address: u64,
    pub len: u8,
    pub counter: u16,
    pub want: Option<u64>,
}

// Whether two spaces are one.
fn is_same_space(a: Space, b: Space) -> bool
    ensures { result ≡ same_space a b }
{
    matches!(
        (a, b),
        (Space::Port, Space::Port) | (Space::Memory, Space::Memory)
    )
}

// Whether two matches are the same.
fn is_same_want(a: Option<u64>, b: Option<u64>) -> bool
    ensures { result ≡ same_want a b }
{
    match (a, b) {
        (None, None) => true,
        (Some(m), Some(n)) => m == n,
        _ => false,
    }
}

// Whether some value passes both matches.
fn do_wants_meet(a: Option<u64>, b: Option<u64>) -> bool
    ensures { result ≡ wants_meet a b }
{
    match (a, b) {
        (Some(m), Some(n)) => m == n,
        _ => true,
    }
}

// Whether a value passes a match.
fn does_accept(want: Option<u64>, value: u64) -> bool
    ensures { result ≡ accepts want value }
{
    match want {
        None => true,
        Some(wanted) => wanted == value,
    }
}

impl IoRow {
    /// Whether the other row is the same.
    pub(crate) fn is_same(&self, other: &IoRow) -> bool
        ensures { result ≡ is_same self.now other.now }
    {
        is_same_space(self.space, other.space)
            && self.address == other.address
            && self.len == other.len
            && self.counter == other.counter
            && is_same_want(self.want, other.want)
    }

    /// Whether some write fits both rows, or could.
    pub(crate) fn collides(&self, other: &IoRow) -> bool
        ensures { result ≡ do_collide self.now other.now }
    {
        is_same_space(self.space, other.space)
            && self.address == other.address
            && (self.len == 0
                || other.len == 0
                || self.len == other.len && do_wants_meet(self.want, other.want))
    }

    /// Whether a write fits the row.
    pub(crate) fn fits(&self, space: Space, address: u64, len: u8, value: u64) -> bool
        ensures { result ≡ does_fit space address len value self.now }
    {
        is_same_space(self.space, space)
            && self.address == address
            && (self.len == 0 || self.len == len)
            && does_accept(self.want, value)
    }
}
