//! Reservations as harts keep them.

/// What a load-reserved left: its address and width; the frame of its page, the incarnation of that
/// frame, and the count of writes of the page.
#[derive(Clone, Copy, Debug, PartialEq, Eq)]
pub struct CoreReservation {
    pub va: u64,
    pub width: u8,
    pub frame: u32,
    pub inc: u64,
    pub writes: u64,
}
