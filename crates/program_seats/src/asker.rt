/// Who asks: a seat, and which of the visits to it. A reply that comes after its client has left has an earlier
/// visit's number, so it never reaches the seat's next client.
#[derive(Clone, Copy, Debug, PartialEq, Eq)]
pub struct Asker {
    /// The number of the seat.
    pub seat: usize,
    /// The visit: how many clients have sat there, this one included.
    pub visit: u64,
}
