use def_two::Books;
use ic_disk::Disk;
use ic_moves::Network2;
use ic_seat::Seat;

/// The chief and the books of a script over their disks, and the network between them.
///
/// After a refusal it makes no further step, and its disks alone may be taken out.
#[derive(Drop)]
pub struct TwoWorld<D: Disk> {
    /// The fingerprint of its script.
    pub(crate) fingerprint: [u8; 32],
    /// The books of its script.
    pub(crate) books: Books,
    /// The chief and behind it the books, in order.
    pub(crate) seats: Vec<Seat<D>>,
    pub(crate) network: Network2,
}
