// Why a whole job is refused, by document 01's numbers.

#[derive(Clone, Copy, Debug, PartialEq, Eq)]
pub enum JobRefusal {
    BadBuffers = 1,
    BadTimings = 2,
    BadHead = 3,
    BadJobLength = 4,
    Malformed = 5,
    NoRoom = 6,
}
