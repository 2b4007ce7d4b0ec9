/// A call of the outside failed. It changed nothing but its count of faults.
#[derive(Clone, Copy, Debug, PartialEq, Eq)]
pub struct Failed;
