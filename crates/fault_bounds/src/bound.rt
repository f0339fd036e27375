/// What was found at a fault's event, beside what its rule allows: the least, the greatest, or that alone.
#[derive(Clone, Copy, Debug, PartialEq, Eq)]
pub struct Bound {
    pub value: i128,
    pub limit: i128,
}
