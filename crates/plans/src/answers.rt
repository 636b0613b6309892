// What a plan is answered as.

/// A hub, a spine or a trunk: its first and its last tag, the smaller first, and its figure, which is the reach of a hub and of a
/// spine, and the sum of a trunk. Where it is one point, it has its tag twice.
#[derive(Clone, Copy, PartialEq, Eq, Debug)]
pub struct Plan<K> {
    pub first: u32,
    pub last: u32,
    pub figure: K,
}
