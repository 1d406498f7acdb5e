//! Which item.

/// An item of a plan: a source's Release, or one of its lists.
#[derive(Clone, Copy, Debug, PartialEq, Eq)]
pub struct Key {
    /// The source's place in the plan.
    pub source: u32,
    /// 0 for the Release; the lists follow from 1 on, in plan order.
    pub place: usize,
}
