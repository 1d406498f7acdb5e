//! How a configuration keeps a pair. It touches nothing and takes no memory.

use acq_base::Text;

/// An entry of a configuration. Its key takes over the first `shared` bytes of the key of the entry before it, and goes
/// on with `rest`. An entry without a value only moves the key, as the front of a block does.
///
/// So a configuration takes no more memory than its texts, however long the keys of blocks with many statements are.
#[derive(Debug, Drop)]
pub struct Entry {
    /// How many bytes it takes over, or all where the key before is shorter.
    pub shared: usize,
    /// The bytes of its key behind them.
    pub rest: Text,
    /// The value that it gives to its key, if it gives one.
    pub value: Option<Text>,
}
