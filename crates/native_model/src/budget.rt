//! What a body may use up.

/// What of a body's budget is spent.
#[derive(Clone, Copy, Drop)]
pub enum Budget {
    /// Instructions and callbacks of natives.
    Instructions,
    /// Cells of the heap.
    Cells,
    /// Frames of methods, and of natives that call back.
    Frames,
    /// Bytes of paths and contents of the dest.
    Dest,
    /// Bytes of log lines, each with its line feed.
    Log,
    /// Nodes of the result.
    ValueNodes,
    /// Levels of lists in the result.
    ValueDepth,
    /// Bytes of texts in the result.
    ValueBytes,
}
