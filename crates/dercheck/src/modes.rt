//! What the program may be asked to do.

/// What the program is asked to do.
#[derive(Debug, Clone, Copy, PartialEq, Eq)]
pub enum Mode {
    /// Reads values and writes them back, a line each.
    Check,
    /// Cuts a stream into its elements.
    Frames,
}
