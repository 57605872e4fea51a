//! How a script ends.
/// How a script ended.
#[derive(Clone, Copy, Debug, PartialEq, Eq)]
pub enum ScriptEnd {
    /// The input was read to its end.
    End,
    /// Behind so many bytes of the input stands no line.
    BadLine(u64),
    /// The input failed.
    ReadFault,
    /// The output failed.
    WriteFault,
    /// There is no memory.
    Memory,
    /// A line would take more turns than any may.
    Spent,
}
