//! How a conversation ends.
/// How a conversation over a stream ended.
#[derive(Clone, Copy, Debug, PartialEq, Eq)]
pub enum LinkEnd {
    /// The input was read to its end.
    End,
    /// Behind so many bytes of the input stands no message.
    BadMessage(u64),
    /// The input failed.
    ReadFault,
    /// The output failed.
    WriteFault,
    /// There is no memory.
    Memory,
}
