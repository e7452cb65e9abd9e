// What a script gives.
use kq_value::Bytes;

/// The next thing in a script.
#[derive(Drop)]
pub enum Item {
    /// A command's bytes.
    Command(Bytes),
    /// A block of this many bytes, more than a command may have. It was read to its end.
    TooLong { bytes: u64 },
    /// A command that memory couldn't hold. It was read to its end.
    Lost,
    /// The script has ended.
    Finished,
}

/// Why there is no next thing.
#[derive(Clone, Copy, Debug, PartialEq, Eq)]
pub enum ScriptFault {
    /// The source failed.
    ReadFault,
    /// As many bytes as may be taken were taken, and the script hasn't ended.
    InputLimit,
}
