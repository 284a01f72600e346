/// Why the lines of a script are not all answered.
#[derive(Clone, Copy, Debug, PartialEq, Eq)]
pub enum ScriptStop {
    /// A read of the script failed.
    Read,
    /// More than 16,777,216 bytes were read, and no line said `quit`: this many.
    TooLong { read: u64 },
    /// A line is longer than 4,096 bytes: so many were read after the last newline.
    LineTooLong { read: u64 },
    /// A reply was not written whole.
    Write,
    /// There was not enough memory for a line. No line is read then.
    Memory,
}
