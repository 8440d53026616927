// How sessions end.

/// How a session ended.
#[derive(Clone, Copy, Debug, PartialEq, Eq)]
pub enum SessionEnd {
    /// QUIT was answered. What stands behind it was ignored.
    Quit,
    /// The input ended between two lines, outside a content.
    EndOfInput,
    /// The input ended inside a line or a content.
    Cut,
    /// The input failed, and the source's count of faults rose.
    SourceFault,
    /// A reply couldn't be written, and the sink's count of faults rose.
    SinkFault,
    /// Memory was wanted, by the intake or by the session itself.
    NoMemory,
    /// The intake's log has no room.
    LogFull,
    /// The intake's log is damaged at this octet.
    NotALog { at: u64 },
    /// The intake's desk takes no more calls.
    DeskFull,
    /// 2,147,483,648 octets came without QUIT.
    TooLong,
}
