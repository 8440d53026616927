// How a call of the program ends.
ghost use Rattle.std.specs.Prelude.{◌≡◌};
ghost use Rattle.mail_transport.specs.Run.{code_of, fault_status, status_of, status_of_check};

use org_check::CheckEnd;
use queue_store::HubFault;
use smtp_front::SessionEnd;

/// How a call of the program ended.
#[derive(Clone, Copy, Debug, PartialEq, Eq)]
pub enum Status {
    /// The command did its work.
    Done,
    /// The words are no command.
    Usage,
    NoMemory,
    /// The disk failed, and its count of faults rose.
    DiskFault,
    /// The source failed, and its count of faults rose.
    SourceFault,
    /// The sink failed, and its count of faults rose.
    SinkFault,
    /// The log's file is no log.
    NotALog,
    /// The input ended inside a line or a content.
    Cut,
    /// The text that was checked is no organisation's.
    BadOrganisation,
    /// The log has no room.
    LogFull,
    /// The input was too long.
    TooLong,
}

impl Status {
    /// The exit status of the process.
    pub fn code(self) -> u8
        ensures { result ≡ code_of self }
    {
        match self {
            Status::Done => 0,
            Status::Usage => 1,
            Status::NoMemory => 2,
            Status::DiskFault => 3,
            Status::SourceFault => 4,
            Status::SinkFault => 5,
            Status::NotALog => 6,
            Status::Cut => 7,
            Status::BadOrganisation => 9,
            Status::LogFull => 10,
            Status::TooLong => 11,
        }
    }
}

/// The status of a call that the hub refused.
pub fn fault_status(fault: HubFault) -> Status
    ensures value { result ≡ fault_status fault }
    ensures memory { fault ≡ HubFault.NoMemory → result ≡ Status.NoMemory }
    ensures disk_fault { fault ≡ HubFault.DiskFault → result ≡ Status.DiskFault }
    ensures disk { result ≡ Status.DiskFault → fault ≡ HubFault.DiskFault }
    ensures source { result ≡ Status.SourceFault → ⊥ }
    ensures sink { result ≡ Status.SinkFault → ⊥ }
    ensures usage { result ≡ Status.Usage → ⊥ }
    ensures cut { result ≡ Status.Cut → ⊥ }
    ensures done { result ≡ Status.Done → ⊥ }
    ensures too_long { result ≡ Status.TooLong → ⊥ }
{
    match fault {
        HubFault::DiskFault => Status::DiskFault,
        // Only a submission meets a full queue, and it has a reply of its own. No command has an organisation or decides
        // yet.
        HubFault::NoMemory
        | HubFault::QueueFull { .. }
        | HubFault::Org { .. }
        | HubFault::EpochsFull { .. }
        | HubFault::NoSuchApproval => Status::NoMemory,
        HubFault::LogFull { .. } => Status::LogFull,
        HubFault::NotALog { .. } => Status::NotALog,
    }
}

/// The status of a session that ended so, where nothing fails behind it.
pub fn ended(end: SessionEnd) -> Status
    ensures value { result ≡ status_of end }
    ensures disk { result ≡ Status.DiskFault → ⊥ }
    ensures source { result ≡ Status.SourceFault → end ≡ SessionEnd.SourceFault }
    ensures sink { result ≡ Status.SinkFault → end ≡ SessionEnd.SinkFault }
    ensures usage { result ≡ Status.Usage → ⊥ }
{
    match end {
        SessionEnd::Quit | SessionEnd::EndOfInput => Status::Done,
        SessionEnd::Cut => Status::Cut,
        SessionEnd::SourceFault => Status::SourceFault,
        SessionEnd::SinkFault => Status::SinkFault,
        // No desk is full here.
        SessionEnd::NoMemory | SessionEnd::DeskFull => Status::NoMemory,
        SessionEnd::LogFull => Status::LogFull,
        SessionEnd::NotALog { .. } => Status::NotALog,
        SessionEnd::TooLong => Status::TooLong,
    }
}

/// The status of a check that ended so.
pub fn checked(end: CheckEnd) -> Status
    ensures value { result ≡ status_of_check end }
    ensures disk { result ≡ Status.DiskFault → ⊥ }
    ensures log { result ≡ Status.NotALog → ⊥ }
    ensures usage { result ≡ Status.Usage → ⊥ }
    ensures source { result ≡ Status.SourceFault → end ≡ CheckEnd.SourceFault }
    ensures sink { result ≡ Status.SinkFault → end ≡ CheckEnd.SinkFault }
{
    match end {
        CheckEnd::Passed => Status::Done,
        CheckEnd::Refused => Status::BadOrganisation,
        CheckEnd::NoMemory => Status::NoMemory,
        CheckEnd::SourceFault => Status::SourceFault,
        CheckEnd::SinkFault => Status::SinkFault,
        CheckEnd::TooLong => Status::TooLong,
    }
}
