// Why a call on a hub is refused.
use mail_plan::OrgFault;

/// Why a call on a hub is refused.
///
/// The numbers that a fault carries are those before the step that was refused.
#[derive(Clone, Copy, Debug, PartialEq, Eq)]
pub enum HubFault {
    /// The disk failed, and the count of disk faults rose in this call.
    DiskFault,
    /// Memory was wanted.
    NoMemory,
    /// So many submissions, and so many octets of their messages, are live, and the limits leave no room.
    QueueFull { live: u64, bytes: u64 },
    /// The texts are no organisation's.
    Org { fault: OrgFault },
    /// No release that is categorised asks for that approval.
    NoSuchApproval,
    /// The folder has no item of that name.
    NoSuchItem,
    /// The log of so many octets has no room for the entry.
    LogFull { length: u64 },
    /// The log's file is no log, first at this octet.
    NotALog { at: u64 },
    /// So many organisations are live, and the limits leave no room for one more.
    EpochsFull { live: u64 },
    /// The shelf failed, and the count of shelf faults rose in this call.
    ShelfFault,
    /// The desk took so many calls, and takes no more. Only a desk answers it.
    DeskFull { calls: u64 },
}
