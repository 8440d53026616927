// What a row prints.
use mail_names::{Bytes, NameFault, NoMemory};
use plant_dev::ShelfFault;
use queue_store::HubFault;
use std::alloc::{AllocError, AllocFailed, Global};

/// Why a row has no answer.
#[derive(Clone, Copy)]
pub enum Fault {
    /// It isn't written as its word wants it, or its call is refused.
    NoRow,
    NoMemory,
}

impl From<NoMemory> for Fault {
    fn from(_: NoMemory) -> Self {
        Fault::NoMemory
    }
}

impl From<AllocError> for Fault {
    fn from(_: AllocError) -> Self {
        Fault::NoMemory
    }
}

impl<T: Drop> From<AllocFailed<T>> for Fault {
    fn from(_: AllocFailed<T>) -> Self {
        Fault::NoMemory
    }
}

impl From<NameFault> for Fault {
    fn from(_: NameFault) -> Self {
        Fault::NoRow
    }
}

impl From<ShelfFault> for Fault {
    fn from(_: ShelfFault) -> Self {
        Fault::NoRow
    }
}

impl From<HubFault> for Fault {
    fn from(_: HubFault) -> Self {
        Fault::NoRow
    }
}

/// The number of a row.
pub fn number(digits: &str) -> Result<u64, Fault> {
    match digits.parse::<u64>() {
        Ok(number) => Ok(number),
        Err(_) => Err(Fault::NoRow),
    }
}

/// Lines that are to be printed.
#[derive(Drop)]
pub struct Answer {
    text: Bytes,
}

impl Answer {
    pub fn new(alloc: Global) -> Answer {
        Answer {
            text: Bytes::new(alloc),
        }
    }

    pub fn as_slice(&self) -> &[u8] {
        self.text.as_slice()
    }

    /// Adds a line.
    pub fn line(&mut self, line: &str) -> Result<(), Fault> {
        self.text.add(line.as_bytes())?;
        self.text.add(b"\n")?;
        Ok(())
    }

    /// Adds the lines of a text behind this mark. Any CR or LF but those of its CR LFs is written as one.
    pub fn lines(&mut self, mark: &str, octets: &[u8]) -> Result<(), Fault> {
        let mut begun = false;
        let mut cr = false;
        for octet in octets {
            if !begun {
                self.text.add(mark.as_bytes())?;
            }
            begun = !cr || *octet != b'\n';
            if cr && begun {
                self.text.add(b"\\r")?;
            }
            cr = *octet == b'\r';
            match octet {
                b'\r' => {}
                b'\n' if !begun => self.text.add(b"\n")?,
                b'\n' => self.text.add(b"\\n")?,
                _ => self.text.add(&[*octet])?,
            }
        }
        if begun {
            self.line(if cr {
                "\\r without an end"
            } else {
                " without an end"
            })?;
        }
        Ok(())
    }
}
