// Real folders.
use crate::octets::Answer;
use crate::row::{Fault, Row, number};
use pickup_box::{DirFault, FileDir, PickupDir};
use std::alloc::Global;
use std::rt::Files;
use std::str;

fn refused(fault: DirFault, out: &mut Answer) -> Result<(), Fault> {
    match fault {
        DirFault::Failed => out.refused("Failed"),
        DirFault::NoMemory => Err(Fault::NoMemory),
    }
}

fn list<D: PickupDir>(dir: &mut D, out: &mut Answer) -> Result<(), Fault> {
    match dir.list() {
        Ok(names) => {
            for name in &names {
                out.given(name.as_slice())?;
            }
            Ok(())
        }
        Err(fault) => refused(fault, out),
    }
}

fn call<R: Files + Drop>(
    dir: &mut FileDir<R>,
    row: &Row<'_>,
    out: &mut Answer,
) -> Result<(), Fault> {
    let done = match row.arg(1) {
        b"list" => return list(dir, out),
        b"read" => match dir.read(row.arg(2), number(row.arg(3)) as usize) {
            Ok(bytes) => return out.given(bytes.as_slice()),
            Err(fault) => Err(fault),
        },
        b"rename" => dir.rename(row.arg(2), row.arg(3)),
        b"remove" => dir.remove(row.arg(2)),
        _ => return Err(Fault::BadRow),
    };
    match done {
        Ok(()) => out.given(b"done"),
        Err(fault) => refused(fault, out),
    }
}

/// A call on the folder of the first argument.
pub fn folder<R: Files>(
    rt: &R,
    alloc: Global,
    row: &Row<'_>,
    out: &mut Answer,
) -> Result<(), Fault> {
    let Ok(path) = str::from_utf8(row.arg(0)) else {
        return Err(Fault::BadRow);
    };
    call(&mut FileDir::new(rt, alloc, path)?, row, out)
}
