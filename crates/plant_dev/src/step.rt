// What a plant in memory keeps of its calls, and how it writes.
ghost use Rattle.std.specs.Prelude.{◌≡◌, ◌+◌, ◌^◌, ◌<◌, length, OnOk, OnErr};
ghost use Rattle.plant_dev.specs.Memory.{put_at};

use crate::Stored;
use mail_names::{Bytes, NoMemory};

#[derive(Drop)]
pub enum Step {
    Write { at: u64, bytes: Bytes },
    Sync,
    Put { item: Stored },
}

/// Writes these bytes at this place of the file, with zeros between an old end and them.
pub fn write_into(file: &mut Vec<u8>, at: u64, bytes: &[u8]) -> Result<(), NoMemory>
    requires { at + length bytes.now < 2 ^ 64 }
    ensures ok { OnOk result (file.new.items ≡ put_at at bytes.now file.old.items) }
    ensures err { OnErr result (file.new.items ≡ file.old.items) }
{
    let at = at as usize;
    let end = at + bytes.len();
    if end < file.len() {
        file[at..end].copy_from_slice(bytes);
        return Ok(());
    }
    file.try_reserve(end - file.len())?;
    file.resize(at, 0)?;
    file.extend_from_slice(bytes)?;
    Ok(())
}
