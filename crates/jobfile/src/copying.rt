// A job file read and written again, record by record.
ghost use Rattle.std.specs.Prelude.{◌≡◌, length, is_ok, if◌then◌else◌};
ghost use Rattle.jobformat.specs.Reading.{reading};
ghost use Rattle.jobfile.specs.Writes.{over, copied};

use super::{FileFault, Reader, Writer};

/// Writes the file again into lent memory and says how many bytes it has: they are the same bytes.
/// Bytes that are no file, and memory that is too small for the whole file, are refused before
/// anything is written.
pub fn copy(bytes: &[u8], out: &mut [u8]) -> Result<usize, FileFault>
    ensures answer { result ≡ copied (length bytes.now) (length out.old) (reading bytes.now) }
    ensures out { out.new ≡ (if is_ok result then over out.old 0 bytes.now else out.old) }
{
    let reader = Reader::open(bytes)?;
    if out.len() < bytes.len() {
        return Err(FileFault::NoRoom { place: bytes.len() });
    }
    let mut writer = Writer::open(reader.types(), reader.nozzles(), out)?;
    for record in reader {
        writer.put(record, out)?;
    }
    writer.finish()
}
