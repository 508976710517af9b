// Writing a job file: the header, one record after another, and the end.
ghost use Rattle.std.specs.Prelude.{◌≡◌, ℕ, ◌+◌, true, List, [], ◌∷◌, ◌++◌, length, take, is_ok, IfOk, if◌then◌else◌, Ok, Err, nat_lt};
ghost use Rattle.jobformat.specs.declared.FileFault.TheVariants.{EndsEarly};
ghost use Rattle.jobformat.specs.Format.{Entry, encode, FileOf};
ghost use Rattle.jobfile.specs.Seen.{entry_of};
ghost use Rattle.jobfile.specs.Writes.{over, err_of, open_fault, put_fault};
ghost use Rattle.jobfile.specs.Written.{Holds, contents_with};

use super::Writer;
use crate::writing::{is_record, record_bytes, write};
use crate::{FileFault, Record};
use jobformat::{MOST_NOZZLES, MOST_TYPES};

impl Writer {
    /// Begins a file: writes the header, or refuses and writes nothing.
    pub fn open(types: u8, nozzles: u8, out: &mut [u8]) -> Result<Writer, FileFault>
        ensures fault { err_of result ≡ open_fault types nozzles (length out.old) }
        ensures made { IfOk result (λ w. (w.types ≡ types) × (w.nozzles ≡ nozzles) × (w.done ≡ 0) × (w.written ≡ 2)) }
        ensures out { out.new ≡ (if is_ok result then over out.old 0 (types ∷ nozzles ∷ []) else out.old) }
        ensures holds { IfOk result (λ w. Holds w out.new []) }
    {
        if !(1..=MOST_TYPES).contains(&types) || !(1..=MOST_NOZZLES).contains(&nozzles) {
            return Err(FileFault::HeaderRange);
        }
        if out.len() < 2 {
            return Err(FileFault::NoRoom { place: 2 });
        }
        let written = write(&[types, nozzles], out, 0);
        Ok(Writer {
            types,
            nozzles,
            done: 0,
            written,
        })
    }

    /// Writes one record behind the others; a refusal changes neither the writer nor the memory.
    pub fn put(&mut self, entry: Record<'_>, out: &mut [u8]) -> Result<(), FileFault>
        ensures fault { err_of result ≡ put_fault self.old.types self.old.nozzles self.old.done self.old.written (length out.old) (entry_of entry.entry) }
        ensures types { self.new.types ≡ self.old.types }
        ensures nozzles { self.new.nozzles ≡ self.old.nozzles }
        ensures done { self.new.done ≡ (if is_ok result then self.old.done + 1 else self.old.done) }
        ensures written { self.new.written ≡ (if is_ok result then self.old.written + length (encode (entry_of entry.entry)) else self.old.written) }
        ensures out { out.new ≡ (if is_ok result then over out.old self.old.written (encode (entry_of entry.entry)) else out.old) }
        ensures holds { (es : List Entry) → is_ok result ≡ true → Holds self.old out.old es → Holds self.new out.new (es ++ entry_of entry.entry ∷ []) }
    {
        if !is_record(entry, self.nozzles) {
            return Err(FileFault::Unwritable {
                place: self.written,
            });
        }
        if self.done == self.types {
            return Err(FileFault::NoSuchRecord {
                place: usize::from(self.types) + 1,
            });
        }
        let bytes = record_bytes(entry);
        let end = self.written + bytes.len();
        if out.len() < end {
            return Err(FileFault::NoRoom { place: end });
        }
        self.written = write(bytes.as_slice(), out, self.written);
        self.done += 1;
        Ok(())
    }

    /// How many bytes the file has, once each record is there.
    pub fn finish(&self) -> Result<usize, FileFault>
        ensures answer { result ≡ (if nat_lt self.now.done self.now.types then Err (EndsEarly self.now.written) else Ok self.now.written) }
        ensures whole { IfOk result (λ n. (out : List ℕ) (es : List Entry) → Holds self.now out es → FileOf (take n out) (contents_with self.now es)) }
    {
        if self.done < self.types {
            return Err(FileFault::EndsEarly {
                place: self.written,
            });
        }
        Ok(self.written)
    }
}
