// Reading a job file in place: opening checks the whole file, and the records come one by one.
ghost use Rattle.std.specs.Prelude.{◌≡◌, Ok, ⊤};
ghost use Rattle.std.specs.Iterator.{YieldsFirstBy, MakesProgress, item_count};
ghost use Rattle.jobformat.specs.Format.{Contents, FileOf, Answers};
ghost use Rattle.jobformat.specs.Reading.{file, reading};
ghost use Rattle.jobfile.specs.Seen.{entry_of};
ghost use Rattle.jobfile.specs.Opened.{held, checked, opened};

use super::parsing::{Stop, header, read_record, skip_records};
use super::{FileFault, Record};

/// A file that was found well formed, and how far its records are read.
#[derive(Clone, Copy)]
pub struct Reader<'a> {
    types: u8,
    nozzles: u8,
    left: u8,
    rest: &'a [u8],
}

impl<'a> Reader<'a> {
    /// Checks the whole file in byte order, or answers its first fault.
    pub fn open(bytes: &'a [u8]) -> Result<Reader<'a>, FileFault>
        ensures reads { opened result ≡ reading bytes.now }
        ensures right { Answers bytes.now (opened result) }
        ensures back { (c : Contents) → FileOf bytes.now c → opened result ≡ Ok c }
    {
        match Reader::check(bytes) {
            Ok(reader) => Ok(reader),
            Err(Stop::Short) => Err(FileFault::EndsEarly { place: bytes.len() }),
            Err(Stop::Bad(left)) => Err(FileFault::BadByte {
                place: bytes.len() - left,
            }),
        }
    }

    fn check(bytes: &'a [u8]) -> Result<Reader<'a>, Stop>
        ensures { checked result ≡ file bytes.now }
    {
        let ((types, nozzles), body) = header(bytes)?;
        let after = skip_records(body, nozzles, types)?;
        if !after.is_empty() {
            return Err(Stop::Bad(after.len()));
        }
        Ok(Reader {
            types,
            nozzles,
            left: types,
            rest: body,
        })
    }

    /// How many types the file is of.
    pub fn types(&self) -> u8
        ensures { result ≡ self.now.types }
    {
        self.types
    }

    /// How many nozzles the file is of.
    pub fn nozzles(&self) -> u8
        ensures { result ≡ self.now.nozzles }
    {
        self.nozzles
    }
}

impl<'a> Iterator for Reader<'a> {
    type Item = Record<'a>;

    ghost next_gives = { YieldsFirstBy entry_of held };

    ghost remaining = { item_count held };

    /// The next record of the file, in its order, and none after the last.
    fn next(&mut self) -> Option<Record<'a>>
        ensures types { self.new.types ≡ self.old.types }
        ensures nozzles { self.new.nozzles ≡ self.old.nozzles }
        ensures steps { YieldsFirstBy entry_of held self.old result self.new }
        ensures goes { MakesProgress (λ r. ⊤) (item_count held) self.old result self.new }
    {
        let Reader {
            nozzles,
            left,
            rest,
            ..
        } = *self;
        if left == 0 {
            return None;
        }
        let (record, after) = read_record(rest, nozzles).ok()?;
        self.left = left - 1;
        self.rest = after;
        Some(record)
    }
}
