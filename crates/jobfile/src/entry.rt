// The records of a job file, as a reader hands them out and a writer takes them.
ghost use Rattle.std.specs.Prelude.{◌≡◌};
ghost use Rattle.jobfile.specs.Seen.{fields_of};

use super::TypeRecord;

/// A record; the name is a part of the file that was read.
#[derive(Clone, Copy)]
pub enum Record<'a> {
    Named { name: &'a [u8], fields: TypeRecord },
    Bare { fields: TypeRecord },
}

impl Record<'_> {
    /// What the record holds beside its name.
    pub fn fields(&self) -> TypeRecord
        ensures { result ≡ fields_of self.now }
    {
        match self {
            Record::Named { fields, .. } | Record::Bare { fields } => *fields,
        }
    }
}
