// The bytes of a record, and writing bytes into lent memory.
ghost use Rattle.std.specs.Prelude.{◌≡◌, ◌+◌, ◌≤◌, ◌++◌, true, length};
ghost use Rattle.arrayvec.specs.ArrayVec.{array_vec_len};
ghost use Rattle.jobformat.specs.Format.{map_of, encode, all_graphic, name_fits, fits, TwoBytes};
ghost use Rattle.jobfile.specs.Seen.{entry_of, name_of};
ghost use Rattle.jobfile.specs.Writes.{Wrote, field_bytes};

use super::Record;
use super::parsing::{LIMIT, MASK, NAME, QUANTITY, is_graphic, is_mask};
use arrayvec::ArrayVec;
use jobformat::{LONGEST_NAME, LONGEST_RECORD};

pub(crate) fn all_graphic(name: &[u8]) -> bool
    ensures { result ≡ all_graphic name.now }
{
    name.iter().all(|byte| is_graphic(*byte))
}

/// Whether a file with so many nozzles can hold the record.
pub(crate) fn is_record(entry: Record<'_>, nozzles: u8) -> bool
    ensures { result ≡ fits nozzles (entry_of entry.entry) }
{
    let fields = entry.fields();
    let masked = fields
        .mask
        .map_or(fields.limit.is_none(), |mask| is_mask(mask, nozzles));
    let named = match entry {
        Record::Named { name, .. } => (1..=usize::from(LONGEST_NAME)).contains(&name.len())
            && all_graphic(name),
        Record::Bare { .. } => true,
    };
    masked && named
}

/// Writes `bytes` from the place `at` on, and says where they end.
pub(crate) fn write(bytes: &[u8], out: &mut [u8], at: usize) -> usize
    requires { at + length bytes.now ≤ length out.old }
    ensures { Wrote out.old at bytes.now out.new result }
{
    let end = at + bytes.len();
    out[at..end].copy_from_slice(bytes);
    end
}

pub(crate) fn map_byte(entry: Record<'_>) -> u8
    ensures { result ≡ map_of (entry_of entry.entry) }
{
    let fields = entry.fields();
    u8::from(fields.quantity.is_some()) * QUANTITY
        + u8::from(fields.mask.is_some()) * MASK
        + u8::from(fields.limit.is_some()) * LIMIT
        + u8::from(matches!(entry, Record::Named { .. })) * NAME
}

/// Adds a field, if there is one, behind the others.
fn add_field<const N: usize>(field: Option<[u8; N]>, bytes: &mut ArrayVec<u8, LONGEST_RECORD>)
    requires { array_vec_len bytes.old + N ≤ 27 }
    ensures added { bytes.new.items ≡ bytes.old.items ++ field_bytes field.entry }
    ensures len { array_vec_len bytes.new ≤ array_vec_len bytes.old + N }
{
    if let Some(field) = field {
        add(&field, bytes);
    }
}

fn add(more: &[u8], bytes: &mut ArrayVec<u8, LONGEST_RECORD>)
    requires { array_vec_len bytes.old + length more.now ≤ 27 }
    ensures { bytes.new.items ≡ bytes.old.items ++ more.now }
{
    bytes.try_extend_from_slice(more).unwrap()
}

/// The bytes of a record.
pub(crate) fn record_bytes(entry: Record<'_>) -> ArrayVec<u8, LONGEST_RECORD>
    requires { name_fits (name_of entry) ≡ true }
    ensures bytes { result.items ≡ encode (entry_of entry.entry) }
    ensures small { TwoBytes (entry_of entry.entry).quantity × TwoBytes (entry_of entry.entry).limit }
{
    let fields = entry.fields();
    let mut bytes = ArrayVec::new();
    bytes.push(map_byte(entry));
    add_field(fields.quantity.map(u16::to_le_bytes), &mut bytes);
    add_field(fields.mask.map(u8::to_le_bytes), &mut bytes);
    add_field(fields.limit.map(u16::to_le_bytes), &mut bytes);
    if let Record::Named { name, .. } = entry {
        bytes.push(name.len() as u8);
        add(name, &mut bytes);
    }
    bytes
}
