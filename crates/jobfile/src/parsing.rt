// Reading the front of a job file, field by field.
ghost use Rattle.std.specs.Prelude.{◌≡◌, ◌^◌, ◌<◌, not, length, take, IfSome, nat_lt};
ghost use Rattle.std.specs.List.{position_from};
ghost use Rattle.jobformat.specs.Format.{graphic};
ghost use Rattle.jobformat.specs.Reading.{Parse, number, mask, field_if, graphics, name, is_map, entry, records, header, forget};
ghost use Rattle.jobfile.specs.Seen.{seen, seen_name, seen_record, seen_rest};

use super::{Record, TypeRecord};
use jobformat::{LONGEST_NAME, MOST_NOZZLES, MOST_TYPES};

/// Why reading stops: the bytes end, or one is wrong, with how many there are from it on.
#[derive(Clone, Copy)]
pub enum Stop {
    Short,
    Bad(usize),
}

pub(crate) const QUANTITY: u8 = 1;

pub(crate) const MASK: u8 = 2;

pub(crate) const LIMIT: u8 = 4;

pub(crate) const NAME: u8 = 8;

/// A number of two bytes, the low one first, and what follows it.
pub(crate) fn number(bytes: &[u8]) -> Result<(u16, &[u8]), Stop>
    ensures { seen result ≡ number bytes.now }
{
    let [low, high, rest @ ..] = bytes else {
        return Err(Stop::Short);
    };
    Ok((u16::from_le_bytes([*low, *high]), rest))
}

/// A field that may be left out: what `read` reads, where it is there, and what follows it.
pub(crate) fn field_if<'a, X, F>(
    present: bool,
    bytes: &'a [u8],
    read: F,
) -> Result<(Option<X>, &'a [u8]), Stop>
where
    F: FnOnce(&'a [u8]) -> Result<(X, &'a [u8]), Stop>,
    requires { F.IsAlwaysCallable read }
    ensures { (p : Parse X) → ((r : _) → F.post read bytes.entry r → seen r ≡ p) → seen result ≡ field_if present p bytes.now }
{
    if !present {
        return Ok((None, bytes));
    }
    let (x, rest) = read(bytes)?;
    Ok((Some(x), rest))
}

/// Whether each bit of a mask stands for a nozzle that is there.
pub(crate) fn is_mask(mask: u8, nozzles: u8) -> bool
    ensures { result ≡ nat_lt mask (2 ^ nozzles) }
{
    nozzles >= 8 || u16::from(mask) < 1 << nozzles
}

pub(crate) fn mask(bytes: &[u8], nozzles: u8) -> Result<(u8, &[u8]), Stop>
    ensures { seen result ≡ mask nozzles bytes.now }
{
    match bytes {
        [] => Err(Stop::Short),
        [mask, rest @ ..] if is_mask(*mask, nozzles) => Ok((*mask, rest)),
        _ => Err(Stop::Bad(bytes.len())),
    }
}

pub(crate) fn is_graphic(byte: u8) -> bool
    ensures { result ≡ graphic byte }
{
    (33..=126).contains(&byte)
}

/// Where the first of `n` bytes stands that is no graphic.
fn first_wrong(bytes: &[u8], n: usize) -> Option<usize>
    ensures is { result ≡ position_from (λ b. not (graphic b)) 0 (take n bytes.now) }
    ensures within { IfSome result (λ i. i < length bytes.now) }
{
    bytes.iter().take(n).position(|byte| !is_graphic(*byte))
}

/// The first `n` bytes, which are graphics, and what follows them.
pub(crate) fn graphics(bytes: &[u8], n: usize) -> Result<(&[u8], &[u8]), Stop>
    ensures { seen_name result ≡ graphics bytes.now n }
{
    if let Some(i) = first_wrong(bytes, n) {
        return Err(Stop::Bad(bytes.len() - i));
    }
    bytes.split_at_checked(n).ok_or(Stop::Short)
}

pub(crate) fn name(bytes: &[u8]) -> Result<(&[u8], &[u8]), Stop>
    ensures { seen_name result ≡ name bytes.now }
{
    match bytes {
        [] => Err(Stop::Short),
        [n @ 1..=LONGEST_NAME, rest @ ..] => graphics(rest, usize::from(*n)),
        _ => Err(Stop::Bad(bytes.len())),
    }
}

/// Whether a byte can stand for the fields of a record: a limit only beside a mask.
pub(crate) fn is_map(map: u8) -> bool
    ensures { result ≡ is_map map }
{
    map < 16 && (map & LIMIT == 0 || map & MASK != 0)
}

/// The first record of `bytes`, and what follows it.
pub(crate) fn read_record(bytes: &[u8], nozzles: u8) -> Result<(Record<'_>, &[u8]), Stop>
    ensures { seen_record result ≡ entry nozzles bytes.now }
{
    let [map, rest @ ..] = bytes else {
        return Err(Stop::Short);
    };
    if !is_map(*map) {
        return Err(Stop::Bad(bytes.len()));
    }
    let (quantity, rest) = field_if(*map & QUANTITY != 0, rest, number)?;
    let (mask, rest) = field_if(*map & MASK != 0, rest, |bytes| mask(bytes, nozzles))?;
    let (limit, rest) = field_if(*map & LIMIT != 0, rest, number)?;
    let fields = TypeRecord {
        quantity,
        mask,
        limit,
    };
    if *map & NAME == 0 {
        return Ok((Record::Bare { fields }, rest));
    }
    let (name, rest) = name(rest)?;
    Ok((Record::Named { name, fields }, rest))
}

/// How many records and nozzles the file is of, and its records.
pub(crate) fn header(bytes: &[u8]) -> Result<((u8, u8), &[u8]), Stop>
    ensures { seen result ≡ header bytes.now }
{
    match bytes {
        [] | [1..=MOST_TYPES] => Err(Stop::Short),
        [
            types @ 1..=MOST_TYPES,
            nozzles @ 1..=MOST_NOZZLES,
            body @ ..,
        ] => { Ok(((*types, *nozzles), body)) }
        [1..=MOST_TYPES, rest @ ..] => Err(Stop::Bad(rest.len())),
        _ => Err(Stop::Bad(bytes.len())),
    }
}

/// What follows the first `count` records.
pub(crate) fn skip_records(bytes: &[u8], nozzles: u8, count: u8) -> Result<&[u8], Stop>
    ensures { seen_rest result ≡ forget (records nozzles count bytes.now) }
{
    let mut rest = bytes;
    for _ in 0..count {
        (_, rest) = read_record(rest, nozzles)?;
    }
    Ok(rest)
}
