// A job file told in words that a setter understands.
#![tactic(auto)]

ghost use Rattle.std.specs.Prelude.{◌≡◌, ◌≤◌, true, Some, ◌++◌, length, IfSome, IfOk, Ok, OnOk};
ghost use Rattle.jobformat.specs.Format.{Contents};
ghost use Rattle.jobformat.specs.Reading.{reading};
ghost use Rattle.jobfile.specs.Opened.{held};
ghost use Rattle.jobfile.specs.Seen.{entry_of, name_of};
ghost use Rattle.inspection.specs.Words.{figure_text, mask_text, name_text, fields_text, header_text, record_text, records_text, copy_text, refusal_text, report_text};

use jobfile::{FileFault, Reader, Record, Refusal, TypeRecord, copy};
use jobformat::MOST_TYPES;
use std::alloc::{AllocError, Global};
use std::fmt;

/// A number that may be missing: what it is called, and what is said where there is none.
#[derive(Clone, Copy)]
struct Figure {
    name: &'static str,
    number: Option<u16>,
    none: &'static str,
}

impl fmt::Display for Figure {
    ghost output = { λ f. Some (figure_text f.name.now f.number f.none.now) };

    fn fmt<W: fmt::Write>(&self, f: &mut fmt::Formatter<W>) -> fmt::Result {
        let name = self.name;
        let none = self.none;
        match self.number {
            Some(n) => write!(f, "{name} {n}"),
            None => write!(f, "{name} {none}"),
        }
    }
}

/// The nozzles of a mask, in order.
#[derive(Clone, Copy)]
struct Mask(Option<u8>);

impl fmt::Display for Mask {
    ghost output = { λ m. Some (mask_text m.0) };

    fn fmt<W: fmt::Write>(&self, f: &mut fmt::Formatter<W>) -> fmt::Result {
        match self.0 {
            None => f.write_str("nozzles not entered"),
            Some(0) => f.write_str("no nozzle"),
            Some(mask) => {
                f.write_str("nozzles")?;
                for j in 0..8u8 {
                    if (mask >> j) & 1 == 1 {
                        let nozzle = j + 1;
                        write!(f, " {nozzle}")?;
                    }
                }
                Ok(())
            }
        }
    }
}

/// What a record holds beside its name, up to the line's end.
#[derive(Clone, Copy)]
struct Entered(TypeRecord);

impl fmt::Display for Entered {
    ghost output = { λ r. Some (fields_text r.0.quantity r.0.mask r.0.limit) };

    fn fmt<W: fmt::Write>(&self, f: &mut fmt::Formatter<W>) -> fmt::Result {
        let quantity = Figure {
            name: "quantity",
            number: self.0.quantity,
            none: "not entered",
        };
        let mask = Mask(self.0.mask);
        let limit = Figure {
            name: "limit",
            number: self.0.limit,
            none: "none",
        };
        write!(f, ": {quantity}, {mask}, {limit}\n")
    }
}

/// The two lines of a refusal.
#[derive(Clone, Copy)]
struct Refused(FileFault);

impl fmt::Display for Refused {
    ghost output = { λ r. Some (refusal_text r.0) };

    fn fmt<W: fmt::Write>(&self, f: &mut fmt::Formatter<W>) -> fmt::Result {
        let fault = self.0;
        let number = fault.number();
        let layer = fault.layer();
        let place = fault.place();
        write!(f, "refused {number} {layer} {place}\n{fault}\n")
    }
}

/// Adds what is told behind the text so far.
fn add<D: fmt::Display + Drop>(heap: Global, told: D, text: &mut Vec<u8>) -> Result<(), AllocError>
    ensures { IfSome (D.output told) (λ bs. OnOk result (text.new.items ≡ text.old.items ++ bs)) }
{
    let told = told.to_string(heap)?;
    text.extend_from_slice(told.as_bytes())
}

/// Adds the name of a record, if it has one, behind a space.
fn add_name(record: Record<'_>, text: &mut Vec<u8>) -> Result<(), AllocError>
    ensures { OnOk result (text.new.items ≡ text.old.items ++ name_text (name_of «record».entry)) }
{
    if let Record::Named { name, .. } = record {
        text.push(b' ')?;
        text.extend_from_slice(name)?;
    }
    Ok(())
}

/// Adds the line of the record of a type.
fn add_record(
    heap: Global,
    number: u8,
    record: Record<'_>,
    text: &mut Vec<u8>,
) -> Result<(), AllocError>
    ensures { OnOk result (text.new.items ≡ text.old.items ++ record_text number (entry_of «record».entry)) }
{
    add(heap, format_args!("type {number}"), text)?;
    add_name(record, text)?;
    add(heap, Entered(record.fields()), text)
}

/// Adds the header and the records that a reader has yet to give.
fn add_contents(heap: Global, reader: Reader<'_>, text: &mut Vec<u8>) -> Result<(), AllocError>
    requires { length (held reader) ≤ 24 }
    ensures { OnOk result (text.new.items ≡ text.old.items ++ (header_text reader.entry.types reader.entry.nozzles ++ records_text 1 (held reader.entry))) }
{
    let types = reader.types();
    let nozzles = reader.nozzles();
    add(
        heap,
        format_args!("types {types}, nozzles {nozzles}\n"),
        text,
    )?;
    for (number, record) in (1..=MOST_TYPES).zip(reader) {
        add_record(heap, number, record, text)?;
    }
    Ok(())
}

/// Writes the file again into memory of its own length, and says whether the bytes are the same.
fn is_same_again(bytes: &[u8], memory: &mut [u8]) -> bool
    ensures { (c : Contents) → reading bytes.now ≡ Ok c → length memory.old ≡ length bytes.now → result ≡ true }
{
    copy(bytes, memory).is_ok() && *memory == *bytes
}

/// Adds the line that says that the file was written again.
fn add_copy(heap: Global, bytes: &[u8], text: &mut Vec<u8>) -> Result<(), AllocError>
    ensures { OnOk result ((c : Contents) → reading bytes.now ≡ Ok c → text.new.items ≡ text.old.items ++ copy_text (length bytes.now)) }
{
    let count = bytes.len();
    let mut memory = vec![in heap; 0u8; count]?;
    if is_same_again(bytes, memory.as_mut_slice()) {
        add(
            heap,
            format_args!("written again: {count} bytes, the same\n"),
            text,
        )
    } else {
        add(
            heap,
            format_args!("written again: {count} bytes, not the same\n"),
            text,
        )
    }
}

/// All that is told of a file: a line for the header, one for each record and one for the copy, or
/// the two lines of its refusal.
pub fn report(heap: Global, bytes: &[u8]) -> Result<Vec<u8>, AllocError>
    ensures { IfOk result (λ text. text.items ≡ report_text (length bytes.now) (reading bytes.now)) }
{
    let mut text = Vec::new(heap);
    match Reader::open(bytes) {
        Ok(reader) => {
            add_contents(heap, reader, &mut text)?;
            add_copy(heap, bytes, &mut text)?;
        }
        Err(fault) => add(heap, Refused(fault), &mut text)?,
    }
    Ok(text)
}
