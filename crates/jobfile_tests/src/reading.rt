// Reading job files, well formed and not.
use inspection::report;
use jobfile::{FileFault, Reader, Record, Refusal, TypeRecord};
use std::process::Abort;
use std::test::Fail;

/// The bytes are refused by the file layer with this number and place.
fn is_refused(
    rt: &impl Abort,
    bytes: &[u8],
    number: u8,
    place: usize,
    what: &str,
) -> Result<(), Fail> {
    let fault = Reader::open(bytes).err().ok_or("was read")?;
    assert_eq!(rt;
        (fault.number(), fault.layer(), fault.place()),
        (number, 1, place),
        "{what}"
    );
    Ok(())
}

/// The only record of a file that has one.
fn only_record(rt: &impl Abort, bytes: &[u8]) -> Result<TypeRecord, Fail> {
    let mut reader = Reader::open(bytes)?;
    let record = reader.next().ok_or("no record")?;
    assert!(rt; reader.next().is_none());
    Ok(record.fields())
}

#[test]
fn headers(rt: HostRuntime) -> Result<(), Fail> {
    is_refused(&rt, &[], 11, 0, "no byte")?;
    is_refused(&rt, &[0], 12, 0, "no type")?;
    is_refused(&rt, &[25], 12, 0, "25 types")?;
    is_refused(&rt, &[0, 1], 12, 0, "no type, one nozzle")?;
    is_refused(&rt, &[1], 11, 1, "one type alone")?;
    is_refused(&rt, &[24], 11, 1, "24 types alone")?;
    is_refused(&rt, &[1, 0], 12, 1, "no nozzle")?;
    is_refused(&rt, &[1, 9], 12, 1, "9 nozzles")?;
    is_refused(&rt, &[1, 8], 11, 2, "a header alone")
}

#[test]
fn maps_and_numbers(rt: HostRuntime) -> Result<(), Fail> {
    is_refused(&rt, &[1, 1, 16], 12, 2, "a bit of no field")?;
    is_refused(&rt, &[1, 1, 4], 12, 2, "a limit without a mask")?;
    is_refused(&rt, &[1, 1, 5, 1, 0, 1, 0], 12, 2, "a limit without a mask")?;
    is_refused(&rt, &[1, 1, 1], 11, 3, "no quantity")?;
    is_refused(&rt, &[1, 1, 1, 9], 11, 4, "half a quantity")?;
    is_refused(&rt, &[1, 1, 2], 11, 3, "no mask")?;
    is_refused(&rt, &[1, 1, 2, 2], 12, 3, "nozzle 2 of 1")?;
    is_refused(&rt, &[1, 7, 2, 128], 12, 3, "nozzle 8 of 7")?;
    is_refused(&rt, &[1, 1, 6, 1, 9], 11, 5, "half a limit")?;
    is_refused(&rt, &[1, 1, 0, 0], 12, 3, "a byte behind the last record")?;
    is_refused(&rt, &[2, 1, 0], 11, 3, "one record of two")
}

#[test]
fn names(rt: HostRuntime) -> Result<(), Fail> {
    is_refused(&rt, &[1, 1, 8], 11, 3, "no name")?;
    is_refused(&rt, &[1, 1, 8, 0], 12, 3, "an empty name")?;
    is_refused(&rt, &[1, 1, 8, 21], 12, 3, "a name of 21 bytes")?;
    is_refused(&rt, &[1, 1, 8, 2, 65], 11, 5, "good bytes cut off")?;
    is_refused(&rt, &[1, 1, 8, 2, 32], 12, 4, "a wrong byte before the end")?;
    is_refused(&rt, &[1, 1, 8, 1, 127], 12, 4, "a byte above 126")?;
    let mut reader = Reader::open(&[1, 1, 8, 2, 33, 126])?;
    let Some(Record::Named { name, .. }) = reader.next() else {
        return Err(Fail::new("nameless"));
    };
    assert_eq!(rt; name, [33, 126].as_slice());
    Ok(())
}

#[test]
fn not_entered_is_not_zero(rt: HostRuntime) -> Result<(), Fail> {
    let gaps = only_record(&rt, &[1, 1, 0])?;
    assert_eq!(rt; (gaps.quantity, gaps.mask, gaps.limit), (None, None, None));
    let zeros = only_record(&rt, &[1, 1, 7, 0, 0, 0, 0, 0])?;
    assert_eq!(rt;
        (zeros.quantity, zeros.mask, zeros.limit),
        (Some(0), Some(0), Some(0))
    );
    let largest = only_record(&rt, &[1, 8, 7, 255, 255, 255, 255, 255])?;
    assert_eq!(rt;
        (largest.quantity, largest.mask, largest.limit),
        (Some(65535), Some(255), Some(65535))
    );
    Ok(())
}

#[test]
fn records_come_in_order(rt: HostRuntime) -> Result<(), Fail> {
    let mut reader = Reader::open(&[2, 3, 1, 5, 0, 3, 1, 2, 6])?;
    assert_eq!(rt; (reader.types(), reader.nozzles()), (2, 3));
    let Some(Record::Bare { fields }) = reader.next() else {
        return Err(Fail::new("named"));
    };
    assert_eq!(rt; fields.quantity, Some(5));
    let Some(Record::Bare { fields }) = reader.next() else {
        return Err(Fail::new("named"));
    };
    assert_eq!(rt; fields.quantity, Some(513));
    assert_eq!(rt; fields.mask, Some(6));
    assert!(rt; reader.next().is_none());
    assert!(rt; reader.next().is_none());
    Ok(())
}

#[test]
fn told_in_words(rt: HostRuntime) -> Result<(), Fail> {
    let told = report(rt.alloc(), &[1, 2, 11, 5, 0, 2, 2, 65, 49])?;
    assert_eq!(rt;
        told.as_slice(),
        b"types 1, nozzles 2\ntype 1 A1: quantity 5, nozzles 2, limit none\nwritten again: 9 bytes, the same\n".as_slice()
    );
    let refused = report(rt.alloc(), &[1])?;
    assert_eq!(rt;
        refused.as_slice(),
        b"refused 11 1 1\nthe file ends too early, length in bytes: 1\n".as_slice()
    );
    Ok(())
}

#[test]
fn faults_have_numbers(rt: HostRuntime) {
    let fault = FileFault::HeaderRange;
    assert_eq!(rt; (fault.number(), fault.layer(), fault.place()), (1, 1, 0));
    let fault = FileFault::Unwritable { place: 7 };
    assert_eq!(rt; (fault.number(), fault.layer(), fault.place()), (3, 1, 7));
    let fault = FileFault::NoSuchRecord { place: 3 };
    assert_eq!(rt; (fault.number(), fault.layer(), fault.place()), (8, 1, 3));
    let fault = FileFault::NoRoom { place: 650 };
    assert_eq!(rt; (fault.number(), fault.layer(), fault.place()), (9, 1, 650));
}
