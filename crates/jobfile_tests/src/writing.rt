// Writing job files, and copying them.
use jobfile::{FileFault, Reader, Record, TypeRecord, Writer, copy};
use std::process::Abort;
use std::test::Fail;

const LARGEST: TypeRecord = TypeRecord {
    quantity: Some(65535),
    mask: Some(255),
    limit: Some(65535),
};

/// A writer of one nozzle and one type does not take the record, and changes nothing.
fn is_unwritable(rt: &impl Abort, record: Record<'_>, what: &str) -> Result<(), Fail> {
    let mut out = [9; 40];
    let mut writer = Writer::open(1, 1, &mut out)?;
    assert_eq!(rt;
        writer.put(record, &mut out),
        Err(FileFault::Unwritable { place: 2 }),
        "{what}"
    );
    assert!(rt; out[2] == 9 && out[39] == 9, "{what}");
    assert_eq!(rt;
        writer.finish(),
        Err(FileFault::EndsEarly { place: 2 }),
        "{what}"
    );
    Ok(())
}

#[test]
fn headers_out_of_range(rt: HostRuntime) {
    let mut out = [9; 2];
    assert!(rt; is_header_refused(0, 1, &mut out));
    assert!(rt; is_header_refused(25, 1, &mut out));
    assert!(rt; is_header_refused(1, 0, &mut out));
    assert!(rt; is_header_refused(1, 9, &mut out));
    assert!(rt; out[0] == 9 && out[1] == 9);
    assert_eq!(rt;
        Writer::open(1, 1, &mut out[0..1]).err(),
        Some(FileFault::NoRoom { place: 2 })
    );
}

fn is_header_refused(types: u8, nozzles: u8, out: &mut [u8]) -> bool {
    Writer::open(types, nozzles, out).err() == Some(FileFault::HeaderRange)
}

#[test]
fn records_that_no_file_holds(rt: HostRuntime) -> Result<(), Fail> {
    let limit_alone = TypeRecord {
        limit: Some(3),
        ..TypeRecord::default()
    };
    is_unwritable(
        &rt,
        Record::Bare {
            fields: limit_alone,
        },
        "a limit without a mask",
    )?;
    is_unwritable(&rt, Record::Bare { fields: LARGEST }, "nozzles 2 to 8 of 1")?;
    is_unwritable(
        &rt,
        Record::Named {
            name: b"",
            fields: TypeRecord::default(),
        },
        "an empty name",
    )?;
    is_unwritable(
        &rt,
        Record::Named {
            name: b"123456789012345678901",
            fields: TypeRecord::default(),
        },
        "a name of 21 bytes",
    )?;
    is_unwritable(
        &rt,
        Record::Named {
            name: b"R 1",
            fields: TypeRecord::default(),
        },
        "a name with a space",
    )
}

/// A record of the longest kind.
fn longest() -> Record<'static> {
    Record::Named {
        name: b"12345678901234567890",
        fields: LARGEST,
    }
}

/// Writes the longest file, and tries one record more.
fn write_longest(rt: &impl Abort, out: &mut [u8]) -> Result<(), Fail> {
    let mut writer = Writer::open(24, 8, out)?;
    for _ in 0..24u8 {
        assert!(rt; writer.finish().is_err());
        assert_eq!(rt; writer.put(longest(), out), Ok(()));
    }
    assert_eq!(rt;
        writer.put(longest(), out),
        Err(FileFault::NoSuchRecord { place: 25 })
    );
    assert_eq!(rt; writer.finish(), Ok(650));
    Ok(())
}

/// Reads the longest file.
fn read_longest(rt: &impl Abort, file: &[u8]) -> Result<(), Fail> {
    let mut reader = Reader::open(file)?;
    for _ in 0..24u8 {
        let Some(Record::Named { name, fields }) = reader.next() else {
            return Err(Fail::new("nameless"));
        };
        assert!(rt; name.len() == 20);
        assert_eq!(rt; fields, LARGEST);
    }
    assert!(rt; reader.next().is_none());
    Ok(())
}

#[test]
fn longest_file(rt: HostRuntime) -> Result<(), Fail> {
    let mut out = [9; 651];
    write_longest(&rt, &mut out)?;
    assert!(rt; out[650] == 9);
    read_longest(&rt, &out[0..650])
}

/// A record of the longest kind, without its name.
fn nameless() -> Record<'static> {
    Record::Bare { fields: LARGEST }
}

#[test]
fn too_little_memory(rt: HostRuntime) -> Result<(), Fail> {
    let mut out = [9; 28];
    let mut writer = Writer::open(1, 8, &mut out)?;
    assert_eq!(rt;
        writer.put(longest(), &mut out),
        Err(FileFault::NoRoom { place: 29 })
    );
    assert!(rt; out[2] == 9 && out[27] == 9);
    assert_eq!(rt; writer.put(nameless(), &mut out), Ok(()));
    assert_eq!(rt; writer.finish(), Ok(8));
    assert!(rt; out[2] == 7 && out[8] == 9);
    Ok(())
}

#[test]
fn copies(rt: HostRuntime) {
    let file = [2, 2, 3, 5, 0, 3, 3, 2, 0, 2];
    let mut out = [9; 12];
    assert_eq!(rt; copy(&file, &mut out), Ok(10));
    assert!(rt; out[0..10] == file[0..10]);
    assert!(rt; out[10] == 9 && out[11] == 9);
    let mut small = [9; 9];
    assert_eq!(rt;
        copy(&file, &mut small),
        Err(FileFault::NoRoom { place: 10 })
    );
    assert!(rt; small == [9; 9]);
    assert_eq!(rt;
        copy(&file[0..9], &mut small),
        Err(FileFault::EndsEarly { place: 9 })
    );
    assert!(rt; small == [9; 9]);
}
