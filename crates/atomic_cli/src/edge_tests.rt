//! Tests of what no clause of `edge` says: that the calls succeed, and the bytes of real files.

use edge::{Fault, FileFolder, Folder, MemFolder, MemSink, OutSink, ReadEnd, read_file, write_all};
use std::fmt::Display;
use std::fs::File;
use std::io::{Print, Write};
use std::test::Fail;
use std::{fs, io};

/// Two files of one name, and an empty one.
static FILES: [(&str, &str); 3] = [("a", "eleven byte"), ("a", "other"), ("empty", "")];

/// A folder with these files that gives 3 bytes a call, and fails at these calls.
fn folder(rt: &HostRuntime, failing: &[u64]) -> Result<MemFolder, Fail> {
    let alloc = rt.alloc();
    let mut files = Vec::new(alloc);
    for (name, text) in &FILES {
        let name = String::from_str(alloc, name)?;
        files.push((name, text.as_bytes().to_vec(alloc)?))?;
    }
    Ok(MemFolder::new(alloc, files, 3, failing.to_vec(alloc)?)?)
}

/// Failing calls, the name and the limit with which a file is read, and its text.
static READ: [(&[u64], &str, u32, &str); 3] = [
    (&[], "a", 11, "eleven byte"),
    (&[], "empty", 0, ""),
    (&[6], "a", 11, "eleven byte"),
];

/// Failing calls, the name and the limit with which no file is read, and why.
static REFUSED: [(&[u64], &str, u32, ReadEnd); 3] = [
    (&[], "a", 10, ReadEnd::TooLarge),
    (&[], "z", 11, ReadEnd::Fault),
    (&[2], "a", 11, ReadEnd::Fault),
];

#[test]
fn files_in_memory_are_read_whole_or_not_at_all(rt: HostRuntime) -> Result<(), Fail> {
    for (failing, name, limit, text) in &READ {
        let mut folder = folder(&rt, failing)?;
        let Ok(bytes) = read_file(rt.alloc(), &mut folder, name, *limit) else {
            return Err(Fail::new("the file is not read"));
        };
        assert_eq!(rt; bytes.as_slice(), text.as_bytes());
    }
    for (failing, name, limit, why) in &REFUSED {
        let mut folder = folder(&rt, failing)?;
        let Err(end) = read_file(rt.alloc(), &mut folder, name, *limit) else {
            return Err(Fail::new("the file is read"));
        };
        assert_eq!(rt; end, *why);
    }
    Ok(())
}

/// Bytes that are written one after the other, what comes of each, and what the sink has taken then.
static WRITTEN: [(&[u8], Result<(), Fault>, &[u8]); 4] = [
    (b"Cell.inc", Err(Fault), b"Cell"),
    (b".inc ", Ok(()), b"Cell.inc "),
    (b"mover", Err(Fault), b"Cell.inc m"),
    (b"", Ok(()), b"Cell.inc m"),
];

#[test]
fn a_sink_in_memory_takes_what_it_has_room_for(rt: HostRuntime) -> Result<(), Fail> {
    let mut sink = MemSink::new(rt.alloc(), 4, [2].to_vec(rt.alloc())?, 10)?;
    for (bytes, done, taken) in &WRITTEN {
        assert_eq!(rt; write_all(&mut sink, bytes), *done);
        assert_eq!(rt; sink.bytes(), *taken);
    }
    Ok(())
}

/// Whether a real file is read whole within this limit.
fn is_read(rt: &HostRuntime, name: &str, limit: u32, bytes: &[u8]) -> bool {
    let read = read_file(rt.alloc(), &mut FileFolder::new(rt), name, limit);
    matches!(read, Ok(read) if read.as_slice() == bytes)
}

/// Whether a real file isn't read within this limit, for this reason.
fn is_refused(rt: &HostRuntime, name: &str, limit: u32, why: ReadEnd) -> bool {
    let read = read_file(rt.alloc(), &mut FileFolder::new(rt), name, limit);
    matches!(read, Err(end) if end == why)
}

#[test]
fn a_real_file_of_10_000_bytes_is_read_whole(rt: HostRuntime) -> Result<(), Fail> {
    let mut bytes = Vec::new(rt.alloc());
    for i in 0..10_000u32 {
        bytes.push((i * 7 % 251) as u8)?;
    }
    let name = "a_real_file_of_10_000_bytes";
    fs::write(&rt, name, bytes.as_slice())?;
    assert!(rt; is_read(&rt, name, 10_000, bytes.as_slice()));
    assert!(rt; is_refused(&rt, name, 9_999, ReadEnd::TooLarge));
    fs::remove_file(&rt, name)?;
    assert!(rt; is_refused(&rt, name, 10_000, ReadEnd::Fault));
    Ok(())
}

/// What one read of a real file gives, from a byte on.
fn piece(
    rt: &HostRuntime,
    folder: &mut FileFolder<'_, HostRuntime>,
    name: &str,
    at: u64,
) -> Result<Vec<u8>, Fail> {
    let mut into = [0; 4];
    let Ok(n) = folder.read_at(name, at, &mut into) else {
        return Err(Fail::new("the file is not read"));
    };
    Ok(into[..n].to_vec(rt.alloc())?)
}

#[test]
fn a_file_is_read_to_its_end_though_another_takes_its_name(rt: HostRuntime) -> Result<(), Fail> {
    let name = "a_file_whose_name_is_taken";
    let other = "the_file_that_takes_it";
    fs::write(&rt, name, b"first file")?;
    let mut folder = FileFolder::new(&rt);
    assert_eq!(rt;
        piece(&rt, &mut folder, name, 0)?.as_slice(),
        b"firs".as_slice()
    );
    fs::write(&rt, other, b"SECOND FILE")?;
    fs::rename(&rt, other, name)?;
    assert_eq!(rt;
        piece(&rt, &mut folder, name, 4)?.as_slice(),
        b"t fi".as_slice()
    );
    assert_eq!(rt;
        piece(&rt, &mut folder, name, 8)?.as_slice(),
        b"le".as_slice()
    );
    assert_eq!(rt;
        piece(&rt, &mut folder, name, 10)?.as_slice(),
        b"".as_slice()
    );
    // A read from another byte, or of another name, opens the file that has the name now.
    assert_eq!(rt;
        piece(&rt, &mut folder, name, 7)?.as_slice(),
        b"FILE".as_slice()
    );
    assert_eq!(rt;
        piece(&rt, &mut folder, name, 0)?.as_slice(),
        b"SECO".as_slice()
    );
    fs::remove_file(&rt, name)?;
    Ok(())
}

/// A runtime that prints into a file, raw bytes alone.
#[derive(Drop)]
struct FilePrint(File);

impl Print for FilePrint {
    fn print<D: Display + Drop>(&self, _value: D) -> io::Result<()> {
        Err(io::Error::from(io::ErrorKind::Unsupported))
    }

    fn println<D: Display + Drop>(&self, _value: D) -> io::Result<()> {
        Err(io::Error::from(io::ErrorKind::Unsupported))
    }

    fn write_all(&self, bytes: &[u8]) -> io::Result<()> {
        (&self.0).write_all(bytes)
    }
}

#[test]
fn printed_bytes_come_out_whole(rt: HostRuntime) -> Result<(), Fail> {
    let name = "printed_bytes_come_out_whole";
    let print = FilePrint(File::create(&rt, name)?);
    let mut sink = OutSink::new(&print);
    assert_eq!(rt; write_all(&mut sink, b"Cell.inc "), Ok(()));
    assert_eq!(rt; write_all(&mut sink, b"mover\n"), Ok(()));
    let text = fs::read_to_string(&rt, name)?;
    fs::remove_file(&rt, name)?;
    assert_eq!(rt; text.as_str(), "Cell.inc mover\n");
    Ok(())
}
