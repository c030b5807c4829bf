// What no clause says: that the bytes of the system come as they are.
use sig_io::{DiskFiles, ErrSink, Failed, Files, OutSink, put_all, read_whole};
use std::fmt::Display;
use std::fs::File;
use std::io::{ErrorKind, Write};
use std::test::Fail;
use std::{fs, io, process};

// A file that stands in for the standard output or the standard error.
#[derive(Drop)]
struct Printed(File);

impl Print for Printed {
    fn print<D: Display + Drop>(&self, _value: D) -> io::Result<()> {
        Err(io::Error::from(ErrorKind::Unsupported))
    }

    fn println<D: Display + Drop>(&self, _value: D) -> io::Result<()> {
        Err(io::Error::from(ErrorKind::Unsupported))
    }

    fn write_all(&self, bytes: &[u8]) -> io::Result<()> {
        (&self.0).write_all(bytes)
    }
}

#[test]
fn the_system_gets_and_gives_the_bytes(rt: HostRuntime) -> Result<(), Fail> {
    let alloc = rt.alloc();
    let name = format!(in alloc; "/tmp/sig_io_test_{}", process::id(rt.process()))?;
    let text = Printed(fs::create(&rt, name.as_str())?);
    assert_eq!(rt; put_all(&mut OutSink::new(&text), b"hello"), Ok(()));
    assert_eq!(rt; put_all(&mut ErrSink::new(&text), b", you"), Ok(()));
    let mut files = DiskFiles::new(&rt);
    let mut piece = [0u8; 4];
    assert_eq!(rt; files.read_at(name.as_str(), 1, &mut piece), Ok(4));
    assert_eq!(rt; &piece[..], b"ello".as_slice());
    let whole = read_whole(alloc, &mut files, name.as_str(), 10)?;
    assert_eq!(rt; whole.as_slice(), b"hello, you".as_slice());
    fs::remove_file(&rt, name.as_str())?;
    // The file that was read last is still open.
    assert_eq!(rt; files.read_at(name.as_str(), 10, &mut piece), Ok(0));
    assert_eq!(rt;
        files.read_at("/tmp/no such file", 0, &mut piece),
        Err(Failed)
    );
    Ok(())
}
