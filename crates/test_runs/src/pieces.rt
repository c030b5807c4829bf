// What no clause says: how often a stream is asked.
use sig_io::{ErrSink, OutSink, PutFault, put_all, put_each};
use std::cell::Cell;
use std::fmt::Display;
use std::io;
use std::io::ErrorKind;
use std::test::Fail;

// A handle that counts its calls; a signal interrupts so many of them.
#[derive(Drop)]
struct Counted {
    calls: Cell<u32>,
    interrupted: u32,
}

impl Counted {
    fn new(interrupted: u32) -> Counted {
        Counted {
            calls: Cell::new(0),
            interrupted,
        }
    }
}

impl Print for Counted {
    fn print<D: Display + Drop>(&self, _value: D) -> io::Result<()> {
        Err(io::Error::from(ErrorKind::Unsupported))
    }

    fn println<D: Display + Drop>(&self, _value: D) -> io::Result<()> {
        Err(io::Error::from(ErrorKind::Unsupported))
    }

    fn write_all(&self, _bytes: &[u8]) -> io::Result<()> {
        let before = self.calls.get();
        self.calls.set(before.saturating_add(1));
        if before < self.interrupted {
            Err(io::Error::from(ErrorKind::Interrupted))
        } else {
            Ok(())
        }
    }
}

#[test]
fn an_interrupted_write_is_asked_for_again(rt: HostRuntime) -> Result<(), Fail> {
    let some = Counted::new(3);
    assert_eq!(rt; put_all(&mut OutSink::new(&some), b"hello"), Ok(()));
    assert_eq!(rt; some.calls.get(), 4);
    let all = Counted::new(u32::MAX);
    assert_eq!(rt;
        put_all(&mut OutSink::new(&all), b"hello"),
        Err(PutFault { taken: 0 })
    );
    assert_eq!(rt; all.calls.get(), 1000);
    Ok(())
}

#[test]
fn a_short_text_in_pieces_leaves_in_one_call(rt: HostRuntime) -> Result<(), Fail> {
    let short = Counted::new(0);
    assert_eq!(rt;
        put_each(&mut ErrSink::new(&short), &[b"junction: ", b"x", b"\n"]),
        Ok(())
    );
    assert_eq!(rt; short.calls.get(), 1);
    let piece = [b'x'; 4096];
    let full = Counted::new(0);
    assert_eq!(rt;
        put_each(&mut ErrSink::new(&full), &[&piece[1..], b"\n"]),
        Ok(())
    );
    assert_eq!(rt; full.calls.get(), 1);
    let long = Counted::new(0);
    assert_eq!(rt;
        put_each(&mut ErrSink::new(&long), &[&piece, b"\n"]),
        Ok(())
    );
    assert_eq!(rt; long.calls.get(), 2);
    Ok(())
}
