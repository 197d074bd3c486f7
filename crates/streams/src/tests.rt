use crate::{ReaderSource, SteadyReader, SteadyWriter, WriterSink, exit_code};
use replay_run::{Failed, Sink, SinkFault, Source, Status};
use std::io;
use std::io::{ErrorKind, Read, Write};
use std::test::Fail;

/// Gives one octet a call, and fails once, behind so many.
#[derive(Drop)]
struct FailsOnce<'b> {
    bytes: &'b [u8],
    behind: Option<usize>,
}

impl<'b> Read for FailsOnce<'b> {
    fn read(&mut self, buf: &mut [u8]) -> io::Result<usize> {
        if self.behind == Some(0) {
            self.behind = None;
            return Err(io::Error::from(ErrorKind::TimedOut));
        }
        self.behind = self.behind.map(|count| count.saturating_sub(1));
        let room = buf.len().min(1);
        self.bytes.read(&mut buf[..room])
    }
}

impl<'b> SteadyReader for FailsOnce<'b> {
    ghost use Rattle.std.specs.Prelude.{refl};

    ghost steady = { λ _ _. refl };
}

/// Takes so many octets at most a call, and fails at each call once it holds as many as it has room for.
#[derive(Drop)]
struct Narrow {
    held: Vec<u8>,
    most: usize,
    room: usize,
}

impl Write for Narrow {
    fn write(&mut self, piece: &[u8]) -> io::Result<usize> {
        if self.held.len() >= self.room {
            return Err(io::Error::from(ErrorKind::StorageFull));
        }
        let count = piece.len().min(self.most);
        self.held.write(&piece[..count])
    }

    fn flush(&mut self) -> io::Result<()> {
        Ok(())
    }
}

impl SteadyWriter for Narrow {
    ghost use Rattle.std.specs.Prelude.{refl};

    ghost steady = { λ _ _. refl };
}

#[test]
fn what_a_reader_has_is_read(rt: HostRuntime) {
    let mut buf = [0u8; 3];
    let mut source = ReaderSource::new(b"abcde".as_slice());
    assert!(rt; source.read(&mut []) == Ok(0));
    assert!(rt; source.read(&mut buf) == Ok(3) && buf == *b"abc");
    assert!(rt; source.read(&mut buf) == Ok(2) && buf == *b"dec");
    assert!(rt; source.read(&mut buf) == Ok(0));
}

#[test]
fn a_fault_of_a_reader_is_no_end(rt: HostRuntime) {
    for behind in 0..4usize {
        let bytes = b"abc".as_slice();
        let behind = Some(behind);
        let mut source = ReaderSource::new(FailsOnce { bytes, behind });
        let mut buf = [0u8; 3];
        let mut answers = [Ok(9); 5];
        for answer in &mut answers {
            *answer = source.read(&mut buf);
        }
        let failed = answers.iter().position(|answer| *answer == Err(Failed));
        assert!(rt; failed == behind, "the fault comes where it came");
        let given = answers.iter().filter(|answer| **answer == Ok(1)).count();
        assert!(rt; given == 3 && answers[4] == Ok(0), "all else is given");
    }
}

#[test]
fn a_short_write_is_told_as_short(rt: HostRuntime) -> Result<(), Fail> {
    let held = Vec::new(rt.alloc());
    let mut sink = WriterSink::new(Narrow {
        held,
        most: 2,
        room: 3,
    });
    assert!(rt; sink.write(b"") == Ok(0));
    assert!(rt; sink.write(b"abc") == Ok(2));
    assert!(rt; sink.write(b"c") == Ok(1));
    assert!(rt; sink.write(b"d") == Err(SinkFault::Failed));
    assert!(rt; sink.into_writer().held.as_slice() == b"abc".as_slice());
    Ok(())
}

#[test]
fn a_write_that_takes_nothing_is_a_fault(rt: HostRuntime) {
    let held = Vec::new(rt.alloc());
    let mut sink = WriterSink::new(Narrow {
        held,
        most: 0,
        room: 3,
    });
    assert!(rt; sink.write(b"") == Ok(0));
    assert!(rt; sink.write(b"a") == Err(SinkFault::Failed));
}

#[test]
fn a_vector_holds_what_was_written(rt: HostRuntime) {
    let mut sink = WriterSink::new(Vec::new(rt.alloc()));
    assert!(rt; sink.write(b"ab") == Ok(2));
    assert!(rt; sink.write(b"c") == Ok(1));
    assert!(rt; sink.into_writer().as_slice() == b"abc".as_slice());
}

#[test]
fn each_status_has_its_number(rt: HostRuntime) {
    let numbers = [
        (Status::Done, 0),
        (Status::Refused, 1),
        (Status::Usage, 2),
        (Status::ReadFault, 3),
        (Status::WriteFault, 4),
        (Status::Memory, 5),
        (Status::TooLong, 6),
    ];
    for (status, number) in numbers {
        assert!(rt; exit_code(status) == number, "{number}");
    }
}
