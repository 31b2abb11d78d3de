// Files that come in parts, files of the most bytes and of one more, refused ones, and a read or a write that fails. What must be printed is
// document 01's.
use super::answer_input;
use std::alloc::Global;
use std::io;
use std::io::{ErrorKind, Read, Write};
use std::process::ExitCode;
use std::test::Fail;

const EXAMPLE: &[u8] =
    b"N\x04\0E\0\0\x01\0\x05\0\0\0E\x01\0\x02\0\x0B\0\0\0E\x02\0\x03\0\x05\0\0\0G";

// Gives a file in parts of two sizes by turns. After so many reads each one fails.
#[derive(Drop)]
struct Parts<'a> {
    rest: &'a [u8],
    sizes: [usize; 2],
    reads: usize,
}

impl Read for Parts<'_> {
    fn read(&mut self, buf: &mut [u8]) -> io::Result<usize> {
        if self.reads == 0 {
            return Err(io::Error::from(ErrorKind::ConnectionReset));
        }
        self.reads -= 1;
        let n = self.rest.len().min(buf.len()).min(self.sizes[0]);
        buf[..n].copy_from_slice(&self.rest[..n]);
        self.rest = &self.rest[n..];
        self.sizes.swap(0, 1);
        Ok(n)
    }
}

// A writer that takes nothing.
#[derive(Drop)]
struct Shut;

impl Write for Shut {
    fn write(&mut self, _buf: &[u8]) -> io::Result<usize> {
        Err(io::Error::from(ErrorKind::BrokenPipe))
    }

    fn flush(&mut self) -> io::Result<()> {
        Ok(())
    }
}

// The answers of a file at both ways to give it, one after the other, and the statuses.
fn answered(alloc: Global, file: &[u8]) -> io::Result<(Vec<u8>, [ExitCode; 2])> {
    let mut out = Vec::new(alloc);
    let mut ended = [ExitCode::FAILURE; 2];
    for (sizes, ended) in [[1, 7], [65536, 65537]].iter().zip(&mut ended) {
        let mut from = Parts {
            rest: file,
            sizes: *sizes,
            reads: 100000,
        };
        *ended = answer_input(&mut from, &mut out)?;
    }
    Ok((out, ended))
}

#[test]
fn answers_in_parts(rt: HostRuntime) -> Result<(), Fail> {
    for (file, text, status) in [
        (EXAMPLE, "DONE 1 11 8\n1 2 11\nDONE 1 11 8\n1 2 11\n", 0),
        (b"N\0\0G", "DONE 0 0 0\nDONE 0 0 0\n", 0),
        (b"", "CUT 0\nCUT 0\n", 3),
        (b"N\x04\0G\n", "KIND 4\nKIND 4\n", 3),
        (b"N\x41\0G", "NODES 0\nNODES 0\n", 3),
        (
            b"N\x02\0E\0\0\x01\0\x05\0\0\0E\x01\0\x01\0\x05\0\0\0G",
            "LOOP 1\nLOOP 1\n",
            3,
        ),
        (
            b"N\x02\0B\0\0\0\0E\0\0\x01\0\x05\0\0\0G",
            "STEPS 0\nSTEPS 0\n",
            3,
        ),
    ] {
        let (out, ended) = answered(rt.alloc(), file)?;
        assert_eq!(rt; out.as_slice(), text.as_bytes(), "at {text}");
        assert_eq!(rt; ended, [ExitCode::from(status); 2], "at {text}");
    }
    Ok(())
}

// Two nodes and edges between them, as many bytes as are asked for: the 2,049th edge is one too many, but for LONG.
#[test]
fn answers_at_the_most_bytes(rt: HostRuntime) -> Result<(), Fail> {
    let mut file = Vec::from_slice(rt.alloc(), b"N\x02\0")?;
    for _ in 0..7300 {
        file.extend_from_slice(b"E\0\0\x01\0\x05\0\0\0")?;
    }
    for (size, text) in [
        (65538, "LONG 0\nLONG 0\n"),
        (65537, "LONG 0\nLONG 0\n"),
        (65536, "EDGES 18435\nEDGES 18435\n"),
    ] {
        file.truncate(size);
        assert_eq!(rt; file.len(), size);
        let (out, ended) = answered(rt.alloc(), file.as_slice())?;
        assert_eq!(rt; out.as_slice(), text.as_bytes());
        assert_eq!(rt; ended, [ExitCode::from(3); 2]);
    }
    Ok(())
}

// A file that was read in part is not planned.
#[test]
fn fails(rt: HostRuntime) -> Result<(), Fail> {
    for reads in 0..9 {
        let mut from = Parts {
            rest: EXAMPLE,
            sizes: [1, 7],
            reads,
        };
        let mut out = Vec::new(rt.alloc());
        assert!(rt;
            answer_input(&mut from, &mut out).is_err(),
            "at read {reads}"
        );
        assert!(rt; out.is_empty());
    }
    let mut from = EXAMPLE;
    assert!(rt; answer_input(&mut from, &mut Shut).is_err());
    Ok(())
}
