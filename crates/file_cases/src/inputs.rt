use files::Table;
use refusals::{Layer, Refusal};
use rfc4180::read_input;
use std::io;
use std::io::{ErrorKind, Read};
use std::test::Fail;

// A reader that gives a byte a call, and whose every other call is interrupted.
#[derive(Drop)]
struct Slow<'a> {
    bytes: &'a [u8],
    interrupted: bool,
}

impl Read for Slow<'_> {
    fn read(&mut self, buf: &mut [u8]) -> io::Result<usize> {
        self.interrupted = !self.interrupted;
        if self.interrupted {
            return Err(io::Error::from(ErrorKind::Interrupted));
        }
        let most = buf.len().min(1);
        self.bytes.read(&mut buf[..most])
    }
}

// A reader that fails.
#[derive(Drop)]
struct Broken;

impl Read for Broken {
    fn read(&mut self, _buf: &mut [u8]) -> io::Result<usize> {
        Err(io::Error::from(ErrorKind::BrokenPipe))
    }
}

#[test]
fn an_input_without_end(rt: HostRuntime) -> Result<(), Fail> {
    let bytes = read_input(rt.alloc(), io::repeat(b'1'))?;
    assert_eq!(rt; bytes.len(), 65_537);
    let fault = Table::new().read(bytes.as_slice()).err().ok_or("accepted")?;
    assert_eq!(rt;
        Refusal::from(fault),
        Refusal {
            number: 2,
            layer: Layer::File,
            place: 65_536
        }
    );
    Ok(())
}

#[test]
fn short_inputs(rt: HostRuntime) -> Result<(), Fail> {
    for input in [b"".as_slice(), b"probe,step,1\r\n1,0.1,0\r\n".as_slice()] {
        let bytes = read_input(rt.alloc(), input)?;
        assert_eq!(rt; bytes.as_slice(), input);
        let slow = Slow {
            bytes: input,
            interrupted: false,
        };
        assert_eq!(rt; read_input(rt.alloc(), slow)?.as_slice(), input);
    }
    Ok(())
}

#[test]
fn inputs_at_the_limit(rt: HostRuntime) -> Result<(), Fail> {
    let mut input = vec![in rt.alloc(); b'1'; 65_535]?;
    input.extend_from_slice(b"234")?;
    for (given, taken, left) in [
        (65_536, 65_536, 0),
        (65_537, 65_537, 0),
        (65_538, 65_537, 1),
    ] {
        let mut reader = input.get(..given).ok_or("too few")?;
        let bytes = read_input(rt.alloc(), &mut reader)?;
        assert_eq!(rt; input.get(..taken), Some(bytes.as_slice()), "of {given}");
        assert_eq!(rt; reader.len(), left, "of {given}");
    }
    Ok(())
}

#[test]
fn a_reader_that_fails(rt: HostRuntime) -> Result<(), Fail> {
    let input = b"probe,step,1\r\n".as_slice().chain(Broken);
    let error = read_input(rt.alloc(), input).err().ok_or("read")?;
    assert_eq!(rt; error.kind(), ErrorKind::BrokenPipe);
    Ok(())
}
