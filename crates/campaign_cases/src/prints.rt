// What is printed for a response file, byte by byte.
use crate::given::{MUTE, THREE, refused};
use feeder::Kind;
use refusals::Layer;
use std::process::Abort;
use std::test::Fail;
use survey::{fullmap, reducedmap};

// What every byte of a buffer is before a text is written to it.
const OLD: u8 = 7;

// How many bytes a buffer has.
const SIZE: usize = 90;

// Whether the text stands at the front of the buffer, with every byte behind it as it was.
fn prints(rt: &impl Abort, kind: Kind, file: &[u8], text: &[u8]) {
    let mut out = [OLD; SIZE];
    // A match on the kind, since a closure around the program at each call would be longer.
    let answer = match kind {
        Kind::Complete => fullmap(file, &mut out),
        Kind::Reduced => reducedmap(file, &mut out),
    };
    assert_eq!(rt; answer, Ok(text.len()));
    assert!(rt; out.starts_with(text));
    assert!(rt; out.iter().skip(text.len()).all(|byte| *byte == OLD));
}

#[test]
fn the_complete_map(rt: HostRuntime) {
    prints(
        &rt,
        Kind::Complete,
        THREE,
        b"bus,parent,r\r\n1,0,0.000300\r\n2,1,0.000200\r\n3,1,0.000500\r\n",
    );
}

#[test]
fn the_reduced_map(rt: HostRuntime) {
    prints(
        &rt,
        Kind::Reduced,
        b"probe,step,1,2\r\n1,0.100,0.00005,0.00003\r\n2,-0.500,-0.00015,-0.0004\r\n",
        b"bus,parent,r\r\n1,3,0.000200\r\n2,3,0.000500\r\n3,0,0.000300\r\n",
    );
}

#[test]
fn refusals_of_each_layer(rt: HostRuntime) {
    prints(
        &rt,
        Kind::Complete,
        b"",
        b"layer,refusal,place\r\nfile,3,0\r\n",
    );
    prints(
        &rt,
        Kind::Complete,
        MUTE,
        b"layer,refusal,place\r\nsource,12,2\r\n",
    );
    prints(
        &rt,
        Kind::Complete,
        b"probe,step,1\r\n1,0.100,\r\n",
        b"layer,refusal,place\r\nsource,12,1\r\n",
    );
    prints(
        &rt,
        Kind::Complete,
        b"probe,step,1\r\n1,1.000,-0.000005",
        b"layer,refusal,place\r\ndrawing,18,0\r\n",
    );
    prints(
        &rt,
        Kind::Reduced,
        THREE,
        b"layer,refusal,place\r\ndrawing,17,1\r\n",
    );
}

// A place of five digits.
#[test]
fn a_file_that_is_too_long(rt: HostRuntime) {
    let file = [b'a'; 65_537];
    prints(
        &rt,
        Kind::Complete,
        &file,
        b"layer,refusal,place\r\nfile,2,65536\r\n",
    );
    prints(
        &rt,
        Kind::Complete,
        &file[0..65_536],
        b"layer,refusal,place\r\nfile,3,0\r\n",
    );
}

// Whether a buffer of this size is too short for a text that needs so many bytes, and stays as it was.
fn too_short(rt: &impl Abort, file: &[u8], size: usize, needed: usize) -> Result<(), Fail> {
    let mut out = [OLD; SIZE];
    assert!(rt; size <= SIZE);
    refused(rt, fullmap(file, &mut out[..size]), Layer::File, 22, needed)?;
    assert!(rt; out.iter().all(|byte| *byte == OLD));
    Ok(())
}

// The map of three buses takes 56 bytes, the refusal of a mute meter 34.
#[test]
fn buffers_that_are_too_short(rt: HostRuntime) -> Result<(), Fail> {
    too_short(&rt, THREE, 55, 56)?;
    too_short(&rt, THREE, 0, 56)?;
    too_short(&rt, MUTE, 33, 34)
}
