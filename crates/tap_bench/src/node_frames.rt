use crate::names::{NEIGHBOURS, neighbour};
use std::alloc::Global;

/// The digits of a name.
pub(crate) type Digits = [u8; 8];

/// The node that takes the frames, or joins by another one.
pub(crate) const OWNER: Digits = [0; 8];

/// A kind of frame: its code.
#[derive(Clone, Copy)]
pub(crate) enum Code {
    Tell = 2,
    Hello = 3,
    Ack = 5,
    Release = 7,
    Link = 8,
    Find = 10,
    Forget = 15,
}

/// The bytes of a frame of the first version, with this body.
pub(crate) fn frame(
    alloc: Global,
    code: Code,
    from: &Digits,
    to: &Digits,
    body: &[u8],
) -> Option<Vec<u8>> {
    let [high, low] = u16::try_from(body.len()).ok()?.to_be_bytes();
    let mut bytes = Vec::new(alloc);
    bytes.extend_from_slice(&[1, code as u8, high, low]).ok()?;
    bytes.extend_from_slice(from).ok()?;
    bytes.extend_from_slice(to).ok()?;
    bytes.extend_from_slice(body).ok()?;
    Some(bytes)
}

/// A Release.
pub(crate) fn release(alloc: Global, from: &Digits) -> Option<Vec<u8>> {
    frame(alloc, Code::Release, from, &OWNER, &[])
}

/// A Forget.
pub(crate) fn forget(alloc: Global, from: &Digits) -> Option<Vec<u8>> {
    frame(alloc, Code::Forget, from, &OWNER, &[])
}

/// A Link that is on.
pub(crate) fn link(alloc: Global, from: &Digits, version: u32) -> Option<Vec<u8>> {
    let [a, b, c, d] = version.to_be_bytes();
    frame(alloc, Code::Link, from, &OWNER, &[a, b, c, d, 1])
}

/// An Ack of a session.
pub(crate) fn ack(alloc: Global, from: &Digits, session: u32) -> Option<Vec<u8>> {
    frame(alloc, Code::Ack, from, &OWNER, &session.to_be_bytes())
}

/// A Find of an object, which goes on from level 1.
pub(crate) fn find(alloc: Global, from: &Digits, object: &Digits) -> Option<Vec<u8>> {
    let parts: [&[u8]; 4] = [&[0, 0, 0, 1], object, from, &[1]];
    let body = parts.concat(alloc).ok()?;
    frame(alloc, Code::Find, from, &OWNER, body.as_slice())
}

/// A Tell of a joiner that shares no digit with its surrogate: the receiver tells its nodes of all levels. The watch has the
/// slots of level 0 with the digits from this one on, but that of the joiner itself.
pub(crate) fn tell(
    alloc: Global,
    from: &Digits,
    joiner: &Digits,
    first_watched: u8,
) -> Option<Vec<u8>> {
    let parts: [&[u8]; 2] = [joiner, &[0, 1, 0, 0, 0, 1, 0, 1]];
    let mut body = parts.concat(alloc).ok()?;
    for digit in first_watched..16 {
        if digit != joiner[0] {
            body.extend_from_slice(&[0, digit]).ok()?;
        }
    }
    frame(alloc, Code::Tell, from, &OWNER, body.as_slice())
}

/// A Hello of a core node with the neighbours as links, of which each third one isn't settled.
pub(crate) fn hello(alloc: Global, from: &Digits) -> Option<Vec<u8>> {
    let mut body = Vec::new(alloc);
    body.extend_from_slice(&[0, 0, 0, 1, 1]).ok()?;
    for number in 0..NEIGHBOURS {
        body.extend_from_slice(&neighbour(number)).ok()?;
        body.push(u8::from(number % 3 != 2)).ok()?;
    }
    frame(alloc, Code::Hello, from, &OWNER, body.as_slice())
}
