use crate::node_frames::{Code, Digits, frame};
use std::alloc::Global;

const SENDER: Digits = [0, 0, 0, 0, 0, 0, 0, 1];

const RECEIVER: Digits = [0, 0, 0, 0, 0, 0, 0, 2];

/// The bytes of a Release.
pub(crate) fn release(alloc: Global) -> Option<Vec<u8>> {
    frame(alloc, Code::Release, &SENDER, &RECEIVER, &[])
}

/// The bytes of a Hello with 255 settled links, of which each has nine bytes.
pub(crate) fn hello(alloc: Global) -> Option<Vec<u8>> {
    let mut body = Vec::new(alloc);
    body.extend_from_slice(&[0, 0, 0, 1, 1]).ok()?;
    for link in 0..255u8 {
        let bytes = [0, 0, 0, 0, 0, 0, link / 16, link % 16, 1];
        body.extend_from_slice(&bytes).ok()?;
    }
    frame(alloc, Code::Hello, &SENDER, &RECEIVER, body.as_slice())
}
