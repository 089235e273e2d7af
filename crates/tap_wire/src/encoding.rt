ghost use Rattle.std.specs.Prelude.{◌≡◌, ◌<◌, IfOk, length};
ghost use Rattle.tap_wire.specs.Spelling.{IsFrame, head_bytes, body_bytes, tell_frame, spelling};
ghost use Rattle.tap_wire.specs.Writing.{HasRoom, Puts};

use crate::bytes::{Bytes, MOST_IN_PLACE};
use crate::frame::{Frame, TellFields};
use crate::kind::Kind;
use crate::layout::{SLOT_LEN, body_len, body_start, is_long, version_of};
use crate::memory::NoMemory;
use crate::writing::{put_body, put_byte, put_name, put_tell, put_u16};
use std::alloc::Global;
use tap_name::{Name, Settings};
use tap_watch::Watch;

// The head of a frame whose body has a code and so many bytes.
#[tactic(auto, using(crate::proofs::Appending::sizes))]
fn put_head(out: &mut [u8], settings: &Settings, code: u8, len: u16) -> usize
    requires { HasRoom out.old 0 (head_bytes settings.now code len) }
    ensures { Puts out.old 0 (head_bytes settings.now code len) out.new result }
{
    let at = put_byte(out, 0, version_of(settings));
    let at = put_byte(out, at, code);
    let at = put_u16(out, at, len);
    if is_long(settings) {
        return put_byte(out, at, settings.digits());
    }
    at
}

// A frame whose body has so many bytes, for which there is room.
#[tactic(auto, using(crate::proofs::Appending::sizes))]
#[inline(always)]
fn put_frame(out: &mut [u8], settings: &Settings, frame: &Frame, len: u16) -> usize
    requires long { len ≡ length (body_bytes frame.now.body) }
    requires room { HasRoom out.old 0 (spelling settings.now frame.now) }
    ensures { Puts out.old 0 (spelling settings.now frame.now) out.new result }
{
    let at = put_head(out, settings, Kind::of(&frame.body).code(), len);
    let at = put_name(out, at, &frame.from);
    let at = put_name(out, at, &frame.to);
    put_body(out, at, &frame.body)
}

// A Tell whose body has so many bytes, for which there is room.
#[tactic(auto, using(crate::proofs::Appending::sizes))]
#[inline(always)]
fn put_tell_frame(
    out: &mut [u8],
    settings: &Settings,
    from: &Name,
    to: &Name,
    fields: &TellFields,
    watch: &Watch,
    len: u16,
) -> usize
    requires long { len ≡ length (body_bytes (tell_frame from.now to.now fields.now watch.now).body) }
    requires room { HasRoom out.old 0 (spelling settings.now (tell_frame from.now to.now fields.now watch.now)) }
    ensures { Puts out.old 0 (spelling settings.now (tell_frame from.now to.now fields.now watch.now)) out.new result }
{
    let at = put_head(out, settings, Kind::Tell.code(), len);
    let at = put_name(out, at, from);
    let at = put_name(out, at, to);
    put_tell(
        out,
        at,
        &fields.joiner,
        fields.prefix,
        fields.level,
        fields.session,
        fields.depth,
        watch,
    )
}

/// The one spelling of a frame whose fields keep their rules.
///
/// Rule: docs/FORMATS.md, "Frames".
pub fn encode(alloc: Global, settings: &Settings, frame: &Frame) -> Result<Bytes, NoMemory>
    requires { IsFrame settings.now frame.now }
    ensures { IfOk result (λ bytes. bytes ≡ spelling settings.now frame.now) }
{
    let len = body_len(settings, &frame.body);
    if body_start(settings) + len > MOST_IN_PLACE {
        return encode_long(alloc, settings, frame, len);
    }
    let mut places = [0; MOST_IN_PLACE];
    let end = put_frame(&mut places, settings, frame, len as u16);
    Ok(Bytes::in_place(alloc, places, end))
}

// The spelling of a frame whose body has so many bytes.
#[inline(never)]
fn encode_long(
    alloc: Global,
    settings: &Settings,
    frame: &Frame,
    len: usize,
) -> Result<Bytes, NoMemory>
    requires frame { IsFrame settings.now frame.now }
    requires long { len ≡ length (body_bytes frame.now.body) }
    requires most { len < 65536 }
    ensures { IfOk result (λ bytes. bytes ≡ spelling settings.now frame.now) }
{
    let mut bytes = vec![in alloc; 0; body_start(settings) + len]?;
    put_frame(bytes.as_mut_slice(), settings, frame, len as u16);
    Ok(Bytes::of_vec(bytes))
}

/// The one spelling of a Tell whose fields keep their rules, its watch list lent: so Tells to many receivers share one
/// list, and none of them copies it.
///
/// Rule: docs/FORMATS.md, "Frames".
pub fn encode_tell(
    alloc: Global,
    settings: &Settings,
    from: &Name,
    to: &Name,
    fields: &TellFields,
    watch: &Watch,
) -> Result<Bytes, NoMemory>
    requires { IsFrame settings.now (tell_frame from.now to.now fields.now watch.now) }
    ensures { IfOk result (λ bytes. bytes ≡ spelling settings.now (tell_frame from.now to.now fields.now watch.now)) }
{
    let len = Kind::Tell.fixed_len(settings) + SLOT_LEN * watch.len();
    if body_start(settings) + len > MOST_IN_PLACE {
        return encode_long_tell(alloc, settings, from, to, fields, watch, len);
    }
    let mut places = [0; MOST_IN_PLACE];
    let end = put_tell_frame(&mut places, settings, from, to, fields, watch, len as u16);
    Ok(Bytes::in_place(alloc, places, end))
}

// The spelling of a Tell whose body has so many bytes.
#[inline(never)]
fn encode_long_tell(
    alloc: Global,
    settings: &Settings,
    from: &Name,
    to: &Name,
    fields: &TellFields,
    watch: &Watch,
    len: usize,
) -> Result<Bytes, NoMemory>
    requires frame { IsFrame settings.now (tell_frame from.now to.now fields.now watch.now) }
    requires long { len ≡ length (body_bytes (tell_frame from.now to.now fields.now watch.now).body) }
    requires most { len < 65536 }
    ensures { IfOk result (λ bytes. bytes ≡ spelling settings.now (tell_frame from.now to.now fields.now watch.now)) }
{
    let mut bytes = vec![in alloc; 0; body_start(settings) + len]?;
    put_tell_frame(
        bytes.as_mut_slice(),
        settings,
        from,
        to,
        fields,
        watch,
        len as u16,
    );
    Ok(Bytes::of_vec(bytes))
}
