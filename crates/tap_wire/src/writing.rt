ghost use Rattle.std.specs.Prelude.{◌∷◌, []};
ghost use Rattle.std.specs.List.{flat_map};
ghost use Rattle.byteorder.specs.Endian.{big_bytes};
ghost use Rattle.tap_wire.specs.declared.frame.Body.{Body};
ghost use Rattle.tap_wire.specs.Spelling.{flag, slot_bytes, link_bytes, optional_bytes, body_bytes};
ghost use Rattle.tap_wire.specs.Writing.{HasRoom, Puts};

use crate::frame::Body;
use byteorder::{BigEndian, ByteOrder};
use tap_name::{List, Name, Offered, Slot, USUAL_DIGITS};
use tap_watch::Watch;

pub(crate) fn put_byte(out: &mut [u8], at: usize, byte: u8) -> usize
    requires { HasRoom out.old at (byte ∷ []) }
    ensures { Puts out.old at (byte ∷ []) out.new result }
{
    out[at] = byte;
    at + 1
}

pub(crate) fn put_bytes(out: &mut [u8], at: usize, bytes: &[u8]) -> usize
    requires { HasRoom out.old at bytes.now }
    ensures { Puts out.old at bytes.now out.new result }
{
    let next = at + bytes.len();
    out[at..next].copy_from_slice(bytes);
    next
}

pub(crate) fn put_u16(out: &mut [u8], at: usize, number: u16) -> usize
    requires { HasRoom out.old at (big_bytes 2 number) }
    ensures { Puts out.old at (big_bytes 2 number) out.new result }
{
    let mut bytes = [0u8; 2];
    BigEndian::write_u16(&mut bytes, number);
    put_bytes(out, at, &bytes)
}

fn put_u32(out: &mut [u8], at: usize, number: u32) -> usize
    requires { HasRoom out.old at (big_bytes 4 number) }
    ensures { Puts out.old at (big_bytes 4 number) out.new result }
{
    let mut bytes = [0u8; 4];
    BigEndian::write_u32(&mut bytes, number);
    put_bytes(out, at, &bytes)
}

fn put_flag(out: &mut [u8], at: usize, on: bool) -> usize
    requires { HasRoom out.old at (flag on ∷ []) }
    ensures { Puts out.old at (flag on ∷ []) out.new result }
{
    put_byte(out, at, if on { 1 } else { 0 })
}

// A name. If it has as many digits as usual, all are put at once.
#[inline(always)]
pub(crate) fn put_name(out: &mut [u8], at: usize, name: &Name) -> usize
    requires { HasRoom out.old at name.now }
    ensures { Puts out.old at name.now out.new result }
{
    if name.len() == USUAL_DIGITS {
        let next = at + USUAL_DIGITS;
        name.put_usual_digits(&mut out[at..next]);
        return next;
    }
    put_bytes(out, at, name.digits().as_slice())
}

// A flag, and the name if there is one.
fn put_optional(out: &mut [u8], at: usize, name: &Option<Name>) -> usize
    requires { HasRoom out.old at (optional_bytes name.now) }
    ensures { Puts out.old at (optional_bytes name.now) out.new result }
{
    match name {
        None => put_byte(out, at, 0),
        Some(name) => {
            let at = put_byte(out, at, 1);
            put_name(out, at, name)
        }
    }
}

#[tactic(auto, using(crate::proofs::Appending::sizes))]
fn put_slot(out: &mut [u8], at: usize, slot: Slot) -> usize
    requires { HasRoom out.old at (slot_bytes slot) }
    ensures { Puts out.old at (slot_bytes slot) out.new result }
{
    let at = put_byte(out, at, slot.level);
    put_byte(out, at, slot.digit)
}

fn put_watch(out: &mut [u8], at: usize, watch: &Watch) -> usize
    requires { HasRoom out.old at (flat_map slot_bytes watch.now) }
    ensures { Puts out.old at (flat_map slot_bytes watch.now) out.new result }
{
    let mut next = at;
    for slot in watch.as_slice() {
        next = put_slot(out, next, *slot);
    }
    next
}

#[tactic(auto, using(crate::proofs::Appending::sizes))]
fn put_offered(out: &mut [u8], at: usize, link: &Offered) -> usize
    requires { HasRoom out.old at (link_bytes link.now) }
    ensures { Puts out.old at (link_bytes link.now) out.new result }
{
    let at = put_name(out, at, &link.name);
    put_flag(out, at, link.settled)
}

fn put_links(out: &mut [u8], at: usize, links: &List<Offered>) -> usize
    requires { HasRoom out.old at (flat_map link_bytes links.now) }
    ensures { Puts out.old at (flat_map link_bytes links.now) out.new result }
{
    let mut next = at;
    for link in links.as_slice() {
        next = put_offered(out, next, link);
    }
    next
}

#[tactic(auto, using(crate::proofs::Appending::sizes))]
pub(crate) fn put_tell(
    out: &mut [u8],
    at: usize,
    joiner: &Name,
    prefix: u8,
    level: u8,
    session: u32,
    depth: u16,
    watch: &Watch,
) -> usize
    requires { HasRoom out.old at (body_bytes (Body.Tell joiner.now prefix level session depth watch.now)) }
    ensures { Puts out.old at (body_bytes (Body.Tell joiner.now prefix level session depth watch.now)) out.new result }
{
    let at = put_name(out, at, joiner);
    let at = put_byte(out, at, prefix);
    let at = put_byte(out, at, level);
    let at = put_u32(out, at, session);
    let at = put_u16(out, at, depth);
    put_watch(out, at, watch)
}

#[tactic(auto, using(crate::proofs::Appending::sizes))]
fn put_hello(out: &mut [u8], at: usize, session: u32, core: bool, links: &List<Offered>) -> usize
    requires { HasRoom out.old at (body_bytes (Body.Hello session core links.now)) }
    ensures { Puts out.old at (body_bytes (Body.Hello session core links.now)) out.new result }
{
    let at = put_u32(out, at, session);
    let at = put_flag(out, at, core);
    put_links(out, at, links)
}

#[tactic(auto, using(crate::proofs::Appending::sizes))]
fn put_link(out: &mut [u8], at: usize, version: u32, on: bool) -> usize
    requires { HasRoom out.old at (body_bytes (Body.Link version on)) }
    ensures { Puts out.old at (body_bytes (Body.Link version on)) out.new result }
{
    let at = put_u32(out, at, version);
    put_flag(out, at, on)
}

#[tactic(auto, using(crate::proofs::Appending::sizes))]
fn put_lay(
    out: &mut [u8],
    at: usize,
    object: &Name,
    server: &Name,
    level: u8,
    version: u32,
    on: bool,
) -> usize
    requires { HasRoom out.old at (body_bytes (Body.Lay object.now server.now level version on)) }
    ensures { Puts out.old at (body_bytes (Body.Lay object.now server.now level version on)) out.new result }
{
    let at = put_name(out, at, object);
    let at = put_name(out, at, server);
    let at = put_byte(out, at, level);
    let at = put_u32(out, at, version);
    put_flag(out, at, on)
}

#[tactic(auto, using(crate::proofs::Appending::sizes))]
fn put_find(out: &mut [u8], at: usize, ticket: u32, object: &Name, asker: &Name, level: u8) -> usize
    requires { HasRoom out.old at (body_bytes (Body.Find ticket object.now asker.now level)) }
    ensures { Puts out.old at (body_bytes (Body.Find ticket object.now asker.now level)) out.new result }
{
    let at = put_u32(out, at, ticket);
    let at = put_name(out, at, object);
    let at = put_name(out, at, asker);
    put_byte(out, at, level)
}

#[tactic(auto, using(crate::proofs::Appending::sizes))]
fn put_answer(out: &mut [u8], at: usize, ticket: u32, server: &Option<Name>) -> usize
    requires { HasRoom out.old at (body_bytes (Body.Answer ticket server.now)) }
    ensures { Puts out.old at (body_bytes (Body.Answer ticket server.now)) out.new result }
{
    let at = put_u32(out, at, ticket);
    put_optional(out, at, server)
}

#[tactic(auto, using(crate::proofs::Appending::sizes))]
fn put_cast(
    out: &mut [u8],
    at: usize,
    cast: u32,
    level: u8,
    session: u32,
    depth: u16,
    word: &[u8],
) -> usize
    requires { HasRoom out.old at (body_bytes (Body.Cast cast level session depth word.now)) }
    ensures { Puts out.old at (body_bytes (Body.Cast cast level session depth word.now)) out.new result }
{
    let at = put_u32(out, at, cast);
    let at = put_byte(out, at, level);
    let at = put_u32(out, at, session);
    let at = put_u16(out, at, depth);
    put_bytes(out, at, word)
}

// The bytes of a body.
pub(crate) fn put_body(out: &mut [u8], at: usize, body: &Body) -> usize
    requires { HasRoom out.old at (body_bytes body.now) }
    ensures { Puts out.old at (body_bytes body.now) out.new result }
{
    match body {
        Body::Seek { joiner } => put_name(out, at, joiner),
        Body::Tell {
            joiner,
            prefix,
            level,
            session,
            depth,
            watch,
        } => put_tell(out, at, joiner, *prefix, *level, *session, *depth, watch),
        Body::Hello {
            session,
            core,
            links,
        } => put_hello(out, at, *session, *core, links),
        Body::Heard { session } => put_u32(out, at, *session),
        Body::Ack { session } => put_u32(out, at, *session),
        Body::Done => at,
        Body::Release => at,
        Body::Link { version, on } => put_link(out, at, *version, *on),
        Body::Lay {
            object,
            server,
            level,
            version,
            on,
        } => put_lay(out, at, object, server, *level, *version, *on),
        Body::Find {
            ticket,
            object,
            asker,
            level,
        } => put_find(out, at, *ticket, object, asker, *level),
        Body::Answer { ticket, server } => put_answer(out, at, *ticket, server),
        Body::Leave { replacement } => put_optional(out, at, replacement),
        Body::Left => at,
        Body::Gone => at,
        Body::Forget => at,
        Body::Cast {
            cast,
            level,
            session,
            depth,
            word,
        } => put_cast(out, at, *cast, *level, *session, *depth, word.as_slice()),
        Body::CastAck { session } => put_u32(out, at, *session),
    }
}
