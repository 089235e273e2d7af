ghost use Rattle.std.specs.Prelude.{◌≡◌, ◌≢◌, ◌+◌, ◌*◌, ◌-◌, ◌≤◌, ◌<◌, length, IsTrue, Err};
ghost use Rattle.tap_wire.specs.Kind.{has_list};
ghost use Rattle.tap_wire.specs.Layout.{is_length};
ghost use Rattle.tap_wire.specs.Reading.{BodyGives, prefix_at, level_above_at, seek_at, tell_at, hello_at, link_body_at, lay_at, find_at, answer_at, leave_at, cast_at, body_at};

use crate::fault::{BodyFault, Broken};
use crate::fields::{
    are_names, flag_at, level_at, name_at, name_unless, optional_at, session_at, u16_at, u32_at,
};
use crate::frame::Body;
use crate::kind::Kind;
use crate::layout::MOST_LETTERS;
use crate::lists::{hello_links_at, watch_at, word_at};
use std::alloc::Global;
use tap_name::Settings;

#[inline(never)]
fn seek_at(settings: &Settings, bytes: &[u8], start: usize) -> Result<Body, BodyFault>
    requires { start + settings.now.digits ≤ length bytes.now }
    ensures value { BodyGives result (seek_at settings.now start bytes.now) }
    ensures memory { result ≢ Err BodyFault.NoMemory }
{
    let joiner = name_at(settings, bytes, start)?;
    Ok(Body::Seek { joiner })
}

// The prefix of a Tell, below the number of digits.
fn prefix_at(settings: &Settings, bytes: &[u8], place: usize) -> Result<u8, Broken>
    requires { place < length bytes.now }
    ensures { result ≡ prefix_at settings.now place bytes.now }
{
    let prefix = bytes[place];
    if prefix >= settings.digits() {
        return Err(Broken { at: place });
    }
    Ok(prefix)
}

// The level of a Tell, above its prefix and at most the number of digits.
fn level_above_at(settings: &Settings, bytes: &[u8], place: usize, prefix: u8) -> Result<u8, Broken>
    requires { place < length bytes.now }
    ensures { result ≡ level_above_at settings.now prefix place bytes.now }
{
    let level = bytes[place];
    if level <= prefix {
        return Err(Broken { at: place });
    }
    if level > settings.digits() {
        return Err(Broken { at: place });
    }
    Ok(level)
}

#[tactic(auto, unfolding(crate::specs::Reading::tell_at))]
#[inline(never)]
fn tell_at(
    alloc: Global,
    settings: &Settings,
    bytes: &[u8],
    start: usize,
) -> Result<Body, BodyFault>
    requires { start + settings.now.digits + 8 ≤ length bytes.now }
    ensures { BodyGives result (tell_at settings.now start bytes.now) }
{
    let at = start + settings.digits() as usize;
    let joiner = name_at(settings, bytes, start)?;
    let prefix = prefix_at(settings, bytes, at)?;
    let level = level_above_at(settings, bytes, at + 1, prefix)?;
    let session = session_at(bytes, at + 2)?;
    let depth = u16_at(bytes, at + 6);
    let watch = watch_at(alloc, settings, bytes, at + 8, prefix)?;
    Ok(Body::Tell {
        joiner,
        prefix,
        level,
        session,
        depth,
        watch,
    })
}

#[tactic(auto, unfolding(crate::specs::Reading::hello_at))]
#[inline(never)]
fn hello_at(
    alloc: Global,
    settings: &Settings,
    bytes: &[u8],
    start: usize,
) -> Result<Body, BodyFault>
    requires { start + 5 ≤ length bytes.now }
    ensures { BodyGives result (hello_at settings.now start bytes.now) }
{
    let session = session_at(bytes, start)?;
    let core = flag_at(bytes, start + 4)?;
    let links = hello_links_at(alloc, settings, bytes, start + 5)?;
    Ok(Body::Hello {
        session,
        core,
        links,
    })
}

fn link_body_at(bytes: &[u8], start: usize) -> Result<Body, Broken>
    requires { start + 5 ≤ length bytes.now }
    ensures { result ≡ link_body_at start bytes.now }
{
    let version = u32_at(bytes, start);
    let on = flag_at(bytes, start + 4)?;
    Ok(Body::Link { version, on })
}

#[tactic(auto, unfolding(crate::specs::Reading::lay_at))]
#[inline(never)]
fn lay_at(settings: &Settings, bytes: &[u8], start: usize) -> Result<Body, BodyFault>
    requires { start + 2 * settings.now.digits + 6 ≤ length bytes.now }
    ensures value { BodyGives result (lay_at settings.now start bytes.now) }
    ensures memory { result ≢ Err BodyFault.NoMemory }
{
    let digits = settings.digits() as usize;
    let at = start + 2 * digits;
    let are_digits = are_names(settings, bytes, start);
    let object = name_unless(are_digits, settings, bytes, start)?;
    let server = name_unless(are_digits, settings, bytes, start + digits)?;
    let level = level_at(settings, bytes, at)?;
    let version = u32_at(bytes, at + 1);
    let on = flag_at(bytes, at + 5)?;
    Ok(Body::Lay {
        object,
        server,
        level,
        version,
        on,
    })
}

#[tactic(auto, unfolding(crate::specs::Reading::find_at))]
#[inline(never)]
fn find_at(settings: &Settings, bytes: &[u8], start: usize) -> Result<Body, BodyFault>
    requires { start + 2 * settings.now.digits + 5 ≤ length bytes.now }
    ensures value { BodyGives result (find_at settings.now start bytes.now) }
    ensures memory { result ≢ Err BodyFault.NoMemory }
{
    let digits = settings.digits() as usize;
    let ticket = u32_at(bytes, start);
    let are_digits = are_names(settings, bytes, start + 4);
    let object = name_unless(are_digits, settings, bytes, start + 4)?;
    let asker = name_unless(are_digits, settings, bytes, start + 4 + digits)?;
    let level = level_at(settings, bytes, start + 4 + 2 * digits)?;
    Ok(Body::Find {
        ticket,
        object,
        asker,
        level,
    })
}

#[inline(never)]
fn answer_at(settings: &Settings, bytes: &[u8], start: usize) -> Result<Body, BodyFault>
    requires flag { start + 5 ≤ length bytes.now }
    requires name { start + 5 < length bytes.now → start + 5 + settings.now.digits ≤ length bytes.now }
    ensures value { BodyGives result (answer_at settings.now start bytes.now) }
    ensures memory { result ≢ Err BodyFault.NoMemory }
{
    let ticket = u32_at(bytes, start);
    let server = optional_at(settings, bytes, start + 4)?;
    Ok(Body::Answer { ticket, server })
}

#[inline(never)]
fn leave_at(settings: &Settings, bytes: &[u8], start: usize) -> Result<Body, BodyFault>
    requires flag { start + 1 ≤ length bytes.now }
    requires name { start + 1 < length bytes.now → start + 1 + settings.now.digits ≤ length bytes.now }
    ensures value { BodyGives result (leave_at settings.now start bytes.now) }
    ensures memory { result ≢ Err BodyFault.NoMemory }
{
    let replacement = optional_at(settings, bytes, start)?;
    Ok(Body::Leave { replacement })
}

#[tactic(auto, unfolding(crate::specs::Reading::cast_at))]
#[inline(never)]
fn cast_at(
    alloc: Global,
    settings: &Settings,
    bytes: &[u8],
    start: usize,
) -> Result<Body, BodyFault>
    requires { start + 11 ≤ length bytes.now }
    ensures value { BodyGives result (cast_at settings.now start bytes.now) }
    ensures letters { length bytes.now ≤ start + 11 + MOST_LETTERS → result ≢ Err BodyFault.NoMemory }
{
    let cast = u32_at(bytes, start);
    let level = level_at(settings, bytes, start + 4)?;
    let session = session_at(bytes, start + 5)?;
    let depth = u16_at(bytes, start + 9);
    let word = word_at(alloc, bytes, start + 11)?;
    Ok(Body::Cast {
        cast,
        level,
        session,
        depth,
        word,
    })
}

// The body from its start to the end of the bytes, which are as many as the kind may have. Bodies with names or lists are
// read by calls that aren't inlined, so that the short ones don't clear room for them.
pub(crate) fn body_at(
    alloc: Global,
    settings: &Settings,
    kind: Kind,
    bytes: &[u8],
    start: usize,
) -> Result<Body, BodyFault>
    requires within { start ≤ length bytes.now }
    requires long { IsTrue (is_length settings.now kind (length bytes.now - start)) }
    ensures value { BodyGives result (body_at settings.now kind start bytes.now) }
    ensures memory { result ≡ Err BodyFault.NoMemory → IsTrue (has_list kind) }
    ensures letters { result ≡ Err BodyFault.NoMemory → kind ≢ Kind.Cast }
{
    match kind {
        Kind::Seek => seek_at(settings, bytes, start),
        Kind::Tell => tell_at(alloc, settings, bytes, start),
        Kind::Hello => hello_at(alloc, settings, bytes, start),
        Kind::Heard => Ok(Body::Heard {
            session: session_at(bytes, start)?,
        }),
        Kind::Ack => Ok(Body::Ack {
            session: session_at(bytes, start)?,
        }),
        Kind::Done => Ok(Body::Done),
        Kind::Release => Ok(Body::Release),
        Kind::Link => Ok(link_body_at(bytes, start)?),
        Kind::Lay => lay_at(settings, bytes, start),
        Kind::Find => find_at(settings, bytes, start),
        Kind::Answer => answer_at(settings, bytes, start),
        Kind::Leave => leave_at(settings, bytes, start),
        Kind::Left => Ok(Body::Left),
        Kind::Gone => Ok(Body::Gone),
        Kind::Forget => Ok(Body::Forget),
        Kind::Cast => cast_at(alloc, settings, bytes, start),
        Kind::CastAck => Ok(Body::CastAck {
            session: session_at(bytes, start)?,
        }),
    }
}
