ghost use Rattle.std.specs.Prelude.{◌≡◌, ◌≢◌, ◌==◌, ◌+◌, ◌-◌, ◌≤◌, ◌<◌, ◌↔◌, ◌&&◌, not, length, take, drop, slice_index, All, IsTrue, IsOk, IsOkAnd, IfOk, OnOk, OnErr, IfErr, IfSome, Ok, Err};
ghost use Rattle.std.specs.Bool.{OnTrue};
ghost use Rattle.tap_name.specs.Name.{IsName};
ghost use Rattle.tap_name.specs.Settings.{AreWithinLimits};
ghost use Rattle.tap_wire.specs.declared.fault.HeadFault.{HeadFault};
ghost use Rattle.tap_wire.specs.declared.frame.Frame.{Frame};
ghost use Rattle.tap_wire.specs.declared.fault.HeadFault.TheVariants.{BadDigit};
ghost use Rattle.tap_wire.specs.Fields.{number_at, digits_at};
ghost use Rattle.tap_wire.specs.Fault.{fault_of_head};
ghost use Rattle.tap_wire.specs.Kind.{kind_of};
ghost use Rattle.tap_wire.specs.Layout.{is_long, head_len, body_start, is_length};
ghost use Rattle.tap_wire.specs.Reading.{names_at, sized, opening_of, head_of_frame, head_of, frame_of, WantsMemory};
ghost use Rattle.tap_wire.specs.Names.{sender_in, receiver_in, HeadGives};
ghost use Rattle.tap_wire.specs.Spelling.{IsFrame, IsTyped, spelling};

use crate::fault::{BodyFault, HeadFault, WireFault};
use crate::fields::{are_names, bad_digit_unless, digits_at, name_of, u16_at};
use crate::frame::{Frame, Head};
use crate::kind::Kind;
use crate::layout::{body_start, head_len, is_long, version_of};
use crate::memory::NoMemory;
use crate::opening::Opening;
use crate::reading::body_at;
use std::alloc::Global;
use tap_name::{Name, Settings};

// The refusal of one of the two names, if a digit isn't below the base, which needs no look if all are known to be.
#[inline(always)]
fn check_name(
    settings: &Settings,
    bytes: &[u8],
    place: usize,
    are_digits: bool,
) -> Result<(), HeadFault>
    requires there { place + settings.now.digits ≤ length bytes.now }
    requires digits { OnTrue are_digits (All (λ d. d < settings.now.base) (take settings.now.digits (drop place bytes.now))) }
    ensures ok { OnOk result (digits_at BadDigit settings.now place bytes.now ≡ Ok (take settings.now.digits (drop place bytes.now))) }
    ensures name { OnOk result (IsName settings.now (take settings.now.digits (drop place bytes.now))) }
    ensures err { IfErr result (λ fault. digits_at BadDigit settings.now place bytes.now ≡ Err fault) }
{
    let digits = digits_at(settings, bytes, place);
    match bad_digit_unless(are_digits, settings, digits) {
        None => Ok(()),
        Some(at) => Err(HeadFault::BadDigit(place + at)),
    }
}

// The kind, if the two names after the head are names.
fn names_at(settings: &Settings, kind: Kind, bytes: &[u8]) -> Result<Kind, HeadFault>
    requires { body_start settings.now ≤ length bytes.now }
    ensures { HeadGives settings.now bytes.now result (names_at settings.now kind bytes.now) }
{
    let start = head_len(settings);
    let are_digits = are_names(settings, bytes, start);
    check_name(settings, bytes, start, are_digits)?;
    check_name(
        settings,
        bytes,
        start + settings.digits() as usize,
        are_digits,
    )?;
    Ok(kind)
}

// What the head says of the number of bytes, and the two names.
fn sized(settings: &Settings, kind: Kind, bytes: &[u8]) -> Result<Kind, HeadFault>
    requires { head_len settings.now ≤ length bytes.now }
    ensures value { HeadGives settings.now bytes.now result (sized settings.now kind (number_at 2 2 bytes.now) bytes.now) }
    ensures long { IfOk result (λ found. IsTrue (is_length settings.now found (length bytes.now - body_start settings.now))) }
    ensures within { IfOk result (λ _. body_start settings.now ≤ length bytes.now) }
{
    let len = u16_at(bytes, 2);
    if !kind.has_length(settings, len as usize) {
        return Err(HeadFault::BadLength(len));
    }
    if has_other_count(settings, bytes) {
        return Err(HeadFault::BadCount(bytes[4]));
    }
    let whole = body_start(settings) + len as usize;
    if bytes.len() < whole {
        return Err(HeadFault::Short(whole - bytes.len()));
    }
    if bytes.len() > whole {
        return Err(HeadFault::Trailing(bytes.len() - whole));
    }
    names_at(settings, kind, bytes)
}

// Whether the head of a long frame states another number of digits.
fn has_other_count(settings: &Settings, bytes: &[u8]) -> bool
    requires { head_len settings.now ≤ length bytes.now }
    ensures { result ≡ (is_long settings.now && not (slice_index bytes.now 4 == settings.now.digits)) }
{
    is_long(settings) && bytes[4] != settings.digits()
}

// The kind, if the head is right and the two names are names.
#[inline(never)]
fn right_kind(settings: &Settings, bytes: &[u8]) -> Option<Kind>
    ensures value { IfSome result (λ kind. HeadGives settings.now bytes.now (Ok kind) (opening_of settings.now bytes.now)) }
    ensures valid { AreWithinLimits settings.now }
    ensures long { IfSome result (λ kind. IsTrue (is_length settings.now kind (length bytes.now - body_start settings.now))) }
    ensures within { IfSome result (λ _. body_start settings.now ≤ length bytes.now) }
{
    let head = head_len(settings);
    if bytes.len() < head {
        return None;
    }
    if bytes[0] != version_of(settings) {
        return None;
    }
    let kind = Kind::of_code(bytes[1])?;
    let len = u16_at(bytes, 2) as usize;
    if !kind.has_length(settings, len) {
        return None;
    }
    if has_other_count(settings, bytes) {
        return None;
    }
    if bytes.len() != body_start(settings) + len {
        return None;
    }
    if !are_names(settings, bytes, head) {
        return None;
    }
    Some(kind)
}

// The kind, or the first refusal of a head: the tests one after the other.
#[inline(never)]
fn kind_or_refusal(settings: &Settings, bytes: &[u8]) -> Result<Kind, HeadFault>
    ensures value { HeadGives settings.now bytes.now result (opening_of settings.now bytes.now) }
    ensures valid { AreWithinLimits settings.now }
    ensures long { IfOk result (λ found. IsTrue (is_length settings.now found (length bytes.now - body_start settings.now))) }
    ensures within { IfOk result (λ _. body_start settings.now ≤ length bytes.now) }
{
    let head = head_len(settings);
    if bytes.len() < head {
        return Err(HeadFault::Short(head - bytes.len()));
    }
    if bytes[0] != version_of(settings) {
        return Err(HeadFault::BadVersion(bytes[0]));
    }
    match Kind::of_code(bytes[1]) {
        None => Err(HeadFault::BadKind(bytes[1])),
        Some(kind) => sized(settings, kind, bytes),
    }
}

// The kind, or the first refusal of a head, which is looked for if the head isn't right. The two names are looked at in place, and
// made by who wants them.
#[inline(always)]
fn kind_at(settings: &Settings, bytes: &[u8]) -> Result<Kind, HeadFault>
    ensures value { HeadGives settings.now bytes.now result (opening_of settings.now bytes.now) }
    ensures valid { AreWithinLimits settings.now }
    ensures long { IfOk result (λ found. IsTrue (is_length settings.now found (length bytes.now - body_start settings.now))) }
    ensures within { IfOk result (λ _. body_start settings.now ≤ length bytes.now) }
{
    match right_kind(settings, bytes) {
        Some(kind) => Ok(kind),
        None => kind_or_refusal(settings, bytes),
    }
}

// The sender in bytes whose head is read.
fn sender_in(settings: &Settings, bytes: &[u8]) -> Name
    requires within { body_start settings.now ≤ length bytes.now }
    requires name { IsName settings.now (sender_in settings.now bytes.now) }
    ensures { result ≡ sender_in settings.now bytes.now }
{
    name_of(settings, digits_at(settings, bytes, head_len(settings)))
}

// The receiver in bytes whose head is read.
fn receiver_in(settings: &Settings, bytes: &[u8]) -> Name
    requires within { body_start settings.now ≤ length bytes.now }
    requires name { IsName settings.now (receiver_in settings.now bytes.now) }
    ensures { result ≡ receiver_in settings.now bytes.now }
{
    let place = head_len(settings) + settings.digits() as usize;
    name_of(settings, digits_at(settings, bytes, place))
}

// The kind and the two names, or the first refusal of a head.
#[inline(always)]
fn opening_of(settings: &Settings, bytes: &[u8]) -> Result<Opening, HeadFault>
    ensures value { result ≡ opening_of settings.now bytes.now }
    ensures valid { AreWithinLimits settings.now }
{
    let kind = kind_at(settings, bytes)?;
    Ok(Opening {
        kind,
        sender: sender_in(settings, bytes),
        receiver: receiver_in(settings, bytes),
    })
}

/// The kind, the sender and the receiver of a frame: its refusals are those of `decode` but for the fields of the body,
/// which it doesn't read. It takes no memory.
///
/// Rule: docs/FORMATS.md, "Frames".
#[inline(always)]
pub fn decode_head(settings: &Settings, bytes: &[u8]) -> Result<Head, HeadFault>
    ensures value { result ≡ head_of settings.now bytes.now }
    // Of bytes that are a frame it is that frame's head.
    ensures whole { (frame : Frame) → frame_of settings.now bytes.now ≡ Ok frame → result ≡ Ok (head_of_frame frame) }
    // Each refusal comes exactly if it is the refusal of the whole frame.
    ensures agrees { (fault : HeadFault) → (result ≡ Err fault) ↔ (frame_of settings.now bytes.now ≡ Err (fault_of_head fault)) }
{
    let opening = opening_of(settings, bytes)?;
    Ok(Head {
        kind: opening.kind.code(),
        from: opening.sender,
        to: opening.receiver,
    })
}

/// The frame that the bytes spell, all of them, or the first refusal. Want of memory may come in place of a frame with slots or
/// links alone, which are a Tell and a Hello, and never in place of a refusal. The letters of a Cast stand in the frame itself.
///
/// Rule: docs/FORMATS.md, "Frames".
pub fn decode(alloc: Global, settings: &Settings, bytes: &[u8]) -> Result<Frame, WireFault>
    // Which frame or refusal it is.
    ensures exact { result ≢ Err WireFault.NoMemory → result ≡ frame_of settings.now bytes.now }
    // Want of memory comes in place of a frame with a list alone.
    ensures memory { result ≡ Err WireFault.NoMemory → WantsMemory (frame_of settings.now bytes.now) }
    // It never comes in place of a Cast.
    ensures letters { result ≡ Err WireFault.NoMemory → IsOkAnd (frame_of settings.now bytes.now) (λ frame. kind_of frame.body ≢ Kind.Cast) }
    // The bytes are the spelling of what is read, which keeps the rules.
    ensures found { IfOk result (λ frame. IsFrame settings.now frame × (bytes.now ≡ spelling settings.now frame)) }
    // A frame that the bytes are the spelling of is read.
    ensures only { (frame : Frame) → IsFrame settings.now frame → IsTyped frame.body → bytes.now ≡ spelling settings.now frame
        → result ≢ Err WireFault.NoMemory → result ≡ Ok frame }
{
    let start = body_start(settings);
    let kind = kind_at(settings, bytes)?;
    let body = body_at(alloc, settings, kind, bytes, start)?;
    Ok(Frame {
        from: sender_in(settings, bytes),
        to: receiver_in(settings, bytes),
        body,
    })
}

// The kind of bytes that are a frame.
#[inline(always)]
fn known_kind(settings: &Settings, bytes: &[u8]) -> Kind
    requires { IsOk (frame_of settings.now bytes.now) }
    ensures value { HeadGives settings.now bytes.now (Ok result) (opening_of settings.now bytes.now) }
    ensures long { IsTrue (is_length settings.now result (length bytes.now - body_start settings.now)) }
    ensures within { body_start settings.now ≤ length bytes.now }
{
    match Kind::of_code(bytes[1]) {
        Some(kind) => kind,
        None => unreachable!(),
    }
}

/// Puts the frame that the bytes spell, as `decode` reads it, in the place of another one. The bytes are a frame: what their head says isn't
/// tested. Want of memory may come in place of a frame with slots or links alone, and then the other one stays.
///
/// Rule: docs/FORMATS.md, "Frames".
pub fn decode_into(
    alloc: Global,
    settings: &Settings,
    bytes: &[u8],
    frame: &mut Frame,
) -> Result<(), NoMemory>
    requires { IsOk (frame_of settings.now bytes.now) }
    ensures exact { OnOk result (frame_of settings.now bytes.now ≡ Ok frame.new) }
    // The bytes are the spelling of what is read, which keeps the rules.
    ensures found { OnOk result (IsFrame settings.now frame.new × (bytes.now ≡ spelling settings.now frame.new)) }
    ensures memory { OnErr result (WantsMemory (frame_of settings.now bytes.now)) }
    ensures same { OnErr result (frame.new ≡ frame.old) }
{
    let start = body_start(settings);
    let kind = known_kind(settings, bytes);
    match body_at(alloc, settings, kind, bytes, start) {
        Ok(body) => {
            frame.from = sender_in(settings, bytes);
            frame.to = receiver_in(settings, bytes);
            frame.body = body;
            Ok(())
        }
        Err(BodyFault::NoMemory) => Err(NoMemory),
        Err(BodyFault::Field(_)) => unreachable!(),
    }
}
