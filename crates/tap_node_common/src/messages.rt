ghost use Rattle.std.specs.Prelude.{◌≡◌, ℕ, List, [], ◌∷◌, ◌++◌, map, OnOk};
ghost use Rattle.tap_rule.specs.Reaction.{message, to_each};
ghost use Rattle.tap_rule.specs.Sending.{lay_frame, message_frame};
ghost use Rattle.tap_node_common.specs.Bodies.{IsCastBody};
ghost use Rattle.tap_node_common.specs.Spellings.{HaveSpellings, spelled};
ghost use Rattle.tap_node_common.specs.Targets.{cast_to, tell_to};

use crate::cast_fields::CastFields;
use crate::frame_list::FrameList;
use tap_cast::CastTarget;
use tap_multicast::Target;
use tap_name::{List, Name, Settings};
use tap_pointer::Lay;
use tap_watch::Watch;
use tap_wire::{Body, Frame, NoMemory, TellFields};

impl FrameList {
    /// Sends one frame.
    pub fn send(
        &mut self,
        settings: &Settings,
        from: &Name,
        to: &Name,
        body: Body,
    ) -> Result<(), NoMemory>
        requires { HaveSpellings settings.now (map (message_frame from.now) (message to.now body ∷ [])) }
        ensures { OnOk result (self.new
            ≡ self.old ++ spelled settings.now (map (message_frame from.now) (message to.now body ∷ []))) }
    {
        let frame = Frame {
            from: *from,
            to: *to,
            body,
        };
        self.push(settings, &frame)
    }

    /// Sends each of these names the same.
    pub fn send_each(
        &mut self,
        settings: &Settings,
        from: &Name,
        body: Body,
        names: &List<Name>,
    ) -> Result<(), NoMemory>
        requires { HaveSpellings settings.now (map (message_frame from.now) (to_each body names.now)) }
        ensures { OnOk result (self.new
            ≡ self.old ++ spelled settings.now (map (message_frame from.now) (to_each body names.now))) }
    {
        let mut frame = Frame {
            from: *from,
            to: *from,
            body,
        };
        for name in names.as_slice() {
            frame.to = *name;
            self.push(settings, &frame)?;
        }
        Ok(())
    }

    /// Sends the Tells of a cover: each target is told at its own level, whatever level the fields have. No Tell copies
    /// the watch list.
    pub fn send_tells(
        &mut self,
        settings: &Settings,
        from: &Name,
        fields: &TellFields,
        watch: &Watch,
        targets: &List<Target>,
    ) -> Result<(), NoMemory>
        requires { HaveSpellings settings.now (map (message_frame from.now) (map (tell_to fields.now watch.now) targets.now)) }
        ensures { OnOk result (self.new ≡ self.old
            ++ spelled settings.now (map (message_frame from.now) (map (tell_to fields.now watch.now) targets.now))) }
    {
        for target in targets.as_slice() {
            let told = at_level(fields, target.level);
            self.push_tell(settings, from, &target.to, &told, watch)?;
        }
        Ok(())
    }

    /// Sends the Casts of a copy of a cast: each target is sent it at its own level. No Cast copies the word.
    pub fn send_casts(
        &mut self,
        settings: &Settings,
        from: &Name,
        fields: CastFields,
        targets: &List<CastTarget>,
    ) -> Result<(), NoMemory>
        requires { HaveSpellings settings.now (map (message_frame from.now) (map (cast_to fields) targets.now)) }
        ensures { OnOk result (self.new
            ≡ self.old ++ spelled settings.now (map (message_frame from.now) (map (cast_to fields) targets.now))) }
    {
        let mut frame = Frame {
            from: *from,
            to: *from,
            body: Body::Cast {
                cast: fields.cast,
                level: 0,
                session: fields.session,
                depth: fields.depth,
                word: fields.word,
            },
        };
        for target in targets.as_slice() {
            frame.to = target.to;
            set_level(&mut frame.body, target.level);
            self.push(settings, &frame)?;
        }
        Ok(())
    }

    /// Sends these Lays.
    pub fn send_lays(
        &mut self,
        settings: &Settings,
        from: &Name,
        lays: &List<Lay>,
    ) -> Result<(), NoMemory>
        requires { HaveSpellings settings.now (map (lay_frame from.now) lays.now) }
        ensures { OnOk result (self.new ≡ self.old ++ spelled settings.now (map (lay_frame from.now) lays.now)) }
    {
        for lay in lays.as_slice() {
            self.push(settings, &lay_frame(from, lay))?;
        }
        Ok(())
    }
}

// The same but for the level.
fn at_level(fields: &TellFields, level: u8) -> TellFields
    ensures { result ≡ record fields.now { level = level } }
{
    TellFields { level, ..*fields }
}

// Gives a Cast another level.
fn set_level(body: &mut Body, level: u8)
    requires { IsCastBody body.old }
    ensures { (cast other session depth : ℕ) (word : List ℕ) → body.old ≡ Body.Cast cast other session depth word
        → body.new ≡ Body.Cast cast level session depth word }
{
    match body {
        Body::Cast { level: place, .. } => *place = level,
        _ => unreachable!(),
    }
}

// The frame of a Lay.
fn lay_frame(from: &Name, lay: &Lay) -> Frame
    ensures { result ≡ lay_frame from.now lay.now }
{
    Frame {
        from: *from,
        to: lay.to,
        body: Body::Lay {
            object: lay.object,
            server: lay.server,
            level: lay.level,
            version: lay.version,
            on: lay.on,
        },
    }
}
