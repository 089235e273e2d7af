ghost use Rattle.std.specs.Prelude.{◌≡◌, ◌==◌, ◌↔◌, ℕ, ◌+◌, ◌<◌, ◌≤◌, if◌then◌else◌, Some};
ghost use Rattle.std.specs.Prelude.{[], length, IsTrue, IfOk, OnOk, OnErr};
ghost use Rattle.std.specs.Option.{option_map, option_and_then};
ghost use Rattle.tap_session.specs.Session.{most_sessions};
ghost use Rattle.tap_session.specs.Sessions.{AreSessions, answer_to, answered_at};
ghost use Rattle.tap_session.specs.Sessions.{next_session, opened_with, session_of, with_answer};

use crate::memory::NoMemory;
use crate::parent::Parent;
use std::alloc::Global;
use std::collections::BTreeMap;
use std::marker::Model;

/// How many sessions the `Sessions` of one node may open.
///
/// Rule: docs/PROTOCOL.md, "Sessions".
pub const MOST_SESSIONS: u32 = 500_001;

/// What an answer did to the session that it was for.
///
/// Rule: docs/PROTOCOL.md, "Sessions".
#[derive(Clone, Copy, Debug, PartialEq, Eq)]
pub enum Answered {
    /// The session waits for further answers.
    Open,
    /// It was the last awaited answer: the session is gone, and its parent is to be told.
    Closed(Parent),
    /// No such session is open, and nothing changed.
    Unknown,
}

// What an open session keeps.
#[derive(Drop)]
struct Awaited {
    parent: Parent,
    depth: u16,
    waiting: u32,
}

/// The sessions of a node, numbered 1, 2, 3 in the order in which they are opened.
///
/// Contracts see the open sessions, ascending by number, and how many were ever opened.
///
/// The open sessions lie in a tree by their numbers. So a call takes time that grows with the
/// logarithm of how many are open, in whatever order they close, and memory is kept for open
/// sessions alone.
///
/// Rule: docs/PROTOCOL.md, "Sessions".
#[derive(Drop)]
pub struct Sessions {
    awaited: BTreeMap<u32, Awaited>,
    opened: u32,
}

impl Model for Sessions {
    ghost use Rattle.tap_session.specs.Session.{SessionsValue};

    ghost Value = { SessionsValue };

    ghost use Rattle.tap_session.specs.Awaited.{AreAwaiting, sessions_of};

    ghost view = { λ s. record { sessions = sessions_of s.awaited.entries; opened = s.opened } };

    ghost invariant = { λ s. AreAwaiting s.awaited.entries s.opened };
}

impl Sessions {
    /// No sessions. This takes no memory; later calls take it of `alloc`.
    pub fn new(alloc: Global) -> Sessions
        ensures sessions { result.sessions ≡ [] }
        ensures opened { result.opened ≡ 0 }
    {
        Sessions {
            awaited: BTreeMap::new(alloc),
            opened: 0,
        }
    }

    /// Opens a session which waits for so many answers, and gives its number, the next one. `Err`
    /// opens nothing.
    ///
    /// The depth is kept as it is given. It is meant to be the number of sessions that stand above
    /// this one, up to the one whose parent is the root.
    pub fn open(&mut self, parent: Parent, depth: u16, waiting: u32) -> Result<u32, NoMemory>
        requires waits { 1 ≤ waiting }
        requires room { self.old.opened < most_sessions }
        ensures number { IfOk result (λ id. id ≡ self.old.opened + 1) }
        ensures after { OnOk result (self.new ≡ opened_with self.old parent depth waiting) }
        ensures look_up { OnOk result ((other : ℕ) →
            session_of self.new.sessions other ≡
            (if self.old.opened + 1 == other
            then Some (next_session self.old parent depth waiting)
            else session_of self.old.sessions other)) }
        ensures same { OnErr result (self.new ≡ self.old) }
    {
        let id = self.opened + 1;
        let awaited = Awaited {
            parent,
            depth,
            waiting,
        };
        self.awaited.insert(id, awaited)?;
        self.opened = id;
        Ok(id)
    }

    /// Takes an answer to the session of this number. It takes no memory.
    pub fn answered(&mut self, id: u32) -> Answered
        ensures answer { result ≡ answer_to (session_of self.old.sessions id) }
        ensures after { self.new ≡ answered_at self.old id }
        ensures look_up { (other : ℕ) →
            session_of self.new.sessions other ≡
            (if id == other
            then option_and_then with_answer (session_of self.old.sessions id)
            else session_of self.old.sessions other) }
        ensures unknown { result ≡ Answered.Unknown → self.new ≡ self.old }
    {
        let Some(awaited) = self.awaited.get_mut(&id) else {
            return Answered::Unknown;
        };
        if awaited.waiting > 1 {
            awaited.waiting -= 1;
            return Answered::Open;
        }
        let parent = awaited.parent;
        let _ = self.awaited.remove(&id);
        Answered::Closed(parent)
    }

    /// The depth that an open session was opened with, and `None` exactly if no session of this
    /// number is open.
    pub fn depth_of(&self, id: u32) -> Option<u16>
        ensures { result ≡ option_map (λ s. s.depth) (session_of self.now.sessions id) }
    {
        self.awaited.get(&id).map(|awaited| awaited.depth)
    }

    /// How many sessions are open.
    pub fn open_count(&self) -> usize
        ensures count { result ≡ length self.now.sessions }
        ensures valid { AreSessions self.now }
    {
        self.awaited.len()
    }

    /// How many sessions were ever opened, which is the number that was given last, or 0.
    pub fn opened(&self) -> u32
        ensures count { result ≡ self.now.opened }
        ensures most { result ≤ most_sessions }
    {
        self.opened
    }

    /// Whether no further session may be opened.
    ///
    /// Rule: docs/PROTOCOL.md, "Sessions".
    pub fn is_full(&self) -> bool
        ensures { IsTrue result ↔ (most_sessions ≤ self.now.opened) }
    {
        self.opened >= MOST_SESSIONS
    }
}
