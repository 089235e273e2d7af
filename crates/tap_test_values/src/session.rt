use std::process::Abort;
use tap_name::{Name, Settings};
use tap_session::{Answered, Parent, Sessions};

// The name with these digits.
fn name_of(rt: &impl Abort, digits: &[u8]) -> Name {
    let settings = Settings::new(4, 2, 1).expect(rt, "settings");
    Name::from_digits(&settings, digits).expect(rt, "a name")
}

// Who is told when the session of the root of a join closes.
fn root(rt: &impl Abort) -> Parent {
    Parent::Root {
        joiner: name_of(rt, &[1, 2]),
    }
}

// Who is told when a session closes that another node has asked for.
fn asker(rt: &impl Abort) -> Parent {
    Parent::Node {
        name: name_of(rt, &[3, 0]),
        session: 1,
    }
}

// Opens a session that waits for so many answers, and gives its number.
fn open(rt: &impl Abort, sessions: &mut Sessions, parent: Parent, depth: u16, waiting: u32) -> u32 {
    assert!(rt; !sessions.is_full());
    assert!(rt; 1 <= waiting);
    sessions.open(parent, depth, waiting).expect(rt, "memory")
}

// Takes answers, and compares what each came to, and how many sessions are open after it.
fn answer_all(rt: &impl Abort, sessions: &mut Sessions, answers: &[(u32, Answered, usize)]) {
    for (id, expected, open) in answers {
        assert!(rt; sessions.answered(*id) == *expected);
        assert!(rt; sessions.open_count() == *open);
    }
}

// The inner session closes first, and its parent is then the outer one's last answer.
#[test]
fn nested_sessions_close_at_their_last_answers(rt: HostRuntime) {
    let mut sessions = Sessions::new(rt.alloc());
    assert!(rt; sessions.opened() == 0);
    assert!(rt; open(&rt, &mut sessions, root(&rt), 0, 2) == 1);
    assert!(rt; open(&rt, &mut sessions, asker(&rt), 1, 3) == 2);
    assert!(rt; sessions.depth_of(2) == Some(1));
    let answers = &[
        (1, Answered::Open, 2),
        (3, Answered::Unknown, 2),
        (2, Answered::Open, 2),
        (2, Answered::Open, 2),
        (2, Answered::Closed(asker(&rt)), 1),
        (2, Answered::Unknown, 1),
        (1, Answered::Closed(root(&rt)), 0),
        (0, Answered::Unknown, 0),
    ];
    answer_all(&rt, &mut sessions, answers);
    assert!(rt; sessions.depth_of(1) == None);
    assert!(rt; sessions.opened() == 2);
}

#[test]
fn many_sessions_are_open_at_once(rt: HostRuntime) {
    let mut sessions = Sessions::new(rt.alloc());
    for number in 1..1_001 {
        assert!(rt; open(&rt, &mut sessions, root(&rt), 0, 1) == number);
    }
    assert!(rt; sessions.open_count() == 1_000);
    answer_all(
        &rt,
        &mut sessions,
        &[(1_000, Answered::Closed(root(&rt)), 999)],
    );
}
