//! Rows of replies and refusals with their texts, and the texts of sessions.
use crate::replies::push_reply;
use crate::{Refusal, Replies, Reply, serve_text};
use cyc_num::Ratio;
use cyc_text::{Limit, Text};
use netlist_model::StatementFault;
use std::alloc::{AllocError, Global};
use std::test::Fail;

/// Whether a reply is told by this text.
fn is_told(alloc: Global, reply: &Reply, wanted: &str) -> Result<bool, AllocError> {
    let mut text = Vec::new(alloc);
    push_reply(&mut text, reply)?;
    Ok(text.as_slice() == wanted.as_bytes())
}

/// Whether a refusal is told by this text.
fn is_refused(alloc: Global, refusal: Refusal, wanted: &str) -> Result<bool, AllocError> {
    is_told(alloc, &Reply::Refused(refusal), wanted)
}

fn text(alloc: Global, word: &str) -> Result<Text, AllocError> {
    Text::of(alloc, word.as_bytes())
}

#[test]
fn replies_and_their_texts(rt: HostRuntime) -> Result<(), Fail> {
    for (reply, wanted) in [
        (Reply::Pinned(0), "pinned 0"),
        (Reply::Rebased(3), "rebased 3"),
        (Reply::Published(255), "published 255"),
        (Reply::Edited(1), "edited 1"),
        (Reply::Dropped(0), "dropped 0"),
        (Reply::Draft(u64::MAX), "draft 18446744073709551615"),
        (Reply::Period(Ratio::of(66, 4)), "period 33/2"),
        (Reply::Period(Ratio::of(0, 4)), "period 0/1"),
        (Reply::Arrival(22, 2), "arrival 22/2"),
        (Reply::Arrival(-120, 1), "arrival -120/1"),
        (Reply::Slack(10, 1), "slack 10/1 met"),
        (Reply::Slack(0, 1), "slack 0/1 met"),
        (Reply::Slack(-1, 1), "slack -1/1 missed"),
    ] {
        assert!(rt; is_told(rt.alloc(), &reply, wanted)?, "{wanted}");
    }
    Ok(())
}

#[test]
fn refusals_and_their_texts(rt: HostRuntime) -> Result<(), Fail> {
    for (refusal, wanted) in [
        (Refusal::NotPinned, "refused not pinned"),
        (Refusal::DraftOpen, "refused draft open"),
        (Refusal::NoVersion(2), "refused no version 2"),
        (Refusal::EmptyDraft, "refused empty draft"),
        (Refusal::NoRoot, "refused H2"),
        (Refusal::IdleTick(2), "refused H3 2"),
        (Refusal::TooManyRules(131_074), "refused H4 131074"),
        (Refusal::Stale(1), "refused stale 1"),
        (Refusal::Full, "refused full"),
        (
            Refusal::Edit(1, StatementFault::UnknownInst),
            "refused edit 1 S5",
        ),
        (
            Refusal::Edit(12, StatementFault::DriverTaken(3)),
            "refused edit 12 S8 3",
        ),
        (
            Refusal::Statement(StatementFault::OutOfRange(16)),
            "refused S11 16",
        ),
        (
            Refusal::Statement(StatementFault::TooMany(Limit::Roots)),
            "refused S18 roots",
        ),
        (Refusal::NoEvent, "refused no event"),
        (Refusal::NoFork, "refused no fork"),
    ] {
        assert!(rt; is_refused(rt.alloc(), refusal, wanted)?, "{wanted}");
    }
    Ok(())
}

#[test]
fn names_and_their_texts(rt: HostRuntime) -> Result<(), Fail> {
    let alloc = rt.alloc();
    let undriven = Refusal::Undriven(text(alloc, "A")?);
    assert!(rt; is_refused(alloc, undriven, "refused H1 A")?);
    let unreached = Refusal::Unreached(text(alloc, "A-")?);
    assert!(rt; is_refused(alloc, unreached, "refused V1 A-")?);
    let no_return = Refusal::NoReturn(text(alloc, "B+")?);
    assert!(rt; is_refused(alloc, no_return, "refused V2 B+")?);
    let dead = Refusal::Dead(6, text(alloc, "A+")?);
    assert!(rt; is_refused(alloc, dead, "refused V3 6 A+")?);
    Ok(())
}

/// A short report.
fn report(alloc: Global) -> Result<Reply, AllocError> {
    Ok(Reply::Report(text(alloc, "period 66/1\nend\n")?))
}

#[test]
fn cycles_and_reports(rt: HostRuntime) -> Result<(), Fail> {
    let alloc = rt.alloc();
    let cycle = Reply::Cycle(6, 66, 1, text(alloc, "A+")?);
    assert!(rt; is_told(alloc, &cycle, "cycle 6 66 1 A+")?);
    let report = report(alloc)?;
    assert!(rt; is_told(alloc, &report, "report\nperiod 66/1\nend")?);
    Ok(())
}

/// The replies to a session with a report in the middle.
fn reporting(alloc: Global) -> Result<Replies, AllocError> {
    let mut replies = Vec::new(alloc);
    replies.push(Reply::Pinned(0))?;
    replies.push(report(alloc)?)?;
    replies.push(Reply::Edited(1))?;
    Ok(Replies::of(replies))
}

/// The replies to a session that is refused.
fn refused(alloc: Global) -> Result<Replies, AllocError> {
    let mut replies = Vec::new(alloc);
    replies.push(Reply::Refused(Refusal::DraftOpen))?;
    Ok(Replies::of(replies))
}

/// What two sessions were answered.
fn two_sessions(alloc: Global) -> Result<Vec<Replies>, AllocError> {
    let mut sessions = Vec::new(alloc);
    sessions.push(reporting(alloc)?)?;
    sessions.push(refused(alloc)?)?;
    Ok(sessions)
}

/// The text of what two sessions were answered.
fn served(alloc: Global, order: &[u16]) -> Result<Text, AllocError> {
    let sessions = two_sessions(alloc)?;
    serve_text(alloc, order, &sessions)
}

#[test]
fn two_sessions_are_told(rt: HostRuntime) -> Result<(), Fail> {
    let text = served(rt.alloc(), &[1, 2])?;
    let wanted = "\
order 1 2
session 1
1 pinned 0
2 report
period 66/1
end
3 edited 1
session 2
1 refused draft open
";
    assert!(rt; text.bytes() == wanted.as_bytes());
    Ok(())
}

#[test]
fn a_session_without_calls_is_told(rt: HostRuntime) -> Result<(), Fail> {
    let alloc = rt.alloc();
    let mut sessions = Vec::new(alloc);
    sessions.push(Replies::of(Vec::new(alloc)))?;
    let text = serve_text(alloc, &[], &sessions)?;
    assert!(rt; text.bytes() == b"order\nsession 1\n".as_slice());
    Ok(())
}
