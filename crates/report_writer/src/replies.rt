//! What is told of a reply.
ghost use Rattle.std.specs.Prelude.{◌≡◌, ◌++◌, OnOk, codes, decimal};
ghost use Rattle.std.specs.Io.BufRead.{strip_last};
ghost use Rattle.report_writer.specs.Pieces.{scaled};
ghost use Rattle.report_writer.specs.Replies as spec;

use crate::fault_lines::{push_line, push_name, push_number, push_statement};
use crate::pieces::push_scaled;
use cyc_num::Ratio;
use cyc_text::Text;
use session_machine::{Refusal, Reply};
use std::alloc::AllocError;

/// Adds what is told of a dead cycle: how many rules it has, and its first event.
fn push_dead(text: &mut Vec<u8>, count: u64, event: &Text) -> Result<(), AllocError>
    ensures { OnOk result (text.new.items ≡ text.old.items ++ codes "V3 " ++ decimal count ++ codes " " ++ event.now) }
{
    push_number(text, "V3 ", count)?;
    push_name(text, " ", event)
}

/// Adds why a call is refused.
fn push_refusal(text: &mut Vec<u8>, refusal: &Refusal) -> Result<(), AllocError>
    ensures { OnOk result (text.new.items ≡ text.old.items ++ spec.refusal_text refusal.now) }
{
    match refusal {
        Refusal::NotPinned => text.extend_from_slice(b"not pinned"),
        Refusal::DraftOpen => text.extend_from_slice(b"draft open"),
        Refusal::NoVersion(head) => push_number(text, "no version ", *head),
        Refusal::EmptyDraft => text.extend_from_slice(b"empty draft"),
        Refusal::Undriven(net) => push_name(text, "H1 ", net),
        Refusal::NoRoot => text.extend_from_slice(b"H2"),
        Refusal::IdleTick(tick) => push_number(text, "H3 ", *tick),
        Refusal::TooManyRules(count) => push_number(text, "H4 ", *count),
        Refusal::Unreached(event) => push_name(text, "V1 ", event),
        Refusal::NoReturn(event) => push_name(text, "V2 ", event),
        Refusal::Dead(count, event) => push_dead(text, *count, event),
        Refusal::Stale(head) => push_number(text, "stale ", *head),
        Refusal::Full => text.extend_from_slice(b"full"),
        Refusal::Edit(edit, fault) => push_line(text, "edit ", *edit, *fault),
        Refusal::Statement(fault) => push_statement(text, *fault),
        Refusal::NoEvent => text.extend_from_slice(b"no event"),
        Refusal::NoFork => text.extend_from_slice(b"no fork"),
    }
}

/// Adds a refusal, behind its word.
fn push_refused(text: &mut Vec<u8>, refusal: &Refusal) -> Result<(), AllocError>
    ensures { OnOk result (text.new.items ≡ text.old.items ++ codes "refused " ++ spec.refusal_text refusal.now) }
{
    text.extend_from_slice(b"refused ")?;
    push_refusal(text, refusal)
}

/// Adds a period.
fn push_period(text: &mut Vec<u8>, period: Ratio) -> Result<(), AllocError>
    ensures { OnOk result (text.new.items ≡ text.old.items ++ codes "period " ++ decimal period.top ++ codes "/" ++ decimal period.bottom) }
{
    push_number(text, "period ", period.top())?;
    push_number(text, "/", period.bottom())
}

/// Adds what is told of a critical cycle: how many rules it has, the sums of their delays and offsets, and its first event.
fn push_cycle(
    text: &mut Vec<u8>,
    count: u64,
    delay: u64,
    offset: u64,
    event: &Text,
) -> Result<(), AllocError>
    ensures { OnOk result
        (text.new.items ≡ text.old.items ++ codes "cycle " ++ decimal count ++ codes " " ++ decimal delay ++ codes " " ++ decimal offset ++ codes " " ++ event.now) }
{
    push_number(text, "cycle ", count)?;
    push_number(text, " ", delay)?;
    push_number(text, " ", offset)?;
    push_name(text, " ", event)
}

/// Adds an arrival.
fn push_arrival(text: &mut Vec<u8>, arrival: i64, bottom: u64) -> Result<(), AllocError>
    ensures { OnOk result (text.new.items ≡ text.old.items ++ codes "arrival " ++ scaled bottom arrival) }
{
    text.extend_from_slice(b"arrival ")?;
    push_scaled(text, arrival, bottom)
}

/// Whether a fork is met.
fn met_text(slack: i64) -> &'static str
    ensures { result.now ≡ spec.met_text slack }
{
    if slack >= 0 { " met" } else { " missed" }
}

/// Adds the slack of a fork, and whether it is met.
fn push_slack(text: &mut Vec<u8>, slack: i64, bottom: u64) -> Result<(), AllocError>
    ensures { OnOk result (text.new.items ≡ text.old.items ++ codes "slack " ++ scaled bottom slack ++ spec.met_text slack) }
{
    text.extend_from_slice(b"slack ")?;
    push_scaled(text, slack, bottom)?;
    text.extend_from_slice(met_text(slack).as_bytes())
}

/// A text without the line feed at its end.
fn without_line_feed(text: &[u8]) -> &[u8]
    ensures { result.now ≡ strip_last 10 text.now }
{
    match text {
        [front @ .., b'\n'] => front,
        _ => text,
    }
}

/// Adds a report, on lines of its own.
fn push_report(text: &mut Vec<u8>, report: &Text) -> Result<(), AllocError>
    ensures { OnOk result (text.new.items ≡ text.old.items ++ codes "report\n" ++ strip_last 10 report.now) }
{
    text.extend_from_slice(b"report\n")?;
    text.extend_from_slice(without_line_feed(report.bytes()))
}

/// Adds what is told of a reply.
pub(crate) fn push_reply(text: &mut Vec<u8>, reply: &Reply) -> Result<(), AllocError>
    ensures { OnOk result (text.new.items ≡ text.old.items ++ spec.reply_text reply.now) }
{
    match reply {
        Reply::Pinned(version) => push_number(text, "pinned ", *version),
        Reply::Rebased(version) => push_number(text, "rebased ", *version),
        Reply::Published(version) => push_number(text, "published ", *version),
        Reply::Edited(count) => push_number(text, "edited ", *count),
        Reply::Dropped(count) => push_number(text, "dropped ", *count),
        Reply::Draft(count) => push_number(text, "draft ", *count),
        Reply::Period(period) => push_period(text, *period),
        Reply::Cycle(count, delay, offset, event) => {
            push_cycle(text, *count, *delay, *offset, event)
        }
        Reply::Arrival(arrival, bottom) => push_arrival(text, *arrival, *bottom),
        Reply::Slack(slack, bottom) => push_slack(text, *slack, *bottom),
        Reply::Report(report) => push_report(text, report),
        Reply::Refused(refusal) => push_refused(text, refusal),
    }
}
