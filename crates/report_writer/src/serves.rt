//! The text of what sessions were answered.
ghost use Rattle.std.specs.Prelude.{◌≡◌, ◌+◌, ◌++◌, IfOk, OnOk, codes, decimal, map};
ghost use Rattle.report_writer.specs.FaultLines.{spaced};
ghost use Rattle.report_writer.specs.Replies.{reply_text};
ghost use Rattle.report_writer.specs.ServeText as spec;

use crate::fault_lines::push_number;
use crate::replies::push_reply;
use cyc_text::{Text, push_decimal};
use session_machine::{Replies, Reply};
use std::alloc::{AllocError, Global};

/// Adds numbers, a space before each.
#[tactic(auto, unfolding(crate::specs::FaultLines::spaced))]
fn push_numbers(text: &mut Vec<u8>, numbers: &[u16]) -> Result<(), AllocError>
    ensures { OnOk result (text.new.items ≡ text.old.items ++ spaced (map decimal numbers.now)) }
{
    'numbers: for number in numbers {
        push_number(text, " ", u64::from(*number))?;
    }
    Ok(())
}

/// Adds the line of the order.
fn push_order(text: &mut Vec<u8>, order: &[u16]) -> Result<(), AllocError>
    ensures { OnOk result (text.new.items ≡ text.old.items ++ spec.order_line order.now) }
{
    text.extend_from_slice(b"order")?;
    push_numbers(text, order)?;
    text.extend_from_slice(b"\n")
}

/// Adds a reply behind its number.
fn push_numbered(text: &mut Vec<u8>, number: u64, reply: &Reply) -> Result<(), AllocError>
    ensures { OnOk result (text.new.items ≡ text.old.items ++ decimal number ++ codes " " ++ reply_text reply.now ++ codes "\n") }
{
    push_decimal(text, number)?;
    text.extend_from_slice(b" ")?;
    push_reply(text, reply)?;
    text.extend_from_slice(b"\n")
}

/// Adds the replies of a session, counted from 1.
#[tactic(auto, unfolding(crate::specs::ServeText::reply_lines))]
fn push_replies(text: &mut Vec<u8>, replies: &[Reply]) -> Result<(), AllocError>
    ensures { OnOk result (text.new.items ≡ text.old.items ++ spec.reply_lines 1 replies.now) }
{
    for (at, reply) in replies.iter().enumerate() {
        push_numbered(text, at as u64 + 1, reply)?;
    }
    Ok(())
}

/// Adds the lines of a session.
fn push_session(text: &mut Vec<u8>, session: u64, replies: &Replies) -> Result<(), AllocError>
    ensures { OnOk result (text.new.items ≡ text.old.items ++ spec.session_text session replies.now) }
{
    push_number(text, "session ", session)?;
    text.extend_from_slice(b"\n")?;
    push_replies(text, replies.list())
}

/// Adds the lines of the sessions, counted from 1.
#[tactic(auto, unfolding(crate::specs::ServeText::session_texts))]
fn push_sessions(text: &mut Vec<u8>, sessions: &[Replies]) -> Result<(), AllocError>
    ensures { OnOk result (text.new.items ≡ text.old.items ++ spec.session_texts 1 sessions.now) }
{
    for (at, replies) in sessions.iter().enumerate() {
        push_session(text, at as u64 + 1, replies)?;
    }
    Ok(())
}

/// The text of what sessions were answered: `order` and the session numbers of the order; then for each session, counted from 1,
/// `session S`, and for each of its replies, counted from 1, its number and the reply. A report begins on the line behind its reply's.
///
/// Each number and each text is printed as it is, also of a want of memory (`S19`). `AllocError` only for want of memory. Linear in
/// the text.
pub fn serve_text(alloc: Global, order: &[u16], replies: &[Replies]) -> Result<Text, AllocError>
    ensures { IfOk result (λ text. text ≡ spec.serve_text order.now replies.now) }
{
    let mut text = Vec::new(alloc);
    push_order(&mut text, order)?;
    push_sessions(&mut text, replies)?;
    Text::of(alloc, &text)
}
