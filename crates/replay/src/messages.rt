// A case of messages: after the length of the module come the words of rows that are lent and how many rows there are,
// the same of errors, the bytes of the built-in text, the working words and the bytes of text that are lent; the number
// of the refusal, or 0; its place, or the length of the text; the bytes of the text, 0 if there is none. Then come the
// module, the rows, the errors, the built-in text and the text.
ghost use Rattle.std.specs.Prelude.{IfSome, IfNone};
ghost use Rattle.replay.specs.Cases.{WholeRequest, IsRequestOf};

use crate::case::{HEAD, WORD, size};
use crate::expected::word_of;
use crate::judge::Verdict;
use crate::lent::{Buffer, are_kept, fill};
use error_messages::messages;
use refusal::Refusal;

#[derive(Clone, Copy)]
struct Request<'a> {
    row_count: u32,
    error_count: usize,
    work: usize,
    room: usize,
    number: u32,
    place: usize,
    module: &'a [u8],
    rows: &'a [u8],
    errors: &'a [u8],
    built_in: &'a [u8],
    text: &'a [u8],
}

// The case by its parts, if it is whole.
fn read_request<'a>(case: &'a [u8]) -> Option<Request<'a>>
    ensures some { IfSome result (λ request. IsRequestOf case.now request) }
    ensures none { IfNone result (¬ (WholeRequest case.now)) }
{
    let (head, rest) = case.split_at_checked(HEAD)?;
    let (module, rest) = rest.split_at_checked(size(head, 2))?;
    let (rows, rest) = rest.split_at_checked(WORD * size(head, 3))?;
    let (errors, rest) = rest.split_at_checked(WORD * size(head, 5))?;
    let (built_in, text) = rest.split_at_checked(size(head, 7))?;
    if text.len() != size(head, 12) || case.len() != size(head, 0) {
        return None;
    }
    Some(Request {
        row_count: word_of(head, 4),
        error_count: size(head, 6),
        work: size(head, 8),
        room: size(head, 9),
        number: word_of(head, 10),
        place: size(head, 11),
        module,
        rows,
        errors,
        built_in,
        text,
    })
}

// Copies the words of a part of a case.
fn copy_words(part: &[u8], words: &mut [u32]) {
    for (i, word) in words.iter_mut().enumerate() {
        *word = word_of(part, i);
    }
}

// Whether a refusal is the one of the case, and the text is as it was: the working words too, or those past the rows if
// the text is too long.
fn judge_refusal(request: &Request, refusal: Refusal, work: &[u32], text: &[u8]) -> Verdict {
    let measured = match refusal {
        Refusal::NoRoomForText(_) => request.row_count as usize,
        _ => 0,
    };
    if refusal.number() == request.number
        && refusal.place() == request.place
        && are_kept(text, 0, Buffer::Bytes)
        && are_kept(work, measured, Buffer::Work)
    {
        Verdict::Refused
    } else {
        Verdict::Differs
    }
}

// Whether the text is the one of the case, and what lies past it and past the rows is as it was.
fn judge_text(request: &Request, length: usize, work: &[u32], text: &[u8]) -> Verdict {
    if request.number == 0
        && length == request.place
        && length == request.text.len()
        && text.starts_with(request.text)
        && are_kept(text, length, Buffer::Bytes)
        && are_kept(work, request.row_count as usize, Buffer::Work)
    {
        Verdict::Good
    } else {
        Verdict::Differs
    }
}

// Copies the rows and the errors of the case, fills what is lent to be written, asks for the messages and compares.
fn judge_lent(
    request: &Request,
    rows: &mut [u32],
    errors: &mut [u32],
    work: &mut [u32],
    text: &mut [u8],
) -> Verdict {
    copy_words(request.rows, rows);
    copy_words(request.errors, errors);
    fill(work, Buffer::Work);
    fill(text, Buffer::Bytes);
    let answer = messages(
        request.module,
        rows,
        request.row_count,
        errors,
        request.error_count,
        request.built_in,
        work,
        text,
    );
    match answer {
        Ok(length) => judge_text(request, length, work, text),
        Err(refusal) => judge_refusal(request, refusal, work, text),
    }
}

// Lends what the case says. A case that is not whole, or that asks for more than there is, differs.
pub(crate) fn judge_messages(
    case: &[u8],
    text: &mut [u8],
    rows: &mut [u32],
    errors: &mut [u32],
    work: &mut [u32],
) -> Verdict {
    let Some(request) = read_request(case) else {
        return Verdict::Differs;
    };
    let row_words = request.rows.len() / WORD;
    let error_words = request.errors.len() / WORD;
    if rows.len() < row_words
        || errors.len() < error_words
        || work.len() < request.work
        || text.len() < request.room
    {
        return Verdict::Differs;
    }
    judge_lent(
        &request,
        &mut rows[..row_words],
        &mut errors[..error_words],
        &mut work[..request.work],
        &mut text[..request.room],
    )
}
