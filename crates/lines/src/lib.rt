// The line of an outcome: put into a lent buffer from a place on, where each function answers the place behind what it put, or appended to a page.
#![tactic(auto)]

ghost use Rattle.std.specs.Prelude.{◌≡◌, ◌∷◌, ◌+◌, ◌++◌, ◌≤◌, ◌<◌, min, length};
ghost use Rattle.answers.specs.Answers.{codes_of, status_of};
ghost use Rattle.text.specs.Text.{comma, decimal};
ghost use Rattle.text.specs.Puts.{Puts};
ghost use Rattle.lines.specs.Line.{shown_bytes, status_text, codes_text, sense_text, data_text, line_of};
ghost use Rattle.lines.specs.Most.{numbers_below, line_most};

use answers::{Answer, Refusal};
use fields::page::Page;

// 01: "the first 32 of them".
const SHOWN: usize = 32;

// No line has more bytes.
const LINE_MOST: usize = 90;

// A number of a line: no call, answer or length has more than 4 digits.
#[tactic(auto, using(crate::proofs::LineLaws::number_length))]
fn put_number(out: &mut [u8], at: usize, x: u64) -> usize
    requires { (x < numbers_below) × (at + 20 ≤ length out.old) }
    ensures { (Puts (decimal x) out.old at out.new result) × (result ≤ at + 4) }
{
    text::put_decimal(out, at, x)
}

// ---- the fields behind the first, each with its comma

#[tactic(auto, using(text::proofs::PutsLaws::put_then))]
fn put_next_number(out: &mut [u8], at: usize, x: u64) -> usize
    requires { (x < numbers_below) × (at + 21 ≤ length out.old) }
    ensures { (Puts (comma ∷ decimal x) out.old at out.new result) × (result ≤ at + 5) }
{
    let next = text::put_comma(out, at);
    put_number(out, next, x)
}

#[tactic(auto, unfolding(crate::specs::Line::status_text))]
fn put_status_text(out: &mut [u8], at: usize, status: Option<u8>) -> usize
    requires { at + 2 ≤ length out.old }
    ensures { (Puts (status_text status) out.old at out.new result) × (result ≤ at + 2) }
{
    match status {
        Some(byte) => text::put_hex_byte(out, at, byte),
        None => text::put_text(out, at, b"--"),
    }
}

#[tactic(auto, using(text::proofs::PutsLaws::put_then))]
fn put_status(out: &mut [u8], at: usize, answer: Answer) -> usize
    requires { at + 3 ≤ length out.old }
    ensures { (Puts (comma ∷ status_text (status_of answer)) out.old at out.new result) × (result ≤ at + 3) }
{
    let next = text::put_comma(out, at);
    put_status_text(out, next, answers::status_of(answer))
}

#[tactic(auto, unfolding(crate::specs::Line::codes_text))]
fn put_codes(out: &mut [u8], at: usize, refusal: Refusal) -> usize
    requires { at + 6 ≤ length out.old }
    ensures { (Puts (codes_text (codes_of refusal)) out.old at out.new result) × (result ≤ at + 6) }
{
    let codes = answers::codes_of(refusal);
    text::put_hex(out, at, &[codes.key, codes.asc, codes.ascq])
}

#[tactic(auto, using(fields::proofs::BytesLaws::put_none), unfolding(crate::specs::Line::sense_text))]
fn put_sense_text(out: &mut [u8], at: usize, answer: Answer) -> usize
    requires { at + 6 ≤ length out.old }
    ensures { (Puts (sense_text answer) out.old at out.new result) × (result ≤ at + 6) }
{
    if let Answer::Refused(refusal) = answer {
        put_codes(out, at, refusal)
    } else {
        at
    }
}

#[tactic(auto, using(text::proofs::PutsLaws::put_then))]
fn put_sense(out: &mut [u8], at: usize, answer: Answer) -> usize
    requires { at + 7 ≤ length out.old }
    ensures { (Puts (comma ∷ sense_text answer) out.old at out.new result) × (result ≤ at + 7) }
{
    let next = text::put_comma(out, at);
    put_sense_text(out, next, answer)
}

// How many of the returned bytes are shown.
fn shown(returned: usize) -> usize
    ensures { result ≡ min shown_bytes returned }
{
    returned.min(SHOWN)
}

#[tactic(auto, using(text::proofs::PutsLaws::put_then, crate::proofs::LineLaws::shown_steps))]
fn put_data(out: &mut [u8], at: usize, returned: usize, from: &[u8]) -> usize
    requires { (returned ≤ length from.now) × (at + 65 ≤ length out.old) }
    ensures { (Puts (comma ∷ data_text returned from.now) out.old at out.new result) × (result ≤ at + 65) }
{
    let next = text::put_comma(out, at);
    text::put_hex(out, next, &from[..shown(returned)])
}

// ---- the line

// All fields of an outcome; `from` holds the data that is returned.
#[tactic(auto, using(crate::proofs::LineLaws::number_most))]
pub fn put_line(
    out: &mut [u8],
    at: usize,
    call: usize,
    answer: Answer,
    returned: usize,
    from: &[u8],
) -> usize
    requires { (call < numbers_below) × (returned < numbers_below) × (returned ≤ length from.now) × (at + line_most ≤ length out.old) }
    ensures { (Puts (line_of call answer returned from.now) out.old at out.new result) × (result ≤ at + line_most) }
{
    let a = put_number(out, at, call as u64);
    let b = put_next_number(out, a, answers::number_of(answer));
    let c = put_status(out, b, answer);
    let d = put_sense(out, c, answer);
    let e = put_next_number(out, d, returned as u64);
    let f = put_data(out, e, returned, from);
    text::put_line_feed(out, f)
}

// The same at a page's end. The line stands in bytes of its own first: a page has its length written after each text, so that no loop over bytes takes
// several at once, and a line appended text by text took 766 instructions in the mean (one with 32 bytes of data, one with sense), where this takes 265.
pub fn append_line<const N: usize>(
    page: &mut Page<N>,
    call: usize,
    answer: Answer,
    returned: usize,
    from: &[u8],
)
    requires { (call < numbers_below) × (returned < numbers_below) × (returned ≤ length from.now) × (length page.old + line_most ≤ N) }
    ensures { (page.new ≡ page.old ++ line_of call answer returned from.now) × (length page.new ≤ length page.old + line_most) }
{
    let mut line = [0u8; LINE_MOST];
    let end = put_line(&mut line, 0, call, answer, returned, from);
    page.append(&line[..end]);
}
