// Texts, numbers and hex. What is "put" goes into a lent buffer from a place on: the place behind it is answered, and the buffer's other bytes stay.
// What is "appended" goes to the end of a page, as `Page::append` has it of a text.
#![tactic(auto)]

ghost use Rattle.std.specs.Prelude.{◌≡◌, [], ◌∷◌, ◌+◌, ◌*◌, ◌≤◌, ◌<◌, ◌++◌, length};
ghost use Rattle.text.specs.Text.{comma, line_feed, digit, decimal, hex_digit, hex_byte, hex};
ghost use Rattle.text.specs.Puts.{Puts};

use fields::bytes;
use fields::page::Page;

// A text.
pub fn put_text(out: &mut [u8], at: usize, text: &[u8]) -> usize
    requires { at + length text.now ≤ length out.old }
    ensures { Puts text.now out.old at out.new result }
{
    let end = at + text.len();
    bytes::copy(&mut out[at..end], text);
    end
}

// A comma.
pub fn put_comma(out: &mut [u8], at: usize) -> usize
    requires { at + 1 ≤ length out.old }
    ensures { (Puts (comma ∷ []) out.old at out.new result) × (result ≡ at + 1) }
{
    put_text(out, at, b",")
}

// A line feed.
pub fn put_line_feed(out: &mut [u8], at: usize) -> usize
    requires { at + 1 ≤ length out.old }
    ensures { (Puts (line_feed ∷ []) out.old at out.new result) × (result ≡ at + 1) }
{
    put_text(out, at, b"\n")
}

// `write!` of a number is not used here: it gives a `Result`, and no contract of it says that it is `Ok` where there is room. These cannot fail.

// ---- decimal

// The last digit of a number.
#[tactic(auto, unfolding(crate::specs::Text::digit))]
fn digit(x: u64) -> u8
    ensures { result ≡ digit x }
{
    b'0' + (x % 10) as u8
}

// A number, with no leading zero. A u64 has at most 20 digits, and so many calls are under way at most.
#[tactic(auto, using(crate::proofs::PutsLaws::put_then, crate::proofs::DecimalLaws::decimal_steps))]
pub fn put_decimal(out: &mut [u8], at: usize, x: u64) -> usize
    requires { at + 20 ≤ length out.old }
    ensures { (Puts (decimal x) out.old at out.new result) × (result ≤ at + 20) }
{
    if x < 10 {
        return put_text(out, at, &[digit(x)]);
    }
    let last = put_decimal(out, at, x / 10);
    put_text(out, last, &[digit(x)])
}

// The same at a page's end. The digits stand in 20 bytes first, so that one function writes them.
#[tactic(auto, using(crate::proofs::PutsLaws::front_put, crate::proofs::DecimalLaws::decimal_most))]
pub fn append_decimal<const N: usize>(page: &mut Page<N>, x: u64)
    requires { length page.old + 20 ≤ N }
    ensures { (page.new ≡ page.old ++ decimal x) × (length page.new ≤ length page.old + 20) }
{
    let mut digits = [0u8; 20];
    let end = put_decimal(&mut digits, 0, x);
    page.append(&digits[..end]);
}

// ---- hex

// The digit of a number below 16.
#[tactic(auto, unfolding(crate::specs::Text::hex_digit))]
fn hex_digit(d: u8) -> u8
    requires { d < 16 }
    ensures { result ≡ hex_digit d }
{
    if d < 10 { b'0' + d } else { b'A' + (d - 10) }
}

// The two digits of a byte.
#[tactic(auto, unfolding(crate::specs::Text::hex_byte))]
fn hex_digits(b: u8) -> [u8; 2]
    ensures { result ≡ hex_byte b }
{
    [hex_digit(b / 16), hex_digit(b % 16)]
}

// A byte as two hex digits.
#[tactic(auto, unfolding(crate::specs::Text::hex_byte))]
pub fn put_hex_byte(out: &mut [u8], at: usize, b: u8) -> usize
    requires { at + 2 ≤ length out.old }
    ensures { (Puts (hex_byte b) out.old at out.new result) × (result ≡ at + 2) }
{
    put_text(out, at, &hex_digits(b))
}

// The same at a page's end.
#[tactic(auto, unfolding(crate::specs::Text::hex_byte))]
pub fn append_hex_byte<const N: usize>(page: &mut Page<N>, byte: u8)
    requires { length page.old + 2 ≤ N }
    ensures { (page.new ≡ page.old ++ hex_byte byte) × (length page.new ≡ length page.old + 2) }
{
    page.append(&hex_digits(byte));
}

// Bytes, each as two hex digits.
#[tactic(auto, using(crate::proofs::PutsLaws::put_then, fields::proofs::BytesLaws::put_none, crate::proofs::HexLaws::hex_steps))]
pub fn put_hex(out: &mut [u8], at: usize, from: &[u8]) -> usize
    requires { at + 2 * length from.now ≤ length out.old }
    ensures { (Puts (hex from.now) out.old at out.new result) × (result ≡ at + 2 * length from.now) }
{
    let mut end = at;
    for byte in from {
        end = put_hex_byte(out, end, *byte);
    }
    end
}

// The same at a page's end.
#[tactic(auto, using(crate::proofs::HexLaws::hex_begun, crate::proofs::HexLaws::hex_more))]
pub fn append_hex<const N: usize>(page: &mut Page<N>, from: &[u8])
    requires { length page.old + 2 * length from.now ≤ N }
    ensures { (page.new ≡ page.old ++ hex from.now) × (length page.new ≡ length page.old + 2 * length from.now) }
{
    for byte in from {
        append_hex_byte(page, *byte);
    }
}
