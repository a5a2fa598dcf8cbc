// What is turned away, in one line on standard error. Where that cannot be written, nothing can be said of it.
use recording::Reason;
use std::io;
use std::io::Write;

// The bytes of the longest text of an error.
const TEXT_BYTES: usize = 512;

fn say<W: Write>(to: &mut W, text: &[u8]) {
    let _ = to.write_all(text);
}

// Says a number in decimal.
fn say_number<W: Write>(to: &mut W, n: u32) {
    let _ = write!(to, "{n}");
}

// Says how the program is called.
pub fn say_usage<W: Write>(to: &mut W) {
    say(to, b"wav: usage: wav IN OUT\n");
}

// The text of an error alone, where the system's number stands behind it.
fn words_of(text: &str) -> &str {
    text.split_once(" (os error ")
        .map_or(text, |(words, _)| words)
}

// Says the text of an error.
fn say_text<W: Write>(to: &mut W, error: io::Error) -> io::Result<()> {
    let mut space = [0u8; TEXT_BYTES];
    let mut rest = &mut space[..];
    write!(rest, "{error}")?;
    let n = TEXT_BYTES.saturating_sub(rest.len());
    let text = str::from_utf8(&space[..n]).unwrap_or("");
    to.write_all(words_of(text).as_bytes())
}

// Says which error a call gave, by its number, which is above 0, or 0 where the system gave none, and its text, and
// on which file.
pub fn say_error<W: Write>(to: &mut W, name: &[u8], error: io::Error) {
    let number = error.raw_os_error().unwrap_or(0).max(0);
    say(to, b"wav: error ");
    say_number(to, number as u32);
    say(to, b": ");
    say(to, name);
    say(to, b": ");
    let _ = say_text(to, error);
    say(to, b"\n");
}

// Says that a file has more bytes than are taken.
pub fn say_too_long<W: Write>(to: &mut W) {
    let text = b"wav: too long: more than 655,360 bytes, and this program takes 262,144 samples\n";
    say(to, text);
}

// What a refusal stands for, as the end of its line; those that no file is turned away by have none.
fn text_of(why: Reason) -> &'static str {
    match why {
        Reason::TooMany => ": more than 1,048,576 samples\n",
        Reason::Setting => ": a rate above 16,777,216 a second\n",
        Reason::Wave =>
            ": not a whole RIFF WAVE file with fmt before data and an even data length\n",
        Reason::Coding => ": not mono 16-bit PCM (an extensible header is none either)\n",
        Reason::Output => ": more than 262,144 samples, which is what this program takes\n",
        _ => "\n",
    }
}

// Says with which number a file is refused, and what that stands for.
pub fn say_refused<W: Write>(to: &mut W, why: Reason) {
    say(to, b"wav: refused ");
    say_number(to, why.number());
    say(to, text_of(why).as_bytes());
}
