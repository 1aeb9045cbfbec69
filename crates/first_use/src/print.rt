// What the program shows, a line each on standard output: a label, and what stands for it. A failed write is not told
// apart.
use signals::Refusal;

pub fn decimal(rt: &impl Print, label: &[u8], number: i64) {
    let _ = rt.write_all(label);
    let _ = println!(rt; " {number}");
}

// Four hexadecimal digits.
pub fn word(rt: &impl Print, label: &[u8], word: u16) {
    let _ = rt.write_all(label);
    let _ = println!(rt; " {word:04x}");
}

pub fn bytes(rt: &impl Print, text: &[u8]) {
    let _ = rt.write_all(text);
    let _ = rt.write_all(b"\n");
}

// The first bytes of a buffer, so many; none if it has fewer. A reply is so much of a buffer that was lent.
pub fn front(rt: &impl Print, buffer: &[u8], count: usize) {
    if count <= buffer.len() {
        bytes(rt, &buffer[0..count]);
    }
}

pub fn refusal(rt: &impl Print, refusal: Refusal) {
    decimal(rt, b"refused with", u8::from(refusal) as i64);
}

pub fn verdict(rt: &impl Print, verdict: Result<(), Refusal>) {
    match verdict {
        Ok(()) => bytes(rt, b"accepted"),
        Err(why) => refusal(rt, why),
    }
}

pub fn answer(rt: &impl Print, label: &[u8], answer: Result<i32, Refusal>) {
    match answer {
        Ok(value) => decimal(rt, label, i64::from(value)),
        Err(why) => refusal(rt, why),
    }
}

pub fn reading(rt: &impl Print, reading: Option<u64>) {
    match reading {
        Some(milliseconds) => {
            let _ = println!(rt; "scanned at {milliseconds} ms");
        }
        None => bytes(rt, b"no scan yet"),
    }
}
