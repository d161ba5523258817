// Replays calls with their answers, and says how many agree and which is the first that does not. README.md beside
// this folder's `stdin` says how a call is written and how the list was made.
#![tactic(auto)]

mod calls;
mod flavor_calls;
mod product_calls;
mod replays;
mod shape_calls;
mod shapes;
mod sheet_calls;
mod sheet_lines;
mod values;
mod words;

ghost use Rattle.std.specs.Prelude.{◌≡◌, ◌≤◌, length, IfOk};

use calls::Op;
use sheet_calls::Space;
use std::io::{self, BufReader, Read};
use words::Words;

// Room for items of one kind. The `ensures` gives only the length, which lending the array as a slice needs.
fn space<T: Copy, const N: usize>(item: T) -> [T; N]
    ensures { N ≡ length result }
{
    [item; N]
}

// How many calls were read and agree, and the first that does not, counted from 1.
#[derive(Clone, Copy)]
struct Tally {
    read: u64,
    agree: u64,
    first: Option<u64>,
}

impl Tally {
    fn count(&mut self, agrees: bool) {
        self.read = self.read.wrapping_add(1);
        if agrees {
            self.agree = self.agree.wrapping_add(1);
        } else if self.first.is_none() {
            self.first = Some(self.read);
        }
    }
}

// Whether the call of a line gives what the line says. The calls of the crates `sheets` and `replay` have lines of their own.
fn agrees(text: &[u8], space: &mut Space) -> bool {
    if text.is_empty() {
        return false;
    }
    let mut line = Words { rest: text };
    let op = Op::try_from(line.next_word()).ok();
    let mut words = [0u64; 16];
    let given = line.read_into(&mut words).len();
    match op {
        Some(Op::Sheet(op)) => op.agrees(words, &mut line, space),
        Some(Op::Replay) => replays::agrees(words, &mut line, space),
        _ => calls::agrees(op, words, given, &mut line),
    }
}

// Reads until the buffer is full or the input ends, and says how many bytes were read. By hand: a short
// line at the end must be told from a full one, and `read_exact` does not say how far it came.
fn read_full<R: Read>(input: &mut R, buf: &mut [u8]) -> io::Result<usize>
    ensures { IfOk result (λ n. n ≤ length buf.old) }
{
    let mut at: usize = 0;
    while at < buf.len() {
        let got = input.read(&mut buf[at..])?;
        if got == 0 {
            return Ok(at);
        }
        at += got;
    }
    Ok(at)
}

// One line: the count of its bytes in six hexadecimal digits and a space, then that many bytes. Whether its call agrees, if there is one.
fn read_line<R: Read>(
    input: &mut R,
    body: &mut [u8],
    space: &mut Space,
) -> io::Result<Option<bool>> {
    let mut head = [0u8; 7];
    if read_full(input, &mut head)? < 7 {
        return Ok(None);
    }
    let size = Words { rest: &head }.next_word() as usize;
    let Some(text) = body.get_mut(..size) else {
        return Ok(Some(false));
    };
    if read_full(input, text)? < size {
        return Ok(Some(false));
    }
    Ok(Some(agrees(text, space)))
}

// A proved loop has to end, so the lines are counted down from a number that no list has.
fn run<R: Read>(input: &mut R) -> io::Result<Tally> {
    let mut body: [u8; 262144] = space(0);
    let mut bytes: [u8; 40000] = space(0);
    let mut patterns: [u64; 5000] = space(0);
    let mut numbers: [f64; 5000] = space(0.0);
    let mut room = Space {
        bytes: &mut bytes,
        patterns: &mut patterns,
        numbers: &mut numbers,
    };
    let mut tally = Tally {
        read: 0,
        agree: 0,
        first: None,
    };
    for _ in 0..0xffff_ffff_u64 {
        match read_line(input, &mut body, &mut room)? {
            None => return Ok(tally),
            Some(agrees) => tally.count(agrees),
        }
    }
    Ok(tally)
}

fn main(rt: HostRuntime) -> io::Result<()> {
    let mut input = BufReader::new(rt.alloc(), rt.reader())?;
    let Tally { read, agree, first } = run(&mut input)?;
    println!(rt; "{agree} of {read} calls agree")?;
    if let Some(first) = first {
        println!(rt; "the first that does not is call {first}")?;
    }
    Ok(())
}
