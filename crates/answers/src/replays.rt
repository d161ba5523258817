// The call of the crate `replay`, as those of `sheets` are made: its sheet and its log are lists of bytes.
use super::shapes::{BLANK, parts, shape_words};
use super::sheet_calls::Space;
use super::space;
use super::words::{Words, byte};
use masks::outcome::Refusal;
use replay::outcome::Replay;
use replay::replay::replay;

// Whether a replay is the one that the line gives.
fn says_replay(line: &mut Words, answer: Result<Replay, Refusal>) -> bool {
    let blank = Replay {
        shape: BLANK,
        steps: 0,
        stopped: None,
    };
    let (number, r) = parts(answer, blank);
    let [dims, kind, p, n, z] = shape_words(r.shape);
    let stopped = match r.stopped {
        Some(refusal) => refusal.number() as u64,
        None => 0,
    };
    line.says(&[number, dims, kind, p, n, z, r.steps as u64, stopped])
}

// The form, and the bytes of the sheet and of the log; then the room for numbers.
pub fn agrees(words: [u64; 16], line: &mut Words, space_given: &mut Space) -> bool {
    let mut log_space: [u8; 512] = space(0);
    let sheet = line.read_into(&mut *space_given.bytes);
    let log = line.read_into(&mut log_space);
    let out = line.room(&mut *space_given.numbers);
    let answer = replay(byte(words[0]), sheet, log, out);
    says_replay(line, answer) && line.gives(out)
}
