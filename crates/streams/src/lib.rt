// Standard input to its end and standard output whole. Where that fails it is said on standard error, and nothing passes for an answer.
// What a call of C's reads or writes no contract can say: that trouble is told from an end is tried by tests/run.
#![tactic(auto)]

ghost use Rattle.streams.specs.Reads.{ReadAs, IsPrefixLen};
ghost use Rattle.streams.specs.Answers.{Answered, Shown};
ghost use Rattle.streams.specs.Saying.{SaidBy, Fits};

use std::io;
use std::io::Read;

// One read: at most as many bytes as the store has, none at the input's end.
fn read_some(rt: &impl Eprint, reader: &mut impl Read, store: &mut [u8]) -> Option<usize>
    ensures { ReadAs result store.new }
{
    match reader.read(store) {
        Ok(n) => Some(n),
        Err(e) => {
            let _ = eprintln!(rt; "chaffwheel: standard input cannot be read: {e}");
            None
        }
    }
}

// Reads standard input until it ends or the store is full, or a read fails. (`read_full` answers a failed read by a count, too.)
pub fn read_input(rt: &(impl io::Input + Eprint), store: &mut [u8]) -> Option<usize>
    ensures { ReadAs result store.new }
{
    let mut reader = rt.reader();
    let mut done = 0;
    // no for: a read says how far the loop comes
    while done < store.len() {
        let n = read_some(rt, &mut reader, &mut store[done..])?;
        if n == 0 {
            break;
        }
        done += n;
    }
    Some(done)
}

// Writes the whole text to standard output, or says that it could not.
pub fn write_output(rt: &(impl Print + Eprint), text: &[u8]) {
    if let Err(e) = rt.write_all(text) {
        let _ = eprintln!(rt; "chaffwheel: standard output cannot be written: {e}");
    }
}

// Prints what `say` puts at the front of out of the bytes that were read: it answers the length of its text. Where they could not be read nothing
// is said.
fn answer<F: FnOnce(&[u8], &mut [u8]) -> usize>(
    rt: &(impl Print + Eprint),
    input: Option<usize>,
    image: &[u8],
    out: &mut [u8],
    say: F,
)
    requires read { ReadAs input image.now }
    requires callable { F.IsAlwaysCallable say }
    requires fits { Fits F.FnOnce say }
    ensures { Answered (SaidBy F.FnOnce say) input image.now out.old out.new }
{
    let Some(n) = input else {
        return;
    };
    let len = say(&image[..n], out);
    write_output(rt, &out[..len]);
}

// Reads standard input into image, and prints what `say` puts at the front of out of what was read: it answers the length of its text. Where
// standard input could not be read nothing is said. It answers what was read, so that a program can say that this is what it printed of.
pub fn show<F: FnOnce(&[u8], &mut [u8]) -> usize>(
    rt: &(impl io::Input + Print + Eprint),
    image: &mut [u8],
    out: &mut [u8],
    say: F,
) -> Option<usize>
    requires callable { F.IsAlwaysCallable say }
    requires fits { Fits F.FnOnce say }
    ensures shown { Shown (SaidBy F.FnOnce say) image.new out.old out.new }
    ensures answered { Answered (SaidBy F.FnOnce say) result image.new out.old out.new }
{
    let input = read_input(rt, image);
    answer(rt, input, image, out, say);
    input
}

// Reads until buf is full, the input ends or a read fails, and returns how many bytes it put at the start of buf. On an empty buf it makes no
// call.
pub fn read_full(reader: &mut impl Read, buf: &mut [u8]) -> usize
    ensures { IsPrefixLen result buf.new }
{
    let mut at = 0;
    // likewise
    while at < buf.len() {
        let Ok(n) = reader.read(&mut buf[at..]) else {
            break;
        };
        if n == 0 {
            break;
        }
        at += n;
    }
    at
}
