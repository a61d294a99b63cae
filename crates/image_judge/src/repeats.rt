// The first text that was there before, among texts that stand one behind the other. They are taken in chunks, each kept in the order of names: a text
// is found by halves, and what is put in moves few others, however many texts there are.
ghost use Rattle.std.specs.Prelude.{◌≡◌, ◌≤◌, length};
ghost use Rattle.image_judge.specs.Repeats.{place_of, Rows, RowsPost, RepeatPost, Holds, TakenPost, LookPost, ChunkPost};

use crate::read_text;
use layout::ordered::{put_struct, spot, stands};
use layout::reads::{lesser, pack};
use model::MOST_PLACES;

// How many texts stand one behind the other from a place on, n at most.
pub fn rows(image: &[u8], at: usize, n: usize) -> usize
    requires { at ≤ length image.now }
    ensures { RowsPost image.now at n result }
{
    let mut next = at;
    for i in 0..n {
        let Some((here, len)) = read_text(image, next) else {
            return i;
        };
        next = here + len;
    }
    n
}

// The texts that a chunk took: how many, where the next one stands, and whether that one is there already.
#[derive(Clone, Copy)]
pub struct Taken {
    pub count: usize,
    pub next: usize,
    pub again: bool,
}

// Takes texts from a place on into a chunk, n at most, to the first that is there already.
fn take_in(image: &[u8], from: usize, n: usize, structs: &mut [u64]) -> Taken
    requires { Rows image.now from n }
    ensures { TakenPost image.now from n result structs.old structs.new }
{
    let most = lesser(n, structs.len() / 2);
    let end = image.len();
    let mut next = from;
    for i in 0..most {
        let Some((here, len)) = read_text(image, next) else {
            return Taken {
                count: i,
                next,
                again: false,
            };
        };
        let behind = here + len;
        let place = spot(&image[here..behind], i, structs, &image[from..end]);
        if stands(&image[here..behind], place, i, structs, &image[from..end]) {
            return Taken {
                count: i,
                next,
                again: true,
            };
        }
        let start = here - from;
        if MOST_PLACES < start {
            return Taken {
                count: i,
                next,
                again: false,
            };
        }
        let word = pack(start, len);
        put_struct(structs, place, i, word);
        next = behind;
    }
    Taken {
        count: most,
        next,
        again: false,
    }
}

// The first of the texts k to n - 1 that is in the chunk of the first k; text k stands at a place.
fn look_in(image: &[u8], from: usize, n: usize, k: usize, at: usize, structs: &[u64]) -> usize
    requires { Rows image.now from n × ((k ≤ n) × ((at ≡ place_of image.now from k) × Holds image.now from k structs.now)) }
    ensures { LookPost image.now from n k result }
{
    let end = image.len();
    let mut next = at;
    for i in k..n {
        let Some((here, len)) = read_text(image, next) else {
            return i;
        };
        let behind = here + len;
        let place = spot(&image[here..behind], k, structs, &image[from..end]);
        if stands(&image[here..behind], place, k, structs, &image[from..end]) {
            return i;
        }
        next = behind;
    }
    n
}

// A chunk: how many texts it took, where the next one stands, and the first text that is there again.
#[derive(Clone, Copy)]
pub struct Chunk {
    pub count: usize,
    pub next: usize,
    pub repeat: usize,
}

// Holds n texts against the chunk of the first of them.
fn against_chunk(image: &[u8], from: usize, n: usize, structs: &mut [u64]) -> Chunk
    requires { Rows image.now from n × (2 ≤ length structs.old) }
    ensures { ChunkPost image.now from n result }
{
    let t = take_in(image, from, n, structs);
    let count = t.count;
    let next = t.next;
    if t.again {
        return Chunk {
            count,
            next,
            repeat: count,
        };
    }
    let repeat = look_in(image, from, n, count, next, structs);
    Chunk {
        count,
        next,
        repeat,
    }
}

// The first of n texts that is the same as an earlier one, else n. The chunks stand one after another in the same words.
fn over_chunks(image: &[u8], at: usize, n: usize, structs: &mut [u64]) -> usize
    requires { Rows image.now at n × (2 ≤ length structs.old) }
    ensures { RepeatPost image.now at n result }
{
    let mut repeat = n;
    let mut next = at;
    let mut done: usize = 0;
    // Each step is as long as its chunk, so this is no `for`.
    while done < repeat {
        let left = repeat - done;
        let c = against_chunk(image, next, left, structs);
        repeat = done + c.repeat;
        done = done + c.count;
        next = c.next;
    }
    repeat
}

// The same, in few words where there are few texts: an array is filled with zeros before it is used.
pub fn first_repeat(image: &[u8], at: usize, n: usize) -> usize
    requires { Rows image.now at n }
    ensures { RepeatPost image.now at n result }
{
    if n <= 64 {
        let mut few = [0u64; 128];
        return over_chunks(image, at, n, &mut few);
    }
    let mut many = [0u64; 32768];
    over_chunks(image, at, n, &mut many)
}
