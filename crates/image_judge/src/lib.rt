// What a rule image says, item by item, and whether it breaks a rule. A place is an offset in the image.
#![tactic(auto)]

mod repeats; // repeats.rt: the first struct name that is there again

ghost use Rattle.std.specs.Prelude.{◌≡◌, ◌+◌, ◌≤◌, ◌<◌, length};
ghost use Rattle.model.specs.Images.{word_of, read_body, read_constant, read_constants, read_structs, main_first};
ghost use Rattle.model.specs.Loading.{constant_text};
ghost use Rattle.image_judge.specs.Links.{part_of, TextPost, ItemPost, CheckPost, RunPost, RunsPost, HeadPost, SpanPost, OthersPost, FunctionsPost, JudgePost, refused};

use layout::reads::same_bytes;
use model::{CODE_LIMIT, Refusal};

// Where an image breaks a rule: the offset of the first item that does.
#[derive(Clone, Copy)]
pub enum Broken {
    At(usize),
}

// A broken image is refused with that offset.
impl From<Broken> for Refusal {
    ghost from_gives = { λ b e. e ≡ refused b };

    fn from(broken: Broken) -> Refusal {
        let Broken::At(offset) = broken;
        Refusal::BrokenImage(offset)
    }
}

// ---- texts

// A number as a length or a count. The proofs of the crates above cite this contract.
pub fn wide(n: u32) -> usize
    ensures { (result ≡ n) × (result < 4294967296) }
{
    n as usize
}

// The text at a place.
pub fn read_text(image: &[u8], at: usize) -> Option<(usize, usize)>
    requires { at ≤ length image.now }
    ensures { TextPost image.now at result }
{
    let (n, start) = number::read_number(image, at)?;
    let len = wide(n);
    if image.len() - start < len {
        return None;
    }
    Some((start, len))
}

// ---- constants

// A constant of the image: its kind, the payload of one that has no text, where its text is, and where the next item begins.
#[derive(Clone, Copy)]
pub struct Entry {
    pub kind: u64,
    pub word: u64,
    pub from: usize,
    pub len: usize,
    pub next: usize,
}

// The number of the eight bytes at a place, low first.
fn word_at(image: &[u8], at: usize) -> u64
    requires { at + 8 ≤ length image.now }
    ensures { result ≡ word_of (part_of image.now at 8) }
{
    let mut bytes = [0u8; 8];
    bytes.copy_from_slice(&image[at..at + 8]);
    u64::from_le_bytes(bytes)
}

// A scalar's eight bytes.
fn read_scalar(image: &[u8], at: usize) -> Result<Entry, Broken>
    requires { at ≤ length image.now }
    ensures { ItemPost (read_body 0) image.now at result }
{
    if image.len() - at < 8 {
        return Err(Broken::At(at));
    }
    let word = word_at(image, at);
    Ok(Entry {
        kind: 0,
        word,
        from: at,
        len: 0,
        next: at + 8,
    })
}

// A boolean's byte, 0 or 1.
fn read_flag(image: &[u8], at: usize) -> Result<Entry, Broken>
    requires { at ≤ length image.now }
    ensures { ItemPost (read_body 1) image.now at result }
{
    if image.len() <= at {
        return Err(Broken::At(at));
    }
    let word = image[at] as u64;
    if 1 < word {
        return Err(Broken::At(at));
    }
    Ok(Entry {
        kind: 1,
        word,
        from: at,
        len: 0,
        next: at + 1,
    })
}

// A string or a reference, by its kind.
fn read_letters(image: &[u8], at: usize, kind: u64) -> Result<Entry, Broken>
    requires { (at ≤ length image.now) × ((1 < kind) × (kind < 4)) }
    ensures { ItemPost (read_body kind) image.now at result }
{
    let Some((from, len)) = read_text(image, at) else {
        return Err(Broken::At(at));
    };
    Ok(Entry {
        kind,
        word: 0,
        from,
        len,
        next: from + len,
    })
}

// The constant at a place.
pub fn read_constant(image: &[u8], at: usize) -> Result<Entry, Broken>
    requires { at ≤ length image.now }
    ensures { ItemPost (read_constant tt) image.now at result }
{
    let Some((kind, next)) = number::read_number(image, at) else {
        return Err(Broken::At(at));
    };
    if 3 < kind {
        return Err(Broken::At(at));
    }
    if kind == 0 {
        return read_scalar(image, next);
    }
    if kind == 1 {
        return read_flag(image, next);
    }
    read_letters(image, next, kind as u64)
}

// ---- judging: each item is read once, and no store is touched

// A section that breaks no rule: where the next item begins, how many it holds, and how many bytes of text.
#[derive(Clone, Copy)]
pub struct Section {
    pub next: usize,
    pub count: usize,
    pub text: usize,
}

// Judges the constants.
fn check_constants(image: &[u8], at: usize) -> Result<Section, Broken>
    requires { at ≤ length image.now }
    ensures { CheckPost read_constants constant_text image.now at result }
{
    let Some((n, first)) = number::read_number(image, at) else {
        return Err(Broken::At(at));
    };
    let count = wide(n);
    let mut next = first;
    let mut text: usize = 0;
    for _ in 0..count {
        let p = read_constant(image, next)?;
        text += p.len;
        next = p.next;
    }
    Ok(Section { next, count, text })
}

// Judges the struct names, all different.
fn check_structs(image: &[u8], at: usize) -> Result<Section, Broken>
    requires { at ≤ length image.now }
    ensures { CheckPost read_structs (λ n. n) image.now at result }
{
    let Some((n, first)) = number::read_number(image, at) else {
        return Err(Broken::At(at));
    };
    let count = wide(n);
    let whole = repeats::rows(image, first, count);
    let repeat = repeats::first_repeat(image, first, whole);
    let mut next = first;
    let mut text: usize = 0;
    for i in 0..count {
        let Some((here, len)) = read_text(image, next) else {
            return Err(Broken::At(next));
        };
        if i == repeat {
            return Err(Broken::At(next));
        }
        text += len;
        next = here + len;
    }
    Ok(Section { next, count, text })
}

// A run of code bytes with one place, and where the next item begins.
#[derive(Clone, Copy)]
pub struct Run {
    pub bytes: usize,
    pub place: u32,
    pub next: usize,
}

// The run at a place, where `left` bytes of code have no place yet and the run before it has the place `before`.
pub fn read_run(image: &[u8], at: usize, left: usize, before: usize) -> Result<Run, Broken>
    requires { at ≤ length image.now }
    ensures { RunPost image.now at left before result }
{
    let Some((n, mid)) = number::read_number(image, at) else {
        return Err(Broken::At(at));
    };
    let bytes = wide(n);
    if bytes == 0 {
        return Err(Broken::At(at));
    }
    if left < bytes {
        return Err(Broken::At(at));
    }
    let Some((place, next)) = number::read_number(image, mid) else {
        return Err(Broken::At(mid));
    };
    if before == wide(place) {
        return Err(Broken::At(mid));
    }
    Ok(Run { bytes, place, next })
}

// Judges the runs of `size` bytes of code.
pub fn check_runs(image: &[u8], at: usize, size: usize) -> Result<usize, Broken>
    requires { at ≤ length image.now }
    ensures { RunsPost image.now at size result }
{
    let mut next = at;
    let mut left = size;
    let mut before: usize = 4294967296;
    // Each run says how many bytes it covers, so this is no `for`.
    while 0 < left {
        let p = read_run(image, next, left, before)?;
        before = wide(p.place);
        left -= p.bytes;
        next = p.next;
    }
    Ok(next)
}

// A function up to its runs: where its name and its code begin, and how long they are.
#[derive(Clone, Copy)]
pub struct Head {
    pub name: usize,
    pub len: usize,
    pub code: usize,
    pub size: usize,
}

// Whether a name may stand there: the first function is `<main>`.
fn may_be(name: &[u8], first: bool) -> bool
    ensures { result ≡ main_first first name.now }
{
    if first {
        return same_bytes(name, b"<main>");
    }
    true
}

// The head of the function at a place.
pub fn read_head(image: &[u8], at: usize, first: bool) -> Result<Head, Broken>
    requires { at ≤ length image.now }
    ensures { HeadPost first image.now at result }
{
    let Some((name, len)) = read_text(image, at) else {
        return Err(Broken::At(at));
    };
    let behind = name + len;
    if !may_be(&image[name..behind], first) {
        return Err(Broken::At(at));
    }
    let Some((n, code)) = number::read_number(image, behind) else {
        return Err(Broken::At(behind));
    };
    let size = wide(n);
    if image.len() - code < size {
        return Err(Broken::At(code));
    }
    Ok(Head {
        name,
        len,
        code,
        size,
    })
}

// A whole function: where the next item begins, and the lengths of its name and its code.
#[derive(Clone, Copy)]
pub struct Span {
    pub next: usize,
    pub name: usize,
    pub code: usize,
}

// Judges the function at a place.
fn check_function(image: &[u8], at: usize, first: bool) -> Result<Span, Broken>
    requires { at ≤ length image.now }
    ensures { SpanPost first image.now at result }
{
    let h = read_head(image, at, first)?;
    let runs = h.code + h.size;
    let next = check_runs(image, runs, h.size)?;
    Ok(Span {
        next,
        name: h.len,
        code: h.size,
    })
}

// Functions behind main: where the next item begins, the bytes of their names and of their code, and whether each code is within the limit.
#[derive(Clone, Copy)]
pub struct Others {
    pub next: usize,
    pub text: usize,
    pub code: usize,
    pub within: bool,
}

// Judges n functions behind main.
fn check_others(image: &[u8], at: usize, n: usize) -> Result<Others, Broken>
    requires { at ≤ length image.now }
    ensures { OthersPost n image.now at result }
{
    let mut next = at;
    let mut text: usize = 0;
    let mut code: usize = 0;
    let mut within = true;
    for _ in 0..n {
        let p = check_function(image, next, false)?;
        text += p.name;
        code += p.code;
        within &= p.code <= CODE_LIMIT;
        next = p.next;
    }
    Ok(Others {
        next,
        text,
        code,
        within,
    })
}

// All functions: where main begins, where the image ends, how many they are, the bytes of their names, of main's code and of the others', and whether each code
// is within the limit.
#[derive(Clone, Copy)]
pub struct Ended {
    pub first: usize,
    pub next: usize,
    pub count: usize,
    pub text: usize,
    pub main: usize,
    pub other: usize,
    pub within: bool,
}

// Judges the functions.
fn check_functions(image: &[u8], at: usize) -> Result<Ended, Broken>
    requires { at ≤ length image.now }
    ensures { FunctionsPost image.now at result }
{
    let Some((n, first)) = number::read_number(image, at) else {
        return Err(Broken::At(at));
    };
    let count = wide(n);
    if count == 0 {
        return Err(Broken::At(at));
    }
    let m = check_function(image, first, true)?;
    let z = check_others(image, m.next, count - 1)?;
    Ok(Ended {
        first,
        next: z.next,
        count,
        text: m.name + z.text,
        main: m.code,
        other: z.code,
        within: (m.code <= CODE_LIMIT) & z.within,
    })
}

// What an image needs of the stores, whether each code is within the limit, and where its first function begins.
#[derive(Clone, Copy)]
pub struct Sizes {
    pub constants: usize,
    pub structs: usize,
    pub functions: usize,
    pub text: usize,
    pub main: usize,
    pub other: usize,
    pub within: bool,
    pub first: usize,
}

// Judges a whole image.
pub fn judge(image: &[u8]) -> Result<Sizes, Broken>
    ensures { JudgePost image.now result }
{
    let c = check_constants(image, 0)?;
    let s = check_structs(image, c.next)?;
    let f = check_functions(image, s.next)?;
    if f.next < image.len() {
        return Err(Broken::At(f.next));
    }
    Ok(Sizes {
        constants: c.count,
        structs: s.count,
        functions: f.count,
        text: c.text + s.text + f.text,
        main: f.main,
        other: f.other,
        within: f.within,
        first: f.first,
    })
}
