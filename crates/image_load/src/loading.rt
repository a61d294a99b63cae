// The writing pass of loading: the items that judging passed are read again, and written into the stores.
ghost use Rattle.std.specs.Prelude.{◌≡◌, ◌<◌, ◌^◌};
ghost use Rattle.image_judge.specs.Links.{payload_at};
ghost use Rattle.model.specs.Stores.{stores_of as lent};
ghost use Rattle.image_load.specs.Fills.{ConstantsFit, ConstantsFilled, StructsFit, StructsFilled, RunsFit, RunsFilled, FunctionFits, FunctionFilled, OthersFit, OthersFilled, FunctionsFit, FunctionsFilled, Fits, LaidPost};

use image_judge::{Entry, Span, read_constant, read_head, read_run, read_text, wide};
use layout::ordered::{put_struct, spot};
use layout::reads::pack;
use layout::writes::{put_bytes, put_places, put_words};

// Where the next item begins, and where the next text goes.
#[derive(Clone, Copy)]
pub struct Filled {
    pub next: usize,
    pub text: usize,
}

// The payload of a constant whose text goes to t.
fn payload(p: Entry, t: usize) -> u64
    requires { (t < 2 ^ 32) × (p.len < 2 ^ 32) }
    ensures { result ≡ payload_at t p }
{
    if p.kind < 2 {
        return p.word;
    }
    pack(t, p.len)
}

// The constants, their texts from the start of the text store on.
fn load_constants(image: &[u8], at: usize, constants: &mut [u64], text: &mut [u8]) -> Filled
    requires { ConstantsFit image.now at constants.old text.old }
    ensures { ConstantsFilled image.now at constants.old text.old result constants.new text.new }
{
    let Some((n, first)) = number::read_number(image, at) else {
        return Filled { next: at, text: 0 };
    };
    let count = wide(n);
    let mut next = first;
    let mut t: usize = 0;
    for i in 0..count {
        let Ok(p) = read_constant(image, next) else {
            return Filled { next, text: t };
        };
        let word = payload(p, t);
        put_words(constants, i, p.kind, word);
        let from = p.from;
        let end = from + p.len;
        put_bytes(text, t, &image[from..end]);
        t += p.len;
        next = p.next;
    }
    Filled { next, text: t }
}

// The struct names, their texts from t0 on, and the number of each at its place in the order of names.
fn load_structs(image: &[u8], at: usize, structs: &mut [u64], text: &mut [u8], t0: usize) -> Filled
    requires { StructsFit image.now at t0 structs.old text.old }
    ensures { StructsFilled image.now at t0 structs.old text.old result structs.new text.new }
{
    let Some((n, first)) = number::read_number(image, at) else {
        return Filled { next: at, text: t0 };
    };
    let count = wide(n);
    let mut next = first;
    let mut t = t0;
    for i in 0..count {
        let Some((here, len)) = read_text(image, next) else {
            return Filled { next, text: t };
        };
        let behind = here + len;
        let place = spot(&image[here..behind], i, structs, text);
        put_bytes(text, t, &image[here..behind]);
        let word = pack(t, len);
        put_struct(structs, place, i, word);
        t += len;
        next = behind;
    }
    Filled { next, text: t }
}

// The places of `size` bytes of code, from c on; where the next item begins.
fn load_runs(image: &[u8], at: usize, size: usize, places: &mut [u32], c: usize) -> usize
    requires { RunsFit image.now at size c places.old }
    ensures { RunsFilled image.now at size c places.old result places.new }
{
    let mut next = at;
    let mut left = size;
    let mut before: usize = 4294967296;
    // Each run says how many bytes it covers, so this is no `for`.
    while 0 < left {
        let Ok(p) = read_run(image, next, left, before) else {
            return next;
        };
        let to = c + (size - left);
        put_places(places, to, p.bytes, p.place);
        before = wide(p.place);
        left -= p.bytes;
        next = p.next;
    }
    next
}

// Function i, its name from t on and its code from c on.
fn load_function(
    image: &[u8],
    at: usize,
    first: bool,
    functions: &mut [u64],
    i: usize,
    text: &mut [u8],
    t: usize,
    code: &mut [u8],
    places: &mut [u32],
    c: usize,
) -> Span
    requires { FunctionFits first image.now at i t c functions.old text.old code.old places.old }
    ensures { FunctionFilled first image.now at i t c functions.old text.old code.old places.old result functions.new text.new code.new places.new }
{
    let Ok(h) = read_head(image, at, first) else {
        return Span {
            next: at,
            name: 0,
            code: 0,
        };
    };
    let name = h.name;
    let len = h.len;
    let from = h.code;
    let size = h.size;
    let name_word = pack(t, len);
    let code_word = pack(c, size);
    put_words(functions, i, name_word, code_word);
    let name_end = name + len;
    put_bytes(text, t, &image[name..name_end]);
    let code_end = from + size;
    put_bytes(code, c, &image[from..code_end]);
    let next = load_runs(image, code_end, size, places, c);
    Span {
        next,
        name: len,
        code: size,
    }
}

// The n functions behind main, their names from t0 on.
fn load_others(
    image: &[u8],
    at: usize,
    n: usize,
    functions: &mut [u64],
    text: &mut [u8],
    t0: usize,
    code: &mut [u8],
    places: &mut [u32],
)
    requires { OthersFit n image.now at t0 functions.old text.old code.old places.old }
    ensures { OthersFilled n image.now at t0 functions.old text.old code.old places.old functions.new text.new code.new places.new }
{
    let mut next = at;
    let mut t = t0;
    let mut c: usize = 0;
    for i in 0..n {
        let number = i + 1;
        let f = load_function(
            image, next, false, functions, number, text, t, code, places, c,
        );
        t += f.name;
        c += f.code;
        next = f.next;
    }
}

// All functions, their names from t on.
fn load_functions(
    image: &[u8],
    at: usize,
    functions: &mut [u64],
    text: &mut [u8],
    t: usize,
    main: &mut [u8],
    main_places: &mut [u32],
    other: &mut [u8],
    other_places: &mut [u32],
)
    requires { FunctionsFit image.now at t functions.old text.old main.old main_places.old other.old other_places.old }
    ensures { FunctionsFilled image.now at t functions.old text.old main.old main_places.old other.old other_places.old functions.new text.new main.new main_places.new other.new other_places.new }
{
    let Some((n, first)) = number::read_number(image, at) else {
        return;
    };
    let count = wide(n);
    if count == 0 {
        return;
    }
    let m = load_function(
        image,
        first,
        true,
        functions,
        0,
        text,
        t,
        main,
        main_places,
        0,
    );
    load_others(
        image,
        m.next,
        count - 1,
        functions,
        text,
        t + m.name,
        other,
        other_places,
    );
}

// The whole image, which was judged and fits.
pub fn load_all(
    image: &[u8],
    constants: &mut [u64],
    structs: &mut [u64],
    functions: &mut [u64],
    text: &mut [u8],
    main: &mut [u8],
    main_places: &mut [u32],
    other: &mut [u8],
    other_places: &mut [u32],
)
    requires { Fits image.now (lent constants.old structs.old functions.old text.old main.old main_places.old other.old other_places.old) }
    ensures { LaidPost image.now (lent constants.old structs.old functions.old text.old main.old main_places.old other.old other_places.old) (lent constants.new structs.new functions.new text.new main.new main_places.new other.new other_places.new) }
{
    let c = load_constants(image, 0, constants, text);
    let s = load_structs(image, c.next, structs, text, c.text);
    load_functions(
        image,
        s.next,
        functions,
        text,
        s.text,
        main,
        main_places,
        other,
        other_places,
    );
}
