// Which item of an image begins at an offset, for whoever is told where an image breaks a rule.
#![tactic(auto)]

ghost use Rattle.std.specs.Prelude.{◌≡◌, ◌≤◌, length};
ghost use Rattle.image_items.specs.Parts.{part_at, constant_part, struct_part, code_part, function_part, entry_part, row_part, section_part, SoughtPost};

use image_judge::{check_runs, read_constant, read_text, wide};
use number::read_number;

// The three rows of an image, each behind its count.
#[derive(Clone, Copy)]
pub enum Row {
    Constants,
    Structs,
    Functions,
}

// An item: a row's count; of a constant its kind or its value; a struct's name; of a function its name, its code's length, its code or its places; or what
// stands behind the last function.
#[derive(Clone, Copy)]
pub enum Part {
    Count(Row),
    Kind(usize),
    Value(usize),
    Struct(usize),
    Name(usize),
    Length(usize),
    Code(usize),
    Places(usize),
    Behind,
    Nowhere,
}

// The item that is looked for, or where the next one begins.
#[derive(Clone, Copy)]
pub enum Sought {
    Is(Part),
    On(usize),
}

// ---- an entry, with number k, which begins at a place; o is the offset that is looked for

// A constant.
fn constant_part(image: &[u8], o: usize, k: usize, at: usize) -> Sought
    requires { at ≤ length image.now }
    ensures { SoughtPost image.now (constant_part image.now o k at) result }
{
    if at == o {
        return Sought::Is(Part::Kind(k));
    }
    let Some((_, value)) = read_number(image, at) else {
        return Sought::Is(Part::Nowhere);
    };
    if value == o {
        return Sought::Is(Part::Value(k));
    }
    let Ok(p) = read_constant(image, at) else {
        return Sought::Is(Part::Nowhere);
    };
    Sought::On(p.next)
}

// A struct's name.
fn struct_part(image: &[u8], o: usize, k: usize, at: usize) -> Sought
    requires { at ≤ length image.now }
    ensures { SoughtPost image.now (struct_part image.now o k at) result }
{
    if at == o {
        return Sought::Is(Part::Struct(k));
    }
    let Some((from, len)) = read_text(image, at) else {
        return Sought::Is(Part::Nowhere);
    };
    let next = from + len;
    Sought::On(next)
}

// A function's code of n bytes, and its places.
fn code_part(image: &[u8], o: usize, k: usize, n: usize, code: usize) -> Sought
    requires { code ≤ length image.now }
    ensures { SoughtPost image.now (code_part image.now o k n code) result }
{
    if code == o {
        return Sought::Is(Part::Code(k));
    }
    if image.len() - code < n {
        return Sought::Is(Part::Nowhere);
    }
    let Ok(next) = check_runs(image, code + n, n) else {
        return Sought::Is(Part::Places(k));
    };
    if o < next {
        return Sought::Is(Part::Places(k));
    }
    Sought::On(next)
}

// A function.
fn function_part(image: &[u8], o: usize, k: usize, at: usize) -> Sought
    requires { at ≤ length image.now }
    ensures { SoughtPost image.now (function_part image.now o k at) result }
{
    if at == o {
        return Sought::Is(Part::Name(k));
    }
    let Some((from, len)) = read_text(image, at) else {
        return Sought::Is(Part::Nowhere);
    };
    let behind = from + len;
    if behind == o {
        return Sought::Is(Part::Length(k));
    }
    let Some((n, code)) = read_number(image, behind) else {
        return Sought::Is(Part::Nowhere);
    };
    let size = wide(n);
    code_part(image, o, k, size, code)
}

// An entry of a row.
fn entry_part(w: Row, image: &[u8], o: usize, k: usize, at: usize) -> Sought
    requires { at ≤ length image.now }
    ensures { SoughtPost image.now (entry_part w image.now o k at) result }
{
    match w {
        Row::Constants => constant_part(image, o, k, at),
        Row::Structs => struct_part(image, o, k, at),
        Row::Functions => function_part(image, o, k, at),
    }
}

// ---- the rows

// The n entries of a row.
fn row_part(w: Row, image: &[u8], o: usize, n: usize, at: usize) -> Sought
    requires { at ≤ length image.now }
    ensures { SoughtPost image.now (row_part w image.now o 0 n at) result }
{
    let mut next = at;
    for k in 0..n {
        let found = entry_part(w, image, o, k, next);
        let Sought::On(behind) = found else {
            return found;
        };
        next = behind;
    }
    Sought::On(next)
}

// A row with its count.
fn section_part(w: Row, image: &[u8], o: usize, at: usize) -> Sought
    requires { at ≤ length image.now }
    ensures { SoughtPost image.now (section_part w image.now o at) result }
{
    if at == o {
        return Sought::Is(Part::Count(w));
    }
    let Some((n, first)) = read_number(image, at) else {
        return Sought::Is(Part::Nowhere);
    };
    let count = wide(n);
    row_part(w, image, o, count, first)
}

// The item of an image that begins at offset o; of what cannot be read up to there, nothing is told.
pub fn part_at(image: &[u8], o: usize) -> Part
    ensures { result ≡ part_at image.now o }
{
    match section_part(Row::Constants, image, o, 0) {
        Sought::Is(p) => p,
        Sought::On(structs) => match section_part(Row::Structs, image, o, structs) {
            Sought::Is(p) => p,
            Sought::On(functions) => match section_part(Row::Functions, image, o, functions) {
                Sought::Is(p) => p,
                Sought::On(end) => {
                    if end == o {
                        return Part::Behind;
                    }
                    Part::Nowhere
                }
            },
        },
    }
}
