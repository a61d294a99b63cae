// Saving: the image of a program, written into a lent slice as far as it fits. With an empty slice it is only counted.
ghost use Rattle.layout.specs.Lent.{stores_in};
ghost use Rattle.std.specs.Prelude.{◌≡◌, true, [], ◌∷◌, ◌-◌, ◌≤◌, ◌<◌, length};
ghost use Rattle.model.specs.Numbers.{digits};
ghost use Rattle.model.specs.Values.{text_at};
ghost use Rattle.model.specs.Images.{joined, counted, bytes_of, text_image, constant_image, run_image, runs_of, function_image, image_of};
ghost use Rattle.model.specs.Stores.{constant_in, constants_from, structs_from, program_in};
ghost use Rattle.model.specs.Orders.{program_ok};
ghost use Rattle.image_save.specs.Puts.{Put, Near, TextPuts, ConstantPuts, ConstantsPut, StructsPut, SameRun, RunsPut, function_here, FunctionPuts, functions_here, FunctionsPut};

use layout::lent::ProgramStores;
use layout::reads::{first, part, second, size_of, start_of};
use layout::writes::put_bytes;
use model::Counts;

// A number. Each of these gives the place behind what it puts.
fn put_number(out: &mut [u8], at: usize, n: u32) -> usize
    requires { Near at (digits n) }
    ensures { Put (digits n) out.old at out.new result }
{
    let mut bytes = [0u8; 5];
    let len = number::write_number(&mut bytes, 0, n);
    put_part(out, at, &bytes[..len])
}

// Bytes.
fn put_part(out: &mut [u8], at: usize, bytes: &[u8]) -> usize
    requires { Near at bytes.now }
    ensures { Put bytes.now out.old at out.new result }
{
    let next = at + bytes.len();
    if next <= out.len() {
        put_bytes(out, at, bytes);
        return next;
    }
    if at < out.len() {
        let left = out.len() - at;
        put_bytes(out, at, &bytes[..left]);
        return next;
    }
    next
}

// A text as length and bytes.
fn put_text(out: &mut [u8], at: usize, bytes: &[u8]) -> usize
    requires { TextPuts at bytes.now }
    ensures { Put (text_image bytes.now) out.old at out.new result }
{
    let n = bytes.len() as u32;
    let mid = put_number(out, at, n);
    put_part(out, mid, bytes)
}

// Eight bytes, low first.
fn put_word(out: &mut [u8], at: usize, w: u64) -> usize
    requires { Near at (bytes_of 8 w) }
    ensures { Put (bytes_of 8 w) out.old at out.new result }
{
    put_part(out, at, &w.to_le_bytes())
}

// The constant that a kind and a payload stand for.
fn put_constant(out: &mut [u8], at: usize, kind: u64, payload: u64, text: &[u8]) -> usize
    requires { ConstantPuts at text.now kind payload }
    ensures { Put (constant_image (constant_in text.now kind payload)) out.old at out.new result }
{
    let k = kind as u32;
    let mid = put_number(out, at, k);
    if kind == 0 {
        return put_word(out, mid, payload);
    }
    if kind == 1 {
        let flag = payload as u32;
        return put_number(out, mid, flag);
    }
    let bytes = part(text, payload);
    put_text(out, mid, bytes)
}

// The count of the constants, and each.
fn put_constants(out: &mut [u8], at: usize, n: usize, constants: &[u64], text: &[u8]) -> usize
    requires { ConstantsPut at n constants.now text.now }
    ensures { Put (counted constant_image (constants_from n 0 constants.now text.now)) out.old at out.new result }
{
    let count = n as u32;
    let mut next = put_number(out, at, count);
    for i in 0..n {
        let kind = first(constants, i);
        let payload = second(constants, i);
        next = put_constant(out, next, kind, payload, text);
    }
    next
}

// The count of the struct names, and each.
fn put_structs(out: &mut [u8], at: usize, n: usize, structs: &[u64], text: &[u8]) -> usize
    requires { StructsPut at n structs.now text.now }
    ensures { Put (counted text_image (structs_from n 0 structs.now text.now)) out.old at out.new result }
{
    let count = n as u32;
    let mut next = put_number(out, at, count);
    for i in 0..n {
        let w = first(structs, i);
        let name = part(text, w);
        next = put_text(out, next, name);
    }
    next
}

// How many neighbours from i on, before `to`, have the place of the first.
fn run_length(places: &[u32], i: usize, to: usize) -> usize
    requires { (i < to) × (to ≤ length places.now) }
    ensures { SameRun places.now i to result }
{
    let place = places[i];
    places[i..to]
        .iter()
        .position(|p| *p != place)
        .unwrap_or(to - i)
}

// The runs of the places from `from` on, before `to`.
fn put_runs(out: &mut [u8], at: usize, places: &[u32], from: usize, to: usize) -> usize
    requires { RunsPut at places.now from to }
    ensures { Put (joined run_image (runs_of (text_at places.now from (to - from)))) out.old at out.new result }
{
    let mut next = at;
    let mut i = from;
    // Each step is as long as its run, so this is no `for`.
    while i < to {
        let n = run_length(places, i, to);
        let bytes = n as u32;
        let mid = put_number(out, next, bytes);
        let place = places[i];
        next = put_number(out, mid, place);
        i += n;
    }
    next
}

// Function i: its name, code length, code, then runs.
fn put_function(
    out: &mut [u8],
    at: usize,
    functions: &[u64],
    i: usize,
    text: &[u8],
    code: &[u8],
    places: &[u32],
) -> usize
    requires { FunctionPuts at functions.now i text.now code.now places.now }
    ensures { Put (function_image (function_here functions.now i text.now code.now places.now)) out.old at out.new result }
{
    let name_word = first(functions, i);
    let code_word = second(functions, i);
    let name = part(text, name_word);
    let a = put_text(out, at, name);
    let bytes = part(code, code_word);
    let n = bytes.len() as u32;
    let b = put_number(out, a, n);
    let d = put_part(out, b, bytes);
    let from = start_of(code_word);
    let to = from + size_of(code_word);
    put_runs(out, d, places, from, to)
}

// All functions: main, then the others.
fn put_functions(out: &mut [u8], at: usize, n: usize, stores: &ProgramStores) -> usize
    requires { FunctionsPut at n stores.now.functions.now stores.now.text.now stores.now.main.now stores.now.main_places.now stores.now.other.now stores.now.other_places.now }
    ensures { Put (counted function_image (functions_here n 0 stores.now.functions.now stores.now.text.now stores.now.main.now stores.now.main_places.now stores.now.other.now stores.now.other_places.now)) out.old at out.new result }
{
    let ProgramStores {
        functions,
        text,
        ..
    } = *stores;
    let count = n as u32;
    let behind = put_number(out, at, count);
    let mut next = put_function(
        out,
        behind,
        functions,
        0,
        text,
        stores.main,
        stores.main_places,
    );
    for i in 1..n {
        next = put_function(
            out,
            next,
            functions,
            i,
            text,
            stores.other,
            stores.other_places,
        );
    }
    next
}

// The image of a program that is in good order.
pub fn put_image(out: &mut [u8], c: Counts, stores: &ProgramStores) -> usize
    requires { program_ok c (stores_in stores.now) ≡ true }
    ensures { Put (image_of (program_in c (stores_in stores.now))) out.old 0 out.new result }
{
    let a = put_constants(out, 0, c.constants, stores.constants, stores.text);
    let b = put_structs(out, a, c.structs, stores.structs, stores.text);
    put_functions(out, b, c.functions, stores)
}
