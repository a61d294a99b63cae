// A backtrace: three numbers to an entry, the function, the place and when it was entered, the innermost frame first.
ghost use Rattle.std.specs.Prelude.{◌≡◌, [], ◌∷◌, ◌+◌, ◌-◌, ◌*◌, ◌<◌, ◌≤◌, length, get_or};
ghost use Rattle.model.specs.Stores.{start, code_word};
ghost use Rattle.frames.specs.Links.{callers_of, place_of, trace_words, written, inside_good, trace_good, Readable, TraceFits};

use crate::order::code_length;
use layout::reads::{second, start_of};
use model::Frame;

// The byte before a position, or byte 0.
fn byte_before(position: usize) -> usize
    ensures { result ≡ position - 1 }
{
    if position > 0 {
        return position - 1;
    }
    0
}

// Where the code of function i starts.
fn code_start(functions: &[u64], i: usize) -> usize
    ensures { result ≡ start (code_word functions.now i) }
{
    start_of(second(functions, i))
}

fn number_at(places: &[u32], begin: usize, byte: usize) -> u32
    requires { begin + byte < length places.now }
    ensures { result ≡ get_or places.now (begin + byte) 0 }
{
    let at = begin + byte;
    places[at]
}

fn place_of(functions: &[u64], main_places: &[u32], other_places: &[u32], f: Frame) -> u32
    requires { Readable functions.now main_places.now other_places.now f }
    ensures { result ≡ place_of functions.now main_places.now other_places.now f }
{
    let function = f.function;
    let begin = code_start(functions, function);
    let position = f.position;
    let byte = byte_before(position);
    if function == 0 {
        return number_at(main_places, begin, byte);
    }
    number_at(other_places, begin, byte)
}

// Writes entry k, which is the frame f's.
fn put_entry(
    functions: &[u64],
    main_places: &[u32],
    other_places: &[u32],
    k: usize,
    f: Frame,
    out: &mut [u64],
)
    requires { Readable functions.now main_places.now other_places.now f × (3 * k + 3 ≤ length out.old) }
    ensures { out.new ≡ written out.old (3 * k) (trace_words functions.now main_places.now other_places.now (f ∷ [])) }
{
    let j = 3 * k;
    let place = place_of(functions, main_places, other_places, f);
    out[j] = f.function as u64;
    out[j + 1] = place as u64;
    out[j + 2] = f.entered;
}

// Writes the backtrace of the innermost frame and its callers to the first numbers of `out`.
pub fn trace(
    functions: &[u64],
    main_places: &[u32],
    other_places: &[u32],
    inner: Frame,
    callers: usize,
    frames: &[Frame],
    out: &mut [u64],
)
    requires { TraceFits functions.now main_places.now other_places.now inner callers frames.now (length out.old) }
    ensures { out.new ≡ written out.old 0 (trace_words functions.now main_places.now other_places.now (inner ∷ callers_of callers frames.now)) }
{
    put_entry(functions, main_places, other_places, 0, inner, out);
    for i in (0..callers).rev() {
        put_entry(
            functions,
            main_places,
            other_places,
            callers - i,
            frames[i],
            out,
        );
    }
}

fn inside_ok(functions: &[u64], f: Frame) -> bool
    ensures { result ≡ inside_good functions.now f }
{
    let function = f.function;
    if function >= functions.len() / 2 {
        return false;
    }
    let length = code_length(functions, function);
    let position = f.position;
    let byte = byte_before(position);
    byte < length
}

// Whether the place of every frame of the backtrace lies inside its code.
pub fn traceable(functions: &[u64], inner: Frame, callers: usize, frames: &[Frame]) -> bool
    requires { callers ≤ length frames.now }
    ensures { result ≡ trace_good functions.now (inner ∷ callers_of callers frames.now) }
{
    inside_ok(functions, inner) && frames[..callers].iter().all(|f| inside_ok(functions, *f))
}
