// Where the code of each function stands in an image that was judged.
#![tactic(auto)]

ghost use Rattle.std.specs.Prelude.{◌≤◌, length};
ghost use Rattle.image_codes.specs.Links.{CodePost};

use image_judge::{check_runs, read_head};

// The code of a function, and where the next function begins.
#[derive(Clone, Copy)]
pub struct Code {
    pub from: usize,
    pub size: usize,
    pub next: usize,
}

// The function at a place.
pub fn code_at(image: &[u8], at: usize, first: bool) -> Code
    requires { at ≤ length image.now }
    ensures { CodePost first image.now at result }
{
    let none = Code {
        from: at,
        size: 0,
        next: at,
    };
    let Ok(h) = read_head(image, at, first) else {
        return none;
    };
    let from = h.code;
    let size = h.size;
    let Ok(next) = check_runs(image, from + size, size) else {
        return none;
    };
    Code { from, size, next }
}
