// What the runner and the lister print, as bytes in a lent store.
#![tactic(auto)]

mod playing; // playing.rt: one run on call frames of its own

ghost use Rattle.std.specs.Prelude.{◌≡◌, true, replicate};
ghost use Rattle.model.specs.Runs.{root};
ghost use Rattle.model.specs.Machines.{fresh, start_with};
ghost use Rattle.model.specs.Reports.{report_of, empty_stores, empty_lent, lister_text, started, runner_text};
ghost use Rattle.layout.specs.Lent.{stores_in};
ghost use Rattle.report_lines.specs.Links.{printed};
ghost use Rattle.report.specs.Links.{image_text};

use crate::playing::play;
use image_load::load;
use layout::lent::ProgramStores;
use model::{Counts, Refusal};
use report_lines::{print_refused, print_report};
use report_listed::list_loaded;
use run_ends::fresh_vm;

// The report of one run of a program, in stores of its own.
fn run_program(c: Counts, stores: &ProgramStores, out: &mut [u8]) -> usize
    ensures { record { count = result; out = out.new } ≡ printed (report_of (fresh c) (stores_in stores.now) (empty_lent (replicate 256 (root 0))) 1000000) out.old }
{
    stores.code_is_bytes();
    let mut stack = [0u64; 2048];
    let mut cells = [0u64; 4096];
    let mut copy = [0u64; 2048];
    let mut backtrace = [0u64; 768];
    let m = fresh_vm(c);
    let r = play(
        m,
        1000000,
        stores,
        &mut stack,
        &mut cells,
        &mut copy,
        &mut backtrace,
    );
    print_report(r, &cells, &backtrace, out)
}

// The report of what was loaded, or why nothing was.
fn run_loaded(loaded: Result<Counts, Refusal>, stores: &ProgramStores, out: &mut [u8]) -> usize
    ensures { record { count = result; out = out.new } ≡ printed (started (start_with loaded (stores_in stores.now) empty_stores (replicate 256 (root 0)))) out.old }
{
    match loaded {
        Ok(c) => run_program(c, stores, out),
        Err(why) => print_refused(why, out),
    }
}

// An image of at most 16,384 bytes, loaded into stores of its own, and run or listed.
fn print_image(runs: bool, image: &[u8], out: &mut [u8]) -> usize
    ensures { record { count = result; out = out.new } ≡ printed (image_text runs image.now) out.old }
{
    if 16384 < image.len() {
        return print_refused(Refusal::OverLimit, out);
    }
    let mut constants = [0u64; 512];
    let mut structs = [0u64; 512];
    let mut functions = [0u64; 512];
    let mut text = [0u8; 16384];
    let mut main = [0u8; 8192];
    let mut main_places = [0u32; 8192];
    let mut other = [0u8; 8192];
    let mut other_places = [0u32; 8192];
    let loaded = load(
        image,
        &mut constants,
        &mut structs,
        &mut functions,
        &mut text,
        &mut main,
        &mut main_places,
        &mut other,
        &mut other_places,
    );
    if runs {
        let stores = ProgramStores {
            constants: &constants,
            structs: &structs,
            functions: &functions,
            text: &text,
            main: &main,
            main_places: &main_places,
            other: &other,
            other_places: &other_places,
        };
        return run_loaded(loaded, &stores, out);
    }
    list_loaded(loaded, &functions, &text, &main, &other, out)
}

// The lister.
pub fn list_image(image: &[u8], out: &mut [u8]) -> usize
    ensures { record { count = result; out = out.new } ≡ printed (lister_text image.now) out.old }
{
    print_image(false, image, out)
}

// The runner, with 1,000,000 units.
pub fn run_image(image: &[u8], out: &mut [u8]) -> usize
    ensures { record { count = result; out = out.new } ≡ printed (runner_text image.now) out.old }
{
    print_image(true, image, out)
}
