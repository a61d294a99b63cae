// What the noter prints, as bytes in a lent store.
#![tactic(auto)]

ghost use Rattle.std.specs.Prelude.{◌≡◌, true};
ghost use Rattle.model.specs.Stores.{program_in};
ghost use Rattle.model.specs.Orders.{program_ok};
ghost use Rattle.model.specs.Reports.{listed_text};
ghost use Rattle.notes.specs.Notes.{noted_listing, loaded_notes, noter_text};
ghost use Rattle.layout.specs.Lent.{stores_in};
ghost use Rattle.report.specs.Links.{printed};
ghost use Rattle.noted_report.specs.Links.{Notable};

use image_load::load;
use layout::lent::ProgramStores;
use model::{Counts, Refusal};
use noted_listing::list_with_notes;
use report_lines::print_refused;

// The listing with notes of a program in good order, or its refusal.
fn note_program(c: Counts, stores: &ProgramStores, out: &mut [u8]) -> usize
    requires { program_ok c (stores_in stores.now) ≡ true }
    ensures { record { count = result; out = out.new } ≡ printed (listed_text (noted_listing (program_in c (stores_in stores.now)))) out.old }
{
    match list_with_notes(c, stores, out) {
        Ok(n) => n,
        Err(Refusal::ResultTooShort) => 0,
        Err(why) => print_refused(why, out),
    }
}

// The listing with notes of what was loaded, or why nothing was. (As `run_loaded` of report: one function of both would take what prints as a closure, with
// a law of what it writes, and be no plainer than a match.)
fn note_loaded(loaded: Result<Counts, Refusal>, stores: &ProgramStores, out: &mut [u8]) -> usize
    requires { Notable loaded (stores_in stores.now) }
    ensures { record { count = result; out = out.new } ≡ printed (loaded_notes loaded (stores_in stores.now)) out.old }
{
    match loaded {
        Ok(c) => note_program(c, stores, out),
        Err(why) => print_refused(why, out),
    }
}

// The noter: an image of at most 16,384 bytes, loaded into stores of its own, which are the lister's.
pub fn note_image(image: &[u8], out: &mut [u8]) -> usize
    ensures { record { count = result; out = out.new } ≡ printed (noter_text image.now) out.old }
{
    if 16384 < image.len() {
        return print_refused(Refusal::OverLimit, out);
    }
    let mut constants = [0u64; 512];
    let mut structs = [0u64; 512];
    let mut functions = [0u64; 512];
    let mut text = [0u8; 16384];
    let mut main = [0u8; 8192];
    let mut main_places = [0u32; 8192];
    let mut other = [0u8; 8192];
    let mut other_places = [0u32; 8192];
    let loaded = load(
        image,
        &mut constants,
        &mut structs,
        &mut functions,
        &mut text,
        &mut main,
        &mut main_places,
        &mut other,
        &mut other_places,
    );
    let stores = ProgramStores {
        constants: &constants,
        structs: &structs,
        functions: &functions,
        text: &text,
        main: &main,
        main_places: &main_places,
        other: &other,
        other_places: &other_places,
    };
    note_loaded(loaded, &stores, out)
}
