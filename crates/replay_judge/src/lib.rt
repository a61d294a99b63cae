// What loading, saving, running and listing an image answer, held against texts that say what they should.
#![tactic(auto)]

ghost use Rattle.std.specs.Prelude.{◌≡◌, take, Err};
ghost use Rattle.model.specs.Equality.{same_bytes};
ghost use Rattle.model.specs.Reports.{lister_text, runner_text};
ghost use Rattle.model.specs.Stores.{stores_of as lent};
ghost use Rattle.layout.specs.Lent.{stores_in};
ghost use Rattle.printing.specs.Links.{Put};
ghost use Rattle.replay_judge.specs.Compared.{loaded, load_text, read_of, saving_of, compare_of, verdict_of};

use image_load::load;
use image_save::save;
use layout::lent::ProgramStores;
use layout::reads::same_bytes;
use model::{Counts, Refusal};
use printing::{put_count, put_line};
use report::{list_image, run_image};

// Which answers agree: each is a judgement of its own, beside which no value stands.
#[derive(Clone, Copy)]
pub struct Verdict {
    pub loading: bool,
    pub saving: bool,
    pub running: bool,
    pub listing: bool,
}

// Those of them that loading and saving give.
#[derive(Clone, Copy)]
struct Kept {
    loading: bool,
    saving: bool,
}

// ---- texts

// The line of a program that was loaded.
fn put_loaded(c: Counts, out: &mut [u8]) -> usize
    ensures { Put 96 (loaded c) out.old 0 out.new result }
{
    let structs = put_count(b"loaded ", c.constants, out, 0);
    let functions = put_count(b" ", c.structs, out, structs);
    let text = put_count(b" ", c.functions, out, functions);
    put_line(b" ", c.text, out, text)
}

// The line of a refusal.
fn put_refused(why: Refusal, out: &mut [u8]) -> usize
    ensures { Put 96 (load_text (Err why)) out.old 0 out.new result }
{
    match why {
        Refusal::BrokenImage(o) => put_line(b"refused 20 ", o, out, 0),
        _ => put_line(b"refused ", usize::from(why.number()), out, 0),
    }
}

// The line of what loading answered.
fn put_answer(answer: Result<Counts, Refusal>, out: &mut [u8]) -> usize
    ensures { Put 96 (load_text answer) out.old 0 out.new result }
{
    match answer {
        Ok(c) => put_loaded(c, out),
        Err(why) => put_refused(why, out),
    }
}

// ---- texts against texts

// Whether the first n bytes of a store are these.
pub fn same_front(s: &[u8], n: usize, want: &[u8]) -> bool
    ensures { result ≡ same_bytes (take n s.now) want.now }
{
    same_bytes(&s[..n.min(s.len())], want)
}

// Whether the line of what loading answered is this.
fn same_line(answer: Result<Counts, Refusal>, want: &[u8]) -> bool
    ensures { result ≡ same_bytes (load_text answer) want.now }
{
    let mut line = [0u8; 96];
    let n = put_answer(answer, &mut line);
    same_front(&line, n, want)
}

// ---- the answers

// Loads an image of at most 16,384 bytes.
fn read(
    image: &[u8],
    constants: &mut [u64],
    structs: &mut [u64],
    functions: &mut [u64],
    text: &mut [u8],
    main: &mut [u8],
    main_places: &mut [u32],
    other: &mut [u8],
    other_places: &mut [u32],
) -> Result<Counts, Refusal>
    ensures { record { answer = result; stores = lent constants.new structs.new functions.new text.new main.new main_places.new other.new other_places.new } ≡ read_of image.now (lent constants.old structs.old functions.old text.old main.old main_places.old other.old other_places.old) }
{
    if 16384 < image.len() {
        return Err(Refusal::OverLimit);
    }
    load(
        image,
        constants,
        structs,
        functions,
        text,
        main,
        main_places,
        other,
        other_places,
    )
}

// Whether a program that was loaded is saved as its image.
fn saves(
    answer: Result<Counts, Refusal>,
    image: &[u8],
    stores: &ProgramStores,
    saved: &mut [u8],
) -> bool
    ensures { record { agrees = result; out = saved.new } ≡ saving_of image.now answer (stores_in stores.now) saved.old }
{
    let Ok(c) = answer else {
        return true;
    };
    let Ok(n) = save(c, stores, saved) else {
        return false;
    };
    same_front(saved, n, image)
}

// An image against what loading should answer. What was loaded and saved stays in the stores.
fn compare(
    image: &[u8],
    loading: &[u8],
    constants: &mut [u64],
    structs: &mut [u64],
    functions: &mut [u64],
    text: &mut [u8],
    main: &mut [u8],
    main_places: &mut [u32],
    other: &mut [u8],
    other_places: &mut [u32],
    saved: &mut [u8],
) -> Kept
    ensures { record { loading = result.loading; saving = result.saving; stores = lent constants.new structs.new functions.new text.new main.new main_places.new other.new other_places.new; saved = saved.new } ≡ compare_of image.now loading.now (lent constants.old structs.old functions.old text.old main.old main_places.old other.old other_places.old) saved.old }
{
    let answer = read(
        image,
        constants,
        structs,
        functions,
        text,
        main,
        main_places,
        other,
        other_places,
    );
    let loads = same_line(answer, loading);
    let stores = ProgramStores {
        constants,
        structs,
        functions,
        text,
        main,
        main_places,
        other,
        other_places,
    };
    let saving = saves(answer, image, &stores, saved);
    Kept {
        loading: loads,
        saving,
    }
}

// Whether this is what the runner prints, which always fits. (As `same_line`, of another text: the size of its store is what tells them apart.)
fn runs(image: &[u8], want: &[u8]) -> bool
    ensures { result ≡ same_bytes (runner_text image.now) want.now }
{
    let mut out = [0u8; 32768];
    let n = run_image(image, &mut out);
    same_front(&out, n, want)
}

// Whether this is what the lister prints into a store that has room for it.
fn lists_into(image: &[u8], want: &[u8], out: &mut [u8; 524288]) -> bool
    ensures { result ≡ same_bytes (lister_text image.now) want.now }
{
    let n = list_image(image, out);
    same_front(out, n, want)
}

// Whether this is what the lister prints, which always fits.
fn lists(image: &[u8], want: &[u8]) -> bool
    ensures { result ≡ same_bytes (lister_text image.now) want.now }
{
    let mut out = [0u8; 524288];
    lists_into(image, want, &mut out)
}

// An image against what loading should answer, and what the runner and the lister should print.
pub fn judge(image: &[u8], loading: &[u8], running: &[u8], listing: &[u8]) -> Verdict
    ensures { result ≡ verdict_of image.now loading.now running.now listing.now }
{
    let mut constants = [0u64; 512];
    let mut structs = [0u64; 512];
    let mut functions = [0u64; 512];
    let mut text = [0u8; 16384];
    let mut main = [0u8; 8192];
    let mut main_places = [0u32; 8192];
    let mut other = [0u8; 8192];
    let mut other_places = [0u32; 8192];
    let mut saved = [0u8; 16384];
    let kept = compare(
        image,
        loading,
        &mut constants,
        &mut structs,
        &mut functions,
        &mut text,
        &mut main,
        &mut main_places,
        &mut other,
        &mut other_places,
        &mut saved,
    );
    Verdict {
        loading: kept.loading,
        saving: kept.saving,
        running: runs(image, running),
        listing: lists(image, listing),
    }
}
