// The commands that damage a machine, and the checksum that tells whether anything has changed.
#![tactic(auto)]

ghost use Rattle.std.specs.Prelude.{◌≡◌, ◌&&◌, ◌||◌, ◌%◌, ltb, length};
ghost use Rattle.console_damage.specs.Sums.{half_mixed, mixed_with, mixed_all, mixed_last, mixed_run, mixed_counts};
ghost use Rattle.console_damage.specs.Damage.{program_with, run_with, count_with, count_asked, result_asked, put_at, poked_words, poked_bytes, poked_places, words_asked, bytes_asked, places_asked, frame_in, frame_at};

use console_script::{Most, read_args, stores, word};
use layout::reads::same_bytes;
use model::{Counts, Frame, Run, Value, Vm};
use value::words;

// ---- the checksum

// The sum h with the number x behind it: a prime modulus, so that no change of one number goes unseen.
#[tactic(auto, unfolding(crate::specs::Sums::half_mixed))]
fn half_mixed(h: u64, x: u64) -> u64
    ensures { result ≡ half_mixed h x }
{
    ((h % 4294967291) * 65599 + x % 4294967291) % 4294967291
}

#[tactic(auto, unfolding(crate::specs::Sums::mixed_with))]
pub fn mixed(h: u64, x: u64) -> u64
    ensures { result ≡ mixed_with h x }
{
    half_mixed(half_mixed(h, x / 0x1_0000_0000), x % 0x1_0000_0000)
}

pub fn mixed_words(h: u64, s: &[u64]) -> u64
    ensures { result ≡ mixed_all h s.now }
{
    let mut sum = h;
    for x in s {
        sum = mixed(sum, *x);
    }
    sum
}

// This and `mixed_bytes` differ from `mixed_words` in a conversion alone, and a trait for it would be longer than they are: no plainer.
pub fn mixed_places(h: u64, s: &[u32]) -> u64
    ensures { result ≡ mixed_all h s.now }
{
    let mut sum = h;
    for x in s {
        sum = mixed(sum, *x as u64);
    }
    sum
}

pub fn mixed_bytes(h: u64, s: &[u8]) -> u64
    ensures { result ≡ mixed_all h s.now }
{
    let mut sum = h;
    for x in s {
        sum = mixed(sum, *x as u64);
    }
    sum
}

#[tactic(auto, unfolding(crate::specs::Sums::mixed_last))]
fn mixed_last(h: u64, last: Option<Value>) -> u64
    ensures { result ≡ mixed_last h last }
{
    match last {
        None => mixed(h, 7),
        Some(v) => mixed(mixed(h, words::kind_of(v)), words::payload_of(v)),
    }
}

#[tactic(auto, unfolding(crate::specs::Sums::mixed_run))]
fn mixed_run(h: u64, r: Run) -> u64
    ensures { result ≡ mixed_run h r }
{
    let units = mixed(mixed(mixed(h, r.on as u64), r.given), r.spent);
    mixed(
        mixed(mixed(units, r.returns), r.mark as u64),
        r.saved as u64,
    )
}

// The counts, the last result and the run that is under way.
#[tactic(auto, unfolding(crate::specs::Sums::mixed_counts))]
pub fn mixed_counts(h: u64, m: Vm) -> u64
    ensures { result ≡ mixed_counts h m }
{
    let c = m.program;
    let last = m.last;
    let a = mixed(
        mixed(mixed(h, c.constants as u64), c.structs as u64),
        c.functions as u64,
    );
    let b = mixed(
        mixed(mixed(a, c.text as u64), c.current as u64),
        m.stack as u64,
    );
    let d = mixed_last(mixed(mixed(b, m.frames as u64), m.cells as u64), last);
    mixed_run(d, m.run)
}

// ---- frames, which rest between calls as four numbers each

// The frame at i; one of zeros where there is none.
#[tactic(auto, unfolding(crate::specs::Damage::frame_in))]
pub fn frame_in(words: &[u64], i: usize) -> Frame
    ensures { result ≡ frame_in words.now i }
{
    if i < words.len() / 4 {
        let at = 4 * i;
        return Frame {
            function: words[at] as usize,
            position: words[at + 1] as usize,
            base: words[at + 2] as usize,
            entered: words[at + 3],
        };
    }
    Frame {
        function: 0,
        position: 0,
        base: 0,
        entered: 0,
    }
}

#[tactic(auto, unfolding(crate::specs::Damage::frame_at))]
pub fn put_frame(words: &mut [u64], i: usize, f: Frame)
    ensures { words.new ≡ frame_at words.old i f }
{
    if i < words.len() / 4 {
        let at = 4 * i;
        put_word(words, at, f.function as u64);
        put_word(words, at + 1, f.position as u64);
        put_word(words, at + 2, f.base as u64);
        put_word(words, at + 3, f.entered);
    }
}

// ---- damage

// One of the program's counts.
#[tactic(auto, unfolding(model::specs::Basics::ascii, crate::specs::Damage::program_with, crate::specs::Damage::with_program))]
fn with_program(m: Vm, name: &[u8], n: usize) -> Option<Vm>
    ensures { result ≡ program_with m m.program name.now n }
{
    let c = m.program;
    if same_bytes(name, b"constants") {
        return Some(Vm {
            program: Counts { constants: n, ..c },
            ..m
        });
    }
    if same_bytes(name, b"structs") {
        return Some(Vm {
            program: Counts { structs: n, ..c },
            ..m
        });
    }
    if same_bytes(name, b"functions") {
        return Some(Vm {
            program: Counts { functions: n, ..c },
            ..m
        });
    }
    if same_bytes(name, b"text") {
        return Some(Vm {
            program: Counts { text: n, ..c },
            ..m
        });
    }
    if same_bytes(name, b"current") {
        return Some(Vm {
            program: Counts { current: n, ..c },
            ..m
        });
    }
    None
}

// One of the numbers of the run that is under way, or of the program's counts.
#[tactic(auto, unfolding(model::specs::Basics::ascii, crate::specs::Damage::run_with, crate::specs::Damage::with_run))]
fn with_run(m: Vm, name: &[u8], n: usize) -> Option<Vm>
    ensures { result ≡ run_with m m.run name.now n }
{
    let r = m.run;
    if same_bytes(name, b"on") {
        return Some(Vm {
            run: Run { on: 0 < n, ..r },
            ..m
        });
    }
    if same_bytes(name, b"given") {
        return Some(Vm {
            run: Run {
                given: n as u64,
                ..r
            },
            ..m
        });
    }
    if same_bytes(name, b"spent") {
        return Some(Vm {
            run: Run {
                spent: n as u64,
                ..r
            },
            ..m
        });
    }
    if same_bytes(name, b"returns") {
        return Some(Vm {
            run: Run {
                returns: n as u64,
                ..r
            },
            ..m
        });
    }
    if same_bytes(name, b"mark") {
        return Some(Vm {
            run: Run { mark: n, ..r },
            ..m
        });
    }
    if same_bytes(name, b"saved") {
        return Some(Vm {
            run: Run { saved: n, ..r },
            ..m
        });
    }
    with_program(m, name, n)
}

// One of the counts.
#[tactic(auto, unfolding(model::specs::Basics::ascii, crate::specs::Damage::count_with))]
fn with_named(m: Vm, name: &[u8], n: usize) -> Option<Vm>
    ensures { result ≡ count_with m name.now n }
{
    if same_bytes(name, b"stack") {
        return Some(Vm { stack: n, ..m });
    }
    if same_bytes(name, b"frames") {
        return Some(Vm { frames: n, ..m });
    }
    if same_bytes(name, b"cells") {
        return Some(Vm { cells: n, ..m });
    }
    with_run(m, name, n)
}

// `count NAME N`.
#[tactic(auto, unfolding(crate::specs::Damage::count_args, crate::specs::Damage::count_asked))]
pub fn with_count(m: Vm, line: &[u8]) -> Option<Vm>
    ensures { result ≡ count_asked m line.now }
{
    let a = read_args(
        line,
        2,
        3,
        Most {
            a: 0xFFFF_FFFF_FFFF,
            b: 0,
            c: 0,
            d: 0,
            e: 0,
        },
    )?;
    with_named(m, word(line, 1), a.a as usize)
}

// `result KIND PAYLOAD`: the last result, of a kind below 6.
#[tactic(auto, unfolding(crate::specs::Damage::result_args, crate::specs::Damage::result_asked, crate::specs::Damage::last_with))]
pub fn with_result(m: Vm, line: &[u8]) -> Option<Vm>
    ensures { result ≡ result_asked m line.now }
{
    let a = read_args(
        line,
        1,
        3,
        Most {
            a: 5,
            b: 0xFFFF_FFFF_FFFF_FFFF,
            c: 0,
            d: 0,
            e: 0,
        },
    )?;
    Some(Vm {
        last: Some(words::value_of(a.a, a.b)),
        ..m
    })
}

#[tactic(auto, unfolding(crate::specs::Damage::put_at))]
fn put_word(s: &mut [u64], i: usize, n: u64) -> bool
    ensures { (result ≡ ltb i (length s.old)) × (s.new ≡ put_at s.old i n) }
{
    if i < s.len() {
        s[i] = n;
        return true;
    }
    false
}

#[tactic(auto, unfolding(crate::specs::Damage::put_at))]
fn put_byte(s: &mut [u8], i: usize, n: u64) -> bool
    ensures { (result ≡ (ltb i (length s.old) && ltb n 256)) × (s.new ≡ put_at s.old i (n % 256)) }
{
    if i < s.len() {
        s[i] = (n % 0x100) as u8;
        return n < 0x100;
    }
    false
}

// As `put_byte`, but for the width, which the cast and the bound name; a trait would name both a third time.
#[tactic(auto, unfolding(crate::specs::Damage::put_at))]
fn put_place(s: &mut [u32], i: usize, n: u64) -> bool
    ensures { (result ≡ (ltb i (length s.old) && ltb n 4294967296)) × (s.new ≡ put_at s.old i (n % 4294967296)) }
{
    if i < s.len() {
        s[i] = (n % 0x1_0000_0000) as u32;
        return n < 0x1_0000_0000;
    }
    false
}

#[tactic(auto, unfolding(model::specs::Basics::ascii, crate::specs::Damage::poked_words))]
fn poke_words(
    store: &[u8],
    i: usize,
    n: u64,
    constants: &mut stores::Constants,
    structs: &mut stores::Structs,
    functions: &mut stores::Functions,
    stack: &mut stores::Stack,
    cells: &mut stores::Cells,
) -> bool
    ensures { record { good = result; constants = constants.new; structs = structs.new; functions = functions.new; stack = stack.new; cells = cells.new } ≡ poked_words store.now i n constants.old structs.old functions.old stack.old cells.old }
{
    if same_bytes(store, b"constants") {
        return put_word(constants, i, n);
    }
    if same_bytes(store, b"structs") {
        return put_word(structs, i, n);
    }
    if same_bytes(store, b"functions") {
        return put_word(functions, i, n);
    }
    if same_bytes(store, b"stack") {
        return put_word(stack, i, n);
    }
    if same_bytes(store, b"cells") {
        return put_word(cells, i, n);
    }
    false
}

#[tactic(auto, unfolding(model::specs::Basics::ascii, crate::specs::Damage::poked_bytes))]
fn poke_bytes(
    store: &[u8],
    i: usize,
    n: u64,
    text: &mut stores::Text,
    main: &mut stores::Code,
    other: &mut stores::Code,
) -> bool
    ensures { record { good = result; text = text.new; main = main.new; other = other.new } ≡ poked_bytes store.now i n text.old main.old other.old }
{
    if same_bytes(store, b"text") {
        return put_byte(text, i, n);
    }
    if same_bytes(store, b"main") {
        return put_byte(main, i, n);
    }
    if same_bytes(store, b"other") {
        return put_byte(other, i, n);
    }
    false
}

#[tactic(auto, unfolding(model::specs::Basics::ascii, crate::specs::Damage::poked_places))]
fn poke_places(
    store: &[u8],
    i: usize,
    n: u64,
    main_places: &mut stores::Places,
    other_places: &mut stores::Places,
) -> bool
    ensures { record { good = result; main_places = main_places.new; other_places = other_places.new } ≡ poked_places store.now i n main_places.old other_places.old }
{
    if same_bytes(store, b"main_places") {
        return put_place(main_places, i, n);
    }
    if same_bytes(store, b"other_places") {
        return put_place(other_places, i, n);
    }
    false
}

// `poke STORE I N`: number I of a store; whether it was understood.
#[tactic(auto, unfolding(crate::specs::Damage::poke_args, crate::specs::Damage::words_asked, crate::specs::Damage::bytes_asked, crate::specs::Damage::places_asked))]
pub fn poke(
    line: &[u8],
    program: &mut stores::Program,
    stack: &mut stores::Stack,
    cells: &mut stores::Cells,
) -> bool
    ensures { (result ≡ (((words_asked line.now program.old.constants program.old.structs program.old.functions stack.old cells.old).good || (bytes_asked line.now program.old.text program.old.main program.old.other).good) || (places_asked line.now program.old.main_places program.old.other_places).good)) × (record { good = (words_asked line.now program.old.constants program.old.structs program.old.functions stack.old cells.old).good; constants = program.new.constants; structs = program.new.structs; functions = program.new.functions; stack = stack.new; cells = cells.new } ≡ words_asked line.now program.old.constants program.old.structs program.old.functions stack.old cells.old) × (record { good = (bytes_asked line.now program.old.text program.old.main program.old.other).good; text = program.new.text; main = program.new.main; other = program.new.other } ≡ bytes_asked line.now program.old.text program.old.main program.old.other) × (record { good = (places_asked line.now program.old.main_places program.old.other_places).good; main_places = program.new.main_places; other_places = program.new.other_places } ≡ places_asked line.now program.old.main_places program.old.other_places) }
{
    let store = word(line, 1);
    let args = read_args(
        line,
        2,
        4,
        Most {
            a: 0xFFFF_FFFF,
            b: 0xFFFF_FFFF_FFFF_FFFF,
            c: 0,
            d: 0,
            e: 0,
        },
    );
    let Some(a) = args else {
        return false;
    };
    let i = a.a as usize;
    poke_words(
        store,
        i,
        a.b,
        &mut program.constants,
        &mut program.structs,
        &mut program.functions,
        stack,
        cells,
    ) | poke_bytes(
        store,
        i,
        a.b,
        &mut program.text,
        &mut program.main,
        &mut program.other,
    ) | poke_places(
        store,
        i,
        a.b,
        &mut program.main_places,
        &mut program.other_places,
    )
}
