// The commands that read a machine: each calls the readers.
ghost use Rattle.std.specs.Prelude.{◌≡◌};
ghost use Rattle.console.specs.Asks.{header_after, element_after, text_after};

use crate::say;
use console_script::{stores, word};
use layout::reads::same_bytes;
use model::{Header, Refusal, Value, Vm};
use readers::{block_header, element, last_result, stack_value, text_bytes};

// The header of a value that was shown.
#[tactic(auto, unfolding(crate::specs::Asks::header_after))]
fn header_of(m: Vm, s: Result<Value, Refusal>, cells: &[u64]) -> Result<Header, Refusal>
    ensures { result ≡ header_after m s cells.now }
{
    block_header(m, s?, cells)
}

// Element j of a value that was shown.
#[tactic(auto, unfolding(crate::specs::Asks::element_after))]
fn element_of(m: Vm, s: Result<Value, Refusal>, j: usize, cells: &[u64]) -> Result<Value, Refusal>
    ensures { result ≡ element_after m s j cells.now }
{
    element(m, s?, j, cells)
}

// The text of a value that was shown, into so much of out as there is room for.
#[tactic(auto, unfolding(crate::specs::Asks::text_after))]
fn text_of(
    m: Vm,
    s: Result<Value, Refusal>,
    room: usize,
    text: &[u8],
    out: &mut [u8],
) -> Result<usize, Refusal>
    ensures { record { answer = result; out = out.new } ≡ text_after m s room text.now out.old }
{
    let v = s?;
    let n = console_script::at_most(room, out.len());
    text_bytes(m, v, text, &mut out[..n])
}

// `last`, `stack I`, `header I`, `element I J`, `text I`, `text I ROOM`.
pub fn read(
    rt: &impl Print,
    m: Vm,
    line: &[u8],
    number: u64,
    text: &stores::Text,
    stack: &stores::Stack,
    cells: &stores::Cells,
) {
    let what = word(line, 0);
    if same_bytes(what, b"last") && console_script::words_from(line, 1).is_empty() {
        say::say_shown(rt, last_result(m), cells);
        return;
    }
    let index = console_script::decimal(word(line, 1));
    let room = console_script::read_room(line, 2);
    let (Some(i), Some(j)) = (index, room) else {
        say::say_unknown(rt, number);
        return;
    };
    let shown = stack_value(m, i as usize, stack);
    if same_bytes(what, b"text") {
        let mut space = [0u8; 16384];
        let told = text_of(m, shown, j, text, &mut space);
        say::say_text(rt, told, &space);
        return;
    }
    let more = !console_script::words_from(line, 2).is_empty();
    if same_bytes(what, b"element") && more {
        say::say_shown(rt, element_of(m, shown, j, cells), cells);
        return;
    }
    if more {
        say::say_unknown(rt, number);
        return;
    }
    if same_bytes(what, b"header") {
        say::say_headed(rt, header_of(m, shown, cells));
        return;
    }
    if same_bytes(what, b"stack") {
        say::say_shown(rt, shown, cells);
        return;
    }
    say::say_unknown(rt, number);
}
