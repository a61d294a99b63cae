// The commands that emit a program: each calls one entry of emission, and tells it whether a run is under way (`running`).
#![tactic(auto)]

ghost use Rattle.std.specs.Prelude.{◌≡◌, ◌%◌};
ghost use Rattle.console_script.specs.Stored.{stored};
ghost use Rattle.console_emission.specs.Emits.{op_args, code_asked, patch_asked, constant_asked, name_given, name_asked, emit_asked};

use console_script::stores::Program;
use console_script::{Args, Most, front, hex, read_args, read_bytes, word, words_from};
use emission_constants::add_constant;
use emission_functions::{begin_function, end_function};
use emission_structs::add_struct_info;
use layout::reads::same_bytes;
use model::{Constant, Counts, Refusal};

// What the entry that a line names answers; none where the line is not understood.
pub type Emitted = Option<Result<(Counts, usize), Refusal>>;

fn byte(n: u64) -> u8
    ensures { result ≡ n % 256 }
{
    (n % 0x100) as u8
}

fn operand(n: u64) -> u16
    ensures { result ≡ n % 65536 }
{
    (n % 0x1_0000) as u16
}

fn place(n: u64) -> u32
    ensures { result ≡ n % 4294967296 }
{
    (n % 0x1_0000_0000) as u32
}

// The numbers of an opcode with its operands; the place is the word before end.
#[tactic(auto, unfolding(crate::specs::Emits::op_args))]
fn op_args(line: &[u8], end: usize) -> Option<Args>
    ensures { result ≡ op_args line.now end }
{
    let most = 0xFFFF_FFFF;
    read_args(
        line,
        1,
        end,
        Most {
            a: 255,
            b: most,
            c: most,
            d: most,
            e: most,
        },
    )
}

// `op N PLACE`, and `op1`, `op2`, `op3` with operands between.
#[tactic(auto, unfolding(model::specs::Basics::ascii, crate::specs::Emits::code_asked, crate::specs::Emits::with_op, crate::specs::Emits::with_op1, crate::specs::Emits::with_op2, crate::specs::Emits::with_op3, layout::specs::Links::code_lent))]
fn emit_code(running: bool, c: Counts, line: &[u8], p: &mut Program) -> Emitted
    ensures { record { answer = result; stores = stored p.new } ≡ code_asked running c line.now (stored p.old) }
{
    let most = 0xFFFF;
    let what = word(line, 0);
    if same_bytes(what, b"op") {
        let n = op_args(line, 3)?;
        return Some(emission_code::add_op(
            running,
            c,
            byte(n.a),
            place(n.b),
            &mut p.functions,
            &mut p.main,
            &mut p.main_places,
            &mut p.other,
            &mut p.other_places,
        ));
    }
    if same_bytes(what, b"op1") {
        let n = op_args(line, 4)?;
        if most < n.b {
            return None;
        }
        return Some(emission_code::add_op1(
            running,
            c,
            byte(n.a),
            operand(n.b),
            place(n.c),
            &mut p.functions,
            &mut p.main,
            &mut p.main_places,
            &mut p.other,
            &mut p.other_places,
        ));
    }
    if same_bytes(what, b"op2") {
        let n = op_args(line, 5)?;
        if most < n.b || most < n.c {
            return None;
        }
        return Some(emission_code::add_op2(
            running,
            c,
            byte(n.a),
            operand(n.b),
            operand(n.c),
            place(n.d),
            &mut p.functions,
            &mut p.main,
            &mut p.main_places,
            &mut p.other,
            &mut p.other_places,
        ));
    }
    let n = op_args(line, 6)?;
    if most < n.b || most < n.c || most < n.d {
        return None;
    }
    Some(emission_code::add_op3(
        running,
        c,
        byte(n.a),
        operand(n.b),
        operand(n.c),
        operand(n.d),
        place(n.e),
        &mut p.functions,
        &mut p.main,
        &mut p.main_places,
        &mut p.other,
        &mut p.other_places,
    ))
}

// `patch AT VALUE`.
#[tactic(auto, unfolding(crate::specs::Emits::patch_asked, crate::specs::Emits::patch_args, layout::specs::Links::bytes_lent, layout::specs::Links::code_lent))]
fn emit_patch(running: bool, c: Counts, line: &[u8], p: &mut Program) -> Emitted
    ensures { record { answer = result; stores = stored p.new } ≡ patch_asked running c line.now (stored p.old) }
{
    let n = read_args(
        line,
        1,
        3,
        Most {
            a: 0xFFFF,
            b: 0xFFFF,
            c: 0,
            d: 0,
            e: 0,
        },
    )?;
    Some(emission_code::patch_u16_value_at(
        running,
        c,
        operand(n.a),
        operand(n.b),
        &p.functions,
        &mut p.main,
        &mut p.other,
    ))
}

// `scalar HEX16`, `boolean 0` or `1`, `string HEX`, `reference HEX`. A text's bytes go by way of a space of its own.
#[tactic(auto, unfolding(model::specs::Basics::ascii, crate::specs::Emits::constant_asked, crate::specs::Emits::boolean_args, crate::specs::Emits::said_bytes, console_script::specs::Words::blank, layout::specs::Links::constants_lent))]
fn emit_constant(running: bool, c: Counts, line: &[u8], p: &mut Program) -> Emitted
    ensures { record { answer = result; stores = stored p.new } ≡ constant_asked running c line.now (stored p.old) }
{
    let what = word(line, 0);
    if same_bytes(what, b"scalar") {
        let n = hex(words_from(line, 1))?;
        return Some(add_constant(
            running,
            c,
            Constant::Scalar(n),
            b"",
            &mut p.constants,
            &mut p.text,
        ));
    }
    if same_bytes(what, b"boolean") {
        let n = read_args(
            line,
            1,
            2,
            Most {
                a: 1,
                b: 0,
                c: 0,
                d: 0,
                e: 0,
            },
        )?;
        return Some(add_constant(
            running,
            c,
            Constant::Boolean(n.a == 1),
            b"",
            &mut p.constants,
            &mut p.text,
        ));
    }
    let mut space = [0u8; 16384];
    let size = read_bytes(words_from(line, 1), &mut space)?;
    let kind = if same_bytes(what, b"string") {
        Constant::String
    } else {
        Constant::FunctionReference
    };
    Some(add_constant(
        running,
        c,
        kind,
        front(&space, size),
        &mut p.constants,
        &mut p.text,
    ))
}

// A name that is given.
#[tactic(auto, unfolding(model::specs::Basics::ascii, crate::specs::Emits::name_given, layout::specs::Links::structs_lent, layout::specs::Links::names_lent))]
fn named(running: bool, c: Counts, what: &[u8], name: &[u8], p: &mut Program) -> Emitted
    ensures { record { answer = result; stores = stored p.new } ≡ name_given running c what.now name.now (stored p.old) }
{
    if same_bytes(what, b"struct") {
        return Some(add_struct_info(running, c, name, &mut p.structs, &mut p.text));
    }
    if same_bytes(what, b"begin") {
        return Some(begin_function(running, c, name, &mut p.functions, &mut p.text));
    }
    if !name.is_empty() {
        return None;
    }
    Some(end_function(running, c))
}

// `struct HEX`, `begin HEX`, `end`.
#[tactic(auto, unfolding(crate::specs::Emits::name_asked, crate::specs::Emits::name_read, crate::specs::Emits::said_bytes, console_script::specs::Words::blank))]
fn emit_name(running: bool, c: Counts, line: &[u8], p: &mut Program) -> Emitted
    ensures { record { answer = result; stores = stored p.new } ≡ name_asked running c line.now (stored p.old) }
{
    let mut space = [0u8; 16384];
    let size = read_bytes(words_from(line, 1), &mut space)?;
    named(running, c, word(line, 0), front(&space, size), p)
}

// The commands that emit, in kinds.
#[derive(Clone, Copy)]
pub enum Kind {
    Code,
    Patch,
    Constant,
    Name,
}

// A line that emits.
#[tactic(auto, unfolding(crate::specs::Emits::emit_asked))]
pub fn emit(running: bool, c: Counts, kind: Kind, line: &[u8], p: &mut Program) -> Emitted
    ensures { record { answer = result; stores = stored p.new } ≡ emit_asked kind running c line.now (stored p.old) }
{
    match kind {
        Kind::Code => emit_code(running, c, line, p),
        Kind::Patch => emit_patch(running, c, line, p),
        Kind::Constant => emit_constant(running, c, line, p),
        Kind::Name => emit_name(running, c, line, p),
    }
}
