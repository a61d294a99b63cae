// A machine's record as words in a lent slice: what crosses to a host in C. The definitions are those of all that crosses.
#![tactic(auto)]

ghost use Rattle.std.specs.Prelude.{◌≡◌, set};
ghost use Rattle.model.specs.Basics.{written};
ghost use Rattle.model.specs.declared.Vm.{Vm};
ghost use Rattle.embed_words.specs.Coding.{run_in, vm_in, count_words, under_words, vm_words};

use layout::reads::word;
use model::{Counts, Run, Vm};
use value::words::{last_in, last_kind, last_payload};

// x for word i; past the end nothing is written.
pub fn put(s: &mut [u64], i: usize, x: u64)
    ensures { s.new ≡ set s.old i x }
{
    if i < s.len() {
        s[i] = x;
    }
}

// ---- a machine's record

// The counts of a record.
#[tactic(auto, unfolding(crate::specs::Coding::vm_in))]
fn counts_of(vm: &[u64]) -> Counts
    ensures { result ≡ (vm_in vm.now).program }
{
    Counts {
        constants: word(vm, 0) as usize,
        structs: word(vm, 1) as usize,
        functions: word(vm, 2) as usize,
        text: word(vm, 3) as usize,
        current: word(vm, 4) as usize,
    }
}

// The run of a record.
#[tactic(auto, unfolding(crate::specs::Coding::run_in))]
fn run_of(vm: &[u64]) -> Run
    ensures { result ≡ run_in vm.now }
{
    Run {
        on: word(vm, 10) == 1,
        given: word(vm, 11),
        spent: word(vm, 12),
        returns: word(vm, 13),
        mark: word(vm, 14) as usize,
        saved: word(vm, 15) as usize,
    }
}

// The machine of a record.
#[tactic(auto, unfolding(crate::specs::Coding::vm_in))]
pub fn vm_of(vm: &[u64]) -> Vm
    ensures { result ≡ vm_in vm.now }
{
    Vm {
        program: counts_of(vm),
        stack: word(vm, 5) as usize,
        frames: word(vm, 6) as usize,
        cells: word(vm, 7) as usize,
        last: last_in(word(vm, 8), word(vm, 9)),
        run: run_of(vm),
        strict: word(vm, 16) == 1,
    }
}

// The counts to their words of the record.
#[tactic(auto, unfolding(crate::specs::Coding::count_words, model::specs::Basics::written))]
pub fn put_counts(c: Counts, vm: &mut [u64])
    ensures { vm.new ≡ written vm.old 0 (count_words c) }
{
    put(vm, 0, c.constants as u64);
    put(vm, 1, c.structs as u64);
    put(vm, 2, c.functions as u64);
    put(vm, 3, c.text as u64);
    put(vm, 4, c.current as u64);
}

// A run to its words of the record.
#[tactic(auto, unfolding(crate::specs::Coding::under_words, model::specs::Basics::written))]
fn put_run(x: Run, vm: &mut [u64])
    ensures { vm.new ≡ written vm.old 10 (under_words x) }
{
    put(vm, 10, u64::from(x.on));
    put(vm, 11, x.given);
    put(vm, 12, x.spent);
    put(vm, 13, x.returns);
    put(vm, 14, x.mark as u64);
    put(vm, 15, x.saved as u64);
}

// The record of a machine.
#[tactic(auto, unfolding(crate::specs::Coding::vm_words, crate::specs::Coding::count_words, crate::specs::Coding::under_words, model::specs::Basics::written))]
pub fn put_vm(m: Vm, vm: &mut [u64])
    ensures { vm.new ≡ written vm.old 0 (vm_words m) }
{
    put_counts(m.program, vm);
    put(vm, 5, m.stack as u64);
    put(vm, 6, m.frames as u64);
    put(vm, 7, m.cells as u64);
    put(vm, 8, last_kind(m.last));
    put(vm, 9, last_payload(m.last));
    put_run(m.run, vm);
    put(vm, 16, u64::from(m.strict));
}
