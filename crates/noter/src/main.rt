// Reads a rule image from standard input, and prints the listing of each of its functions with notes.
#![tactic(auto)]

ghost use Rattle.streams.specs.Answers.{Answered, Shown};
ghost use Rattle.noter.specs.Says.{Says, SaysAll};

use noted_report::note_image;
use std::io;

// Reads an image and prints its listing with notes; of one that could not be read, nothing. It answers how many bytes were read.
fn show(rt: &(impl io::Input + Print + Eprint), image: &mut [u8], out: &mut [u8]) -> Option<usize>
    ensures shown { Shown Says image.new out.old out.new }
    ensures answered { Answered Says result image.new out.old out.new }
{
    streams::show(rt, image, out, note_image)
}

// The same with a store that every text fits, which so is never lost. The store's length is told by its type: that of the array in main would
// be counted byte by byte.
fn show_all(rt: &(impl io::Input + Print + Eprint), image: &mut [u8], out: &mut [u8; 1048576])
    ensures { Shown SaysAll image.new out.old out.new }
{
    show(rt, image, out);
}

// One byte more than an image may have is read, so that a longer one is seen to be longer.
fn main(rt: HostRuntime) {
    let mut image = [0u8; 16385];
    let mut out = [0u8; 1048576];
    show_all(&rt, &mut image, &mut out);
}
