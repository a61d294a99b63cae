// Reads a rule image from standard input, and prints whether it passes the check before it is installed.
#![tactic(auto)]

ghost use Rattle.streams.specs.Answers.{Answered, Shown};
ghost use Rattle.checker.specs.Says.{Says};

use check_report::check_image;
use std::io;

// Reads an image and prints what the check says of it; of one that could not be read, nothing. It answers how many bytes were read.
fn show(rt: &(impl io::Input + Print + Eprint), image: &mut [u8], out: &mut [u8]) -> Option<usize>
    ensures shown { Shown Says image.new out.old out.new }
    ensures answered { Answered Says result image.new out.old out.new }
{
    streams::show(rt, image, out, check_image)
}

// One byte more than an image may have is read, so that a longer one is seen to be longer. A text has at most 16,992 bytes.
fn main(rt: HostRuntime) {
    let mut image = [0u8; 16385];
    let mut out = [0u8; 32768];
    show(&rt, &mut image, &mut out);
}
