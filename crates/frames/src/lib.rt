// Call frames: records in a slice that the host lends.
#![tactic(auto)]

pub mod backtrace; // backtrace.rt: the frames in numbers, innermost first
pub mod order; // order.rt: whether the frames are in good order

ghost use Rattle.std.specs.Prelude.{◌≡◌, ◌<◌, ◌≤◌, length, get_or, set};
ghost use Rattle.frames.specs.Links.{no_frame, all_unentered};

use model::Frame;

pub fn read_frame(frames: &[Frame], i: usize) -> Frame
    requires { i < length frames.now }
    ensures { result ≡ get_or frames.now i no_frame }
{
    frames[i]
}

// The frame f on top of i frames.
pub fn push_frame(frames: &mut [Frame], i: usize, f: Frame)
    requires { i < length frames.old }
    ensures { frames.new ≡ set frames.old i f }
{
    frames[i] = f;
}

// The numbers of units at which they were entered are set to 0 in the first n frames.
pub fn unenter(frames: &mut [Frame], n: usize)
    requires { n ≤ length frames.old }
    ensures { frames.new ≡ all_unentered n frames.old }
{
    for f in frames[..n].iter_mut() {
        f.entered = 0;
    }
}
