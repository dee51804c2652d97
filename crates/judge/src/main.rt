// The judge of a drawing: reads a grid file from standard input, of which the first 4,096 bytes suffice, takes the codes of a drawing as its
// argument, and prints the verdict with the lines, or why the file is refused. What is printed is made, and proved, in the crate `hearing`;
// here it is only read and written. By `judge_prints` of that crate (specs/Whole.antt) the bytes written are the text of the crate `model`.
#![tactic(auto)]

ghost use Rattle.std.specs.Prelude.{◌≤◌, length};

use std::os::fd::AsRawFd;

// The text for a file of at most 4,096 bytes, and codes. What cannot be written is passed over, here as below.
fn print_judged(rt: &impl Print, file: &[u8], digits: &[u8])
    requires { (length file.now ≤ 4096) × (length digits.now ≤ 4096) }
{
    let _ = rt.write_all(hearing::judged(file, digits).as_bytes());
}

// Reads standard input, and prints the text for it and the codes.
fn judge_input(rt: &HostRuntime, digits: &[u8])
    requires { length digits.now ≤ 4096 }
{
    let mut input = io::buffer();
    // By the kit's io: std fills an array only by read_exact, which fails where the input ends before it.
    let n = io::read_full(rt.stdin().as_raw_fd(), &mut input);
    print_judged(rt, &input[..n], digits);
}

// With one argument beside the program's own name it judges; else it says how it is called. An argument that is longer than the buffer is
// handed over as empty.
fn main(rt: HostRuntime) {
    let mut argument = io::buffer();
    let Some(m) = arguments::only_argument(&rt, &mut argument) else {
        let _ = rt.write_all(&hearing::usage());
        return;
    };
    judge_input(&rt, &argument[..m]);
}
