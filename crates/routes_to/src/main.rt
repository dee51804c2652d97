// The router with a limit of its own: takes the limit of visited boards as its argument, reads a grid file from standard input, of which the first 4,096
// bytes suffice, and prints the list of its wirings, or why the file is refused, as `routes` does. It searches with growing limits and says on
// standard error after each run how far it has come. An argument that is no limit is refused with a line that says so. What is printed is
// made, and proved, in the crates `growing` and `listing`; here it is only read and written. By `limit_prints` and `no_limit_prints` of the
// crate `growing` (specs/Whole.antt) the bytes written are the text of the crate `model` for the argument and the bytes of standard input.
#![tactic(auto)]

ghost use Rattle.std.specs.Prelude.{◌≡◌, ◌≤◌, length};
ghost use Rattle.model.specs.RoutesTo.{routes_to_room};

use std::os::fd::AsRawFd;

// The whole text for a file of at most 4,096 bytes, with an answer buffer of 3,936,256 bytes lent: the head, then the lines.
fn print_list(file: &[u8], limit: u64, buffer: &mut [u8])
    requires { (length file.now ≤ 4096) × (length buffer.old ≡ routes_to_room) }
{
    let head = growing::head(file, limit, buffer);
    listing::print_list(head, buffer);
}

// The same, and lends that buffer.
fn list_file(file: &[u8], limit: u64)
    requires { length file.now ≤ 4096 }
{
    let mut buffer = [0u8; 3936256];
    print_list(file, limit, &mut buffer);
}

// Reads standard input, and prints the text for it.
fn list_input(rt: &HostRuntime, limit: u64) {
    let mut input = io::buffer();
    // By the kit's io: std fills an array only by read_exact, which fails where the input ends before it.
    let n = io::read_full(rt.stdin().as_raw_fd(), &mut input);
    list_file(&input[..n], limit);
}

// Prints that the argument is no limit.
fn refuse(rt: &impl Print) {
    let _ = rt.write_all(&growing::limit_line());
}

// With one argument beside the program's own name that is a limit it lists; an argument that is longer than the buffer is handed over as empty.
fn main(rt: HostRuntime) {
    let mut argument = io::buffer();
    let Some(m) = arguments::only_argument(&rt, &mut argument) else {
        refuse(&rt);
        return;
    };
    let Some(limit) = growing::limit_of(&argument[..m]) else {
        refuse(&rt);
        return;
    };
    list_input(&rt, limit);
}
