// The router: reads a grid file from standard input, of which the first 4,096 bytes suffice, and prints the list of its wirings, or why the
// file is refused. What is printed is made, and proved, in the crate `listing`; here it is only read and written. By `list_whole` of that
// crate (specs/Whole.antt) the bytes written are the text of the crate `model` for the bytes of standard input.
#![tactic(auto)]

ghost use Rattle.std.specs.Prelude.{◌≡◌, ◌≤◌, length};
ghost use Rattle.model.specs.Routes.{routes_limit, routes_room};

use std::os::fd::AsRawFd;

// The limit of visited boards.
const LIMIT: u64 = 1000000;

// The whole text for a file of at most 4,096 bytes, with an answer buffer of 61,504 bytes lent: the head, then the lines.
fn print_list(file: &[u8], limit: u64, buffer: &mut [u8])
    requires { (length file.now ≤ 4096) × (limit ≡ routes_limit) × (length buffer.old ≡ routes_room) }
{
    let head = listing::head(file, limit, buffer);
    listing::print_list(head, buffer);
}

fn main(rt: HostRuntime) {
    let mut input = io::buffer();
    // By the kit's io: std fills an array only by read_exact, which fails where the input ends before it.
    let n = io::read_full(rt.stdin().as_raw_fd(), &mut input);
    let mut buffer = [0u8; 61504];
    print_list(&input[..n], LIMIT, &mut buffer);
}
