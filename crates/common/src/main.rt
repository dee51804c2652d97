// The copper common to all wirings: reads a grid file from standard input, of which the first 4,096 bytes suffice, and prints the summary line
// as `routes` does and, for a complete list, a line for each row of the table; or why the file is refused. What is printed is made, and
// proved, in the crate `tabling`; here it is only read and written. By `common_whole` of that crate (proofs/Whole.antt) the bytes written are
// the text of the crate `model` for the bytes of standard input.
#![tactic(auto)]

ghost use Rattle.std.specs.Prelude.{◌≡◌, ◌≤◌, length};
ghost use Rattle.model.specs.Routes.{routes_room};

use std::os::fd::AsRawFd;

// The line of row k. What cannot be written is passed over, here as below.
fn print_row(rt: &impl Print, table: &[u8], width: usize, rows: usize, k: usize) {
    let _ = rt.write_all(tabling::row(table, width, rows, k).as_bytes());
}

// The lines of the rows, in order.
fn print_rows(rt: &impl Print, table: &[u8], width: usize, rows: usize) {
    for k in 0..rows {
        print_row(rt, table, width, rows, k);
    }
}

// The whole text for a file of at most 4,096 bytes, with an answer buffer of 61,504 bytes and a table of at least 961 lent: the head, then
// the rows.
fn print_table(rt: &impl Print, file: &[u8], buffer: &mut [u8], table: &mut [u8])
    requires { (length file.now ≤ 4096) × (length buffer.old ≡ routes_room) × (961 ≤ length table.old) }
{
    let head = tabling::head(file, buffer, table);
    let _ = rt.write_all(tabling::first_line(head).as_bytes());
    if let Ok(heading) = head {
        print_rows(rt, table, heading.width, heading.rows);
    }
}

fn main(rt: HostRuntime) {
    let mut input = io::buffer();
    // By the kit's io: std fills an array only by read_exact, which fails where the input ends before it.
    let n = io::read_full(rt.stdin().as_raw_fd(), &mut input);
    let mut buffer = [0u8; 61504];
    let mut table = [0u8; 961];
    print_table(&rt, &input[..n], &mut buffer, &mut table);
}
