// The one argument of a program, as bytes. Which arguments there are the system says, so no contract can; what is handed back lies in the buffer.
#![tactic(auto)]

ghost use Rattle.std.specs.Prelude.{IfSome, ◌≤◌, length};

use std::env::{Env, FillError};

// Whether the program has an argument i beside its own name.
fn is_given(rt: &HostRuntime, i: usize) -> bool {
    let mut argument = [0u8; 1];
    match rt.arg(i, &mut argument) {
        Err(FillError::NotPresent) => false,
        _ => true,
    }
}

// Puts the argument at the start of the buffer and gives its length; 0 for one that is longer than the buffer.
fn copy_argument(rt: &HostRuntime, buffer: &mut [u8]) -> usize
    ensures { result ≤ length buffer.new }
{
    match rt.arg(1, buffer) {
        Ok(m) => m,
        Err(_) => 0,
    }
}

// Puts the one argument beside the program's own name at the start of the buffer and gives its length as above; none where there is another
// number of arguments.
pub fn only_argument(rt: &HostRuntime, buffer: &mut [u8]) -> Option<usize>
    ensures { IfSome result (λ m. m ≤ length buffer.new) }
{
    if !is_given(rt, 1) || is_given(rt, 2) {
        return None;
    }
    Some(copy_argument(rt, buffer))
}
