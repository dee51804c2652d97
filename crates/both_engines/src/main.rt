// Runs both engines, the search and the slow walk, on small grids and compares them: on every grid of 2 by 2, 2 by 3 and 3 by 2, up to a renaming
// of the codes, and on each 1,499th of 3 by 3 from number 151 on, which is the blank field with a hole in the middle. For each size it prints how many
// grids were compared, on how many the engines were equal, and the sums of layouts, visited boards and tried codes; before that a line for
// each grid on which they differ. The comparison and the grids are made, and proved, in the crate `engines`; here they are only counted
// and printed.
#![tactic(auto)]

ghost use Rattle.std.specs.Prelude.{◌≤◌, ◌<◌, length};
ghost use Rattle.engines.specs.Kinds.{Kinds};

use engines::Sums;

// A 3 by 3 field has so many grids, and the smaller sizes have fewer.
const MOST_GRIDS: u64 = 562595;

// The line of a grid on which the engines differ. What cannot be written is passed over, here as below.
fn print_differs(rt: &impl Print, height: usize, width: usize, kinds: &[u8]) {
    let _ = print!(rt; "differs,{height},{width}");
    for kind in kinds {
        let cell = engines::cell_of_kind(*kind);
        let _ = print!(rt; ",{cell}");
    }
    let _ = println!(rt);
}

// The line of a size.
fn print_size(rt: &impl Print, height: usize, width: usize, sums: Sums) {
    let Sums {
        grids,
        equal,
        layouts,
        visited,
        tried,
    } = sums;
    let _ = println!(rt;
        "{height} by {width}: {grids} grids, {equal} equal, layouts {layouts}, visited {visited}, tried {tried}"
    );
}

// Compares the engines on one grid, and counts it.
fn compare_grid(rt: &impl Print, height: usize, width: usize, kinds: &[u8], sums: Sums) -> Sums
    requires { length kinds.now ≤ 9 }
{
    let compared = engines::compare_kinds(height, width, kinds);
    if !compared.equal {
        print_differs(rt, height, width, kinds);
    }
    engines::counted(sums, compared)
}

// Goes through the grids of a size from the one of these kinds on, and takes those whose number from 0 leaves this rest by this step.
fn compare_size(
    rt: &impl Print,
    height: usize,
    width: usize,
    step: u64,
    rest: u64,
    kinds: &mut [u8],
)
    requires { Kinds kinds.old × (length kinds.old ≤ 9) × (0 < step) }
{
    let mut sums = Sums::NONE;
    for number in 0..MOST_GRIDS {
        if number % step == rest {
            sums = compare_grid(rt, height, width, kinds, sums);
        }
        if !engines::next_grid(kinds) {
            break;
        }
    }
    print_size(rt, height, width, sums);
}

// The first grid of each size is blank.
#[tactic(auto, using(engines::specs::KindLaws::blank_kinds))]
fn main(rt: HostRuntime) {
    compare_size(&rt, 2, 2, 1, 0, &mut [0; 4]);
    compare_size(&rt, 2, 3, 1, 0, &mut [0; 6]);
    compare_size(&rt, 3, 2, 1, 0, &mut [0; 6]);
    compare_size(&rt, 3, 3, 1499, 151, &mut [0; 9]);
}
