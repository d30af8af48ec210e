// A program: shapes at and past document 01's limits, each with its length or a refusal.
// It touches `layout`.
#![tactic(auto)]

use layout::Shape;

// As in the programs that read, what can't be written is let go: each line is tried, and the program ends the same.
fn tell(rt: &impl Print, n: u32, p: u32, f: u32) {
    let s = Shape {
        n,
        p,
        f,
        version: 1,
        cipher: 0,
    };
    if layout::in_limits(s) {
        let length = layout::length_of(s);
        let _ = println!(rt; "N {n}, P {p}, F {f}: length {length}");
    } else {
        let _ = println!(rt; "N {n}, P {p}, F {f}: refused");
    }
}

fn main(rt: HostRuntime) {
    let shapes = [
        (3, 2, 64),
        (1, 1, 64),
        (16384, 64, 4096),
        (16385, 2, 64),
        (0, 2, 64),
        (4294967295, 2, 64),
        (3, 65, 64),
        (3, 0, 64),
        (3, 4294967295, 64),
        (3, 2, 96),
        (3, 2, 4160),
        (3, 2, 0),
        (3, 2, 4294967295),
    ];
    for (n, p, f) in shapes {
        tell(&rt, n, p, f);
    }
}
