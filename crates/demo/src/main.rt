// The machine's demonstration: 01's bench pieces K1, K10, K11 and K15 on the proved machine, step by
// step and as runs. What it prints is compared with the file stdout.

#![tactic(auto)]

use machine::numbers::RUNNING;
use machine::{Ran, State};

// K1's code: r2 becomes 1 or 2 by whether r1 is 0, and r3 becomes 3.
const K1: [u32; 7] = [
    0x2010_0003,
    0xa200_0001,
    0x1000_0005,
    0xa200_0002,
    0x1000_0005,
    0xa300_0003,
    0x0000_0000,
];

// A running state at pc 0 with the given r1 and r2.
fn start(r1: u32, r2: u32) -> State {
    let mut regs = [0u32; 16];
    regs[1] = r1;
    regs[2] = r2;
    State {
        regs,
        pc: 0,
        status: RUNNING,
    }
}

// The functions below print a line each, by prints that are one write each. Where one cannot be written the
// rest is tried all the same, and nothing is said of it.

// Takes n steps, and prints the pc before each.
fn show_steps(out: &impl Print, r1: u32, n: u32) {
    let mut heap = [0; 1];
    let mut s = start(r1, 0);
    let _ = print!(out; "K1 from r1 = {r1} step by step: pc");
    for _ in 0..n {
        let _ = print!(out; " {}", s.pc);
        s = machine::step(&K1, &mut heap, s);
    }
    let _ = println!(out; ", then status {}", s.status);
}

fn show_run(out: &impl Print, r1: u32, budget: u32) {
    let mut heap = [0; 1];
    let _ = print!(out; "K1 from r1 = {r1} with budget {budget}: ");
    let _ = match machine::run(&K1, &mut heap, start(r1, 0).regs, budget) {
        Ok(Ran { state, count }) => {
            let (r2, r3) = (state.regs[2], state.regs[3]);
            println!(out;
                "status {} after {count} steps, r2 = {r2}, r3 = {r3}",
                state.status
            )
        }
        Err(refusal) => println!(out; "{refusal:?}"),
    };
}

// Prints r3 after one step of a single word.
fn show_word(out: &impl Print, label: &str, w: u32, r1: u32, r2: u32) {
    let mut heap = [0; 1];
    let s = machine::step(&[w], &mut heap, start(r1, r2));
    let _ = println!(out; "{label}: {:08x}", s.regs[3]);
}

fn main(rt: HostRuntime) {
    show_steps(&rt, 0, 6);
    show_steps(&rt, 9, 6);
    show_run(&rt, 0, 1000);
    show_run(&rt, 9, 1000);
    show_run(&rt, 9, 5);
    show_run(&rt, 9, 4);
    show_word(
        &rt,
        "K10 slt of 80000000 and 0",
        0x9312_0000,
        0x8000_0000,
        0,
    );
    show_word(
        &rt,
        "K10 slt of 7FFFFFFF and 80000000",
        0x9312_0000,
        0x7fff_ffff,
        0x8000_0000,
    );
    show_word(&rt, "K11 r0 plus immediate -1", 0xa300_ffff, 0, 0);
}
