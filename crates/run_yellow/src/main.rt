// Prints the table of yellow times, as its lines are in the source of `sheet_yellow`. It computes each entry by the rule and does not read
// the table.
#![tactic(auto)]

use std::io;

// The speeds are 40 to 110 km/h.
const SLOWEST: u32 = 40;

const FASTEST: u32 = 110;

// The grades, in percent.
const GRADES: [i32; 21] = [
    -10, -9, -8, -7, -6, -5, -4, -3, -2, -1, 0, 1, 2, 3, 4, 5, 6, 7, 8, 9, 10,
];

// The line of one entry, nothing if it is out of range.
fn show(rt: &impl Print, speed: u32, grade: i32) -> io::Result<()> {
    if let Ok(steps) = sheet_yellow::rule::by_rule(speed, grade) {
        println!(rt; "    {steps},")?;
    }
    Ok(())
}

// The lines of one speed.
fn show_speed(rt: &impl Print, speed: u32) -> io::Result<()> {
    println!(rt; "    // {speed} km/h")?;
    for grade in &GRADES {
        show(rt, speed, *grade)?;
    }
    Ok(())
}

fn main(rt: HostRuntime) -> io::Result<()> {
    for speed in SLOWEST..=FASTEST {
        show_speed(&rt, speed)?;
    }
    Ok(())
}
