// Runs small cases of the walk, and large ones, and prints the verdict, orders, marks and layers of each.
//
// Of a long list the first eight entries are printed, and each 1,024th.
#![tactic(auto)]

ghost use Rattle.std.specs.Prelude.{◌+◌, ◌^◌, ◌≤◌, ◌<◌, length};

use graph::acyclic::is_acyclic;
use layers::layer::{layer, layered_operations};
use layers::lookup::{layer_at, offsets_sound};
use rules::{Drawing, IndexedCoproduct, Refusal};
use std::io;

// How many nodes, and how many operations, a drawing may have.
const LIMIT: usize = 4096;

// A drawing, and the line that is printed above what the calls give of it.
#[derive(Clone, Copy)]
struct Case<'a> {
    title: &'static str,
    drawing: Drawing<'a>,
}

// A list of lists.
fn lists<'a>(lengths: &'a [u32], values: &'a [u32]) -> IndexedCoproduct<'a> {
    IndexedCoproduct { lengths, values }
}

// The word for a yes or a no.
fn word(yes: bool) -> &'static str {
    if yes { "yes" } else { "no" }
}

// Whether entry i of a list is printed.
fn shown(i: usize) -> bool {
    (i < 8) | (i % 1024 == 1023)
}

// Why a call was refused, by its number.
fn print_refused(rt: &impl Print, why: Refusal) -> io::Result<()> {
    let number = u32::from(why);
    println!(rt; "refused {number}")
}

// A name, and the entries of a list that are shown.
fn print_list(rt: &impl Print, name: &str, list: &[u32]) -> io::Result<()> {
    print!(rt; "{name}")?;
    for (i, entry) in list.iter().enumerate() {
        if shown(i) {
            print!(rt; " {entry}")?;
        }
    }
    println!(rt)
}

// The layers, what is handed back of a layer behind the last, and whether the offsets are sound.
fn print_layers(rt: &impl Print, operations: &[u32], offsets: &[u32]) -> io::Result<()> {
    print_list(rt, "offsets", offsets)?;
    for i in 0..operations.len() {
        if shown(i) {
            print_list(rt, "layer", layer_at(operations, offsets, i))?;
        }
    }
    print_list(
        rt,
        "beyond",
        layer_at(operations, offsets, operations.len()),
    )?;
    println!(rt; "sound {}", word(offsets_sound(operations, offsets)))
}

// Whether the drawing has no cycle.
fn show_verdict(rt: &impl Print, d: &Drawing, ws: &mut [u32]) -> io::Result<()> {
    match is_acyclic(d, ws) {
        Err(why) => print_refused(rt, why),
        Ok(yes) => println!(rt; "acyclic {}", word(yes)),
    }
}

// The order of each operation, and whether it is on or behind a cycle.
fn show_orders(rt: &impl Print, d: &Drawing, ws: &mut [u32]) -> io::Result<()> {
    let m = d.ops.len();
    if LIMIT < m {
        return Ok(());
    }
    let mut orders = [0; LIMIT];
    let mut marks = [0; LIMIT];
    match layer(d, &mut orders, &mut marks, ws) {
        Err(why) => print_refused(rt, why),
        Ok(()) => {
            print_list(rt, "orders", &orders[..m])?;
            print_list(rt, "marks", &marks[..m])
        }
    }
}

// The operations of each layer.
fn show_layers(rt: &impl Print, d: &Drawing, ws: &mut [u32]) -> io::Result<()> {
    let m = d.ops.len();
    if LIMIT < m {
        return Ok(());
    }
    let mut operations = [0; LIMIT];
    let mut offsets = [0; LIMIT + 1];
    let mut marks = [0; LIMIT];
    match layered_operations(d, &mut operations, &mut offsets, &mut marks, ws) {
        Err(why) => print_refused(rt, why),
        Ok(()) => print_layers(rt, &operations[..m], &offsets[..m + 1]),
    }
}

// What the three calls give of a case.
fn show(rt: &impl Print, case: Case, ws: &mut [u32]) -> io::Result<()> {
    rt.println(case.title)?;
    show_verdict(rt, &case.drawing, ws)?;
    show_orders(rt, &case.drawing, ws)?;
    show_layers(rt, &case.drawing, ws)
}

// first, first + 1, and so on.
fn count_up(list: &mut [u32], first: u32)
    requires { length list.old + first < 2 ^ 32 }
{
    for (i, entry) in list.iter_mut().enumerate() {
        *entry = first + i as u32;
    }
}

// The empty drawing and others that can be drawn by hand.
fn small(rt: &impl Print, ws: &mut [u32]) -> io::Result<()> {
    let cases = [
        Case {
            title: "nothing",
            drawing: Drawing {
                nodes: &[],
                ops: &[],
                sources: lists(&[], &[]),
                targets: lists(&[], &[]),
            },
        },
        Case {
            title: "no nodes, one operation",
            drawing: Drawing {
                nodes: &[],
                ops: &[0],
                sources: lists(&[0], &[]),
                targets: lists(&[0], &[]),
            },
        },
        Case {
            title: "0 to 1, 1 to 0, 1 to 2, none to 3",
            drawing: Drawing {
                nodes: &[0; 4],
                ops: &[0; 4],
                sources: lists(&[1, 1, 1, 0], &[0, 1, 1]),
                targets: lists(&[1; 4], &[1, 0, 2, 3]),
            },
        },
        Case {
            title: "none to 0, 0 and 0 to 1",
            drawing: Drawing {
                nodes: &[0; 2],
                ops: &[0; 2],
                sources: lists(&[0, 2], &[0, 0]),
                targets: lists(&[1, 1], &[0, 1]),
            },
        },
    ];
    for case in cases {
        show(rt, case, ws)?;
    }
    Ok(())
}

// A ring of three with an operation before it, two behind it and two beside it.
fn tails(rt: &impl Print, ws: &mut [u32]) -> io::Result<()> {
    let case = Case {
        title: "a ring with tails",
        drawing: Drawing {
            nodes: &[0; 6],
            ops: &[0; 8],
            sources: lists(&[1, 1, 1, 1, 1, 0, 1, 1], &[0, 1, 2, 3, 3, 5, 4]),
            targets: lists(&[1, 1, 1, 1, 1, 1, 1, 0], &[1, 2, 3, 1, 4, 5, 4]),
        },
    };
    show(rt, case, ws)
}

// As large as the limits allow: each operation reads what the one before it writes.
fn chain(rt: &impl Print, ws: &mut [u32]) -> io::Result<()> {
    let mut all = [0; LIMIT];
    count_up(&mut all, 0);
    let mut read = [1; LIMIT];
    read[0] = 0;
    let case = Case {
        title: "a chain of 4096",
        drawing: Drawing {
            nodes: &[0; LIMIT],
            ops: &[0; LIMIT],
            sources: lists(&read, &all[..LIMIT - 1]),
            targets: lists(&[1; LIMIT], &all),
        },
    };
    show(rt, case, ws)
}

// The same, but the last operation but one writes what the first reads.
fn ring(rt: &impl Print, ws: &mut [u32]) -> io::Result<()> {
    let mut read = [0; LIMIT];
    count_up(&mut read, 0);
    read[4095] = 4094;
    let mut written = [0; LIMIT];
    count_up(&mut written, 1);
    written[4094] = 0;
    written[4095] = 4095;
    let case = Case {
        title: "a ring of 4095 and one behind it",
        drawing: Drawing {
            nodes: &[0; LIMIT],
            ops: &[0; LIMIT],
            sources: lists(&[1; LIMIT], &read),
            targets: lists(&[1; LIMIT], &written),
        },
    };
    show(rt, case, ws)
}

// Many operations at one node, each of which lists it so often as source and as target.
fn hub(rt: &impl Print, title: &'static str, times: usize, ws: &mut [u32]) -> io::Result<()>
    requires { times ≤ 4 }
{
    let zeros = [0; 4 * LIMIT];
    let lengths = [times as u32; LIMIT];
    let values = &zeros[..times * LIMIT];
    let case = Case {
        title,
        drawing: Drawing {
            nodes: &[0],
            ops: &zeros[..LIMIT],
            sources: lists(&lengths, values),
            targets: lists(&lengths, values),
        },
    };
    show(rt, case, ws)
}

// Half of the operations write a node, and the other half read it.
fn meeting(rt: &impl Print, ws: &mut [u32]) -> io::Result<()> {
    let zeros = [0; LIMIT];
    let half = LIMIT / 2;
    let mut read = [0; LIMIT];
    read[half..].fill(1);
    let mut written = [0; LIMIT];
    written[..half].fill(1);
    let case = Case {
        title: "2048 write a node, 2048 read it",
        drawing: Drawing {
            nodes: &[0],
            ops: &zeros,
            sources: lists(&read, &zeros[..half]),
            targets: lists(&written, &zeros[..half]),
        },
    };
    show(rt, case, ws)
}

// Refused by each check of a drawing: 1, 2 and 3.
fn refusals(rt: &impl Print, ws: &mut [u32]) -> io::Result<()> {
    let cases = [
        Case {
            title: "4097 nodes",
            drawing: Drawing {
                nodes: &[0; LIMIT + 1],
                ops: &[],
                sources: lists(&[], &[]),
                targets: lists(&[], &[]),
            },
        },
        Case {
            title: "a length too many",
            drawing: Drawing {
                nodes: &[0],
                ops: &[],
                sources: lists(&[0], &[]),
                targets: lists(&[], &[]),
            },
        },
        Case {
            title: "a value that is no node",
            drawing: Drawing {
                nodes: &[0],
                ops: &[0],
                sources: lists(&[1], &[1]),
                targets: lists(&[0], &[]),
            },
        },
    ];
    for case in cases {
        show(rt, case, ws)?;
    }
    Ok(())
}

// One node, one operation with neither source nor target, in so much workspace: 24 words are needed.
fn room(rt: &impl Print, title: &'static str, words: usize) -> io::Result<()>
    requires { words ≤ 24 }
{
    let mut ws = [7; 24];
    let case = Case {
        title,
        drawing: Drawing {
            nodes: &[0],
            ops: &[0],
            sources: lists(&[0], &[]),
            targets: lists(&[0], &[]),
        },
    };
    show(rt, case, &mut ws[..words])
}

fn main(rt: HostRuntime) -> io::Result<()> {
    let mut ws = [7; 131080];
    small(&rt, &mut ws)?;
    tails(&rt, &mut ws)?;
    chain(&rt, &mut ws)?;
    ring(&rt, &mut ws)?;
    hub(&rt, "4096 operations from one node to it", 1, &mut ws)?;
    hub(&rt, "the same, each listing it four times", 4, &mut ws)?;
    meeting(&rt, &mut ws)?;
    refusals(&rt, &mut ws)?;
    room(&rt, "24 words of workspace", 24)?;
    room(&rt, "23 words of workspace", 23)?;
    println!(&rt; "offsets that fall")?;
    print_layers(&rt, &[0, 1, 2], &[0, 2, 1, 3])
}
