// What is printed of each thing that may be told, and of refusals; the sizes that are wanted, and a slice too short at each place.
use formats::print::{print_refusal, print_told};
use formats::refusal::{Lent, Refusal, number_of, place_of};
use formats::sizes::{Room, Shape, check_sizes};
use formats::told::{Place, Told, Touch};
use std::io;

fn touch(group: usize, lane: usize, phase: u64, wrote: bool) -> Touch {
    Touch {
        group,
        lane,
        phase,
        wrote,
    }
}

fn print_row(rt: &HostRuntime, told: Told, cells: &[u32]) -> io::Result<()> {
    let mut out = [0u8; 400];
    match print_told(&mut out, told, cells) {
        Ok(n) => rt.write_all(&out[..n.min(400)]),
        Err(_) => rt.println("refused"),
    }
}

fn print_refused(rt: &HostRuntime, number: u64, place: usize) -> io::Result<()> {
    let mut out = [0u8; 256];
    match print_refusal(&mut out, number, place) {
        Ok(n) => rt.write_all(&out[..n.min(256)]),
        Err(_) => rt.println("refused"),
    }
}

fn print_short(rt: &HostRuntime) -> io::Result<()> {
    let mut out = [0u8; 255];
    match print_told(&mut out, Told::TooLong, &[]) {
        Err(Refusal::Short(Lent::Printed)) => rt.println("printed too short"),
        _ => rt.println("not refused"),
    }
}

// 3 lines, 2 groups of 5 lanes, 2 own numbers, 4 cells a group and a field of 7 want 48, 1,300, 15 and 90 words and 326 bytes.
// The slice that is to be too short has one less.
fn print_sizes(rt: &HostRuntime, short: Option<Lent>) -> io::Result<()> {
    let shape = Shape {
        lines: 3,
        groups: 2,
        lanes: 5,
        owns: 2,
        shared: 4,
        field: 7,
    };
    let long = |slice: Lent, wanted: usize| wanted.saturating_sub((short == Some(slice)) as usize);
    let lent = Room {
        steps: long(Lent::Steps, 48),
        lanes: long(Lent::Lanes, 1300),
        cells: long(Lent::Cells, 15),
        touches: long(Lent::Touches, 90),
        printed: long(Lent::Printed, 326),
    };
    match check_sizes(shape, lent) {
        Ok(()) => rt.println("room enough"),
        Err(why) => print_refused(rt, number_of(why), place_of(why)),
    }
}

pub(crate) fn print_all(rt: &HostRuntime) -> io::Result<()> {
    let told = [
        Told::Race {
            place: Place::Field,
            cell: 12,
            first: touch(0, 1, 0, true),
            second: touch(1, 0, 2, false),
        },
        Told::Race {
            place: Place::Cell,
            cell: 16383,
            first: touch(1023, 9, 10, false),
            second: touch(1023, 1023, 18446744073709551615, true),
        },
        Told::Wrong { group: 0, lane: 5 },
        Told::Wrong {
            group: 1023,
            lane: 100,
        },
        Told::Stuck { group: 3 },
        Told::TooLong,
    ];
    for told in told {
        print_row(rt, told, &[7])?;
    }
    print_row(rt, Told::Field, &[])?;
    print_row(
        rt,
        Told::Field,
        &[10, 11, 4294967295, 305419896, 3735928559, 0, 1, 16],
    )?;
    print_row(rt, Told::Field, &[1, 2, 3, 4, 5, 6, 7, 8, 9])?;
    print_refused(rt, 1, 6)?;
    print_refused(rt, 4, 1048576)?;
    print_short(rt)?;
    let slices = [
        Lent::Steps,
        Lent::Lanes,
        Lent::Cells,
        Lent::Touches,
        Lent::Printed,
    ];
    for slice in slices {
        print_sizes(rt, Some(slice))?;
    }
    print_sizes(rt, None)
}
