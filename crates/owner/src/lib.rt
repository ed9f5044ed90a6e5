// The calls for C and Rust that a site owner makes: figures of one program, and totals over many. `include/post_guard.h` declares
// them. C needs a name for each, however alike two of them are, and lends each place by itself: so the lists of parameters are long.
#![tactic(auto)]

ghost use Rattle.std.specs.Prelude.{◌≡◌, ◌≤◌, ◌||◌, cond, length, ltb};
ghost use Rattle.report.specs.Reports.{report_of, parcel_report};
ghost use Rattle.capi.specs.States.{technique_of};
ghost use Rattle.owner.specs.Reports.{figure_numbers, total_numbers, totals_in, are_totals, added_number, added_place, ReportCall, AddCall};
ghost use Rattle.owner.specs.Inside.{AddedIn};

use answers::{Fault, Place};
use capi::{put, put_answer, put_place, technique_of, too_short};
use report::{Figures, Freedom};
use totals::{Added, Largest, Totals};

pub fn pg_report(
    technique: u8,
    memory: &[u64],
    n: usize,
    edges: &[u16],
    figures: &mut [u64],
    place: &mut [u64],
) -> u32
    ensures { ReportCall (report_of (technique_of technique) memory.now n edges.now) figures.old place.old result figures.new place.new }
{
    if are_short(figures.len(), 16, place.len()) {
        return too_short();
    }
    let made = report::report(technique_of(technique), memory, n, edges);
    answer_report(made, figures, place)
}

pub fn pg_report_parcel(technique: u8, parcel: &[u8], figures: &mut [u64], place: &mut [u64]) -> u32
    ensures { ReportCall (parcel_report (technique_of technique) parcel.now) figures.old place.old result figures.new place.new }
{
    if are_short(figures.len(), 16, place.len()) {
        return too_short();
    }
    let made = report::report_parcel(technique_of(technique), parcel);
    answer_report(made, figures, place)
}

pub fn pg_add_report(
    technique: u8,
    memory: &[u64],
    n: usize,
    edges: &[u16],
    sums: &mut [u64],
    place: &mut [u64],
) -> u32
    ensures { AddCall (report_of (technique_of technique) memory.now n edges.now) sums.old place.old result sums.new place.new }
{
    if are_short(sums.len(), 6, place.len()) {
        return too_short();
    }
    let made = report::report(technique_of(technique), memory, n, edges);
    answer_addition(made, sums, place)
}

pub fn pg_add_parcel(technique: u8, parcel: &[u8], sums: &mut [u64], place: &mut [u64]) -> u32
    ensures { AddCall (parcel_report (technique_of technique) parcel.now) sums.old place.old result sums.new place.new }
{
    if are_short(sums.len(), 6, place.len()) {
        return too_short();
    }
    let made = report::report_parcel(technique_of(technique), parcel);
    answer_addition(made, sums, place)
}

// Whether there is too little room for so many numbers, or for the two of a refusal's place. Asked first, so that a call that has too
// little makes no report.
fn are_short(have: usize, needed: usize, place: usize) -> bool
    ensures { result ≡ (ltb have needed || ltb place 2) }
{
    have < needed || place < 2
}

// The answer to a report, its figures and its place put down.
// No plainer by one function with capi's `put_written`: each answer would have to be mapped to an array of its own length first.
fn answer_report(report: Result<Figures, Fault>, figures: &mut [u64], place: &mut [u64]) -> u32
    requires { (16 ≤ length figures.old) × (2 ≤ length place.old) }
    ensures { ReportCall report figures.old place.old result figures.new place.new }
{
    if let Ok(found) = report {
        put(figures, figure_numbers(found));
    }
    put_answer(place, report)
}

// The answer to a report that is added to totals, the new totals and the place put down.
fn answer_addition(report: Result<Figures, Fault>, sums: &mut [u64], place: &mut [u64]) -> u32
    requires { (6 ≤ length sums.old) × (2 ≤ length place.old) }
    ensures { AddCall report sums.old place.old result sums.new place.new }
{
    let six = sums.first_chunk_mut::<6>().unwrap();
    let answer = add_in(report, six);
    put_place(place, added_place(answer));
    added_number(answer)
}

// The words of each kind, the target sets, the size of the largest, and the freedom's two numbers: 0 and 0 without jumps.
fn figure_numbers(figures: Figures) -> [u64; 16]
    ensures { result ≡ figure_numbers figures }
{
    let freedom = figures.freedom.unwrap_or(Freedom {
        edges: 0,
        possible: 0,
    });
    let mut numbers = [0; 16];
    put(&mut numbers, figures.kinds.map(u64::from));
    put(
        &mut numbers[12..],
        [
            u64::from(figures.sets),
            u64::from(figures.largest),
            u64::from(freedom.edges),
            u64::from(freedom.possible),
        ],
    );
    numbers
}

// The report added to the totals in the numbers, which are put down again unless they are unchanged.
fn add_in(report: Result<Figures, Fault>, sums: &mut [u64; 6]) -> Added
    ensures { AddedIn report sums.old result sums.new }
{
    let Some(before) = totals_in(sums) else {
        return Added::Unchanged;
    };
    let made = totals::add_report(before, report);
    if made.answer != Added::Unchanged {
        *sums = total_numbers(made.totals);
    }
    made.answer
}

// The totals that six numbers say: at most 65,535 parcels, and a largest one whose numbers have their widths.
fn totals_in(sums: &[u64; 6]) -> Option<Totals>
    ensures { result ≡ cond (are_totals sums.now) (Some (totals_in sums.now)) None }
{
    let parcels = u16::try_from(sums[0]).ok()?;
    let parcel = u16::try_from(sums[3]).ok()?;
    let edges = u32::try_from(sums[4]).ok()?;
    let possible = u32::try_from(sums[5]).ok()?;
    let freedom = Freedom { edges, possible };
    Some(Totals {
        parcels,
        edges: sums[1],
        possible: sums[2],
        largest: (possible != 0).then_some(Largest { parcel, freedom }),
    })
}

fn total_numbers(totals: Totals) -> [u64; 6]
    ensures { result ≡ total_numbers totals }
{
    let (parcel, edges, possible) = match totals.largest {
        Some(l) => (l.parcel, l.freedom.edges, l.freedom.possible),
        None => (0, 0, 0),
    };
    [
        u64::from(totals.parcels),
        totals.edges,
        totals.possible,
        u64::from(parcel),
        u64::from(edges),
        u64::from(possible),
    ]
}

// The numbers are the C interface's: `From` could only stand in `totals`, where answers have none.
fn added_number(answer: Added) -> u32
    ensures { result ≡ added_number answer }
{
    match answer {
        Added::Counted => 0,
        Added::WithoutJumps => 256,
        Added::Refused(fault) => u32::from(u8::from(fault.refusal)),
        Added::Unchanged => 257,
    }
}

fn added_place(answer: Added) -> Place
    ensures { result ≡ added_place answer }
{
    match answer {
        Added::Refused(fault) => fault.place,
        _ => Place::Nowhere,
    }
}
