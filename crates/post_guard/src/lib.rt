// The library for C and Rust, libpost_guard.a: the calls of `capi`, `owner`, `wide`, `installer` and `manager` under the names that
// `include/post_guard.h` declares, each with the contract of the call that it makes. C needs a name for each, and lends each place by itself:
// so the lists of parameters are long, and calls are alike.
#![tactic(auto)]

ghost use Rattle.std.specs.Prelude.{◌≡◌};
ghost use Rattle.capi.specs.Words.{DecodeCall, encode_call};
ghost use Rattle.capi.specs.States.{RunCall, StepCall, WriteDataCall, WriteRegisterCall, technique_of};
ghost use Rattle.capi.specs.Checks.{CheckCall};
ghost use Rattle.parcel.specs.Parcel.{read_of};
ghost use Rattle.capi.specs.Parcels.{PutCall, ReadCall, WriteCall, WritePlacedCall};
ghost use Rattle.report.specs.Reports.{parcel_report, report_of};
ghost use Rattle.owner.specs.Reports.{AddCall, ReportCall};
ghost use Rattle.editions.specs.Converters.{bytes_for, narrowed_of, widened_of};
ghost use Rattle.installer.specs.Calls.{RewriteCall};
ghost use Rattle.manager.specs.Calls.{PathCall};

#[unsafe(no_mangle)]
pub extern "C" fn pg_decode(word: u64, place: &mut [u32]) -> u32
    ensures { DecodeCall word place.old result place.new }
{
    capi::pg_decode(word, place)
}

#[unsafe(no_mangle)]
pub extern "C" fn pg_encode(opcode: u8, a: u8, b: u8, c: u8, w: u32) -> u64
    ensures { result ≡ encode_call opcode a b c w }
{
    capi::pg_encode(opcode, a, b, c, w)
}

#[unsafe(no_mangle)]
pub extern "C" fn pg_step(technique: u8, state: &mut [u64], memory: &mut [u64], n: usize) -> u32
    ensures { StepCall technique n state.old memory.old result state.new memory.new }
{
    capi::pg_step(technique, state, memory, n)
}

#[unsafe(no_mangle)]
pub extern "C" fn pg_run(
    technique: u8,
    state: &mut [u64],
    memory: &mut [u64],
    n: usize,
    limit: u16,
    count: &mut [u64],
) -> u32
    ensures { RunCall technique n limit state.old memory.old count.old result state.new memory.new count.new }
{
    capi::pg_run(technique, state, memory, n, limit, count)
}

#[unsafe(no_mangle)]
pub extern "C" fn pg_write_data(memory: &mut [u64], n: usize, address: u64, word: u64) -> u32
    ensures { WriteDataCall n memory.old address word result memory.new }
{
    capi::pg_write_data(memory, n, address, word)
}

#[unsafe(no_mangle)]
pub extern "C" fn pg_write_register(state: &mut [u64], register: u64, word: u64) -> u32
    ensures { WriteRegisterCall state.old register word result state.new }
{
    capi::pg_write_register(state, register, word)
}

#[unsafe(no_mangle)]
pub extern "C" fn pg_check(
    technique: u8,
    memory: &[u64],
    n: usize,
    edges: &[u16],
    place: &mut [u64],
) -> u32
    ensures { CheckCall technique memory.now n edges.now place.old result place.new }
{
    capi::pg_check(technique, memory, n, edges, place)
}

#[unsafe(no_mangle)]
pub extern "C" fn pg_read_parcel(
    parcel: &[u8],
    memory: &mut [u64],
    edges: &mut [u16],
    counts: &mut [u64],
) -> u32
    ensures { ReadCall 2 parcel.now memory.old edges.old counts.old result memory.new edges.new counts.new }
{
    capi::pg_read_parcel(parcel, memory, edges, counts)
}

#[unsafe(no_mangle)]
pub extern "C" fn pg_write_parcel(
    memory: &[u64],
    n: usize,
    edges: &[u16],
    parcel: &mut [u8],
    count: &mut [u64],
) -> u32
    ensures { WriteCall memory.now n edges.now parcel.old count.old result parcel.new count.new }
{
    capi::pg_write_parcel(memory, n, edges, parcel, count)
}

#[unsafe(no_mangle)]
pub extern "C" fn pg_write_parcel_placed(
    memory: &[u64],
    n: usize,
    edges: &[u16],
    parcel: &mut [u8],
    count: &mut [u64],
    place: &mut [u64],
) -> u32
    ensures { WritePlacedCall 2 memory.now n edges.now parcel.old count.old place.old result parcel.new count.new place.new }
{
    capi::pg_write_parcel_placed(memory, n, edges, parcel, count, place)
}

#[unsafe(no_mangle)]
pub extern "C" fn pg_report(
    technique: u8,
    memory: &[u64],
    n: usize,
    edges: &[u16],
    figures: &mut [u64],
    place: &mut [u64],
) -> u32
    ensures { ReportCall (report_of (technique_of technique) memory.now n edges.now) figures.old place.old result figures.new place.new }
{
    owner::pg_report(technique, memory, n, edges, figures, place)
}

#[unsafe(no_mangle)]
pub extern "C" fn pg_report_parcel(
    technique: u8,
    parcel: &[u8],
    figures: &mut [u64],
    place: &mut [u64],
) -> u32
    ensures { ReportCall (parcel_report (technique_of technique) parcel.now) figures.old place.old result figures.new place.new }
{
    owner::pg_report_parcel(technique, parcel, figures, place)
}

#[unsafe(no_mangle)]
pub extern "C" fn pg_add_report(
    technique: u8,
    memory: &[u64],
    n: usize,
    edges: &[u16],
    sums: &mut [u64],
    place: &mut [u64],
) -> u32
    ensures { AddCall (report_of (technique_of technique) memory.now n edges.now) sums.old place.old result sums.new place.new }
{
    owner::pg_add_report(technique, memory, n, edges, sums, place)
}

#[unsafe(no_mangle)]
pub extern "C" fn pg_add_parcel(
    technique: u8,
    parcel: &[u8],
    sums: &mut [u64],
    place: &mut [u64],
) -> u32
    ensures { AddCall (parcel_report (technique_of technique) parcel.now) sums.old place.old result sums.new place.new }
{
    owner::pg_add_parcel(technique, parcel, sums, place)
}

#[unsafe(no_mangle)]
pub extern "C" fn pg_check_wide(
    technique: u8,
    memory: &[u64],
    n: usize,
    edges: &[u32],
    place: &mut [u64],
) -> u32
    ensures { CheckCall technique memory.now n edges.now place.old result place.new }
{
    wide::pg_check_wide(technique, memory, n, edges, place)
}

#[unsafe(no_mangle)]
pub extern "C" fn pg_read_wide_parcel(
    parcel: &[u8],
    memory: &mut [u64],
    edges: &mut [u32],
    counts: &mut [u64],
) -> u32
    ensures { ReadCall 4 parcel.now memory.old edges.old counts.old result memory.new edges.new counts.new }
{
    wide::pg_read_wide_parcel(parcel, memory, edges, counts)
}

#[unsafe(no_mangle)]
pub extern "C" fn pg_write_wide_parcel(
    memory: &[u64],
    n: usize,
    edges: &[u32],
    parcel: &mut [u8],
    count: &mut [u64],
    place: &mut [u64],
) -> u32
    ensures { WritePlacedCall 4 memory.now n edges.now parcel.old count.old place.old result parcel.new count.new place.new }
{
    wide::pg_write_wide_parcel(memory, n, edges, parcel, count, place)
}

#[unsafe(no_mangle)]
pub extern "C" fn pg_widen(
    parcel: &[u8],
    wide: &mut [u8],
    count: &mut [u64],
    place: &mut [u64],
) -> u32
    ensures { PutCall (λ short. widened_of short (read_of 2 parcel.now)) (bytes_for 4 (read_of 2 parcel.now)) wide.old count.old place.old result wide.new count.new place.new }
{
    wide::pg_widen(parcel, wide, count, place)
}

#[unsafe(no_mangle)]
pub extern "C" fn pg_narrow(
    wide: &[u8],
    parcel: &mut [u8],
    count: &mut [u64],
    place: &mut [u64],
) -> u32
    ensures { PutCall (λ short. narrowed_of short (read_of 4 wide.now)) (bytes_for 2 (read_of 4 wide.now)) parcel.old count.old place.old result parcel.new count.new place.new }
{
    wide::pg_narrow(wide, parcel, count, place)
}

#[unsafe(no_mangle)]
pub extern "C" fn pg_rewrite(
    memory: &[u64],
    n: usize,
    edges: &[u16],
    code: &mut [u64],
    new_edges: &mut [u16],
    map: &mut [u16],
    counts: &mut [u64],
    place: &mut [u64],
) -> u32
    ensures { RewriteCall memory.now n edges.now code.old new_edges.old map.old counts.old place.old result code.new new_edges.new map.new counts.new place.new }
{
    installer::pg_rewrite(memory, n, edges, code, new_edges, map, counts, place)
}

#[unsafe(no_mangle)]
pub extern "C" fn pg_shortest_path(
    technique: u8,
    memory: &[u64],
    n: usize,
    edges: &[u16],
    address: u64,
    path: &mut [u16],
    count: &mut [u64],
    place: &mut [u64],
) -> u32
    ensures { PathCall technique memory.now n edges.now address path.old count.old place.old result path.new count.new place.new }
{
    manager::pg_shortest_path(technique, memory, n, edges, address, path, count, place)
}
