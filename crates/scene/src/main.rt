// Reads the examples of files and nine real scenes: prints the blocks, walks them, and asks for their views, addresses and codes; then the
// catalogue of a real scene, in both byte orders. The file stdout has what that has to be. What cannot be written is passed over.
#![tactic(auto)]

mod catalogue;

ghost use Rattle.std.specs.Prelude.{◌*◌, ◌^◌, ◌<◌, ◌≤◌, length};

use blend::blend::{BlendError, RawBlend, blend};
use block::Row;
use header::blend::header;
use held::{find_in, step_from};
use octets::{Endianness, Refusal};
use runtime::runtime::{Pointer, code, get_ptr, view, view_part};
use std::rt::Files;
use std::{fs, io};
use walker::{Place, Step};

// What a table holds before a call: as a code it is none, and as an offset it lies past every file.
const FILL: u64 = 1000000007;

// The rows of a table that has enough for every file here, and its numbers.
const ROWS: usize = 512;

const NUMBERS: usize = ROWS * Row::NUMBERS;

// A number made of the low 16 bits of all numbers and of their order.
fn sum<T: Copy + Into<u64>>(numbers: &[T]) -> u32 {
    let mut all = 0u32;
    for n in numbers {
        let n: u64 = (*n).into();
        all = all.wrapping_mul(31).wrapping_add((n % 65536) as u32);
    }
    all
}

// A row of its numbers. As vectors has it, which knows none of this program: seven names are no plainer as a conversion that a library promises.
fn row_of(numbers: &[u64; Row::NUMBERS]) -> Row {
    let [code, address, index, count, at, payload, len] = *numbers;
    Row {
        code,
        address,
        index,
        count,
        at,
        payload,
        len,
    }
}

// A line for each of the first rows.
fn each_row<F: Fn(usize, Row)>(table: &[u64], rows: usize, line: F)
    requires { F.IsAlwaysCallable line }
{
    let (table, _) = table.as_chunks();
    for (row, numbers) in table.iter().take(rows).enumerate() {
        line(row, row_of(numbers));
    }
}

// Whether a table's numbers from one on are those that it was filled with.
fn kept_line(rt: &impl Print, table: &[u64], from: usize) {
    let kept = table.iter().skip(from).all(|n| *n == FILL);
    let _ = println!(rt;
        "table from {from} {}",
        if kept { "unchanged" } else { "changed" }
    );
}

// A header alone, with its length.
fn header_line(rt: &impl Print, file: &str) {
    let _ = match header(file.as_bytes()) {
        Ok((h, len)) => println!(rt; "header of \"{file}\": bytes {len} {h}"),
        Err(f) => println!(rt; "header of \"{file}\": refused {f}"),
    };
}

fn block_line(rt: &impl Print, row: usize, r: Row) {
    let Row {
        code,
        address,
        index,
        count,
        at,
        payload,
        len,
    } = r;
    let _ = println!(rt; "block {row} {code:08x} {address} {index} {count} {at} {payload} {len}");
}

// An address that was looked for among so many rows, and the answer.
fn pointer(rt: &impl Print, rows: usize, address: u64, found: Result<Pointer, Refusal>) {
    let _ = print!(rt; "address {address} in {rows} ");
    let _ = match found {
        Ok(Pointer::Null) => print!(rt; "null"),
        Ok(Pointer::Block(row)) => print!(rt; "row {row}"),
        Ok(Pointer::Missing) => print!(rt; "missing"),
        Err(r) => print!(rt; "refused {r}"),
    };
}

fn code_line(rt: &impl Print, n: u64) {
    let _ = match code(n) {
        Some(bytes) => println!(rt; "code {n:08x} is {:08x}", u32::from_be_bytes(bytes)),
        None => println!(rt; "code {n:08x} none"),
    };
}

fn pointer_line(rt: &impl Print, table: &[u64], rows: usize, address: u64) {
    pointer(rt, rows, address, get_ptr(table, rows, address));
    let _ = println!(rt);
}

// What the reader answers, with the rows that it wrote; and how many these are.
fn list(rt: &impl Print, answer: Result<RawBlend, BlendError>, table: &[u64]) -> usize {
    match answer {
        Ok(b) => {
            let RawBlend {
                header,
                rows,
                end,
                dna,
            } = b;
            let _ = println!(rt; "blend {header}");
            each_row(table, rows, |row, r| block_line(rt, row, r));
            let _ = println!(rt;
                "dna {} {} {} {}",
                dna.names, dna.types, dna.structs, dna.fields
            );
            let _ = println!(rt; "end {end}");
            rows
        }
        Err(BlendError::Fault(f)) => {
            let _ = println!(rt; "refused {f}");
            0
        }
        Err(BlendError::TableTooShort(rows)) => {
            let _ = println!(rt; "refused {} {rows}", Refusal::BLOCK_TABLE_TOO_SHORT);
            0
        }
    }
}

// Where a walk came to, after how many blocks, and whether they were the table's rows.
#[derive(Drop)]
struct Walked {
    place: Place,
    blocks: usize,
    same: bool,
}

// A step's answer, and the place that it hands back, by a walker that holds the file.
fn step_line(rt: &impl Print, label: &str, place: Place, file: &[u8]) -> Place {
    match step_from(file, place) {
        Step::Block(r, next) => {
            let _ = print!(rt; "{label} block at {}", r.at);
            next
        }
        Step::End(at, next) => {
            let _ = print!(rt; "{label} end {at}");
            next
        }
        Step::Refused(f, next) => {
            let _ = print!(rt; "{label} refused {f}");
            next
        }
    }
}

// A place past the end of every file here.
const PAST: Place = Place {
    at: 1000000,
    dna: true,
};

// What is asked after a reading: the file, the table, and how many of its rows the file's blocks have.
#[derive(Clone, Copy)]
struct Reading<'a> {
    file: &'a [u8],
    table: &'a [u64],
    rows: usize,
}

impl<'a> Reading<'a> {
    // From the start to the first step that gives no block; at most as many blocks as the table has rows.
    fn walk(self) -> Walked {
        let mut place = Place::start();
        let mut same = true;
        let (table, _) = self.table.as_chunks();
        for (blocks, numbers) in table.iter().enumerate() {
            let Step::Block(r, next) = place.step(self.file) else {
                return Walked {
                    place,
                    blocks,
                    same,
                };
            };
            same = same && r == row_of(numbers);
            place = next;
        }
        Walked {
            place,
            blocks: table.len(),
            same,
        }
    }

    // The walk, the step after its blocks, and that step once more; then a step from a place past the end.
    fn walk_line(self, rt: &impl Print) {
        let w = self.walk();
        let same = if w.same { "as" } else { "not as" };
        let _ = print!(rt; "walk {} {same} in the table", w.blocks);
        let last = step_line(rt, ", then", w.place, self.file);
        step_line(rt, ", again", last, self.file);
        step_line(rt, ", past the end", PAST, self.file);
        let _ = println!(rt);
    }

    // Whether a row's part is there, its length and its sum.
    fn view(self, rt: &impl Print, row: usize) {
        let _ = match view(self.file, self.table, row) {
            Ok(()) => print!(rt; "view {row} there"),
            Err(r) => print!(rt; "view {row} refused {r}"),
        };
        let part = view_part(self.file, self.table, row);
        let _ = print!(rt; " length {} sum {}", part.len(), sum(part));
    }

    // A row's view, the row that its address leads to, and its code.
    fn row_line(self, rt: &impl Print, row: usize, r: Row) {
        self.view(rt, row);
        let _ = print!(rt; " ");
        pointer(
            rt,
            self.rows,
            r.address,
            get_ptr(self.table, self.rows, r.address),
        );
        let _ = print!(rt; " ");
        code_line(rt, r.code);
    }

    fn view_line(self, rt: &impl Print, row: usize) {
        self.view(rt, row);
        let _ = println!(rt);
    }
}

// Reads a file, and asks all that can be asked of it; answers the number of rows.
fn report(rt: &impl Print, file: &[u8], table: &mut [u64]) -> usize {
    let rows = list(rt, blend(file, table), table);
    if rows <= table.len() / Row::NUMBERS {
        kept_line(rt, table, rows * Row::NUMBERS);
    }
    let read = Reading { file, table, rows };
    read.walk_line(rt);
    each_row(table, rows, |row, r| read.row_line(rt, row, r));
    read.view_line(rt, rows);
    read.view_line(rt, ROWS);
    rows
}

// The tables here are arrays, filled: what a refused call leaves is shown, and the library takes them of any length.
fn example(rt: &impl Print, title: &str, file: &[u8]) {
    let mut table = [FILL; NUMBERS];
    let _ = println!(rt; "{title}");
    report(rt, file, &mut table);
}

// With a table of so many numbers, which are too few.
fn with_few<const N: usize>(rt: &impl Print, file: &[u8])
    requires { N * 8 < 2 ^ 63 }
{
    let mut table = [FILL; N];
    let _ = println!(rt; "table of {N} numbers");
    list(rt, blend(file, &mut table), &table);
    kept_line(rt, &table, 0);
}

// With enough rows: the five lines and nothing else. Then with one row, and with one row and six numbers, which are no row.
fn hull(rt: &impl Print, file: &[u8]) {
    let mut table = [FILL; NUMBERS];
    list(rt, blend(file, &mut table), &table);
    with_few::<7>(rt, file);
    with_few::<13>(rt, file);
}

fn hull_file(rt: &impl Print) {
    hull(
        rt,
        b"BLENDER-v280\
        OB\0\0\x04\0\0\0\x10\0\0\0\0\0\0\0\x03\0\0\0\x01\0\0\0hull\
        DNA1\x34\0\0\0\x20\0\0\0\0\0\0\0\0\0\0\0\x01\0\0\0\
        SDNANAME\x01\0\0\0x\0\0\0TYPE\x01\0\0\0int\0TLEN\x04\0\0\0STRC\x01\0\0\0\0\0\x01\0\0\0\0\0\
        ENDB",
    );
}

// Files that are a header or less, and one that ends after it.
const HEADERS: [&str; 4] = ["BLENDE", "BLENDER", "BLENDER-v280", "BLENDER-v280ENDB"];

fn headers(rt: &impl Print) {
    for file in HEADERS {
        header_line(rt, file);
    }
    for file in HEADERS {
        example(rt, file, file.as_bytes());
    }
}

fn code_of_zeros(rt: &impl Print) {
    example(
        rt,
        "code of four zeros, count 1",
        b"BLENDER-v280\
        \0\0\0\0\x04\0\0\0\x10\0\0\0\0\0\0\0\x03\0\0\0\x01\0\0\0hull\
        DNA1\x34\0\0\0\x20\0\0\0\0\0\0\0\0\0\0\0\x01\0\0\0\
        SDNANAME\x01\0\0\0x\0\0\0TYPE\x01\0\0\0int\0TLEN\x04\0\0\0STRC\x01\0\0\0\0\0\x01\0\0\0\0\0\
        ENDB",
    );
    example(
        rt,
        "code of four zeros, count 2",
        b"BLENDER-v280\
        \0\0\0\0\x04\0\0\0\x10\0\0\0\0\0\0\0\x03\0\0\0\x02\0\0\0hull\
        ENDB",
    );
}

fn faults(rt: &impl Print) {
    example(
        rt,
        "REND with address 0",
        b"BLENDER-v280\
        REND\x04\0\0\0\0\0\0\0\0\0\0\0\x03\0\0\0\x01\0\0\0hull\
        ENDB",
    );
    example(
        rt,
        "REND with address 0, cut after it",
        b"BLENDER-v280\
        REND\x04\0\0\0\0\0\0\0\0\0\0\0",
    );
    example(
        rt,
        "unknown code, cut payload",
        b"BLENDER-v280\
        USER\x04\0\0\0\x10\0\0\0\0\0\0\0\x03\0\0\0\x01\0\0\0hul",
    );
    example(
        rt,
        "unknown code, whole payload",
        b"BLENDER-v280\
        USER\x04\0\0\0\x10\0\0\0\0\0\0\0\x03\0\0\0\x01\0\0\0hull",
    );
}

// The search, over a table of which so many rows are filled.
fn pointers(rt: &impl Print, table: &[u64], rows: usize) {
    for address in [0, 32, 64, 16, 48] {
        pointer_line(rt, table, rows, address);
    }
    pointer_line(rt, table, 1, 32);
    pointer_line(rt, table, ROWS, FILL);
    pointer_line(rt, table, ROWS + 1, 32);
    pointer_line(rt, table, ROWS + 1, 0);
}

fn record_line(rt: &impl Print, rows: [Row; 4], n: usize, address: u64) {
    let _ = print!(rt; "records ");
    pointer(rt, n, address, find_in(rows, n, address));
    let _ = println!(rt);
}

// The search again, over four rows as records.
fn records(rt: &impl Print, rows: [Row; 4]) {
    for address in [0, 32, 64, 16, 48] {
        record_line(rt, rows, 4, address);
    }
    record_line(rt, rows, 1, 32);
    record_line(rt, rows, 5, 32);
    record_line(rt, rows, 5, 0);
}

fn codes(rt: &impl Print) {
    for n in [
        0x5245_4e44,
        0x5445_5354,
        0x454e_4442,
        0x4f42_0001,
        0x1_4f42_0000,
    ] {
        code_line(rt, n);
    }
}

// A GLOB, an OB and a DATA, the last two with one address.
fn addresses(rt: &impl Print, file: &[u8]) {
    let mut table = [FILL; NUMBERS];
    let _ = println!(rt; "equal addresses");
    let rows = report(rt, file, &mut table);
    pointers(rt, &table, rows);
    if let ([a, b, c, d, ..], _) = table.as_chunks() {
        records(rt, [row_of(a), row_of(b), row_of(c), row_of(d)]);
    }
    codes(rt);
}

fn addresses_file(rt: &impl Print) {
    addresses(
        rt,
        b"BLENDER-v280\
        GLOB\x04\0\0\0\x10\0\0\0\0\0\0\0\x03\0\0\0\x01\0\0\0glob\
        OB\0\0\x04\0\0\0\x20\0\0\0\0\0\0\0\x04\0\0\0\x01\0\0\0hull\
        DATA\x08\0\0\0\x20\0\0\0\0\0\0\0\x05\0\0\0\x02\0\0\0ENDBdeck\
        DNA1\x34\0\0\0\x30\0\0\0\0\0\0\0\0\0\0\0\x01\0\0\0\
        SDNANAME\x01\0\0\0x\0\0\0TYPE\x01\0\0\0int\0TLEN\x04\0\0\0STRC\x01\0\0\0\0\0\x01\0\0\0\0\0\
        ENDB",
    );
}

// Reads until the buffer is full, the file ends or a read fails; what there is then. A loop, since what std has for it tries a read again that was interrupted.
fn read_full<'a, R: io::Read + Drop>(mut file: R, buffer: &'a mut [u8]) -> &'a [u8]
    ensures { length result.now ≤ length buffer.old }
{
    let mut n = 0;
    while n < buffer.len() {
        match file.read(&mut buffer[n..]) {
            Ok(0) => break,
            Ok(more) => n += more,
            Err(_) => break,
        }
    }
    &buffer[..n]
}

// Opens a file of data/, and shows what it has.
fn sample<F: Fn(&[u8])>(rt: &(impl Files + Print + Eprint), path: &str, show: F)
    requires { F.IsAlwaysCallable show }
{
    match fs::open(rt, path) {
        Ok(file) => {
            let mut buffer = [0u8; 131072];
            show(read_full(file, &mut buffer));
        }
        Err(e) => {
            let _ = eprintln!(rt; "{path}: {e}");
        }
    }
}

const SCENES: [&str; 9] = [
    "lamp.blend",
    "lamp_legacy32big.blend",
    "lamp_legacy32little.blend",
    "lamp_legacy64big.blend",
    "lamp_legacy64little.blend",
    "lamp_new32big.blend",
    "lamp_new32little.blend",
    "lamp_new64big.blend",
    "lamp_new64little.blend",
];

fn scenes(rt: &(impl Files + Print + Eprint)) {
    for path in SCENES {
        sample(rt, path, |file| example(rt, path, file));
    }
}

// Each in its own order, and one in the other.
const CATALOGUES: [(&str, Endianness); 3] = [
    ("little.sdna", Endianness::Little),
    ("big.sdna", Endianness::Big),
    ("big.sdna", Endianness::Little),
];

fn catalogues(rt: &(impl Files + Print + Eprint)) {
    for (path, order) in CATALOGUES {
        sample(rt, path, |file| catalogue::report(rt, path, file, order));
    }
}

fn main(rt: HostRuntime) {
    hull_file(&rt);
    headers(&rt);
    code_of_zeros(&rt);
    faults(&rt);
    addresses_file(&rt);
    scenes(&rt);
    catalogues(&rt);
}
