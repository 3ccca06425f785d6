// Carries out the calls of a session on any store, and prints what each did.
ghost use Rattle.std.specs.Prelude.{◌≡◌, IfOk, Ok, Err, vec_len, string_bytes};
ghost use Rattle.geltzori.specs.Filing.{IsBody, IsRefusal};
ghost use Rattle.geltzori.specs.Pictures.{row_of, symbol_at, symbol_of};
ghost use Rattle.voxels.specs.Space.{voxel_count};

use crate::command::{Call, MOST_LENT};
use crate::faults::{Fault, Flaw, Line};
use crate::hex::write_hex;
use bodies::{Loaded, load, verdict, write};
use scans::{Scanned, scan};
use std::alloc::{AllocError, Global};
use std::rt::Files;
use std::{fmt, fs, io};
use stores::{Store, apply};
use voxels::{Refusal, State, Voxel, side, voxel_count};

pub fn introduce<S: Store>(rt: &impl Print, store: &S) -> io::Result<()> {
    let letter = S::LETTER;
    let depth = store.depth();
    let limit = store.limit();
    println!(rt; "unit {letter} depth {depth} limit {limit}")
}

// What calls are lent to work with.
#[derive(Drop)]
struct Lent {
    page: Vec<u16>,
    output: Vec<u8>,
}

impl Lent {
    fn new(heap: Global, depth: u8) -> Result<Lent, AllocError>
        ensures { IfOk result (λ lent. (vec_len lent.page ≡ voxel_count depth) × (vec_len lent.output ≡ 65536)) }
    {
        Ok(Lent {
            page: vec![in heap; 0u16; voxel_count(depth)]?,
            output: vec![in heap; 0u8; MOST_LENT]?,
        })
    }

    // The body of a store's map, which is written to the lent output.
    fn body<S: Store>(&mut self, store: &S) -> Result<&[u8], Refusal>
        ensures { elim result [ Ok bytes ↦ IsBody (S.Store.shape store.now).depth (S.Store.cell store.now) (vec_len self.old.page) (vec_len self.old.output) bytes.now | Err e ↦ IsRefusal (S.Store.shape store.now).depth (S.Store.cell store.now) (vec_len self.old.page) (vec_len self.old.output) e ] }
    {
        let length = write(store, &mut self.page, &mut self.output)?;
        Ok(&self.output[..length])
    }
}

// What a call tells that was taken.
#[derive(Clone, Copy)]
pub struct Taken<T>(T);

impl fmt::Display for Taken<()> {
    fn fmt<W: fmt::Write>(&self, f: &mut fmt::Formatter<W>) -> fmt::Result {
        f.write_str("ok")
    }
}

impl fmt::Display for Taken<Scanned> {
    fn fmt<W: fmt::Write>(&self, f: &mut fmt::Formatter<W>) -> fmt::Result {
        let Scanned { used, set, skipped } = self.0;
        write!(f, "ok used {used} set {set} skipped {skipped}")
    }
}

impl fmt::Display for Taken<Loaded> {
    fn fmt<W: fmt::Write>(&self, f: &mut fmt::Formatter<W>) -> fmt::Result {
        let Loaded { set, skipped } = self.0;
        write!(f, "ok set {set} skipped {skipped}")
    }
}

impl fmt::Display for Taken<&[u8]> {
    fn fmt<W: fmt::Write>(&self, f: &mut fmt::Formatter<W>) -> fmt::Result {
        f.write_str("ok ")?;
        write_hex(self.0, f)
    }
}

pub fn replay<S: Store>(
    rt: &(impl Print + Files + AllocGlobal),
    store: &mut S,
    calls: &[Call<'_>],
) -> Result<(), Fault> {
    let mut lent = Lent::new(rt.alloc(), store.depth())?;
    for call in calls {
        carry_out(rt, store, &mut lent, call)?;
    }
    Ok(())
}

fn carry_out<S: Store>(
    rt: &(impl Print + Files + AllocGlobal),
    store: &mut S,
    lent: &mut Lent,
    call: &Call<'_>,
) -> Result<(), Fault> {
    match call {
        Call::Set { index, value } => tell(rt, "set", store.set(*index, *value))?,
        Call::Event { index, event } => tell(rt, *event, apply(store, *index, *event))?,
        Call::Read { index } => println!(rt; "read {}", store.read(*index))?,
        Call::Clear => {
            store.clear();
            tell(rt, "clear", Ok(()))?
        }
        Call::Show => show(rt, store)?,
        Call::Page { words } => {
            lent.page = vec![in rt.alloc(); 0u16; *words]?;
            println!(rt; "page {words}")?
        }
        Call::Scan(text) => tell(rt, "scan", scan(store, &mut lent.page, text))?,
        Call::Load(body) => tell(rt, "load", load(store, &mut lent.page, body))?,
        Call::Write => tell(rt, "write", lent.body(store))?,
        Call::WriteFile { line, path } => file_body(rt, lent.body(store), *line, *path)?,
        Call::Room { bytes } => {
            lent.output = vec![in rt.alloc(); 0u8; *bytes]?;
            println!(rt; "room {bytes}")?
        }
        Call::Check { depth, body } => println!(rt; "check {}", verdict(*depth, body))?,
    }
    Ok(())
}

// Writes a body to a file. One that was refused leaves the file.
fn file_body(
    rt: &(impl Print + Files + AllocGlobal),
    body: Result<&[u8], Refusal>,
    line: Line<'_>,
    path: &str,
) -> Result<(), Fault> {
    if let Ok(bytes) = body {
        fs::write(rt, path, bytes).map_err(|_| line.fault(rt.alloc(), Flaw::NotWritten))?;
    }
    Ok(tell(rt, "write", body)?)
}

// Prints what a call answered: that it was taken, and what it tells then, or why it was refused.
pub fn tell<T: Drop>(
    rt: &impl Print,
    call: impl fmt::Display + Drop,
    answer: Result<T, Refusal>,
) -> io::Result<()>
where
    Taken<T>: fmt::Display,
{
    match answer.map(Taken) {
        Ok(taken) => println!(rt; "{call} {taken}"),
        Err(refusal) => println!(rt; "{call} {refusal}"),
    }
}

fn show<S: Store>(rt: &(impl Print + AllocGlobal), store: &S) -> io::Result<()> {
    let side = side(store.depth());
    if side == 0 {
        return println!(rt; "no voxels");
    }
    for z in 0..side {
        println!(rt; "z {z}")?;
        show_layer(rt, store, z)?;
    }
    Ok(())
}

fn show_layer<S: Store>(rt: &(impl Print + AllocGlobal), store: &S, z: u16) -> io::Result<()> {
    for y in 0..side(store.depth()) {
        println!(rt; "{}", row(rt.alloc(), store, y, z)?)?;
    }
    Ok(())
}

fn row<S: Store>(heap: Global, store: &S, y: u16, z: u16) -> Result<String, AllocError>
    ensures { IfOk result (λ s. string_bytes s ≡ row_of (S.Store.shape store.now) (S.Store.cell store.now) y z) }
{
    (0..side(store.depth()))
        .map(|x| symbol_at(store, Voxel { x, y, z }))
        .collect(heap)
}

// What a map shows at a voxel. One outside the map is not open.
fn symbol_at<S: Store>(store: &S, voxel: Voxel) -> char
    ensures { result ≡ symbol_at (S.Store.shape store.now) (S.Store.cell store.now) voxel }
{
    match voxel.index(store.depth()) {
        Some(index) => symbol(store.open(index), store.read(index).state()),
        None => 'x',
    }
}

fn symbol(is_open: bool, state: State) -> char
    ensures { result ≡ symbol_of is_open state }
{
    if !is_open {
        return 'x';
    }
    match state {
        State::Occupied => '#',
        State::Free => '.',
        State::Unknown => '?',
    }
}
