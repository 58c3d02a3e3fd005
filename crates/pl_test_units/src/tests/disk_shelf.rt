use pl_shelf::{DiskShelf, LoadError, SaveError, Shelf, append, load, save};
use std::alloc::Global;
use std::test::Fail;
use std::{env, fs, process};

const DIGITS: &[u8] = b"0123456789";

fn due(holds: bool, what: &str) -> Result<(), Fail> {
    if holds { Ok(()) } else { Err(Fail::from(what)) }
}

fn is_absent(alloc: Global, shelf: &mut impl Shelf, name: &str) -> bool {
    matches!(load(alloc, shelf, name, 99), Err(LoadError::Fault))
}

fn holds(
    alloc: Global,
    shelf: &mut impl Shelf,
    name: &str,
    wanted: &[u8],
) -> Result<bool, LoadError> {
    Ok(load(alloc, shelf, name, 99)?.bytes() == wanted)
}

// Each file is closed for the other one, which has had a longer text.
fn write_by_turns(shelf: &mut impl Shelf, name: &str, other: &str) -> Result<(), SaveError> {
    save(shelf, other, b"xyz")?;
    save(shelf, name, &DIGITS[..4])?;
    save(shelf, other, b"x")?;
    append(shelf, name, &DIGITS[4..])?;
    append(shelf, other, b"y")
}

fn starts_at(shelf: &mut impl Shelf, name: &str, at: u64, wanted: &[u8]) -> bool {
    let mut piece = [0; 4];
    match shelf.read_at(name, at, &mut piece) {
        Ok(n) => &piece[..n] == wanted,
        Err(_) => false,
    }
}

fn is_read_at_any_offset(shelf: &mut impl Shelf, name: &str) -> bool {
    [0, 0, 4, 2, 8, 10, 6, 99].iter().all(|at| {
        let front = DIGITS.len().min(*at);
        let back = DIGITS.len().min(front + 4);
        starts_at(shelf, name, *at as u64, &DIGITS[front..back])
    })
}

fn play(alloc: Global, shelf: &mut impl Shelf, name: &str, other: &str) -> Result<(), Fail> {
    due(is_absent(alloc, shelf, "-"), "standard output was read")?;
    due(is_absent(alloc, shelf, name), "a file was there")?;
    due(append(shelf, name, b"x").is_err(), "nothing was added to")?;
    write_by_turns(shelf, name, other)?;
    due(
        holds(alloc, shelf, name, DIGITS)?,
        "a file holds other bytes",
    )?;
    due(
        holds(alloc, shelf, other, b"xy")?,
        "the other holds other bytes",
    )?;
    due(is_read_at_any_offset(shelf, name), "another piece was read")
}

#[test]
fn files_on_the_disk_hold_what_was_written(rt: HostRuntime) -> Result<(), Fail> {
    let id = process::id(rt.process());
    let temporary = env::temp_dir(&rt)?;
    let folder = format!(in rt.alloc(); "{}/pl_shelf-{id}", temporary.display())?;
    let name = format!(in rt.alloc(); "{folder}/a/b")?;
    let other = format!(in rt.alloc(); "{folder}/c")?;
    let mut shelf = DiskShelf::new(rt.alloc(), &rt);
    play(rt.alloc(), &mut shelf, &name, &other)?;
    fs::remove_dir_all(&rt, &folder)?;
    Ok(())
}
