// Artefacts, in memory and as files.
use super::files::{had, name_of};
use kq_value::Memory;
use kq_world::{Artefact, Artefacts, Failed, FolderArtefacts, MemoryArtefacts, RealWorld, World};
use std::alloc::Global;
use std::fs;
use std::process::Abort;

// Artefacts whose second put fails.
fn artefacts(alloc: Global) -> Result<MemoryArtefacts, Memory> {
    let fails = [2].to_vec(alloc)?;
    Ok(MemoryArtefacts::new(alloc, fails))
}

fn put_each(rt: &impl Abort, artefacts: &mut MemoryArtefacts) {
    for (name, bytes, want) in [
        ("a", b"1".as_slice(), Ok(())),
        ("b", b"2".as_slice(), Err(Failed)),
        ("b", b"3".as_slice(), Ok(())),
        ("a", b"".as_slice(), Ok(())),
    ] {
        let put = artefacts.put(name, bytes);
        assert!(rt; put == want, "at {name}");
    }
}

fn is_put(artefact: &Artefact, name: &str, bytes: &[u8]) -> bool {
    artefact.name.as_str() == name && artefact.bytes.as_slice() == bytes
}

// Whether these were put, in order.
fn are_put(puts: &[Artefact]) -> bool {
    match puts {
        [a, b, c] => is_put(a, "a", b"1") && is_put(b, "b", b"3") && is_put(c, "a", b""),
        _ => false,
    }
}

#[test]
fn artefacts_in_memory_keep_what_was_put(rt: HostRuntime) {
    let kept = match artefacts(rt.alloc()) {
        Ok(mut artefacts) => {
            put_each(&rt, &mut artefacts);
            are_put(artefacts.puts()) && artefacts.faults() == 1
        }
        Err(_) => false,
    };
    assert!(rt; kept);
}

// Puts it, and then the other in its place.
fn puts_twice(artefacts: &mut FolderArtefacts, name: &str) -> bool {
    artefacts.put(name, b"a long one\n") == Ok(()) && artefacts.put(name, b"1\n") == Ok(())
}

// Whether it can't be put where no folder is.
fn fails_nowhere(
    alloc: Global,
    artefacts: &mut FolderArtefacts,
    name: &str,
) -> Result<bool, Memory> {
    let nowhere = format!(in alloc; "{name}/a.csv")?;
    Ok(artefacts.put(nowhere.as_str(), b"1\n") == Err(Failed))
}

// Whether no file with `.part` added is left.
fn left_no_part(rt: HostRuntime, name: &str) -> Result<bool, Memory> {
    let part = format!(in rt.alloc(); "{name}.part")?;
    Ok(fs::read(&rt, part.as_str()).is_err())
}

fn is_whole(rt: HostRuntime, artefacts: &mut FolderArtefacts, name: &str) -> Result<bool, Memory> {
    let done = puts_twice(artefacts, name);
    let failed = fails_nowhere(rt.alloc(), artefacts, name)?;
    let left = had(rt, name, b"1\n");
    Ok(done && failed && left && left_no_part(rt, name)?)
}

fn is_file(rt: HostRuntime) -> Result<bool, Memory> {
    let name = name_of(rt, "csv")?;
    is_whole(rt, &mut FolderArtefacts::new(rt), name.as_str())
}

#[test]
fn a_real_artefact_is_a_whole_file(rt: HostRuntime) {
    assert!(rt; is_file(rt) == Ok(true));
}

fn sends<T: Send>(_x: &T) {}

#[test]
fn the_real_world_gives_artefacts_that_may_cross_threads(rt: HostRuntime) {
    let mut world = RealWorld::new(rt);
    sends(&world.artefacts());
}
