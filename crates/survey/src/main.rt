#![tactic(auto)]

// Reads the sheet of a yard, checks every rule, and prints what it found.
use net::fault::Fault;
use net::nets::MOST_NODES;
use sheet::fault::SheetFault;
use sheet::sheet::Sheet;
use std::fs;
use std::io::ErrorKind;

fn main(rt: HostRuntime) -> anyhow::Result<()> {
    let input = yard_bytes(&rt)?;
    let mut yard = Sheet::new();
    let mut marks = [0; MOST_NODES];
    match yard.read(&input, &mut marks) {
        Ok(()) => describe(&rt, &yard, &mut marks),
        Err(fault) => refuse(&rt, &fault),
    }
}

// The bytes of yard.sheet; a missing file counts as an empty one.
fn yard_bytes(rt: &HostRuntime) -> anyhow::Result<Vec<u8>> {
    match fs::read(rt, "yard.sheet") {
        Ok(bytes) => Ok(bytes),
        Err(e) if e.kind() == ErrorKind::NotFound => Ok(Vec::new(rt.alloc())),
        Err(e) => Err(e.into()),
    }
}

fn refuse(rt: &HostRuntime, fault: &SheetFault) -> anyhow::Result<()> {
    println!(rt; "{}", fault.refusal())?;
    println!(rt; "{fault}")?;
    Ok(())
}

fn describe(rt: &HostRuntime, yard: &Sheet, marks: &mut [u8]) -> anyhow::Result<()> {
    let trains = yard.listing().train_count();
    let places = yard.listing().place_count();
    let moves = yard.move_count();
    let conflicts = yard.conflict_count();
    println!(rt;
        "accepted: {trains} trains, {places} places, {moves} moves, {conflicts} conflicting pairs"
    )?;
    for train in 0..trains {
        describe_train(rt, yard, marks, train)?;
    }
    Ok(())
}

fn describe_train(
    rt: &HostRuntime,
    yard: &Sheet,
    marks: &mut [u8],
    train: usize,
) -> anyhow::Result<()> {
    let Some(start) = yard.listing().start(train) else {
        return Ok(());
    };
    let places = yard.places_of(train);
    match yard.longest_way(marks, train, start) {
        Ok(blocks) => println!(rt;
            "train {train}: starts at place {start}, has {places} places, longest way enters {blocks} blocks"
        )?,
        Err(fault) => println!(rt; "train {train}: refused {}", fault.refusal().number)?,
    }
    Ok(())
}
