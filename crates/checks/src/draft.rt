// Bytes of sheets, put together from short lists.
use net::fault::Fault;
use net::nets::MOST_NODES;
use sheet::fault::SheetFault;
use sheet::sheet::Sheet;
use std::alloc::{AllocError, Global};

// The byte of a move that leads out.
pub(crate) const OUT: u8 = 255;

// The train and the blocks 0 to 7 of each place, and the moves.
pub(crate) fn bytes_of(
    heap: Global,
    trains: u8,
    places: &[(u8, u8)],
    moves: &[(u8, u8)],
) -> Result<Vec<u8>, AllocError> {
    let mut bytes = Vec::new(heap);
    bytes.push(trains)?;
    bytes.push((places.len() & 0xff) as u8)?;
    bytes.extend(places.iter().map(|(train, _)| *train))?;
    for (_, blocks) in places {
        bytes.extend_from_slice(&[0, 0, 0, 0, 0, 0, 0, *blocks])?;
    }
    bytes.push((moves.len() & 0xff) as u8)?;
    bytes.extend(moves.iter().map(|(from, _)| *from))?;
    bytes.extend(moves.iter().map(|(_, to)| *to))?;
    Ok(bytes)
}

// Two trains that face each other on two blocks.
pub(crate) const FACING: [(u8, u8); 4] = [(0, 1), (0, 2), (1, 2), (1, 1)];

pub(crate) const CROSSING: [(u8, u8); 4] = [(0, 1), (1, OUT), (2, 3), (3, OUT)];

// Reads the bytes into a new sheet.
pub(crate) fn read(bytes: &[u8]) -> Result<Sheet, SheetFault> {
    let mut sheet = Sheet::new();
    let mut marks = [0; MOST_NODES];
    sheet.read(bytes, &mut marks)?;
    Ok(sheet)
}

// Whether the bytes are refused with this number at this place.
pub(crate) fn refused(bytes: &[u8], number: u8, place: usize) -> bool {
    read(bytes).is_err_and(|fault| {
        let refusal = fault.refusal();
        refusal.number == number && refusal.place == place
    })
}

pub(crate) fn accepted(bytes: &[u8]) -> bool {
    read(bytes).is_ok()
}

// The same of listed places and moves.
pub(crate) fn refuses(
    heap: Global,
    trains: u8,
    places: &[(u8, u8)],
    moves: &[(u8, u8)],
    number: u8,
    place: usize,
) -> Result<bool, AllocError> {
    let bytes = bytes_of(heap, trains, places, moves)?;
    Ok(refused(&bytes, number, place))
}
